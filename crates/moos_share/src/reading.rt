// A bridge file line by line.
ghost use Rattle.std.specs.Prelude.{◌≡◌, ℕ, ◌<◌, ◌^◌, [], ◌∷◌, Ok, Err, codes, IfErr, IfOk, IfNone, IfSome, OnOk, length};
ghost use Rattle.std.specs.List.{All};
ghost use Rattle.moos_text.specs.Lines.{is_unclosed, words_of};
ghost use Rattle.moos_text.specs.Refusals.{IsFirst, IsLineFault};
ghost use Rattle.moos_share.specs.BridgeFiles.{after_said, pattern_word, prefix_word, rule_of, rules_of, with_rule};
ghost use Rattle.moos_share.specs.Validity.{IsRule};

use crate::rule::{Rule, Rules};
use moos_post::{List, Name, NameFault, Pattern, PatternFault, Reg};
use moos_text::{Cause, LineFault, ReadFault, next_said, next_word};
use script_reader::time_of;
use std::alloc::Global;

// The most rules of a file.
const MAX_RULES: usize = 64;

// The longest prefix, in bytes.
const MAX_PREFIX: usize = 32;

/// Reads a bridge file: the rules that its bytes stand for, or its first refusal with its line, counted from 1, and its cause.
pub fn read_bridge(alloc: Global, bytes: &[u8]) -> Result<Rules, ReadFault>
    requires { length bytes.now < 2 ^ 32 }
    ensures read { IfOk result (λ rules. rules_of bytes.now ≡ Ok rules) }
    ensures refused { IfErr result (λ fault. IsFirst fault (rules_of bytes.now)) }
    ensures kept { IfOk result (All IsRule) }
{
    let mut rules = List::new(alloc);
    let mut lines: u32 = 0;
    let mut left = bytes;
    while let Some(said) = next_said(left) {
        lines += 1;
        read_line(alloc, &mut rules, lines, said.text, said.unclosed)?;
        left = said.rest;
    }
    Ok(rules)
}

// Reads the line of this number, which says this; a blank one says nothing.
fn read_line(
    alloc: Global,
    rules: &mut Rules,
    line: u32,
    text: &[u8],
    unclosed: bool,
) -> Result<(), ReadFault>
    requires { unclosed ≡ is_unclosed text.now }
    ensures read { OnOk result (after_said line rules.old text.now ≡ Ok rules.new) }
    ensures refused { IfErr result (λ fault. IsFirst fault (after_said line rules.old text.now)) }
{
    if text.len() == 0 {
        return Ok(());
    }
    match read_rule(alloc, rules, line, text, unclosed) {
        Ok(()) => Ok(()),
        Err(fault) => Err(fault.at(line)),
    }
}

// Reads a line that says something.
fn read_rule(
    alloc: Global,
    rules: &mut Rules,
    line: u32,
    text: &[u8],
    unclosed: bool,
) -> Result<(), LineFault>
    requires { unclosed ≡ is_unclosed text.now }
    ensures read { OnOk result (with_rule rules.old (record { line = line; text = text.now }) ≡ Ok rules.new) }
    ensures refused { IfErr result (λ fault. IsLineFault fault (with_rule rules.old (record { line = line; text = text.now }))) }
{
    if rules.len() >= MAX_RULES {
        return Err(LineFault::Refused(Cause::G6));
    }
    if unclosed {
        return Err(LineFault::Refused(Cause::G1));
    }
    let rule = rule_of(alloc, line, text)?;
    rules.add(rule)?;
    Ok(())
}

// The words behind `share`.
#[derive(Clone, Copy)]
struct RuleWords<'a> {
    var: &'a [u8],
    source: &'a [u8],
    interval: &'a [u8],
    prefix: &'a [u8],
}

// The rule of the line.
fn rule_of(alloc: Global, line: u32, text: &[u8]) -> Result<Rule, LineFault>
    ensures read { IfOk result (λ rule. rule_of line (words_of text.now) ≡ Ok rule) }
    ensures refused { IfErr result (λ fault. IsLineFault fault (rule_of line (words_of text.now))) }
{
    let Some(words) = rule_words(text) else {
        return Err(LineFault::Refused(Cause::G1));
    };
    let var = read_pattern(alloc, words.var)?;
    let source = read_pattern(alloc, words.source)?;
    let Some(interval) = time_of(words.interval) else {
        return Err(LineFault::Refused(Cause::G3));
    };
    let prefix = read_prefix(alloc, words.prefix)?;
    let reg = Reg {
        var,
        source,
        interval,
    };
    Ok(Rule { reg, prefix, line })
}

// The words of a line that is `share` and four words; None exactly if it isn't that.
fn rule_words(text: &[u8]) -> Option<RuleWords<'_>>
    ensures none { IfNone result ((line : ℕ) → rule_of line (words_of text.now) ≡ Err Cause.G1) }
    ensures words { IfSome result (λ words. words_of text.now ≡ codes "share" ∷ words.var.now ∷ words.source.now ∷ words.interval.now ∷ words.prefix.now ∷ []) }
{
    let (verb, text) = next_word(text)?;
    let (var, text) = next_word(text)?;
    let (source, text) = next_word(text)?;
    let (interval, text) = next_word(text)?;
    let (prefix, text) = next_word(text)?;
    if next_word(text).is_some() || verb != b"share".as_slice() {
        return None;
    }
    Some(RuleWords {
        var,
        source,
        interval,
        prefix,
    })
}

// The pattern that the word is.
fn read_pattern(alloc: Global, word: &[u8]) -> Result<Pattern, LineFault>
    ensures read { IfOk result (λ pattern. pattern_word word.now ≡ Ok pattern) }
    ensures refused { IfErr result (λ fault. IsLineFault fault (pattern_word word.now)) }
{
    match Pattern::read(alloc, word) {
        Ok(pattern) => Ok(pattern),
        Err(PatternFault::BadPattern) => Err(LineFault::Refused(Cause::G2)),
        Err(PatternFault::NoMemory) => Err(LineFault::NoMemory),
    }
}

// The prefix that the word stands for.
fn read_prefix(alloc: Global, word: &[u8]) -> Result<Option<Name>, LineFault>
    ensures read { IfOk result (λ prefix. prefix_word word.now ≡ Ok prefix) }
    ensures refused { IfErr result (λ fault. IsLineFault fault (prefix_word word.now)) }
{
    if word == b"-".as_slice() {
        return Ok(None);
    }
    if word.len() > MAX_PREFIX {
        return Err(LineFault::Refused(Cause::G5));
    }
    match Name::new(alloc, word) {
        Ok(name) => Ok(Some(name)),
        Err(NameFault::BadName) => Err(LineFault::Refused(Cause::G5)),
        Err(NameFault::NoMemory) => Err(LineFault::NoMemory),
    }
}
