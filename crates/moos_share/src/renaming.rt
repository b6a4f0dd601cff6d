// What a bridge posts of the letters that it fetched.
ghost use Rattle.std.specs.Prelude.{◌≡◌, IfOk, option_copied, option_to_list};
ghost use Rattle.moos_post.specs.Delivery.{selects};
ghost use Rattle.moos_post.specs.History.{name_of};
ghost use Rattle.moos_share.specs.Renaming.{carried_by, carried_name, renamed, rule_for, short_name};

use crate::carried_names::CarriedNames;
use crate::rule::{Rule, Rules};
use moos_db::Letter;
use moos_post::{Batch, Copied, Name, Names, NoMemory, Pair, Post};
use moos_reg::matches;
use std::alloc::Global;

/// The renaming of these letters, which were posted by clients with these names. Room is made once, for all of them.
pub(crate) fn renamed(
    alloc: Global,
    rules: &Rules,
    carried: &mut CarriedNames,
    names: &Names,
    mail: &[Letter],
) -> Result<Batch, NoMemory>
    ensures { IfOk result (λ batch. batch ≡ renamed names.now rules.now mail.now) }
{
    let mut pairs = Vec::with_capacity(alloc, mail.len())?;
    for letter in mail {
        if let Some(pair) = carried_by(alloc, rules, carried, names, &letter.post)? {
            pairs.push(pair)?;
        }
    }
    Ok(Batch::of(pairs))
}

// The post under the name that the first rule that selects it gives; none without such a rule, or if that name is too long.
fn carried_by(
    alloc: Global,
    rules: &Rules,
    carried: &mut CarriedNames,
    names: &Names,
    post: &Post,
) -> Result<Option<Pair>, NoMemory>
    ensures { IfOk result (λ pair. option_to_list pair ≡ carried_by post.now (rule_for names.now rules.now post.now)) }
{
    let Some(rule) = rule_for(rules, names, post) else {
        return Ok(None);
    };
    let Some(var) = carried_name(alloc, carried, rule, &post.var)? else {
        return Ok(None);
    };
    let value = post.value.copy(alloc)?;
    Ok(Some(Pair { var, value }))
}

// The first rule that selects the post.
fn rule_for<'a>(rules: &'a Rules, names: &Names, post: &Post) -> Option<&'a Rule>
    ensures { option_copied result ≡ rule_for names.now rules.now post.now }
{
    rules
        .all()
        .iter()
        .find(|rule| rule_selects(rule, names, post))
}

// Whether the rule's patterns match the post's variable and the name of its source.
fn rule_selects(rule: &Rule, names: &Names, post: &Post) -> bool
    ensures { result ≡ selects names.now rule.now.reg post.now }
{
    matches(&rule.reg.var, post.var.bytes())
        && matches(&rule.reg.source, name_of(names, post.source))
}

// The bytes of the client's name, none if nobody has the number.
fn name_of(names: &Names, client: u32) -> &[u8]
    ensures { result.now ≡ name_of names.now client }
{
    match names.all().get(client as usize) {
        Some(name) => name.bytes(),
        None => &[],
    }
}

// The name with the rule's prefix before it, if that has at most 64 bytes.
fn carried_name(
    alloc: Global,
    carried: &mut CarriedNames,
    rule: &Rule,
    var: &Name,
) -> Result<Option<Name>, NoMemory>
    ensures { IfOk result (λ name. name ≡ short_name (carried_name rule.now var.now)) }
{
    let Some(prefix) = &rule.prefix else {
        return Ok(Some(var.copy(alloc)?));
    };
    carried.with_prefix(alloc, prefix, var)
}
