// A condition: read, and judged by what is known.
ghost use Rattle.std.specs.Prelude.{◌≡◌, ◌<◌, ◌^◌, ◌++◌, ◌∷◌, [], length, Some, None, true, is_some, IfOk, OnOk, IsErrOf, option_copied, slice_get};
ghost use Rattle.helm_cond.specs.Flat.{names_among, bare, only_test, is_parenthesis, behind_parentheses};
ghost use Rattle.helm_cond.specs.Conditions.{holds};
ghost use Rattle.helm_cond.specs.Grammar.{condition_of, condition_said};
ghost use Rattle.helm_cond.specs.Infos.{knowledge_of};
ghost use Rattle.helm_cond.specs.KeptConditions.{condition_in};

use crate::comparison::Comparison;
use crate::cursor::Cursor;
use crate::fault::CondFault;
use crate::info::Info;
use crate::levels::Levels;
use crate::reading::{NextSymbol, next_symbol};
use crate::symbol::Symbol;
use moos_post::{Copied, List, Name, Names, NoMemory, Value};
use std::alloc::Global;
use std::marker::Model;

/// A condition. Contracts see it as what `not`, `and` and `or` make of comparisons.
///
/// It is kept as its symbols in reading order, so neither reading one nor asking whether it holds goes deeper the longer
/// it is.
#[derive(Debug, Drop)]
pub struct Cond {
    symbols: List<Symbol>,
    // The name in each comparison, from left to right.
    names: Names,
}

impl Model for Cond {
    ghost use Rattle.helm_cond.specs.contracts.symbol.Symbol as symbol;
    ghost use Rattle.helm_cond.specs.Coding.{condition_code};
    ghost use Rattle.helm_cond.specs.Conditions.{Condition};
    ghost use Rattle.helm_cond.specs.KeptConditions.{condition_in, IsKeptCondition};

    ghost Value = { Condition };

    ghost coded = { condition_code symbol.the_row.coded };

    ghost view = { λ c. condition_in c.symbols };

    ghost invariant = { λ c. IsKeptCondition c.symbols c.names };
}

impl Cond {
    ghost use Rattle.helm_cond.specs.Conditions.{names_in, parent_of};

    /// The condition that bytes stand for: comparisons of a name with a literal, joined by `or`, `and` and `not`, with
    /// parentheses at most 64 deep. They are refused as `BadCondition` only if they are no condition.
    pub fn read(alloc: Global, text: &[u8]) -> Result<Cond, CondFault>
        requires { length text.now < 2 ^ 32 }
        ensures ok { IfOk result (λ cond. condition_of text.now ≡ Some cond) }
        ensures bad { IsErrOf result CondFault.BadCondition → condition_of text.now ≡ None }
    {
        let mut symbols = Vec::new(alloc);
        let mut names = Vec::new(alloc);
        let mut place = Cursor::first();
        let mut rest = text;
        'symbols: while let Some(next) = next_symbol(alloc, rest)? {
            let NextSymbol {
                symbol,
                rest: behind,
            } = next;
            let Some(next_place) = place.behind(&symbol) else {
                return Err(CondFault::BadCondition);
            };
            keep(alloc, &mut symbols, &mut names, symbol)?;
            place = next_place;
            rest = behind;
        }
        if !place.is_whole() {
            return Err(CondFault::BadCondition);
        }
        Ok(Cond {
            symbols: List::of(symbols),
            names: List::of(names),
        })
    }

    /// How many comparisons it has.
    pub fn variables(&self) -> u32
        ensures { result ≡ length (names_in self.now) }
    {
        self.names.len() as u32
    }

    /// The name in the comparison at this place, counted from 0 from left to right; `MODE` is one like the others.
    pub fn variable(&self, place: u32) -> &Name
        requires { place < length (names_in self.now) }
        ensures { slice_get (names_in self.now) place ≡ Some result.now }
    {
        self.names.get(place as usize)
    }

    /// Whether it holds of what is known and of the mode's text.
    pub fn holds(&self, info: &Info, mode: &[u8]) -> bool
        ensures { result ≡ holds (knowledge_of info.now) mode.now self.now }
    {
        symbols_hold(self.symbols.all(), info, mode)
    }

    /// The literal if the whole condition is one comparison `MODE = X` or `MODE == X`, and None exactly if it isn't.
    pub fn parent(&self) -> Option<&Value>
        ensures { option_copied result ≡ parent_of self.now }
    {
        match only_test(self.symbols.all()) {
            Some(comparison) => comparison.mode_named(),
            None => None,
        }
    }
}

impl Copied for Cond {
    fn copy(&self, alloc: Global) -> Result<Cond, NoMemory> {
        let symbols = self.symbols.copy(alloc)?;
        let names = self.names.copy(alloc)?;
        Ok(Cond { symbols, names })
    }
}

// Whether the condition that symbols say holds.
fn symbols_hold(symbols: &[Symbol], info: &Info, mode: &[u8]) -> bool
    requires { is_some (condition_said symbols.now) ≡ true }
    ensures { result ≡ holds (knowledge_of info.now) mode.now (condition_in symbols.now) }
{
    let mut levels = Levels::outermost();
    for symbol in symbols {
        levels.add_symbol(symbol, info, mode);
    }
    levels.hold()
}

// The comparison that is the only symbol beside parentheses.
fn only_test(symbols: &[Symbol]) -> Option<&Comparison>
    ensures { option_copied result ≡ only_test (bare symbols.now) }
{
    let [symbol, rest @ ..] = behind_parentheses(symbols) else {
        return None;
    };
    if behind_parentheses(rest).len() > 0 {
        return None;
    }
    match symbol {
        Symbol::Test(comparison) => Some(comparison),
        _ => None,
    }
}

// The symbols from the first on that is no parenthesis.
fn behind_parentheses(symbols: &[Symbol]) -> &[Symbol]
    ensures { result.now ≡ behind_parentheses symbols.now }
{
    let mut rest = symbols;
    'parentheses: while let [symbol, more @ ..] = rest {
        if !is_parenthesis(symbol) {
            return rest;
        }
        rest = more;
    }
    rest
}

fn is_parenthesis(symbol: &Symbol) -> bool
    ensures { result ≡ is_parenthesis symbol.now }
{
    matches!(symbol, Symbol::Open | Symbol::Close)
}

// Keeps a symbol more, and the name in it if it is a comparison.
fn keep(
    alloc: Global,
    symbols: &mut Vec<Symbol>,
    names: &mut Vec<Name>,
    symbol: Symbol,
) -> Result<(), NoMemory>
    ensures symbols { OnOk result (symbols.new.items ≡ symbols.old.items ++ symbol ∷ []) }
    ensures names { OnOk result (names.new.items ≡ names.old.items ++ names_among (symbol ∷ [])) }
{
    if let Symbol::Test(comparison) = &symbol {
        names.push(comparison.var.copy(alloc)?)?;
    }
    symbols.push(symbol)?;
    Ok(())
}
