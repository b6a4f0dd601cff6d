// A place between the symbols of a condition.
ghost use Rattle.std.specs.Prelude.{◌≡◌, ◌∷◌, [], List, false, MatchOption};
ghost use Rattle.helm_cond.specs.declared.symbol.Symbol.{Symbol};
ghost use Rattle.helm_cond.specs.Levels.{accepts};

use crate::symbol::Symbol;

// The most parentheses that may be open.
const MOST_OPEN: u32 = 64;

// A place between the symbols of a condition: how many parentheses are open there, and whether an operand is
// before it.
#[derive(Clone, Copy)]
pub(crate) struct Cursor {
    pub open: u32,
    pub ready: bool,
}

impl Cursor {
    // The place before the first symbol.
    pub fn first() -> Cursor
        ensures open { result.open ≡ 0 }
        ensures ready { result.ready ≡ false }
    {
        Cursor {
            open: 0,
            ready: false,
        }
    }

    // Whether a condition is whole that ends here.
    pub fn is_whole(self) -> bool
        ensures { result ≡ accepts self.open self.ready [] }
    {
        self.ready && self.open == 0
    }

    // The place behind this symbol, which may not be everywhere.
    pub fn behind(self, symbol: &Symbol) -> Option<Cursor>
        ensures { MatchOption result
            ((more : List Symbol) → accepts self.open self.ready (symbol.now ∷ more) ≡ false)
            (λ next. (more : List Symbol) → accepts self.open self.ready (symbol.now ∷ more) ≡ accepts next.open next.ready more) }
    {
        match (symbol, self.ready) {
            (Symbol::Open, false) if self.open < MOST_OPEN => Some(Cursor {
                open: self.open + 1,
                ready: false,
            }),
            (Symbol::Close, true) if self.open > 0 => Some(Cursor {
                open: self.open - 1,
                ready: true,
            }),
            (Symbol::Not, false) | (Symbol::And, true) | (Symbol::Or, true) => Some(Cursor {
                open: self.open,
                ready: false,
            }),
            (Symbol::Test(_), false) => Some(Cursor {
                open: self.open,
                ready: true,
            }),
            _ => None,
        }
    }
}
