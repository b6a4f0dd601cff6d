// One level of parentheses: what was read of it so far.
ghost use Rattle.std.specs.Prelude.{◌≡◌};
ghost use Rattle.helm_cond.specs.Levels.{fresh_level, level_holds, with_operand, with_not, with_or};

// What was read of a level of parentheses: of the outermost one, or of what is between a pair.
#[derive(Clone, Copy)]
pub(crate) struct Level {
    // An alternative before the last `or` holds.
    any: bool,
    // All holds that the last alternative asks for so far.
    all: bool,
    // An odd number of `not`s is before what comes next.
    negated: bool,
}

impl Level {
    // Nothing was read of it.
    pub fn fresh() -> Level
        ensures { result ≡ fresh_level }
    {
        Level {
            any: false,
            all: true,
            negated: false,
        }
    }

    // Whether its condition holds, if it ends here.
    pub fn holds(self) -> bool
        ensures { result ≡ level_holds self }
    {
        self.any || self.all
    }

    // The level after an operand that holds or not.
    pub fn with_operand(self, holds: bool) -> Level
        ensures { result ≡ with_operand holds self }
    {
        Level {
            any: self.any,
            all: self.all && holds != self.negated,
            negated: false,
        }
    }

    // The level after `not`.
    pub fn with_not(self) -> Level
        ensures { result ≡ with_not self }
    {
        Level {
            any: self.any,
            all: self.all,
            negated: !self.negated,
        }
    }

    // The level after `or`.
    pub fn with_or(self) -> Level
        ensures { result ≡ with_or self }
    {
        Level {
            any: self.any || self.all,
            all: true,
            negated: false,
        }
    }
}
