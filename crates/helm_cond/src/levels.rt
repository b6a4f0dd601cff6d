// The levels of parentheses that are open, in place.
ghost use Rattle.std.specs.Prelude.{◌≡◌, ◌<◌, [], ◌∷◌, List, Bool, length, Some};
ghost use Rattle.helm_cond.specs.declared.symbol.Symbol.{Symbol};
ghost use Rattle.helm_cond.specs.Conditions.{comparison_holds};
ghost use Rattle.helm_cond.specs.Infos.{knowledge_of};
ghost use Rattle.helm_cond.specs.Levels.{fresh_level, with_operand, with_not, with_or, whole_holds};

use crate::info::Info;
use crate::level::Level;
use crate::symbol::Symbol;
use std::marker::Model;

// The most levels: the outermost one, and one for each of 64 parentheses.
const MOST: usize = 65;

// The levels of parentheses that are open. Contracts see the list of them, the innermost first. They take no memory.
#[derive(Drop)]
pub(crate) struct Levels {
    levels: [Level; 65],
    innermost: usize,
}

impl Model for Levels {
    ghost use Rattle.std.specs.Prelude.{List};
    ghost use Rattle.helm_cond.specs.declared.level.Level.{Level as One};
    ghost use Rattle.helm_cond.specs.Stacks.{stack_of, IsInUse};

    ghost Value = { List One };

    ghost view = { λ l. stack_of l.levels l.innermost };

    ghost invariant = { λ l. IsInUse l.levels l.innermost };
}

impl Levels {
    ghost use Rattle.helm_cond.specs.Levels.{LeadsTo};
    ghost use Rattle.helm_cond.specs.Stacks.{on_innermost, level_closed};

    // The outermost level alone.
    pub fn outermost() -> Levels
        ensures { result ≡ fresh_level ∷ [] }
    {
        Levels {
            levels: [Level::fresh(); MOST],
            innermost: 0,
        }
    }

    // Opens a level within the innermost one.
    pub fn open(&mut self)
        requires { length self.old < 65 }
        ensures { self.new ≡ fresh_level ∷ self.old }
    {
        self.innermost += 1;
        self.levels[self.innermost] = Level::fresh();
    }

    // Ends the innermost level, which is an operand of the one around.
    pub fn close(&mut self)
        requires { 1 < length self.old }
        ensures { self.new ≡ level_closed self.old }
    {
        let holds = self.levels[self.innermost].holds();
        self.innermost -= 1;
        self.operand(holds);
    }

    // An operand that holds or not is next at the innermost level.
    pub fn operand(&mut self, holds: bool)
        ensures { self.new ≡ on_innermost (with_operand holds) self.old }
    {
        self.levels[self.innermost] = self.levels[self.innermost].with_operand(holds);
    }

    // A `not` is next at the innermost level.
    pub fn negate(&mut self)
        ensures { self.new ≡ on_innermost with_not self.old }
    {
        self.levels[self.innermost] = self.levels[self.innermost].with_not();
    }

    // An `or` is next at the innermost level.
    pub fn alternative(&mut self)
        ensures { self.new ≡ on_innermost with_or self.old }
    {
        self.levels[self.innermost] = self.levels[self.innermost].with_or();
    }

    // A symbol more of a condition that can go on with it.
    pub fn add_symbol(&mut self, symbol: &Symbol, info: &Info, mode: &[u8])
        requires { (more : List Symbol) × ((answer : Bool) × LeadsTo (comparison_holds (knowledge_of info.now) mode.now) self.old (symbol.now ∷ more) answer) }
        ensures { (more : List Symbol) (answer : Bool) → LeadsTo (comparison_holds (knowledge_of info.now) mode.now) self.old (symbol.now ∷ more) answer → LeadsTo (comparison_holds (knowledge_of info.now) mode.now) self.new more answer }
    {
        match symbol {
            Symbol::Open => self.open(),
            Symbol::Close => self.close(),
            Symbol::Not => self.negate(),
            Symbol::And => {}
            Symbol::Or => self.alternative(),
            Symbol::Test(comparison) => self.operand(comparison.holds(info, mode)),
        }
    }

    // Whether the outermost level holds, if it alone is open.
    pub fn hold(&self) -> bool
        requires { length self.now ≡ 1 }
        ensures { whole_holds self.now ≡ Some result }
    {
        self.levels[self.innermost].holds()
    }
}
