// The walk down the tree to the mode that holds.
ghost use Rattle.std.specs.Prelude.{◌≡◌, ◌∷◌, ◌+◌, ◌<◌, ◌^◌, ◌||◌, [], true, List, ℕ, Some, None, length, is_some, slice_set};
ghost use Rattle.std.specs.List.{list_all};
ghost use Rattle.bhv_file.specs.declared.decl.Decl.{Decl as Declared};
ghost use Rattle.helm_cond.specs.Conditions.{holds, parent_of};
ghost use Rattle.helm_cond.specs.Infos.{knowledge_of};
ghost use Rattle.helm_cond.specs.Learnt.{Knowledge};
ghost use Rattle.mode_tree.specs.Modes.{ModePart, has_other, is_met, mode_of};
ghost use Rattle.mode_tree.specs.Paths.{parts_of_path, IsPathOf};

use crate::path::Path;
use bhv_file::Decl;
use helm_cond::{Cond, Info};

// The most parts of a path.
const MOST_PARTS: u32 = 16;

// A walk over the declarations in file order: the path so far, the declaration under which it goes on, and the first of
// those asked there that has an OTHER name.
#[derive(Clone, Copy)]
pub(crate) struct Walk {
    pub path: Path,
    pub parent: Option<u32>,
    pub other: Option<u32>,
}

impl Walk {
    ghost use Rattle.mode_tree.specs.Scans.{ComesTo, IsWithin, are_rooted, other_with};

    // Before the first declaration.
    fn start() -> Walk
        ensures within { (decls : List Declared) → IsWithin decls 0 result }
        ensures comes { (known : Knowledge) (decls : List Declared) → are_rooted 0 decls ≡ true → ComesTo known result 0 decls (mode_of decls known) }
    {
        Walk {
            path: Path {
                len: 0,
                decls: [0; 16],
                other: false,
            },
            parent: None,
            other: None,
        }
    }

    // The walk behind one declaration more, of this number.
    fn behind(self, number: u32, decl: &Decl, info: &Info) -> Walk
        ensures within { (decls : List Declared) → has_other decls number ≡ is_some decl.now.other → IsWithin decls number self → IsWithin decls (number + 1) result }
        ensures comes { (more : List Declared) (all : List ModePart) → ComesTo (knowledge_of info.now) self number (decl.now ∷ more) all → ComesTo (knowledge_of info.now) result (number + 1) more all }
    {
        if self.path.len >= MOST_PARTS {
            return self;
        }
        if decl.parent != self.parent {
            return self;
        }
        if is_met(decl, info) {
            return self.into_decl(number);
        }
        self.with_other(number, decl)
    }

    // The path goes on with this declaration, and then under it.
    fn into_decl(self, number: u32) -> Walk
        requires { self.path.len < 16 }
        ensures { result ≡ record { path = record self.path { len = self.path.len + 1; decls = slice_set self.path.decls self.path.len number }; parent = Some number; other = None } }
    {
        let mut path = self.path;
        path.decls[path.len as usize] = number;
        path.len += 1;
        Walk {
            path,
            parent: Some(number),
            other: None,
        }
    }

    // This declaration's OTHER name counts if it has one and none before it has.
    fn with_other(self, number: u32, decl: &Decl) -> Walk
        ensures { result ≡ record self { other = other_with self.other number decl.now } }
    {
        let other = match self.other {
            Some(other) => Some(other),
            None => if decl.other.is_some() {
                Some(number)
            } else {
                None
            },
        };
        Walk {
            path: self.path,
            parent: self.parent,
            other,
        }
    }

    // The path if no declaration is left: the OTHER name is its last part, if there is one.
    pub fn end(self) -> Path
        ensures within { (decls : List Declared) → IsWithin decls (length decls) self → IsPathOf decls result }
        ensures comes { (known : Knowledge) (number : ℕ) (all : List ModePart) → ComesTo known self number [] all → parts_of_path result ≡ all }
    {
        if self.path.len >= MOST_PARTS {
            return self.path;
        }
        let Some(number) = self.other else {
            return self.path;
        };
        let mut path = self.into_decl(number).path;
        path.other = true;
        path
    }

    // The walk over all declarations.
    pub fn over(decls: &[Decl], info: &Info) -> Walk
        requires few { length decls.now < 2 ^ 32 }
        requires rooted { are_rooted 0 decls.now ≡ true }
        ensures within { IsWithin decls.now (length decls.now) result }
        ensures comes { ComesTo (knowledge_of info.now) result (length decls.now) [] (mode_of decls.now (knowledge_of info.now)) }
    {
        let mut walk = Walk::start();
        for (number, decl) in decls.iter().enumerate() {
            walk = walk.behind(number as u32, decl, info);
        }
        walk
    }
}

// Whether all conditions of a declaration hold, if its parent line is passed over.
fn is_met(decl: &Decl, info: &Info) -> bool
    ensures { result ≡ is_met (knowledge_of info.now) decl.now }
{
    are_met(decl.conds.all(), info)
}

fn are_met(conds: &[Cond], info: &Info) -> bool
    ensures { result ≡ list_all (λ cond. is_some (parent_of cond) || holds (knowledge_of info.now) [] cond) conds.now }
{
    conds.iter().all(|cond| is_line_met(cond, info))
}

fn is_line_met(cond: &Cond, info: &Info) -> bool
    ensures { result ≡ (is_some (parent_of cond.now) || holds (knowledge_of info.now) [] cond.now) }
{
    cond.parent().is_some() || cond.holds(info, b"")
}
