// The tree of modes, and the mode that holds.
ghost use Rattle.std.specs.Prelude.{◌≡◌, ◌<◌, ◌≤◌, ◌^◌, true, length, take, IfOk};
ghost use Rattle.helm_cond.specs.Infos.{knowledge_of};
ghost use Rattle.mode_tree.specs.Modes.{mode_of, path_text};
ghost use Rattle.mode_tree.specs.Paths.{are_declared, parts_of_path, IsPathOf};
ghost use Rattle.mode_tree.specs.Scans.{are_rooted};

use crate::path::Path;
use crate::text::{path_bytes, text_of};
use crate::walk::Walk;
use bhv_file::{Decl, Decls};
use helm_cond::Info;
use moos_post::{NoMemory, Txt};
use std::alloc::Global;
use std::marker::Model;

/// The mode declarations of a file as a tree. Contracts see the list of them.
#[derive(Drop)]
pub struct ModeTree {
    decls: Decls,
}

impl Model for ModeTree {
    ghost use Rattle.std.specs.Coded.{codes};
    ghost use Rattle.std.specs.Prelude.{List};
    ghost use Rattle.helm_cond.specs.contracts.cond.Cond as cond;
    ghost use Rattle.bhv_file.specs.declared.decl.Decl.{Decl};
    ghost use Rattle.mode_tree.specs.Trees.{IsTree};

    ghost Value = { List Decl };

    ghost coded = { Prim.hlevel (codes, cond.the_row.coded) };

    ghost view = { λ t. t.decls };

    ghost invariant = { λ t. IsTree t.decls };
}

impl ModeTree {
    /// The tree of these declarations, each of which follows the one under which it is.
    pub fn make(decls: Decls) -> ModeTree
        requires few { length decls < 2 ^ 32 }
        requires rooted { are_rooted 0 decls ≡ true }
        ensures { result ≡ decls }
    {
        ModeTree { decls }
    }

    /// The mode at what is known. It asks the conditions of declarations in file order, from the roots down: of those
    /// under one parent until the first that is met, and then of those under that one.
    pub fn mode(&self, info: &Info) -> Path
        ensures mode { parts_of_path result ≡ mode_of self.now (knowledge_of info.now) }
        ensures path { IsPathOf self.now result }
    {
        Walk::over(self.decls.all(), info).end()
    }

    /// The declarations, in order.
    pub fn decls(&self) -> &[Decl]
        ensures { result.now ≡ self.now }
    {
        self.decls.all()
    }

    /// What a path prints as: its parts with `:` between.
    pub fn text(&self, alloc: Global, path: &Path) -> Result<Txt, NoMemory>
        requires short { path.now.len ≤ 16 }
        requires declared { are_declared self.now (take path.now.len path.now.decls) ≡ true }
        ensures { IfOk result (λ text. text ≡ path_text self.now (parts_of_path path.now)) }
    {
        let numbers = &path.decls[..path.len as usize];
        let bytes = path_bytes(alloc, self.decls.all(), numbers, path.other)?;
        text_of(alloc, bytes.as_slice())
    }
}
