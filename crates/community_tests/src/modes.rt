// The mode that a tree of declarations has by what is known.
ghost use Rattle.std.specs.Prelude.{◌≡◌, None, Some};

use crate::made::{check, learn, name, text};
use bhv_file::{Conds, Decl, Decls};
use helm_cond::{Cond, Info};
use mode_tree::ModeTree;
use std::alloc::Global;
use std::process::Abort;

// The conditions of these lines.
fn conds(rt: &impl Abort, alloc: Global, lines: &[&str]) -> Conds {
    let mut conds = Conds::new(alloc);
    for line in lines {
        assert!(rt; line.len() < 1000);
        let cond = Cond::read(alloc, line.as_bytes()).expect(rt, "a condition");
        conds.push(cond).expect(rt, "memory");
    }
    conds
}

fn root(rt: &impl Abort, alloc: Global) -> Decl
    ensures { result.parent ≡ None }
{
    let conds = conds(rt, alloc, &["DEPLOY = true"]);
    let (called, other) = (name(rt, alloc, "ACTIVE"), name(rt, alloc, "INACTIVE"));
    Decl {
        name: called,
        parent: None,
        conds,
        other: Some(other),
    }
}

fn child(rt: &impl Abort, alloc: Global, called: &str, line: &str) -> Decl
    ensures { result.parent ≡ Some 0 }
{
    let conds = conds(rt, alloc, &["MODE = ACTIVE", line]);
    Decl {
        name: name(rt, alloc, called),
        parent: Some(0),
        conds,
        other: None,
    }
}

// Active, and then surveying or else returning; or inactive.
fn mission(rt: &impl Abort, alloc: Global) -> ModeTree {
    let first = root(rt, alloc);
    let second = child(rt, alloc, "SURVEYING", "SURVEY = true");
    let third = child(rt, alloc, "RETURNING", "RETURN = true");
    let decls = vec![in alloc; first, second, third].expect(rt, "memory");
    ModeTree::make(Decls::of(decls))
}

// Of DEPLOY, SURVEY and RETURN what they are, and the mode.
const ROWS: &str = "true true true ACTIVE:SURVEYING
true false true ACTIVE:RETURNING
true false false ACTIVE
false true true INACTIVE";

// What is known if the three are what the words say.
fn knowledge(rt: &impl Abort, alloc: Global, words: &str) -> Info {
    let mut info = Info::make(alloc);
    for (var, said) in ["DEPLOY", "SURVEY", "RETURN"]
        .iter()
        .zip(words.split_whitespace())
    {
        let value = text(rt, alloc, said);
        learn(rt, alloc, &mut info, var, &value);
    }
    info
}

// The mode is the one that a row says.
fn is_mode(rt: &impl Abort, alloc: Global, tree: &ModeTree, row: &str) {
    let info = knowledge(rt, alloc, row);
    let text = tree.text(alloc, &tree.mode(&info)).expect(rt, "memory");
    let mode = row.split_whitespace().nth(3).unwrap_or("");
    check(rt, text.bytes() == mode.as_bytes(), true, row);
}

#[test]
fn modes(rt: HostRuntime) {
    let tree = mission(&rt, rt.alloc());
    for row in ROWS.lines() {
        is_mode(&rt, rt.alloc(), &tree, row);
    }
}
