// What the helm makes of the letters that it has heard.
ghost use Rattle.std.specs.Prelude.{◌≡◌, [], IfOk, IsTrue, OnOk};
ghost use Rattle.moos_post.specs.Words.{is_text};
ghost use Rattle.moos_db.specs.Database.{pair_posted};
ghost use Rattle.helm_cond.specs.Infos.{knowledge_of};
ghost use Rattle.mode_tree.specs.Modes.{mode_text};
ghost use Rattle.helm_core.specs.Helms.{HasLearnt, IsHelmView};
ghost use Rattle.helm_core.specs.Kept.{known_after, parked_after, parked_with};
ghost use Rattle.helm_core.specs.Posts.{state_word};
ghost use Rattle.helm_core.specs.Ticks.{is_false, is_override, pairs_mailed};

use helm_cond::Info;
use mode_tree::ModeTree;
use moos_db::Letter;
use moos_post::{NoMemory, Post, Txt, Value};
use moos_text::is_named;
use std::alloc::Global;

// What the helm makes of all letters so far: what it knows, whether it is parked, and its mode.
#[derive(Drop)]
pub(crate) struct HelmView {
    pub info: Info,
    pub parked: bool,
    pub mode: Txt,
}

impl HelmView {
    // What it makes of no letters.
    pub fn blank(alloc: Global, modes: &ModeTree) -> Result<HelmView, NoMemory>
        ensures { IfOk result (IsHelmView modes.now []) }
    {
        let info = Info::make(alloc);
        let mode = mode_text(alloc, modes, &info)?;
        Ok(HelmView {
            info,
            parked: true,
            mode,
        })
    }

    // The view after these letters, built as a new value: if memory runs out, the old view is unchanged.
    pub fn with(
        &self,
        alloc: Global,
        modes: &ModeTree,
        letters: &[Letter],
    ) -> Result<HelmView, NoMemory>
        ensures { IfOk result (HasLearnt modes.now letters.now self.now) }
    {
        let mut info = self.info.copy(alloc)?;
        learn_all(alloc, &mut info, letters)?;
        let mode = mode_text(alloc, modes, &info)?;
        Ok(HelmView {
            info,
            parked: parked_after(self.parked, letters),
            mode,
        })
    }

    // Its state, as it is posted.
    pub fn state(&self) -> &'static [u8]
        ensures state { result.now ≡ state_word self.now.parked }
        ensures text { IsTrue (is_text result.now) }
    {
        if self.parked { b"PARK" } else { b"DRIVE" }
    }
}

fn mode_text(alloc: Global, modes: &ModeTree, info: &Info) -> Result<Txt, NoMemory>
    ensures { IfOk result (λ text. text ≡ mode_text modes.now (knowledge_of info.now)) }
{
    let path = modes.mode(info);
    let text = modes.text(alloc, &path)?;
    Ok(text)
}

// Learns the letters in order.
fn learn_all(alloc: Global, info: &mut Info, letters: &[Letter]) -> Result<(), NoMemory>
    ensures { OnOk result (knowledge_of info.new ≡ known_after (knowledge_of info.old) (pairs_mailed letters.now)) }
{
    for letter in letters {
        info.learn(alloc, &letter.post.var, &letter.post.value)?;
    }
    Ok(())
}

// Whether the helm is parked after these letters, if it was so before: the latest override decides, if any.
fn parked_after(parked: bool, letters: &[Letter]) -> bool
    ensures { result ≡ parked_after parked (pairs_mailed letters.now) }
{
    let mut so_far = parked;
    for letter in letters {
        so_far = parked_with(so_far, &letter.post);
    }
    so_far
}

fn parked_with(parked: bool, post: &Post) -> bool
    ensures { result ≡ parked_with parked (pair_posted post.now) }
{
    if is_override(post.var.bytes()) {
        !is_false(&post.value)
    } else {
        parked
    }
}

// Whether the variable is the override's, in either spelling.
fn is_override(var: &[u8]) -> bool
    ensures { result ≡ is_override var.now }
{
    var == b"MOOS_MANUAL_OVERRIDE".as_slice() || var == b"MOOS_MANUAL_OVERIDE".as_slice()
}

fn is_false(value: &Value) -> bool
    ensures { result ≡ is_false value.now }
{
    match value {
        Value::Num(_) => false,
        Value::Text(text) => is_named(text.bytes(), b"false"),
    }
}
