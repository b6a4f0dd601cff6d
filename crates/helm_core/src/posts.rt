// The pairs that the helm posts, one by one.
ghost use Rattle.std.specs.Prelude.{◌≡◌, ◌++◌, ◌∷◌, [], OnOk, option_copied, IsTrue};
ghost use Rattle.moos_post.specs.Words.{is_text, IsMilli};
ghost use Rattle.helm_core.specs.Posts.{changed, number_pair, text_pair};

use moos_post::{Batch, Copied, Milli, Name, NoMemory, Pair, Txt, Value};
use std::alloc::{AllocError, Global};

// Adds the text if none was before, and if it isn't the one before.
pub(crate) fn add_changed(
    alloc: Global,
    posts: &mut Batch,
    var: &Name,
    before: Option<&[u8]>,
    now: &[u8],
) -> Result<(), NoMemory>
    requires { IsTrue (is_text now.now) }
    ensures { OnOk result (posts.new ≡ posts.old ++ changed var.now (option_copied before.entry) now.now) }
{
    match before {
        Some(before) if before == now => Ok(()),
        _ => add_text(alloc, posts, var, now),
    }
}

fn add_text(alloc: Global, posts: &mut Batch, var: &Name, text: &[u8]) -> Result<(), NoMemory>
    requires { IsTrue (is_text text.now) }
    ensures { OnOk result (posts.new ≡ posts.old ++ text_pair var.now text.now ∷ []) }
{
    // It is a text, so nothing but memory is ever missing.
    let Ok(text) = Txt::new(alloc, text) else {
        return Err(AllocError);
    };
    add(alloc, posts, var, Value::Text(text))
}

// Adds a number.
pub(crate) fn add_number(
    alloc: Global,
    posts: &mut Batch,
    var: &Name,
    thousandths: i64,
) -> Result<(), NoMemory>
    requires { IsMilli thousandths }
    ensures { OnOk result (posts.new ≡ posts.old ++ number_pair var.now thousandths ∷ []) }
{
    match Milli::new(thousandths) {
        Some(number) => add(alloc, posts, var, Value::Num(number)),
        None => unreachable!(),
    }
}

fn add(alloc: Global, posts: &mut Batch, var: &Name, value: Value) -> Result<(), NoMemory>
    ensures { OnOk result (posts.new ≡ posts.old ++ record { var = var.now; value = value } ∷ []) }
{
    let var = var.copy(alloc)?;
    posts.add(Pair { var, value })
}

// Adds copies of these pairs.
pub(crate) fn add_pairs(alloc: Global, posts: &mut Batch, pairs: &[Pair]) -> Result<(), NoMemory>
    ensures { OnOk result (posts.new ≡ posts.old ++ pairs.now) }
{
    for pair in pairs {
        posts.add(pair.copy(alloc)?)?;
    }
    Ok(())
}
