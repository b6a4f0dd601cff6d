// Whether a registration selects a post, and whether it is due.
ghost use Rattle.std.specs.Prelude.{◌≡◌, ◌&&◌};
ghost use Rattle.moos_post.specs.Delivery.{is_past};
ghost use Rattle.moos_post.specs.Patterns.{matches};

use crate::matching::matches;
use moos_post::{Name, Reg};

/// Whether the registration selects the posts of this variable from the client with this name: both its patterns match.
pub fn selects(r: &Reg, var: &Name, source: &Name) -> bool
    ensures { result ≡ (matches r.now.var var.now && matches r.now.source source.now) }
{
    matches(&r.var, var.bytes()) && matches(&r.source, source.bytes())
}

/// Whether a post with this stamp is due at a registration with this interval, both in milliseconds: no post of its
/// variable came through before, or the last one that did has a stamp that is at least the interval below this one.
///
/// The comparison is one of whole numbers without bound. A stamp below the last one is never due.
pub fn due(last: Option<u64>, stamp: u64, interval: u64) -> bool
    ensures { result ≡ is_past last stamp interval }
{
    match last {
        None => true,
        Some(last) => last <= stamp && interval <= stamp - last,
    }
}
