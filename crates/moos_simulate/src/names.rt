// The names of the vehicle's clients.
ghost use Rattle.std.specs.Prelude.{◌≡◌, ◌++◌, ◌∷◌, [], IfOk, IsTrue, OnOk};
ghost use Rattle.moos_post.specs.Words.{is_name};
ghost use Rattle.moos_simulate.specs.Simulated.{vehicle_names};

use moos_post::{List, Name, Names, NoMemory};
use std::alloc::{AllocError, Global};

/// The names of the clients of a vehicle, in their order: `pMarinePID`, `uSimMarine`, and `pBasicContactMgr` if contacts are watched.
pub fn vehicle_names(alloc: Global, watched: bool) -> Result<Names, NoMemory>
    ensures { IfOk result (λ names. names ≡ vehicle_names watched) }
{
    let mut names = List::new(alloc);
    add_name(alloc, &mut names, b"pMarinePID")?;
    add_name(alloc, &mut names, b"uSimMarine")?;
    if watched {
        add_name(alloc, &mut names, b"pBasicContactMgr")?;
    }
    Ok(names)
}

// Adds a name. It is one, so nothing but memory is ever missing.
fn add_name(alloc: Global, names: &mut Names, name: &[u8]) -> Result<(), NoMemory>
    requires { IsTrue (is_name name.now) }
    ensures { OnOk result (names.new ≡ names.old ++ name.now ∷ []) }
{
    let Ok(name) = Name::new(alloc, name) else {
        return Err(AllocError);
    };
    names.add(name)
}
