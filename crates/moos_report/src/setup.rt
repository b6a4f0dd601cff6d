// What a report tells of a community's setup.
ghost use Rattle.std.specs.Prelude.{◌≡◌};
ghost use Rattle.moos_report.specs.Setups.{setup_without_helm};

use bhv_file::UnusedList;
use moos_post::List;
use std::alloc::Global;

/// What a report tells of a community's setup, beside its clients.
#[derive(Drop)]
pub struct Setup {
    /// The parameters of the behaviour file that no behaviour uses, in order.
    pub unused: UnusedList,
    /// Whether modes are declared, so that each iteration tells the helm's.
    pub modes: bool,
}

/// The setup of a community without a helm: nothing unused, and no modes.
pub fn setup_without_helm(alloc: Global) -> Setup
    ensures { result ≡ setup_without_helm }
{
    Setup {
        unused: List::new(alloc),
        modes: false,
    }
}
