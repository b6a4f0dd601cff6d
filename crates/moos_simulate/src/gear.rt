// What a simulated vehicle has aboard.
use contact_avoid::Ranges;
use sim_vehicle::Craft;

/// What a simulated vehicle has aboard: a craft, and the ranges of a contact manager, if it has one.
#[derive(Drop)]
pub struct Gear {
    /// How the vehicle starts, moves and is steered.
    pub craft: Craft,
    /// Which contacts count as near, if the vehicle watches contacts.
    pub ranges: Option<Ranges>,
}
