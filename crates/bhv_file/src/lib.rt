//! What a behaviour file says: its modes, its behaviours and their parameters; and what a step of a behaviour gives.
//!
//! The layer above relies on this: `IsValidFile` of specs/ says what holds of each file that can be read, and `set_param` sets
//! one parameter of a behaviour exactly if its name and its value are good. `bhv_reader` makes a file of bytes, and asks
//! this layer which parameter a name means and what its value says.
//!
//! Read `decl`, `common`, `spec` and `file`; then `table`, which says what parameters there are, `setting` with `places`, `put`
//! and `relations`; `out` needs none of these. Of specs/ read `Table`, `Values` and `Params`, `Paths`, `Ranges` and `Validity`.
#![tactic(auto)]

mod axis;
mod common;
mod decl;
mod file;
mod known;
mod out;
mod places;
mod put;
mod relations;
mod serving;
mod setting;
mod spec;
mod table;
mod updating;

pub use axis::{axis_named, axis_number, has_axis};
pub use common::Common;
pub use decl::{Conds, Decl, Decls};
pub use file::{BhvFile, Block, Blocks, Unused, UnusedList};
pub use known::{latest_number, position};
pub use out::{BhvFault, Out};
pub use put::{set_param, set_value};
pub use relations::{keeps_relations, lacks_places};
pub use serving::suits;
pub use setting::{read_duration, read_flag, read_templating, read_weight};
pub use spec::{Avoidance, Shape, Spec, Spots};
pub use table::{CommonParameter, Parameter, common_named, is_needed, parameter_named};
pub use updating::{names_places, updated, updated_anywhere};
