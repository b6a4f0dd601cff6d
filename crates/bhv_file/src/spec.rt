// The parameters that a behaviour has by its type.
ghost use Rattle.std.specs.Prelude.{◌≡◌, IfOk};

use helm_geo::Spot;
use moos_post::{Copied, List, Name, NoMemory};
use std::alloc::Global;

/// Places on the plane, in order.
pub type Spots = List<Spot>;

/// A behaviour's weight and the parameters of its type.
#[derive(Drop)]
pub struct Spec {
    /// Its weight beside the other behaviours, in thousandths: at most 10,000,000.
    pub weight: u32,
    pub shape: Shape,
}

/// The type of a behaviour with its parameters. Each i64 is in thousandths of its unit, and each u64 a time in milliseconds.
#[derive(Drop)]
pub enum Shape {
    Heading {
        heading: i64,
        peakwidth: i64,
        basewidth: i64,
        summitdelta: i64,
    },
    Speed {
        speed: i64,
        peakwidth: i64,
        basewidth: i64,
        summitdelta: i64,
    },
    Depth {
        depth: i64,
        peakwidth: i64,
        basewidth: i64,
        summitdelta: i64,
    },
    MaxDepth {
        max_depth: i64,
        basewidth: i64,
    },
    Timer,
    Waypoint {
        points: Spots,
        speed: i64,
        capture_radius: i64,
        slip_radius: i64,
        reverse: bool,
        /// How often the points are begun again; None is for ever.
        repeat: Option<u32>,
    },
    Loiter {
        polygon: Spots,
        speed: i64,
        capture_radius: i64,
        slip_radius: i64,
        clockwise: bool,
    },
    StationKeep {
        station_pt: Option<Spot>,
        center_activate: bool,
        inner_radius: i64,
        outer_radius: i64,
        outer_speed: i64,
    },
    OpRegion {
        polygon: Option<Spots>,
        max_depth: Option<i64>,
        max_time: Option<u64>,
    },
    AvoidCollision(Avoidance),
}

/// The parameters of a behaviour that keeps clear of a contact. Each i64 is in thousandths of its unit.
#[derive(Drop)]
pub struct Avoidance {
    /// The contact's name.
    pub contact: Option<Name>,
    pub contact_x: Option<i64>,
    pub contact_y: Option<i64>,
    pub contact_speed: Option<i64>,
    pub contact_heading: Option<i64>,
    /// The closest approach up to which a course is worth nothing.
    pub near: i64,
    /// The closest approach from which on it is worth most.
    pub far: i64,
    /// Whether the contact is clear for good.
    pub resolved: bool,
    /// How many places a piece of the function has on each axis.
    pub piece_size: u32,
}

impl Copied for Spec {
    fn copy(&self, alloc: Global) -> Result<Spec, NoMemory> {
        let shape = self.shape.copy(alloc)?;
        Ok(Spec {
            weight: self.weight,
            shape,
        })
    }
}

impl Copied for Shape {
    fn copy(&self, alloc: Global) -> Result<Shape, NoMemory> {
        Ok(match self {
            Shape::Heading {
                heading,
                peakwidth,
                basewidth,
                summitdelta,
            } => Shape::Heading {
                heading: *heading,
                peakwidth: *peakwidth,
                basewidth: *basewidth,
                summitdelta: *summitdelta,
            },
            Shape::Speed {
                speed,
                peakwidth,
                basewidth,
                summitdelta,
            } => Shape::Speed {
                speed: *speed,
                peakwidth: *peakwidth,
                basewidth: *basewidth,
                summitdelta: *summitdelta,
            },
            Shape::Depth {
                depth,
                peakwidth,
                basewidth,
                summitdelta,
            } => Shape::Depth {
                depth: *depth,
                peakwidth: *peakwidth,
                basewidth: *basewidth,
                summitdelta: *summitdelta,
            },
            Shape::MaxDepth {
                max_depth,
                basewidth,
            } => Shape::MaxDepth {
                max_depth: *max_depth,
                basewidth: *basewidth,
            },
            Shape::Timer => Shape::Timer,
            Shape::Waypoint {
                points,
                speed,
                capture_radius,
                slip_radius,
                reverse,
                repeat,
            } => Shape::Waypoint {
                points: copied(alloc, points)?,
                speed: *speed,
                capture_radius: *capture_radius,
                slip_radius: *slip_radius,
                reverse: *reverse,
                repeat: *repeat,
            },
            Shape::Loiter {
                polygon,
                speed,
                capture_radius,
                slip_radius,
                clockwise,
            } => Shape::Loiter {
                polygon: copied(alloc, polygon)?,
                speed: *speed,
                capture_radius: *capture_radius,
                slip_radius: *slip_radius,
                clockwise: *clockwise,
            },
            Shape::StationKeep {
                station_pt,
                center_activate,
                inner_radius,
                outer_radius,
                outer_speed,
            } => Shape::StationKeep {
                station_pt: *station_pt,
                center_activate: *center_activate,
                inner_radius: *inner_radius,
                outer_radius: *outer_radius,
                outer_speed: *outer_speed,
            },
            Shape::OpRegion {
                polygon,
                max_depth,
                max_time,
            } => Shape::OpRegion {
                polygon: match polygon {
                    Some(polygon) => Some(copied(alloc, polygon)?),
                    None => None,
                },
                max_depth: *max_depth,
                max_time: *max_time,
            },
            Shape::AvoidCollision(avoidance) => Shape::AvoidCollision(avoidance.copy(alloc)?),
        })
    }
}

impl Copied for Avoidance {
    fn copy(&self, alloc: Global) -> Result<Avoidance, NoMemory> {
        let contact = match &self.contact {
            Some(contact) => Some(contact.copy(alloc)?),
            None => None,
        };
        Ok(Avoidance {
            contact,
            contact_x: self.contact_x,
            contact_y: self.contact_y,
            contact_speed: self.contact_speed,
            contact_heading: self.contact_heading,
            near: self.near,
            far: self.far,
            resolved: self.resolved,
            piece_size: self.piece_size,
        })
    }
}

fn copied(alloc: Global, spots: &Spots) -> Result<Spots, NoMemory>
    ensures { IfOk result (λ copied. copied ≡ spots.now) }
{
    let spots = Vec::from_slice(alloc, spots.all())?;
    Ok(Spots::of(spots))
}
