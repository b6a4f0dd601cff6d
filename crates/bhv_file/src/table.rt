// The table of the parameters of behaviours: by which names a file sets each, which values it may have, and which
// types have it. `put` says in which field it is, and `types` what it is if it isn't given.
ghost use Rattle.std.specs.Prelude.{◌≡◌, find};
ghost use Rattle.bhv_file.specs.Table.{common_named, is_called, is_needed, parameter_of, value_range, is_called_common};

use crate::spec::Shape;
use moos_text::is_named;

/// A parameter that some types of behaviours have.
#[derive(Clone, Copy)]
pub enum Parameter {
    Heading,
    Speed,
    Depth,
    PeakWidth,
    BaseWidth,
    SummitDelta,
    MaxDepth,
    Points,
    CaptureRadius,
    SlipRadius,
    Order,
    Repeat,
    Polygon,
    Clockwise,
    StationPoint,
    CenterActivate,
    InnerRadius,
    OuterRadius,
    OuterSpeed,
    MaxTime,
    Contact,
    ContactX,
    ContactY,
    ContactSpeed,
    ContactHeading,
    NearDistance,
    FarDistance,
    Resolved,
    PieceSize,
}

/// A parameter that all types of behaviours have.
#[derive(Clone, Copy)]
pub enum CommonParameter {
    Name,
    Weight,
    Condition,
    RunFlag,
    IdleFlag,
    ActiveFlag,
    InactiveFlag,
    EndFlag,
    Updates,
    Duration,
    IdleDecay,
    Perpetual,
    Templating,
}

/// What the values of a parameter may be.
#[derive(Clone, Copy)]
pub enum ValueRange {
    /// A number of thousandths from `low` to `high`.
    Number { low: i64, high: i64 },
    /// A number of seconds from 0 to 1,000,000.
    Time,
    /// `true` or `false`.
    Flag,
    /// `normal`, or `reverse` or `reversed`.
    Order,
    /// A whole number from 0 to 1,000,000, or `forever`.
    Repeat,
    /// 1 to 64 places.
    Places,
    /// The vertices of a convex polygon.
    Polygon,
    /// One place.
    Place,
    /// A name of at most 32 bytes.
    Contact,
    /// A whole number from 1 to 268,435,456.
    Size,
}

/// Whether a name in a file is that of a parameter.
fn is_called(parameter: Parameter, name: &[u8]) -> bool
    ensures { result ≡ is_called parameter name.now }
{
    match parameter {
        Parameter::Heading => is_named(name, b"heading"),
        Parameter::Speed => is_named(name, b"speed"),
        Parameter::Depth => is_named(name, b"depth"),
        Parameter::PeakWidth => is_named(name, b"peakwidth"),
        Parameter::BaseWidth => is_named(name, b"basewidth"),
        Parameter::SummitDelta => is_named(name, b"summitdelta"),
        Parameter::MaxDepth => is_named(name, b"max_depth"),
        Parameter::Points => {
            is_named(name, b"points") || is_named(name, b"point") || is_named(name, b"polygon")
        },
        Parameter::CaptureRadius => {
            is_named(name, b"capture_radius") || is_named(name, b"radius")
        },
        Parameter::SlipRadius => is_named(name, b"slip_radius"),
        Parameter::Order => is_named(name, b"order"),
        Parameter::Repeat => is_named(name, b"repeat"),
        Parameter::Polygon => is_named(name, b"polygon"),
        Parameter::Clockwise => is_named(name, b"clockwise"),
        Parameter::StationPoint => is_named(name, b"station_pt") || is_named(name, b"point"),
        Parameter::CenterActivate => is_named(name, b"center_activate"),
        Parameter::InnerRadius => is_named(name, b"inner_radius"),
        Parameter::OuterRadius => is_named(name, b"outer_radius"),
        Parameter::OuterSpeed => is_named(name, b"outer_speed"),
        Parameter::MaxTime => is_named(name, b"max_time"),
        Parameter::Contact => is_named(name, b"contact"),
        Parameter::ContactX => is_named(name, b"contact_x"),
        Parameter::ContactY => is_named(name, b"contact_y"),
        Parameter::ContactSpeed => is_named(name, b"contact_speed"),
        Parameter::ContactHeading => is_named(name, b"contact_heading"),
        Parameter::NearDistance => is_named(name, b"min_util_cpa_dist"),
        Parameter::FarDistance => is_named(name, b"max_util_cpa_dist"),
        Parameter::Resolved => is_named(name, b"resolved"),
        Parameter::PieceSize => is_named(name, b"piece_size"),
    }
}

/// What the values of a parameter may be.
pub fn value_range(parameter: Parameter) -> ValueRange
    ensures { result ≡ value_range parameter }
{
    let (low, high) = match parameter {
        Parameter::Heading | Parameter::ContactHeading => (0, 360_000),
        Parameter::Speed | Parameter::OuterSpeed => (0, 1_000_000),
        Parameter::Depth | Parameter::MaxDepth | Parameter::NearDistance | Parameter::FarDistance =>
            (0, 10_000_000),
        Parameter::PeakWidth
        | Parameter::BaseWidth
        | Parameter::SlipRadius
        | Parameter::OuterRadius => (0, 1_000_000_000),
        Parameter::CaptureRadius | Parameter::InnerRadius => (1, 1_000_000_000),
        Parameter::SummitDelta | Parameter::ContactSpeed => (0, 100_000),
        Parameter::ContactX | Parameter::ContactY => (-1_000_000_000, 1_000_000_000),
        Parameter::MaxTime => return ValueRange::Time,
        Parameter::Clockwise | Parameter::CenterActivate | Parameter::Resolved => {
            return ValueRange::Flag;
        },
        Parameter::Order => return ValueRange::Order,
        Parameter::Repeat => return ValueRange::Repeat,
        Parameter::Points => return ValueRange::Places,
        Parameter::Polygon => return ValueRange::Polygon,
        Parameter::StationPoint => return ValueRange::Place,
        Parameter::Contact => return ValueRange::Contact,
        Parameter::PieceSize => return ValueRange::Size,
    };
    ValueRange::Number { low, high }
}

/// Whether a parameter is a number without a default, in the types that need a number.
pub fn is_needed(parameter: Parameter) -> bool
    ensures { result ≡ is_needed parameter }
{
    matches!(
        parameter,
        Parameter::Heading | Parameter::Speed | Parameter::Depth | Parameter::MaxDepth
    )
}

// The first of these parameters that has this name. The names of a type are in the code, so that their lengths tell most of
// them apart at once and no list is walked for a line.
macro_rules! first_called {
    ($name:expr; $($parameter:ident),+) => {
        $(if is_called(Parameter::$parameter, $name) {
            Some(Parameter::$parameter)
        } else)+ {
            None
        }
    };
}

/// The parameter of a behaviour's type that has this name, if one does.
pub fn parameter_named(shape: &Shape, name: &[u8]) -> Option<Parameter>
    ensures { result ≡ parameter_of shape.now name.now }
{
    match shape {
        Shape::Heading { .. } => {
            first_called!(name; Heading, PeakWidth, BaseWidth, SummitDelta)
        },
        Shape::Speed { .. } => first_called!(name; Speed, PeakWidth, BaseWidth, SummitDelta),
        Shape::Depth { .. } => first_called!(name; Depth, PeakWidth, BaseWidth, SummitDelta),
        Shape::MaxDepth { .. } => first_called!(name; MaxDepth, BaseWidth),
        Shape::Timer => None,
        Shape::Waypoint { .. } => {
            first_called!(name; Points, Speed, CaptureRadius, SlipRadius, Order, Repeat)
        },
        Shape::Loiter { .. } => {
            first_called!(name; Polygon, Speed, CaptureRadius, SlipRadius, Clockwise)
        },
        Shape::StationKeep { .. } => {
            first_called!(name; StationPoint, CenterActivate, InnerRadius, OuterRadius, OuterSpeed)
        },
        Shape::OpRegion { .. } => first_called!(name; Polygon, MaxDepth, MaxTime),
        Shape::AvoidCollision(_) => {
            first_called!(name; Contact, ContactX, ContactY, ContactSpeed, ContactHeading, NearDistance, FarDistance, Resolved, PieceSize)
        },
    }
}

// The common parameters.
const COMMON: [CommonParameter; 13] = [
    CommonParameter::Name,
    CommonParameter::Weight,
    CommonParameter::Condition,
    CommonParameter::RunFlag,
    CommonParameter::IdleFlag,
    CommonParameter::ActiveFlag,
    CommonParameter::InactiveFlag,
    CommonParameter::EndFlag,
    CommonParameter::Updates,
    CommonParameter::Duration,
    CommonParameter::IdleDecay,
    CommonParameter::Perpetual,
    CommonParameter::Templating,
];

pub fn is_common_name(parameter: CommonParameter, name: &[u8]) -> bool
    ensures { result ≡ is_called_common name.now parameter }
{
    match parameter {
        CommonParameter::Name => is_named(name, b"name"),
        CommonParameter::Weight => is_named(name, b"pwt"),
        CommonParameter::Condition => is_named(name, b"condition"),
        CommonParameter::RunFlag => is_named(name, b"runflag"),
        CommonParameter::IdleFlag => is_named(name, b"idleflag"),
        CommonParameter::ActiveFlag => is_named(name, b"activeflag"),
        CommonParameter::InactiveFlag => is_named(name, b"inactiveflag"),
        CommonParameter::EndFlag => is_named(name, b"endflag"),
        CommonParameter::Updates => is_named(name, b"updates"),
        CommonParameter::Duration => is_named(name, b"duration"),
        CommonParameter::IdleDecay => is_named(name, b"duration_idle_decay"),
        CommonParameter::Perpetual => is_named(name, b"perpetual"),
        CommonParameter::Templating => is_named(name, b"templating"),
    }
}

/// The common parameter of this name, if one has it.
pub fn common_named(name: &[u8]) -> Option<CommonParameter>
    ensures { result ≡ common_named name.now }
{
    COMMON
        .iter()
        .copied()
        .find(|parameter| is_common_name(*parameter, name))
}
