// A value in its field, and one more pair of a behaviour.
ghost use Rattle.std.specs.Prelude.{◌≡◌, IfOk, OnErr, Some, None, true, false, if◌then◌else◌, option_map};
ghost use Rattle.bhv_file.specs.declared.table.CommonParameter.TheVariants.{Weight};
ghost use Rattle.bhv_file.specs.Params.{with_contact, with_flag, with_number_field, with_approach, with_size, with_param, with_place, with_places, with_repeat, with_field, with_time, with_value_of};
ghost use Rattle.bhv_file.specs.Ranges.{KeepsRanges};
ghost use Rattle.bhv_file.specs.Values.{setting_of};

use crate::setting::{Setting, read_number, read_setting, read_weight};
use crate::spec::{Avoidance, Shape, Spec, Spots};
use crate::table::{
    CommonParameter, Parameter, ValueRange, is_common_name, parameter_named, value_range,
};
use helm_geo::Spot;
use moos_post::{Name, NoMemory};
use std::alloc::Global;

// The field of a parameter.
fn put(shape: &mut Shape, parameter: Parameter, setting: Setting)
    ensures { shape.new ≡ with_field shape.old parameter setting }
{
    match setting {
        Setting::Number(n) => put_number(shape, parameter, n),
        Setting::Time(time) => put_time(shape, time),
        Setting::Flag(flag) => put_flag(shape, flag),
        Setting::Repeat(n) => put_repeat(shape, n),
        Setting::Places(spots) => put_places(shape, spots),
        Setting::Place(spot) => put_place(shape, spot),
        Setting::Contact(name) => put_contact(shape, name),
        Setting::Size(size) => put_size(shape, size),
    }
}

fn put_number(shape: &mut Shape, parameter: Parameter, n: i64)
    ensures { shape.new ≡ with_number_field shape.old parameter n }
{
    match (shape, parameter) {
        (Shape::Heading { heading, .. }, Parameter::Heading) => *heading = n,
        (Shape::Heading { peakwidth, .. }, Parameter::PeakWidth) => *peakwidth = n,
        (Shape::Heading { basewidth, .. }, Parameter::BaseWidth) => *basewidth = n,
        (Shape::Heading { summitdelta, .. }, Parameter::SummitDelta) => *summitdelta = n,
        (Shape::Speed { speed, .. }, Parameter::Speed) => *speed = n,
        (Shape::Speed { peakwidth, .. }, Parameter::PeakWidth) => *peakwidth = n,
        (Shape::Speed { basewidth, .. }, Parameter::BaseWidth) => *basewidth = n,
        (Shape::Speed { summitdelta, .. }, Parameter::SummitDelta) => *summitdelta = n,
        (Shape::Depth { depth, .. }, Parameter::Depth) => *depth = n,
        (Shape::Depth { peakwidth, .. }, Parameter::PeakWidth) => *peakwidth = n,
        (Shape::Depth { basewidth, .. }, Parameter::BaseWidth) => *basewidth = n,
        (Shape::Depth { summitdelta, .. }, Parameter::SummitDelta) => *summitdelta = n,
        (Shape::MaxDepth { max_depth, .. }, Parameter::MaxDepth) => *max_depth = n,
        (Shape::MaxDepth { basewidth, .. }, Parameter::BaseWidth) => *basewidth = n,
        (Shape::Waypoint { speed, .. }, Parameter::Speed) => *speed = n,
        (Shape::Waypoint { capture_radius, .. }, Parameter::CaptureRadius) => *capture_radius = n,
        (Shape::Waypoint { slip_radius, .. }, Parameter::SlipRadius) => *slip_radius = n,
        (Shape::Loiter { speed, .. }, Parameter::Speed) => *speed = n,
        (Shape::Loiter { capture_radius, .. }, Parameter::CaptureRadius) => *capture_radius = n,
        (Shape::Loiter { slip_radius, .. }, Parameter::SlipRadius) => *slip_radius = n,
        (Shape::StationKeep { inner_radius, .. }, Parameter::InnerRadius) => *inner_radius = n,
        (Shape::StationKeep { outer_radius, .. }, Parameter::OuterRadius) => *outer_radius = n,
        (Shape::StationKeep { outer_speed, .. }, Parameter::OuterSpeed) => *outer_speed = n,
        (Shape::OpRegion { max_depth, .. }, Parameter::MaxDepth) => *max_depth = Some(n),
        (Shape::AvoidCollision(avoidance), parameter) => put_approach(avoidance, parameter, n),
        _ => {},
    }
}

// A number of a behaviour that keeps clear of a contact.
fn put_approach(avoidance: &mut Avoidance, parameter: Parameter, n: i64)
    ensures { avoidance.new ≡ with_approach avoidance.old parameter n }
{
    match parameter {
        Parameter::ContactX => avoidance.contact_x = Some(n),
        Parameter::ContactY => avoidance.contact_y = Some(n),
        Parameter::ContactSpeed => avoidance.contact_speed = Some(n),
        Parameter::ContactHeading => avoidance.contact_heading = Some(n),
        Parameter::NearDistance => avoidance.near = n,
        Parameter::FarDistance => avoidance.far = n,
        _ => {},
    }
}

fn put_time(shape: &mut Shape, time: u64)
    ensures { shape.new ≡ with_time shape.old time }
{
    if let Shape::OpRegion { max_time, .. } = shape {
        *max_time = Some(time);
    }
}

fn put_flag(shape: &mut Shape, flag: bool)
    ensures { shape.new ≡ with_flag shape.old flag }
{
    match shape {
        Shape::Waypoint { reverse, .. } => *reverse = flag,
        Shape::Loiter { clockwise, .. } => *clockwise = flag,
        Shape::StationKeep {
            center_activate,
            ..
        } => *center_activate = flag,
        Shape::AvoidCollision(avoidance) => avoidance.resolved = flag,
        _ => {},
    }
}

fn put_repeat(shape: &mut Shape, n: Option<u32>)
    ensures { shape.new ≡ with_repeat shape.old n }
{
    if let Shape::Waypoint { repeat, .. } = shape {
        *repeat = n;
    }
}

fn put_places(shape: &mut Shape, spots: Spots)
    ensures { shape.new ≡ with_places shape.old spots }
{
    match shape {
        Shape::Waypoint { points, .. } => *points = spots,
        Shape::Loiter { polygon, .. } => *polygon = spots,
        Shape::OpRegion { polygon, .. } => *polygon = Some(spots),
        _ => {},
    }
}

fn put_place(shape: &mut Shape, spot: Spot)
    ensures { shape.new ≡ with_place shape.old spot }
{
    if let Shape::StationKeep { station_pt, .. } = shape {
        *station_pt = Some(spot);
    }
}

fn put_contact(shape: &mut Shape, name: Name)
    ensures { shape.new ≡ with_contact shape.old name }
{
    if let Shape::AvoidCollision(avoidance) = shape {
        avoidance.contact = Some(name);
    }
}

fn put_size(shape: &mut Shape, size: u32)
    ensures { shape.new ≡ with_size shape.old size }
{
    if let Shape::AvoidCollision(avoidance) = shape {
        avoidance.piece_size = size;
    }
}

/// Sets a parameter of a behaviour's type to a value as it is in a file. False exactly if that isn't in the range.
pub fn set_value(
    alloc: Global,
    shape: &mut Shape,
    parameter: Parameter,
    value: &[u8],
) -> Result<bool, NoMemory>
    ensures good { IfOk result (λ good. with_value_of shape.old parameter value.now ≡ (if good then Some shape.new else None)) }
    ensures bad { IfOk result (λ good. good ≡ false → shape.new ≡ shape.old) }
    ensures same { OnErr result (shape.new ≡ shape.old) }
{
    match value_range(parameter) {
        ValueRange::Number { low, high } => Ok(set_number(shape, parameter, low, high, value)),
        range => set_in_range(alloc, shape, parameter, range, value),
    }
}

// A number from `low` to `high` in its field, which most parameters are.
fn set_number(shape: &mut Shape, parameter: Parameter, low: i64, high: i64, value: &[u8]) -> bool
    ensures good { option_map (with_field shape.old parameter) (setting_of (ValueRange.Number low high) value.now) ≡ (if result then Some shape.new else None) }
    ensures bad { result ≡ false → shape.new ≡ shape.old }
{
    match read_number(low, high, value) {
        Some(n) => {
            put_number(shape, parameter, n);
            true
        },
        None => false,
    }
}

// A value of any range.
#[inline(never)]
fn set_in_range(
    alloc: Global,
    shape: &mut Shape,
    parameter: Parameter,
    range: ValueRange,
    value: &[u8],
) -> Result<bool, NoMemory>
    ensures good { IfOk result (λ good. option_map (with_field shape.old parameter) (setting_of range value.now) ≡ (if good then Some shape.new else None)) }
    ensures bad { IfOk result (λ good. good ≡ false → shape.new ≡ shape.old) }
    ensures same { OnErr result (shape.new ≡ shape.old) }
{
    match read_setting(alloc, range, value)? {
        Some(setting) => {
            put(shape, parameter, setting);
            Ok(true)
        },
        None => Ok(false),
    }
}

/// Sets one parameter of a behaviour to a value as it is in a file: `pwt`, or a parameter of its type. False exactly
/// if it has none of this name or the value isn't in its range; then nothing changed, nor if no memory was left.
/// Relations between parameters aren't judged.
pub fn set_param(
    alloc: Global,
    spec: &mut Spec,
    name: &[u8],
    value: &[u8],
) -> Result<bool, NoMemory>
    ensures good { IfOk result (λ good. with_param spec.old name.now value.now ≡ (if good then Some spec.new else None)) }
    ensures bad { IfOk result (λ good. good ≡ false → spec.new ≡ spec.old) }
    ensures ranges { IfOk result (λ _. KeepsRanges spec.old → KeepsRanges spec.new) }
    ensures same { OnErr result (spec.new ≡ spec.old) }
{
    if is_common_name(CommonParameter::Weight, name) {
        return Ok(match read_weight(value) {
            Some(weight) => {
                spec.weight = weight;
                true
            },
            None => false,
        });
    }
    match parameter_named(&spec.shape, name) {
        Some(parameter) => {
            let good = set_value(alloc, &mut spec.shape, parameter, value)?;
            Ok(good)
        },
        None => Ok(false),
    }
}
