// The functions of behaviours that go to a place: a course to steer and a speed to cruise at.
ghost use Rattle.std.specs.Prelude.{◌≡◌, ◌≤◌, ◌<◌, ◌*◌, ◌^◌, nat_abs, pos, codes, length, IfOk, IsTrue};
ghost use Rattle.ivp_build.specs.Faults.{IsTooMany};
ghost use Rattle.ivp_build.specs.Shapes.{IsPeak};
ghost use Rattle.ivp_build.specs.Sums.{HaveRoom, couple_pieces, slope_apart};
ghost use Rattle.bhv_file.specs.Params.{has_axis};
ghost use Rattle.bhv_kinds.specs.Utilities.{Flat, PeakOn, Sum, cruise, function_of, steer};

use crate::steady::peak_on;
use ivp_build::{BuildFault, Peak, couple, flat};
use ivp_domain::Domain;
use ivp_func::Func;
use moos_post::NoMemory;
use std::alloc::{AllocError, Global};

// A peak of 50 about a course in whole degrees.
fn steering(degree: u16) -> Peak
    requires { degree < 360 }
    ensures peak { result ≡ record { summit = pos (degree * 1000); peakwidth = pos 20000; basewidth = pos 160000; summitdelta = pos 12500; max = pos 50000 } }
    ensures sound { IsPeak result }
{
    Peak {
        summit: degree as i64 * 1000,
        peakwidth: 20_000,
        basewidth: 160_000,
        summitdelta: 12_500,
        max: 50_000,
    }
}

// A peak of 50 about a speed in thousandths.
fn cruising(speed: u64) -> Peak
    requires { speed ≤ 10 ^ 6 }
    ensures peak { result ≡ record { summit = pos speed; peakwidth = pos 500; basewidth = pos 2000; summitdelta = pos 12500; max = pos 50000 } }
    ensures sound { IsPeak result }
{
    Peak {
        summit: speed as i64,
        peakwidth: 500,
        basewidth: 2_000,
        summitdelta: 12_500,
        max: 50_000,
    }
}

// Want of memory, the one fault of a sum of so few pieces.
fn no_memory(fault: BuildFault) -> AllocError
    requires { IsTooMany 81 fault }
{
    match fault {
        BuildFault::NoMemory => AllocError,
        BuildFault::TooMany => unreachable!(),
    }
}

// The sum of two functions of few pieces.
#[tactic(auto, using(crate::proofs::Couples::few_enough))]
fn sum(alloc: Global, one: &Func, other: &Func) -> Result<Func, NoMemory>
    requires domain { one.now.axes ≡ other.now.axes }
    requires room { HaveRoom one.now.axes one.now.pieces other.now.pieces }
    requires apart { IsTrue (slope_apart one.now.pieces other.now.pieces) }
    requires few { length one.now.pieces ≤ 9 }
    requires few_others { length other.now.pieces ≤ 9 }
    ensures { IfOk result (λ func. func ≡ record { axes = one.now.axes; pieces = couple_pieces one.now.pieces other.now.pieces }) }
{
    match couple(alloc, one, other) {
        Ok(sum) => Ok(sum),
        Err(fault) => Err(no_memory(fault)),
    }
}

// A peak on the course and one on the speed at once, each of at most 50.
fn both(alloc: Global, domain: &Domain, course: &Peak, speed: &Peak) -> Result<Func, NoMemory>
    requires course_axis { IsTrue (has_axis domain.now (codes "course")) }
    requires speed_axis { IsTrue (has_axis domain.now (codes "speed")) }
    requires course { IsPeak course.now }
    requires speed { IsPeak speed.now }
    requires course_most { nat_abs course.now.max ≤ 50000 }
    requires speed_most { nat_abs speed.now.max ≤ 50000 }
    ensures { IfOk result (λ func. func ≡ function_of domain.now (Sum (PeakOn (codes "course") course.now) (PeakOn (codes "speed") speed.now))) }
{
    let one = peak_on(alloc, domain, b"course", course)?;
    let other = peak_on(alloc, domain, b"speed", speed)?;
    let func = sum(alloc, &one, &other)?;
    Ok(func)
}

/// To stay where the vehicle is: nothing of the course, and no speed.
pub fn hold(alloc: Global, domain: &Domain) -> Result<Func, NoMemory>
    requires speed { IsTrue (has_axis domain.now (codes "speed")) }
    ensures { IfOk result (λ func. func ≡ function_of domain.now (Sum (Flat 0) (cruise 0))) }
{
    let one = flat(alloc, domain, 0)?;
    let other = peak_on(alloc, domain, b"speed", &cruising(0))?;
    let func = sum(alloc, &one, &other)?;
    Ok(func)
}

/// To go on a course, in whole degrees, at a speed.
pub fn travel(alloc: Global, domain: &Domain, degree: u16, speed: u64) -> Result<Func, NoMemory>
    requires course_axis { IsTrue (has_axis domain.now (codes "course")) }
    requires speed_axis { IsTrue (has_axis domain.now (codes "speed")) }
    requires degree { degree < 360 }
    requires speed { speed ≤ 10 ^ 6 }
    ensures { IfOk result (λ func. func ≡ function_of domain.now (Sum (steer degree) (cruise speed))) }
{
    let func = both(alloc, domain, &steering(degree), &cruising(speed))?;
    Ok(func)
}
