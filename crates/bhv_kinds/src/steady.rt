// Behaviours that want the same in each step: a peak or an upper limit on one axis.
ghost use Rattle.std.specs.Prelude.{◌≡◌, ◌<◌, ◌≤◌, ◌^◌, codes, length, pos, nat_abs, IfOk, IsTrue};
ghost use Rattle.ivp_domain.specs.declared.boxes.Point.{Point};
ghost use Rattle.ivp_domain.specs.Axes.{is_end};
ghost use Rattle.ivp_domain.specs.Domains.{is_point};
ghost use Rattle.ivp_func.specs.Pieces.{value_at};
ghost use Rattle.ivp_build.specs.Places.{IsWidth};
ghost use Rattle.ivp_build.specs.Shapes.{IsPeak};
ghost use Rattle.bhv_file.specs.Params.{has_axis};
ghost use Rattle.bhv_file.specs.Values.{lies_between};
ghost use Rattle.bhv_file.specs.Named.{axis_number};
ghost use Rattle.bhv_kinds.specs.Utilities.{AtMostOn, PeakOn, function_of, worth_at};

use bhv_file::axis_number;
use ivp_build::{Peak, at_most, peak};
use ivp_domain::Domain;
use ivp_func::Func;
use moos_post::NoMemory;
use std::alloc::Global;

/// A peak of 100 about a number, in thousandths.
#[tactic(auto, using(crate::proofs::Peaks::peak_between))]
pub fn of_hundred(summit: i64, peakwidth: i64, basewidth: i64, summitdelta: i64) -> Peak
    requires summit { IsTrue (lies_between (pos 0) (pos (10 ^ 7)) summit) }
    requires peakwidth { IsTrue (lies_between (pos 0) (pos (10 ^ 9)) peakwidth) }
    requires basewidth { IsTrue (lies_between (pos 0) (pos (10 ^ 9)) basewidth) }
    requires summitdelta { IsTrue (lies_between (pos 0) (pos 100000) summitdelta) }
    ensures peak { result ≡ record { summit = summit; peakwidth = peakwidth; basewidth = basewidth; summitdelta = summitdelta; max = pos 100000 } }
    ensures sound { IsPeak result }
{
    Peak {
        summit,
        peakwidth,
        basewidth,
        summitdelta,
        max: 100_000,
    }
}

/// A peak on the axis of this name.
pub fn peak_on(alloc: Global, domain: &Domain, name: &[u8], shape: &Peak) -> Result<Func, NoMemory>
    requires axis { IsTrue (has_axis domain.now name.now) }
    requires peak { IsPeak shape.now }
    ensures pieces { IfOk result (λ func. func ≡ function_of domain.now (PeakOn name.now shape.now)) }
    ensures value { IfOk result (λ func. (point : Point) → IsTrue (is_point domain.now point) → value_at func.pieces point ≡ pos (worth_at domain.now (PeakOn name.now shape.now) point)) }
    ensures few { IfOk result (λ func. length func.pieces ≤ 9) }
{
    let func = peak(alloc, domain, axis_number(domain, name), shape)?;
    Ok(func)
}

/// An upper limit on the axis of depth: 100 up to it.
pub fn at_most_deep(
    alloc: Global,
    domain: &Domain,
    limit: i64,
    basewidth: i64,
) -> Result<Func, NoMemory>
    requires axis { IsTrue (has_axis domain.now (codes "depth")) }
    requires limit { IsTrue (is_end limit) }
    requires basewidth { IsWidth basewidth }
    ensures { IfOk result (λ func. func ≡ function_of domain.now (AtMostOn (codes "depth") limit (nat_abs basewidth) 100000)) }
{
    let axis = axis_number(domain, b"depth");
    let func = at_most(alloc, domain, axis, limit, basewidth, 100_000)?;
    Ok(func)
}
