// What a step gives over a domain by what it aims at.
ghost use Rattle.std.specs.Prelude.{◌≡◌, codes, IfOk, IfSome};
ghost use Rattle.bhv_file.specs.Params.{axes_of};
ghost use Rattle.bhv_kinds.specs.Giving.{is_named, out_of};
ghost use Rattle.bhv_kinds.specs.Wants.{CanMake, given_of};

use crate::making::KeptFunction;
use crate::want::Aim;
use bhv_file::{Out, Shape};
use ivp_domain::Domain;
use moos_post::NoMemory;
use std::alloc::Global;

// Which axes the functions of a type mention.
struct Mentioned {
    course: bool,
    speed: bool,
    depth: bool,
}

fn mentions(shape: &Shape) -> Mentioned
    ensures course { result.course ≡ is_named (axes_of shape.now) (codes "course") }
    ensures speed { result.speed ≡ is_named (axes_of shape.now) (codes "speed") }
    ensures depth { result.depth ≡ is_named (axes_of shape.now) (codes "depth") }
{
    let (course, speed, depth) = match shape {
        Shape::Heading { .. } => (true, false, false),
        Shape::Speed { .. } => (false, true, false),
        Shape::Depth { .. } | Shape::MaxDepth { .. } => (false, false, true),
        Shape::Waypoint { .. }
        | Shape::Loiter { .. }
        | Shape::StationKeep { .. }
        | Shape::AvoidCollision(_) => (true, true, false),
        Shape::Timer | Shape::OpRegion { .. } => (false, false, false),
    };
    Mentioned {
        course,
        speed,
        depth,
    }
}

/// What a step of a type gives over a domain by what it aims at, with the function that is kept if that is the one.
pub fn out_of(
    alloc: Global,
    domain: &Domain,
    shape: &Shape,
    aim: &Aim,
    kept: &mut KeptFunction,
) -> Result<Out, NoMemory>
    requires { IfSome aim.now.want (CanMake domain.now) }
    ensures { IfOk result (λ out. out ≡ out_of domain.now (axes_of shape.now) (given_of aim.now)) }
{
    let Mentioned {
        course,
        speed,
        depth,
    } = mentions(shape);
    match &aim.want {
        Some(want) => {
            let func = kept.function(alloc, domain, want)?;
            Ok(Out {
                func: Some(func),
                course,
                speed,
                depth,
                done: aim.done,
                fault: aim.fault,
            })
        },
        None => Ok(Out {
            func: None,
            course: false,
            speed: false,
            depth: false,
            done: aim.done,
            fault: aim.fault,
        }),
    }
}
