// A behaviour that keeps clear of a contact, worked by hand.
ghost use Rattle.std.specs.Prelude.{◌≡◌, false};
ghost use Rattle.contact_avoid.specs.Avoids.{CanServe};
ghost use Rattle.community_tests.specs.Clear.{kept_clear};

use crate::made::{learn, number};
use bhv_file::{Avoidance, BhvFault, Out, Shape, Spec, has_axis, suits};
use contact_avoid::{Avoid, utility};
use helm_cond::Info;
use helm_geo::Spot;
use ivp_domain::{Axis, AxisName, Domain};
use moos_post::{Name, Txt};
use std::alloc::Global;
use std::process::Abort;

// How many speeds there are, and the place of 1 m/s among them.
const SPEEDS: u32 = 21;

const ONE: u32 = 10;

fn axis(rt: &impl Abort, name: &[u8], high: i64, points: u32) -> Axis {
    let name = AxisName::new(name).expect(rt, "a name");
    Axis {
        name,
        low: 0,
        high,
        points,
    }
}

// Each degree of a course, and speeds in tenths up to 2 m/s.
fn open_sea(rt: &impl Abort) -> Domain {
    let course = axis(rt, b"course", 359_000, 360);
    let speed = axis(rt, b"speed", 2_000, SPEEDS);
    Domain::make(&[course, speed]).expect(rt, "a domain")
}

// Keeps clear of a contact 20 m to the east that lies still, by the default distances; or the contact is clear for good.
#[tactic(auto, using(crate::proofs::Clear::clear_valid, crate::proofs::Clear::clear_served))]
fn avoid(rt: &impl Abort, alloc: Global, domain: &Domain, resolved: bool) -> Avoid
    ensures is { result ≡ kept_clear resolved }
    ensures serves { CanServe domain.now (kept_clear resolved) }
{
    let name = Name::new(alloc, b"b").expect(rt, "a name");
    let shape = Shape::AvoidCollision(Avoidance {
        contact: Some(name),
        contact_x: Some(20_000),
        contact_y: Some(0),
        contact_speed: Some(0),
        contact_heading: Some(0),
        near: 10_000,
        far: 75_000,
        resolved,
        piece_size: 12,
    });
    assert!(rt; has_axis(domain, b"course"));
    assert!(rt; has_axis(domain, b"speed"));
    assert!(rt; suits(domain, &shape));
    Avoid::make(Spec {
        weight: 100_000,
        shape,
    })
}

// Courses in degrees, and their utilities at 1 m/s.
const UTILITIES: [(u32, i64); 4] = [(90, 0), (45, 1_809), (0, 5_429), (270, 5_429)];

// They are those of the contact to the east.
fn keeps_clear(rt: &impl Abort, avoid: &Avoid, domain: &Domain)
    requires is { avoid.now ≡ kept_clear false }
    requires serves { CanServe domain.now (kept_clear false) }
{
    let own = Spot { x: 0, y: 0 };
    for (course, wanted) in UTILITIES {
        assert!(rt; course < 360);
        let index = course * SPEEDS + ONE;
        assert!(rt; index < domain.points());
        let point = domain.point_at(index);
        assert_eq!(rt; utility(avoid, domain, &own, &point), wanted, "{course}");
    }
}

// An update is refused, so that nothing changes.
fn refuses(rt: &impl Abort, alloc: Global, avoid: &mut Avoid, domain: &Domain, said: &[u8])
    ensures { avoid.new ≡ avoid.old }
{
    let said = Txt::new(alloc, said).expect(rt, "a text");
    match avoid.update(alloc, domain, &said) {
        Ok(taken) => assert!(rt; !taken),
        Err(_) => panic!(rt; "memory"),
    }
}

// A copy is equal. A bad value, equal distances or too many boxes refuse the contact's new place too.
#[test]
fn contacts_are_kept_clear_of(rt: HostRuntime) {
    let alloc = rt.alloc();
    let domain = open_sea(&rt);
    let avoid = avoid(&rt, alloc, &domain, false);
    let mut copied = avoid.copy(alloc).expect(&rt, "memory");
    assert!(rt; copied.weight() == 100_000);
    keeps_clear(&rt, &copied, &domain);
    let bad = b"contact_x=30 # contact_speed=101".as_slice();
    refuses(&rt, alloc, &mut copied, &domain, bad);
    let equal = b"contact_x=30 # max_util_cpa_dist=10".as_slice();
    refuses(&rt, alloc, &mut copied, &domain, equal);
    let many = b"contact_x=30 # piece_size=1".as_slice();
    refuses(&rt, alloc, &mut copied, &domain, many);
    keeps_clear(&rt, &copied, &domain);
}

// What is known of the vehicle: its position, or nothing.
fn known(rt: &impl Abort, alloc: Global, is_seen: bool) -> Info {
    let mut info = Info::make(alloc);
    if is_seen {
        for var in ["NAV_X", "NAV_Y"] {
            learn(rt, alloc, &mut info, var, &number(rt, 0));
        }
    }
    info
}

// What a step gives.
fn stepped(rt: &impl Abort, alloc: Global, resolved: bool, is_seen: bool) -> Out {
    let domain = open_sea(rt);
    let mut avoid = avoid(rt, alloc, &domain, resolved);
    match avoid.step(alloc, &domain, &known(rt, alloc, is_seen), 0) {
        Ok(out) => out,
        Err(_) => panic!(rt; "memory"),
    }
}

// A contact that is clear for good needs no position; without one any other is a fault.
#[test]
fn a_contact_is_told_until_it_is_clear(rt: HostRuntime) {
    let near = stepped(&rt, rt.alloc(), false, true);
    assert!(rt; near.func.is_some() && near.course && near.speed && !near.depth);
    assert!(rt; !near.done && near.fault.is_none());
    let lost = stepped(&rt, rt.alloc(), false, false);
    assert!(rt; lost.func.is_none() && !lost.done && lost.fault == Some(BhvFault::NoPosition));
    let clear = stepped(&rt, rt.alloc(), true, false);
    assert!(rt; clear.func.is_none() && clear.done && clear.fault.is_none());
}
