// Steps of a simulated vehicle and of its controller, worked by hand.
ghost use Rattle.std.specs.Prelude.{IfSome};
ghost use Rattle.moos_post.specs.Words.{IsMilli};
ghost use Rattle.sim_vehicle.specs.Motion.{IsHull};

use crate::made::{holds, number_at};
use sim_vehicle::{Craft, Hull, Rig, advance};
use std::process::Abort;

fn craft(rt: &impl Abort, text: &[u8]) -> Craft {
    assert!(rt; text.len() < 1000);
    match Craft::read(text) {
        Ok(craft) => craft,
        Err(_) => panic!(rt; "no vehicle"),
    }
}

// A number that is known.
fn known(rt: &impl Abort, thousandths: i64) -> Option<i64>
    ensures { IfSome result IsMilli }
{
    assert!(rt; -1_000_000_000_000 <= thousandths && thousandths <= 1_000_000_000_000);
    Some(thousandths)
}

// The number at a place of a row, if it is known.
fn told(rt: &impl Abort, row: &str, place: usize) -> Option<i64>
    ensures { IfSome result IsMilli }
{
    match number_at(row, place) {
        Some(thousandths) => known(rt, thousandths),
        None => None,
    }
}

// Vehicle files, and steps of their controllers: of each the wanted heading and speed and the vehicle's heading, and then the rudder
// and the thrust.
const STEPS: &[(&[u8], &[&str])] = &[
    // The rudder goes the shorter way round.
    (b"", &["90000 - 0 90000 0"]),
    (b"", &["350000 - 10000 -20000 0"]),
    (b"", &["190000 - 10000 100000 0"]),
    (b"", &["191000 - 10000 -100000 0"]),
    (b"", &["90000 2000 0 90000 100000"]),
    // With the gains 1, 2 and 3: errors one after the other. The integral is 5, 9 and then 10, if it is held.
    (
        b"yaw_ki = 2\nyaw_kd = 3\nintegral_limit = 10\nspeed_factor = 20",
        &[
            "5000 1500 0 30000 30000",
            "4000 1500 0 19000 30000",
            "3000 1500 0 20000 30000",
        ],
    ),
];

// The controller's next step is as this row says.
fn steers(rt: &impl Abort, craft: &Craft, rig: &mut Rig, row: &str) {
    let heading = told(rt, row, 2);
    let drive = rig.control(craft, told(rt, row, 0), told(rt, row, 1), heading);
    holds(rt, row, Some(drive.rudder) == number_at(row, 3));
    holds(rt, row, Some(drive.thrust) == number_at(row, 4));
}

// The controller of this vehicle makes these steps.
fn controls(rt: &impl Abort, file: &[u8], rows: &[&str]) {
    let craft = craft(rt, file);
    let mut rig = Rig::make();
    for row in rows {
        steers(rt, &craft, &mut rig, *row);
    }
}

#[test]
fn controllers(rt: HostRuntime) {
    for (file, rows) in STEPS {
        controls(&rt, *file, *rows);
    }
}

// Where a vehicle is a quarter of a second later that is to turn east and to dive, at 2 metres a second.
fn moved(rt: &impl Abort, craft: &Craft, rig: &mut Rig, hull: &Hull) -> Hull
    requires { IsHull craft.now hull.now }
    ensures { IsHull craft.now result }
{
    let (heading, speed) = (known(rt, 90_000), known(rt, 2_000));
    let drive = rig.control(craft, heading, speed, known(rt, hull.heading));
    let (rudder, thrust) = (known(rt, drive.rudder), known(rt, drive.thrust));
    advance(craft, hull, rudder, thrust, known(rt, 10_000), 250)
}

const FIRST: Hull = Hull {
    x: 0,
    y: 62,
    heading: 562,
    speed: 250,
    depth: 125,
};

const SECOND: Hull = Hull {
    x: 2,
    y: 186,
    heading: 1_679,
    speed: 500,
    depth: 250,
};

#[test]
fn vehicle_turns_east_and_dives(rt: HostRuntime) {
    let craft = craft(&rt, b"");
    let mut rig = Rig::make();
    let first = moved(&rt, &craft, &mut rig, &craft.start());
    assert!(rt; first == FIRST);
    let second = moved(&rt, &craft, &mut rig, &first);
    assert!(rt; second == SECOND);
}

const STILL: Hull = Hull {
    x: 5_000,
    y: 0,
    heading: 45_000,
    speed: 0,
    depth: 1_000,
};

#[test]
fn vehicle_lies_still_where_nothing_is_known(rt: HostRuntime) {
    let craft = craft(&rt, b"start_x = 5\nstart_heading = 45\nstart_depth = 1");
    let start = craft.start();
    assert!(rt; start == STILL);
    let later = advance(&craft, &start, None, None, None, 1_000_000);
    assert!(rt; later == STILL);
}
