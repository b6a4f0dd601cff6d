// Vehicle files and refusals worked by hand. What else than the start a file sets shows where a vehicle moves.
use crate::files::{Kind, are_judged, bytes_of, check};
use sim_vehicle::{Craft, Hull};

// Vehicle files, and where the vehicle starts: its x, its y, its heading and its depth.
const GOOD: &[(&str, i64, i64, i64, i64)] = &[
    ("", 0, 0, 0, 0),
    // Letters of either case, comments, carriage returns, tabs and blank lines; of several lines the last counts.
    (
        "// a \"vehicle\r\nstart_x = 1\r\n\r\nSTART_X=-2.5 // here\r\n\tStart_Y\t= +.0419\r\n \nmax_speed = 1 // = 2\naccel = 1 // \"",
        -2_500,
        41,
        0,
        0,
    ),
    // Digits past the third decimal are dropped before the range is judged.
    (
        "start_heading = 359.9999\nstart_depth = 10000.0009\nturn_rate = -0.0009",
        0,
        0,
        359_999,
        10_000_000,
    ),
    (
        "start_x = -1000000.0009\nstart_y = 1000000.0009",
        -1_000_000_000,
        1_000_000_000,
        0,
        0,
    ),
    // The least and the most of all numbers.
    (
        "start_x=-1000000\nstart_y=-1000000\nstart_heading=0\nstart_depth=0\nmax_speed=0.001\nturn_rate=0\naccel=0\ndecel=0\ndive=0\nyaw_kp=0\nyaw_ki=0\nyaw_kd=0\nintegral_limit=0\nmax_rudder=0\nmax_thrust=0\nspeed_factor=0",
        -1_000_000_000,
        -1_000_000_000,
        0,
        0,
    ),
    (
        "start_x=1000000\nstart_y=1000000\nstart_heading=359.999\nstart_depth=10000\nmax_speed=100\nturn_rate=360\naccel=100\ndecel=100\ndive=100\nyaw_kp=1000\nyaw_ki=1000\nyaw_kd=1000\nintegral_limit=1000000\nmax_rudder=100\nmax_thrust=100\nspeed_factor=1000",
        1_000_000_000,
        1_000_000_000,
        359_999,
        10_000_000,
    ),
];

// Vehicle files, and before each the line and the cause of its refusal: a quote is open, there is no `=`, or the name is none of the
// table's, which is told before its value (V1); the value is no number, or the number is out of range (V2). The first line that is wrong
// is told, even if a later line sets the same number well.
const REFUSED: &str = "1 V1 max_speed = \"2
1 V1 speed = \"
3 V1 |// here|max_speed = 2 \" // 3
1 V1 max_speed 2
1 V1 max_speed // = 2
4 V1 accel = 1\r|\r| \t\r|x\r|
1 V1 = 2
1 V1 speed = 2
1 V1 speed = x
1 V1 max speed = 2
1 V1 max_speed := 2
1 V2 max_speed =
1 V2 max_speed = x
1 V2 max_speed = 1e1
1 V2 max_speed = 2 3
1 V2 max_speed == 2
1 V2 max_speed = \"2\"
1 V2 start_x = 1000000000.001
1 V2 max_speed = 0
1 V2 max_speed = 0.0009
1 V2 max_speed = 100.001
1 V2 start_x = -1000000.001
1 V2 start_x = 1000000.001
1 V2 start_y = -1000000.001
1 V2 start_y = 1000000.001
1 V2 start_heading = -0.001
1 V2 start_heading = 360
1 V2 start_depth = -0.001
1 V2 start_depth = 10000.001
1 V2 turn_rate = -0.001
1 V2 turn_rate = 360.001
1 V2 accel = -0.001
1 V2 accel = 100.001
1 V2 decel = -0.001
1 V2 decel = 100.001
1 V2 dive = -0.001
1 V2 dive = 100.001
1 V2 yaw_kp = -0.001
1 V2 yaw_kp = 1000.001
1 V2 yaw_ki = -0.001
1 V2 yaw_ki = 1000.001
1 V2 yaw_kd = -0.001
1 V2 yaw_kd = 1000.001
1 V2 integral_limit = -0.001
1 V2 integral_limit = 1000000.001
1 V2 max_rudder = -0.001
1 V2 max_rudder = 100.001
1 V2 max_thrust = -0.001
1 V2 max_thrust = 100.001
1 V2 speed_factor = -0.001
1 V2 speed_factor = 1000.001
1 V2 max_speed = 0|max_speed = \"
2 V2 dive = 1|max_speed = 0|max_speed = 2";

#[test]
fn vehicle_files(rt: HostRuntime) {
    for (text, x, y, heading, depth) in GOOD {
        let wanted = Hull {
            x: *x,
            y: *y,
            heading: *heading,
            speed: 0,
            depth: *depth,
        };
        let craft = Craft::read(bytes_of(&rt, *text)).expect(&rt, *text);
        check(&rt, craft.start() == wanted, *text);
    }
    are_judged(&rt, rt.alloc(), Kind::Vehicle, b"", REFUSED);
}
