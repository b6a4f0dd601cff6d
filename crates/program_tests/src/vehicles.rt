// Scripts that are played beside a simulated vehicle.
use crate::files::{FIVE_TICKS, SAILED};
use crate::runs::{Row, all_write, rows_hold};
use mission_maker::{SURVEY_BEHAVIORS, SURVEY_MISSION};

const SAIL: &[&str] = &["simulate", "s.txt", "m.moos", "v.txt", "--workers", "1"];

// The same by sixteen workers.
const SAIL_TOGETHER: &[&str] = &["simulate", "s.txt", "m.moos", "v.txt", "--workers", "16"];

// The same with contacts.
const WATCH: &[&str] = &["simulate", "s.txt", "m.moos", "v.txt", "c.txt"];

#[test]
fn a_vehicle_sails_the_same_by_any_number_of_workers(rt: HostRuntime) {
    let lines = [SAIL, SAIL_TOGETHER];
    all_write(&rt, rt.alloc(), &lines, SAILED, "~\n%% end 36 61\n");
}

// A contact comes near and is clear again, while the vehicle lies still; a report of two fields says nothing.
const FIVE_TURNS: &str = "0 r post NODE_REPORT=NAME=b,X=60,Y=0,SPD=1,HDG=90\n\
    0 r post NODE_REPORT=NAME=b,X=1\n\
    0.25 r post NODE_REPORT=NAME=b,X=50,Y=0,SPD=1,HDG=90\n\
    0.5 r post NODE_REPORT=NAME=b,X=50.001,Y=0,SPD=1,HDG=90\n\
    0.75 r post NODE_REPORT=NAME=b,X=60,Y=0,SPD=1,HDG=90\n\
    1 r post NODE_REPORT=NAME=b,X=60.001,Y=0,SPD=1,HDG=90\n1 until\n";

const PLAYED: &[Row] = &[
    // What is posted of that contact, with the usual ranges: six posts, and without the file so many less.
    (
        WATCH,
        &[FIVE_TURNS, SURVEY_MISSION, SURVEY_BEHAVIORS, "", ""],
        "done",
        "~\n0.25 CONTACT_ALERT pBasicContactMgr \"b\"\n\
        0.25 CONTACT_INFO pBasicContactMgr \"name=avd_b # contact=b # contact_x=50 # contact_y=0 # contact_speed=1 # contact_heading=90\"\n~\n\
        0.5 CONTACT_INFO pBasicContactMgr \"name=avd_b # contact=b # contact_x=50.001 # contact_y=0 # contact_speed=1 # contact_heading=90\"\n~\n\
        0.75 CONTACT_INFO pBasicContactMgr \"name=avd_b # contact=b # contact_x=60 # contact_y=0 # contact_speed=1 # contact_heading=90\"\n~\n\
        1 CONTACT_RESOLVED pBasicContactMgr \"b\"\n\
        1 CONTACT_INFO pBasicContactMgr \"name=avd_b # resolved=true\"\n~%% end 52 61\n",
    ),
    (
        SAIL,
        &[FIVE_TURNS, SURVEY_MISSION, SURVEY_BEHAVIORS, ""],
        "done",
        "~\n%% end 41 55\n",
    ),
    // Without the file a script may have a client of the manager's name.
    (
        SAIL,
        &[
            "0 pBasicContactMgr fetch\n",
            SURVEY_MISSION,
            SURVEY_BEHAVIORS,
            "",
        ],
        "done",
        "%% moosdb play 1\n~",
    ),
];

#[test]
fn a_contact_is_told_of_while_it_is_near(rt: HostRuntime) {
    rows_hold(&rt, rt.alloc(), PLAYED);
}

const REFUSED: &[Row] = &[
    (
        WATCH,
        &[
            "0 a fetch\n0 pBasicContactMgr fetch\n",
            SURVEY_MISSION,
            SURVEY_BEHAVIORS,
            "",
            "clear_range = 1\n",
        ],
        "script line 2: S11 OwnName",
        "",
    ),
    (
        WATCH,
        &[
            FIVE_TICKS,
            SURVEY_MISSION,
            SURVEY_BEHAVIORS,
            "",
            "range = 5\n",
        ],
        "contacts line 1: C1 BadLine",
        "",
    ),
    (
        WATCH,
        &[
            FIVE_TICKS,
            SURVEY_MISSION,
            SURVEY_BEHAVIORS,
            "",
            "alert_range = 5\nclear_range = 10001\n",
        ],
        "contacts line 2: C2 BadNumber",
        "",
    ),
    (
        WATCH,
        &[
            FIVE_TICKS,
            SURVEY_MISSION,
            SURVEY_BEHAVIORS,
            "",
            "alert_range = 61\n\n",
        ],
        "contacts line 2: C3 BadRanges",
        "",
    ),
    (
        SAIL,
        &[
            "0 a fetch\n0 uSimMarine fetch\n0 pMarinePID fetch\n",
            SURVEY_MISSION,
            SURVEY_BEHAVIORS,
            "",
        ],
        "script line 2: S11 OwnName",
        "",
    ),
    (
        SAIL,
        &[
            "0 pMarinePID post X=1\n",
            SURVEY_MISSION,
            SURVEY_BEHAVIORS,
            "",
        ],
        "script line 1: S11 OwnName",
        "",
    ),
    // Every other refusal of a script comes first.
    (
        SAIL,
        &[
            "0 pMarinePID post X=1\n0 a jump\n",
            SURVEY_MISSION,
            SURVEY_BEHAVIORS,
            "",
        ],
        "script line 2: S3 UnknownOp",
        "",
    ),
    (
        SAIL,
        &[
            FIVE_TICKS,
            SURVEY_MISSION,
            SURVEY_BEHAVIORS,
            "max_speed 2\n",
        ],
        "vehicle line 1: V1 BadLine",
        "",
    ),
    (
        SAIL,
        &[
            FIVE_TICKS,
            SURVEY_MISSION,
            SURVEY_BEHAVIORS,
            "max_speed = 2\nstart_heading = 360\n",
        ],
        "vehicle line 2: V2 BadNumber",
        "",
    ),
    // Files that aren't there.
    (
        &["simulate", "s.txt", "m.moos", "absent.txt"],
        SAILED,
        "load fault",
        "",
    ),
    (
        &["simulate", "s.txt", "m.moos", "v.txt", "absent.txt"],
        SAILED,
        "load fault",
        "",
    ),
];

#[test]
fn what_no_vehicle_sails_is_refused(rt: HostRuntime) {
    rows_hold(&rt, rt.alloc(), REFUSED);
}
