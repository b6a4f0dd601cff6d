// Runs with a helm that has modes, and of a generated mission.
use crate::files::{COURSE_MISSION, DEPLOYING_SCRIPT, MODES};
use crate::runs::{Row, STEER, ran, rows_hold};
use std::alloc::Global;
use std::process::Abort;
use std::sync::Wait;
use std::thread::Threads;

// What each report begins with: the clients, and that the helm registers.
const HEAD: &str =
    "%% moosdb play 1\n%% client 0 nav\n%% client 1 pHelmIvP\n%% entry 0 0 pHelmIvP register\n\
    %% reg MOOS_MANUAL_OVERRIDE * 0\n%% reg MOOS_MANUAL_OVERIDE * 0\n%% reg NAV_X * 0\n\
    %% reg NAV_Y * 0\n%% reg NAV_DEPTH * 0\n%% reg DEPLOY * 0\n";

// What follows if the client's post is before the helm's first fetch.
const HEARD: &str =
    "%% entry 1 0 nav post 0 2\n0 DEPLOY nav \"true\"\n0 MOOS_MANUAL_OVERRIDE nav \"false\"\n\
    %% entry 2 0 pHelmIvP fetch\n%% mail 0 0 DEPLOY nav \"true\"\n\
    %% mail 1 0 MOOS_MANUAL_OVERRIDE nav \"false\"\n%% entry 3 0 pHelmIvP post 2 4\n\
    0 IVPHELM_STATE pHelmIvP \"DRIVE\"\n0 MODE pHelmIvP \"ACTIVE\"\n0 DESIRED_SPEED pHelmIvP 0\n\
    0 IVPHELM_ALLSTOP pHelmIvP \"NothingToDo\"\n%% iteration 0 0 DRIVE\n%% mode ACTIVE\n%% none\n\
    %% entry 4 0.25 pHelmIvP fetch\n%% entry 5 0.25 pHelmIvP post 6 1\n\
    0.25 DESIRED_SPEED pHelmIvP 0\n%% iteration 1 0.25 DRIVE\n%% mode ACTIVE\n%% none\n%% end 6 7\n";

// What may follow in a race: that, or the client's post is before the helm's first post, and so on, or behind all.
const ENDS: &[&str] = &[
    HEARD,
    "%% entry 1 0 pHelmIvP fetch\n%% entry 2 0 nav post 0 2\n0 DEPLOY nav \"true\"\n\
        0 MOOS_MANUAL_OVERRIDE nav \"false\"\n%% entry 3 0 pHelmIvP post 2 4\n\
        0 IVPHELM_STATE pHelmIvP \"PARK\"\n0 MODE pHelmIvP \"INACTIVE\"\n0 DESIRED_SPEED pHelmIvP 0\n\
        0 IVPHELM_ALLSTOP pHelmIvP \"ManualOverride\"\n%% iteration 0 0 PARK\n%% mode INACTIVE\n\
        %% none\n%% entry 4 0.25 pHelmIvP fetch\n%% mail 0 0 DEPLOY nav \"true\"\n\
        %% mail 1 0 MOOS_MANUAL_OVERRIDE nav \"false\"\n%% entry 5 0.25 pHelmIvP post 6 4\n\
        0.25 IVPHELM_STATE pHelmIvP \"DRIVE\"\n0.25 MODE pHelmIvP \"ACTIVE\"\n\
        0.25 DESIRED_SPEED pHelmIvP 0\n0.25 IVPHELM_ALLSTOP pHelmIvP \"NothingToDo\"\n\
        %% iteration 1 0.25 DRIVE\n%% mode ACTIVE\n%% none\n%% end 6 10\n",
    "%% entry 1 0 pHelmIvP fetch\n%% entry 2 0 pHelmIvP post 0 4\n0 IVPHELM_STATE pHelmIvP \"PARK\"\n\
        0 MODE pHelmIvP \"INACTIVE\"\n0 DESIRED_SPEED pHelmIvP 0\n\
        0 IVPHELM_ALLSTOP pHelmIvP \"ManualOverride\"\n%% iteration 0 0 PARK\n%% mode INACTIVE\n\
        %% none\n%% entry 3 0 nav post 4 2\n0 DEPLOY nav \"true\"\n\
        0 MOOS_MANUAL_OVERRIDE nav \"false\"\n%% entry 4 0.25 pHelmIvP fetch\n\
        %% mail 4 0 DEPLOY nav \"true\"\n%% mail 5 0 MOOS_MANUAL_OVERRIDE nav \"false\"\n\
        %% entry 5 0.25 pHelmIvP post 6 4\n0.25 IVPHELM_STATE pHelmIvP \"DRIVE\"\n\
        0.25 MODE pHelmIvP \"ACTIVE\"\n0.25 DESIRED_SPEED pHelmIvP 0\n\
        0.25 IVPHELM_ALLSTOP pHelmIvP \"NothingToDo\"\n%% iteration 1 0.25 DRIVE\n%% mode ACTIVE\n\
        %% none\n%% end 6 10\n",
    "%% entry 1 0 pHelmIvP fetch\n%% entry 2 0 pHelmIvP post 0 4\n0 IVPHELM_STATE pHelmIvP \"PARK\"\n\
        0 MODE pHelmIvP \"INACTIVE\"\n0 DESIRED_SPEED pHelmIvP 0\n\
        0 IVPHELM_ALLSTOP pHelmIvP \"ManualOverride\"\n%% iteration 0 0 PARK\n%% mode INACTIVE\n\
        %% none\n%% entry 3 0.25 pHelmIvP fetch\n%% entry 4 0 nav post 4 2\n0 DEPLOY nav \"true\"\n\
        0 MOOS_MANUAL_OVERRIDE nav \"false\"\n%% entry 5 0.25 pHelmIvP post 6 1\n\
        0.25 DESIRED_SPEED pHelmIvP 0\n%% iteration 1 0.25 PARK\n%% mode INACTIVE\n%% none\n%% end 6 7\n",
    "%% entry 1 0 pHelmIvP fetch\n%% entry 2 0 pHelmIvP post 0 4\n0 IVPHELM_STATE pHelmIvP \"PARK\"\n\
        0 MODE pHelmIvP \"INACTIVE\"\n0 DESIRED_SPEED pHelmIvP 0\n\
        0 IVPHELM_ALLSTOP pHelmIvP \"ManualOverride\"\n%% iteration 0 0 PARK\n%% mode INACTIVE\n\
        %% none\n%% entry 3 0.25 pHelmIvP fetch\n%% entry 4 0.25 pHelmIvP post 4 1\n\
        0.25 DESIRED_SPEED pHelmIvP 0\n%% iteration 1 0.25 PARK\n%% mode INACTIVE\n%% none\n\
        %% entry 5 0 nav post 5 2\n0 DEPLOY nav \"true\"\n0 MOOS_MANUAL_OVERRIDE nav \"false\"\n\
        %% end 6 7\n",
];

// The report of a run by these words is the head and one of these ends.
fn hears<R: Threads + Wait + Sync + Abort>(rt: &R, alloc: Global, line: &[&str], ends: &[&str]) {
    let files = [DEPLOYING_SCRIPT, COURSE_MISSION, MODES];
    let report = ran(rt, alloc, line, &files, "done");
    is_heard(rt, report.as_str(), ends);
}

fn is_heard(rt: &impl Abort, report: &str, ends: &[&str]) {
    let end = report.strip_prefix(HEAD).unwrap_or("");
    assert!(rt; is_among(end, ends), "{report}");
}

fn is_among(end: &str, ends: &[&str]) -> bool {
    for other in ends {
        if end == *other {
            return true;
        }
    }
    false
}

// Both play one script with a helm, in order Stamp.
#[test]
fn a_helm_hears_the_client_of_its_stamp(rt: HostRuntime) {
    hears(&rt, rt.alloc(), STEER, &[HEARD]);
    let line = ["play", "--workers", "16", "s.txt", "m.moos"];
    hears(&rt, rt.alloc(), &line, &[HEARD]);
}

#[test]
fn in_a_race_the_helm_hears_what_came(rt: HostRuntime) {
    let line = ["play", "s.txt", "m.moos", "--race"];
    for _ in 0..50 {
        hears(&rt, rt.alloc(), &line, ENDS);
    }
}

const COUNTS: &str =
    "generated 7\nentries 9062\nposts 9610\nmailed 31020\niterations 1201\ndecisions 1199\ntotal 23970000000\n";

const GENERATED: &[Row] = &[
    (&["generate", "7"], &[], "done", COUNTS),
    (&["generate", "7"], &[], "done", COUNTS),
];

#[test]
fn a_number_counts_the_same_each_time(rt: HostRuntime) {
    rows_hold(&rt, rt.alloc(), GENERATED);
}
