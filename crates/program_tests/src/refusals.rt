// Runs that don't end well: files that are refused or absent.
use crate::files::{
    ALPHA_SCRIPT, COURSE_MISSION, DEPLOYING_SCRIPT, MODES, append, append_each, levels,
};
use crate::runs::{CHECK, PLAY, Row, SOLVE, STEER, rows_hold, writes};
use mission_maker::{SURVEY_BEHAVIORS, SURVEY_MISSION};
use std::alloc::Global;
use std::process::Abort;
use std::sync::Wait;
use std::thread::Threads;

const FAST: &str =
    "ProcessConfig = pHelmIvP\n{\nAppTick = 1000\nbehaviors = alpha.bhv\ndomain = course:0:359:360\n}\n";

// The first file that fails is told, and nothing is written.
const REFUSED: &[Row] = &[
    // Scripts.
    (
        PLAY,
        &["1 a post X=1\n0.5 a fetch\n"],
        "script line 2: S2 StampGoesBack",
        "",
    ),
    (
        PLAY,
        &["0 pHelmIvP fetch"],
        "script line 1: S9 HelmName",
        "",
    ),
    (PLAY, &["0 a jump"], "script line 1: S3 UnknownOp", ""),
    (PLAY, &["0 a fetch now"], "script line 1: S3 UnknownOp", ""),
    (PLAY, &["0 a post 9X=1"], "script line 1: S4 BadName", ""),
    (
        PLAY,
        &["0 a post X=\"open"],
        "script line 1: S5 BadValue",
        "",
    ),
    (PLAY, &["0 a post X=1 #"], "script line 1: S5 BadValue", ""),
    (
        PLAY,
        &["0 a register N#"],
        "script line 1: S6 BadPattern",
        "",
    ),
    (
        PLAY,
        &["0 a register X -1"],
        "script line 1: S7 BadInterval",
        "",
    ),
    (
        PLAY,
        &["ivp 1\ndomain course:0:359:360\nfunction 100\npiece 0 359 7 0\nend\n"],
        "script line 1: S1 BadStamp",
        "",
    ),
    (
        PLAY,
        &["1000000.001 a fetch"],
        "script line 1: S1 BadStamp",
        "",
    ),
    // Problems, and a decision whose point is outside of the domain.
    (SOLVE, &[""], "problem line 1: P9 NoEnd", ""),
    (
        SOLVE,
        &["ivp 1\ndomain course:0:359:360\nend\n"],
        "problem line 3: P8 NoFunction",
        "",
    ),
    (
        SOLVE,
        &["ivp 1\ndomain course:0:359:360\nfunction 100\npiece 0 360 7 0\nend\n"],
        "problem line 4: P3 BadBox",
        "",
    ),
    (
        SOLVE,
        &["ivp 1\ndomain course:0:359:360\nfunction 100\npiece 0 359 7 300\nend\n"],
        "problem line 3: P5 ValueOut",
        "",
    ),
    (
        SOLVE,
        &["ivp 1\ndomain a:0:2:3\nfunction 1\npiece 0 1 0 0\npiece 1 2 0 0\nend\n"],
        "problem line 3: P4 NotPartition",
        "",
    ),
    (
        SOLVE,
        &["ivp 1\ndomain a:0:2:3\nfunction 1\npiece 0 0 0 0\npiece 2 2 0 0\nend\n"],
        "problem line 3: P4 NotPartition",
        "",
    ),
    (
        CHECK,
        &[
            "ivp 1\ndomain course:0:359:360\nfunction 100\npiece 0 359 7 0\nend\ndecision 360 700\ncut : 700 0\ndone\n",
        ],
        "decision line 6: P10 BadPoint",
        "",
    ),
    // Scripts beside a helm.
    (STEER, &["0 a"], "script line 1: S3 UnknownOp", ""),
    (
        STEER,
        &[DEPLOYING_SCRIPT, "}\n"],
        "mission line 1: M1 BadLine",
        "",
    ),
    (
        STEER,
        &[DEPLOYING_SCRIPT, COURSE_MISSION, "}\n"],
        "behaviors line 1: B1 BadLine",
        "",
    ),
    (
        STEER,
        &["20 until\n", FAST],
        "mission line 6: M8 TooManyTicks",
        "",
    ),
    // Files that aren't there: behaviours, missions, scripts, problems and decisions.
    (STEER, &["19.999 until\n", FAST], "load fault", ""),
    (STEER, &[DEPLOYING_SCRIPT, COURSE_MISSION], "load fault", ""),
    (
        &["play", "s.txt", "absent.moos"],
        &[DEPLOYING_SCRIPT, "", MODES],
        "load fault",
        "",
    ),
    (&["play", "absent.txt"], &[""], "load fault", ""),
    (&["solve", "absent.txt"], &[""], "load fault", ""),
    (&["check", "absent.txt"], &[""], "load fault", ""),
];

#[test]
fn the_first_file_that_fails_is_told(rt: HostRuntime) {
    rows_hold(&rt, rt.alloc(), REFUSED);
}

// So many clients, each with a fetch, beside a helm.
fn clients_end<R: Threads + Wait + Sync + Abort>(
    rt: &R,
    alloc: Global,
    clients: u32,
    ended: &str,
    told: &str,
) {
    let mut text = String::new(alloc);
    append_each(rt, alloc, &mut text, "0 c", clients, " fetch\n");
    let files = [text.as_str(), COURSE_MISSION, MODES];
    writes(rt, alloc, STEER, &files, ended, told);
}

#[test]
fn what_is_too_much_is_refused(rt: HostRuntime) {
    clients_end(&rt, rt.alloc(), 65, "script line 65: S8 Clients", "");
    clients_end(&rt, rt.alloc(), 64, "done", "%% moosdb play 1\n~");
    let heavy = levels(&rt, rt.alloc(), "10000.001", "");
    let files = [heavy.as_str()];
    writes(
        &rt,
        rt.alloc(),
        SOLVE,
        &files,
        "problem line 3: P6 BadWeight",
        "",
    );
}

// What is changed in the survey's files, and how they are refused then.
const CHANGES: &[(&str, &str, &str)] = &[
    // The mission: cut off in the helm's block, without what it needs, and with what it doesn't allow.
    ("}\n", "", "mission line 11: M2 Unclosed"),
    (
        "  behaviors = alpha.bhv\n",
        "",
        "mission line 11: M7 NoBehaviors",
    ),
    (
        "  domain = course:0:359:360\n  domain = speed:0:4:41\n  domain = depth:0:100:101\n",
        "",
        "mission line 9: M5 NoDomain",
    ),
    (
        "speed:0:4:41",
        "speed:4:4:1",
        "mission line 10: M3 BadDomain",
    ),
    (
        "depth:0:100:101",
        "depth:0:100:100000",
        "mission line 11: M4 DomainTooLarge",
    ),
    ("AppTick = 4", "AppTick = 0", "mission line 6: M6 BadTick"),
    // The script lasts for 60 s, in which such a helm ticks 60,001 times.
    (
        "AppTick = 4",
        "AppTick = 1000",
        "mission line 12: M8 TooManyTicks",
    ),
    // The behaviours: of a mission without a depth, and lines that aren't good.
    (
        "  domain = depth:0:100:101\n",
        "",
        "behaviors line 43: B10 NoAxis",
    ),
    (
        "BHV_Waypoint",
        "BHV_Way",
        "behaviors line 4: B3 UnknownBehavior",
    ),
    (
        "condition = RETURN = false",
        "condition = (RETURN = false",
        "behaviors line 8: B5 BadCondition",
    ),
    (
        "speed = 2   // meters per second",
        "speed = fast",
        "behaviors line 14: B6 BadParam",
    ),
    (
        "name = waypt_return",
        "name = waypt_survey",
        "behaviors line 24: B4 SameName",
    ),
    ("  depth = 10\n", "", "behaviors line 42: B11 ParamMissing"),
];

// The survey is refused so if the first such words of its mission and of its behaviours are changed.
fn is_refused<R: Threads + Wait + Sync + Abort>(
    rt: &R,
    alloc: Global,
    old: &str,
    new: &str,
    ended: &str,
) {
    let mission = SURVEY_MISSION.replacen(alloc, old, new, 1);
    let mission = mission.expect(rt, "memory");
    let behaviors = SURVEY_BEHAVIORS.replacen(alloc, old, new, 1);
    let behaviors = behaviors.expect(rt, "memory");
    let files = [ALPHA_SCRIPT, mission.as_str(), behaviors.as_str()];
    writes(rt, alloc, STEER, &files, ended, "");
}

#[test]
fn a_changed_survey_is_refused(rt: HostRuntime) {
    for (old, new, ended) in CHANGES {
        is_refused(&rt, rt.alloc(), *old, *new, *ended);
    }
}

// The lines with which the survey's behaviour file may end: behind each other one a block is open.
const LAST_LINES: &[u32] = &[1, 2, 3, 20, 21, 34, 35, 43];

// The survey for one tick, whose behaviour file is cut behind this line.
fn cut_ends<R: Threads + Wait + Sync + Abort>(rt: &R, alloc: Global, line: u32, behaviors: &str) {
    let files = ["0 until\n", SURVEY_MISSION, behaviors];
    if LAST_LINES.contains(&line) {
        writes(rt, alloc, STEER, &files, "done", "%% moosdb play 1\n~");
    } else {
        let ended = format!(in alloc; "behaviors line {line}: B2 Unclosed");
        let ended = ended.expect(rt, "memory");
        writes(rt, alloc, STEER, &files, ended.as_str(), "");
    }
}

#[test]
fn a_survey_may_end_between_its_blocks(rt: HostRuntime) {
    let mut behaviors = String::new(rt.alloc());
    for (number, line) in (1..44).zip(SURVEY_BEHAVIORS.lines()) {
        append(&rt, &mut behaviors, &[line, "\n"]);
        cut_ends(&rt, rt.alloc(), number, behaviors.as_str());
    }
    assert!(rt; behaviors.as_str() == SURVEY_BEHAVIORS);
}
