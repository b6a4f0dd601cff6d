// The files of several subjects: scripts, problems, missions, and what is written of some of them.
use mission_maker::{SURVEY_BEHAVIORS, SURVEY_MISSION};
use std::alloc::Global;
use std::process::Abort;

pub(crate) const FIRST_SCRIPT: &str = "0 pA register X\n1 pA post X=5\n2 pA fetch\n3 pA fetch\n";

pub(crate) const FIRST_REPORT: &str =
    "%% moosdb play 1\n%% client 0 pA\n%% entry 0 0 pA register\n%% reg X * 0\n\
    %% entry 1 1 pA post 0 1\n1 X pA 5\n%% entry 2 2 pA fetch\n%% mail 0 1 X pA 5\n%% entry 3 3 pA fetch\n%% end 4 1\n";

// A decided problem is the problem's own lines and, from the first `decision` on, its decision's.
pub(crate) const FIRST_DECIDED: &str =
    "ivp 1\ndomain course:0:359:360\nfunction 100\npiece 0 359 7 0\nend\ndecision 0 700\ncut : 700 0\ndone\n";

pub(crate) const SECOND_DECIDED: &str = "ivp 1\ndomain a:0:2:3\ndomain b:0:1:2\ndomain d:0:1:2\n\
    function 2\npiece 0 2 0 1 0 1 0 10 0 0\n\
    function 3\npiece 0 0 0 1 0 1 20 0 5 0\npiece 1 2 0 1 0 1 0 0 5 0\nend\n\
    decision 0 1 0 75\ncut 0 0 : 75 2\ncut 0 1 : 55 10\ndone\n";

// A vehicle is deployed and given to the helm.
pub(crate) const DEPLOYING_SCRIPT: &str =
    "0 nav post DEPLOY=true # MOOS_MANUAL_OVERRIDE=false\n0.25 until\n";

pub(crate) const COURSE_MISSION: &str =
    "ProcessConfig = pHelmIvP\n{\nAppTick = 4\nbehaviors = alpha.bhv\ndomain = course:0:359:360\n}\n";

pub(crate) const MODES: &str = "set MODE = ACTIVE {\nDEPLOY = true\n} INACTIVE\n";

pub(crate) const ALPHA_SCRIPT: &str =
    "0 uNav post NAV_X=0 # NAV_Y=0\n0.1 uTimer post DEPLOY=true # MOOS_MANUAL_OVERRIDE=false\n\
    10 uNav post NAV_X=60 # NAV_Y=-40\n60 until\n";

// A survey of five points, and the way back: its script, its mission, and its behaviour file.
pub(crate) const ALPHA: &[&str] = &[ALPHA_SCRIPT, SURVEY_MISSION, SURVEY_BEHAVIORS];

// The helm has the vehicle for a second, in which it ticks five times.
pub(crate) const FIVE_TICKS: &str = "0 t post DEPLOY=true # MOOS_MANUAL_OVERRIDE=false\n1 until\n";

// That with the survey's mission, beside a vehicle as it is without settings.
pub(crate) const SAILED: &[&str] = &[FIVE_TICKS, SURVEY_MISSION, SURVEY_BEHAVIORS, ""];

pub(crate) fn append(rt: &impl Abort, text: &mut String, pieces: &[&str]) {
    for piece in pieces {
        text.push_str(*piece).expect(rt, "memory");
    }
}

// Appends each number below `many`, with what is before it and behind it.
pub(crate) fn append_each(
    rt: &impl Abort,
    alloc: Global,
    text: &mut String,
    before: &str,
    many: u32,
    behind: &str,
) {
    for number in 0..many {
        let piece = format!(in alloc; "{before}{number}{behind}").expect(rt, "memory");
        text.push_str(piece.as_str()).expect(rt, "memory");
    }
}

// 64 functions over the course, each of value 100,000 everywhere: this weight, and then 10,000. Behind them is a decision, if any.
pub(crate) fn levels(rt: &impl Abort, alloc: Global, first: &str, decision: &str) -> String {
    let mut text = String::new(alloc);
    append(rt, &mut text, &["ivp 1\ndomain course:0:359:360\n"]);
    append(
        rt,
        &mut text,
        &["function ", first, "\npiece 0 359 100000 0\n"],
    );
    for _ in 0..63 {
        append(rt, &mut text, &["function 10000\npiece 0 359 100000 0\n"]);
    }
    append(rt, &mut text, &["end\n", decision]);
    text
}
