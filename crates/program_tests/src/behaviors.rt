// Runs with behaviours: what becomes of them, what they decide together, and what the helm posts of it.
use crate::files::{ALPHA, COURSE_MISSION, DEPLOYING_SCRIPT, append, append_each};
use crate::runs::{CHECK, STEER, all_write, parted, ran, writes};

const COURSE_AND_SPEED: &str = "ProcessConfig = pHelmIvP\n{\nAppTick = 4\nbehaviors = alpha.bhv\n\
    domain = course:0:359:360\ndomain = speed:0:4:41\n}\n";

// A script, a mission and behaviours, and what is written of them.
const PLAYED: &[(&[&str], &str)] = &[
    // A timer ends for good.
    (
        &[
            "0 nav post DEPLOY=true # MOOS_MANUAL_OVERRIDE=false\n1 until\n",
            COURSE_MISSION,
            "Behavior = BHV_Timer {\nname = t\ncondition = DEPLOY = true\nduration = 0.5\nrunflag = A=1\nendflag = B=1\n}\n",
        ],
        "%% moosdb play 1\n%% client 0 nav\n%% client 1 pHelmIvP\n%% entry 0 0 pHelmIvP register\n\
        %% reg MOOS_MANUAL_OVERRIDE * 0\n%% reg MOOS_MANUAL_OVERIDE * 0\n%% reg NAV_X * 0\n\
        %% reg NAV_Y * 0\n%% reg NAV_DEPTH * 0\n%% reg DEPLOY * 0\n\
        %% entry 1 0 nav post 0 2\n0 DEPLOY nav \"true\"\n0 MOOS_MANUAL_OVERRIDE nav \"false\"\n\
        %% entry 2 0 pHelmIvP fetch\n%% mail 0 0 DEPLOY nav \"true\"\n\
        %% mail 1 0 MOOS_MANUAL_OVERRIDE nav \"false\"\n%% entry 3 0 pHelmIvP post 2 4\n\
        0 IVPHELM_STATE pHelmIvP \"DRIVE\"\n0 A pHelmIvP 1\n0 DESIRED_SPEED pHelmIvP 0\n\
        0 IVPHELM_ALLSTOP pHelmIvP \"NothingToDo\"\n%% iteration 0 0 DRIVE\n%% behavior t running\n%% none\n\
        %% entry 4 0.25 pHelmIvP fetch\n%% entry 5 0.25 pHelmIvP post 6 1\n\
        0.25 DESIRED_SPEED pHelmIvP 0\n%% iteration 1 0.25 DRIVE\n%% behavior t running\n%% none\n\
        %% entry 6 0.5 pHelmIvP fetch\n%% entry 7 0.5 pHelmIvP post 7 2\n0.5 B pHelmIvP 1\n\
        0.5 DESIRED_SPEED pHelmIvP 0\n%% iteration 2 0.5 DRIVE\n%% behavior t completed\n%% none\n\
        %% entry 8 0.75 pHelmIvP fetch\n%% entry 9 0.75 pHelmIvP post 9 1\n\
        0.75 DESIRED_SPEED pHelmIvP 0\n%% iteration 3 0.75 DRIVE\n%% behavior t completed\n%% none\n\
        %% entry 10 1 pHelmIvP fetch\n%% entry 11 1 pHelmIvP post 10 1\n\
        1 DESIRED_SPEED pHelmIvP 0\n%% iteration 4 1 DRIVE\n%% behavior t completed\n%% none\n\
        %% end 12 11\n",
    ),
    // A letter makes a timer of a template, a bad one changes nothing, and the timer is gone when it is over.
    (
        &[
            "0 nav post MOOS_MANUAL_OVERRIDE=false # T_UP=\"name=t1 # pwt=5\"\n\
            0.25 nav post T_UP=\"name=t1 # pwt=abc\"\n0.75 until\n",
            COURSE_MISSION,
            "Behavior = BHV_Timer {\nname = tmpl\ntemplating = spawn\nupdates = T_UP\nduration = 0.5\n}\n",
        ],
        "~%% iteration 0 0 DRIVE\n%% update tmpl spawned t1\n%% behavior t1 running\n%% none\n\
        ~%% iteration 1 0.25 DRIVE\n%% update tmpl refused\n%% behavior t1 running\n%% none\n\
        ~%% iteration 2 0.5 DRIVE\n%% behavior t1 completed\n%% none\n\
        ~%% iteration 3 0.75 DRIVE\n%% none\n%% end 11 9\n",
    ),
    // What a letter to a template may say, and what becomes of it.
    (
        &[
            "0 nav post MOOS_MANUAL_OVERRIDE=false # NAV_X=0 # NAV_Y=0 # T_UP=1\n\
            0.25 nav post T_UP=\"pwt=5\"\n\
            0.5 nav post T_UP=\"t1\"\n\
            0.75 nav post T_UP=\"\"\n\
            1 nav post T_UP=\"name=\"\n\
            1.25 nav post T_UP=\"name=t 1\"\n\
            1.5 nav post T_UP=\"nam=t1\"\n\
            1.75 nav post T_UP=\"name=b\"\n\
            2 nav post T_UP=\"name=tmpl\"\n\
            2.25 nav post T_UP=\"name=keep\"\n\
            2.5 nav post T_UP=\"name=x # pwt=10001\"\n\
            2.75 nav post T_UP=\"name=x # a=b\"\n\
            3 nav post T_UP=\"name=x # name=y\"\n\
            3.25 nav post T_UP=\"name=x #\"\n\
            3.5 nav post K_UP=\"name=x # outer_radius=1\"\n\
            3.75 nav post K_UP=\"name=x # inner_radius=20 # outer_radius=30\"\n\
            4 nav post T_UP=\"name=x\"\n\
            4.25 nav post T_UP=\" NAME = t1 \"\n\
            4.5 nav post T_UP=\"name=t1 # pwt=abc\"\n\
            4.75 nav post T_UP=\"name=t1\"\n\
            5 nav post T_UP=\"name=t1\"\n\
            5.25 nav post T_UP=\"name=t2\" # T_UP=\"name=t2 # pwt=5\"\n\
            5.25 until\n",
            COURSE_AND_SPEED,
            "Behavior = BHV_Timer {\nname = b\n}\n\
            Behavior = BHV_Timer {\nname = tmpl\ntemplating = spawn\nupdates = T_UP\nduration = 0.5\n}\n\
            Behavior = BHV_StationKeep {\nname = keep\ntemplating = spawn\nupdates = K_UP\nstation_pt = 0,0\ninner_radius = 10\nouter_radius = 20\nouter_speed = 2\n}\n",
        ],
        "~%% iteration 0 0 DRIVE\n%% update tmpl refused\n\
        ~%% iteration 1 0.25 DRIVE\n%% update tmpl refused\n\
        ~%% iteration 2 0.5 DRIVE\n%% update tmpl refused\n\
        ~%% iteration 3 0.75 DRIVE\n%% update tmpl refused\n\
        ~%% iteration 4 1 DRIVE\n%% update tmpl refused\n\
        ~%% iteration 5 1.25 DRIVE\n%% update tmpl refused\n\
        ~%% iteration 6 1.5 DRIVE\n%% update tmpl refused\n\
        ~%% iteration 7 1.75 DRIVE\n%% update tmpl refused\n\
        ~%% iteration 8 2 DRIVE\n%% update tmpl refused\n\
        ~%% iteration 9 2.25 DRIVE\n%% update tmpl refused\n\
        ~%% iteration 10 2.5 DRIVE\n%% update tmpl refused\n\
        ~%% iteration 11 2.75 DRIVE\n%% update tmpl refused\n\
        ~%% iteration 12 3 DRIVE\n%% update tmpl refused\n\
        ~%% iteration 13 3.25 DRIVE\n%% update tmpl refused\n\
        ~%% iteration 14 3.5 DRIVE\n%% update keep refused\n\
        ~%% iteration 15 3.75 DRIVE\n%% update keep spawned x\n%% behavior b running\n%% behavior x active\n\
        ~%% iteration 16 4 DRIVE\n%% update tmpl refused\n\
        ~%% iteration 17 4.25 DRIVE\n%% update tmpl spawned t1\n%% behavior b running\n%% behavior x active\n%% behavior t1 running\n\
        ~%% iteration 18 4.5 DRIVE\n%% update tmpl refused\n\
        ~%% iteration 19 4.75 DRIVE\n%% update tmpl taken\n%% behavior b running\n%% behavior x active\n%% behavior t1 completed\n\
        ~%% iteration 20 5 DRIVE\n%% update tmpl spawned t1\n\
        ~%% iteration 21 5.25 DRIVE\n%% update tmpl spawned t2\n%% update tmpl taken\n\
        ~%% behavior t2 running\n%% ivp 1\n\
        ~%% end 67 58\n",
    ),
    // Made while the helm is parked, and perpetual.
    (
        &[
            "0 nav post T_UP=\"name=t1\"\n0.25 nav post MOOS_MANUAL_OVERRIDE=false\n1.25 until\n",
            COURSE_MISSION,
            "Behavior = BHV_Timer {\nname = tmpl\ntemplating = spawn\nupdates = T_UP\nduration = 0.5\nperpetual = true\n}\n",
        ],
        "~%% iteration 0 0 PARK\n%% update tmpl spawned t1\n%% behavior t1 idle\n%% none\n\
        ~%% iteration 1 0.25 DRIVE\n%% behavior t1 running\n\
        ~%% iteration 3 0.75 DRIVE\n%% behavior t1 completed\n\
        ~%% iteration 4 1 DRIVE\n%% behavior t1 running\n\
        ~%% end 15 12\n",
    ),
    // A contact's letters make one behaviour and change it. Refused ones change nothing, and when the contact is clear it is gone.
    (
        &[
            "0 nav post MOOS_MANUAL_OVERRIDE=false # NAV_X=0 # NAV_Y=0\n\
            0 nav post CONTACT_INFO=\"name=avd_b # contact=b # contact_x=20 # contact_y=0 # contact_speed=0\"\n\
            0.25 nav post CONTACT_INFO=\"name=avd_b # contact_heading=0\"\n\
            0.5 nav post CONTACT_INFO=\"name=avd_b # contact_x=30 # max_util_cpa_dist=10\"\n\
            0.75 nav post CONTACT_INFO=\"name=avd_b # contact_x=30 # piece_size=1\"\n\
            1 nav post CONTACT_INFO=\"name=avd_c # piece_size=1\"\n\
            1.25 nav post NAV_X=lost\n\
            1.5 nav post CONTACT_INFO=\"name=avd_b # resolved=true\"\n1.75 until\n",
            COURSE_AND_SPEED,
            "Behavior = BHV_AvoidCollision {\nname = tmpl\ntemplating = spawn\nupdates = CONTACT_INFO\n}\n",
        ],
        "~%% iteration 0 0 DRIVE\n%% update tmpl spawned avd_b\n%% behavior avd_b running\n%% none\n\
        ~%% iteration 1 0.25 DRIVE\n%% update tmpl taken\n%% behavior avd_b active\n%% ivp 1\n\
        ~%% decision 0 0 542900\n\
        ~%% iteration 2 0.5 DRIVE\n%% update tmpl refused\n%% behavior avd_b active\n%% ivp 1\n\
        ~%% decision 0 0 542900\n\
        ~%% iteration 3 0.75 DRIVE\n%% update tmpl refused\n%% behavior avd_b active\n%% ivp 1\n\
        ~%% decision 0 0 542900\n\
        ~%% iteration 4 1 DRIVE\n%% update tmpl refused\n%% behavior avd_b active\n%% ivp 1\n\
        ~%% iteration 5 1.25 DRIVE\n%% behavior avd_b running\n%% error avd_b NoPosition\n%% none\n\
        ~%% iteration 6 1.5 DRIVE\n%% update tmpl taken\n%% behavior avd_b completed\n%% none\n\
        ~%% iteration 7 1.75 DRIVE\n%% none\n%% end 25 27\n",
    ),
    // A heading and a speed are decided on, or neither counts.
    (
        &[
            DEPLOYING_SCRIPT,
            COURSE_AND_SPEED,
            "Behavior = BHV_ConstantHeading {\nname = h\nheading = 90\n}\nBehavior = BHV_ConstantSpeed {\nname = s\nspeed = 2\n}\n",
        ],
        "~%% entry 3 0 pHelmIvP post 2 4\n0 IVPHELM_STATE pHelmIvP \"DRIVE\"\n\
        0 DESIRED_HEADING pHelmIvP 90\n0 DESIRED_SPEED pHelmIvP 2\n\
        0 IVPHELM_ALLSTOP pHelmIvP \"clear\"\n%% iteration 0 0 DRIVE\n\
        %% behavior h active\n%% behavior s active\n%% ivp 1\n%% domain course:0:359:360\n\
        %% domain speed:0:4:41\n%% function 100\n\
        ~%% end\n%% decision 90 20 20000000\n%% cut \
        ~%% done\n%% entry 4 0.25 pHelmIvP fetch\n%% entry 5 0.25 pHelmIvP post 6 2\n\
        0.25 DESIRED_HEADING pHelmIvP 90\n0.25 DESIRED_SPEED pHelmIvP 2\n%% iteration 1 0.25 DRIVE\n\
        ~%% decision 90 20 20000000\n\
        ~%% done\n%% end 6 8\n",
    ),
    (
        &[
            DEPLOYING_SCRIPT,
            COURSE_AND_SPEED,
            "Behavior = BHV_ConstantHeading {\nname = h\npwt = 0\nheading = 90\n}\nBehavior = BHV_ConstantSpeed {\nname = s\npwt = 0\nspeed = 2\n}\n",
        ],
        "~0 DESIRED_SPEED pHelmIvP 0\n0 IVPHELM_ALLSTOP pHelmIvP \"NothingToDo\"\n%% iteration 0 0 DRIVE\n\
        %% behavior h running\n%% behavior s running\n%% none\n\
        %% entry 4 0.25 pHelmIvP fetch\n%% entry 5 0.25 pHelmIvP post 5 1\n\
        0.25 DESIRED_SPEED pHelmIvP 0\n%% iteration 1 0.25 DRIVE\n\
        %% behavior h running\n%% behavior s running\n%% none\n%% end 6 6\n",
    ),
    // An update is refused as a whole, and another one is taken, whose radius captures the point. Then the helm is parked.
    (
        &[
            "0 nav post MOOS_MANUAL_OVERRIDE=false # NAV_X=0 # NAV_Y=0\n\
            0.25 nav post UP=\"speed=2 # radius=abc\"\n0.5 nav post UP=\"speed=2 # radius=4\"\n\
            0.75 nav post MOOS_MANUAL_OVERRIDE=true\n1 nav post MOOS_MANUAL_OVERRIDE=false\n",
            COURSE_AND_SPEED,
            "Behavior = BHV_Waypoint {\nname = w\nupdates = UP\nspeed = 1\npoints = 0,4 : 100,0\n}\n",
        ],
        "~0 DESIRED_HEADING pHelmIvP 0\n0 DESIRED_SPEED pHelmIvP 1\n\
        ~0.25 DESIRED_HEADING pHelmIvP 0\n0.25 DESIRED_SPEED pHelmIvP 1\n\
        %% iteration 1 0.25 DRIVE\n%% update w refused\n%% behavior w active\n\
        ~0.5 DESIRED_HEADING pHelmIvP 90\n0.5 DESIRED_SPEED pHelmIvP 2\n\
        %% iteration 2 0.5 DRIVE\n%% update w taken\n%% behavior w active\n\
        ~0.75 pHelmIvP post 14 3\n0.75 IVPHELM_STATE pHelmIvP \"PARK\"\n0.75 DESIRED_SPEED pHelmIvP 0\n\
        0.75 IVPHELM_ALLSTOP pHelmIvP \"ManualOverride\"\n%% iteration 3 0.75 PARK\n\
        %% behavior w idle\n%% none\n\
        ~1 pHelmIvP post 18 4\n1 IVPHELM_STATE pHelmIvP \"DRIVE\"\n1 DESIRED_HEADING pHelmIvP 90\n\
        1 DESIRED_SPEED pHelmIvP 2\n1 IVPHELM_ALLSTOP pHelmIvP \"clear\"\n\
        ~%% end 16 22\n",
    ),
    (
        ALPHA,
        "~%% unused 13 lead\n%% unused 19 visual_hints\n\
        ~0 pHelmIvP post 4 3\n0 IVPHELM_STATE pHelmIvP \"PARK\"\n0 DESIRED_SPEED pHelmIvP 0\n\
        0 IVPHELM_ALLSTOP pHelmIvP \"ManualOverride\"\n%% iteration 0 0 PARK\n\
        ~0.25 pHelmIvP post 9 5\n0.25 IVPHELM_STATE pHelmIvP \"DRIVE\"\n\
        0.25 DESIRED_HEADING pHelmIvP 124\n0.25 DESIRED_SPEED pHelmIvP 2\n\
        0.25 DESIRED_DEPTH pHelmIvP 10\n0.25 IVPHELM_ALLSTOP pHelmIvP \"clear\"\n\
        %% iteration 1 0.25 DRIVE\n\
        ~%% decision 124 20 10 20000000\n\
        ~10 DESIRED_HEADING pHelmIvP 180\n\
        ~%% iteration 40 10 DRIVE\n\
        ~%% iteration 240 60 DRIVE\n\
        ~%% end 487 733\n",
    ),
];

// By 1, 2 and 16 workers.
const LINES: &[&[&str]] = &[
    STEER,
    &["play", "s.txt", "m.moos", "--workers", "2"],
    &["play", "s.txt", "m.moos", "--workers", "16"],
];

#[test]
fn behaviors_live_and_decide(rt: HostRuntime) {
    for (files, told) in PLAYED {
        all_write(&rt, rt.alloc(), LINES, *files, *told);
    }
}

const TWO_LETTERS: &str =
    "0 nav post MOOS_MANUAL_OVERRIDE=false # T_UP=\"name=x\" # T_UP=\"name=y\"\n0 until\n";

// Behind 62 timers. With the first one that it makes there are 64 behaviours, the template among them.
const TEMPLATE: &str =
    "Behavior = BHV_Timer {\nname = tmpl\ntemplating = spawn\nupdates = T_UP\n}\n";

const FILLED: &str =
    "~%% iteration 0 0 DRIVE\n%% update tmpl spawned x\n%% update tmpl refused\n%% behavior t0 running\n\
    ~%% behavior t61 running\n%% behavior x running\n%% none\n%% end 4 6\n";

#[test]
fn a_full_list_takes_no_other(rt: HostRuntime) {
    let timer = "Behavior = BHV_Timer {\nname = t";
    let mut behaviors = String::new(rt.alloc());
    append_each(&rt, rt.alloc(), &mut behaviors, timer, 62, "\n}\n");
    append(&rt, &mut behaviors, &[TEMPLATE]);
    let files = [TWO_LETTERS, COURSE_MISSION, behaviors.as_str()];
    all_write(&rt, rt.alloc(), LINES, &files, FILLED);
}

// As it is in a report, with the marks before its lines.
#[test]
fn a_decision_of_a_report_is_accepted(rt: HostRuntime) {
    let report = ran(&rt, rt.alloc(), STEER, ALPHA, "done");
    let (_, report) = parted(report.as_str(), "%% behavior const_depth active\n");
    let (lines, _) = parted(report, "%% entry ");
    writes(&rt, rt.alloc(), CHECK, &[lines], "done", "accepted\n");
}
