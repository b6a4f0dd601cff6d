// Behaviour files and refusals worked by hand, and parameters that are set.
use crate::files::{
    Kind, append, append_number, append_unsigned, are_judged, check, is_shown, read_over_three,
};
use bhv_file::{BhvFile, Common, Decl, Shape, Spec, set_param};
use moos_post::Copied;
use std::alloc::Global;
use std::process::Abort;

fn show_mode(rt: &impl Abort, text: &mut Vec<u8>, decl: &Decl) {
    append(rt, text, &[b" | ", decl.name.bytes()]);
    if let Some(parent) = decl.parent {
        append_number(rt, text, b" under ", parent, b"");
    }
    append_number(rt, text, b" if ", decl.conds.len().min(999) as u32, b"");
    if let Some(other) = &decl.other {
        append(rt, text, &[b" else ", other.bytes()]);
    }
}

// A copy is shown, which is the same.
fn show_common(rt: &impl Abort, alloc: Global, text: &mut Vec<u8>, common: &Common) {
    let copied = common.copy(alloc).expect(rt, "memory");
    append(rt, text, &[b" * ", copied.name.bytes()]);
    if copied.template {
        append(rt, text, &[b" template"]);
    }
}

fn show_spec(rt: &impl Abort, alloc: Global, text: &mut Vec<u8>, spec: &Spec) {
    let copied = spec.copy(alloc).expect(rt, "memory");
    append_unsigned(rt, text, b" ", copied.weight as u64);
}

// The opening variables; each mode by its name, its parent's number, how many conditions it has, its OTHER name; each block by its
// name, whether it is a template, and its weight; and each unused parameter by its line and its name.
fn shown(rt: &impl Abort, alloc: Global, file: &BhvFile) -> Vec<u8> {
    let mut text = Vec::new(alloc);
    for pair in file.opening.all() {
        append(rt, &mut text, &[pair.var.bytes(), b" "]);
    }
    for decl in file.decls.all() {
        show_mode(rt, &mut text, decl);
    }
    for block in file.blocks.all() {
        show_common(rt, alloc, &mut text, &block.common);
        show_spec(rt, alloc, &mut text, &block.spec);
    }
    for unused in file.unused.all() {
        append_number(rt, &mut text, b" ? ", unused.line, b" ");
        append(rt, &mut text, &[unused.name.bytes()]);
    }
    text
}

// Behaviour files and what is shown of them.
const GOOD: &[(&str, &str)] = &[
    ("", ""),
    (
        "initialize DEPLOY = false\r\n// nothing\r\n\tINITIALIZE  RETURN:=1 2 // off\r\n",
        "DEPLOY RETURN ",
    ),
    (
        "set MODE = ACTIVE {\n DEPLOY = true\n} INACTIVE\nSet MODE = SURVEYING\n\n{ // here\n MODE = active\n SURVEY = true\n}\nset MODE = RETURNING{\n(MODE == ACTIVE)\nRETURN = true and not X > 3\n}\n",
        " | ACTIVE if 1 else INACTIVE | SURVEYING under 0 if 2 | RETURNING under 0 if 2",
    ),
    // A parent is meant by the end of its path; an OTHER name is no mode.
    (
        "set MODE = A {\n}\nset MODE = B {\nMODE = A\n} A\nset MODE = B {\n}\nset MODE = C {\nMODE = \"a:b\"\n}\n",
        " | A if 0 | B under 0 if 1 else A | B if 0 | C under 1 if 1",
    ),
    // The survey of a bay: two of its parameters are unused.
    (
        "initialize DEPLOY = false\ninitialize RETURN = false\n\nBehavior = BHV_Waypoint\n{\n  name = waypt_survey\n  pwt = 100\n  condition = RETURN = false\n  condition = DEPLOY = true\n  endflag = RETURN = true\n  updates = WPT_UPDATE\n  perpetual = true\n  lead = 8\n  speed = 2   // meters per second\n  capture_radius = 5.0\n  slip_radius = 15.0\n  points = 60,-40 : 60,-160 : 150,-160 : 180,-100 : 150,-40\n  repeat = 1\n  visual_hints = nextpt_color=red\n}\n\nBehavior = BHV_Waypoint\n{\n  name = waypt_return\n  pwt = 100\n  condition = RETURN = true\n  condition = DEPLOY = true\n  endflag = RETURN = false\n  endflag = DEPLOY = false\n  speed = 2.0\n  capture_radius = 2.0\n  slip_radius = 8.0\n  points = 0,-20\n}\n\nBehavior = BHV_ConstantDepth\n{\n  name = const_depth\n  pwt = 100\n  condition = DEPLOY = true\n  duration = no-time-limit\n  depth = 10\n}\n",
        "DEPLOY RETURN  * waypt_survey 100 * waypt_return 100 * const_depth 100 ? 13 lead ? 19 visual_hints",
    ),
    // Of the words of a block the last one says whether it is a template.
    (
        "Behavior = BHV_Timer {\nname = t\ntemplating = spawn\nupdates = UP\n}\nBehavior = BHV_Timer {\nname = u\ntemplating = spawn\ntemplating = disallowed\n}",
        " * t template 100 * u 100",
    ),
    // To keep clear of a contact: each parameter at an end of its range, and 2,744 pieces.
    (
        "Behavior = BHV_AvoidCollision {\nname = a\ncontact = abcdefghijklmnopqrstuvwxyz012345\ncontact_x = -1000000\ncontact_y = 1000000\ncontact_speed = 100\ncontact_heading = 360\nmin_util_cpa_dist = 0\nmax_util_cpa_dist = 10000\nresolved = true\npiece_size = 3\n}",
        " * a 100",
    ),
];

// Files, mostly of modes, and before each the line and the cause of its refusal. A block that isn't closed yet is no parent (B7), nor is
// an OTHER name, a number or an empty part.
const MODES: &str = "1 B1 x
1 B1 {
1 B1 }
1 B1 initialize X = \"
1 B1 initialize X
1 B1 initialize 9X = 1
1 B1 initialize X =
1 B1 set MODE
1 B1 set mode = A {
1 B1 set X = A {
1 B1 set MODE = A:B {
1 B1 set MODE = A { x }
2 B1 set MODE = A|X = 1
2 B1 set MODE = A|}
2 B1 set MODE = A {|X = \"|}
2 B1 set MODE = A {|}}
2 B1 set MODE = A {|} B C
1 B1 Behavior =
1 B1 Behavior = {|}
1 B2 set MODE = A
1 B2 Behavior = BHV_Timer|
3 B2 set MODE = A {|X = 1||
2 B3 |behavior = BHV_Way|{
1 B3 Behavior = BHV Waypoint
2 B5 set MODE = A {|X 1|}
2 B5 set MODE = A {|X = 1 and MODE = A|}
2 B5 set MODE = A {|MODE != A|}
5 B5 set MODE = A {|}|set MODE = B {|MODE = A|MODE = A
2 B7 set MODE = A {|MODE = A|}
4 B7 set MODE = A {|} B|set MODE = C {|MODE = B|}
2 B7 set MODE = A {|MODE = 3|}
4 B7 set MODE = A {|}|set MODE = B {|MODE = \"\"|}
6 B8 set MODE = A {|}|set MODE = a {|}|set MODE = B {|MODE = A|}";

const TIMER: &[u8] = b"Behavior = BHV_Timer {\nname = t\n";

// Blocks behind that of a timer: a name that is given already, no name, no points, and an outer radius that isn't above the inner one;
// and how a timer goes on: as a template without a variable for its letters, with a word that is none, and as a template whose name is
// given again.
const BLOCKS: &str = "5 B4 }|Behavior = BHV_Timer {|name = t
5 B11 }|Behavior = BHV_Timer {|}
7 B11 }|Behavior = BHV_Waypoint {|name = w|speed = 1|}
8 B6 }|Behavior = BHV_StationKeep {|name = s|point = 0,0|outer_radius = 4|}
4 B11 templating = spawn|}
3 B6 templating = Spawn
7 B4 templating = spawn|updates = UP|}|Behavior = BHV_Timer {|name = t";

const AVOID: &[u8] = b"Behavior = BHV_AvoidCollision {\nname = a\n";

// Distances that are equal, pieces of which the domain of 41 by 41 by 41 places has 9,261, a contact that is no name, and values that
// are out of range.
const AVOIDS: &str = "4 B6 max_util_cpa_dist = 10|}
4 B6 min_util_cpa_dist = 75|}
4 B6 piece_size = 2|}
3 B6 piece_size = 0
3 B6 contact = abcdefghijklmnopqrstuvwxyz0123456
3 B6 contact = 1b
3 B6 contact_x = -1000000.001
3 B6 contact_speed = 100.001
3 B6 contact_heading = 360.001
3 B6 max_util_cpa_dist = 10000.001
3 B6 resolved = yes";

// A behaviour that needs an axis which the domain lacks is refused at the end of its block.
const NO_AXIS: &str = "4 B10 Behavior = BHV_ConstantSpeed {|name = s|speed = 1|}";

#[test]
fn behavior_files(rt: HostRuntime) {
    let alloc = rt.alloc();
    for (text, wanted) in GOOD {
        let file = read_over_three(&rt, alloc, text.as_bytes()).expect(&rt, *text);
        is_shown(&rt, &shown(&rt, alloc, &file), *wanted, *text);
    }
    are_judged(&rt, alloc, Kind::Behaviors, b"", MODES);
    are_judged(&rt, alloc, Kind::Behaviors, TIMER, BLOCKS);
    are_judged(&rt, alloc, Kind::Behaviors, AVOID, AVOIDS);
    are_judged(&rt, alloc, Kind::OnCourse, b"", NO_AXIS);
}

// Parameters, their values, and the weight behind each if it is set.
const PARAMETERS: &[(&str, &str, Option<u32>)] = &[
    ("pwt", "7.9", Some(7_900)),
    ("Max_Depth", "4", Some(100_000)),
    ("max_depth", "deep", None),
    ("speed", "1", None),
];

fn set_once(rt: &impl Abort, alloc: Global, name: &str, value: &str) -> Option<u32> {
    let mut spec = Spec {
        weight: 100_000,
        shape: Shape::MaxDepth {
            max_depth: 0,
            basewidth: 0,
        },
    };
    // What is said of a value isn't needed here.
    let good = set_param(alloc, &mut spec, name.as_bytes(), value.as_bytes()).expect(rt, "memory");
    good.then_some(spec.weight)
}

#[test]
fn parameters_are_set(rt: HostRuntime) {
    for (name, value, weight) in PARAMETERS {
        let found = set_once(&rt, rt.alloc(), *name, *value);
        check(&rt, found == *weight, *value);
    }
}
