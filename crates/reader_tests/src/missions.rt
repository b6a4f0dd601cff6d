// Missions and refusals worked by hand.
use crate::files::{
    Kind, append, append_milli, append_number, append_unsigned, are_judged, bytes_of, is_shown,
};
use ivp_domain::Axis;
use mission_reader::{Mission, read_mission};
use moos_post::Milli;
use std::alloc::Global;
use std::process::Abort;

fn show_axis(rt: &impl Abort, text: &mut Vec<u8>, axis: &Axis) {
    append(rt, text, &[b" ", axis.name.bytes()]);
    let low = Milli::new(axis.low).expect(rt, "a number");
    let high = Milli::new(axis.high).expect(rt, "a number");
    append_milli(rt, text, b":", low);
    append_milli(rt, text, b":", high);
    append_number(rt, text, b":", axis.points, b"");
}

// The period and the last line, the behaviour file, and then each axis.
fn shown(rt: &impl Abort, alloc: Global, mission: &Mission) -> Vec<u8> {
    let mut text = Vec::new(alloc);
    append_unsigned(rt, &mut text, b"", mission.period);
    append_number(rt, &mut text, b" ", mission.lines, b" <");
    append(rt, &mut text, &[mission.behaviors.bytes(), b">"]);
    for axis in mission.domain.all() {
        show_axis(rt, &mut text, axis);
    }
    text
}

// The survey of a bay, and what a usual mission has around the helm's block.
const SURVEY: &str =
    "ServerHost = localhost\nServerPort = 9000\nCommunity = alpha\nProcessConfig = pHelmIvP\n{\n  AppTick = 4\n  CommsTick = 4\n  behaviors = alpha.bhv\n  domain = course:0:359:360\n  domain = speed:0:4:41\n  domain = depth:0:100:101\n}\n";

// Missions and what is shown of them.
const GOOD: &[(&str, &str)] = &[
    (
        SURVEY,
        "0.25 12 <alpha.bhv> course:0:359:360 speed:0:4:41 depth:0:100:101",
    ),
    // Other blocks, comments, carriage returns, tabs, letters of either case, a brace on the line, a quoted name.
    (
        "// a vehicle\r\nServerHost = \"a//b\" // here\r\n\r\nPROCESSCONFIG = ANTLER {\r\n  MSBetweenLaunches = 200\r\n  {\r\n  }}\r\n  ProcessConfig = pHelmIvP {\r\n}\r\nset { // unread\r\n}x\r\n  processconfig=phelmivp\t{ // the helm\r\n\tapptick = 2 // fast\r\n\tBehaviors = \"a // b.bhv\"\r\n\tdomain = X:0:1:2\r\n ProcessConfig = pOther\r\n\tTerm = a = {\r\n}\r\n",
        "0.5 18 <\"a // b.bhv\"> x:0:1:2",
    ),
    // The last rate counts, and it is 4 without one; `,` is `:`, and blanks around fields are dropped.
    (
        "ProcessConfig = pHelmIvP {\nAppTick = 1000\nAppTick = .001\nbehaviors = b\ndomain = Speed_2 , -1.5\t: +2.25,41.0\n}",
        "1000 6 <b> speed_2:-1.5:2.25:41",
    ),
    (
        "ProcessConfig = pHelmIvP\n\n // here\n\t{\ndomain=a:0:1:2\nbehaviors=a=b\ndomain=b:0:1:3\ndomain=c:0:1:4\ndomain=d:0:1:5\n}\n\n",
        "0.25 11 <a=b> a:0:1:2 b:0:1:3 c:0:1:4 d:0:1:5",
    ),
    (
        "ProcessConfig = pHelmIvP {\nAppTick = 1000.0009\nbehaviors = b\ndomain = a:0:1:2048\ndomain = b:0:1:2048\n}",
        "0.001 6 <b> a:0:1:2048 b:0:1:2048",
    ),
];

// What follows the line `ProcessConfig = pHelmIvP {`, and before it the line and the cause of the mission's refusal. That the file ends
// in a block (M2) is told before what is missing, and after what is wrong with its last line; a bad axis and a name that is there (M3)
// before too many points (M4); and at the end that a domain is missing (M5) before that a behaviour file is (M7).
const HELM: &str = "2 M1 AppTick
3 M1 AppTick = 4|{|}
2 M1 }x
2 M1 x = \"
3 M1 }|}
3 M1 }|{
3 M1 }|x \"
3 M1 }|ProcessConfig = {
3 M1 }|ProcessConfig =
3 M1 }|ProcessConfig = \"a {
5 M1 }|ProcessConfig = a||b = 1|{|}
4 M1 }|ProcessConfig = a|}
5 M1 }|ProcessConfig = a {|x|\"
3 M1 }|ProcessConfig = PHELMIVP {
3 M1 behaviors = a|BEHAVIORS = a
2 M1 behaviors =|}
2 M1 behaviors = a\x01b|}
1 M2
4 M2 domain = a:0:1:2|behaviors = a||
4 M2 domain = a:0:1:2|behaviors = a|// }
3 M2 }|ProcessConfig = a
4 M2 }|ProcessConfig = a {|}x
4 M2 }|ProcessConfig = a {|ProcessConfig = b {
2 M6 AppTick = 0
2 M3 domain = a:0:1
2 M3 domain = a:0:1:2:3
2 M3 domain = 9:0:1:2
2 M3 domain = abcdefghijklmnopq:0:1:2
2 M3 domain = a:x:1:2
2 M3 domain = a:0 0:1:2
2 M3 domain = a:0:1:2.5
2 M3 domain = a:0:1:1
2 M3 domain = a:1:1:2
3 M3 domain = a:0:1:2|domain = A:0:1:2
6 M3 domain = a:0:1:2|domain = b:0:1:2|domain = c:0:1:2|domain = d:0:1:2|domain = e:0:1:2
2 M4 domain = a:0:1:268435457
3 M4 domain = a:0:1:16384|domain = b:0:1:16385|}
2 M3 domain = a:1:1:268435457
3 M3 domain = a:0:1:16384|domain = A:0:1:16385|}
3 M5 }||
3 M5 behaviors = a|}
4 M7 domain = a:0:1:2|}|x
2 M6 AppTick = 0.0009
2 M6 AppTick = 1000.001
2 M6 AppTick = fast
2 M6 AppTick = -1";

// The same of whole missions. A file that ends before the brace that its block needs ends in that block (M2). In the last one the survey's
// axis of speeds is empty.
const WHOLE: &str = "1 M5
1 M2 ProcessConfig = pHelmIvP
2 M5 behaviors = b|domain = a:0:1:2|
3 M1 x = {|| {  |
10 M3 ServerHost = localhost|ServerPort = 9000|Community = alpha|ProcessConfig = pHelmIvP|{|  AppTick = 4|  CommsTick = 4|  behaviors = alpha.bhv|  domain = course:0:359:360|  domain = speed:4:4:1|  domain = depth:0:100:101|}|";

#[test]
fn missions(rt: HostRuntime) {
    let alloc = rt.alloc();
    for (text, wanted) in GOOD {
        let mission = read_mission(alloc, bytes_of(&rt, *text)).expect(&rt, *text);
        is_shown(&rt, &shown(&rt, alloc, &mission), *wanted, *text);
    }
    are_judged(
        &rt,
        alloc,
        Kind::Mission,
        b"ProcessConfig = pHelmIvP {\n",
        HELM,
    );
    are_judged(&rt, alloc, Kind::Mission, b"", WHOLE);
}
