// Files that come up to a limit, which are good, and the same with more, which are refused.
use crate::files::{Kind, append, append_number, are_judged, joined};
use std::alloc::Global;
use std::process::Abort;

// Of which kind a file is, how it begins, how many times it has a piece, in which `%` stands for how many came before, and files that go on
// from there: one is good, and each of the others is refused at its line for its cause.
const LIMITS: &[(Kind, &str, u32, &str, &str)] = &[
    // Clients.
    (
        Kind::Script,
        "",
        64,
        "0 c% fetch\n",
        "0 good
65 Clients 0 c64 fetch
65 Clients 0 c64 jump
65 S4 0 64 fetch
65 S9 0 pHelmIvP fetch
67 Clients 0 c63 fetch|0 until|0 c00 fetch",
    ),
    // Registrations.
    (
        Kind::Script,
        "",
        256,
        "0 a register X%\n",
        "0 good
257 Registrations 0 a register X
257 Registrations 0 a register X 0 * more
257 S7 0 a register X -1
259 Registrations 0 b register X|0 a unregister X1|0 a register X1",
    ),
    // Variables.
    (
        Kind::Script,
        "",
        4096,
        "0 a post X%=1\n",
        "0 good
4097 Variables 0 a post X4096=1
4097 Variables 0 a post X0=1 # Y=1 # Z
4098 Variables 0 b post X4095=1|0 b post Y=2
4097 S5 0 a post Y=",
    ),
    // Pairs of a post.
    (
        Kind::Script,
        "0 a post",
        63,
        " X=% #",
        "0 good Y=\"#\"
1 Batch Y=\"#\"#Z=1
1 S5 Y=\"#\"#
1 S4 Y=\"#\"#9Z=1
2 S5 Y=\"#\"|0 a post A=1 # B",
    ),
    // Bytes of a text, without quotes and within them.
    (
        Kind::Script,
        "0 a post X=",
        4096,
        "x",
        "0 good
1 Text y
1 S5 y\x7f
1 Text  y # Y",
    ),
    (
        Kind::Script,
        "0 a post X=\"",
        4096,
        "x",
        "0 good \"
1 Text x\"",
    ),
    // Bytes of the name of a behaviour file.
    (
        Kind::Mission,
        "ProcessConfig = pHelmIvP {\nbehaviors = ",
        4096,
        "x",
        "0 good |domain = a:0:1:2|}
2 M1 x",
    ),
    // `initialize` lines.
    (
        Kind::Behaviors,
        "",
        256,
        "initialize X% = 1\n",
        "0 good
257 B9 initialize X = 1
257 B1 initialize X =",
    ),
    // Modes, which count when they end.
    (
        Kind::Behaviors,
        "",
        256,
        "set MODE = M% {\n}\n",
        "0 good
514 B9 set MODE = M {|}
514 B1 set MODE = M {|} 9",
    ),
    // Conditions of a mode.
    (
        Kind::Behaviors,
        "set MODE = A {\n",
        64,
        "X% = 1\n",
        "0 good }|
66 B9 X = 1
66 B5 X 1
66 B9 MODE = Y",
    ),
    // Behaviours, of which a template counts as any other.
    (
        Kind::Behaviors,
        "",
        64,
        "Behavior = BHV_Timer {\nname = t%\n}\n",
        "0 good
195 B9 Behavior = BHV_Timer {|name = x|}
197 B9 Behavior = BHV_Timer {|name = x|templating = spawn|updates = UP|}",
    ),
    // Conditions and flags of a behaviour: one more is refused if it is good, and for what is wrong with it if it isn't.
    (
        Kind::Behaviors,
        "Behavior = BHV_Timer {\nname = t\n",
        64,
        "condition = X = %\n",
        "0 good }
67 B9 condition = X = 1
67 B5 condition = X",
    ),
    (
        Kind::Behaviors,
        "Behavior = BHV_Timer {\nname = t\n",
        32,
        "endflag = X = %\n",
        "0 good }
35 B9 idleflag = X = 1
35 B6 runflag = X",
    ),
    // Places of a path.
    (
        Kind::Behaviors,
        "Behavior = BHV_Waypoint {\nname = w\nspeed = 1\npoints = ",
        63,
        "1,% : ",
        "0 good 0,0|}
4 B6 1,63 : 0,0|}",
    ),
    // Rules of a bridge.
    (
        Kind::Bridge,
        "",
        64,
        "share X * 0 -\n",
        "0 good
67 G6 // the end||share X * 0 -
65 G6 share
66 G6 |\"",
    ),
];

/// A beginning, and behind it so many times a piece, in which `%` stands for how many came before.
pub(crate) fn counted(
    rt: &impl Abort,
    alloc: Global,
    beginning: &str,
    times: u32,
    piece: &str,
) -> Vec<u8> {
    let mut text = joined(rt, alloc, &[beginning.as_bytes()]);
    let parts = piece.split_once('%');
    for number in 0..times {
        match parts {
            Some((before, behind)) => {
                append_number(rt, &mut text, before.as_bytes(), number, behind.as_bytes())
            }
            None => append(rt, &mut text, &[piece.as_bytes()]),
        }
    }
    text
}

#[test]
fn limits(rt: HostRuntime) {
    for (kind, beginning, times, piece, rows) in LIMITS {
        let text = counted(&rt, rt.alloc(), *beginning, *times, *piece);
        are_judged(&rt, rt.alloc(), *kind, &text, *rows);
    }
}

// Lines of a script that aren't blank.
const MORE_LINES: &str = "0 good
150003 Lines // the end||\"|
150001 Lines 0 until";

#[test]
fn most_lines(rt: HostRuntime) {
    let text = counted(&rt, rt.alloc(), "", 50_000, "\n0 a fetch\n0 until\n");
    are_judged(&rt, rt.alloc(), Kind::Script, &text, MORE_LINES);
}

const DEEPER: &str = "0 good
49 B9 set MODE = M16 {|MODE = M15|";

// Sixteen modes, each under the one before it; a seventeenth is too deep.
#[test]
fn deepest_mode(rt: HostRuntime) {
    let mut text = joined(&rt, rt.alloc(), &[b"set MODE = M0 {\n}\n"]);
    for number in 1..16u32 {
        append_number(&rt, &mut text, b"set MODE = M", number, b" {\nMODE = M");
        append_number(&rt, &mut text, b"", number - 1, b"\n}\n");
    }
    are_judged(&rt, rt.alloc(), Kind::Behaviors, &text, DEEPER);
}
