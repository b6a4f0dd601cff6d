// Runs of two scripts with a bridge between their communities: what each writes, worked by hand, and how the others end.
use crate::runs::{Row, rows_hold};

// Two scripts with a bridge file.
const SHARE: &[&str] = &["share", "s.txt", "m.moos", "alpha.bhv"];

const SHARE_IN_A_RACE: &[&str] = &["share", "s.txt", "m.moos", "alpha.bhv", "--race"];

const FIRST: &str = "0 a post X=1\n1 a post NAV_Y=2\n";

const SECOND: &str = "0 b register *\n2 b fetch\n";

const BRIDGE: &str = "share X * 0 A_\nshare * * 0 -\n";

// A script without clients beside one with them, and a bridge without rules, whose posts are empty.
const NOTHING: &[&str] = &["3 until\n", "1 b post Y=1\n", "// none\n"];

const SHARED: &[Row] = &[
    (
        SHARE,
        &[FIRST, SECOND, BRIDGE],
        "done",
        "%% moosdb play 1\n%% client 0 a\n%% client 1 pShare\n\
        %% entry 0 0 pShare register\n%% reg X * 0\n%% reg * * 0\n%% entry 1 0 a post 0 1\n0 X a 1\n\
        %% entry 2 0 pShare fetch\n%% mail 0 0 X a 1\n%% entry 3 1 a post 1 1\n1 NAV_Y a 2\n\
        %% entry 4 1 pShare fetch\n%% mail 1 1 NAV_Y a 2\n%% entry 5 2 pShare fetch\n%% end 6 2\n\
        %% moosdb play 1\n%% client 0 b\n%% client 1 pShare\n%% entry 0 0 b register\n%% reg * * 0\n\
        %% entry 1 0 pShare post 0 1\n0 A_X pShare 1\n%% entry 2 1 pShare post 1 1\n1 NAV_Y pShare 2\n\
        %% entry 3 2 b fetch\n%% mail 0 0 A_X pShare 1\n%% mail 1 1 NAV_Y pShare 2\n\
        %% entry 4 2 pShare post 2 0\n%% end 5 2\n",
    ),
    // In a race either history has as many entries and posts, and the same is carried in the same order, though not at the same
    // stamps.
    (
        SHARE_IN_A_RACE,
        &[FIRST, SECOND, BRIDGE],
        "done",
        "~%% end 6 2\n%% moosdb play 1\n%% client 0 b\n~ A_X pShare 1\n~ NAV_Y pShare 2\n~%% end 5 2\n",
    ),
    (
        SHARE,
        NOTHING,
        "done",
        "%% moosdb play 1\n%% client 0 pShare\n%% entry 0 0 pShare register\n%% entry 1 1 pShare fetch\n%% end 2 0\n\
        %% moosdb play 1\n%% client 0 b\n%% client 1 pShare\n%% entry 0 1 b post 0 1\n1 Y b 1\n%% entry 1 1 pShare post 1 0\n%% end 2 1\n",
    ),
    (
        SHARE_IN_A_RACE,
        NOTHING,
        "done",
        "%% moosdb play 1\n%% client 0 pShare\n%% entry 0 0 pShare register\n%% entry 1 3 pShare fetch\n%% end 2 0\n\
        %% moosdb play 1\n%% client 0 b\n%% client 1 pShare\n%% entry 0 1 b post 0 1\n1 Y b 1\n%% entry 1 3 pShare post 1 0\n%% end 2 1\n",
    ),
    // If all files are empty there is no stamp, and a race has its last carrying alone.
    (
        &["share", "s.txt", "s.txt", "s.txt"],
        &[""],
        "done",
        "%% moosdb play 1\n%% client 0 pShare\n%% entry 0 0 pShare register\n%% end 1 0\n\
        %% moosdb play 1\n%% client 0 pShare\n%% end 0 0\n",
    ),
    (
        &["share", "s.txt", "s.txt", "s.txt", "--race"],
        &[""],
        "done",
        "%% moosdb play 1\n%% client 0 pShare\n%% entry 0 0 pShare register\n%% entry 1 0 pShare fetch\n%% end 2 0\n\
        %% moosdb play 1\n%% client 0 pShare\n%% entry 0 0 pShare post 0 0\n%% end 1 0\n",
    ),
];

#[test]
fn posts_are_carried(rt: HostRuntime) {
    rows_hold(&rt, rt.alloc(), SHARED);
}

const LONG: &str = "0 a post X23456789A123456789B123456789C123456789D123456789E123456789F123Z=1\n";

// Files that are refused or absent, each before the next one is loaded.
const REFUSED: &[Row] = &[
    (
        SHARE,
        &["0 a fetch\n0 pShare fetch\n"],
        "script line 2: S10 ShareName",
        "",
    ),
    (
        SHARE,
        &["0 pShare fetch\n0 a jump\n"],
        "script line 2: S3 UnknownOp",
        "",
    ),
    (
        SHARE,
        &[FIRST, "\n0 pShare post X=1\n"],
        "second line 2: S10 ShareName",
        "",
    ),
    (
        SHARE,
        &[FIRST, "0 pHelmIvP fetch\n"],
        "second line 1: S9 HelmName",
        "",
    ),
    (
        SHARE,
        &[FIRST, SECOND, "share X * 0 9A\n"],
        "bridge line 1: G5 BadPrefix",
        "",
    ),
    (
        SHARE,
        &[FIRST, SECOND, "share X * 0\n"],
        "bridge line 1: G1 BadLine",
        "",
    ),
    (
        SHARE,
        &[LONG, SECOND, "share X * 0 -\nshare X* * 0 A\n"],
        "bridge line 2: G4 NameTooLong",
        "",
    ),
    (
        SHARE,
        &[LONG, SECOND, "share X* * 0 A\nshare X * a -\n"],
        "bridge line 2: G3 BadInterval",
        "",
    ),
    (
        &["share", "absent.txt", "m.moos", "alpha.bhv"],
        &["", SECOND, BRIDGE],
        "load fault",
        "",
    ),
    (
        &["share", "s.txt", "absent.txt", "alpha.bhv"],
        &[FIRST, "", BRIDGE],
        "load fault",
        "",
    ),
    (SHARE, &[FIRST, SECOND], "load fault", ""),
];

#[test]
fn a_file_is_refused(rt: HostRuntime) {
    rows_hold(&rt, rt.alloc(), REFUSED);
}
