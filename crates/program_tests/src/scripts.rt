// Runs of whole scripts: what each prints, worked by hand.
ghost use Rattle.std.specs.Prelude.{None};
ghost use Rattle.moos_files.specs.Answers.{unsure_faring};

use crate::files::{FIRST_REPORT, FIRST_SCRIPT};
use crate::runs::{PLAY, Row, has_ended, rows_hold, run_into};
use moos_io::{Failed, Gate, Sink};
use std::sync::atomic::{AtomicBool, AtomicUsize, Ordering};

// Scripts and their reports.
const PLAYED: &[Row] = &[
    (PLAY, &[""], "done", "%% moosdb play 1\n%% end 0 0\n"),
    (PLAY, &[FIRST_SCRIPT], "done", FIRST_REPORT),
    // Patterns, for the variable and for the source.
    (
        PLAY,
        &[
            "0 log register NAV_* 0 p*\n0.5 two register NAV_?\n\
        1 p post NAV_=1 # NAV_X=2 # NAV_XY=3\n2 q post NAV_X=4\n3 log fetch\n4 two fetch\n",
        ],
        "done",
        "%% moosdb play 1\n%% client 0 log\n%% client 1 two\n%% client 2 p\n%% client 3 q\n\
        %% entry 0 0 log register\n%% reg NAV_* p* 0\n%% entry 1 0.5 two register\n%% reg NAV_? * 0\n\
        %% entry 2 1 p post 0 3\n1 NAV_ p 1\n1 NAV_X p 2\n1 NAV_XY p 3\n%% entry 3 2 q post 3 1\n2 NAV_X q 4\n\
        %% entry 4 3 log fetch\n%% mail 0 1 NAV_ p 1\n%% mail 1 1 NAV_X p 2\n%% mail 2 1 NAV_XY p 3\n\
        %% entry 5 4 two fetch\n%% mail 1 1 NAV_X p 2\n%% mail 3 2 NAV_X q 4\n%% end 6 4\n",
    ),
    // An interval.
    (
        PLAY,
        &[
            "0 a register X 0.5\n0 a post X=1\n0.499 a post X=2\n0.5 a post X=3\n\
        0.999 a post X=4\n1 a post X=5\n2 a fetch\n",
        ],
        "done",
        "%% moosdb play 1\n%% client 0 a\n%% entry 0 0 a register\n%% reg X * 0.5\n\
        %% entry 1 0 a post 0 1\n0 X a 1\n%% entry 2 0.499 a post 1 1\n0.499 X a 2\n\
        %% entry 3 0.5 a post 2 1\n0.5 X a 3\n%% entry 4 0.999 a post 3 1\n0.999 X a 4\n\
        %% entry 5 1 a post 4 1\n1 X a 5\n%% entry 6 2 a fetch\n\
        %% mail 0 0 X a 1\n%% mail 2 0.5 X a 3\n%% mail 4 1 X a 5\n%% end 7 5\n",
    ),
    // Who registers late catches up.
    (
        PLAY,
        &["0 a post A=1\n1 a post B=2\n2 a post A=3\n3 b register A\n4 b register *\n5 b fetch\n"],
        "done",
        "%% moosdb play 1\n%% client 0 a\n%% client 1 b\n%% entry 0 0 a post 0 1\n0 A a 1\n\
        %% entry 1 1 a post 1 1\n1 B a 2\n%% entry 2 2 a post 2 1\n2 A a 3\n\
        %% entry 3 3 b register\n%% reg A * 0\n%% entry 4 4 b register\n%% reg * * 0\n\
        %% entry 5 5 b fetch\n%% mail 2 2 A a 3\n%% mail 1 1 B a 2\n%% end 6 3\n",
    ),
    // Who withdraws and registers anew begins anew.
    (
        PLAY,
        &[
            "0 b register X 10\n1 a post X=1\n2 b unregister X\n3 b register X 10\n4 a post X=2\n5 b fetch\n",
        ],
        "done",
        "%% moosdb play 1\n%% client 0 b\n%% client 1 a\n%% entry 0 0 b register\n%% reg X * 10\n\
        %% entry 1 1 a post 0 1\n1 X a 1\n%% entry 2 2 b unregister\n%% reg X *\n\
        %% entry 3 3 b register\n%% reg X * 10\n%% entry 4 4 a post 1 1\n4 X a 2\n\
        %% entry 5 5 b fetch\n%% mail 0 1 X a 1\n%% mail 1 4 X a 2\n%% end 6 2\n",
    ),
    // Texts, and a line that only carries its stamp.
    (
        PLAY,
        &[
            "0 a register T\r\n1 a post T = a\"b\" \\ # U:=7 # V=\"x # // y\" // none\n2 a fetch\n3 until\n",
        ],
        "done",
        "%% moosdb play 1\n%% client 0 a\n%% entry 0 0 a register\n%% reg T * 0\n\
        %% entry 1 1 a post 0 3\n1 T a \"a\\\"b\\\" \\\\\"\n1 U a \"7\"\n1 V a \"x # // y\"\n\
        %% entry 2 2 a fetch\n%% mail 0 1 T a \"a\\\"b\\\" \\\\\"\n%% end 3 3\n",
    ),
];

#[test]
fn good_scripts_are_played(rt: HostRuntime) {
    rows_hold(&rt, rt.alloc(), PLAYED);
}

// A sink that lets others see how many bytes it has taken.
#[derive(Drop)]
struct Counter<'a> {
    taken: &'a AtomicUsize,
}

impl<'a> Sink for Counter<'a> {
    ghost taken = { λ counter. None };

    ghost faults = { λ counter. unsure_faring 0 };

    fn put(&mut self, bytes: &[u8]) -> Result<usize, Failed> {
        self.taken.fetch_add(bytes.len(), Ordering::SeqCst);
        Ok(bytes.len())
    }
}

// Where the entries of the first report begin.
const ENTRIES: [usize; 4] = [32, 70, 104, 145];

// Sees at each call whether just what is before its entry was taken.
#[derive(Drop)]
struct Between<'a> {
    taken: &'a AtomicUsize,
    missed: AtomicBool,
}

impl<'a> Gate for Between<'a> {
    fn at_node(&self, _worker: u32, _nth: u64) {}

    fn at_call(&self, _client: u32, nth: u64) {
        let taken = self.taken.load(Ordering::SeqCst);
        if ENTRIES.get(nth as usize) != Some(&taken) {
            self.missed.store(true, Ordering::SeqCst);
        }
    }
}

#[test]
fn written_between(rt: HostRuntime) {
    let taken = AtomicUsize::new(0);
    let gate = Between {
        taken: &taken,
        missed: AtomicBool::new(false),
    };
    let mut out = Counter { taken: &taken };
    let files = [FIRST_SCRIPT];
    let status = run_into(&rt, rt.alloc(), PLAY, &files, None, &mut out, &gate);
    assert!(rt; has_ended(&rt, rt.alloc(), status, "done"));
    assert!(rt; !gate.missed.load(Ordering::SeqCst));
    assert!(rt; taken.load(Ordering::SeqCst) == FIRST_REPORT.len());
}
