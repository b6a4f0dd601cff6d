// The text of a decision, kept as it was printed: what an iteration decides as the one before did isn't formatted anew.
ghost use Rattle.std.specs.Prelude.{◌≡◌, IfSome, IsTrue, codes};
ghost use Rattle.moos_io.specs.BufferedWriting.{Writes};
ghost use Rattle.ivp_cert.specs.Texts.{decision_lines};

use crate::same::same_decision;
use ivp_cert::{Decision, print_decision, put_decision};
use moos_io::{BufferedWriter, MemSink, Sink};
use moos_post::Copied;
use std::alloc::Global;
use std::marker::Model;

// A decision of more lines isn't kept, so that no long certificate stands in memory twice; one of a mission has some tens.
const LINES: usize = 256;

// For how many bytes of a text memory is taken; one of a mission has some thousands. A decision with a longer one isn't kept.
const ROOM: usize = 65_536;

// A decision and its text, each line behind `%% `. Contracts see the decision.
#[derive(Drop)]
struct DecisionText {
    decision: Decision,
    text: MemSink,
}

impl Model for DecisionText {
    ghost use Rattle.std.specs.Prelude.{◌≡◌, codes};
    ghost use Rattle.ivp_cert.specs.declared.claim.Decision.{Decision};
    ghost use Rattle.ivp_cert.specs.Texts.{decision_lines};

    ghost Value = { Decision };

    ghost view = { λ printed. printed.decision };

    ghost invariant = { λ printed. printed.text.taken ≡ decision_lines (codes "%% ") printed.decision };
}

impl DecisionText {
    // A copy of the decision with its text, if it isn't too long, and memory may be taken and there is enough.
    fn make(alloc: Option<Global>, decision: &Decision) -> Option<DecisionText>
        ensures { IfSome result (λ made. made ≡ decision.now) }
    {
        let alloc = alloc?;
        if decision.cert.len() > LINES {
            return None;
        }
        let mut text = MemSink::make(alloc, ROOM, ROOM).ok()?;
        print_decision(decision, b"%% ", &mut text).ok()?;
        let decision = decision.copy(alloc).ok()?;
        Some(DecisionText { decision, text })
    }

    // Whether it is of this decision.
    fn is_of(&self, decision: &Decision) -> bool
        ensures { IsTrue result → self.now ≡ decision.now }
    {
        same_decision(&self.decision, decision)
    }

    fn bytes(&self) -> &[u8]
        ensures { result.now ≡ decision_lines (codes "%% ") self.now }
    {
        self.text.bytes()
    }
}

// The decision that was printed last, with its text, if that is kept. It only saves the formatting: contracts see nothing of it.
#[derive(Drop)]
pub(crate) struct LastText {
    // Where memory may be taken.
    alloc: Option<Global>,
    printed: Option<DecisionText>,
}

impl LastText {
    // None, and none is ever kept.
    pub(crate) fn none() -> LastText {
        LastText {
            alloc: None,
            printed: None,
        }
    }

    // None yet.
    pub(crate) fn new(alloc: Global) -> LastText {
        LastText {
            alloc: Some(alloc),
            printed: None,
        }
    }

    // Writes the decision, each line behind `%% `: the kept text if it is of the same decision, or else a new one, which is kept
    // from now on if there is memory.
    pub(crate) fn put<K: Sink>(&mut self, decision: &Decision, out: &mut BufferedWriter<'_, K>)
        ensures { Writes K.taken K.faults out.old out.new (decision_lines (codes "%% ") decision.now) }
    {
        if let Some(last) = &self.printed {
            if last.is_of(decision) {
                out.write(&[last.bytes()]);
                return;
            }
        }
        self.printed = DecisionText::make(self.alloc, decision);
        match &self.printed {
            Some(last) => out.write(&[last.bytes()]),
            None => put_decision(b"%% ", decision, out),
        }
    }
}
