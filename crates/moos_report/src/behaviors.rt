// What an iteration tells of the behaviours: the updates, what each behaviour is, and the faults.
ghost use Rattle.std.specs.Prelude.{◌≡◌, [], ◌∷◌, flat_map, codes};
ghost use Rattle.std.specs.List.{concat};
ghost use Rattle.moos_io.specs.BufferedWriting.{Writes};
ghost use Rattle.helm_core.specs.declared.iteration.How.TheVariants.{Spawned};
ghost use Rattle.moos_report.specs.IterationLines.{behavior_state, behavior_text, error_text, fault_text, update_text};

use bhv_kinds::BhvFault;
use bhv_life::BhvState;
use helm_core::{BhvError, BhvNow, How, Update};
use moos_io::{BufferedWriter, Sink};

// The updates, in order.
pub(super) fn put_updates<K: Sink>(updates: &[Update], out: &mut BufferedWriter<'_, K>)
    ensures { Writes K.taken K.faults out.old out.new (flat_map update_text updates.now) }
{
    for update in updates {
        put_update(update, out);
    }
}

fn put_update<K: Sink>(update: &Update, out: &mut BufferedWriter<'_, K>)
    ensures { Writes K.taken K.faults out.old out.new (update_text update.now) }
{
    let name = update.name.bytes();
    match &update.how {
        How::Refused => put_words(b"%% update ", name, b"refused", out),
        How::Changed => put_words(b"%% update ", name, b"taken", out),
        How::Spawned(made) => put_spawned(name, made.bytes(), out),
    }
}

// The line of an update that made a behaviour.
fn put_spawned<K: Sink>(name: &[u8], made: &[u8], out: &mut BufferedWriter<'_, K>)
    ensures { Writes K.taken K.faults out.old out.new (update_text (record { name = name.now; how = Spawned made.now })) }
{
    out.write(&[b"%% update ", name, b" spawned ", made, b"\n"]);
}

// What each behaviour is, in order.
pub(super) fn put_states<K: Sink>(states: &[BhvNow], out: &mut BufferedWriter<'_, K>)
    ensures { Writes K.taken K.faults out.old out.new (flat_map behavior_text states.now) }
{
    for state in states {
        put_behavior(state, out);
    }
}

fn put_behavior<K: Sink>(behavior: &BhvNow, out: &mut BufferedWriter<'_, K>)
    ensures { Writes K.taken K.faults out.old out.new (behavior_text behavior.now) }
{
    put_words(
        b"%% behavior ",
        behavior.name.bytes(),
        behavior_state(behavior.state),
        out,
    );
}

fn behavior_state(state: BhvState) -> &'static [u8]
    ensures { result.now ≡ behavior_state state }
{
    match state {
        BhvState::Idle => b"idle",
        BhvState::Running => b"running",
        BhvState::Active => b"active",
        BhvState::Completed => b"completed",
    }
}

// The faults, in order.
pub(super) fn put_errors<K: Sink>(faults: &[BhvError], out: &mut BufferedWriter<'_, K>)
    ensures { Writes K.taken K.faults out.old out.new (flat_map error_text faults.now) }
{
    for error in faults {
        put_error(error, out);
    }
}

fn put_error<K: Sink>(error: &BhvError, out: &mut BufferedWriter<'_, K>)
    ensures { Writes K.taken K.faults out.old out.new (error_text error.now) }
{
    put_words(
        b"%% error ",
        error.name.bytes(),
        fault_text(error.fault),
        out,
    );
}

fn fault_text(fault: BhvFault) -> &'static [u8]
    ensures { result.now ≡ fault_text fault }
{
    match fault {
        BhvFault::NoPosition => b"NoPosition",
        BhvFault::OutsidePolygon => b"OutsidePolygon",
        BhvFault::TooDeep => b"TooDeep",
        BhvFault::TooLate => b"TooLate",
    }
}

// A line of two words behind how it begins.
fn put_words<'a, K: Sink>(
    head: &'a [u8],
    first: &'a [u8],
    second: &'a [u8],
    out: &mut BufferedWriter<'_, K>,
)
    ensures { Writes K.taken K.faults out.old out.new (concat (head.now ∷ first.now ∷ codes " " ∷ second.now ∷ codes "\n" ∷ [])) }
{
    out.write(&[head, first, b" ", second, b"\n"]);
}
