// What helms begin with and what their iterations tell, as text.
use crate::made::holds;
use bhv_life::BhvState;
use helm_core::{BhvNow, Helm, Iteration};
use moos_post::{Batch, Pair, Regs, Value};
use moos_text::{print_milli, print_unsigned};
use std::alloc::Global;
use std::process::Abort;

/// Adds a piece to a text.
pub(crate) fn put(rt: &impl Abort, text: &mut Vec<u8>, piece: &[u8]) {
    text.extend_from_slice(piece).expect(rt, "memory");
}

/// Adds some pieces.
pub(crate) fn append(rt: &impl Abort, text: &mut Vec<u8>, pieces: &[&[u8]]) {
    for piece in pieces {
        put(rt, text, *piece);
    }
}

fn show_value(rt: &impl Abort, text: &mut Vec<u8>, value: &Value) {
    match value {
        Value::Num(number) => put(rt, text, print_milli(*number).bytes()),
        Value::Text(said) => append(rt, text, &[b"<", said.bytes(), b">"]),
    }
}

fn show_posts(rt: &impl Abort, text: &mut Vec<u8>, posts: &[Pair]) {
    for pair in posts {
        append(rt, text, &[b" ", pair.var.bytes(), b"="]);
        show_value(rt, text, &pair.value);
    }
}

fn state_word(state: BhvState) -> &'static [u8] {
    match state {
        BhvState::Idle => b" Idle",
        BhvState::Running => b" Running",
        BhvState::Active => b" Active",
        BhvState::Completed => b" Completed",
    }
}

fn parked_word(parked: bool) -> &'static [u8] {
    if parked { b" PARK " } else { b" DRIVE " }
}

fn show_states(rt: &impl Abort, text: &mut Vec<u8>, states: &[BhvNow]) {
    for state in states {
        put(rt, text, state_word(state.state));
    }
}

// The stamp in seconds, whether it is parked, the mode, the states, and the posts.
fn show(rt: &impl Abort, text: &mut Vec<u8>, iteration: &Iteration) {
    put(rt, text, print_unsigned(iteration.stamp).bytes());
    put(rt, text, parked_word(iteration.parked));
    put(rt, text, iteration.mode.bytes());
    put(rt, text, b":");
    show_states(rt, text, iteration.states.all());
    show_posts(rt, text, iteration.posts.all());
}

/// What an iteration tells is this.
pub(crate) fn is_shown(rt: &impl Abort, alloc: Global, iteration: &Iteration, answer: &str) {
    let mut text = Vec::new(alloc);
    show(rt, &mut text, iteration);
    holds(rt, answer, text.as_slice() == answer.as_bytes());
}

// What the helm registers for.
fn show_wants(rt: &impl Abort, text: &mut Vec<u8>, wants: &Regs) {
    for reg in wants.all() {
        append(rt, text, &[reg.var.bytes(), b" ", reg.source.bytes(), b" "]);
        append(rt, text, &[print_unsigned(reg.interval).bytes(), b", "]);
    }
}

// The variables that it posts at first.
fn show_opening(rt: &impl Abort, text: &mut Vec<u8>, opening: &Batch) {
    for pair in opening.all() {
        append(rt, text, &[pair.var.bytes(), b" "]);
    }
}

fn begins(rt: &impl Abort, alloc: Global, text: &mut Vec<u8>, helm: &Helm) {
    show_wants(rt, text, &helm.wants(alloc).expect(rt, "memory"));
    show_opening(rt, text, &helm.opening(alloc).expect(rt, "memory"));
}

/// What a helm registers for and posts at first is this.
pub(crate) fn is_begun(rt: &impl Abort, alloc: Global, helm: &Helm, wanted: &str) {
    let mut text = Vec::new(alloc);
    begins(rt, alloc, &mut text, helm);
    holds(rt, wanted, text.as_slice() == wanted.as_bytes());
}
