// A value that tells its history.

/// A value that stands for a base, which no event changes, and for a history of events, each of which names a number.
pub trait Journaled {
    type Event;

    type Base;

    ghost use Rattle.std.specs.Prelude.{List, ℕ};

    // What no event changes.
    ghost base: { Self → Self.Base };
    // The events so far, in order.
    ghost history: { Self → List Self.Event };
    // The number that an event names.
    ghost number: { Self.Event → ℕ };
}
