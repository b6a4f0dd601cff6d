// Numbers of a line, as they go through a writer.
ghost use Rattle.std.specs.Prelude.{◌<◌, flat_map};
ghost use Rattle.moos_io.specs.BufferedWriting.{Writes};
ghost use Rattle.ivp_cert.specs.Texts.{integer_word, number_word};

use moos_io::{BufferedWriter, Sink};

// A number behind a blank.
fn put_number<K: Sink>(number: u32, out: &mut BufferedWriter<'_, K>)
    ensures { Writes K.taken K.faults out.old out.new (number_word number) }
{
    let mut digits = itoa::Buffer::new();
    out.write(&[b" ", digits.format(number).as_bytes()]);
}

/// Numbers, each behind a blank.
pub fn put_numbers<K: Sink>(numbers: &[u32], out: &mut BufferedWriter<'_, K>)
    ensures { Writes K.taken K.faults out.old out.new (flat_map number_word numbers.now) }
{
    for &number in numbers {
        put_number(number, out);
    }
}

/// A number behind a blank, which may be below zero.
pub fn put_integer<K: Sink>(number: &i64, out: &mut BufferedWriter<'_, K>)
    ensures { Writes K.taken K.faults out.old out.new (integer_word number.now) }
{
    let mut digits = itoa::Buffer::new();
    out.write(&[b" ", digits.format(*number).as_bytes()]);
}

/// Numbers that may be below zero, each behind a blank.
pub fn put_integers<K: Sink>(numbers: &[i64], out: &mut BufferedWriter<'_, K>)
    ensures { Writes K.taken K.faults out.old out.new (flat_map integer_word numbers.now) }
{
    for number in numbers {
        put_integer(number, out);
    }
}
