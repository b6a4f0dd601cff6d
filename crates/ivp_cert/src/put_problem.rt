// The lines of a problem.
ghost use Rattle.std.specs.Prelude.{◌≡◌, ◌<◌, ◌≤◌, ◌*◌, [], ◌∷◌, flat_map, length, codes, IsTrue};
ghost use Rattle.std.specs.List.{concat};
ghost use Rattle.moos_io.specs.BufferedWriting.{Writes};
ghost use Rattle.moos_post.specs.Words.{IsMilli};
ghost use Rattle.moos_text.specs.Numbers.{unsigned_text};
ghost use Rattle.ivp_domain.specs.Axes.{is_good_axis};
ghost use Rattle.ivp_cert.specs.Texts.{axis_text, ends_of, piece_text, problem_text, term_text};

use crate::put::{put_integer, put_integers, put_numbers};
use ivp_domain::{Axis, BoxN, Domain};
use ivp_func::{Func, Piece};
use ivp_problem::Problem;
use moos_io::{BufferedWriter, Sink};
use moos_post::Milli;
use moos_text::{print_milli, print_unsigned};

/// The lines of a problem.
pub fn put_problem<K: Sink>(prefix: &[u8], problem: &Problem, out: &mut BufferedWriter<'_, K>)
    ensures { Writes K.taken K.faults out.old out.new (problem_text prefix.now problem.now) }
{
    out.write(&[prefix, b"ivp 1\n"]);
    put_axes(prefix, &problem.domain(), out);
    put_terms(prefix, problem, out);
    out.write(&[prefix, b"end\n"]);
}

fn put_axes<K: Sink>(prefix: &[u8], domain: &Domain, out: &mut BufferedWriter<'_, K>)
    ensures { Writes K.taken K.faults out.old out.new (flat_map (axis_text prefix.now) domain.now) }
{
    for number in 0..domain.axes() {
        put_axis(prefix, &domain.axis(number), out);
    }
}

// The end of an axis, in thousandths.
fn end_of(number: i64) -> Milli
    requires { IsMilli number }
    ensures { result ≡ number }
{
    match Milli::new(number) {
        Some(end) => end,
        None => unreachable!(),
    }
}

fn put_axis<K: Sink>(prefix: &[u8], axis: &Axis, out: &mut BufferedWriter<'_, K>)
    requires { IsTrue (is_good_axis axis.now) }
    ensures { Writes K.taken K.faults out.old out.new (axis_text prefix.now axis.now) }
{
    let low = end_of(axis.low);
    let high = end_of(axis.high);
    let low = print_milli(low);
    let high = print_milli(high);
    let mut digits = itoa::Buffer::new();
    let points = digits.format(axis.points).as_bytes();
    out.write(&[
        prefix,
        b"domain ",
        axis.name.bytes(),
        b":",
        low.bytes(),
        b":",
        high.bytes(),
        b":",
        points,
        b"\n",
    ]);
}

fn put_terms<K: Sink>(prefix: &[u8], problem: &Problem, out: &mut BufferedWriter<'_, K>)
    ensures { Writes K.taken K.faults out.old out.new (flat_map (term_text prefix.now (length problem.now.axes)) problem.now.terms) }
{
    let axes = problem.domain().axes();
    for number in 0..problem.len() {
        put_term(
            prefix,
            axes,
            problem.weight(number),
            problem.func(number),
            out,
        );
    }
}

fn put_weight<K: Sink>(prefix: &[u8], weight: u32, out: &mut BufferedWriter<'_, K>)
    ensures { Writes K.taken K.faults out.old out.new (concat (prefix.now ∷ codes "function " ∷ unsigned_text weight ∷ codes "\n" ∷ [])) }
{
    let weight = print_unsigned(weight as u64);
    out.write(&[prefix, b"function ", weight.bytes(), b"\n"]);
}

// A function over `axes` axes: its weight, and then its pieces.
fn put_term<K: Sink>(
    prefix: &[u8],
    axes: u32,
    weight: u32,
    func: &Func,
    out: &mut BufferedWriter<'_, K>,
)
    requires { axes ≤ 4 }
    ensures { Writes K.taken K.faults out.old out.new (term_text prefix.now axes (record { weight = weight; func = func.now })) }
{
    put_weight(prefix, weight, out);
    put_pieces(prefix, axes, func, out);
}

fn put_pieces<K: Sink>(prefix: &[u8], axes: u32, func: &Func, out: &mut BufferedWriter<'_, K>)
    requires { axes ≤ 4 }
    ensures { Writes K.taken K.faults out.old out.new (flat_map (piece_text prefix.now axes) func.now.pieces) }
{
    for number in 0..func.len() {
        put_piece(prefix, axes, &func.piece(number), out);
    }
}

// Low and high on each axis, one axis after the other.
fn ends_of(area: &BoxN) -> [u32; 8]
    ensures { result ≡ ends_of area.now }
{
    let BoxN { low, high } = area;
    [
        low[0], high[0], low[1], high[1], low[2], high[2], low[3], high[3],
    ]
}

fn put_piece<K: Sink>(prefix: &[u8], axes: u32, piece: &Piece, out: &mut BufferedWriter<'_, K>)
    requires { axes ≤ 4 }
    ensures { Writes K.taken K.faults out.old out.new (piece_text prefix.now axes piece.now) }
{
    let axes = axes as usize;
    out.write(&[prefix, b"piece"]);
    put_numbers(&ends_of(&piece.area)[..2 * axes], out);
    put_integer(&piece.base, out);
    put_integers(&piece.slope[..axes], out);
    out.write(&[b"\n"]);
}
