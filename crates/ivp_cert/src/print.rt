// The text of a decision.
ghost use Rattle.std.specs.Prelude.{◌≤◌, [], ◌∷◌, ◌++◌, flat_map, codes, decimal, length};
ghost use Rattle.std.specs.List.{concat};
ghost use Rattle.moos_io.specs.BufferedWriting.{Delivers, Writes};
ghost use Rattle.moos_text.specs.Numbers.{unsigned_text};
ghost use Rattle.ivp_cert.specs.Texts.{claim_text, decision_lines, line_text, problem_text};

use crate::cert::Line;
use crate::claim::{Claim, Decision};
use crate::path_text::PathText;
use crate::put::put_numbers;
use crate::put_problem::put_problem;
use moos_io::{BufferedWriter, Failed, Sink};
use moos_text::print_unsigned;

/// Writes a decision, each line behind the prefix. If the sink fails, it took a front of the text, not the whole.
pub fn print_decision<K: Sink>(
    decision: &Decision,
    prefix: &[u8],
    out: &mut K,
) -> Result<(), Failed>
    ensures { Delivers K.taken K.faults out.old out.new result (decision_lines prefix.now decision.now) }
{
    let mut writer = BufferedWriter::new(out);
    put_decision(prefix, decision, &mut writer);
    writer.finish()
}

/// Writes a decision through a writer, each line behind the prefix.
pub fn put_decision<K: Sink>(prefix: &[u8], decision: &Decision, out: &mut BufferedWriter<'_, K>)
    ensures { Writes K.taken K.faults out.old out.new (decision_lines prefix.now decision.now) }
{
    put_stated(prefix, decision, out);
    put_lines(prefix, decision.cert.all(), out);
    out.write(&[prefix, b"done\n"]);
}

/// Writes what a decision's certificate is for through a writer: the problem and the claim.
pub(crate) fn put_stated<K: Sink>(
    prefix: &[u8],
    decision: &Decision,
    out: &mut BufferedWriter<'_, K>,
)
    ensures { Writes K.taken K.faults out.old out.new (problem_text prefix.now decision.now.problem ++ claim_text prefix.now (length decision.now.problem.axes) decision.now.claim) }
{
    let axes = decision.problem.domain().axes();
    put_problem(prefix, &decision.problem, out);
    put_claim(prefix, axes, &decision.claim, out);
}

fn put_sum<K: Sink>(sum: u64, out: &mut BufferedWriter<'_, K>)
    ensures { Writes K.taken K.faults out.old out.new (concat (codes " " ∷ unsigned_text sum ∷ codes "\n" ∷ [])) }
{
    out.write(&[b" ", print_unsigned(sum).bytes(), b"\n"]);
}

fn put_bound<K: Sink>(sum: u64, index: u32, out: &mut BufferedWriter<'_, K>)
    ensures { Writes K.taken K.faults out.old out.new (concat (codes " : " ∷ unsigned_text sum ∷ codes " " ∷ decimal index ∷ codes "\n" ∷ [])) }
{
    let sum = print_unsigned(sum);
    let mut digits = itoa::Buffer::new();
    let index = digits.format(index).as_bytes();
    out.write(&[b" : ", sum.bytes(), b" ", index, b"\n"]);
}

fn put_claim<K: Sink>(prefix: &[u8], axes: u32, claim: &Claim, out: &mut BufferedWriter<'_, K>)
    requires { axes ≤ 4 }
    ensures { Writes K.taken K.faults out.old out.new (claim_text prefix.now axes claim.now) }
{
    out.write(&[prefix, b"decision"]);
    put_numbers(&claim.point.at[..axes as usize], out);
    put_sum(claim.sum, out);
}

/// Writes lines of a certificate through a writer, each behind the prefix.
pub(crate) fn put_lines<K: Sink>(prefix: &[u8], lines: &[Line], out: &mut BufferedWriter<'_, K>)
    ensures { Writes K.taken K.faults out.old out.new (flat_map (line_text prefix.now) lines.now) }
{
    let mut texts = PathText::new();
    for line in lines {
        if out.failed() {
            return;
        }
        put_line(prefix, line, &mut texts, out);
    }
}

fn put_line<K: Sink>(
    prefix: &[u8],
    line: &Line,
    texts: &mut PathText,
    out: &mut BufferedWriter<'_, K>,
)
    ensures { Writes K.taken K.faults out.old out.new (line_text prefix.now line.now) }
{
    let path = texts.of(line.path.all());
    out.write(&[prefix, b"cut", path]);
    put_bound(line.sum, line.index, out);
}
