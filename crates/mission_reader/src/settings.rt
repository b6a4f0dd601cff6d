// What the lines of the helm's block set.
ghost use Rattle.std.specs.Prelude.{◌≡◌, map, Ok, Err, Some, IfOk, IfErr, option_and_then};
ghost use Rattle.std.specs.List.{list_any};
ghost use Rattle.ivp_domain.specs.Domains.{same_name};
ghost use Rattle.axis_reader.specs.Fields.{axis_from, fields_of};
ghost use Rattle.moos_text.specs.Lines.{trimmed};
ghost use Rattle.moos_text.specs.Numbers.{milli_of};
ghost use Rattle.moos_text.specs.Pairs.{sides_of};
ghost use Rattle.moos_text.specs.Refusals.{IsLineFault};
ghost use Rattle.mission_reader.specs.Missions.{mission_axes, axis_byte, axis_set, nothing_set, period_of, with_mission_axis, with_behaviors, with_period, with_setting, begun_by, app_block, mission_with};

use crate::mission::Mission;
use axis_reader::{Fields, axis_of, extended, four_fields};
use ivp_domain::{Axis, Domain, DomainFault, MOST_AXES};
use moos_post::{Milli, NoMemory, Txt, TxtFault};
use moos_text::{Cause, LineFault, ReadFault, cut_at_equals, is_named, read_milli, trimmed};
use std::alloc::{AllocError, Global};

/// What the lines of a mission have set so far.
#[derive(Drop)]
pub struct Settings {
    /// The time from one iteration to the next, in milliseconds.
    pub period: u64,
    /// The name of the behaviour file, if it was given.
    pub behaviors: Option<Txt>,
    /// The axes so far, if there are any.
    pub domain: Option<Domain>,
    /// Whether the helm's block was begun.
    pub helm: bool,
}

impl Settings {
    /// What is before the first line.
    pub fn new() -> Settings
        ensures { result ≡ nothing_set }
    {
        Settings {
            period: 250,
            behaviors: None,
            domain: None,
            helm: false,
        }
    }

    /// Begins a block of this app, and says whether it is the helm's.
    pub fn begin(&mut self, app: &[u8]) -> Result<bool, Cause>
        ensures begun { IfOk result (λ helm. begun_by self.old app.now ≡ Ok (app_block self.new helm)) }
        ensures refused { IfErr result (λ cause. begun_by self.old app.now ≡ Err cause) }
    {
        if app.len() == 0 {
            return Err(Cause::M1);
        }
        if !is_named(app, b"pHelmIvP") {
            return Ok(false);
        }
        if self.helm {
            return Err(Cause::M1);
        }
        self.helm = true;
        Ok(true)
    }

    /// Sets what a line of the helm's block says; a name that isn't the helm's is unread.
    pub fn set(&mut self, alloc: Global, text: &[u8]) -> Result<(), LineFault>
        ensures set { IfOk result (λ _. with_setting self.old (sides_of text.now) ≡ Ok self.new) }
        ensures refused { IfErr result (λ fault. IsLineFault fault (with_setting self.old (sides_of text.now))) }
    {
        let Some((name, value)) = cut_at_equals(text) else {
            return Err(LineFault::Refused(Cause::M1));
        };
        if is_named(name, b"AppTick") {
            return Ok(self.set_period(value)?);
        }
        if is_named(name, b"behaviors") {
            return self.set_behaviors(alloc, value);
        }
        if is_named(name, b"domain") {
            return self.add_axis(alloc, value);
        }
        Ok(())
    }

    /// The mission of all settings, in a file with this last line: it needs a domain, and then a behaviour file.
    pub fn mission(self, last: u32) -> Result<Mission, ReadFault>
        ensures { result ≡ mission_with last self }
    {
        let Settings {
            period,
            behaviors,
            domain,
            helm: _,
        } = self;
        let Some(domain) = domain else {
            return Err(refusal_at(last, Cause::M5));
        };
        let Some(behaviors) = behaviors else {
            return Err(refusal_at(last, Cause::M7));
        };
        Ok(Mission {
            period,
            behaviors,
            domain,
            lines: last,
        })
    }

    // Iterations a second; the last line that sets them counts.
    fn set_period(&mut self, value: &[u8]) -> Result<(), Cause>
        ensures set { IfOk result (λ _. with_period self.old (option_and_then period_of (milli_of value.now)) ≡ Ok self.new) }
        ensures refused { IfErr result (λ cause. with_period self.old (option_and_then period_of (milli_of value.now)) ≡ Err cause) }
    {
        match period_in(value) {
            Some(period) => {
                self.period = period;
                Ok(())
            },
            None => Err(Cause::M6),
        }
    }

    // The name of the behaviour file, which is given once.
    fn set_behaviors(&mut self, alloc: Global, name: &[u8]) -> Result<(), LineFault>
        ensures set { IfOk result (λ _. with_behaviors self.old name.now ≡ Ok self.new) }
        ensures refused { IfErr result (λ fault. IsLineFault fault (with_behaviors self.old name.now)) }
    {
        if self.behaviors.is_some() || name.len() == 0 {
            return Err(LineFault::Refused(Cause::M1));
        }
        match Txt::new(alloc, name) {
            Ok(text) => {
                self.behaviors = Some(text);
                Ok(())
            },
            Err(TxtFault::NoMemory) => Err(LineFault::NoMemory),
            Err(TxtFault::TooLong(_len)) => Err(LineFault::Refused(Cause::M1)),
            Err(TxtFault::BadByte(_place)) => Err(LineFault::Refused(Cause::M1)),
        }
    }

    // One axis more.
    fn add_axis(&mut self, alloc: Global, value: &[u8]) -> Result<(), LineFault>
        ensures added { IfOk result (λ _. with_mission_axis self.old (axis_set value.now) ≡ Ok self.new) }
        ensures refused { IfErr result (λ fault. IsLineFault fault (with_mission_axis self.old (axis_set value.now))) }
    {
        let axis = axis_in(alloc, value)?;
        let axis = axis.ok_or(Cause::M3)?;
        Ok(self.extend(axis)?)
    }

    // The same by the axis that is there.
    fn extend(&mut self, axis: Axis) -> Result<(), Cause>
        ensures added { IfOk result (λ _. with_mission_axis self.old (Some axis) ≡ Ok self.new) }
        ensures refused { IfErr result (λ cause. with_mission_axis self.old (Some axis) ≡ Err cause) }
    {
        let axes = self.axes();
        if axes.len() >= MOST_AXES || is_name_of_one(axes, &axis) {
            return Err(Cause::M3);
        }
        match extended(axes, axis) {
            Ok(domain) => {
                self.domain = Some(domain);
                Ok(())
            },
            Err(DomainFault::TooLarge) => Err(Cause::M4),
            Err(DomainFault::BadAxis(_)) | Err(DomainFault::SameName(_)) => Err(Cause::M3),
        }
    }

    // The axes so far.
    fn axes(&self) -> &[Axis]
        ensures { result.now ≡ mission_axes self.now.domain }
    {
        match &self.domain {
            Some(domain) => domain.all(),
            None => &[],
        }
    }
}

/// The refusal of this line.
pub fn refusal_at(line: u32, cause: Cause) -> ReadFault
    ensures { result ≡ ReadFault.At line cause }
{
    ReadFault::At { line, cause }
}

// The milliseconds of an iteration, if the text is a number of iterations a second from 0.001 to 1,000.
fn period_in(text: &[u8]) -> Option<u64>
    ensures { result ≡ option_and_then period_of (milli_of text.now) }
{
    period_of(read_milli(text)?)
}

fn period_of(rate: Milli) -> Option<u64>
    ensures { result ≡ period_of rate }
{
    let rate = rate.get();
    if 1 <= rate && rate <= 1_000_000 {
        Some(1_000_000 / rate as u64)
    } else {
        None
    }
}

// Whether an axis has the name of one of these.
fn is_name_of_one(axes: &[Axis], axis: &Axis) -> bool
    ensures { result ≡ list_any (same_name axis.now) axes.now }
{
    axes.iter().any(|other| same_name(axis, other))
}

fn same_name(one: &Axis, other: &Axis) -> bool
    ensures { result ≡ same_name one.now other.now }
{
    one.name.bytes() == other.name.bytes()
}

// The axis that is written NAME:LOW:HIGH:POINTS, with blanks around its fields or not.
fn axis_in(alloc: Global, value: &[u8]) -> Result<Option<Axis>, NoMemory>
    ensures { IfOk result (λ axis. axis ≡ axis_set value.now) }
{
    let text = axis_text(alloc, value)?;
    Ok(axis_from(text.as_slice()))
}

// Letters count in lower case, and `,` as `:`.
fn axis_text(alloc: Global, value: &[u8]) -> Result<Vec<u8>, NoMemory>
    ensures { IfOk result (λ text. text.items ≡ map axis_byte value.now) }
{
    value.iter().map(|byte| axis_byte(*byte)).collect(alloc)
}

fn axis_byte(byte: u8) -> u8
    ensures { result ≡ axis_byte byte }
{
    if byte == b',' {
        b':'
    } else {
        byte.to_ascii_lowercase()
    }
}

#[tactic(auto, using(axis_reader::proofs::Cuts::not_four))]
fn axis_from(text: &[u8]) -> Option<Axis>
    ensures { result ≡ axis_from (map trimmed (fields_of text.now)) }
{
    let fields = four_fields(text)?;
    axis_of(&Fields {
        name: trimmed(fields.name),
        low: trimmed(fields.low),
        high: trimmed(fields.high),
        points: trimmed(fields.points),
    })
}
