// A mission line by line.
ghost use Rattle.std.specs.Prelude.{◌≡◌, Ok, Err, IfOk, IfErr, MatchOption, true, false, if◌then◌else◌, codes, bytes_eq};
ghost use Rattle.moos_text.specs.Lines.{ends_with, is_unclosed};
ghost use Rattle.moos_text.specs.Pairs.{sides_of};
ghost use Rattle.moos_text.specs.Refusals.{and_then, IsFirst, IsLineFault};
ghost use Rattle.moos_text.specs.Standing.{after_statement, after_text, at_end, Outside};
ghost use Rattle.mission_reader.specs.Missions.{app_of, line_in, app_block, is_brace, mission_form, mission_with, nothing_set, opens_block};
ghost use Rattle.mission_reader.specs.Places.{standing};

use crate::mission::Mission;
use crate::settings::{Settings, refusal_at};
use moos_text::{
    Cause, LineFault, ReadFault, cut_at_equals, ends_with, is_named, trimmed, without_last,
};
use std::alloc::Global;

/// Where the lines have come: outside blocks, behind a line that opens one, or between its braces. A block is the helm's or
/// another app's.
#[derive(Clone, Copy, Drop)]
pub enum Place {
    Loose,
    Headed(bool),
    Braced(bool),
}

/// What was set so far, and where the lines have come.
#[derive(Drop)]
pub struct MissionReading {
    pub settings: Settings,
    pub place: Place,
}

impl MissionReading {
    /// Before the first line.
    pub fn new() -> MissionReading
        ensures { standing result.settings result.place ≡ Outside nothing_set }
    {
        MissionReading {
            settings: Settings::new(),
            place: Place::Loose,
        }
    }

    /// Reads one line more, which has this number and says this; nothing if it is blank.
    pub fn read_line(
        &mut self,
        alloc: Global,
        line: u32,
        text: &[u8],
        unclosed: bool,
    ) -> Result<(), ReadFault>
        requires { unclosed ≡ is_unclosed text.now }
        ensures read { IfOk result (λ _. after_text mission_form line (standing self.old.settings self.old.place) text.now
            ≡ Ok (standing self.new.settings self.new.place)) }
        ensures refused { IfErr result (λ fault. IsFirst fault (after_text mission_form line (standing self.old.settings self.old.place) text.now)) }
    {
        if text.len() == 0 {
            return Ok(());
        }
        if unclosed {
            return Err(refusal_at(line, Cause::M1));
        }
        match self.read_text(alloc, text) {
            Ok(()) => Ok(()),
            Err(fault) => Err(fault.at(line)),
        }
    }

    // The same of a line that says something and leaves no quote open.
    fn read_text(&mut self, alloc: Global, text: &[u8]) -> Result<(), LineFault>
        ensures read { IfOk result (λ _. after_statement mission_form (standing self.old.settings self.old.place) (record { line = 0; text = text.now })
            ≡ Ok (standing self.new.settings self.new.place)) }
        ensures refused { IfErr result (λ fault. IsLineFault fault (after_statement mission_form (standing self.old.settings self.old.place) (record { line = 0; text = text.now }))) }
    {
        match self.place {
            Place::Loose => Ok(self.read_loose(text)?),
            Place::Headed(helm) => {
                self.place = braced(text, helm)?;
                Ok(())
            },
            Place::Braced(helm) => {
                if text == b"}".as_slice() {
                    self.place = Place::Loose;
                    return Ok(());
                }
                self.read_inside(alloc, text, helm)
            },
        }
    }

    // A line outside blocks.
    fn read_loose(&mut self, text: &[u8]) -> Result<(), Cause>
        ensures read { IfOk result (λ _. after_statement mission_form (Outside self.old.settings) (record { line = 0; text = text.now })
            ≡ Ok (standing self.new.settings self.new.place)) }
        ensures refused { IfErr result (λ cause. after_statement mission_form (Outside self.old.settings) (record { line = 0; text = text.now }) ≡ Err cause) }
    {
        match app_of(text) {
            Some(app) => {
                let helm = self.settings.begin(app)?;
                self.place = behind_head(text, helm);
                Ok(())
            },
            None => {
                self.place = Place::Loose;
                loose_line(text)
            },
        }
    }

    // A line of a block that doesn't close it.
    fn read_inside(&mut self, alloc: Global, text: &[u8], helm: bool) -> Result<(), LineFault>
        ensures read { IfOk result (λ _. line_in (app_block self.old.settings helm) text.now ≡ Ok (app_block self.new.settings helm)) }
        ensures refused { IfErr result (λ fault. IsLineFault fault (line_in (app_block self.old.settings helm) text.now)) }
        ensures place { self.new.place ≡ self.old.place }
    {
        if helm {
            self.settings.set(alloc, text)
        } else {
            Ok(())
        }
    }

    /// The mission, in a file with this last line.
    pub fn mission(self, last: u32) -> Result<Mission, ReadFault>
        ensures { result ≡ and_then (mission_with last) (at_end mission_form last (standing self.settings self.place)) }
    {
        let MissionReading { settings, place } = self;
        match place {
            Place::Loose => settings.mission(last),
            Place::Headed(_) | Place::Braced(_) => Err(refusal_at(last, Cause::M2)),
        }
    }
}

// The app whose block a line opens; `None` exactly if it opens none.
fn app_of(text: &[u8]) -> Option<&[u8]>
    ensures { MatchOption result (opens_block (sides_of text.now) ≡ false) (λ app. (opens_block (sides_of text.now) ≡ true) × (app.now ≡ app_of (sides_of text.now))) }
{
    match cut_at_equals(text) {
        Some((name, app)) => if is_named(name, b"ProcessConfig") {
            Some(trimmed(without_last(app, b'{')))
        } else {
            None
        },
        None => None,
    }
}

// Where the lines are behind one that opens a block.
fn behind_head(text: &[u8], helm: bool) -> Place
    ensures { result ≡ (if ends_with 123 text.now then Place.Braced helm else Place.Headed helm) }
{
    if ends_with(text, b'{') {
        Place::Braced(helm)
    } else {
        Place::Headed(helm)
    }
}

// After a line that opens a block comes its `{`.
fn braced(text: &[u8], helm: bool) -> Result<Place, Cause>
    ensures { result ≡ (if bytes_eq text.now (codes "{") then Ok (Place.Braced helm) else Err Cause.M1) }
{
    if text == b"{".as_slice() {
        Ok(Place::Braced(helm))
    } else {
        Err(Cause::M1)
    }
}

// Outside blocks no line is a brace alone.
fn loose_line(text: &[u8]) -> Result<(), Cause>
    ensures loose { IfOk result (λ _. is_brace text.now ≡ false) }
    ensures refused { IfErr result (λ cause. (is_brace text.now ≡ true) × (cause ≡ Cause.M1)) }
{
    if text == b"{".as_slice() || text == b"}".as_slice() {
        Err(Cause::M1)
    } else {
        Ok(())
    }
}
