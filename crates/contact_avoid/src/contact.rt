// A contact: where it is, and whether it is inside the range of alerts.
ghost use Rattle.std.specs.Prelude.{◌≡◌, IfSome, IsTrue};
ghost use Rattle.helm_geo.specs.Plane.{is_spot};
ghost use Rattle.contact_avoid.specs.Contacts.{contact_place};
ghost use Rattle.contact_avoid.specs.Kept.{inside_from, settled};

use crate::ranges::Ranges;
use crate::report::Report;
use helm_geo::{Spot, within};
use moos_post::{Copied, NoMemory};
use std::alloc::Global;

/// A contact: its latest report, and whether it was inside at the last turn.
#[derive(Drop)]
pub(crate) struct Contact {
    pub report: Report,
    pub inside: bool,
}

impl Contact {
    // Whether it is inside at a turn, seen from here. If the own position isn't known it stays as it was.
    pub fn is_inside(&self, ranges: Ranges, own: Option<Spot>) -> bool
        requires { IfSome own (λ spot. IsTrue (is_spot spot)) }
        ensures { result ≡ inside_from ranges own self.now }
    {
        let Some(own) = own else {
            return self.inside;
        };
        if self.inside {
            self.is_within(ranges.clear, own)
        } else {
            self.is_within(ranges.alert, own)
        }
    }

    // Keeps whether it is inside after the turn.
    pub fn settle(&mut self, ranges: Ranges, own: Option<Spot>)
        requires { IfSome own (λ spot. IsTrue (is_spot spot)) }
        ensures { self.new ≡ settled ranges own self.old }
    {
        self.inside = self.is_inside(ranges, own);
    }

    // Whether it is no farther than this from here.
    fn is_within(&self, radius: u32, own: Spot) -> bool
        requires { IsTrue (is_spot own) }
        ensures { result ≡ Rattle.helm_geo.specs.Plane.within (contact_place self.now.report) own radius }
    {
        let place = self.report.place();
        within(&place, &own, radius as i64)
    }
}

impl Copied for Contact {
    fn copy(&self, alloc: Global) -> Result<Contact, NoMemory> {
        let report = self.report.copy(alloc)?;
        Ok(Contact {
            report,
            inside: self.inside,
        })
    }
}
