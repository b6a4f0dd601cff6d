// What one of several workers cut.
ghost use Rattle.std.specs.Prelude.{◌≡◌, ◌++◌, OnOk, drop, flat_map, map, take};

use crate::cert::Line;
use moos_post::NoMemory;
use std::marker::Model;
use std::vec::IntoIter;

/// The lines of the subtrees that were dealt to a worker, subtree by subtree. Contracts see them.
#[derive(Drop)]
pub(crate) struct Share {
    cuts: IntoIter<Vec<Line>>,
}

impl Model for Share {
    ghost use Rattle.std.specs.Prelude.{◌≡◌, List, length, map};
    ghost use Rattle.std.specs.Vec.Iter.{into_iter_items, into_iter_len};
    ghost use Rattle.ivp_cert.specs.declared.cert.Line.{Line};

    ghost Value = { List (List Line) };

    ghost view = { λ share. map (λ cut. cut.items) (into_iter_items share.cuts) };

    ghost invariant = { λ share. into_iter_len share.cuts ≡ length (into_iter_items share.cuts) };
}

impl Share {
    /// The share of these.
    pub(crate) fn of(cuts: Vec<Vec<Line>>) -> Share
        ensures { result ≡ map (λ cut. cut.items) cuts.items }
    {
        Share {
            cuts: cuts.into_iter(),
        }
    }

    /// Adds the lines of the first subtree to these and takes them out, if there is one.
    pub(crate) fn give(&mut self, lines: &mut Vec<Line>) -> Result<(), NoMemory>
        ensures lines { OnOk result (lines.new.items ≡ lines.old.items ++ flat_map (λ cut. cut) (take 1 self.old)) }
        ensures rest { OnOk result (self.new ≡ drop 1 self.old) }
    {
        let Some(mut cut) = self.cuts.next() else {
            return Ok(());
        };
        lines.append(&mut cut)?;
        Ok(())
    }
}
