// A tenant's profiles in a stretch of pushes.
ghost use Rattle.std.specs.Prelude.{◌≡◌, ◌+◌, ◌≤◌, ◌++◌, IfOk, OnOk, filter, length};
ghost use Rattle.segment_file.specs.Parts.{is_within, part_of, rows_of_push};

use crate::Object;
use profile_model::{PartAsk, Profile, Push};
use std::alloc::{AllocError, Global};
use std::marker::Model;

/// A profile, the number of its push in the history, and its place among that push's profiles, from 0.
#[derive(Debug, Drop)]
pub struct Row {
    pub push: u64,
    pub place: u64,
    pub profile: Profile,
}

/// What an ask finds in pushes number `from` to `until` - 1: rows in push order, then by place.
#[derive(Debug, Drop)]
pub struct Part {
    pub from: u64,
    pub until: u64,
    pub rows: Vec<Row>,
}

impl Model for Part {
    ghost use Rattle.segment_file.specs.Parts.{PartView};

    ghost Value = { PartView };

    ghost view = { λ p. record { from = p.from; until = p.until; rows = p.rows.items } };
}

impl Object {
    /// What an ask finds in those of its pushes that have a number from `from` to `until` - 1. The part ends where the
    /// object does, if that is before `until`. No profile is copied: memory is taken for the rows alone.
    pub fn into_part(
        self,
        alloc: Global,
        from: u64,
        until: u64,
        ask: &PartAsk,
    ) -> Result<Part, AllocError>
        requires begin { self.lo ≤ from }
        requires held { from ≤ self.lo + length self.pushes }
        requires order { from ≤ until }
        ensures { IfOk result (λ part. part ≡ part_of self.lo self.pushes from until ask.now) }
    {
        let mut rows = Vec::new(alloc);
        let end = until.min(self.hi());
        let (mut number, pushes) = self.into_pushes();
        for push in pushes {
            if from <= number && number < until && push.tenant == ask.tenant {
                take_rows(&mut rows, number, push, ask)?;
            }
            number += 1;
        }
        Ok(Part {
            from,
            until: end,
            rows,
        })
    }
}

// Moves the profiles of a push in the ask's window behind the rows.
fn take_rows(rows: &mut Vec<Row>, number: u64, push: Push, ask: &PartAsk) -> Result<(), AllocError>
    ensures { OnOk result (rows.new.items ≡ rows.old.items ++ filter (is_within ask.now) (rows_of_push (number, push))) }
{
    let mut place: u64 = 0;
    for profile in push.profiles.into_vec() {
        if ask.from_ms <= profile.time_ms && profile.time_ms <= ask.until_ms {
            rows.push(Row {
                push: number,
                place,
                profile,
            })?;
        }
        place += 1;
    }
    Ok(())
}
