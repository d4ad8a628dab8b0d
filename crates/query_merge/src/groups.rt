// Values over time, group by group.
ghost use Rattle.std.specs.Prelude.{◌≡◌, ℕ, ◌+◌, ◌^◌, ◌<◌, List, [], IfOk, OnErr, OnOk, map};
ghost use Rattle.std.specs.List.{All};
ghost use Rattle.std.specs.List.Sorted.{IsStrictlySortedBy};
ghost use Rattle.std.specs.Map.{keys_of};
ghost use Rattle.std.specs.Ordering.{nat_cmp};
ghost use Rattle.profile_model.specs.LabelOrder.{labels_cmp};
ghost use Rattle.profile_model.specs.LabelSets.{Label};
ghost use Rattle.query_merge.specs.Gathering.{AreWithin, IsCounted, groups_in, points_of, value_of_point, with_group, with_value};

use profile_model::LabelSet;
use std::alloc::{AllocError, Global};
use std::collections::BTreeMap;
use std::marker::Model;

/// The values of profiles with the same labels, added up at points in time.
#[derive(Debug, Drop)]
pub struct Series {
    pub labels: LabelSet,
    /// Each point, in milliseconds since 1970, and its value; ascending.
    pub points: Vec<(u64, u64)>,
}

// What each group has at each point, and all of it together.
#[derive(Drop)]
pub(crate) struct Groups {
    alloc: Global,
    values: BTreeMap<LabelSet, BTreeMap<u64, u64>>,
    total: u64,
}

impl Model for Groups {
    ghost use Rattle.query_merge.specs.Gathering.{GroupsView, groups_in};

    ghost Value = { GroupsView };

    ghost view = { λ g. record { groups = groups_in g.values; total = g.total } };
}

impl Groups {
    pub(crate) fn new(alloc: Global) -> Groups
        ensures groups { result.groups ≡ [] }
        ensures total { result.total ≡ 0 }
    {
        Groups {
            alloc,
            values: BTreeMap::new(alloc),
            total: 0,
        }
    }

    // Adds to what the group has at the point. Want of memory may leave a group without points.
    pub(crate) fn count(
        &mut self,
        labels: LabelSet,
        point: u64,
        value: u64,
    ) -> Result<(), AllocError>
        requires within { AreWithin self.old }
        requires room { self.old.total + value < 2 ^ 64 }
        ensures { OnOk result (IsCounted self.old labels point value self.new) }
    {
        add_in(self.alloc, &mut self.values, labels, point, value)?;
        self.total += value;
        Ok(())
    }

    pub(crate) fn series(&self) -> Result<Vec<Series>, AllocError>
        ensures groups { IfOk result (λ series. map (λ one. (one.labels, one.points.items)) series.items ≡ self.now.groups) }
        ensures ordered { IfOk result (λ _. IsStrictlySortedBy labels_cmp (keys_of self.now.groups)) }
        ensures points { IfOk result (λ series. All (λ one. IsStrictlySortedBy nat_cmp (keys_of one.points.items)) series.items) }
    {
        let mut series = Vec::with_capacity(self.alloc, self.values.len())?;
        for (labels, points) in self.values.iter() {
            series.push(Series {
                labels: labels.clone()?,
                points: listed(self.alloc, points)?,
            })?;
        }
        Ok(series)
    }
}

fn add_in(
    alloc: Global,
    values: &mut BTreeMap<LabelSet, BTreeMap<u64, u64>>,
    labels: LabelSet,
    point: u64,
    value: u64,
) -> Result<(), AllocError>
    requires { value_of_point (points_of (groups_in values.old) labels) point + value < 2 ^ 64 }
    ensures { OnOk result (groups_in values.new ≡ with_group (groups_in values.old) labels point value) }
{
    let points = values.entry(labels)?.or_insert(BTreeMap::new(alloc));
    add_at(points, point, value)
}

fn add_at(points: &mut BTreeMap<u64, u64>, point: u64, value: u64) -> Result<(), AllocError>
    requires { value_of_point points.old.entries point + value < 2 ^ 64 }
    ensures { OnOk result (points.new.entries ≡ with_value points.old.entries point value) }
{
    let held = points.entry(point)?.or_insert(0);
    *held += value;
    Ok(())
}

fn listed(alloc: Global, points: &BTreeMap<u64, u64>) -> Result<Vec<(u64, u64)>, AllocError>
    ensures points { IfOk result (λ listed. listed.items ≡ points.now.entries) }
    ensures ordered { IsStrictlySortedBy nat_cmp (keys_of points.now.entries) }
{
    let mut listed = Vec::with_capacity(alloc, points.len())?;
    for (point, value) in points.iter() {
        listed.push((*point, *value))?;
    }
    Ok(listed)
}

impl Clone for Groups {
    ghost is_clone = { λ groups copy. copy ≡ groups };

    fn clone(&self) -> Result<Groups, AllocError> {
        let values = self.values.clone()?;
        Ok(Groups {
            alloc: self.alloc,
            values,
            total: self.total,
        })
    }
}
