// What a query comes to over time.
ghost use Rattle.std.specs.Prelude.{◌≡◌, ◌+◌, ◌<◌, ◌≤◌, ◌||◌, ◌++◌, List, [], ◌∷◌, IfOk, OnErr, OnOk, filter, map, nat_eq, not};
ghost use Rattle.std.specs.Cmp.Lexicographic.{pointwise};
ghost use Rattle.std.specs.List.{All, list_any};
ghost use Rattle.profile_model.specs.Limits.{total_bound};
ghost use Rattle.profile_model.specs.Pushes.{profiles_total};
ghost use Rattle.profile_model.specs.Sums.{total_of};
ghost use Rattle.profile_model.specs.declared.profile.Profile.{Profile};
ghost use Rattle.query_merge.specs.Gathering.{AreGroupsOf, ArePointsOf, AreWithin, IsPlace};
ghost use Rattle.query_merge.specs.Grid.{IsGrid, most_time};
ghost use Rattle.query_merge.specs.Plotted.{AreSeriesOf, group_of};
ghost use Rattle.query_merge.specs.Rows.{profiles_of};

use crate::asked::Asked;
use crate::grid::Grid;
use crate::groups::{Groups, Series};
use profile_model::{LabelSet, Name, Profile, own_labels};
use segment_file::{Part, Row};
use selector::Query;
use std::alloc::{AllocError, Global};
use std::marker::Model;

// Which profiles count, where and when.
#[derive(Drop)]
struct Plan {
    asked: Asked,
    grid: Grid,
    names: Vec<Name>,
}

impl Model for Plan {
    ghost use Rattle.query_merge.specs.Plotted.{Plot};

    ghost Value = { Plot };

    ghost view = { λ p. record { query = p.asked; start = p.grid.start; step = p.grid.step; names = p.names.items } };
}

/// The values of the rows that were added and that a query asks for, added up at points in time, in groups by their labels.
#[derive(Drop)]
pub struct Points {
    plan: Plan,
    held: Groups,
}

impl Model for Points {
    ghost use Rattle.query_merge.specs.Gathering.{AreWithin, PointsView};

    ghost Value = { PointsView };

    ghost view = { λ p. record { plot = p.plan; held = p.held } };

    ghost invariant = { λ p. AreWithin p.held };
}

impl Points {
    /// No row was added. The points are `start`, in milliseconds since 1970, and every `step` seconds after it; groups are by
    /// the labels with the names in `group_by`. It takes no memory.
    pub fn new(alloc: Global, query: Query, start: u64, step: u64, group_by: Vec<Name>) -> Points
        requires grid { IsGrid start step }
        ensures query { result.plot.query ≡ query }
        ensures start { result.plot.start ≡ start }
        ensures step { result.plot.step ≡ step }
        ensures names { result.plot.names ≡ group_by.items }
        ensures none { ArePointsOf result [] }
        ensures total { result.held.total ≡ 0 }
    {
        Points {
            plan: Plan {
                asked: Asked::new(alloc, query),
                grid: Grid { start, step },
                names: group_by,
            },
            held: Groups::new(alloc),
        }
    }

    /// Adds the part's rows. Want of memory leaves all as it was.
    pub fn add(&mut self, part: &Part) -> Result<(), AllocError>
        requires times { All (λ row. row.profile.time_ms ≤ most_time) part.now.rows }
        requires room { self.old.held.total + profiles_total (profiles_of part.now.rows) < total_bound }
        ensures more { (profiles : List Profile) → ArePointsOf self.old profiles → OnOk result (ArePointsOf self.new (profiles ++ profiles_of part.now.rows)) }
        ensures total { OnOk result (self.new.held.total ≤ self.old.held.total + profiles_total (profiles_of part.now.rows)) }
        ensures plot { self.new.plot ≡ self.old.plot }
        ensures err { OnErr result (self.new ≡ self.old) }
    {
        let mut held = self.held.clone()?;
        add_rows(&mut self.plan, &mut held, &part.rows)?;
        self.held = held;
        Ok(())
    }

    /// The groups that have points, ascending by their labels. A point without a profile is left out, and one whose profiles
    /// have no stacks has the value 0.
    pub fn series(self) -> Result<Vec<Series>, AllocError>
        ensures { (profiles : List Profile) → ArePointsOf self profiles
            → IfOk result (λ series. AreSeriesOf self.plot profiles (map (λ one. (one.labels, one.points.items)) series.items)) }
    {
        self.held.series()
    }
}

fn add_rows(plan: &mut Plan, held: &mut Groups, rows: &[Row]) -> Result<(), AllocError>
    requires times { All (λ row. row.profile.time_ms ≤ most_time) rows.now }
    requires room { held.old.total + profiles_total (profiles_of rows.now) < total_bound }
    requires within { AreWithin held.old }
    ensures more { (profiles : List Profile) → AreGroupsOf plan.old profiles held.old → OnOk result (AreGroupsOf plan.old (profiles ++ profiles_of rows.now) held.new) }
    ensures within { OnOk result (AreWithin held.new) }
    ensures total { OnOk result (held.new.total ≤ held.old.total + profiles_total (profiles_of rows.now)) }
    ensures unchanged { plan.new ≡ plan.old }
{
    for row in rows {
        add_profile(plan, held, &row.profile)?;
    }
    Ok(())
}

fn add_profile(plan: &mut Plan, held: &mut Groups, profile: &Profile) -> Result<(), AllocError>
    requires time { profile.now.time_ms ≤ most_time }
    requires room { held.old.total + total_of profile.now.values < total_bound }
    requires within { AreWithin held.old }
    ensures more { (profiles : List Profile) → AreGroupsOf plan.old profiles held.old → OnOk result (AreGroupsOf plan.old (profiles ++ profile.now ∷ []) held.new) }
    ensures within { OnOk result (AreWithin held.new) }
    ensures total { OnOk result (held.new.total ≤ held.old.total + total_of profile.now.values) }
    ensures unchanged { plan.new ≡ plan.old }
{
    match plan.place(profile)? {
        Some((labels, point)) => held.count(labels, point, profile.values.total()),
        None => Ok(()),
    }
}

impl Plan {
    fn place(&mut self, profile: &Profile) -> Result<Option<(LabelSet, u64)>, AllocError>
        requires { profile.now.time_ms ≤ most_time }
        ensures exact { IfOk result (IsPlace self.old profile.now) }
        ensures unchanged { self.new ≡ self.old }
    {
        if !self.asked.asks(profile)? {
            return Ok(None);
        }
        let labels = group_of(&self.names, &profile.labels)?;
        Ok(Some((labels, self.grid.point(profile.time_ms))))
    }
}

fn group_of(names: &[Name], labels: &LabelSet) -> Result<LabelSet, AllocError>
    ensures { IfOk result (λ group. group ≡ group_of names.now labels.now) }
{
    let mut group = labels.clone()?;
    for (name, _) in labels.pairs() {
        group = named_or_other(names, group, name);
    }
    Ok(own_labels(group))
}

// The labels but for the one with this name, where it is none of the names.
fn named_or_other(names: &[Name], labels: LabelSet, name: &Name) -> LabelSet
    ensures { result ≡ filter (λ label. list_any (pointwise nat_eq label.0) names.now || not (pointwise nat_eq name.now label.0)) labels }
{
    if names.contains(name) {
        labels
    } else {
        labels.without(name.as_bytes())
    }
}
