// What rows are gathered into.
ghost use Rattle.std.specs.Prelude.{◌≡◌, ◌+◌, ◌<◌, ◌≤◌, ◌++◌, ℕ, List, OnOk};
ghost use Rattle.std.specs.List.{All};
ghost use Rattle.profile_model.specs.Limits.{total_bound};
ghost use Rattle.profile_model.specs.Pushes.{profiles_total};
ghost use Rattle.profile_model.specs.declared.profile.Profile.{Profile};
ghost use Rattle.query_merge.specs.Rows.{profiles_of};

use query_merge::{LabelLists, MAX_TIME_MS, Merge, Points, Stats, Types};
use segment_file::Part;
use std::alloc::AllocError;

/// What a query comes to over rows that come part by part.
pub trait Gather {
    // it holds what these profiles come to, by what the first of the two asks
    ghost holds: { Self → Self → List Profile → Type 0 };
    // the sum of all values that it holds
    ghost total: { Self → ℕ };
    // the last time that it has a place for
    ghost latest: { Self → ℕ };

    /// The last time that it has a place for, in milliseconds since 1970.
    fn latest(&self) -> u64
        ensures { result ≡ latest self.now };

    /// Adds the part's rows.
    fn gather(&mut self, part: &Part) -> Result<(), AllocError>
        requires room { total self.old + profiles_total (profiles_of part.now.rows) < total_bound }
        requires times { All (λ row. row.profile.time_ms ≤ latest self.old) part.now.rows }
        ensures more { (asked : Self) → (profiles : List Profile) → holds asked self.old profiles → OnOk result (holds asked self.new (profiles ++ profiles_of part.now.rows)) }
        ensures adds { OnOk result (total self.new ≤ total self.old + profiles_total (profiles_of part.now.rows)) }
        ensures same { latest self.new ≡ latest self.old };
}

/// The sums of the stacks that a query asks for.
impl Gather for Merge {
    ghost use Rattle.std.specs.Prelude.{◌≡◌, ◌^◌, ◌-◌};
    ghost use Rattle.profile_model.specs.Sums.{total_of};
    ghost use Rattle.query_merge.specs.Merging.{IsMergeOf};

    ghost holds = { λ asked merge profiles. (merge.query ≡ asked.query) × IsMergeOf merge profiles };

    ghost total = { λ merge. total_of merge.sums };

    ghost latest = { λ merge. 2 ^ 64 - 1 };

    fn latest(&self) -> u64 {
        u64::MAX
    }

    fn gather(&mut self, part: &Part) -> Result<(), AllocError> {
        self.add(part)
    }
}

/// The values that a query asks for, at points in time.
impl Gather for Points {
    ghost use Rattle.std.specs.Prelude.{◌≡◌};
    ghost use Rattle.query_merge.specs.Gathering.{ArePointsOf};
    ghost use Rattle.query_merge.specs.Grid.{most_time};

    ghost holds = { λ asked points profiles. (points.plot ≡ asked.plot) × ArePointsOf points profiles };

    ghost total = { λ points. points.held.total };

    ghost latest = { λ points. most_time };

    fn latest(&self) -> u64 {
        MAX_TIME_MS
    }

    fn gather(&mut self, part: &Part) -> Result<(), AllocError> {
        self.add(part)
    }
}

/// The label sets that selectors ask for.
impl Gather for LabelLists {
    ghost use Rattle.std.specs.Prelude.{◌≡◌, ◌^◌, ◌-◌};
    ghost use Rattle.query_merge.specs.SetLists.{AreSetsOf};

    ghost holds = { λ asked lists profiles. (lists.selectors ≡ asked.selectors) × AreSetsOf lists profiles };

    ghost total = { λ lists. 0 };

    ghost latest = { λ lists. 2 ^ 64 - 1 };

    fn latest(&self) -> u64 {
        u64::MAX
    }

    fn gather(&mut self, part: &Part) -> Result<(), AllocError> {
        self.add(part)
    }
}

/// The types of profiles.
impl Gather for Types {
    ghost use Rattle.std.specs.Prelude.{◌≡◌, ◌^◌, ◌-◌};
    ghost use Rattle.query_merge.specs.TypeLists.{types_of};

    ghost holds = { λ asked types profiles. types ≡ types_of profiles };

    ghost total = { λ types. 0 };

    ghost latest = { λ types. 2 ^ 64 - 1 };

    fn latest(&self) -> u64 {
        u64::MAX
    }

    fn gather(&mut self, part: &Part) -> Result<(), AllocError> {
        self.add(part)
    }
}

/// Between which times profiles stand.
impl Gather for Stats {
    ghost use Rattle.std.specs.Prelude.{◌^◌, ◌-◌};
    ghost use Rattle.query_merge.specs.Spans.{IsSpanOf};

    ghost holds = { λ asked span profiles. IsSpanOf profiles span };

    ghost total = { λ span. 0 };

    ghost latest = { λ span. 2 ^ 64 - 1 };

    fn latest(&self) -> u64 {
        u64::MAX
    }

    fn gather(&mut self, part: &Part) -> Result<(), AllocError> {
        self.add(part);
        Ok(())
    }
}
