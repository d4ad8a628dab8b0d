// Between which times rows stand.
ghost use Rattle.std.specs.Prelude.{◌≡◌, ◌++◌, List, [], ◌∷◌, Some};
ghost use Rattle.profile_model.specs.declared.profile.Profile.{Profile};
ghost use Rattle.query_merge.specs.Rows.{profiles_of};
ghost use Rattle.query_merge.specs.Spans.{IsSpanOf};

use profile_model::Profile;
use segment_file::Part;
use std::marker::Model;

/// The least and the greatest time of the rows that were added.
#[derive(Debug, Drop)]
pub struct Stats {
    span: Option<(u64, u64)>,
}

impl Model for Stats {
    ghost use Rattle.std.specs.Prelude.{ℕ, Option};

    ghost Value = { Option (ℕ × ℕ) };

    ghost view = { λ s. s.span };
}

impl Stats {
    /// No row was added.
    pub fn new() -> Stats
        ensures none { IsSpanOf [] result }
    {
        Stats { span: None }
    }

    /// Adds the part's rows. It takes no memory.
    pub fn add(&mut self, part: &Part)
        ensures more { (profiles : List Profile) → IsSpanOf profiles self.old → IsSpanOf (profiles ++ profiles_of part.now.rows) self.new }
    {
        let mut span = self.span;
        for row in &part.rows {
            span = Some(widened(span, &row.profile));
        }
        self.span = span;
    }

    /// In milliseconds since 1970; none exactly where no row was added.
    pub fn span(&self) -> Option<(u64, u64)>
        ensures { result ≡ self.now }
    {
        self.span
    }
}

// The span, and this profile's time with it.
fn widened(span: Option<(u64, u64)>, profile: &Profile) -> (u64, u64)
    ensures { (profiles : List Profile) → IsSpanOf profiles span → IsSpanOf (profiles ++ profile.now ∷ []) (Some result) }
{
    let time = profile.time_ms;
    match span {
        Some((oldest, newest)) => (oldest.min(time), newest.max(time)),
        None => (time, time),
    }
}
