// What the query methods that list labels are asked.
ghost use Rattle.std.specs.Prelude.{MatchResult};
ghost use Rattle.faults.specs.Answers.{IfFault};

use crate::fields::{FieldFault, end_of};
use crate::object::JsonObject;
use faults::Refused;
use std::alloc::Global;

/// The names of the labels in a window.
#[derive(Debug, Drop)]
pub struct LabelNamesBody<'v> {
    /// Texts of selectors. Where there are none, every profile counts.
    pub matchers: Vec<&'v str>,
    /// Milliseconds since 1970, as all times here. The window is closed at both ends.
    pub start_ms: u64,
    pub end_ms: u64,
}

/// The values of one label in a window.
#[derive(Debug, Drop)]
pub struct LabelValuesBody<'v> {
    pub name: &'v str,
    pub matchers: Vec<&'v str>,
    pub start_ms: u64,
    pub end_ms: u64,
}

/// The label sets in a window.
#[derive(Debug, Drop)]
pub struct SeriesBody<'v> {
    pub matchers: Vec<&'v str>,
    /// The labels that a set is cut to. Where there are none, it stays whole.
    pub label_names: Vec<&'v str>,
    pub start_ms: u64,
    pub end_ms: u64,
}

impl<'v> LabelNamesBody<'v> {
    ghost use Rattle.json_bodies.specs.FieldFaults.{IsFirstWrong};
    ghost use Rattle.json_bodies.specs.Queries.{IsLabelNames, label_names_kinds};

    /// The query of an object: `matchers`, `start` and `end`. An absent list is empty, and an absent number 0.
    pub fn of(
        alloc: Global,
        object: &'v JsonObject<'_>,
    ) -> Result<LabelNamesBody<'v>, Refused<FieldFault>>
        ensures read { MatchResult result
            (IsLabelNames object.now) (IfFault (IsFirstWrong (label_names_kinds object.now))) }
    {
        Ok(LabelNamesBody {
            matchers: object.matchers(alloc, 0)?,
            start_ms: object.start(1)?,
            end_ms: end_of(object.end(2)?),
        })
    }
}

impl<'v> LabelValuesBody<'v> {
    ghost use Rattle.json_bodies.specs.FieldFaults.{IsFirstWrong};
    ghost use Rattle.json_bodies.specs.Queries.{IsLabelValues, label_values_kinds};

    /// The query of an object: `name`, `matchers`, `start` and `end`. An absent name is empty.
    pub fn of(
        alloc: Global,
        object: &'v JsonObject<'_>,
    ) -> Result<LabelValuesBody<'v>, Refused<FieldFault>>
        ensures read { MatchResult result
            (IsLabelValues object.now) (IfFault (IsFirstWrong (label_values_kinds object.now))) }
    {
        Ok(LabelValuesBody {
            name: object.name(0)?,
            matchers: object.matchers(alloc, 1)?,
            start_ms: object.start(2)?,
            end_ms: end_of(object.end(3)?),
        })
    }
}

impl<'v> SeriesBody<'v> {
    ghost use Rattle.json_bodies.specs.FieldFaults.{IsFirstWrong};
    ghost use Rattle.json_bodies.specs.Queries.{IsSeries, series_kinds};

    /// The query of an object: `matchers`, `labelNames`, `start` and `end`.
    pub fn of(
        alloc: Global,
        object: &'v JsonObject<'_>,
    ) -> Result<SeriesBody<'v>, Refused<FieldFault>>
        ensures read { MatchResult result (IsSeries object.now) (IfFault (IsFirstWrong (series_kinds object.now))) }
    {
        Ok(SeriesBody {
            matchers: object.matchers(alloc, 0)?,
            label_names: object.label_names(alloc, 1)?,
            start_ms: object.start(2)?,
            end_ms: end_of(object.end(3)?),
        })
    }
}
