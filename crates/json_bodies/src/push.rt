// What a push of raw profiles says.
ghost use Rattle.std.specs.Prelude.{◌≡◌, IfOk, map, MatchResult, Some};
ghost use Rattle.faults.specs.Answers.{IfFault};
ghost use Rattle.json_bodies.specs.KeptSeries.{kept_of};
ghost use Rattle.json_bodies.specs.PushRead.{series_of};

use crate::object::JsonObject;
use crate::series::Series;
use faults::Refused;
use profile_model::Name;
use std::alloc::{AllocError, Global};
use std::error::Error;
use std::fmt;

/// The series of a push, in their order.
#[derive(Debug, Drop)]
pub struct PushBody<'v> {
    pub series: Vec<PushedSeries<'v>>,
}

/// Labels, and the profiles that have them.
#[derive(Debug, Drop)]
pub struct PushedSeries<'v> {
    /// Names and values as they were sent: in any order, and a name maybe twice.
    pub labels: Vec<(Name, Name)>,
    /// The text of each sample's raw profile.
    pub raw_profiles: Vec<&'v str>,
}

/// Why an object is no push.
#[derive(Clone, Copy, Debug, PartialEq, Eq)]
pub enum ShapeFault {
    /// The first place whose shape is another. For `series` itself both numbers are 0, and for a series that is no
    /// object or for its labels and samples as a whole `sample` is 0.
    Wrong { series: u64, sample: u64 },
}

impl fmt::Display for ShapeFault {
    fn fmt<W: fmt::Write>(&self, f: &mut fmt::Formatter<W>) -> fmt::Result {
        match self {
            ShapeFault::Wrong { series, sample } => {
                write!(f, "another shape at series {series}, sample {sample}")
            }
        }
    }
}

impl Error for ShapeFault {}

impl<'v> PushBody<'v> {
    ghost use Rattle.json_bodies.specs.Pushes.{push_in};
    ghost use Rattle.json_bodies.specs.PushFaults.{IsShapeFault};

    /// The push that an object is: `series`, a list that may be absent, of objects. Each has `labels`, objects with the
    /// texts `name` and `value`, and `samples`, objects with a text `rawProfile`. Other keys are ignored.
    pub fn of(
        alloc: Global,
        object: &'v JsonObject<'_>,
    ) -> Result<PushBody<'v>, Refused<ShapeFault>>
        ensures read { MatchResult result
            (λ push. push_in object.now ≡ Some (map series_of push.series.items)) (IfFault (IsShapeFault object.now)) }
    {
        match &object.fields.series {
            Ok(all) => Ok(PushBody {
                series: all_pushed(alloc, all)?,
            }),
            Err(fault) => Err(Refused::Fault(*fault)),
        }
    }
}

fn all_pushed<'v>(alloc: Global, all: &'v [Series]) -> Result<Vec<PushedSeries<'v>>, AllocError>
    ensures { IfOk result (λ pushed. map series_of pushed.items ≡ map kept_of all.now) }
{
    let mut pushed = Vec::with_capacity(alloc, all.len())?;
    for series in all {
        let one = pushed_series(alloc, series)?;
        pushed.push(one)?;
    }
    Ok(pushed)
}

fn pushed_series<'v>(alloc: Global, series: &'v Series) -> Result<PushedSeries<'v>, AllocError>
    ensures { IfOk result (λ pushed. series_of pushed ≡ kept_of series.now) }
{
    let labels = copied_labels(alloc, &series.labels)?;
    let raw_profiles = series.raw_profiles.to_slices(alloc)?;
    Ok(PushedSeries {
        labels,
        raw_profiles,
    })
}

// The texts of the names are shared.
fn copied_labels(alloc: Global, labels: &[(Name, Name)]) -> Result<Vec<(Name, Name)>, AllocError>
    ensures { IfOk result (λ copied. copied.items ≡ labels.now) }
{
    let mut copied = Vec::with_capacity(alloc, labels.len())?;
    for (name, value) in labels {
        let name = name.clone()?;
        let value = value.clone()?;
        copied.push((name, value))?;
    }
    Ok(copied)
}
