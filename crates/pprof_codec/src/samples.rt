// The samples of a profile, judged.
ghost use Rattle.std.specs.Prelude.{◌≡◌, ◌+◌, length, min, is_some, position, IfSome};
ghost use Rattle.std.specs.List.{flat_map, list_all};
ghost use Rattle.profile_model.specs.Limits.{most_frames};
ghost use Rattle.pprof_message.specs.Gathered.{sample_in};
ghost use Rattle.pprof_message.specs.Pprof.{Pprof};
ghost use Rattle.pprof_codec.specs.Frames.{frames_at};
ghost use Rattle.pprof_codec.specs.Checks.{faults_of_each, faults_of_sample, faults_of_value, first_of, has_label_texts, is_negative, sample_faults};
ghost use Rattle.pprof_codec.specs.Tables.{AreLocations, found_in};

use crate::locations::Locations;
use crate::texts::has_label_texts;
use crate::{Member, PprofFault};
use pprof_message::{Label, PprofMessage, SampleRef};
use profile_model::{MAX_FRAMES, Name};

pub(crate) fn first_sample_fault(
    message: &PprofMessage,
    names: &[Name],
    locations: &Locations,
) -> Option<PprofFault>
    requires texts { names.now ≡ message.now.texts }
    requires locations { AreLocations message.now locations.now.ids locations.now.frames.items }
    ensures { result ≡ first_of (sample_faults message.now) }
{
    let kinds = message.sample_types().len();
    for number in 0..message.samples() {
        let sample = message.sample(number);
        if let Some(fault) = sample_fault(names, locations, kinds, number as u64, &sample) {
            return Some(fault);
        }
    }
    None
}

// The first fault of a sample, where there are so many sample types.
fn sample_fault(
    names: &[Name],
    locations: &Locations,
    kinds: usize,
    number: u64,
    sample: &SampleRef,
) -> Option<PprofFault>
    ensures { (pprof : Pprof) → names.now ≡ pprof.texts → kinds ≡ length pprof.sample_types →
        AreLocations pprof locations.now.ids locations.now.frames.items →
        result ≡ first_of (faults_of_sample pprof number (sample_in sample.now)) }
{
    if sample.values.len() != kinds {
        return Some(PprofFault::WrongValueCount { sample: number });
    }
    let Some(depth) = depth_of(locations, sample.location_ids) else {
        return Some(PprofFault::NoSuchLocation { sample: number });
    };
    if depth > MAX_FRAMES {
        return Some(PprofFault::TooDeep { sample: number });
    }
    if !has_all_texts(names, sample.labels) {
        return Some(PprofFault::NoSuchText {
            member: Member::Sample,
            number,
        });
    }
    negative_value(sample.values, number)
}

fn has_all_texts(names: &[Name], labels: &[Label]) -> bool
    ensures { result ≡ list_all (has_label_texts names.now) labels.now }
{
    labels.iter().all(|label| has_label_texts(names, label))
}

// How many frames these locations have together, and `MAX_FRAMES + 1` for more than a stack may have.
// None where an id is no location's.
fn depth_of(locations: &Locations, ids: &[u64]) -> Option<usize>
    ensures known { is_some result ≡ list_all (λ id. is_some (found_in locations.now.ids locations.now.frames.items id)) ids.now }
    ensures depth { (pprof : Pprof) → AreLocations pprof locations.now.ids locations.now.frames.items →
        IfSome result (λ depth. depth ≡ min (length (flat_map (frames_at pprof) ids.now)) (most_frames + 1)) }
{
    let mut depth = 0;
    for id in ids {
        let frames = locations.frames(*id)?;
        depth = frames.len().saturating_add(depth).min(MAX_FRAMES + 1);
    }
    Some(depth)
}

fn negative_value(values: &[i64], number: u64) -> Option<PprofFault>
    ensures { result ≡ first_of (faults_of_each (faults_of_value number) values.now) }
{
    match negative_place(values) {
        Some(at) => Some(PprofFault::NegativeValue {
            sample: number,
            value: at as u64,
        }),
        None => None,
    }
}

fn negative_place(values: &[i64]) -> Option<usize>
    ensures { result ≡ position is_negative values.now }
{
    values.iter().position(|value| is_negative(*value))
}

fn is_negative(value: i64) -> bool
    ensures { result ≡ is_negative value }
{
    value < 0
}
