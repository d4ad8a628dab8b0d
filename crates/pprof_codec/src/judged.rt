// A message without a fault, and what its profiles are made of.
ghost use Rattle.std.specs.Prelude.{◌≡◌, ℕ, ◌<◌, length};
ghost use Rattle.std.specs.List.{All};
ghost use Rattle.profile_model.specs.Limits.{total_bound};
ghost use Rattle.profile_model.specs.Stacks.{IsStack};
ghost use Rattle.profile_model.specs.Sums.{total_of};
ghost use Rattle.pprof_codec.specs.Frames.{stack_of, unknown_frame};
ghost use Rattle.pprof_codec.specs.Profiles.{samples_of};
ghost use Rattle.pprof_codec.specs.Checks.{first_of, judged_faults, faults_to_types, type_faults, place_faults, value_faults};
ghost use Rattle.pprof_codec.specs.Tables.{AreLocations, AreNumberedFrames, AreParts, Judges};

use crate::PprofFault;
use crate::functions::{Functions, UNKNOWN_FRAME};
use crate::locations::Locations;
use crate::parts::read_parts;
use crate::samples::first_sample_fault;
use crate::texts::{first_text_fault, period_type_fault, read_names, sample_type_fault};
use crate::totals::first_total_fault;
use faults::Refused;
use pprof_message::PprofMessage;
use profile_model::Name;
use std::alloc::Global;
use std::collections::BTreeMap;

// Each sample has a stack, and each sample type's values have a sum.
#[derive(Drop)]
pub(crate) struct Judged<'a> {
    pub(crate) message: PprofMessage<'a>,
    // The texts of the message.
    pub(crate) names: Vec<Name>,
    pub(crate) unknown: Name,
    pub(crate) locations: Locations,
    // The parts of the types, by their texts.
    pub(crate) parts: BTreeMap<Name, Name>,
    ghost cleaned: { AreParts parts.entries },
    ghost texts: { names.items ≡ message.texts },
    ghost named: { unknown ≡ unknown_frame },
    ghost located: { AreLocations message locations.ids locations.frames.items },
    ghost numbered: { AreNumberedFrames message locations.numbers.items },
    ghost stacks: { All (λ sample. IsStack (stack_of message sample)) message.samples },
    ghost totals: { (number : ℕ) → number < length message.sample_types → total_of (samples_of message number) < total_bound },
}

// Judges all but the weight, in the order of the checks.
pub(crate) fn judge(
    alloc: Global,
    message: PprofMessage<'_>,
) -> Result<Judged<'_>, Refused<PprofFault>>
    ensures { Judges result (judged_faults message.entry) (λ judged. judged.message ≡ message.entry) }
{
    let names = judge_texts(alloc, &message)?;
    let unknown = Name::from_text(alloc, UNKNOWN_FRAME)?;
    let locations = judge_locations(alloc, &message, &names, &unknown)?;
    if let Some(fault) = first_value_fault(&message, &names, &locations) {
        return Err(Refused::Fault(fault));
    }
    let parts = read_parts(alloc, &message, &names)?;
    Ok(Judged {
        message,
        names,
        unknown,
        locations,
        parts,
    })
}

// The texts, where all places of the types are among them.
fn judge_texts(alloc: Global, message: &PprofMessage) -> Result<Vec<Name>, Refused<PprofFault>>
    ensures { Judges result (faults_to_types message.now) (λ names. names.items ≡ message.now.texts) }
{
    if let Some(fault) = first_text_fault(message.texts()) {
        return Err(Refused::Fault(fault));
    }
    let names = read_names(alloc, message.texts())?;
    if let Some(fault) = first_type_fault(message, &names) {
        return Err(Refused::Fault(fault));
    }
    Ok(names)
}

fn first_type_fault(message: &PprofMessage, names: &[Name]) -> Option<PprofFault>
    ensures { result ≡ first_of (type_faults names.now message.now) }
{
    match sample_type_fault(names, message.sample_types()) {
        Some(fault) => Some(fault),
        None => period_type_fault(names, message.period_type()),
    }
}

// The frames of all locations, where the functions and they have no fault.
fn judge_locations(
    alloc: Global,
    message: &PprofMessage,
    names: &[Name],
    unknown: &Name,
) -> Result<Locations, Refused<PprofFault>>
    requires texts { names.now ≡ message.now.texts }
    requires name { unknown.now ≡ unknown_frame }
    ensures { Judges result (place_faults message.now) (λ table.
        AreLocations message.now table.ids table.frames.items × AreNumberedFrames message.now table.numbers.items) }
{
    let functions = Functions::read(alloc, names, unknown, message.functions())?;
    Locations::read(alloc, message, unknown, &functions)
}

fn first_value_fault(
    message: &PprofMessage,
    names: &[Name],
    locations: &Locations,
) -> Option<PprofFault>
    requires texts { names.now ≡ message.now.texts }
    requires locations { AreLocations message.now locations.now.ids locations.now.frames.items }
    ensures { result ≡ first_of (value_faults message.now) }
{
    match first_sample_fault(message, names, locations) {
        Some(fault) => Some(fault),
        None => first_total_fault(message),
    }
}
