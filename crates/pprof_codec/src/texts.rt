// The texts of a profile, and the places that name them.
ghost use Rattle.std.specs.Prelude.{◌≡◌, ◌<◌, [], length, map, not, position, MatchOption};
ghost use Rattle.pprof_codec.specs.Members.{has_text, text_at};
ghost use Rattle.pprof_codec.specs.Checks.{begins_empty, first_of, faults_of_text, has_texts, has_label_texts, has_names, first_text_faults, text_faults, sample_type_faults, period_type_faults};
ghost use Rattle.pprof_codec.specs.Tables.{Judges};

use crate::{Member, PprofFault};
use faults::Refused;
use pprof_message::{Function, Label, ValueType};
use profile_model::{Name, NameFault};
use std::alloc::Global;

pub(crate) fn first_text_fault(texts: &[&[u8]]) -> Option<PprofFault>
    ensures { result ≡ first_of (first_text_faults (map (λ text. text.now) texts.now)) }
{
    if begins_empty(texts) {
        return None;
    }
    Some(PprofFault::NoEmptyText)
}

fn begins_empty(texts: &[&[u8]]) -> bool
    ensures { result ≡ begins_empty (map (λ text. text.now) texts.now) }
{
    match texts {
        [first, ..] => first.is_empty(),
        [] => false,
    }
}

// Each text as a name, so that no frame copies its bytes again.
pub(crate) fn read_names(alloc: Global, texts: &[&[u8]]) -> Result<Vec<Name>, Refused<PprofFault>>
    ensures { let bytes = map (λ text. text.now) texts.now in Judges result (text_faults bytes) (λ names. names.items ≡ bytes) }
{
    let mut names = Vec::with_capacity(alloc, texts.len())?;
    for (number, text) in texts.iter().enumerate() {
        let name = read_name(alloc, text, number as u64)?;
        names.push(name)?;
    }
    Ok(names)
}

fn read_name(alloc: Global, text: &[u8], number: u64) -> Result<Name, Refused<PprofFault>>
    ensures { Judges result (faults_of_text number text.now) (λ name. name ≡ text.now) }
{
    match Name::read(alloc, text) {
        Ok(name) => Ok(name),
        Err(Refused::Fault(NameFault::NotUtf8(_))) => {
            Err(Refused::Fault(PprofFault::NotUtf8 { text: number }))
        }
        Err(Refused::Memory) => Err(Refused::Memory),
    }
}

pub(crate) fn sample_type_fault(names: &[Name], kinds: &[ValueType]) -> Option<PprofFault>
    ensures { result ≡ first_of (sample_type_faults names.now kinds.now) }
{
    match kind_without_texts(names, kinds) {
        Some(number) => Some(PprofFault::NoSuchText {
            member: Member::SampleType,
            number: number as u64,
        }),
        None => None,
    }
}

fn kind_without_texts(names: &[Name], kinds: &[ValueType]) -> Option<usize>
    ensures { result ≡ position (λ kind. not (has_texts names.now kind)) kinds.now }
{
    kinds.iter().position(|kind| !has_texts(names, kind))
}

pub(crate) fn period_type_fault(names: &[Name], kind: ValueType) -> Option<PprofFault>
    ensures { result ≡ first_of (period_type_faults names.now kind) }
{
    if has_texts(names, &kind) {
        return None;
    }
    Some(PprofFault::NoSuchText {
        member: Member::PeriodType,
        number: 0,
    })
}

fn has_texts(names: &[Name], kind: &ValueType) -> bool
    ensures { result ≡ has_texts names.now kind.now }
{
    has_text(names, kind.kind) && has_text(names, kind.unit)
}

pub(crate) fn has_label_texts(names: &[Name], label: &Label) -> bool
    ensures { result ≡ has_label_texts names.now label.now }
{
    has_text(names, label.key) && has_text(names, label.text) && has_text(names, label.num_unit)
}

pub(crate) fn has_names(names: &[Name], function: &Function) -> bool
    ensures { result ≡ has_names names.now function.now }
{
    has_text(names, function.name) && has_text(names, function.system_name)
}

fn has_text(names: &[Name], place: i64) -> bool
    ensures { result ≡ has_text names.now place }
{
    place >= 0 && (place as u64) < names.len() as u64
}

// The text at this place, where it is there.
pub(crate) fn text_at(names: &[Name], place: i64) -> Option<&Name>
    ensures { MatchOption result (text_at names.now place ≡ []) (λ name. name.now ≡ text_at names.now place) }
{
    if place < 0 {
        return None;
    }
    names.get(place as usize)
}
