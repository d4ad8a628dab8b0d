// The parts of types by their texts: each text is cleaned once, however many types name it.
ghost use Rattle.std.specs.Prelude.{◌≡◌, IfOk, OnOk};
ghost use Rattle.profile_model.specs.CleanedTexts.{cleaned};
ghost use Rattle.profile_model.specs.Kinds.{IsPart};
ghost use Rattle.pprof_codec.specs.Members.{text_at};
ghost use Rattle.pprof_codec.specs.Tables.{AreParts};

use crate::texts::text_at;
use pprof_message::PprofMessage;
use profile_model::{MAX_PROFILES, Name};
use std::alloc::{AllocError, Global};
use std::collections::BTreeMap;

// The parts that all types have. Where there are too many types, none is made.
pub(crate) fn read_parts(
    alloc: Global,
    message: &PprofMessage,
    names: &[Name],
) -> Result<BTreeMap<Name, Name>, AllocError>
    ensures { IfOk result (λ parts. AreParts parts.entries) }
{
    let mut parts = BTreeMap::new(alloc);
    let kinds = message.sample_types();
    if kinds.len() > MAX_PROFILES {
        return Ok(parts);
    }
    let period = message.period_type();
    add_part(alloc, names, &mut parts, period.kind)?;
    add_part(alloc, names, &mut parts, period.unit)?;
    for kind in kinds {
        add_part(alloc, names, &mut parts, kind.kind)?;
        add_part(alloc, names, &mut parts, kind.unit)?;
    }
    Ok(parts)
}

// The text at this place, cleaned, where it isn't there yet.
fn add_part(
    alloc: Global,
    names: &[Name],
    parts: &mut BTreeMap<Name, Name>,
    place: i64,
) -> Result<(), AllocError>
    requires { AreParts parts.old.entries }
    ensures { OnOk result (AreParts parts.new.entries) }
{
    let Some(text) = text_at(names, place) else {
        return Ok(());
    };
    if parts.get(text).is_some() {
        return Ok(());
    }
    let part = Name::cleaned(alloc, text.as_str())?;
    parts.insert(text.clone()?, part)?;
    Ok(())
}

// The text at this place, cleaned: shared where it is among the parts.
pub(crate) fn cleaned_text(
    alloc: Global,
    names: &[Name],
    parts: &BTreeMap<Name, Name>,
    place: i64,
) -> Result<Name, AllocError>
    requires { AreParts parts.now.entries }
    ensures value { IfOk result (λ text. text ≡ cleaned (text_at names.now place)) }
    ensures part { IfOk result IsPart }
{
    let Some(text) = text_at(names, place) else {
        return Name::cleaned(alloc, "");
    };
    match parts.get(text) {
        Some(part) => part.clone(),
        None => Name::cleaned(alloc, text.as_str()),
    }
}
