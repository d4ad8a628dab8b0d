// The bytes of an object.
ghost use Rattle.std.specs.Prelude.{◌≡◌, ◌++◌, IfOk, OnOk};
ghost use Rattle.std.specs.Int.{bytes_high_first};
ghost use Rattle.std.specs.List.{All, flat_map};
ghost use Rattle.std.specs.Map.{keys_of, values_of};
ghost use Rattle.std.specs.Str.{IsUtf8};
ghost use Rattle.profile_model.specs.LabelSets.{AreLabels};
ghost use Rattle.profile_model.specs.ReadKinds.{parts_in};
ghost use Rattle.profile_model.specs.Stacks.{IsStack};
ghost use Rattle.profile_model.specs.Sums.{AreSums};
ghost use Rattle.segment_file.specs.Bytes.{kind_bytes, label_bytes, labels_bytes, profile_bytes, profiles_bytes, push_bytes, sample_bytes, stack_bytes, text_bytes, values_bytes};
ghost use Rattle.segment_file.specs.Decoded.{Spells};
ghost use Rattle.segment_file.specs.Objects.{IsProfile, IsPush};

use crate::Object;
use crate::length::pushes_length;
use profile_model::{LabelSet, Name, Profile, ProfileType, Push, Stack, StackSums};
use std::alloc::{AllocError, Global};

// The first four bytes of each object.
const MARK: &[u8; 4] = b"PYO0";

impl Object {
    /// The object's one spelling. Its length is summed up first, so memory is asked for once.
    pub fn encode(&self, alloc: Global) -> Result<Vec<u8>, AllocError>
        ensures { IfOk result (λ bytes. Spells bytes.items self.now) }
    {
        let pushes = self.pushes();
        let length = pushes_length(pushes).saturating_add(20);
        let mut bytes = Vec::with_capacity(alloc, length)?;
        bytes.extend_from_slice(MARK)?;
        put_number(&mut bytes, self.lo())?;
        put_number(&mut bytes, self.hi())?;
        put_pushes(&mut bytes, pushes)?;
        Ok(bytes)
    }
}

pub(crate) fn put_pushes(out: &mut Vec<u8>, pushes: &[Push]) -> Result<(), AllocError>
    ensures bytes { OnOk result (out.new.items ≡ out.old.items ++ flat_map push_bytes pushes.now) }
    ensures rules { OnOk result (All IsPush pushes.now) }
{
    for push in pushes {
        put_push(out, push)?;
    }
    Ok(())
}

// In four bytes: an object's counts and lengths have room in them.
fn put_count(out: &mut Vec<u8>, count: usize) -> Result<(), AllocError>
    ensures { OnOk result (out.new.items ≡ out.old.items ++ bytes_high_first 4 count) }
{
    out.extend_from_slice(&(count as u64).to_be_bytes()[4..])
}

fn put_number(out: &mut Vec<u8>, number: u64) -> Result<(), AllocError>
    ensures { OnOk result (out.new.items ≡ out.old.items ++ bytes_high_first 8 number) }
{
    out.extend_from_slice(&number.to_be_bytes())
}

fn put_bytes(out: &mut Vec<u8>, text: &[u8]) -> Result<(), AllocError>
    ensures { OnOk result (out.new.items ≡ out.old.items ++ text_bytes text.now) }
{
    put_count(out, text.len())?;
    out.extend_from_slice(text)
}

fn put_text(out: &mut Vec<u8>, text: &Name) -> Result<(), AllocError>
    ensures bytes { OnOk result (out.new.items ≡ out.old.items ++ text_bytes text.now) }
    ensures utf8 { IsUtf8 text.now }
{
    put_bytes(out, text.as_bytes())
}

fn put_label(out: &mut Vec<u8>, label: &(Name, Name)) -> Result<(), AllocError>
    ensures bytes { OnOk result (out.new.items ≡ out.old.items ++ label_bytes label.now) }
    ensures name { OnOk result (IsUtf8 label.now.0) }
    ensures value { OnOk result (IsUtf8 label.now.1) }
{
    put_text(out, &label.0)?;
    put_text(out, &label.1)
}

fn put_labels(out: &mut Vec<u8>, labels: &LabelSet) -> Result<(), AllocError>
    ensures bytes { OnOk result (out.new.items ≡ out.old.items ++ labels_bytes labels.now) }
    ensures ascending { AreLabels labels.now }
    ensures names { OnOk result (All IsUtf8 (keys_of labels.now)) }
    ensures values { OnOk result (All IsUtf8 (values_of labels.now)) }
{
    let pairs = labels.pairs();
    put_count(out, pairs.len())?;
    for label in pairs {
        put_label(out, label)?;
    }
    Ok(())
}

fn put_kind(out: &mut Vec<u8>, kind: &ProfileType) -> Result<(), AllocError>
    ensures bytes { OnOk result (out.new.items ≡ out.old.items ++ kind_bytes kind.now) }
    ensures parts { OnOk result (All IsUtf8 (parts_in kind.now)) }
{
    put_text(out, &kind.name)?;
    put_text(out, &kind.sample_type)?;
    put_text(out, &kind.sample_unit)?;
    put_text(out, &kind.period_type)?;
    put_text(out, &kind.period_unit)
}

fn put_stack(out: &mut Vec<u8>, stack: &Stack) -> Result<(), AllocError>
    ensures bytes { OnOk result (out.new.items ≡ out.old.items ++ stack_bytes stack.now) }
    ensures limits { IsStack stack.now }
    ensures frames { OnOk result (All IsUtf8 stack.now) }
{
    let frames = stack.frames();
    put_count(out, frames.len())?;
    for frame in frames {
        put_text(out, frame)?;
    }
    Ok(())
}

fn put_sample(out: &mut Vec<u8>, stack: &Stack, value: u64) -> Result<(), AllocError>
    ensures bytes { OnOk result (out.new.items ≡ out.old.items ++ sample_bytes (stack.now, value)) }
    ensures limits { IsStack stack.now }
    ensures frames { OnOk result (All IsUtf8 stack.now) }
{
    put_stack(out, stack)?;
    put_number(out, value)
}

fn put_values(out: &mut Vec<u8>, values: &StackSums) -> Result<(), AllocError>
    ensures bytes { OnOk result (out.new.items ≡ out.old.items ++ values_bytes values.now) }
    ensures sums { OnOk result (AreSums values.now) }
    ensures stacks { OnOk result (All IsStack (keys_of values.now)) }
    ensures frames { OnOk result (All (All IsUtf8) (keys_of values.now)) }
{
    put_count(out, values.len())?;
    for (stack, value) in values.iter() {
        put_sample(out, stack, *value)?;
    }
    Ok(())
}

fn put_profile(out: &mut Vec<u8>, profile: &Profile) -> Result<(), AllocError>
    ensures bytes { OnOk result (out.new.items ≡ out.old.items ++ profile_bytes profile.now) }
    ensures rules { OnOk result (IsProfile profile.now) }
{
    put_labels(out, &profile.labels)?;
    put_kind(out, &profile.kind)?;
    put_number(out, profile.time_ms)?;
    put_values(out, &profile.values)
}

fn put_profiles(out: &mut Vec<u8>, profiles: &[Profile]) -> Result<(), AllocError>
    ensures bytes { OnOk result (out.new.items ≡ out.old.items ++ profiles_bytes profiles.now) }
    ensures rules { OnOk result (All IsProfile profiles.now) }
{
    put_count(out, profiles.len())?;
    for profile in profiles {
        put_profile(out, profile)?;
    }
    Ok(())
}

fn put_push(out: &mut Vec<u8>, push: &Push) -> Result<(), AllocError>
    ensures bytes { OnOk result (out.new.items ≡ out.old.items ++ push_bytes push.now) }
    ensures rules { OnOk result (IsPush push.now) }
{
    put_bytes(out, push.tenant.as_bytes())?;
    put_profiles(out, push.profiles.as_slice())
}
