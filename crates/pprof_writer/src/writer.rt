// Sums to the bytes of a pprof.
ghost use Rattle.std.specs.Prelude.{◌≡◌, ◌≤◌, ◌<◌, ◌^◌, ◌∷◌, [], ◌++◌, IfOk, IsTrue, OnOk, length, map, reverse};
ghost use Rattle.std.specs.List.{All, enumerate_from, range_with_len};
ghost use Rattle.std.specs.List.Sorted.{IsStrictlySortedBy};
ghost use Rattle.std.specs.Map.{keys_of};
ghost use Rattle.std.specs.Str.{IsUtf8};
ghost use Rattle.wire_proto.specs.Field.{last_number};
ghost use Rattle.profile_model.specs.Stacks.{IsStack, name_cmp};
ghost use Rattle.profile_model.specs.Sums.{AreSums};
ghost use Rattle.pprof_codec.specs.declared.base.Base.{Base};
ghost use Rattle.pprof_writer.specs.Fields.{Number, Part, message, spelled};
ghost use Rattle.pprof_writer.specs.Laws.{AreReadable, CanBeReadBack, IsReadBack};
ghost use Rattle.pprof_writer.specs.Messages.{AreHeld};
ghost use Rattle.pprof_writer.specs.Tables.{frames_in, id_of, is_among, texts_of};
ghost use Rattle.pprof_writer.specs.Written.{fields_with, packed, value_type, written_function, written_location, written_pprof, written_sample};

use crate::names::{frames_in, id_of, place_of, texts_of};
use profile_model::{Name, ProfileType, Stack, StackSums};
use std::alloc::{AllocError, Global};
use wire_proto::{put_bytes, put_number, put_varint};

/// A pprof of one sample type: the sums of each stack, with the last four parts of the type.
pub fn write_pprof(
    alloc: Global,
    kind: &ProfileType,
    values: &StackSums,
) -> Result<Vec<u8>, AllocError>
    ensures bytes { IfOk result (λ bytes. bytes.items ≡ written_pprof kind.now values.now) }
    ensures held { IfOk result (λ _. AreHeld (frames_in values.now) (texts_of kind.now (frames_in values.now)) values.now) }
    ensures readable { IfOk result (λ _. (base : Base) → CanBeReadBack base kind.now values.now → AreReadable base kind.now values.now) }
    ensures read_back { IfOk result (λ bytes. (base : Base) → CanBeReadBack base kind.now values.now → IsReadBack base kind.now values.now bytes.items) }
{
    let frames = frames_in(alloc, values)?;
    let (texts, places) = texts_of(alloc, kind, &frames)?;
    let mut out = Vec::new(alloc);
    put_value_type(
        alloc,
        &mut out,
        1,
        &texts,
        &kind.sample_type,
        &kind.sample_unit,
    )?;
    put_samples(alloc, &mut out, &frames, values)?;
    put_locations(alloc, &mut out, frames.len())?;
    put_functions(alloc, &mut out, &places)?;
    put_texts(&mut out, &texts)?;
    put_value_type(
        alloc,
        &mut out,
        11,
        &texts,
        &kind.period_type,
        &kind.period_unit,
    )?;
    Ok(out)
}

// A number that isn't 0.
fn put_some(out: &mut Vec<u8>, number: u64, n: u64) -> Result<(), AllocError>
    requires not_zero { 1 ≤ number }
    requires at_most_last { number ≤ last_number }
    ensures { OnOk result (out.new.items ≡ out.old.items ++ spelled (Number number n)) }
{
    if n == 0 {
        return Ok(());
    }
    put_number(out, number, n)
}

fn put_value_type(
    alloc: Global,
    out: &mut Vec<u8>,
    number: u64,
    texts: &[Name],
    kind: &Name,
    unit: &Name,
) -> Result<(), AllocError>
    requires not_zero { 1 ≤ number }
    requires at_most_last { number ≤ last_number }
    ensures { OnOk result (out.new.items ≡ out.old.items ++ spelled (Part number (value_type texts.now kind.now unit.now))) }
{
    let mut places = Vec::new(alloc);
    put_some(&mut places, 1, place_of(texts, kind) as u64)?;
    put_some(&mut places, 2, place_of(texts, unit) as u64)?;
    put_bytes(out, number, &places)
}

// The locations of a stack, the leaf first.
fn put_ids(ids: &mut Vec<u8>, frames: &[Name], stack: &[Name]) -> Result<(), AllocError>
    requires sorted { IsStrictlySortedBy name_cmp frames.now }
    requires there { All (λ frame. IsTrue (is_among frames.now frame)) stack.now }
    ensures { OnOk result (ids.new.items ≡ ids.old.items ++ packed (map (id_of frames.now) (reverse stack.now))) }
{
    for frame in stack.iter().rev() {
        put_varint(ids, id_of(frames, frame))?;
    }
    Ok(())
}

// The first two are cleared: what they held is of other samples.
fn put_sample(
    numbers: &mut Vec<u8>,
    sample: &mut Vec<u8>,
    out: &mut Vec<u8>,
    frames: &[Name],
    stack: &Stack,
    value: u64,
) -> Result<(), AllocError>
    requires sorted { IsStrictlySortedBy name_cmp frames.now }
    requires there { All (λ frame. IsTrue (is_among frames.now frame)) stack.now }
    ensures written { OnOk result (out.new.items ≡ out.old.items ++ spelled (Part 2 (written_sample frames.now (stack.now, value)))) }
    ensures limits { OnOk result (IsStack stack.now) }
{
    numbers.clear();
    put_ids(numbers, frames, stack.frames())?;
    sample.clear();
    put_bytes(sample, 1, numbers)?;
    numbers.clear();
    put_varint(numbers, value)?;
    put_bytes(sample, 2, numbers)?;
    put_bytes(out, 2, sample)
}

fn put_samples(
    alloc: Global,
    out: &mut Vec<u8>,
    frames: &[Name],
    values: &StackSums,
) -> Result<(), AllocError>
    requires sorted { IsStrictlySortedBy name_cmp frames.now }
    requires there { All (λ sample. All (λ frame. IsTrue (is_among frames.now frame)) sample.0) values.now }
    ensures written { OnOk result (out.new.items ≡ out.old.items ++ message (fields_with 2 (written_sample frames.now) values.now)) }
    ensures sums { OnOk result (AreSums values.now) }
    ensures stacks { OnOk result (All IsStack (keys_of values.now)) }
{
    let mut numbers = Vec::new(alloc);
    let mut sample = Vec::new(alloc);
    for (stack, value) in values.iter() {
        put_sample(&mut numbers, &mut sample, out, frames, stack, *value)?;
    }
    Ok(())
}

// Both are cleared: what they held is of other locations.
fn put_location(
    line: &mut Vec<u8>,
    location: &mut Vec<u8>,
    out: &mut Vec<u8>,
    id: u64,
) -> Result<(), AllocError>
    ensures { OnOk result (out.new.items ≡ out.old.items ++ spelled (Part 4 (written_location id))) }
{
    line.clear();
    put_some(line, 1, id)?;
    location.clear();
    put_some(location, 1, id)?;
    put_bytes(location, 4, line)?;
    put_bytes(out, 4, location)
}

fn put_locations(alloc: Global, out: &mut Vec<u8>, count: usize) -> Result<(), AllocError>
    ensures { OnOk result (out.new.items ≡ out.old.items ++ message (fields_with 4 written_location (range_with_len 1 count))) }
{
    let mut line = Vec::new(alloc);
    let mut location = Vec::new(alloc);
    for at in 0..count {
        put_location(&mut line, &mut location, out, at as u64 + 1)?;
    }
    Ok(())
}

fn put_functions(alloc: Global, out: &mut Vec<u8>, places: &[u64]) -> Result<(), AllocError>
    ensures { OnOk result (out.new.items ≡ out.old.items ++ message (fields_with 5 written_function (enumerate_from 1 places.now))) }
{
    let mut function = Vec::new(alloc);
    for (at, place) in places.iter().enumerate() {
        put_function(&mut function, out, at as u64 + 1, *place)?;
    }
    Ok(())
}

// The first is cleared: what it held is of another function.
fn put_function(
    function: &mut Vec<u8>,
    out: &mut Vec<u8>,
    id: u64,
    place: u64,
) -> Result<(), AllocError>
    ensures { OnOk result (out.new.items ≡ out.old.items ++ spelled (Part 5 (written_function (id, place)))) }
{
    function.clear();
    put_some(function, 1, id)?;
    put_some(function, 2, place)?;
    put_bytes(out, 5, function)
}

fn put_texts(out: &mut Vec<u8>, texts: &[Name]) -> Result<(), AllocError>
    ensures written { OnOk result (out.new.items ≡ out.old.items ++ message (fields_with 6 (λ text. text) texts.now)) }
    ensures utf8 { OnOk result (All IsUtf8 texts.now) }
    ensures short { OnOk result (All (λ text. length text < 2 ^ 64) texts.now) }
{
    for text in texts {
        put_bytes(out, 6, text.as_bytes())?;
    }
    Ok(())
}
