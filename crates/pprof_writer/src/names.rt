// The frames and the texts that a pprof names by numbers.
ghost use Rattle.std.specs.Prelude.{◌≡◌, ◌≤◌, IfOk, IsTrue, OnOk, fold, length, map, take};
ghost use Rattle.std.specs.BTreeSet.{insert_key};
ghost use Rattle.std.specs.List.Sorted.{IsStrictlySortedBy};
ghost use Rattle.profile_model.specs.Stacks.{name_cmp};
ghost use Rattle.pprof_writer.specs.Tables.{frames_in, id_of, is_among, place_of, texts_of, type_texts, with_text};

use profile_model::{Name, ProfileType, StackSums};
use std::alloc::{AllocError, Global};
use std::collections::BTreeSet;

// The frames of all stacks, ascending, each once.
pub(crate) fn frames_in(alloc: Global, values: &StackSums) -> Result<Vec<Name>, AllocError>
    ensures frames { IfOk result (λ frames. frames.items ≡ frames_in values.now) }
    ensures sorted { IfOk result (λ frames. IsStrictlySortedBy name_cmp frames.items) }
{
    let mut frames = BTreeSet::new(alloc);
    for (stack, _value) in values.iter() {
        add_frames(&mut frames, stack.frames())?;
    }
    frames.into_iter().collect(alloc)
}

fn add_frames(frames: &mut BTreeSet<Name>, stack: &[Name]) -> Result<(), AllocError>
    ensures { OnOk result (frames.new.keys ≡ fold (insert_key name_cmp) frames.old.keys stack.now) }
{
    for frame in stack {
        frames.insert(frame.clone()?)?;
    }
    Ok(())
}

// The number of the frame's location, and of its function.
pub(crate) fn id_of(frames: &[Name], frame: &Name) -> u64
    requires sorted { IsStrictlySortedBy name_cmp frames.now }
    requires there { IsTrue (is_among frames.now frame.now) }
    ensures { result ≡ id_of frames.now frame.now }
{
    match frames.binary_search(frame) {
        Ok(at) => at as u64 + 1,
        Err(_) => unreachable!(),
    }
}

// How many texts stand before this one.
pub(crate) fn place_of(texts: &[Name], text: &Name) -> usize
    ensures { result ≡ place_of texts.now text.now }
{
    texts.iter().take_while(|other| *other != text).count()
}

// Adds a text unless it is there, and gives its place. It is looked for among the first texts alone.
fn add_text(texts: &mut Vec<Name>, first: usize, text: &Name) -> Result<u64, AllocError>
    requires first { first ≤ length texts.old.items }
    requires others { is_among texts.old.items text.now ≡ is_among (take first texts.old.items) text.now }
    ensures texts { OnOk result (texts.new.items ≡ with_text texts.old.items text.now) }
    ensures place { IfOk result (λ place. place ≡ place_of (with_text texts.old.items text.now) text.now) }
{
    let at = place_of(&texts[..first], text);
    if at < first {
        return Ok(at as u64);
    }
    let at = texts.len();
    texts.push(text.clone()?)?;
    Ok(at as u64)
}

// The empty text and the parts of a type, each once.
fn type_texts(alloc: Global, kind: &ProfileType) -> Result<Vec<Name>, AllocError>
    ensures { IfOk result (λ texts. texts.items ≡ type_texts kind.now) }
{
    let mut texts = Vec::with_capacity(alloc, 5)?;
    texts.push(Name::from_text(alloc, "")?)?;
    add_part(&mut texts, &kind.sample_type)?;
    add_part(&mut texts, &kind.sample_unit)?;
    add_part(&mut texts, &kind.period_type)?;
    add_part(&mut texts, &kind.period_unit)?;
    Ok(texts)
}

fn add_part(texts: &mut Vec<Name>, part: &Name) -> Result<(), AllocError>
    ensures { OnOk result (texts.new.items ≡ with_text texts.old.items part.now) }
{
    let all = texts.len();
    add_text(texts, all, part)?;
    Ok(())
}

// All texts, and the places of the frames among them.
pub(crate) fn texts_of(
    alloc: Global,
    kind: &ProfileType,
    frames: &[Name],
) -> Result<(Vec<Name>, Vec<u64>), AllocError>
    requires { IsStrictlySortedBy name_cmp frames.now }
    ensures texts { IfOk result (λ parts. parts.0.items ≡ texts_of kind.now frames.now) }
    ensures places { IfOk result (λ parts. parts.1.items ≡ map (place_of (texts_of kind.now frames.now)) frames.now) }
{
    let mut texts = type_texts(alloc, kind)?;
    let first = texts.len();
    let mut places = Vec::with_capacity(alloc, frames.len())?;
    for frame in frames {
        places.push(add_text(&mut texts, first, frame)?)?;
    }
    Ok((texts, places))
}
