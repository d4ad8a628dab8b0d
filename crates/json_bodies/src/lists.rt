// Lists of a body, read item by item. Where one says nothing the rest is passed over.
ghost use Rattle.std.specs.Prelude.{◌≡◌, ◌<◌, ◌++◌, ◌∷◌, ℕ, [], List, Option, IfOk, length, MatchResult, None, option_and_then, option_map};
ghost use Rattle.serde_json.specs.Data.{Data};
ghost use Rattle.json_bodies.specs.Fields.{as_list, as_texts, each_said};
ghost use Rattle.json_bodies.specs.Pushes.{label_in};
ghost use Rattle.json_bodies.specs.Kept.{AreSamples};
ghost use Rattle.json_bodies.specs.KeptTexts.{AreTexts, says_of};
ghost use Rattle.json_bodies.specs.Walks.{IfNoJson, Reads, ReadsItems, itemed, valued};

use crate::leaves::{read_label, read_sample, read_text};
use crate::texts::Texts;
use crate::walk::{Stop, first, opens_array, skip_rest};
use json::{Invalid, Reader};
use profile_model::Name;
use std::alloc::{AllocError, Global};

// What the items of a list of texts are.
#[derive(Clone, Copy, Drop)]
pub(crate) enum Element {
    Text,
    Sample,
}

// The texts of a list, or None where the value is none.
pub(crate) fn read_texts(
    alloc: Global,
    reader: &mut Reader<'_>,
    depth: usize,
) -> Result<Option<Texts>, Stop>
    requires { 1 < depth }
    ensures { MatchResult result
        (λ texts. Reads (λ d. as_texts d ≡ texts) depth reader.old reader.new)
        (IfNoJson (valued depth reader.old ≡ None)) }
{
    let token = first(reader)?;
    if opens_array(&token) {
        let texts = each_text(alloc, Element::Text, reader, depth - 1)?;
        Ok(texts.ok())
    } else {
        skip_rest(token, reader, depth)?;
        Ok(None)
    }
}

// The raw profiles of a list of samples, or the first sample that has none, or 0 where the value is no list.
pub(crate) fn read_samples(
    alloc: Global,
    reader: &mut Reader<'_>,
    depth: usize,
) -> Result<Result<Texts, u64>, Stop>
    requires { 1 < depth }
    ensures { MatchResult result
        (λ samples. Reads (λ d. AreSamples (as_list d) samples) depth reader.old reader.new)
        (IfNoJson (valued depth reader.old ≡ None)) }
{
    let token = first(reader)?;
    if opens_array(&token) {
        let samples = each_text(alloc, Element::Sample, reader, depth - 1)?;
        Ok(samples)
    } else {
        skip_rest(token, reader, depth)?;
        Ok(Err(0))
    }
}

// The texts that the items say, or the place of the first that says nothing.
fn each_text(
    alloc: Global,
    element: Element,
    reader: &mut Reader<'_>,
    depth: usize,
) -> Result<Result<Texts, u64>, Stop>
    requires { 0 < depth }
    ensures { MatchResult result
        (λ texts. ReadsItems (λ ds. AreTexts (says_of element) ds texts) depth reader.old reader.new)
        (IfNoJson (itemed depth (length reader.old) reader.old ≡ None)) }
{
    let mut texts = Ok(Texts::new(alloc));
    'items: while !reader.take_end_array() {
        let text = read_element(element, reader, depth)?;
        texts = with_text(alloc, texts, text)?;
    }
    Ok(texts)
}

fn read_element<'a>(
    element: Element,
    reader: &mut Reader<'a>,
    depth: usize,
) -> Result<Option<&'a str>, Invalid>
    requires { 0 < depth }
    ensures { MatchResult result
        (λ text. Reads (λ d. says_of element d ≡ option_map (λ t. t.now) text) depth reader.old reader.new)
        (λ _. valued depth reader.old ≡ None) }
{
    match element {
        Element::Text => read_text(reader, depth),
        Element::Sample => read_sample(reader, depth),
    }
}

// The same with one item more.
fn with_text(
    alloc: Global,
    texts: Result<Texts, u64>,
    text: Option<&str>,
) -> Result<Result<Texts, u64>, AllocError>
    ensures { IfOk result (λ more. (says : Data → Option (List ℕ)) (ds : List Data) (d : Data) → AreTexts says ds texts
        → says d ≡ option_map (λ t. t.now) text.entry → AreTexts says (ds ++ d ∷ []) more) }
{
    match texts {
        Ok(mut texts) => match text {
            Some(text) => {
                texts.push(alloc, text)?;
                Ok(Ok(texts))
            }
            None => Ok(Err(texts.len() as u64)),
        },
        Err(at) => Ok(Err(at)),
    }
}

// The labels of a list, or None where the value is none.
pub(crate) fn read_labels(
    alloc: Global,
    reader: &mut Reader<'_>,
    depth: usize,
) -> Result<Option<Vec<(Name, Name)>>, Stop>
    requires { 1 < depth }
    ensures { MatchResult result
        (λ labels. Reads (λ d. option_and_then (each_said label_in) (as_list d) ≡ option_map (λ l. l.items) labels)
        depth reader.old reader.new)
        (IfNoJson (valued depth reader.old ≡ None)) }
{
    let token = first(reader)?;
    if opens_array(&token) {
        let labels = each_label(alloc, reader, depth - 1)?;
        Ok(labels)
    } else {
        skip_rest(token, reader, depth)?;
        Ok(None)
    }
}

fn each_label(
    alloc: Global,
    reader: &mut Reader<'_>,
    depth: usize,
) -> Result<Option<Vec<(Name, Name)>>, Stop>
    requires { 0 < depth }
    ensures { MatchResult result
        (λ labels. ReadsItems (λ ds. each_said label_in ds ≡ option_map (λ l. l.items) labels) depth reader.old reader.new)
        (IfNoJson (itemed depth (length reader.old) reader.old ≡ None)) }
{
    let mut labels = Some(Vec::new(alloc));
    'items: while !reader.take_end_array() {
        let label = read_label(reader, depth)?;
        labels = with_label(alloc, labels, label)?;
    }
    Ok(labels)
}

fn with_label(
    alloc: Global,
    labels: Option<Vec<(Name, Name)>>,
    label: Option<(&str, &str)>,
) -> Result<Option<Vec<(Name, Name)>>, AllocError>
    ensures { IfOk result (λ more. (ds : List Data) (d : Data) → each_said label_in ds ≡ option_map (λ l. l.items) labels
        → label_in d ≡ option_map (λ l. (l.0.now, l.1.now)) label.entry
        → each_said label_in (ds ++ d ∷ []) ≡ option_map (λ l. l.items) more) }
{
    match labels {
        Some(mut labels) => match label {
            Some((name, value)) => {
                let name = Name::from_text(alloc, name)?;
                let value = Name::from_text(alloc, value)?;
                labels.push((name, value))?;
                Ok(Some(labels))
            }
            None => Ok(None),
        },
        None => Ok(None),
    }
}
