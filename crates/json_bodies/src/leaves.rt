// The smallest parts of a body, of which nothing is copied: texts, numbers, labels and samples.
ghost use Rattle.std.specs.Prelude.{◌≡◌, ◌<◌, length, MatchResult, None, option_map};
ghost use Rattle.serde_json.specs.Data.{Members, no_members, put};
ghost use Rattle.serde_json.specs.Find.{as_str};
ghost use Rattle.json_bodies.specs.Fields.{as_number_or_text};
ghost use Rattle.json_bodies.specs.Pushes.{label_in, raw_profile_in};
ghost use Rattle.json_bodies.specs.Kept.{AreLabelTexts, IsSampleText, label_from};
ghost use Rattle.json_bodies.specs.Walks.{Reads, ReadsMembers, membered, valued};

use crate::number::{number_of_text, whole_number};
use crate::walk::{first, is_key, number_text, opens_object, skip, skip_rest, text_of};
use json::{Invalid, Reader};

// A text, or None where the value is another one.
pub(crate) fn read_text<'a>(
    reader: &mut Reader<'a>,
    depth: usize,
) -> Result<Option<&'a str>, Invalid>
    ensures { MatchResult result
        (λ text. Reads (λ d. as_str d ≡ option_map (λ t. t.now) text) depth reader.old reader.new)
        (λ _. valued depth reader.old ≡ None) }
{
    let token = first(reader)?;
    match text_of(&token) {
        Some(text) => Ok(Some(text)),
        None => {
            skip_rest(token, reader, depth)?;
            Ok(None)
        }
    }
}

// A number of 64 bits or the text of one, or None where the value is another one.
pub(crate) fn read_number(reader: &mut Reader<'_>, depth: usize) -> Result<Option<u64>, Invalid>
    ensures { MatchResult result
        (λ number. Reads (λ d. as_number_or_text d ≡ number) depth reader.old reader.new)
        (λ _. valued depth reader.old ≡ None) }
{
    let token = first(reader)?;
    if let Some(text) = text_of(&token) {
        return Ok(number_of_text(text));
    }
    match number_text(&token) {
        Some(digits) => match whole_number(digits) {
            Some(number) => Ok(number),
            None => Err(Invalid),
        },
        None => {
            skip_rest(token, reader, depth)?;
            Ok(None)
        }
    }
}

// The texts of a label's members so far.
#[derive(Clone, Copy, Drop)]
struct LabelTexts<'a> {
    name: Option<&'a str>,
    value: Option<&'a str>,
}

// The name and the value of a label, or None where the value is none.
pub(crate) fn read_label<'a>(
    reader: &mut Reader<'a>,
    depth: usize,
) -> Result<Option<(&'a str, &'a str)>, Invalid>
    requires { 0 < depth }
    ensures { MatchResult result
        (λ label. Reads (λ d. label_in d ≡ option_map (λ l. (l.0.now, l.1.now)) label) depth reader.old reader.new)
        (λ _. valued depth reader.old ≡ None) }
{
    let token = first(reader)?;
    if opens_object(&token) {
        let texts = label_texts(reader, depth - 1)?;
        Ok(label_of(texts))
    } else {
        skip_rest(token, reader, depth)?;
        Ok(None)
    }
}

fn label_of<'a>(texts: LabelTexts<'a>) -> Option<(&'a str, &'a str)>
    ensures { option_map (λ l. (l.0.now, l.1.now)) result
        ≡ label_from (option_map (λ t. t.now) texts.entry.name) (option_map (λ t. t.now) texts.entry.value) }
{
    Some((texts.name?, texts.value?))
}

fn label_texts<'a>(reader: &mut Reader<'a>, depth: usize) -> Result<LabelTexts<'a>, Invalid>
    ensures { MatchResult result
        (λ texts. ReadsMembers (λ ms. AreLabelTexts ms texts) depth reader.old reader.new)
        (λ _. membered depth no_members (length reader.old) reader.old ≡ None) }
{
    let mut texts = LabelTexts {
        name: None,
        value: None,
    };
    'members: while let Some(key) = reader.next_key()? {
        texts = label_member(texts, key, reader, depth)?;
    }
    Ok(texts)
}

fn label_member<'a>(
    texts: LabelTexts<'a>,
    key: &str,
    reader: &mut Reader<'a>,
    depth: usize,
) -> Result<LabelTexts<'a>, Invalid>
    ensures { MatchResult result
        (λ more. Reads (λ d. (found : Members) → AreLabelTexts found texts.entry → AreLabelTexts (put key.now d found) more)
        depth reader.old reader.new)
        (λ _. valued depth reader.old ≡ None) }
{
    if is_key(key, "name") {
        let name = read_text(reader, depth)?;
        Ok(LabelTexts {
            name,
            value: texts.value,
        })
    } else if is_key(key, "value") {
        let value = read_text(reader, depth)?;
        Ok(LabelTexts {
            name: texts.name,
            value,
        })
    } else {
        skip(reader, depth)?;
        Ok(texts)
    }
}

// The text of a sample's raw profile, or None where it has none.
pub(crate) fn read_sample<'a>(
    reader: &mut Reader<'a>,
    depth: usize,
) -> Result<Option<&'a str>, Invalid>
    requires { 0 < depth }
    ensures { MatchResult result
        (λ raw. Reads (λ d. raw_profile_in d ≡ option_map (λ t. t.now) raw) depth reader.old reader.new)
        (λ _. valued depth reader.old ≡ None) }
{
    let token = first(reader)?;
    if opens_object(&token) {
        let raw = sample_text(reader, depth - 1)?;
        Ok(raw)
    } else {
        skip_rest(token, reader, depth)?;
        Ok(None)
    }
}

fn sample_text<'a>(reader: &mut Reader<'a>, depth: usize) -> Result<Option<&'a str>, Invalid>
    ensures { MatchResult result
        (λ raw. ReadsMembers (λ ms. IsSampleText ms raw) depth reader.old reader.new)
        (λ _. membered depth no_members (length reader.old) reader.old ≡ None) }
{
    let mut raw = None;
    'members: while let Some(key) = reader.next_key()? {
        raw = sample_member(raw, key, reader, depth)?;
    }
    Ok(raw)
}

fn sample_member<'a>(
    raw: Option<&'a str>,
    key: &str,
    reader: &mut Reader<'a>,
    depth: usize,
) -> Result<Option<&'a str>, Invalid>
    ensures { MatchResult result
        (λ more. Reads (λ d. (found : Members) → IsSampleText found raw.entry → IsSampleText (put key.now d found) more)
        depth reader.old reader.new)
        (λ _. valued depth reader.old ≡ None) }
{
    if is_key(key, "rawProfile") {
        let raw = read_text(reader, depth)?;
        Ok(raw)
    } else {
        skip(reader, depth)?;
        Ok(raw)
    }
}
