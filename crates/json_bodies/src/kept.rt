// What is kept of a body: what each key says that some request asks for. All else is passed over, so a body of any shape
// takes little more memory than its bytes and what it is read to.
ghost use Rattle.std.specs.Prelude.{◌≡◌, ◌<◌, length, MatchResult, None, option_map, Some, string_bytes};
ghost use Rattle.serde_json.specs.Data.{Members, no_members, object, put};
ghost use Rattle.serde_json.specs.Find.{as_str};
ghost use Rattle.serde_json.specs.Read.{read};
ghost use Rattle.json_bodies.specs.KeptFields.{AreFields};
ghost use Rattle.json_bodies.specs.Walks.{IfNoJson, Reads, ReadsMembers, membered, valued, whole};

use crate::leaves::{read_number, read_text};
use crate::lists::read_texts;
use crate::push::ShapeFault;
use crate::series::{Series, read_all_series};
use crate::texts::Texts;
use crate::walk::{Stop, first, is_key, opens_object, skip};
use json::{Reader, Scratch};
use std::alloc::Global;

// How deep the values of a body's members may nest: `serde_json` stops at 127 with the body itself.
const MEMBER_DEPTH: usize = 126;

// What the fields of a body say, None where one is of another kind.
#[derive(Debug, Drop)]
pub(crate) struct Fields {
    pub(crate) name: Option<String>,
    pub(crate) matchers: Option<Texts>,
    pub(crate) label_names: Option<Texts>,
    pub(crate) start: Option<u64>,
    pub(crate) end: Option<u64>,
    pub(crate) series: Result<Vec<Series>, ShapeFault>,
}

// The fields of the object that a text is.
pub(crate) fn read_fields(alloc: Global, text: &str) -> Result<Fields, Stop>
    ensures { MatchResult result
        (λ fields. (ms : Members) × (read text.now ≡ Some (object ms)) × AreFields (object ms) fields)
        (IfNoJson ((ms : Members) → ¬ (read text.now ≡ Some (object ms)))) }
{
    let mut scratch = Scratch::new(alloc);
    let mut reader = Reader::new(text, &mut scratch)?;
    read_whole(alloc, &mut reader)
}

fn read_whole(alloc: Global, reader: &mut Reader<'_>) -> Result<Fields, Stop>
    ensures { MatchResult result
        (λ fields. (ms : Members) × (whole reader.old ≡ Some (object ms)) × AreFields (object ms) fields)
        (IfNoJson ((ms : Members) → ¬ (whole reader.old ≡ Some (object ms)))) }
{
    let token = first(reader)?;
    if opens_object(&token) {
        let fields = each_field(alloc, reader)?;
        match reader.next() {
            Some(_) => Err(Stop::NoJson),
            None => Ok(fields),
        }
    } else {
        Err(Stop::NoJson)
    }
}

fn each_field(alloc: Global, reader: &mut Reader<'_>) -> Result<Fields, Stop>
    ensures { MatchResult result
        (λ fields. ReadsMembers (λ ms. AreFields (object ms) fields) 126 reader.old reader.new)
        (IfNoJson (membered 126 no_members (length reader.old) reader.old ≡ None)) }
{
    let mut fields = absent_fields(alloc);
    'members: while let Some(key) = reader.next_key()? {
        fields = with_field(alloc, fields, key, reader)?;
    }
    Ok(fields)
}

// What a body says whose fields are all absent.
fn absent_fields(alloc: Global) -> Fields
    ensures { AreFields (object no_members) result }
{
    Fields {
        name: Some(String::new(alloc)),
        matchers: Some(Texts::new(alloc)),
        label_names: Some(Texts::new(alloc)),
        start: Some(0),
        end: Some(0),
        series: Ok(Vec::new(alloc)),
    }
}

// The same with the value of a key, which follows.
fn with_field(
    alloc: Global,
    before: Fields,
    key: &str,
    reader: &mut Reader<'_>,
) -> Result<Fields, Stop>
    ensures { MatchResult result
        (λ fields. Reads (λ d. (found : Members) → AreFields (object found) before → AreFields (object (put key.now d found)) fields)
        126 reader.old reader.new)
        (IfNoJson (valued 126 reader.old ≡ None)) }
{
    let mut fields = before;
    if is_key(key, "name") {
        fields.name = read_name(alloc, reader)?;
        Ok(fields)
    } else if is_key(key, "matchers") {
        fields.matchers = read_texts(alloc, reader, MEMBER_DEPTH)?;
        Ok(fields)
    } else if is_key(key, "labelNames") {
        fields.label_names = read_texts(alloc, reader, MEMBER_DEPTH)?;
        Ok(fields)
    } else if is_key(key, "start") {
        fields.start = read_number(reader, MEMBER_DEPTH)?;
        Ok(fields)
    } else if is_key(key, "end") {
        fields.end = read_number(reader, MEMBER_DEPTH)?;
        Ok(fields)
    } else if is_key(key, "series") {
        fields.series = read_all_series(alloc, reader, MEMBER_DEPTH)?;
        Ok(fields)
    } else {
        skip(reader, MEMBER_DEPTH)?;
        Ok(fields)
    }
}

fn read_name(alloc: Global, reader: &mut Reader<'_>) -> Result<Option<String>, Stop>
    ensures { MatchResult result
        (λ name. Reads (λ d. as_str d ≡ option_map string_bytes name) 126 reader.old reader.new)
        (IfNoJson (valued 126 reader.old ≡ None)) }
{
    match read_text(reader, MEMBER_DEPTH)? {
        Some(text) => Ok(Some(String::from_str(alloc, text)?)),
        None => Ok(None),
    }
}
