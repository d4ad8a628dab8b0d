// The answers as bytes: compact JSON, keys ascending.
ghost use Rattle.std.specs.Prelude.{◌≡◌, ◌++◌, IfOk, OnOk, map};
ghost use Rattle.json.specs.Tree.{json_tokens};
ghost use Rattle.serde_json.specs.Written.{compact_text, outline};
ghost use Rattle.label_queries.specs.Texts.{label_data, names_data, series_data, set_data};

use json::Writer;
use profile_model::Name;
use std::alloc::{AllocError, Global};

/// `{"names":["a","b"]}`
pub fn names_text(alloc: Global, names: &[Name]) -> Result<Vec<u8>, AllocError>
    ensures { IfOk result (λ text. text.items ≡ compact_text (names_data names.now)) }
{
    let mut writer = Writer::new(Vec::new(alloc));
    writer.begin_object()?;
    writer.key("names")?;
    writer.begin_array()?;
    for name in names {
        writer.string(name.as_str())?;
    }
    writer.end_array()?;
    writer.end_object()?;
    Ok(writer.into_inner())
}

/// `{"labelsSet":[{"labels":[{"name":"env","value":"prod"}]}]}`
pub fn series_text(alloc: Global, series: &[Vec<(Name, Name)>]) -> Result<Vec<u8>, AllocError>
    ensures { IfOk result (λ text. text.items ≡ compact_text (series_data (map (λ set. set.items) series.now))) }
{
    let mut writer = Writer::new(Vec::new(alloc));
    writer.begin_object()?;
    writer.key("labelsSet")?;
    writer.begin_array()?;
    for set in series {
        put_set(&mut writer, set)?;
    }
    writer.end_array()?;
    writer.end_object()?;
    Ok(writer.into_inner())
}

fn put_set(writer: &mut Writer, labels: &[(Name, Name)]) -> Result<(), AllocError>
    ensures tokens { OnOk result (writer.new.tokens ≡ writer.old.tokens ++ json_tokens (outline (set_data labels.now))) }
    ensures before { writer.new.before ≡ writer.old.before }
{
    writer.begin_object()?;
    writer.key("labels")?;
    writer.begin_array()?;
    for (name, value) in labels {
        put_label(writer, name, value)?;
    }
    writer.end_array()?;
    writer.end_object()
}

fn put_label(writer: &mut Writer, name: &Name, value: &Name) -> Result<(), AllocError>
    ensures tokens { OnOk result (writer.new.tokens ≡ writer.old.tokens ++ json_tokens
        (outline (label_data (name.now, value.now)))) }
    ensures before { writer.new.before ≡ writer.old.before }
{
    writer.begin_object()?;
    writer.key("name")?;
    writer.string(name.as_str())?;
    writer.key("value")?;
    writer.string(value.as_str())?;
    writer.end_object()
}
