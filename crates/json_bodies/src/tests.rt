use crate::{
    FieldFault, JsonFault, JsonObject, LabelNamesBody, LabelValuesBody, PushBody, PushedSeries,
    SeriesBody, ShapeFault, faults_exclude_bodies,
};
use faults::Refused;
use profile_model::Name;
use std::alloc::Global;
use std::test::Fail;

const LATEST: u64 = 253_402_300_799_999;

fn fault_of_body(alloc: Global, body: &[u8]) -> Option<Refused<JsonFault>> {
    JsonObject::read(alloc, body).err()
}

fn fault_of_body_or_none(alloc: Global, body: &[u8]) -> Option<Refused<JsonFault>> {
    JsonObject::read_or_empty(alloc, body).err()
}

#[test]
fn only_an_object_is_a_body(rt: HostRuntime) -> Result<(), Fail> {
    let alloc = rt.alloc();
    assert!(rt; fault_of_body(alloc, b" {\"a\": 1.5e3, \"b\": [null]}").is_none());
    let refused: [&[u8]; 9] = [
        b"",
        b"{\"a\":[{\"b\":1e400}]}",
        b"{\"a\":[1,]}",
        b"[]",
        b"null",
        b"\"{}\"",
        b"{\"a\":01}",
        b"{} {}",
        b"{\"a\":\"\xFF\"}",
    ];
    let no_object = Some(Refused::Fault(JsonFault::NotObject));
    for body in refused {
        assert!(rt; fault_of_body(alloc, body) == no_object);
    }
    assert!(rt; fault_of_body_or_none(alloc, b"").is_none());
    assert!(rt; fault_of_body_or_none(alloc, b" ") == no_object);
    assert!(rt; fault_of_body_or_none(alloc, b"[]") == no_object);
    Ok(())
}

// An object whose one member nests arrays this deep, and whether it is taken.
fn nests(alloc: Global, depth: usize) -> Result<bool, Fail> {
    let mut text = String::from_str(alloc, "{\"a\":")?;
    for _ in 0..depth {
        text.push_str("[")?;
    }
    for _ in 0..depth {
        text.push_str("]")?;
    }
    text.push_str("}")?;
    Ok(JsonObject::read(alloc, text.as_bytes()).is_ok())
}

#[test]
fn values_nest_as_deep_as_serde_json_reads_them(rt: HostRuntime) -> Result<(), Fail> {
    let alloc = rt.alloc();
    assert!(rt; nests(alloc, 126)?);
    assert!(rt; !nests(alloc, 127)?);
    Ok(())
}

fn object(alloc: Global, text: &str) -> Result<JsonObject<'_>, Refused<JsonFault>> {
    JsonObject::read_or_empty(alloc, text.as_bytes())
}

fn are_texts(texts: &[&str], expected: &[&str]) -> bool {
    texts == expected
}

fn asks_names(
    alloc: Global,
    text: &str,
    matchers: &[&str],
    start_ms: u64,
    end_ms: u64,
) -> Result<bool, Fail> {
    let body = object(alloc, text)?;
    let query = LabelNamesBody::of(alloc, &body)?;
    Ok(are_texts(&query.matchers, matchers) && query.start_ms == start_ms && query.end_ms == end_ms)
}

#[test]
fn a_query_of_names_has_matchers_and_a_window(rt: HostRuntime) -> Result<(), Fail> {
    let alloc = rt.alloc();
    let text =
        "{\"end\":\"0020\",\"matchers\":[\"{a=\\\"b\\\"}\",\"{}\"],\"other\":null,\"start\":10}";
    assert!(rt; asks_names(alloc, text, &["{a=\"b\"}", "{}"], 10, 20)?);
    assert!(rt; asks_names(alloc, "", &[], 0, LATEST)?);
    let repeated =
        "{\"start\":null,\"\\u0073tart\":5,\"matchers\":[\"a\"],\"matchers\":[],\"end\":1,\"end\":7}";
    assert!(rt; asks_names(alloc, repeated, &[], 5, 7)?);
    Ok(())
}

fn is_text(text: &str, expected: &str) -> bool {
    text == expected
}

fn asks_values(
    alloc: Global,
    text: &str,
    name: &str,
    matchers: &[&str],
    start_ms: u64,
    end_ms: u64,
) -> Result<bool, Fail> {
    let body = object(alloc, text)?;
    let query = LabelValuesBody::of(alloc, &body)?;
    Ok(
        is_text(query.name, name)
            && are_texts(&query.matchers, matchers)
            && query.start_ms == start_ms
            && query.end_ms == end_ms,
    )
}

#[test]
fn a_query_of_values_names_a_label(rt: HostRuntime) -> Result<(), Fail> {
    let alloc = rt.alloc();
    let text =
        "{\"name\":\"env\",\"matchers\":[\"{}\"],\"start\":\"9999999999999999999\",\"end\":18446744073709551615}";
    assert!(rt;
        asks_values(
            alloc,
            text,
            "env",
            &["{}"],
            9_999_999_999_999_999_999,
            LATEST
        )?
    );
    assert!(rt; asks_values(alloc, "{}", "", &[], 0, LATEST)?);
    Ok(())
}

fn asks_series(
    alloc: Global,
    text: &str,
    matchers: &[&str],
    label_names: &[&str],
    start_ms: u64,
    end_ms: u64,
) -> Result<bool, Fail> {
    let body = object(alloc, text)?;
    let query = SeriesBody::of(alloc, &body)?;
    Ok(
        are_texts(&query.matchers, matchers)
            && are_texts(&query.label_names, label_names)
            && query.start_ms == start_ms
            && query.end_ms == end_ms,
    )
}

#[test]
fn a_query_of_series_cuts_to_names(rt: HostRuntime) -> Result<(), Fail> {
    let text = "{\"matchers\":[],\"labelNames\":[\"env\",\"a\"],\"start\":0,\"end\":\"0\"}";
    assert!(rt; asks_series(rt.alloc(), text, &[], &["env", "a"], 0, LATEST)?);
    Ok(())
}

fn fault_of_names(alloc: Global, text: &str) -> Result<Option<Refused<FieldFault>>, Fail> {
    let body = object(alloc, text)?;
    Ok(LabelNamesBody::of(alloc, &body).err())
}

fn fault_of_values(alloc: Global, text: &str) -> Result<Option<Refused<FieldFault>>, Fail> {
    let body = object(alloc, text)?;
    Ok(LabelValuesBody::of(alloc, &body).err())
}

fn fault_of_series(alloc: Global, text: &str) -> Result<Option<Refused<FieldFault>>, Fail> {
    let body = object(alloc, text)?;
    Ok(SeriesBody::of(alloc, &body).err())
}

fn wrong_kind(number: u64) -> Option<Refused<FieldFault>> {
    Some(Refused::Fault(FieldFault::WrongKind(number)))
}

#[test]
fn the_first_field_of_a_wrong_kind_is_told(rt: HostRuntime) -> Result<(), Fail> {
    let alloc = rt.alloc();
    for (text, number) in [
        ("{\"matchers\":null}", 0),
        ("{\"matchers\":\"{}\",\"start\":-1}", 0),
        ("{\"matchers\":[\"{}\",1],\"end\":null}", 0),
        ("{\"start\":1.0,\"end\":null}", 1),
        ("{\"start\":1e3}", 1),
        ("{\"start\":-0}", 1),
        ("{\"start\":-1}", 1),
        ("{\"start\":18446744073709551616}", 1),
        ("{\"start\":\"\"}", 1),
        ("{\"start\":\"+1\"}", 1),
        ("{\"start\":\"00000000000000000001\"}", 1),
        ("{\"start\":null}", 1),
        ("{\"end\":\"1 \"}", 2),
        ("{\"end\":true}", 2),
    ] {
        assert!(rt;
            fault_of_names(alloc, text)? == wrong_kind(number),
            "{text}"
        );
    }
    for (text, number) in [("{\"name\":1,\"end\":null}", 0), ("{\"end\":null}", 3)] {
        assert!(rt;
            fault_of_values(alloc, text)? == wrong_kind(number),
            "{text}"
        );
    }
    for (text, number) in [("{\"labelNames\":{}}", 1), ("{\"start\":[]}", 2)] {
        assert!(rt;
            fault_of_series(alloc, text)? == wrong_kind(number),
            "{text}"
        );
    }
    Ok(())
}

fn are_labels(labels: &[(Name, Name)], expected: &[(&str, &str)]) -> bool {
    for ((name, value), (expected_name, expected_value)) in labels.iter().zip(expected) {
        if name.as_str() != *expected_name || value.as_str() != *expected_value {
            return false;
        }
    }
    labels.len() == expected.len()
}

fn are_series(series: &[PushedSeries<'_>], expected: &[(&[(&str, &str)], &[&str])]) -> bool {
    for (one, (labels, raw_profiles)) in series.iter().zip(expected) {
        if !are_labels(&one.labels, labels) || one.raw_profiles.as_slice() != *raw_profiles {
            return false;
        }
    }
    series.len() == expected.len()
}

// Whether a push has these series, each with labels and raw profiles.
fn pushes(
    alloc: Global,
    text: &str,
    expected: &[(&[(&str, &str)], &[&str])],
) -> Result<bool, Fail> {
    let body = object(alloc, text)?;
    let push = PushBody::of(alloc, &body)?;
    Ok(are_series(&push.series, expected))
}

#[test]
fn a_push_has_series_of_labels_and_samples(rt: HostRuntime) -> Result<(), Fail> {
    let alloc = rt.alloc();
    let text =
        "{\"series\":[{\"labels\":[{\"name\":\"b\",\"value\":\"1\",\"more\":0},{\"name\":\"a\",\"value\":\"\"}],\
         \"samples\":[{\"rawProfile\":\"AA==\"},{\"ID\":\"x\",\"rawProfile\":\"\"}]},{\"samples\":[],\"labels\":[]}]}";
    let series: [(&[(&str, &str)], &[&str]); 2] = [
        (&[("b", "1"), ("a", "")], &["AA==", ""]),
        (&[], &[]),
    ];
    assert!(rt; pushes(alloc, text, &series)?);
    assert!(rt; pushes(alloc, "{}", &[])?);
    let repeated =
        "{\"series\":7,\"series\":[{\"labels\":0,\"samples\":[],\"labels\":[{\"name\":\"a\",\"value\":\"\\n\",\"name\":\"b\"}]}]}";
    assert!(rt; pushes(alloc, repeated, &[(&[("b", "\n")], &[])])?);
    Ok(())
}

fn fault_of_push(alloc: Global, text: &str) -> Result<Option<Refused<ShapeFault>>, Fail> {
    let body = object(alloc, text)?;
    Ok(PushBody::of(alloc, &body).err())
}

#[test]
fn the_first_place_of_another_shape_is_told(rt: HostRuntime) -> Result<(), Fail> {
    for (text, series, sample) in [
        ("{\"series\":null}", 0, 0),
        ("{\"series\":{}}", 0, 0),
        ("{\"series\":[[]]}", 0, 0),
        ("{\"series\":[{\"labels\":[]}]}", 0, 0),
        ("{\"series\":[{\"samples\":[]}]}", 0, 0),
        (
            "{\"series\":[{\"labels\":[],\"samples\":[]},{\"labels\":null,\"samples\":[]}]}",
            1,
            0,
        ),
        (
            "{\"series\":[{\"labels\":[{\"name\":\"a\"}],\"samples\":[{\"rawProfile\":\"\"},0]}]}",
            0,
            0,
        ),
        (
            "{\"series\":[{\"labels\":[],\"samples\":[{\"rawProfile\":\"\"},{\"rawProfile\":null},{}]},7]}",
            0,
            1,
        ),
    ] {
        let wrong = Refused::Fault(ShapeFault::Wrong { series, sample });
        assert!(rt; fault_of_push(rt.alloc(), text)? == Some(wrong), "{text}");
    }
    Ok(())
}

fn body_fault_reads(alloc: Global, refused: Refused<JsonFault>, words: &str) -> Result<bool, Fail> {
    let text = refused.to_string(alloc)?;
    Ok(text.as_str() == words)
}

fn field_fault_reads(
    alloc: Global,
    refused: Refused<FieldFault>,
    words: &str,
) -> Result<bool, Fail> {
    let text = refused.to_string(alloc)?;
    Ok(text.as_str() == words)
}

fn shape_fault_reads(
    alloc: Global,
    refused: Refused<ShapeFault>,
    words: &str,
) -> Result<bool, Fail> {
    let text = refused.to_string(alloc)?;
    Ok(text.as_str() == words)
}

#[test]
fn faults_are_told_in_words(rt: HostRuntime) -> Result<(), Fail> {
    let alloc = rt.alloc();
    let no_object = Refused::Fault(JsonFault::NotObject);
    assert!(rt; body_fault_reads(alloc, no_object, "the body is no JSON object")?);
    assert!(rt; body_fault_reads(alloc, Refused::Memory, "out of memory")?);
    let kind = Refused::from(FieldFault::WrongKind(2));
    assert!(rt; field_fault_reads(alloc, kind, "field 2 is of a wrong kind")?);
    assert!(rt; field_fault_reads(alloc, Refused::Memory, "out of memory")?);
    let wrong = Refused::Fault(ShapeFault::Wrong {
        series: 1,
        sample: 3,
    });
    assert!(rt; shape_fault_reads(alloc, wrong, "another shape at series 1, sample 3")?);
    assert!(rt; shape_fault_reads(alloc, Refused::Memory, "out of memory")?);
    Ok(())
}

#[test]
fn the_law_takes_no_step(_rt: HostRuntime) -> Result<(), Fail> {
    faults_exclude_bodies();
    Ok(())
}
