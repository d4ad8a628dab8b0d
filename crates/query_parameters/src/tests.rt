// What no clause says: that each call succeeds with ample memory. The answers are worked by hand.
use crate::*;
use faults::Refused;
use std::alloc::Global;
use std::test::Fail;

const NOW: u64 = 1_700_000_000_000;

const QUERY: &[u8] = b"name=a+b&x&name=c&name%3D=%7Bd%7D";

fn count_of_parameters(alloc: Global) -> Result<usize, Fail> {
    let parameters = read_parameters(alloc, QUERY)?;
    Ok(parameters.len())
}

fn has_first(alloc: Global, name: &str, value: Option<&str>) -> Result<bool, Fail> {
    let parameters = read_parameters(alloc, QUERY)?;
    Ok(first_value(&parameters, name) == value)
}

#[test]
fn of_a_repeated_parameter_the_first_counts(rt: HostRuntime) -> Result<(), Fail> {
    let alloc = rt.alloc();
    assert_eq!(rt; count_of_parameters(alloc)?, 4);
    for (name, value) in [
        ("name", Some("a b")),
        ("x", Some("")),
        ("name=", Some("{d}")),
        ("nam", None),
    ] {
        assert!(rt; has_first(alloc, name, value)?, "{name}");
    }
    Ok(())
}

#[test]
fn the_count_of_digits_tells_the_unit_of_a_time(rt: HostRuntime) {
    for (text, time) in [
        ("1700000000", Some(1_700_000_000_000)),
        ("0", Some(0)),
        ("9999999999", Some(9_999_999_999_000)),
        ("17000000001", Some(17_000_000_001)),
        ("1700000000001", Some(1_700_000_000_001)),
        ("17000000000019", Some(17_000_000_000)),
        ("1700000000001999", Some(1_700_000_000_001)),
        ("17000000000019999", Some(17_000_000_000)),
        ("1700000000001999999", Some(1_700_000_000_001)),
        ("17000000000019999999", None),
    ] {
        assert_eq!(rt; read_time(text, NOW), time, "{text}");
    }
}

#[test]
fn a_time_is_told_from_now(rt: HostRuntime) {
    for (text, time) in [
        ("now", Some(NOW)),
        ("now-1s", Some(NOW - 1_000)),
        ("now-02m", Some(NOW - 120_000)),
        ("now-1h", Some(NOW - 3_600_000)),
        ("now-7d", Some(NOW - 604_800_000)),
        ("now-999999999d", Some(0)),
        ("now-1000000000s", None),
        ("now-s", None),
        ("now-1w", None),
        ("now-", None),
        ("now+1s", None),
        ("", None),
        ("-1", None),
    ] {
        assert_eq!(rt; read_time(text, NOW), time, "{text}");
    }
}

fn is_read_as(alloc: Global, text: &str, service: &str, pairs: &[(&str, &str)]) -> bool {
    match read_series_name(alloc, text) {
        Ok(name) => name.service == service && name.pairs.as_slice() == pairs,
        Err(_) => false,
    }
}

#[test]
fn a_name_is_a_service_and_its_pairs(rt: HostRuntime) {
    let cases: [(&str, &str, &[(&str, &str)]); 5] = [
        ("app", "app", &[]),
        ("a,b}=c", "a,b}=c", &[]),
        ("app{}", "app", &[]),
        (
            "app{env=prod,pod=p1}",
            "app",
            &[("env", "prod"), ("pod", "p1")],
        ),
        (
            "app{=,a=b={,a=}",
            "app",
            &[("", ""), ("a", "b={"), ("a", "")],
        ),
    ];
    for (text, service, pairs) in cases {
        assert!(rt; is_read_as(rt.alloc(), text, service, pairs), "{text}");
    }
}

fn reads(alloc: Global, refused: Refused<NameFault>, words: &str) -> Result<bool, Fail> {
    let text = refused.to_string(alloc)?;
    Ok(text.as_str() == words)
}

fn is_refused_with(alloc: Global, text: &str, words: &str) -> Result<bool, Fail> {
    match read_series_name(alloc, text).err() {
        Some(refused) => reads(alloc, refused, words),
        None => Ok(false),
    }
}

#[test]
fn a_text_that_is_no_name_breaks_where_no_name_goes_on(rt: HostRuntime) -> Result<(), Fail> {
    for (text, words) in [
        ("", "no name of a series: see byte 0"),
        ("{a=b}", "no name of a series: see byte 0"),
        ("app{", "no name of a series: see byte 4"),
        ("app{a}", "no name of a series: see byte 5"),
        ("app{a=b,}", "no name of a series: see byte 8"),
        ("app{a=b", "no name of a series: see byte 7"),
        ("app{a=b}c", "no name of a series: see byte 8"),
    ] {
        assert!(rt; is_refused_with(rt.alloc(), text, words)?, "{text}");
    }
    Ok(())
}

fn letters(alloc: Global, count: usize) -> Result<String, Fail> {
    let mut text = String::new(alloc);
    for _ in 0..count {
        text.push('a')?;
    }
    Ok(text)
}

fn takes_letters(alloc: Global, count: usize) -> Result<bool, Fail> {
    let text = letters(alloc, count)?;
    Ok(read_series_name(alloc, text.as_str()).is_ok())
}

// Behind so many letters one of two bytes.
fn is_refused_behind(alloc: Global, count: usize, words: &str) -> Result<bool, Fail> {
    let mut text = letters(alloc, count)?;
    text.push('é')?;
    is_refused_with(alloc, text.as_str(), words)
}

#[test]
fn a_service_has_2048_bytes_and_no_more(rt: HostRuntime) -> Result<(), Fail> {
    let alloc = rt.alloc();
    assert!(rt; takes_letters(alloc, 2047)?);
    // The second byte of the last letter crosses the bound.
    assert!(rt; is_refused_behind(alloc, 2047, "no name of a series: see byte 2048")?);
    Ok(())
}
