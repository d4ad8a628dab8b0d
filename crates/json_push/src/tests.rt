// Worked pushes, and what no clause says: that the calls succeed with ample memory, and the texts of the faults.
use crate::{PushFault, read_push};
use base64::engine::general_purpose::STANDARD;
use faults::{Place, Refused};
use pprof_codec::PprofFault;
use profile_model::{LabelFault, Push, Tenant};
use std::alloc::{AllocError, Global};
use std::test::Fail;

// A pprof of one sample type: the stack main;leaf with 7 samples.
const ONE_TYPE: &str =
    "CgQIARACEgYKAQESAQciCggBIgIIASICCAIqBAgBEAMqBAgCEAQyADIHc2FtcGxlczIFY291bnQyBGxlYWYyBG1haW4=";

// A pprof of two sample types: 9 samples of leaf, and then a count of 1 of leaf and of 5 of main.
const TWO_TYPES: &str =
    "CgQIARACCgQIAhABEgcKAQESAgcBEgcKAQISAgAFEgcKAQMSAgIAIgYIASICCAEiBggCIgIIAiIGCAMiAggBKgQIARADKgQIAhAEMgAyB3NhbXBsZXMyBWNvdW50MgRsZWFmMgRtYWlu";

fn joined(alloc: Global, parts: &[&str]) -> Result<String, Fail> {
    let mut text = String::new(alloc);
    for part in parts {
        text.push_str(part)?;
    }
    Ok(text)
}

fn read(alloc: Global, parts: &[&str]) -> Result<Result<Push, Refused<PushFault>>, Fail> {
    let tenant = Tenant::read(alloc, b"shop")?;
    let body = joined(alloc, parts)?;
    Ok(read_push(alloc, tenant, body.as_bytes(), 1_700_000_000_000))
}

// The profiles of a push: a line of the labels, the type and the time, and one of each stack.
fn told(alloc: Global, parts: &[&str]) -> Result<String, Fail> {
    let push = read(alloc, parts)??;
    let mut text = String::new(alloc);
    for profile in push.profiles.as_slice() {
        text.push_str(&format!(in alloc; "{profile}")?)?;
    }
    Ok(text)
}

// The code of the fault and its place; no code where there is no fault.
fn fault_of(alloc: Global, parts: &[&str]) -> Result<(Option<&'static str>, Place), Fail> {
    match read(alloc, parts)? {
        Ok(_push) => Ok((None, Place::Whole)),
        Err(Refused::Fault(fault)) => Ok((Some(fault.code()), fault.place())),
        Err(Refused::Memory) => Err(Fail::from(AllocError)),
    }
}

#[test]
fn a_series_without_labels_is_unspecified(rt: HostRuntime) -> Result<(), Fail> {
    let text = told(
        rt.alloc(),
        &[
            "{\"series\":[{\"labels\":[],\"samples\":[{\"rawProfile\":\"",
            ONE_TYPE,
            "\"}]}]}",
        ],
    )?;
    assert_eq!(rt;
        text.as_str(),
        "service_name=unspecified process_cpu:samples:count:: 1700000000000\nmain;leaf 7\n"
    );
    let none = told(rt.alloc(), &["{}"])?;
    assert_eq!(rt; none.as_str(), "");
    Ok(())
}

#[test]
fn each_series_has_its_own_labels_and_samples(rt: HostRuntime) -> Result<(), Fail> {
    let text = told(
        rt.alloc(),
        &[
            "{\"series\":[{\"labels\":[{\"name\":\"service_name\",\"value\":\"cart\"},{\"name\":\"__name__\",\"value\":\"memory\"},\
             {\"name\":\"env\",\"value\":\"eu\"}],\"samples\":[{\"rawProfile\":\"",
            TWO_TYPES,
            "\"},{\"rawProfile\":\"",
            ONE_TYPE,
            "\"}]},{\"labels\":[{\"name\":\"env\",\"value\":\"us\"}],\"samples\":[{\"ID\":\"x\",\"rawProfile\":\"",
            ONE_TYPE,
            "\"}]}]}",
        ],
    )?;
    assert_eq!(rt;
        text.as_str(),
        "env=eu service_name=cart memory:samples:count:: 1700000000000\nleaf 9\n\
         env=eu service_name=cart memory:count:samples:: 1700000000000\nleaf 1\nmain 5\n\
         env=eu service_name=cart memory:samples:count:: 1700000000000\nmain;leaf 7\n\
         env=us service_name=unspecified process_cpu:samples:count:: 1700000000000\nmain;leaf 7\n"
    );
    Ok(())
}

#[test]
fn the_first_fault_is_told_with_its_place(rt: HostRuntime) -> Result<(), Fail> {
    let alloc = rt.alloc();
    let whole = [
        ("[]", "J1", Place::Whole),
        ("{\"series\":[]", "J1", Place::Whole),
        ("{\"series\":null}", "J2", Place::Pair(0, 0)),
    ];
    for (body, code, place) in whole {
        let fault = fault_of(alloc, &[body])?;
        assert_eq!(rt; fault.0, Some(code), "{body}");
        assert_eq!(rt; fault.1, place, "{body}");
    }
    // The second series, behind one without fault.
    let seconds = [
        ("7", "J2", Place::Pair(1, 0)),
        (
            "{\"labels\":[],\"samples\":[{\"rawProfile\":\"AA\"},{}]}",
            "J2",
            Place::Pair(1, 1),
        ),
        (
            "{\"labels\":[{\"name\":\"a\",\"value\":\"1\"},{\"name\":\"\",\"value\":\"\"}],\"samples\":[{\"rawProfile\":\"AA\"}]}",
            "L1",
            Place::Pair(1, 1),
        ),
        (
            "{\"labels\":[{\"name\":\"a\",\"value\":\"\"},{\"name\":\"a\",\"value\":\"1\"}],\"samples\":[]}",
            "L3",
            Place::Pair(1, 1),
        ),
        (
            "{\"labels\":[],\"samples\":[{\"rawProfile\":\"MgA\"}]}",
            "J4",
            Place::Pair(1, 0),
        ),
        (
            "{\"labels\":[],\"samples\":[{\"rawProfile\":\"MgA=\"},{\"rawProfile\":\"MgB=\"}]}",
            "J4",
            Place::Pair(1, 1),
        ),
        (
            "{\"labels\":[],\"samples\":[{\"rawProfile\":\"MgA=\"},{\"rawProfile\":\"H4sI\"}]}",
            "J5",
            Place::Triple(1, 1, 13),
        ),
        (
            "{\"labels\":[],\"samples\":[{\"rawProfile\":\"CA==\"},{\"rawProfile\":\"AA\"}]}",
            "J5",
            Place::Triple(1, 0, 1),
        ),
        (
            "{\"labels\":[],\"samples\":[{\"rawProfile\":\"\"}]}",
            "J5",
            Place::Triple(1, 0, 2),
        ),
        (
            "{\"labels\":[],\"samples\":[{\"rawProfile\":\"CA==\"}]},{\"labels\":[{\"name\":\"\",\"value\":\"\"}],\"samples\":[]}",
            "J5",
            Place::Triple(1, 0, 1),
        ),
        (
            "{\"labels\":[],\"samples\":[]},{\"labels\":[{\"name\":\"\",\"value\":\"\"}],\"samples\":[]}",
            "L1",
            Place::Pair(2, 0),
        ),
    ];
    for (series, code, place) in seconds {
        let fault = fault_of(
            alloc,
            &[
                "{\"series\":[{\"labels\":[],\"samples\":[{\"rawProfile\":\"",
                ONE_TYPE,
                "\"}]},",
                series,
                "]}",
            ],
        )?;
        assert_eq!(rt; fault.0, Some(code), "{series}");
        assert_eq!(rt; fault.1, place, "{series}");
    }
    Ok(())
}

// Labels in JSON: as many as this, and each with so long a name and value.
fn long_labels(alloc: Global, count: u64, name: u64, value: u64) -> Result<String, Fail> {
    let mut text = String::new(alloc);
    for number in 0..count {
        text.push_str(if number == 0 {
            "{\"name\":\"n"
        } else {
            ",{\"name\":\"n"
        })?;
        text.push_str(&format!(in alloc; "{number:02}")?)?;
        for _ in 3..name {
            text.push_str("n")?;
        }
        text.push_str("\",\"value\":\"")?;
        for _ in 0..value {
            text.push_str("v")?;
        }
        text.push_str("\"}")?;
    }
    Ok(text)
}

// A raw profile with so many sample types.
fn bare_types(alloc: Global, count: u64) -> Result<String, Fail> {
    let mut bytes = Vec::new(alloc);
    bytes.extend_from_slice(b"\x32\x00")?;
    for _ in 0..count {
        bytes.extend_from_slice(b"\x0A\x00")?;
    }
    Ok(STANDARD.encode(alloc, &bytes)?)
}

#[test]
fn labels_are_bounded(rt: HostRuntime) -> Result<(), Fail> {
    let alloc = rt.alloc();
    let cases: [(u64, u64, u64, Option<&str>, Place); 5] = [
        (30, 1024, 2048, None, Place::Whole),
        (31, 3, 0, None, Place::Whole),
        (31, 3, 1, Some("L4"), Place::At(0)),
        (2, 1025, 1, Some("L1"), Place::Pair(0, 0)),
        (2, 3, 2049, Some("L2"), Place::Pair(0, 0)),
    ];
    for (count, name, value, code, place) in cases {
        let labels = long_labels(alloc, count, name, value)?;
        let fault = fault_of(
            alloc,
            &[
                "{\"series\":[{\"labels\":[",
                labels.as_str(),
                "],\"samples\":[]}]}",
            ],
        )?;
        assert_eq!(rt; fault.0, code, "{count} {name} {value}");
        assert_eq!(rt; fault.1, place, "{count} {name} {value}");
    }
    Ok(())
}

#[test]
fn a_push_is_bounded(rt: HostRuntime) -> Result<(), Fail> {
    let alloc = rt.alloc();
    // Labels of 90 kilobytes: 2,048 profiles with them are within the bound, and twice as many are not.
    let cases: [(u64, u64, u64, Option<&str>, Place); 6] = [
        (0, 4095, 1, None, Place::Whole),
        (0, 4096, 0, None, Place::Whole),
        (0, 4096, 1, Some("J6"), Place::Pair(0, 1)),
        (30, 2048, 1, None, Place::Whole),
        (30, 2048, 2048, Some("J7"), Place::Pair(0, 1)),
        (30, 2048, 4096, Some("J5"), Place::Triple(0, 1, 14)),
    ];
    for (count, first, second, code, place) in cases {
        let labels = long_labels(alloc, count, 1000, 2000)?;
        let first = bare_types(alloc, first)?;
        let second = bare_types(alloc, second)?;
        let fault = fault_of(
            alloc,
            &[
                "{\"series\":[{\"labels\":[",
                labels.as_str(),
                "],\"samples\":[{\"rawProfile\":\"",
                first.as_str(),
                "\"},{\"rawProfile\":\"",
                second.as_str(),
                "\"}]}]}",
            ],
        )?;
        assert_eq!(rt; fault.0, code, "{count} {place:?}");
        assert_eq!(rt; fault.1, place, "{count} {place:?}");
    }
    Ok(())
}

#[test]
fn faults_are_told_in_words(rt: HostRuntime) -> Result<(), Fail> {
    let (series, sample) = (2, 3);
    for (fault, words) in [
        (PushFault::NotObject, "the body is no JSON object"),
        (
            PushFault::Shape { series, sample },
            "another shape at series 2, sample 3",
        ),
        (
            PushFault::Label {
                series,
                fault: LabelFault::BadName(4),
            },
            "series 2: label 4 has a wrong name",
        ),
        (
            PushFault::NotBase64 { series, sample },
            "series 2, sample 3: no base64",
        ),
        (
            PushFault::Pprof {
                series,
                sample,
                fault: PprofFault::Compressed,
            },
            "series 2, sample 3: the profile is compressed",
        ),
        (
            PushFault::TooMany { series, sample },
            "too many profiles at series 2, sample 3",
        ),
        (
            PushFault::Weight { series, sample },
            "the push is too large at series 2, sample 3",
        ),
    ] {
        let told = fault.to_string(rt.alloc())?;
        assert_eq!(rt; told.as_str(), words);
    }
    let memory: Refused<PushFault> = Refused::Memory;
    let told = memory.to_string(rt.alloc())?;
    assert_eq!(rt; told.as_str(), "out of memory");
    Ok(())
}
