// Worked requests, and what no clause says: that the call succeeds with ample memory, and the texts of the faults.
use crate::{IngestFault, read_ingest};
use faults::Refused;
use folded_reader::FoldedFault;
use pprof_codec::PprofFault;
use profile_model::{LabelFault, Push, Tenant};
use query_parameters::read_parameters;
use std::alloc::Global;
use std::test::Fail;

const MOMENT_MS: u64 = 1_700_000_000_000;

// A sample type, a sample of one location, the location's two lines, their functions, and the texts.
const PPROF: &[u8] = b"\x0A\x04\x08\x01\x10\x02\
    \x12\x06\x0A\x01\x01\x12\x01\x07\
    \x22\x0A\x08\x01\x22\x02\x08\x01\x22\x02\x08\x02\
    \x2A\x04\x08\x01\x10\x03\x2A\x04\x08\x02\x10\x04\
    \x32\x00\x32\x07samples\x32\x05count\x32\x04leaf\x32\x04main";

fn read(
    alloc: Global,
    query: &str,
    body: &[u8],
) -> Result<Result<Push, Refused<IngestFault>>, Fail> {
    let tenant = Tenant::read(alloc, b"team")?;
    let parameters = read_parameters(alloc, query.as_bytes())?;
    Ok(read_ingest(alloc, tenant, &parameters, body, MOMENT_MS))
}

// The profiles of a request: a line of the labels, the type and the time, and one of each stack.
fn told(alloc: Global, query: &str, body: &[u8]) -> Result<String, Fail> {
    let push = read(alloc, query, body)??;
    let mut text = String::new(alloc);
    for profile in push.profiles.as_slice() {
        text.push_str(&format!(in alloc; "{profile}")?)?;
    }
    Ok(text)
}

#[test]
fn a_profile_has_what_parameters_and_body_say(rt: HostRuntime) -> Result<(), Fail> {
    let alloc = rt.alloc();
    let cases: [(&str, &[u8], &str); 5] = [
        (
            "name=app%7Bzone%3Db,env%3Dprod%7D&from=1600000000&units=bytes",
            b"main;a 3\nmain 2\n",
            "env=prod service_name=app zone=b process_cpu:samples:bytes:cpu:nanoseconds 1600000000000\nmain 2\nmain;a 3\n",
        ),
        // Folded stacks, counted, at the moment of the request.
        (
            "name=app",
            b"a 1",
            "service_name=app process_cpu:samples:count:cpu:nanoseconds 1700000000000\na 1\n",
        ),
        // Each line once.
        (
            "name=app&format=lines",
            b"a;b\nc 4\na;b",
            "service_name=app process_cpu:samples:count:cpu:nanoseconds 1700000000000\na;b 2\nc 4 1\n",
        ),
        // A pprof says its units itself, but no time here.
        (
            "name=app&format=pprof&from=now-1s&units=bytes",
            PPROF,
            "service_name=app process_cpu:samples:count:: 1699999999000\nmain;leaf 7\n",
        ),
        // Two labels name the type, and are no labels of the profile.
        (
            "name=app{__profile_type__=x,env=prod,__name__=memory}",
            b"",
            "env=prod service_name=app memory:samples:count:cpu:nanoseconds 1700000000000\n",
        ),
    ];
    for (query, body, text) in cases {
        assert_eq!(rt; told(alloc, query, body)?.as_str(), text, "{query}");
    }
    Ok(())
}

fn fault_of(alloc: Global, query: &str, body: &[u8]) -> Result<Option<IngestFault>, Fail> {
    match read(alloc, query, body)? {
        Err(Refused::Fault(fault)) => Ok(Some(fault)),
        _ => Ok(None),
    }
}

#[test]
fn the_first_fault_is_told(rt: HostRuntime) -> Result<(), Fail> {
    let alloc = rt.alloc();
    let mut long = format!(in alloc; "name=app{{a=")?;
    for _ in 0..2049 {
        long.push('b')?;
    }
    long.push('}')?;
    let mut many = format!(in alloc; "name=app{{a0=b")?;
    for number in 1..30 {
        many.push_str(&format!(in alloc; ",a{number}=b")?)?;
    }
    many.push('}')?;
    let cases: [(&str, &[u8], &str, &[u64]); 21] = [
        ("", b"", "I1", &[0]),
        ("name={a=b}", b"", "I1", &[0]),
        ("name=app{a}", b"", "I1", &[5]),
        ("name=app{1a=b}", b"", "L1", &[1]),
        (long.as_str(), b"", "L2", &[1]),
        ("name=app{a=b,a=c}", b"", "L3", &[2]),
        ("name=app{service_name=b}", b"", "L3", &[1]),
        (many.as_str(), b"", "L4", &[]),
        ("name=app&from=soon", b"", "I2", &[]),
        ("name=app&format=jfr", b"", "I3", &[]),
        ("name=app", b"a 1\nmain", "F1", &[2]),
        ("name=app", b"\x1F\x8B", "F7", &[]),
        ("name=app&format=lines", b"a;;b", "F3", &[1]),
        ("name=app&format=pprof", b"\x08", "P1", &[0]),
        ("name=app&format=pprof", b"\x1F\x8B", "P13", &[]),
        (
            "name=app&format=pprof",
            b"\x32\x00\x0A\x04\x08\x05\x10\x00",
            "P3",
            &[1, 0],
        ),
        // The parameters are judged in their order, and the body after them.
        ("name=app{a}&from=soon", b"", "I1", &[5]),
        ("name=app{1a=b}&from=soon", b"", "L1", &[1]),
        ("name=app&from=soon&format=jfr", b"", "I2", &[]),
        ("name=app&format=jfr", b"main", "I3", &[]),
        // A format is told by its letters.
        ("name=app&format=Lines", b"main", "I3", &[]),
    ];
    for (query, body, code, place) in cases {
        match fault_of(alloc, query, body)? {
            Some(fault) => {
                assert_eq!(rt; fault.code(), code, "{query}");
                assert_eq!(rt; fault.place().numbers().as_slice(), place, "{query}");
            }
            None => assert!(rt; false, "{query}"),
        }
    }
    Ok(())
}

#[test]
fn faults_have_texts(rt: HostRuntime) -> Result<(), Fail> {
    for (fault, text) in [
        (IngestFault::Name(3), "`name` is no series' name at byte 3"),
        (
            IngestFault::Label(LabelFault::TooMany),
            "more than 30 labels",
        ),
        (IngestFault::From, "`from` is no time"),
        (IngestFault::Format, "`format` is none that is read"),
        (
            IngestFault::Folded(FoldedFault::NoCount(1)),
            "line 1 has no count",
        ),
        (
            IngestFault::Pprof(PprofFault::Compressed),
            "the profile is compressed",
        ),
        (IngestFault::Weight, "the push is too large"),
    ] {
        assert_eq!(rt; Refused::Fault(fault).to_string(rt.alloc())?.as_str(), text);
    }
    let none = Refused::<IngestFault>::Memory;
    assert_eq!(rt; none.to_string(rt.alloc())?.as_str(), "out of memory");
    Ok(())
}
