// Pushes of pprofs, raw and in JSON.
use super::talk::{Talk, answered, post};
use std::alloc::{AllocError, Global};
use std::test::Fail;

// One sample type; one sample of a location with two lines, `leaf` in `main`, and the value 7.
const PPROF: &[u8] =
    b"\x0a\x04\x08\x01\x10\x02\x12\x06\x0a\x01\x01\x12\x01\x07\x22\x0a\x08\x01\x22\x02\x08\x01\x22\x02\x08\x02\x2a\x04\x08\x01\x10\x03\x2a\x04\x08\x02\x10\x04\x32\x00\x32\x07samples\x32\x05count\x32\x04leaf\x32\x04main";

// The same with the ids and the value unpacked, the value in nine bytes, and an unknown field.
const SPELLED: &[u8] =
    b"\x0a\x04\x08\x01\x10\x02\x22\x0a\x08\x01\x22\x02\x08\x01\x22\x02\x08\x02\x2a\x04\x08\x01\x10\x03\x2a\x04\x08\x02\x10\x04\x32\x00\x32\x07samples\x32\x05count\x32\x04leaf\x32\x04main\x12\x0c\x08\x01\x10\x87\x80\x80\x80\x80\x80\x80\x80\x00\x98\x06\x05";

// The first without its sample.
const NO_SAMPLE: &[u8] =
    b"\x0a\x04\x08\x01\x10\x02\x22\x0a\x08\x01\x22\x02\x08\x01\x22\x02\x08\x02\x2a\x04\x08\x01\x10\x03\x2a\x04\x08\x02\x10\x04\x32\x00\x32\x07samples\x32\x05count\x32\x04leaf\x32\x04main";

// The first with the value -1.
const NEGATIVE: &[u8] =
    b"\x0a\x04\x08\x01\x10\x02\x12\x0f\x0a\x01\x01\x12\x0a\xff\xff\xff\xff\xff\xff\xff\xff\xff\x01\x22\x0a\x08\x01\x22\x02\x08\x01\x22\x02\x08\x02\x2a\x04\x08\x01\x10\x03\x2a\x04\x08\x02\x10\x04\x32\x00\x32\x07samples\x32\x05count\x32\x04leaf\x32\x04main";

// Two sample types, with the values 7 and 70 of one stack.
const TWO_TYPES: &[u8] =
    b"\x0a\x04\x08\x01\x10\x02\x0a\x04\x08\x03\x10\x04\x12\x07\x0a\x01\x01\x12\x02\x07\x46\x22\x0a\x08\x01\x22\x02\x08\x01\x22\x02\x08\x02\x2a\x04\x08\x01\x10\x05\x2a\x04\x08\x02\x10\x06\x32\x00\x32\x07samples\x32\x05count\x32\x03cpu\x32\x0bnanoseconds\x32\x04leaf\x32\x04main\x5a\x04\x08\x03\x10\x04";

const INGEST: &str = "/ingest?name=app&format=pprof";

const PUSH: &str = "/push.v1.PusherService/Push";

#[test]
fn a_pprof_is_rendered_however_it_is_spelled(rt: HostRuntime) -> Result<(), Fail> {
    let mut talk = Talk::new(rt.alloc());
    talk.keeps(INGEST, PPROF, 1)?;
    talk.renders("query=process_cpu:samples:count::", 1, "main;leaf 7\n")?;
    talk.keeps(INGEST, SPELLED, 2)?;
    talk.renders("query=process_cpu:samples:count::", 2, "main;leaf 14\n")?;
    talk.keeps(INGEST, NO_SAMPLE, 3)?;
    talk.renders("query=process_cpu:samples:count::", 3, "main;leaf 14\n")?;
    talk.holds(&rt, 3)
}

#[test]
fn each_sample_type_is_a_profile_of_its_own_type(rt: HostRuntime) -> Result<(), Fail> {
    let mut talk = Talk::new(rt.alloc());
    talk.keeps(INGEST, TWO_TYPES, 1)?;
    talk.renders(
        "query=process_cpu:samples:count:cpu:nanoseconds",
        1,
        "main;leaf 7\n",
    )?;
    talk.renders(
        "query=process_cpu:cpu:nanoseconds:cpu:nanoseconds",
        1,
        "main;leaf 70\n",
    )?;
    talk.holds(&rt, 1)
}

#[test]
fn a_faulty_pprof_keeps_nothing(rt: HostRuntime) -> Result<(), Fail> {
    let alloc = rt.alloc();
    let mut talk = Talk::new(alloc);
    for (body, code, place) in [
        (NEGATIVE, "P9", "0,0"),
        (b"\x0a\x03\x08\x01\x10".as_slice(), "P1", "4"),
        (b"\x32\x00\x20".as_slice(), "P1", "2"),
        (b"\x08".as_slice(), "P1", "0"),
        (b"\x0b".as_slice(), "P1", "0"),
        (
            b"\x08\x80\x80\x80\x80\x80\x80\x80\x80\x80\x02".as_slice(),
            "P1",
            "0",
        ),
        (b"\x0a\x02\x08\x01".as_slice(), "P2", ""),
        (b"\x32\x00\x32\x01\xff".as_slice(), "P12", "1"),
        (b"\x32\x00\x0a\x04\x08\x05\x10\x00".as_slice(), "P3", "1,0"),
        (b"\x32\x00\x2a\x00".as_slice(), "P4", "5,0"),
        (
            b"\x32\x00\x22\x02\x08\x01\x22\x02\x08\x01".as_slice(),
            "P5",
            "4,1",
        ),
        (b"\x32\x00\x12\x03\x0a\x01\x05".as_slice(), "P6", "0"),
        (
            b"\x32\x00\x22\x06\x08\x01\x22\x02\x08\x09".as_slice(),
            "P7",
            "0",
        ),
        (b"\x32\x00\x0a\x00\x12\x00".as_slice(), "P8", "0"),
        (
            b"\x32\x00\x0a\x00\x12\x0a\x10\xff\xff\xff\xff\xff\xff\xff\xff\x7f\x12\x02\x10\x01".as_slice(),
            "P10",
            "0",
        ),
    ] {
        let request = post(alloc, INGEST, body)?;
        talk.faults(&request, "400 Bad Request", code, place)?;
    }
    let packed = post(alloc, INGEST, b"\x1f\x8b\x08")?;
    talk.refuses(
        &packed,
        "415 Unsupported Media Type",
        "{\"fault\":\"encoding\"}",
    )?;
    talk.holds(&rt, 0)
}

// The pprof of the value 7, one of two sample types, and one that breaks off.
const SEVEN: &str =
    "CgQIARACEgYKAQESAQciCggBIgIIASICCAIqBAgBEAMqBAgCEAQyADIHc2FtcGxlczIFY291bnQyBGxlYWYyBG1haW4=";

// A body of one series with these labels and this text.
fn pushes(alloc: Global, labels: &str, raw: &str) -> Result<String, AllocError> {
    format!(in alloc;
        "{{\"series\":[{{\"labels\":[{labels}],\"samples\":[{{\"rawProfile\":\"{raw}\"}}]}}]}}"
    )
}

#[test]
fn a_json_push_is_kept_and_found_by_its_labels(rt: HostRuntime) -> Result<(), Fail> {
    let alloc = rt.alloc();
    let mut talk = Talk::new(alloc);
    let plain = pushes(alloc, "", SEVEN)?;
    let named = pushes(
        alloc,
        "{\"name\":\"service_name\",\"value\":\"shop\"},{\"name\":\"__name__\",\"value\":\"wall\"}",
        SEVEN,
    )?;
    for (front, body) in [plain.as_str(), named.as_str(), "{}"]
        .into_iter()
        .enumerate()
    {
        let request = post(alloc, PUSH, body.as_bytes())?;
        let reply = answered(alloc, "application/json", front as u64 + 1, "{}")?;
        talk.says(&request, reply.as_str())?;
    }
    talk.renders(
        "query=process_cpu:samples:count::%7Bservice_name=%22unspecified%22%7D",
        3,
        "main;leaf 7\n",
    )?;
    talk.renders(
        "query=wall:samples:count::%7Bservice_name=%22shop%22%7D",
        3,
        "main;leaf 7\n",
    )?;
    talk.holds(&rt, 3)
}

#[test]
fn a_push_with_a_bad_series_keeps_none(rt: HostRuntime) -> Result<(), Fail> {
    let alloc = rt.alloc();
    let mut talk = Talk::new(alloc);
    for (raw, status, code, place) in [
        ("H4sI", "415 Unsupported Media Type", "J5", "1,0,13"),
        ("MgAg", "400 Bad Request", "J5", "1,0,1"),
        ("AB", "400 Bad Request", "J4", "1,0"),
    ] {
        let body = format!(in alloc;
            "{{\"series\":[{{\"labels\":[],\"samples\":[{{\"rawProfile\":\"{SEVEN}\"}}]}},{{\"labels\":[],\"samples\":[{{\"rawProfile\":\"{raw}\"}}]}}]}}"
        )?;
        let request = post(alloc, PUSH, body.as_str().as_bytes())?;
        talk.faults(&request, status, code, place)?;
    }
    for (body, code, place) in [
        ("", "J1", ""),
        ("{\"series\":7}", "J2", "0,0"),
        (
            "{\"series\":[{\"labels\":[],\"samples\":[{\"rawProfile\":\"AB\"},{}]}]}",
            "J2",
            "0,1",
        ),
        (
            "{\"series\":[{\"labels\":[{\"name\":\"1\",\"value\":\"\"}],\"samples\":[]}]}",
            "L1",
            "0,0",
        ),
    ] {
        let request = post(alloc, PUSH, body.as_bytes())?;
        talk.faults(&request, "400 Bad Request", code, place)?;
    }
    let request = post(alloc, PUSH, pushes(alloc, "", "H4sI")?.as_str().as_bytes())?;
    talk.faults(&request, "415 Unsupported Media Type", "J5", "0,0,13")?;
    talk.holds(&rt, 0)
}

// So many stacks of a thousand frames, whose one name has 65,000 bytes.
fn heavy(alloc: Global, stacks: usize) -> Result<Vec<u8>, AllocError> {
    let mut bytes = Vec::from_slice(alloc, b"\x0a\x04\x08\x01\x10\x02")?;
    for shorter in 0..stacks.min(8) {
        let frames = 1024 - shorter;
        push_field(&mut bytes, 0x12, frames + 6)?;
        push_field(&mut bytes, 0x0a, frames)?;
        for _ in 0..frames {
            bytes.push(1)?;
        }
        bytes.extend_from_slice(b"\x12\x01\x01")?;
    }
    bytes.extend_from_slice(
        b"\x22\x06\x08\x01\x22\x02\x08\x01\x2a\x04\x08\x01\x10\x03\x32\x00\x32\x01s\x32\x01c\x32\xe8\xfb\x03",
    )?;
    for _ in 0..65_000 {
        bytes.push(b'n')?;
    }
    Ok(bytes)
}

// The tag of a field and a length of two bytes.
fn push_field(bytes: &mut Vec<u8>, tag: u8, length: usize) -> Result<(), AllocError> {
    bytes.push(tag)?;
    bytes.push((length % 128) as u8 | 0x80)?;
    bytes.push((length / 128 % 128) as u8)?;
    Ok(())
}

#[test]
fn a_push_may_weigh_so_much_and_no_more(rt: HostRuntime) -> Result<(), Fail> {
    let alloc = rt.alloc();
    let mut talk = Talk::new(alloc);
    talk.keeps(INGEST, &heavy(alloc, 4)?, 1)?;
    let request = post(alloc, INGEST, &heavy(alloc, 5)?)?;
    talk.faults(&request, "413 Content Too Large", "P14", "0,0")?;
    talk.holds(&rt, 1)
}
