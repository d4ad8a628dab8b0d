// Worked profiles, whose bytes were computed by hand, and what is read of them again.
use crate::write_pprof;
use pprof_codec::{Base, read_pprof};
use profile_model::{LabelSet, Name, ProfileType, Stack, StackSums};
use std::alloc::Global;
use std::sync::ArcSlice;
use std::test::Fail;

// The frames of a stack, root first, and its value.
type Row<'a> = (&'a [&'a str], u64);

fn stack_of(alloc: Global, frames: &[&str]) -> Result<Stack, Fail> {
    let mut names = Vec::new(alloc);
    for frame in frames {
        names.push(Name::from_text(alloc, frame)?)?;
    }
    Ok(Stack::from_frames(ArcSlice::from_vec(names)?)?)
}

fn sums_of(alloc: Global, rows: &[Row]) -> Result<StackSums, Fail> {
    let mut sums = StackSums::new(alloc);
    for (frames, value) in rows {
        sums.add(stack_of(alloc, frames)?, *value)?;
    }
    Ok(sums)
}

fn written(alloc: Global, kind: &str, rows: &[Row]) -> Result<Vec<u8>, Fail> {
    let kind = ProfileType::read(alloc, kind)?;
    let sums = sums_of(alloc, rows)?;
    Ok(write_pprof(alloc, &kind, &sums)?)
}

fn are_written(alloc: Global, kind: &str, rows: &[Row], bytes: &[u8]) -> Result<bool, Fail> {
    let found = written(alloc, kind, rows)?;
    Ok(found.as_slice() == bytes)
}

const KIND: &str = "process_cpu:samples:count:cpu:nanoseconds";

#[test]
fn a_stack_is_written_from_its_leaf(rt: HostRuntime) -> Result<(), Fail> {
    let bytes = b"\x0a\x04\x08\x01\x10\x02\
        \x12\x07\x0a\x02\x01\x02\x12\x01\x07\
        \x22\x06\x08\x01\x22\x02\x08\x01\x22\x06\x08\x02\x22\x02\x08\x02\
        \x2a\x04\x08\x01\x10\x05\x2a\x04\x08\x02\x10\x06\
        \x32\x00\x32\x07samples\x32\x05count\x32\x03cpu\x32\x0bnanoseconds\x32\x04leaf\x32\x04main\
        \x5a\x04\x08\x03\x10\x04";
    assert!(rt; are_written(rt.alloc(), KIND, &[(&["main", "leaf"], 7)], bytes)?);
    Ok(())
}

#[test]
fn stacks_and_frames_ascend(rt: HostRuntime) -> Result<(), Fail> {
    let rows: [Row; 3] = [
        (&["main", "a"], 300),
        (&["main"], 2),
        (&["b", "main", "b"], 1),
    ];
    let bytes = b"\x0a\x04\x08\x01\x10\x02\
        \x12\x08\x0a\x03\x02\x03\x02\x12\x01\x01\
        \x12\x06\x0a\x01\x03\x12\x01\x02\
        \x12\x08\x0a\x02\x01\x03\x12\x02\xac\x02\
        \x22\x06\x08\x01\x22\x02\x08\x01\x22\x06\x08\x02\x22\x02\x08\x02\x22\x06\x08\x03\x22\x02\x08\x03\
        \x2a\x04\x08\x01\x10\x05\x2a\x04\x08\x02\x10\x06\x2a\x04\x08\x03\x10\x07\
        \x32\x00\x32\x07samples\x32\x05count\x32\x03cpu\x32\x0bnanoseconds\x32\x01a\x32\x01b\x32\x04main\
        \x5a\x04\x08\x03\x10\x04";
    assert!(rt; are_written(rt.alloc(), KIND, &rows, bytes)?);
    Ok(())
}

#[test]
fn a_text_is_written_once(rt: HostRuntime) -> Result<(), Fail> {
    // A part comes twice, a frame is a part, and the period's type is empty.
    let bytes = b"\x0a\x04\x08\x01\x10\x01\
        \x12\x0f\x0a\x02\x01\x02\x12\x09\xff\xff\xff\xff\xff\xff\xff\xff\x7f\
        \x22\x06\x08\x01\x22\x02\x08\x01\x22\x06\x08\x02\x22\x02\x08\x02\
        \x2a\x04\x08\x01\x10\x01\x2a\x04\x08\x02\x10\x02\
        \x32\x00\x32\x03cpu\x32\x04main\
        \x5a\x02\x10\x02";
    let rows: [Row; 1] = [(&["main", "cpu"], 9_223_372_036_854_775_807)];
    assert!(rt; are_written(rt.alloc(), "a:cpu:cpu::main", &rows, bytes)?);
    Ok(())
}

#[test]
fn nothing_is_written_of_what_is_empty(rt: HostRuntime) -> Result<(), Fail> {
    let alloc = rt.alloc();
    let none = b"\x0a\x04\x08\x01\x10\x02\
        \x32\x00\x32\x07samples\x32\x05count\x32\x03cpu\x32\x0bnanoseconds\
        \x5a\x04\x08\x03\x10\x04";
    assert!(rt; are_written(alloc, KIND, &[], none)?);
    let unnamed = b"\x0a\x00\
        \x12\x06\x0a\x01\x01\x12\x01\x01\
        \x22\x06\x08\x01\x22\x02\x08\x01\
        \x2a\x04\x08\x01\x10\x01\
        \x32\x00\x32\x01x\
        \x5a\x00";
    assert!(rt; are_written(alloc, "::::", &[(&["x"], 1)], unnamed)?);
    Ok(())
}

// Whether what is read of the written bytes is this text.
fn is_read_back(alloc: Global, kind: &str, rows: &[Row], text: &str) -> Result<bool, Fail> {
    let bytes = written(alloc, kind, rows)?;
    let base = Base {
        labels: LabelSet::of_service(alloc, Name::from_text(alloc, "app")?)?,
        name: Name::cleaned(alloc, "other")?,
        fallback_ms: 5,
    };
    let profiles = read_pprof(alloc, &bytes, &base)?;
    let mut found = String::new(alloc);
    for profile in &profiles {
        found.push_str(&format!(in alloc; "{profile}")?)?;
    }
    Ok(found.as_str() == text)
}

#[test]
fn what_was_written_is_read_back(rt: HostRuntime) -> Result<(), Fail> {
    let rows: [Row; 3] = [
        (&["main", "a"], 300),
        (&["main"], 2),
        (&["b", "main", "b"], 1),
    ];
    let text =
        "service_name=app other:samples:count:cpu:nanoseconds 5\nb;main;b 1\nmain 2\nmain;a 300\n";
    assert!(rt; is_read_back(rt.alloc(), KIND, &rows, text)?);
    let folded: [Row; 3] = [(&["main", "a"], 3), (&["main", "b"], 5), (&["main"], 2)];
    let same =
        "service_name=app other:samples:count:cpu:nanoseconds 5\nmain 2\nmain;a 3\nmain;b 5\n";
    assert!(rt; is_read_back(rt.alloc(), KIND, &folded, same)?);
    Ok(())
}
