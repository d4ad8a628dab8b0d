use crate::{FoldedFault, read_folded, read_lines, write_folded};
use faults::{Place, Refused};
use profile_model::{Name, Stack, StackSums};
use std::alloc::{AllocError, Global};
use std::sync::ArcSlice;
use std::test::Fail;

// Whether sums are written as this text.
fn are_written(alloc: Global, sums: &StackSums, text: &[u8]) -> Result<bool, Fail> {
    let written = write_folded(alloc, sums)?;
    Ok(written.as_slice() == text)
}

// Whether what a body says is written as this text.
fn says(alloc: Global, body: &str, text: &str) -> Result<bool, Fail> {
    let sums = read_folded(alloc, body.as_bytes())?;
    are_written(alloc, &sums, text.as_bytes())
}

fn fault_of(alloc: Global, body: &[u8]) -> Option<Refused<FoldedFault>> {
    read_folded(alloc, body).err()
}

fn fault_of_lines(alloc: Global, body: &[u8]) -> Option<Refused<FoldedFault>> {
    read_lines(alloc, body).err()
}

#[test]
fn stacks_are_read_and_written_in_order(rt: HostRuntime) -> Result<(), Fail> {
    let alloc = rt.alloc();
    for (body, text) in [
        (
            "main;a 3\nmain;b 5\nmain 2\n",
            "main 2\nmain;a 3\nmain;b 5\n",
        ),
        // Without a newline at the end.
        ("do it;x y 4", "do it;x y 4\n"),
        // Nothing but empty lines.
        ("\n\n", ""),
        ("", ""),
        // An empty line between others.
        ("b 1\n\na 2", "a 2\nb 1\n"),
        // Equal stacks are summed.
        ("a;b 1\nc 2\na;b 40\n", "a;b 41\nc 2\n"),
        // Leading zeros.
        ("a 007\nb 00000000000000000000000000000001\n", "a 7\nb 1\n"),
        // A count of 0.
        ("a 0\nb 1\nc 0\n", "b 1\n"),
        // The last space cuts.
        ("a b c 5\n x 1\n", " x 1\na b c 5\n"),
        // The largest total.
        (
            "a 9223372036854775806\nb 1\n",
            "a 9223372036854775806\nb 1\n",
        ),
        // A byte after a frame's name is part of it.
        ("a\t;b\r 1\n", "a?;b? 1\n"),
        ("läs;ö 1\n", "läs;ö 1\n"),
    ] {
        assert!(rt; says(alloc, body, text)?, "{body}");
    }
    Ok(())
}

fn is_stack_of(stack: &Stack, frames: &[&str]) -> bool {
    for (frame, expected) in stack.frames().iter().zip(frames) {
        if frame.as_str() != *expected {
            return false;
        }
    }
    stack.frames().len() == frames.len()
}

// Whether a body says one stack of these frames, with this value.
fn says_one(alloc: Global, body: &[u8], frames: &[&str], count: u64) -> Result<bool, Fail> {
    let sums = read_folded(alloc, body)?;
    for (stack, value) in sums.iter() {
        if !is_stack_of(stack, frames) || *value != count {
            return Ok(false);
        }
    }
    Ok(sums.len() == 1)
}

#[test]
fn frames_stand_from_the_root(rt: HostRuntime) -> Result<(), Fail> {
    assert!(rt; says_one(rt.alloc(), b"do it;x y 4", &["do it", "x y"], 4)?);
    Ok(())
}

#[test]
fn the_first_fault_is_told(rt: HostRuntime) {
    let alloc = rt.alloc();
    for (body, fault) in [
        ("main", FoldedFault::NoCount(1)),
        ("x 1.5", FoldedFault::BadCount(1)),
        ("main 3\r\n", FoldedFault::BadCount(1)),
        ("main ", FoldedFault::BadCount(1)),
        ("main +3", FoldedFault::BadCount(1)),
        ("main -3", FoldedFault::BadCount(1)),
        ("main 9223372036854775808", FoldedFault::BadCount(1)),
        ("main 18446744073709551616", FoldedFault::BadCount(1)),
        ("a;;b 1", FoldedFault::EmptyFrame(1)),
        (";a 1", FoldedFault::EmptyFrame(1)),
        ("a; 1", FoldedFault::EmptyFrame(1)),
        (" 1", FoldedFault::EmptyFrame(1)),
        ("a; 0", FoldedFault::EmptyFrame(1)),
        ("a 9223372036854775807\na 1", FoldedFault::TooLarge(2)),
        ("a 9223372036854775807\nb 0\nc 1", FoldedFault::TooLarge(3)),
        // Empty lines are counted.
        ("a 1\n\n\nb", FoldedFault::NoCount(4)),
        // The earlier line, and in a line the earlier rule.
        ("a 1\nb\n;c x\n", FoldedFault::NoCount(2)),
        ("a 1\n;c x\nb\n", FoldedFault::BadCount(2)),
        ("a 9223372036854775807\n; 1\n", FoldedFault::EmptyFrame(2)),
    ] {
        assert_eq!(rt;
            fault_of(alloc, body.as_bytes()),
            Some(Refused::Fault(fault)),
            "{body}"
        );
    }
}

#[test]
fn a_body_that_is_no_text_is_refused(rt: HostRuntime) {
    let alloc = rt.alloc();
    assert_eq!(rt;
        fault_of(alloc, b"\x1f\x8b\x08"),
        Some(Refused::Fault(FoldedFault::Compressed))
    );
    assert_eq!(rt;
        fault_of_lines(alloc, b"\x1f\x8b"),
        Some(Refused::Fault(FoldedFault::Compressed))
    );
    assert_eq!(rt;
        fault_of(alloc, b"a\nb 1\n\xff"),
        Some(Refused::Fault(FoldedFault::NotUtf8(6)))
    );
    assert_eq!(rt;
        fault_of_lines(alloc, b"ab\xc3"),
        Some(Refused::Fault(FoldedFault::NotUtf8(2)))
    );
}

// A text of parts, each of them so many times.
fn repeated(alloc: Global, parts: &[(&str, u32)]) -> Result<String, AllocError> {
    let mut text = String::new(alloc);
    for (part, times) in parts {
        for _ in 0..*times {
            text.push_str(part)?;
        }
    }
    Ok(text)
}

fn count_of_stacks(alloc: Global, parts: &[(&str, u32)]) -> Result<usize, Fail> {
    let body = repeated(alloc, parts)?;
    let sums = read_folded(alloc, body.as_bytes())?;
    Ok(sums.len())
}

fn fault_of_repeated(
    alloc: Global,
    parts: &[(&str, u32)],
) -> Result<Option<Refused<FoldedFault>>, Fail> {
    let body = repeated(alloc, parts)?;
    Ok(fault_of(alloc, body.as_bytes()))
}

#[test]
fn a_stack_may_be_deep_and_a_frame_long_up_to_a_limit(rt: HostRuntime) -> Result<(), Fail> {
    let alloc = rt.alloc();
    let (deep, long) = (("a;", 1023), ("b", 65535));
    assert_eq!(rt;
        count_of_stacks(alloc, &[deep, ("c 1\n", 1), long, (" 2", 1)])?,
        2
    );
    let cases: [(&[(&str, u32)], FoldedFault); 5] = [
        (
            &[deep, ("c 1\n", 1), long, (" 2\na;b", 1)],
            FoldedFault::NoCount(3),
        ),
        (&[deep, ("c;d 1", 1)], FoldedFault::TooDeep(1)),
        (
            &[("x 1\na;", 1), long, ("b 1", 1)],
            FoldedFault::LongFrame(2),
        ),
        // An empty frame comes before too many, and too many before a long one.
        (&[deep, ("c;; 1", 1)], FoldedFault::EmptyFrame(1)),
        (
            &[long, ("b;", 1), deep, ("c;d 1", 1)],
            FoldedFault::TooDeep(1),
        ),
    ];
    for (parts, fault) in cases {
        assert_eq!(rt;
            fault_of_repeated(alloc, parts)?,
            Some(Refused::Fault(fault))
        );
    }
    Ok(())
}

fn lines_say(alloc: Global, body: &[u8], text: &[u8]) -> Result<bool, Fail> {
    let sums = read_lines(alloc, body)?;
    are_written(alloc, &sums, text)
}

#[test]
fn whole_lines_count_once_each(rt: HostRuntime) -> Result<(), Fail> {
    let alloc = rt.alloc();
    assert!(rt; lines_say(alloc, b"a;b\nc d 4\n\na;b", b"a;b 2\nc d 4 1\n")?);
    assert_eq!(rt;
        fault_of_lines(alloc, b"a\n\nb;;c"),
        Some(Refused::Fault(FoldedFault::EmptyFrame(3)))
    );
    Ok(())
}

fn stack(alloc: Global, frames: &[&str]) -> Result<Stack, Fail> {
    let mut names = Vec::new(alloc);
    for frame in frames {
        names.push(Name::from_text(alloc, frame)?)?;
    }
    Ok(Stack::from_frames(ArcSlice::from_vec(names)?)?)
}

fn is_written_as(alloc: Global, frames: &[&str], value: u64, text: &[u8]) -> Result<bool, Fail> {
    let stack = stack(alloc, frames)?;
    let mut sums = StackSums::new(alloc);
    sums.add(stack, value)?;
    are_written(alloc, &sums, text)
}

#[test]
fn separators_and_control_bytes_in_frames_are_replaced(rt: HostRuntime) -> Result<(), Fail> {
    let frames = ["a;b\x01", "c\nd \x1f\x20"];
    assert!(rt; is_written_as(rt.alloc(), &frames, 3, b"a:b?;c?d ?  3\n")?);
    Ok(())
}

fn reads(alloc: Global, refused: Refused<FoldedFault>, text: &str) -> Result<bool, Fail> {
    let words = refused.to_string(alloc)?;
    Ok(words.as_str() == text)
}

#[test]
fn faults_have_codes_places_and_texts(rt: HostRuntime) -> Result<(), Fail> {
    let alloc = rt.alloc();
    for (fault, code, place, text) in [
        (
            FoldedFault::NoCount(1),
            "F1",
            Place::At(1),
            "line 1 has no count",
        ),
        (
            FoldedFault::BadCount(2),
            "F2",
            Place::At(2),
            "line 2 ends in no count",
        ),
        (
            FoldedFault::EmptyFrame(3),
            "F3",
            Place::At(3),
            "line 3 has an empty frame",
        ),
        (
            FoldedFault::TooLarge(4),
            "F4",
            Place::At(4),
            "the counts up to line 4 are too large",
        ),
        (
            FoldedFault::TooDeep(5),
            "F5",
            Place::At(5),
            "line 5 has too many frames",
        ),
        (
            FoldedFault::NotUtf8(6),
            "F6",
            Place::At(6),
            "no UTF-8 at byte 6",
        ),
        (
            FoldedFault::Compressed,
            "F7",
            Place::Whole,
            "the body is compressed",
        ),
        (
            FoldedFault::LongFrame(8),
            "F8",
            Place::At(8),
            "line 8 has a frame that is too long",
        ),
    ] {
        assert_eq!(rt; fault.code(), code);
        assert_eq!(rt; fault.place(), place);
        assert!(rt; reads(alloc, Refused::Fault(fault), text)?, "{text}");
    }
    assert!(rt; reads(alloc, Refused::Memory, "out of memory")?);
    Ok(())
}
