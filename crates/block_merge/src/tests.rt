// Files of objects, merged, by their bytes.
use super::*;
use segment_file::{Object, decode};
use std::alloc::Global;
use std::test::Fail;

// The bytes of one push each: without profiles by two tenants, and one stack of value 1.
const EMPTY: &[u8] = b"\0\0\0\x02t1\0\0\0\0";

const OTHER: &[u8] = b"\0\0\0\x03t-2\0\0\0\0";

const STACK: &[u8] = b"\0\0\0\x02t1\
    \0\0\0\x01\
    \0\0\0\x01\0\0\0\x0Cservice_name\0\0\0\x03app\
    \0\0\0\x0Bprocess_cpu\0\0\0\x07samples\0\0\0\x05count\0\0\0\x03cpu\0\0\0\x0Bnanoseconds\
    \0\0\x01\x8B\xCF\xE5\x68\0\
    \0\0\0\x01\
    \0\0\0\x01\0\0\0\x01p\
    \0\0\0\0\0\0\0\x01";

// The number behind that of the last of these pushes.
fn end_of(lo: u64, parts: &[&[&[u8]]]) -> u64 {
    parts
        .iter()
        .fold(lo, |end, part| end.saturating_add(part.len() as u64))
}

// The file of these pushes, whose first has the number lo.
fn file(alloc: Global, lo: u64, parts: &[&[&[u8]]]) -> Result<Vec<u8>, Fail> {
    let mut bytes = Vec::new(alloc);
    bytes.extend_from_slice(b"PYO0")?;
    bytes.extend_from_slice(&lo.to_be_bytes())?;
    bytes.extend_from_slice(&end_of(lo, parts).to_be_bytes())?;
    for part in parts {
        for push in *part {
            bytes.extend_from_slice(push)?;
        }
    }
    Ok(bytes)
}

fn object(alloc: Global, lo: u64, part: &[&[u8]]) -> Result<Object, Fail> {
    let bytes = file(alloc, lo, &[part])?;
    Ok(decode(alloc, &bytes)?)
}

// Two as one, where the second begins where the first ends.
fn both(alloc: Global, first: Object, second: Object) -> Result<Option<Object>, Fail> {
    if first.hi() != second.lo() {
        return Ok(None);
    }
    let objects = Vec::from_array(alloc, [first, second])?;
    Ok(Some(merge(alloc, objects)?))
}

fn all_three(alloc: Global, lo: u64, parts: &[&[&[u8]]; 3]) -> Result<Option<Object>, Fail> {
    let first = object(alloc, lo, parts[0])?;
    let second = object(alloc, first.hi(), parts[1])?;
    let third = object(alloc, second.hi(), parts[2])?;
    if first.hi() != second.lo() || second.hi() != third.lo() {
        return Ok(None);
    }
    let objects = Vec::from_array(alloc, [first, second, third])?;
    Ok(Some(merge(alloc, objects)?))
}

fn one_by_one(alloc: Global, lo: u64, parts: &[&[&[u8]]]) -> Result<Option<Object>, Fail> {
    let mut merged = None;
    for part in parts {
        merged = match merged {
            None => Some(object(alloc, lo, part)?),
            Some(first) => with_next(alloc, first, part)?,
        };
    }
    Ok(merged)
}

fn with_next(alloc: Global, first: Object, part: &[&[u8]]) -> Result<Option<Object>, Fail> {
    let second = object(alloc, first.hi(), part)?;
    both(alloc, first, second)
}

fn has_file(alloc: Global, object: Option<Object>, bytes: &[u8]) -> Result<bool, Fail> {
    match object {
        Some(object) => Ok(object.encode(alloc)?.as_slice() == bytes),
        None => Ok(false),
    }
}

fn are_merged_at_once(alloc: Global, lo: u64, parts: &[&[&[u8]]; 3]) -> Result<bool, Fail> {
    let bytes = file(alloc, lo, parts)?;
    has_file(alloc, all_three(alloc, lo, parts)?, &bytes)
}

fn are_merged_in_turn(alloc: Global, lo: u64, parts: &[&[&[u8]]]) -> Result<bool, Fail> {
    let bytes = file(alloc, lo, parts)?;
    has_file(alloc, one_by_one(alloc, lo, parts)?, &bytes)
}

// The first number, and the pushes of each object.
const CASES: [(u64, &[&[&[u8]]; 3]); 4] = [
    (0, &[&[EMPTY], &[OTHER], &[EMPTY]]),
    (5, &[&[STACK, OTHER], &[EMPTY], &[OTHER, STACK, STACK]]),
    (1 << 40, &[&[OTHER], &[EMPTY, EMPTY, STACK], &[OTHER]]),
    (u64::MAX - 4, &[&[EMPTY], &[STACK], &[OTHER, OTHER]]),
];

#[test]
fn a_merged_file_has_one_head_and_all_pushes_in_order(rt: HostRuntime) -> Result<(), Fail> {
    for (lo, parts) in CASES {
        assert!(rt;
            are_merged_at_once(rt.alloc(), lo, parts)?,
            "at once from {lo}"
        );
        assert!(rt;
            are_merged_in_turn(rt.alloc(), lo, parts)?,
            "in turn from {lo}"
        );
    }
    Ok(())
}

const EIGHT: [&[&[u8]]; 8] = [&[STACK]; 8];

#[test]
fn eight_pushes_of_a_stack_become_one_object(rt: HostRuntime) -> Result<(), Fail> {
    assert!(rt; are_merged_in_turn(rt.alloc(), 0, &EIGHT)?);
    Ok(())
}
