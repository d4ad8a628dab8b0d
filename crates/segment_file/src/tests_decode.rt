// Objects read from bytes, and the faults of bytes that are none.
use super::*;
use faults::Refused;
use std::alloc::Global;
use std::test::Fail;

// Push 0, of the tenant t1, without profiles.
const ONE_PUSH: [u8; 30] = [
    80, 89, 79, 48, 0, 0, 0, 0, 0, 0, 0, 0, 0, 0, 0, 0, 0, 0, 0, 1, 0, 0, 0, 2, 116, 49, 0, 0, 0, 0,
];

// Push 5, of the tenant t1. Its profile has the labels a and c, and the stacks m, of value 3, and m n, of value 4.
const ONE_PROFILE: [u8; 129] = [
    80, 89, 79, 48, 0, 0, 0, 0, 0, 0, 0, 5, 0, 0, 0, 0, 0, 0, 0, 6, 0, 0, 0, 2, 116, 49, 0, 0, 0,
    1, 0, 0, 0, 2, 0, 0, 0, 1, 97, 0, 0, 0, 1, 98, 0, 0, 0, 1, 99, 0, 0, 0, 1, 100, 0, 0, 0, 3, 99,
    112, 117, 0, 0, 0, 1, 115, 0, 0, 0, 0, 0, 0, 0, 0, 0, 0, 0, 0, 0, 0, 0, 0, 0, 0, 0, 1, 0, 0, 0,
    2, 0, 0, 0, 1, 0, 0, 0, 1, 109, 0, 0, 0, 0, 0, 0, 0, 3, 0, 0, 0, 2, 0, 0, 0, 1, 109, 0, 0, 0,
    1, 110, 0, 0, 0, 0, 0, 0, 0, 4,
];

fn numbers(alloc: Global, bytes: &[u8]) -> Result<(u64, u64, usize), Fail> {
    let object = decode(alloc, bytes)?;
    Ok((object.lo(), object.hi(), object.pushes().len()))
}

// All values of the one push.
fn total(alloc: Global, bytes: &[u8]) -> Result<u128, Fail> {
    let object = decode(alloc, bytes)?;
    match object.pushes() {
        [push] => Ok(push.total()),
        _ => Ok(0),
    }
}

fn is_fault(alloc: Global, bytes: &[u8], rule: ObjectRule, at: usize) -> bool {
    match decode(alloc, bytes) {
        Err(Refused::Fault(fault)) => fault == ObjectFault { rule, at },
        Err(Refused::Memory) => false,
        Ok(_object) => false,
    }
}

// The bytes with another at this place.
fn changed<const N: usize>(mut bytes: [u8; N], place: usize, byte: u8) -> [u8; N] {
    if let Some(kept) = bytes.get_mut(place) {
        *kept = byte;
    }
    bytes
}

#[test]
fn a_file_of_one_push_is_read(rt: HostRuntime) -> Result<(), Fail> {
    let alloc = rt.alloc();
    assert_eq!(rt; numbers(alloc, &ONE_PUSH)?, (0, 1, 1));
    assert_eq!(rt; numbers(alloc, &ONE_PROFILE)?, (5, 6, 1));
    assert_eq!(rt; total(alloc, &ONE_PROFILE)?, 7);
    Ok(())
}

#[test]
fn a_file_that_is_cut_short_has_its_fault_at_its_end(rt: HostRuntime) {
    let alloc = rt.alloc();
    for length in 0..ONE_PROFILE.len() {
        let front = &ONE_PROFILE[..length];
        assert!(rt;
            is_fault(alloc, front, ObjectRule::Form, length),
            "{length} bytes"
        );
    }
}

#[test]
fn bytes_behind_the_last_push_are_a_fault(rt: HostRuntime) {
    let mut bytes = [7; 31];
    bytes[..30].copy_from_slice(&ONE_PUSH);
    assert!(rt; is_fault(rt.alloc(), &bytes, ObjectRule::Form, 30));
}

#[test]
fn a_wrong_byte_is_a_fault_of_its_field(rt: HostRuntime) {
    let alloc = rt.alloc();
    // The mark, the two numbers, the tenant and its length, the count of profiles.
    for (place, byte, rule, at) in [
        (0, b'Q', ObjectRule::Form, 0),
        (3, b'1', ObjectRule::Form, 0),
        (11, 1, ObjectRule::Form, 12),
        (19, 0, ObjectRule::Form, 12),
        (19, 2, ObjectRule::Form, 30),
        (20, 1, ObjectRule::Form, 30),
        (23, 1, ObjectRule::Content, 25),
        (23, 3, ObjectRule::Content, 20),
        (24, b'/', ObjectRule::Content, 20),
        (25, 0xFF, ObjectRule::Content, 20),
        (26, 1, ObjectRule::Content, 26),
        (29, 1, ObjectRule::Form, 30),
    ] {
        let bytes = changed(ONE_PUSH, place, byte);
        assert!(rt; is_fault(alloc, &bytes, rule, at), "{byte} at {place}");
    }
}

#[test]
fn a_wrong_byte_in_a_profile_is_a_fault_of_its_field(rt: HostRuntime) {
    let alloc = rt.alloc();
    // The labels, the type, the counts of samples and of frames, the frames, the values.
    for (place, byte, rule, at) in [
        (33, 32, ObjectRule::Content, 30),
        (38, b'1', ObjectRule::Content, 34),
        (42, 0, ObjectRule::Content, 39),
        (43, 0xFF, ObjectRule::Content, 39),
        (48, b'a', ObjectRule::Content, 44),
        (48, b'A', ObjectRule::Content, 44),
        (59, b':', ObjectRule::Content, 54),
        (89, 1, ObjectRule::Form, 107),
        (89, 3, ObjectRule::Form, 129),
        (93, 0, ObjectRule::Content, 90),
        (98, 0xFF, ObjectRule::Content, 94),
        (99, 0x80, ObjectRule::Content, 99),
        (106, 0, ObjectRule::Content, 99),
        (115, b'l', ObjectRule::Content, 116),
        (121, 0x80, ObjectRule::Content, 121),
        (128, 0, ObjectRule::Content, 121),
    ] {
        let bytes = changed(ONE_PROFILE, place, byte);
        assert!(rt; is_fault(alloc, &bytes, rule, at), "{byte} at {place}");
    }
}

// The places from one to another where FF is this fault: of each byte of the file.
const FF_IN_ONE_PUSH: [(usize, usize, ObjectRule, usize); 6] = [
    (0, 3, ObjectRule::Form, 0),
    (4, 11, ObjectRule::Form, 12),
    (12, 23, ObjectRule::Form, 30),
    (24, 25, ObjectRule::Content, 20),
    (26, 28, ObjectRule::Content, 26),
    (29, 29, ObjectRule::Form, 30),
];

// The same of the larger file, but for the bytes of the time and of the values behind their first.
const FF_IN_ONE_PROFILE: [(usize, usize, ObjectRule, usize); 33] = [
    (0, 3, ObjectRule::Form, 0),
    (4, 11, ObjectRule::Form, 12),
    (12, 23, ObjectRule::Form, 129),
    (24, 25, ObjectRule::Content, 20),
    (26, 28, ObjectRule::Content, 26),
    (29, 29, ObjectRule::Form, 129),
    (30, 33, ObjectRule::Content, 30),
    (34, 37, ObjectRule::Form, 129),
    (38, 38, ObjectRule::Content, 34),
    (39, 42, ObjectRule::Form, 129),
    (43, 43, ObjectRule::Content, 39),
    (44, 47, ObjectRule::Form, 129),
    (48, 48, ObjectRule::Content, 44),
    (49, 52, ObjectRule::Form, 129),
    (53, 53, ObjectRule::Content, 49),
    (54, 57, ObjectRule::Form, 129),
    (58, 60, ObjectRule::Content, 54),
    (61, 64, ObjectRule::Form, 129),
    (65, 65, ObjectRule::Content, 61),
    (66, 77, ObjectRule::Form, 129),
    (86, 89, ObjectRule::Form, 129),
    (90, 92, ObjectRule::Content, 90),
    (93, 93, ObjectRule::Content, 99),
    (94, 97, ObjectRule::Form, 129),
    (98, 98, ObjectRule::Content, 94),
    (99, 99, ObjectRule::Content, 99),
    (107, 109, ObjectRule::Content, 107),
    (110, 110, ObjectRule::Content, 121),
    (111, 114, ObjectRule::Form, 129),
    (115, 115, ObjectRule::Content, 111),
    (116, 119, ObjectRule::Form, 129),
    (120, 120, ObjectRule::Content, 116),
    (121, 121, ObjectRule::Content, 121),
];

fn are_faults<const N: usize>(
    alloc: Global,
    file: [u8; N],
    first: usize,
    last: usize,
    rule: ObjectRule,
    at: usize,
) -> bool {
    (first..=last).all(|place| is_fault(alloc, &changed(file, place, 0xFF), rule, at))
}

#[test]
fn ff_in_the_place_of_a_byte_is_the_fault_of_its_field(rt: HostRuntime) {
    let alloc = rt.alloc();
    for (first, last, rule, at) in FF_IN_ONE_PUSH {
        assert!(rt;
            are_faults(alloc, ONE_PUSH, first, last, rule, at),
            "{first}"
        );
    }
    for (first, last, rule, at) in FF_IN_ONE_PROFILE {
        assert!(rt;
            are_faults(alloc, ONE_PROFILE, first, last, rule, at),
            "{first}"
        );
    }
}

#[test]
fn ff_in_a_time_or_a_value_is_another_object(rt: HostRuntime) -> Result<(), Fail> {
    let alloc = rt.alloc();
    for (first, last) in [(78, 85), (100, 106), (122, 128)] {
        for place in first..=last {
            assert_eq!(rt;
                numbers(alloc, &changed(ONE_PROFILE, place, 0xFF))?,
                (5, 6, 1)
            );
        }
    }
    Ok(())
}
