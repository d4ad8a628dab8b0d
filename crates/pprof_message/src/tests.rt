use super::*;
use faults::Refused;
use std::alloc::Global;
use std::test::Fail;

/// A profile of one sample with two frames.
const PROFILE: [u8; 68] = [
    0x0A, 0x04, 0x08, 0x01, 0x10, 0x02, 0x12, 0x06, 0x0A, 0x01, 0x01, 0x12, 0x01, 0x07, 0x22, 0x0A,
    0x08, 0x01, 0x22, 0x02, 0x08, 0x01, 0x22, 0x02, 0x08, 0x02, 0x2A, 0x04, 0x08, 0x01, 0x10, 0x03,
    0x2A, 0x04, 0x08, 0x02, 0x10, 0x04, 0x32, 0x00, 0x32, 0x07, 0x73, 0x61, 0x6D, 0x70, 0x6C, 0x65,
    0x73, 0x32, 0x05, 0x63, 0x6F, 0x75, 0x6E, 0x74, 0x32, 0x04, 0x6C, 0x65, 0x61, 0x66, 0x32, 0x04,
    0x6D, 0x61, 0x69, 0x6E,
];

/// One more sample, with numbers in fields of their own and one spelled in nine bytes, and a field 99.
const MORE: [u8; 17] = [
    0x12, 0x0C, 0x08, 0x01, 0x10, 0x87, 0x80, 0x80, 0x80, 0x80, 0x80, 0x80, 0x80, 0x00, 0x98, 0x06,
    0x05,
];

// What a message tells.
#[derive(Clone, Copy)]
struct Told<'a> {
    sample_types: &'a [ValueType],
    samples: &'a [SampleRef<'a>],
    locations: &'a [LocationRef<'a>],
    functions: &'a [Function],
    texts: &'a [&'a [u8]],
    time_nanos: i64,
    period_type: ValueType,
}

const NOTHING: Told<'static> = Told {
    sample_types: &[],
    samples: &[],
    locations: &[],
    functions: &[],
    texts: &[],
    time_nanos: 0,
    period_type: ValueType { kind: 0, unit: 0 },
};

const NO_LISTS: SampleRef<'static> = SampleRef {
    location_ids: &[],
    values: &[],
    labels: &[],
};

const NO_LINES: LocationRef<'static> = LocationRef {
    id: 0,
    address: 0,
    lines: &[],
};

// The sample of PROFILE.
const SAMPLE: SampleRef<'static> = SampleRef {
    location_ids: &[1],
    values: &[7],
    labels: &[],
};

// What PROFILE tells, where it has these samples.
fn profile_of<'a>(samples: &'a [SampleRef<'a>]) -> Told<'a> {
    Told {
        sample_types: &[ValueType { kind: 1, unit: 2 }],
        samples,
        locations: &[LocationRef {
            id: 1,
            address: 0,
            lines: &[1, 2],
        }],
        functions: &[
            Function {
                id: 1,
                name: 3,
                system_name: 0,
            },
            Function {
                id: 2,
                name: 4,
                system_name: 0,
            },
        ],
        texts: &[b"", b"samples", b"count", b"leaf", b"main"],
        ..NOTHING
    }
}

fn has_samples(message: &PprofMessage<'_>, samples: &[SampleRef<'_>]) -> bool {
    if message.samples() != samples.len() {
        return false;
    }
    for (i, sample) in samples.iter().enumerate() {
        if message.sample(i) != *sample {
            return false;
        }
    }
    true
}

fn has_locations(message: &PprofMessage<'_>, locations: &[LocationRef<'_>]) -> bool {
    if message.locations() != locations.len() {
        return false;
    }
    for (i, location) in locations.iter().enumerate() {
        if message.location(i) != *location {
            return false;
        }
    }
    true
}

fn tells(message: &PprofMessage<'_>, told: &Told<'_>) -> bool {
    message.sample_types() == told.sample_types
        && has_samples(message, told.samples)
        && has_locations(message, told.locations)
        && message.functions() == told.functions
        && message.texts() == told.texts
        && message.time_nanos() == told.time_nanos
        && message.period_type() == told.period_type
}

// Whether the message of these bytes tells just this.
fn is_read_as(alloc: Global, bytes: &[u8], told: &Told<'_>) -> Result<bool, Fail> {
    let message = read_message(alloc, bytes)?;
    Ok(tells(&message, told))
}

fn joined(alloc: Global, front: &[u8], back: &[u8]) -> Result<Vec<u8>, Fail> {
    let mut bytes = Vec::from_slice(alloc, front)?;
    bytes.extend_from_slice(back)?;
    Ok(bytes)
}

fn is_joined_read_as(
    alloc: Global,
    front: &[u8],
    back: &[u8],
    told: &Told<'_>,
) -> Result<bool, Fail> {
    let bytes = joined(alloc, front, back)?;
    is_read_as(alloc, &bytes, told)
}

#[test]
fn a_profile_is_read_as_its_lists(rt: HostRuntime) -> Result<(), Fail> {
    assert!(rt; is_read_as(rt.alloc(), &PROFILE, &profile_of(&[SAMPLE]))?);
    Ok(())
}

#[test]
fn another_spelling_says_the_same_and_an_unknown_field_nothing(
    rt: HostRuntime,
) -> Result<(), Fail> {
    let told = profile_of(&[SAMPLE, SAMPLE]);
    assert!(rt; is_joined_read_as(rt.alloc(), &PROFILE, &MORE, &told)?);
    Ok(())
}

#[test]
fn no_bytes_are_a_message_of_nothing(rt: HostRuntime) -> Result<(), Fail> {
    assert!(rt; is_read_as(rt.alloc(), &[], &NOTHING)?);
    Ok(())
}

fn fault_of(alloc: Global, bytes: &[u8]) -> Option<Refused<MessageFault>> {
    read_message(alloc, bytes).err()
}

#[test]
fn the_first_field_that_cannot_be_read_is_told(rt: HostRuntime) {
    let cases: [(&[u8], u64); 15] = [
        (&[0x08], 0),
        (&[0x0B], 0),
        (
            &[
                0x08, 0x80, 0x80, 0x80, 0x80, 0x80, 0x80, 0x80, 0x80, 0x80, 0x02,
            ],
            0,
        ),
        // Behind other fields.
        (&[0x32, 0x01, 0x61, 0x12, 0x05, 0x0A], 3),
        // Inside a sample type, a sample, a location, a function and the period type.
        (&[0x0A, 0x03, 0x08, 0x01, 0x10], 4),
        (&[0x12, 0x03, 0x08, 0x01, 0x10], 4),
        (&[0x22, 0x03, 0x08, 0x01, 0x1B], 4),
        (&[0x2A, 0x01, 0x00], 2),
        (&[0x5A, 0x03, 0x08, 0x01, 0x10], 4),
        // Inside a label of a sample, and a line of a location.
        (&[0x12, 0x06, 0x08, 0x01, 0x1A, 0x02, 0x08, 0x80], 6),
        (
            &[0x22, 0x08, 0x08, 0x01, 0x22, 0x04, 0x08, 0x01, 0x10, 0x80],
            8,
        ),
        // A packed number has the place of its field.
        (&[0x12, 0x07, 0x08, 0x01, 0x0A, 0x03, 0x01, 0x02, 0x80], 4),
        (&[0x12, 0x03, 0x12, 0x01, 0x80], 2),
        // What stands first is told first, inside a field too.
        (&[0x12, 0x01, 0x08, 0x0B], 2),
        (&[0x12, 0x05, 0x0A, 0x01, 0x80, 0x1A, 0x01], 2),
    ];
    for (bytes, at) in cases {
        assert_eq!(rt;
            fault_of(rt.alloc(), bytes),
            Some(Refused::Fault(MessageFault::Broken(at))),
            "{bytes:?}"
        );
    }
}

#[test]
fn what_is_not_read_is_not_looked_into(rt: HostRuntime) -> Result<(), Fail> {
    let cases: [(&[u8], &[&[u8]]); 7] = [
        // A mapping, an unknown field, and a text that would be no message.
        (&[0x1A, 0x01, 0x80], &[]),
        (&[0x9A, 0x06, 0x01, 0x80], &[]),
        (&[0x32, 0x01, 0x80], &[&[0x80]]),
        // Fields with another wire than their own.
        (
            &[
                0x08, 0x05, 0x10, 0x05, 0x20, 0x05, 0x28, 0x05, 0x30, 0x05, 0x58, 0x05,
            ],
            &[],
        ),
        (&[0x4A, 0x02, 0x08, 0x80], &[]),
        (&[0x11, 0, 0, 0, 0, 0, 0, 0, 0], &[]),
        (&[0x4D, 1, 0, 0, 0], &[]),
    ];
    for (bytes, texts) in cases {
        let told = Told { texts, ..NOTHING };
        assert!(rt; is_read_as(rt.alloc(), bytes, &told)?, "{bytes:?}");
    }
    Ok(())
}

#[test]
fn inside_messages_another_wire_is_skipped_too(rt: HostRuntime) -> Result<(), Fail> {
    // Field 1 of the sample in eight bytes, field 3 of it as a number; the location's line as a number,
    // its id in a text; the function's name in four bytes.
    let bytes = [
        0x12, 0x0B, 0x09, 1, 0, 0, 0, 0, 0, 0, 0, 0x18, 0x01, 0x22, 0x05, 0x20, 0x01, 0x0A, 0x01,
        0x80, 0x2A, 0x07, 0x15, 1, 0, 0, 0, 0x08, 0x09,
    ];
    let told = Told {
        samples: &[NO_LISTS],
        locations: &[NO_LINES],
        functions: &[Function {
            id: 9,
            name: 0,
            system_name: 0,
        }],
        ..NOTHING
    };
    assert!(rt; is_read_as(rt.alloc(), &bytes, &told)?);
    Ok(())
}

#[test]
fn packed_and_unpacked_numbers_are_mixed_in_order(rt: HostRuntime) -> Result<(), Fail> {
    let bytes = [
        0x12, 0x13, // A sample.
        0x08, 0x05, 0x0A, 0x03, 0x06, 0x80, 0x01, 0x08, 0x07, 0x0A, 0x00, // Locations.
        0x10, 0x01, 0x12, 0x02, 0x02, 0x03, 0x10, 0x04, // Values.
    ];
    let sample = SampleRef {
        location_ids: &[5, 6, 128, 7],
        values: &[1, 2, 3, 4],
        labels: &[],
    };
    let told = Told {
        samples: &[sample],
        ..NOTHING
    };
    assert!(rt; is_read_as(rt.alloc(), &bytes, &told)?);
    Ok(())
}

#[test]
fn of_a_repeated_number_the_last_stands(rt: HostRuntime) -> Result<(), Fail> {
    let bytes = [
        0x48, 0x05, 0x48, 0x07, // The time.
        0x0A, 0x06, 0x08, 0x01, 0x08, 0x02, 0x10, 0x03, // A sample type.
        0x22, 0x08, 0x08, 0x01, 0x18, 0x02, 0x08, 0x03, 0x18, 0x04, // A location.
    ];
    let location = LocationRef {
        id: 3,
        address: 4,
        lines: &[],
    };
    let told = Told {
        sample_types: &[ValueType { kind: 2, unit: 3 }],
        locations: &[location],
        time_nanos: 7,
        ..NOTHING
    };
    assert!(rt; is_read_as(rt.alloc(), &bytes, &told)?);
    Ok(())
}

#[test]
fn a_period_type_that_comes_twice_is_merged(rt: HostRuntime) -> Result<(), Fail> {
    let bytes = [
        0x5A, 0x04, 0x08, 0x01, 0x10, 0x02, 0x5A, 0x00, 0x5A, 0x02, 0x08, 0x03,
    ];
    let told = Told {
        period_type: ValueType { kind: 3, unit: 2 },
        ..NOTHING
    };
    assert!(rt; is_read_as(rt.alloc(), &bytes, &told)?);
    Ok(())
}

#[test]
fn numbers_with_a_sign_are_in_twos_complement(rt: HostRuntime) -> Result<(), Fail> {
    let bytes = [
        0x48, 0xFF, 0xFF, 0xFF, 0xFF, 0xFF, 0xFF, 0xFF, 0xFF, 0xFF, 0x01, 0x12, 0x0C, 0x12, 0x0A,
        0x80, 0x80, 0x80, 0x80, 0x80, 0x80, 0x80, 0x80, 0x80, 0x01,
    ];
    let sample = SampleRef {
        location_ids: &[],
        values: &[i64::MIN],
        labels: &[],
    };
    let told = Told {
        samples: &[sample],
        time_nanos: -1,
        ..NOTHING
    };
    assert!(rt; is_read_as(rt.alloc(), &bytes, &told)?);
    Ok(())
}

#[test]
fn each_sample_and_location_keeps_its_own_lists(rt: HostRuntime) -> Result<(), Fail> {
    let bytes = [
        0x12, 0x02, 0x08, 0x01, // A sample of location 1.
        0x22, 0x00, // An empty location.
        0x12, 0x00, // An empty sample.
        0x22, 0x06, 0x22, 0x02, 0x08, 0x08, 0x22, 0x00, // A location of two lines.
        0x12, 0x0B, 0x10, 0x02, 0x1A, 0x07, 0x08, 0x01, 0x10, 0x02, 0x20, 0x80, 0x01, // A label.
    ];
    let located = SampleRef {
        location_ids: &[1],
        values: &[],
        labels: &[],
    };
    let label = Label {
        key: 1,
        text: 2,
        num_unit: 128,
    };
    let labelled = SampleRef {
        location_ids: &[],
        values: &[2],
        labels: &[label],
    };
    let lined = LocationRef {
        id: 0,
        address: 0,
        lines: &[8, 0],
    };
    let told = Told {
        samples: &[located, NO_LISTS, labelled],
        locations: &[NO_LINES, lined],
        ..NOTHING
    };
    assert!(rt; is_read_as(rt.alloc(), &bytes, &told)?);
    Ok(())
}

fn is_told_as(alloc: Global, refused: Refused<MessageFault>, expected: &str) -> Result<bool, Fail> {
    let text = refused.to_string(alloc)?;
    Ok(text.as_str() == expected)
}

#[test]
fn a_fault_is_told_in_words(rt: HostRuntime) -> Result<(), Fail> {
    let alloc = rt.alloc();
    let broken = "the field at byte 7 can't be read";
    assert!(rt; is_told_as(alloc, Refused::Fault(MessageFault::Broken(7)), broken)?);
    assert!(rt; is_told_as(alloc, Refused::Memory, "out of memory")?);
    Ok(())
}

fn empty_samples(alloc: Global, count: usize) -> Result<Vec<u8>, Fail> {
    let mut bytes = Vec::new(alloc);
    for _ in 0..count {
        bytes.extend_from_slice(&[0x12, 0x00])?;
    }
    Ok(bytes)
}

fn read_samples(alloc: Global, count: usize) -> Result<usize, Fail> {
    let bytes = empty_samples(alloc, count)?;
    let message = read_message(alloc, &bytes)?;
    Ok(message.samples())
}

#[test]
fn many_empty_samples_are_read(rt: HostRuntime) -> Result<(), Fail> {
    assert_eq!(rt; read_samples(rt.alloc(), 50_000)?, 50_000);
    Ok(())
}
