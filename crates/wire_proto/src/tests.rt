use super::*;
use std::test::Fail;

fn first(bytes: &[u8]) -> Next<'_> {
    Fields::new(bytes, 0).next()
}

#[test]
fn a_faulty_field_is_told_with_its_kind_and_place(rt: HostRuntime) {
    let cases: [(&[u8], WireFault); 20] = [
        // A tag, or a value of each wire, that the bytes cut short.
        (&[0x80], WireFault::Truncated(0)),
        (&[0x08], WireFault::Truncated(0)),
        (&[0x08, 0x80, 0x80], WireFault::Truncated(0)),
        (&[0x09, 1, 2, 3, 4, 5, 6, 7], WireFault::Truncated(0)),
        (&[0x0A], WireFault::Truncated(0)),
        (&[0x0A, 0x80], WireFault::Truncated(0)),
        (&[0x0A, 3, 1, 2], WireFault::Truncated(0)),
        (&[0x0D, 1, 2, 3], WireFault::Truncated(0)),
        // A length of 2 ^ 64 - 1.
        (
            &[
                0x0A, 0xFF, 0xFF, 0xFF, 0xFF, 0xFF, 0xFF, 0xFF, 0xFF, 0xFF, 0x01, 7,
            ],
            WireFault::Truncated(0),
        ),
        // A tenth byte above 1 in a value, a tag and a length.
        (
            &[
                0x08, 0x80, 0x80, 0x80, 0x80, 0x80, 0x80, 0x80, 0x80, 0x80, 0x02,
            ],
            WireFault::BadVarint(0),
        ),
        (
            &[
                0x88, 0x80, 0x80, 0x80, 0x80, 0x80, 0x80, 0x80, 0x80, 0x02, 0x00,
            ],
            WireFault::BadVarint(0),
        ),
        (
            &[
                0x0A, 0x80, 0x80, 0x80, 0x80, 0x80, 0x80, 0x80, 0x80, 0x80, 0x80,
            ],
            WireFault::BadVarint(0),
        ),
        // The wires 3, 4, 6 and 7, also where nothing follows the tag.
        (&[0x0B], WireFault::BadType(0)),
        (&[0x0C, 0], WireFault::BadType(0)),
        (&[0x0E, 0], WireFault::BadType(0)),
        (&[0x0F, 0], WireFault::BadType(0)),
        // The numbers 0 and 536,870,912.
        (&[0x00, 0x00], WireFault::BadType(0)),
        (&[0x02], WireFault::BadType(0)),
        (&[0x80, 0x80, 0x80, 0x80, 0x10, 0], WireFault::BadType(0)),
        (&[0x82, 0x80, 0x80, 0x80, 0x10], WireFault::BadType(0)),
    ];
    for (bytes, fault) in cases {
        assert_eq!(rt; first(bytes), Next::Fault(fault), "{bytes:?}");
    }
}

#[test]
fn a_number_may_be_spelled_in_ten_bytes(rt: HostRuntime) {
    let cases: [(&[u8], u64); 4] = [
        (&[0x08, 0x07], 7),
        (&[0x08, 0x87, 0x00], 7),
        (
            &[
                0x08, 0x87, 0x80, 0x80, 0x80, 0x80, 0x80, 0x80, 0x80, 0x80, 0x00,
            ],
            7,
        ),
        (
            &[
                0x08, 0xFF, 0xFF, 0xFF, 0xFF, 0xFF, 0xFF, 0xFF, 0xFF, 0xFF, 0x01,
            ],
            u64::MAX,
        ),
    ];
    for (bytes, n) in cases {
        let value = Value::Varint(n);
        let field = Field {
            number: 1,
            at: 0,
            value,
        };
        assert_eq!(rt; first(bytes), Next::Field(field), "{bytes:?}");
    }
}

#[test]
fn each_wire_is_read_and_its_place_counts_from_the_base(rt: HostRuntime) {
    let bytes = [
        0xF8, 0xFF, 0xFF, 0xFF, 0x0F, 0x01, 0x11, 1, 2, 3, 4, 5, 6, 7, 8, 0x1A, 2, 9, 10, 0x25, 1,
        2, 3, 4, 0x0B,
    ];
    let expected = [
        (536_870_911, 100, Value::Varint(1)),
        (2, 106, Value::Eight([1, 2, 3, 4, 5, 6, 7, 8])),
        (3, 115, Value::Bytes(&[9, 10])),
        (4, 119, Value::Four([1, 2, 3, 4])),
    ];
    let mut fields = Fields::new(&bytes, 100);
    for (number, at, value) in expected {
        let field = Field { number, at, value };
        assert_eq!(rt; fields.next(), Next::Field(field));
    }
    // The fault is told again, and the reader stays at its field.
    for _ in 0..3 {
        assert_eq!(rt; fields.next(), Next::Fault(WireFault::BadType(124)));
        assert_eq!(rt; fields.at(), 124);
    }
}

/// A profile of one sample with two frames.
const PROFILE: [u8; 68] = [
    0x0A, 0x04, 0x08, 0x01, 0x10, 0x02, 0x12, 0x06, 0x0A, 0x01, 0x01, 0x12, 0x01, 0x07, 0x22, 0x0A,
    0x08, 0x01, 0x22, 0x02, 0x08, 0x01, 0x22, 0x02, 0x08, 0x02, 0x2A, 0x04, 0x08, 0x01, 0x10, 0x03,
    0x2A, 0x04, 0x08, 0x02, 0x10, 0x04, 0x32, 0x00, 0x32, 0x07, 0x73, 0x61, 0x6D, 0x70, 0x6C, 0x65,
    0x73, 0x32, 0x05, 0x63, 0x6F, 0x75, 0x6E, 0x74, 0x32, 0x04, 0x6C, 0x65, 0x61, 0x66, 0x32, 0x04,
    0x6D, 0x61, 0x69, 0x6E,
];

#[test]
fn the_fields_of_a_profile_are_read_to_its_end(rt: HostRuntime) {
    let expected = [
        (1, 0, 4),
        (2, 6, 6),
        (4, 14, 10),
        (5, 26, 4),
        (5, 32, 4),
        (6, 38, 0),
        (6, 40, 7),
        (6, 49, 5),
        (6, 56, 4),
        (6, 62, 4),
    ];
    let mut fields = Fields::new(&PROFILE, 0);
    for (number, at, length) in expected {
        let read = match fields.next() {
            Next::Field(
                Field {
                    number,
                    at,
                    value: Value::Bytes(bytes),
                },
            ) => Some((number, at, bytes.len())),
            _ => None,
        };
        assert_eq!(rt; read, Some((number, at, length)));
        // Two bytes of tag and length stand before the bytes.
        assert_eq!(rt; fields.at(), at + 2 + length as u64);
    }
    assert_eq!(rt; fields.next(), Next::End);
    assert_eq!(rt; fields.next(), Next::End);
    assert_eq!(rt; fields.at(), 68);
}

#[test]
fn numbers_are_written_in_their_shortest_spelling(rt: HostRuntime) -> Result<(), Fail> {
    let cases: [(u64, &[u8]); 7] = [
        (0, &[0]),
        (127, &[0x7F]),
        (128, &[0x80, 0x01]),
        (150, &[0x96, 0x01]),
        (16_383, &[0xFF, 0x7F]),
        (
            1 << 63,
            &[0x80, 0x80, 0x80, 0x80, 0x80, 0x80, 0x80, 0x80, 0x80, 0x01],
        ),
        (
            u64::MAX,
            &[0xFF, 0xFF, 0xFF, 0xFF, 0xFF, 0xFF, 0xFF, 0xFF, 0xFF, 0x01],
        ),
    ];
    for (n, bytes) in cases {
        let mut out = Vec::new(rt.alloc());
        put_varint(&mut out, n)?;
        assert_eq!(rt; out.as_slice(), bytes);
        let (read, rest) = read_varint(bytes, 0).ok().ok_or("a number")?;
        assert_eq!(rt; read, n);
        assert!(rt; rest.is_empty());
    }
    Ok(())
}

#[test]
fn fields_are_written_behind_what_is_there(rt: HostRuntime) -> Result<(), Fail> {
    let mut out = Vec::new(rt.alloc());
    put_number(&mut out, 1, 150)?;
    put_bytes(&mut out, 2, b"testing")?;
    put_bytes(&mut out, 536_870_911, b"")?;
    let bytes = [
        0x08, 0x96, 0x01, 0x12, 0x07, 0x74, 0x65, 0x73, 0x74, 0x69, 0x6E, 0x67, 0xFA, 0xFF, 0xFF,
        0xFF, 0x0F, 0x00,
    ];
    assert_eq!(rt; out.as_slice(), bytes.as_slice());
    Ok(())
}
