// What no clause says: values from outside.
use crate::*;

#[test]
fn a_number_has_digits_alone_and_so_many(rt: HostRuntime) {
    assert_eq!(rt; read_digits("007", 3), Some(7));
    assert_eq!(rt; read_digits("0007", 3), None);
    assert_eq!(rt;
        read_digits("9999999999999999999", 19),
        Some(9_999_999_999_999_999_999)
    );
    assert_eq!(rt; read_digits("+7", 3), None);
    assert_eq!(rt; read_digits("", 3), None);
    assert_eq!(rt; read_digits("7", 0), None);
}

#[test]
fn a_number_of_bytes_is_that_of_a_text(rt: HostRuntime) {
    assert_eq!(rt; digits_of(b"08388608", 19), Some(8_388_608));
    assert_eq!(rt; digits_of(b"8388608 ", 19), None);
    assert_eq!(rt; digits_of(b"/:", 2), None);
}

#[test]
fn gzip_begins_with_two_bytes(rt: HostRuntime) {
    assert!(rt; begins_as_gzip(b"\x1f\x8b\x08\x00"));
    assert!(rt; begins_as_gzip(b"\x1f\x8b"));
    assert!(rt; !begins_as_gzip(b"\x1f\x8c\x08\x00"));
    assert!(rt; !begins_as_gzip(b"\x1f"));
    assert!(rt; !begins_as_gzip(b""));
}
