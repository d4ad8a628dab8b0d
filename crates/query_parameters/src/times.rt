// Times as parameters give them.
ghost use Rattle.std.specs.Prelude.{◌≡◌, ◌<◌, ◌^◌, ◌≤◌, IfSome};
ghost use Rattle.query_parameters.specs.Times.{last_ms, moment_of, span_of, time_of, unit_of};

use wire_forms::digits_of;

/// The last millisecond of the year 9999.
pub const MAX_TIME_MS: u64 = 253_402_300_799_999;

/// Milliseconds since 1970 of a time: digits, whose count tells their unit, `now`, or `now-` and a span.
pub fn read_time(text: &str, now_ms: u64) -> Option<u64>
    ensures time { result ≡ time_of text.now now_ms }
    ensures bound { now_ms ≤ last_ms → IfSome result (λ time. time ≤ last_ms) }
{
    let text = text.as_bytes();
    if text == b"now".as_slice() {
        return Some(now_ms);
    }
    if text.starts_with(b"now-") {
        let span = read_span(&text[4..])?;
        return Some(now_ms.saturating_sub(span));
    }
    read_moment(text)
}

// The milliseconds of 1 to 9 digits and a unit.
fn read_span(text: &[u8]) -> Option<u64>
    ensures { result ≡ span_of text.now }
{
    let (unit, digits) = text.split_last()?;
    let count = digits_of(digits, 9)?;
    let unit = unit_of(*unit)?;
    Some(count * unit)
}

fn unit_of(byte: u8) -> Option<u64>
    ensures unit { result ≡ unit_of byte }
    ensures bound { IfSome result (λ unit. unit ≤ 86400000) }
{
    match byte {
        b's' => Some(1_000),
        b'm' => Some(60_000),
        b'h' => Some(3_600_000),
        b'd' => Some(86_400_000),
        _ => None,
    }
}

// The milliseconds of digits alone: seconds, milliseconds, microseconds or nanoseconds by their count.
fn read_moment(digits: &[u8]) -> Option<u64>
    ensures moment { result ≡ moment_of digits.now }
    ensures bound { IfSome result (λ time. time < 10 ^ 13) }
{
    let number = digits_of(digits, 19)?;
    Some(match digits.len() {
        0..=10 => number * 1_000,
        11..=13 => number,
        14..=16 => number / 1_000,
        _ => number / 1_000_000,
    })
}
