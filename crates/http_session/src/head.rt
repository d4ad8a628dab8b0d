//! The head at the front of some bytes, read by httparse.
ghost use Rattle.std.specs.Prelude.{◌≡◌, ◌≤◌, ◌<◌, ◌∷◌, [], length, map, All, IfSome, IfNone, option_map};
ghost use Rattle.httparse.specs.Spans.{IsWithin, IsHeaderWithin, span_bytes, header_bytes};
ghost use Rattle.http_session.specs.Limits.{most_head_bytes};
ghost use Rattle.http_session.specs.HeadRead.{IsHeadRead};
ghost use Rattle.http_session.specs.Heads.{after_lines, newlines, all_named, first_named};
ghost use Rattle.http_session.specs.Named.{IsNamed};

use httparse::Error;
use httparse::spans::{HeaderSpan, RequestSpans, Span, parse_request};

/// The most bytes of a head, with the CR and LF bytes before it.
pub(crate) const MAX_HEAD_BYTES: usize = 16_384;

/// The most headers of a head.
pub(crate) const MAX_HEADERS: usize = 64;

// A head has a line of its request, one for each header, and an empty one; it ends at the last newline byte.
const MAX_HEAD_LINES: usize = MAX_HEADERS + 2;

/// What some bytes say of the head at their front.
pub(crate) enum HeadRead {
    Whole(RequestSpans),
    Unfinished,
    TooLarge,
    Refused,
}

/// Reads the head at the front of the bytes, and where its headers are.
pub(crate) fn read_head(bytes: &[u8], headers: &mut [HeaderSpan; MAX_HEADERS]) -> HeadRead
    requires { length bytes.now ≤ most_head_bytes }
    ensures { IsHeadRead bytes.now headers.new result }
{
    match parse_request(bytes, headers) {
        Ok(httparse::Status::Complete(spans)) => HeadRead::Whole(spans),
        Ok(httparse::Status::Partial) => {
            if bytes.len() == MAX_HEAD_BYTES || MAX_HEAD_LINES <= newline_count(skip_lines(bytes)) {
                HeadRead::TooLarge
            } else {
                HeadRead::Unfinished
            }
        }
        Err(Error::TooManyHeaders) => HeadRead::TooLarge,
        Err(_) => HeadRead::Refused,
    }
}

/// The bytes after the leading CR and LF bytes.
pub(crate) fn skip_lines(bytes: &[u8]) -> &[u8]
    ensures { result.now ≡ after_lines bytes.now }
{
    let mut rest = bytes;
    while let [b'\r' | b'\n', after @ ..] = rest {
        rest = after;
    }
    rest
}

fn newline_count(bytes: &[u8]) -> usize
    ensures { result ≡ newlines bytes.now }
{
    let mut count = 0;
    for byte in bytes {
        if *byte == b'\n' {
            count += 1;
        }
    }
    count
}

/// Where the value of the first header of this name is, and the headers after it.
pub(crate) fn first_header<'h>(
    text: &[u8],
    headers: &'h [HeaderSpan],
    name: &[u8],
) -> Option<(Span, &'h [HeaderSpan])>
    requires { All (IsHeaderWithin (length text.now)) headers.now }
    ensures within { IfSome result (λ found.
        IsWithin (length text.now) found.0 × All (IsHeaderWithin (length text.now)) found.1.now) }
    ensures some { IfSome result (λ found.
        all_named name.now (map (header_bytes text.now) headers.now)
        ≡ span_bytes text.now found.0
        ∷ all_named name.now (map (header_bytes text.now) found.1.now)) }
    ensures shorter { IfSome result (λ found. length found.1.now < length headers.now) }
    ensures none { IfNone result
        (all_named name.now (map (header_bytes text.now) headers.now) ≡ []) }
{
    for (i, header) in headers.iter().enumerate() {
        if header.name.of(text).eq_ignore_ascii_case(name) {
            return Some((header.value, &headers[i + 1..]));
        }
    }
    None
}

/// Where the value of the first header of this name is.
pub(crate) fn find_header(text: &[u8], headers: &[HeaderSpan], name: &[u8]) -> Option<Span>
    requires { All (IsHeaderWithin (length text.now)) headers.now }
    ensures within { IfSome result (λ span. IsWithin (length text.now) span) }
    ensures value { option_map (span_bytes text.now) result
        ≡ first_named name.now (map (header_bytes text.now) headers.now) }
{
    match first_header(text, headers, name) {
        Some((value, _)) => Some(value),
        None => None,
    }
}

/// The values of a header.
#[derive(Clone, Copy)]
pub(crate) enum Named<'b> {
    Absent,
    Once(&'b [u8]),
    Repeated,
}

/// The values of the headers of this name, where there is at most one.
pub(crate) fn only_header<'b>(text: &'b [u8], headers: &[HeaderSpan], name: &[u8]) -> Named<'b>
    requires { All (IsHeaderWithin (length text.now)) headers.now }
    ensures { IsNamed (all_named name.now (map (header_bytes text.now) headers.now)) result }
{
    let Some((value, others)) = first_header(text, headers, name) else {
        return Named::Absent;
    };
    match first_header(text, others, name) {
        None => Named::Once(value.of(text)),
        Some(_) => Named::Repeated,
    }
}
