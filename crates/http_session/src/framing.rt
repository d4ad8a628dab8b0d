//! How long a request's body is, and whether its connection closes after it.
ghost use Rattle.std.specs.Prelude.{◌≡◌, ℕ, List, length, map, reverse, All, codes};
ghost use Rattle.std.specs.List.{list_any};
ghost use Rattle.httparse.specs.Grammar.{skip_ows, trim_ows};
ghost use Rattle.httparse.specs.Spans.{IsHeaderWithin, header_bytes};
ghost use Rattle.http_session.specs.Heads.{all_named};
ghost use Rattle.http_session.specs.Named.{IsNamed};
ghost use Rattle.http_session.specs.Framing.{length_in, length_by, body_length_of, is_close as is_close_member, has_close};

use crate::bad_request::BadRequest;
use crate::head::{Named, find_header, first_header, only_header};
use httparse::spans::HeaderSpan;
use wire_forms::digits_of;

// The most bytes of a body that is read.
const MAX_BODY_BYTES: u64 = 8_388_608;

// A number of 19 digits is below 2^64.
const LENGTH_DIGITS: usize = 19;

/// The length of the body that the headers announce.
pub(crate) fn body_length(text: &[u8], headers: &[HeaderSpan]) -> Result<usize, BadRequest>
    requires { All (IsHeaderWithin (length text.now)) headers.now }
    ensures { result ≡ body_length_of (map (header_bytes text.now) headers.now) }
{
    let lengths = only_header(text, headers, b"content-length");
    match find_header(text, headers, b"transfer-encoding") {
        Some(coding) => Err(coded_body(coding.of(text), lengths)),
        None => match lengths {
            Named::Absent => Ok(0),
            Named::Once(digits) => read_length(digits),
            Named::Repeated => Err(BadRequest::Malformed),
        },
    }
}

fn coded_body(coding: &[u8], lengths: Named<'_>) -> BadRequest
    ensures { (values : List (List ℕ)) → IsNamed values lengths.entry
        → Err result ≡ length_by (Some coding.now) values }
{
    match lengths {
        Named::Absent => {
            if coding.eq_ignore_ascii_case(b"chunked") {
                BadRequest::Chunked
            } else {
                BadRequest::Malformed
            }
        }
        _ => BadRequest::Malformed,
    }
}

fn read_length(text: &[u8]) -> Result<usize, BadRequest>
    ensures { result ≡ length_in text.now }
{
    match digits_of(text, LENGTH_DIGITS) {
        Some(length) if length <= MAX_BODY_BYTES => Ok(length as usize),
        Some(_) => Err(BadRequest::BodyTooLarge),
        None => Err(BadRequest::Malformed),
    }
}

/// Whether a header of Connection has the member `close`.
pub(crate) fn asks_to_close(text: &[u8], headers: &[HeaderSpan]) -> bool
    requires { All (IsHeaderWithin (length text.now)) headers.now }
    ensures { result ≡ list_any has_close
        (all_named (codes "connection") (map (header_bytes text.now) headers.now)) }
{
    let mut rest = headers;
    while let Some((value, others)) = first_header(text, rest, b"connection") {
        if names_close(value.of(text)) {
            return true;
        }
        rest = others;
    }
    false
}

// Whether a member of the list is `close`.
fn names_close(value: &[u8]) -> bool
    ensures { result ≡ has_close value.now }
{
    value
        .split(|byte| *byte == b',')
        .any(|member| is_close(member))
}

fn is_close(member: &[u8]) -> bool
    ensures { result ≡ is_close_member member.now }
{
    trim_blanks(member).eq_ignore_ascii_case(b"close")
}

// The bytes without the spaces and tabs around them.
#[tactic(auto, unfolding(httparse::specs::Grammar::trim_ows))]
fn trim_blanks(bytes: &[u8]) -> &[u8]
    ensures { result.now ≡ trim_ows bytes.now }
{
    trim_back(trim_front(bytes))
}

fn trim_front(bytes: &[u8]) -> &[u8]
    ensures { result.now ≡ skip_ows bytes.now }
{
    let mut rest = bytes;
    while let [b' ' | b'\t', after @ ..] = rest {
        rest = after;
    }
    rest
}

fn trim_back(bytes: &[u8]) -> &[u8]
    ensures { result.now ≡ reverse (skip_ows (reverse bytes.now)) }
{
    let mut rest = bytes;
    while let [before @ .., b' ' | b'\t'] = rest {
        rest = before;
    }
    rest
}
