//! A whole request: one copy of its head's bytes with spans into it, and its body.
ghost use Rattle.std.specs.Prelude.{◌≡◌, [], IfOk, OnOk, IfSome, All, length, option_map};
ghost use Rattle.http_session.specs.Parts.{asked_with};
ghost use Rattle.http_session.specs.InHead.{Grows};
ghost use Rattle.httparse.specs.Grammar.{RequestHead};
ghost use Rattle.httparse.specs.Spans.{IsWithin, IsHeaderWithin, span_bytes};
ghost use Rattle.http_session.specs.HeadRead.{Covers};
ghost use Rattle.http_session.specs.Asked.{asked_of, path_of, query_of, is_question_mark};
ghost use Rattle.std.specs.List.{position};
ghost use Rattle.http_session.specs.Framing.{closes as closes_after};

use crate::framing::asks_to_close;
use crate::head::find_header;
use crate::method::Method;
use httparse::spans::{HeaderSpan, RequestSpans, Span};
use std::alloc::{AllocError, Global};
use std::marker::Model;

/// The most requests of a connection; the last of them closes it.
pub const MAX_REQUESTS: u32 = 1_000_000;

#[derive(Drop)]
pub struct Request {
    head: Vec<u8>,
    method: Method,
    path: Span,
    query: Span,
    tenant: Option<Span>,
    front: Option<Span>,
    encoding: Option<Span>,
    body: Vec<u8>,
    close: bool,
    moment: u64,
}

/// The parts of a request that doesn't come from a connection's bytes.
#[derive(Clone, Copy)]
pub struct RequestParts<'a> {
    pub method: Method,
    /// The path, and behind a question mark the query.
    pub target: &'a [u8],
    pub tenant: Option<&'a [u8]>,
    pub front: Option<&'a [u8]>,
    pub encoding: Option<&'a [u8]>,
    pub close: bool,
    pub moment: u64,
}

impl Model for Request {
    ghost use Rattle.std.specs.Prelude.{option_map};
    ghost use Rattle.http_session.specs.Asked.{Asked};

    ghost Value = { Asked };

    ghost use Rattle.httparse.specs.Spans.{span_bytes};
    ghost use Rattle.http_session.specs.InHead.{IsInHead};

    ghost view = { λ a. record {
      method = a.method;
      path = span_bytes a.head.items a.path;
      query = span_bytes a.head.items a.query;
      body = a.body.items;
      tenant = option_map (span_bytes a.head.items) a.tenant;
      front = option_map (span_bytes a.head.items) a.front;
      encoding = option_map (span_bytes a.head.items) a.encoding;
      close = a.close;
      moment = a.moment;
    } };

    ghost invariant = { λ a. IsInHead a.head.items a.path a.query a.tenant a.front a.encoding };
}

impl Request {
    /// The request of this head, still without its body and moment.
    pub(crate) fn of_head(
        alloc: Global,
        text: &[u8],
        headers: &[HeaderSpan],
        spans: &RequestSpans,
        number: u32,
    ) -> Result<Request, AllocError>
        requires method { IsWithin (length text.now) spans.now.method }
        requires target { IsWithin (length text.now) spans.now.path }
        requires headers { All (IsHeaderWithin (length text.now)) headers.now }
        ensures { (head : RequestHead) → Covers text.now headers.now spans.now head
            → IfOk result (λ request. request ≡ asked_of number 0 head []) }
    {
        let tenant = find_header(text, headers, b"x-scope-orgid");
        let front = find_header(text, headers, b"x-pyro-front");
        let encoding = find_header(text, headers, b"content-encoding");
        let (path, query) = split_target(text, spans.path);
        let close = closes(text, headers, spans, number);
        Ok(Request {
            head: Vec::from_slice(alloc, text)?,
            method: Method::from_text(spans.method.of(text)),
            path,
            query,
            tenant,
            front,
            encoding,
            body: Vec::new(alloc),
            close,
            moment: 0,
        })
    }

    /// A request of these parts and this body.
    pub fn from_parts(
        alloc: Global,
        parts: &RequestParts<'_>,
        body: Vec<u8>,
    ) -> Result<Request, AllocError>
        ensures { IfOk result (λ request. request ≡ asked_with parts.now body.items) }
    {
        let mut head = Vec::from_slice(alloc, parts.target)?;
        let end = head.len();
        let (path, query) = split_target(&head, Span { start: 0, end });
        let tenant = keep(&mut head, parts.tenant)?;
        let front = keep(&mut head, parts.front)?;
        let encoding = keep(&mut head, parts.encoding)?;
        Ok(Request {
            head,
            method: parts.method,
            path,
            query,
            tenant,
            front,
            encoding,
            body,
            close: parts.close,
            moment: parts.moment,
        })
    }

    /// This request with its body, at the moment at which it was whole.
    pub(crate) fn with_body(self, body: Vec<u8>, moment: u64) -> Request
        ensures { result ≡ record self { body = body.items; moment = moment } }
    {
        let mut request = self;
        request.body = body;
        request.moment = moment;
        request
    }

    pub fn method(&self) -> Method
        ensures { result ≡ self.now.method }
    {
        self.method
    }

    /// The target before its first question mark.
    pub fn path(&self) -> &[u8]
        ensures { result.now ≡ self.now.path }
    {
        self.path.of(&self.head)
    }

    /// The target after its first question mark.
    pub fn query(&self) -> &[u8]
        ensures { result.now ≡ self.now.query }
    {
        self.query.of(&self.head)
    }

    pub fn body(&self) -> &[u8]
        ensures { result.now ≡ self.now.body }
    {
        &self.body
    }

    /// The body alone.
    pub fn into_body(self) -> Vec<u8>
        ensures { result.items ≡ self.body }
    {
        self.body
    }

    /// The value of the first header X-Scope-OrgID.
    pub fn tenant(&self) -> Option<&[u8]>
        ensures { option_map (λ value. value.now) result ≡ self.now.tenant }
    {
        value_in(&self.head, self.tenant)
    }

    /// The value of the first header X-Pyro-Front.
    pub fn front(&self) -> Option<&[u8]>
        ensures { option_map (λ value. value.now) result ≡ self.now.front }
    {
        value_in(&self.head, self.front)
    }

    /// The value of the first header Content-Encoding.
    pub fn encoding(&self) -> Option<&[u8]>
        ensures { option_map (λ value. value.now) result ≡ self.now.encoding }
    {
        value_in(&self.head, self.encoding)
    }

    /// Whether the connection closes after the reply.
    pub fn close(&self) -> bool
        ensures { result ≡ self.now.close }
    {
        self.close
    }

    /// When the request was whole, in milliseconds since 1970.
    pub fn moment(&self) -> u64
        ensures { result ≡ self.now.moment }
    {
        self.moment
    }
}

fn value_in(head: &[u8], span: Option<Span>) -> Option<&[u8]>
    requires { IfSome span (IsWithin (length head.now)) }
    ensures { option_map (λ value. value.now) result ≡ option_map (span_bytes head.now) span }
{
    match span {
        Some(span) => Some(span.of(head)),
        None => None,
    }
}

// Keeps a value at the end of a head, and says where.
fn keep(head: &mut Vec<u8>, value: Option<&[u8]>) -> Result<Option<Span>, AllocError>
    ensures grows { OnOk result (Grows head.old.items head.new.items) }
    ensures within { IfOk result (λ span. IfSome span (IsWithin (length head.new.items))) }
    ensures kept { IfOk result (λ span. option_map (span_bytes head.new.items) span
        ≡ option_map (λ bytes. bytes.now) value.entry) }
{
    let Some(bytes) = value else {
        return Ok(None);
    };
    let start = head.len();
    head.extend_from_slice(bytes)?;
    let end = head.len();
    Ok(Some(Span { start, end }))
}

// Where the first question mark is.
fn question_mark(target: &[u8]) -> Option<usize>
    ensures { result ≡ position is_question_mark target.now }
{
    target.iter().position(|byte| *byte == b'?')
}

// Where the target's path and query are.
fn split_target(text: &[u8], target: Span) -> (Span, Span)
    requires { IsWithin (length text.now) target }
    ensures within { IsWithin (length text.now) result.0 × IsWithin (length text.now) result.1 }
    ensures path { span_bytes text.now result.0 ≡ path_of (span_bytes text.now target) }
    ensures query { span_bytes text.now result.1 ≡ query_of (span_bytes text.now target) }
{
    match question_mark(target.of(text)) {
        Some(at) => {
            let mark = target.start + at;
            (
                Span {
                    start: target.start,
                    end: mark,
                },
                Span {
                    start: mark + 1,
                    end: target.end,
                },
            )
        }
        None => {
            let end = target.end;
            (target, Span { start: end, end })
        }
    }
}

// Whether the connection closes after this request.
fn closes(text: &[u8], headers: &[HeaderSpan], spans: &RequestSpans, number: u32) -> bool
    requires method { IsWithin (length text.now) spans.now.method }
    requires headers { All (IsHeaderWithin (length text.now)) headers.now }
    ensures { (head : RequestHead) → Covers text.now headers.now spans.now head
        → result ≡ closes_after number head }
{
    asks_to_close(text, headers)
        || spans.version == 0
        || spans.method.of(text) == b"HEAD".as_slice()
        || MAX_REQUESTS <= number
}
