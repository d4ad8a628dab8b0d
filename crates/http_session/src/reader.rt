//! Requests from a link, one after another.
ghost use Rattle.std.specs.Prelude.{◌≡◌, ◌≢◌, ◌≤◌, ℕ, [], false, true, min, length, take, drop, IfOk, IfErr, MatchResult};
ghost use Rattle.httparse.specs.Grammar.{RequestHead};
ghost use Rattle.link_trait.specs.Link.{Told, Goes, Rose};
ghost use Rattle.http_session.specs.HeadRead.{IsHeadAt};
ghost use Rattle.http_session.specs.NextRequests.{Continues, NextStep, StaysOpen};
ghost use Rattle.http_session.specs.Steps.{IsFaultOf, IsOpenAfter, IsQuiet, StopsAt, HeadStep, BodyStep, RestStep, RequestStep};
ghost use Rattle.http_session.specs.Heads.{IsUnfinished};
ghost use Rattle.http_session.specs.Asked.{Asked};

use crate::bad_request::BadRequest;
use crate::buffer::Buffer;
use crate::framing::body_length;
use crate::head::{HeadRead, MAX_HEADERS, read_head, skip_lines};
use crate::request::{MAX_REQUESTS, Request};
use httparse::spans::{EMPTY_HEADER_SPAN, HeaderSpan, RequestSpans};
use link_trait::{Failed, LAST_MOMENT, Link};
use std::alloc::Global;
use std::marker::Model;
use std::mem;

/// What comes next on a connection.
#[derive(Drop)]
pub enum NextRequest {
    Request(Request),
    /// The input ended between requests, or what came before wasn't a request.
    End,
    Bad(BadRequest),
    /// The link failed; this is its count of faults.
    LinkFault(u64),
    /// Memory ran out.
    Memory,
}

// Why there is no next request.
#[derive(Drop)]
enum Stop {
    End,
    Bad(BadRequest),
    LinkFault(u64),
    Memory,
}

#[derive(Drop)]
enum State {
    // No request was asked for yet, and no memory was taken.
    Fresh,
    Open(Buffer),
    Ended,
}

/// Reads the requests of one connection. It holds what came after the last of them.
#[derive(Drop)]
pub struct Reader {
    alloc: Global,
    state: State,
    // How many requests were given, and the limit from that one on.
    given: u32,
}

impl Model for Reader {
    ghost use Rattle.std.specs.Prelude.{◌≡◌, ◌≤◌, true};
    ghost use Rattle.http_session.specs.Progress.{Progress};

    ghost Value = { Progress };

    ghost use Rattle.http_session.specs.Limits.{most_requests};
    ghost use Rattle.http_session.specs.ReaderState.{held_in, is_ended, is_fresh};

    ghost view = { λ a. record {
      held = held_in a.state;
      ended = is_ended a.state;
      given = a.given;
    } };

    ghost invariant = { λ a. (a.given ≤ most_requests) × (is_fresh a.state ≡ true → a.given ≡ 0) };
}

impl Reader {
    /// It takes no memory before the first request is asked for.
    pub fn new(alloc: Global) -> Reader
        ensures { result ≡ record { held = []; ended = false; given = 0 } }
    {
        Reader {
            alloc,
            state: State::Fresh,
            given: 0,
        }
    }

    /// The next request of the connection. After anything but a request comes `End`.
    pub fn next_request<L: Link>(&mut self, link: &mut L) -> NextRequest
        requires open { self.old.ended ≡ false → L.is_open link.old ≡ true }
        ensures open { L.is_open link.old ≡ true → StaysOpen (L.is_open link.new) result }
        ensures fault { (count : ℕ) → result ≡ NextRequest.LinkFault count
            → Rose (L.faults link.old) (L.faults link.new) × (count ≡ L.faults link.new) }
        ensures count { L.faults link.old ≤ L.faults link.new }
        ensures quiet { ((count : ℕ) → result ≢ NextRequest.LinkFault count) → L.faults link.new ≡ L.faults link.old }
        ensures after_end { self.old.ended ≡ true → (result ≡ NextRequest.End)
            × (L.told link.new ≡ L.told link.old) × (L.faults link.new ≡ L.faults link.old) }
        ensures moment { (request : Asked) → result ≡ NextRequest.Request request
            → request.moment ≤ LAST_MOMENT }
        ensures ends { Continues result self.old self.new }
        ensures next { self.old.ended ≡ false
            → Goes (NextStep result self.old self.new) (L.told link.old) (L.told link.new) }
    {
        let mut buffer = match mem::replace(&mut self.state, State::Ended) {
            State::Ended => return NextRequest::End,
            State::Open(buffer) => buffer,
            State::Fresh => match Buffer::new(self.alloc) {
                Ok(buffer) => buffer,
                Err(_) => return NextRequest::Memory,
            },
        };
        let number = (self.given + 1).min(MAX_REQUESTS);
        match take_request(self.alloc, &mut buffer, number, link) {
            Ok(request) => {
                self.state = State::Open(buffer);
                self.given = number;
                NextRequest::Request(request)
            }
            Err(Stop::End) => NextRequest::End,
            Err(Stop::Bad(bad)) => NextRequest::Bad(bad),
            Err(Stop::LinkFault(count)) => NextRequest::LinkFault(count),
            Err(Stop::Memory) => NextRequest::Memory,
        }
    }
}

// Takes the request of this number: its head, and then its body.
fn take_request<L: Link>(
    alloc: Global,
    buffer: &mut Buffer,
    number: u32,
    link: &mut L,
) -> Result<Request, Stop>
    requires open { L.is_open link.old ≡ true }
    ensures open { MatchResult result (λ _. L.is_open link.new ≡ true) (IsOpenAfter (L.is_open link.new)) }
    ensures count { L.faults link.old ≤ L.faults link.new }
    ensures quiet { MatchResult result (λ _. L.faults link.new ≡ L.faults link.old)
        (IsQuiet (L.faults link.old) (L.faults link.new)) }
    ensures fault { IfErr result (IsFaultOf (L.faults link.old) (L.faults link.new)) }
    ensures moment { IfOk result (λ request. request.moment ≤ LAST_MOMENT) }
    ensures told { Goes (RequestStep number result buffer.old buffer.new)
        (L.told link.old) (L.told link.new) }
{
    let mut headers = [EMPTY_HEADER_SPAN; MAX_HEADERS];
    let spans = take_head(buffer, &mut headers, link)?;
    let text = &buffer.held()[..spans.len];
    let headers = &headers[..spans.headers];
    let size = match body_length(text, headers) {
        Ok(size) => size,
        Err(bad) => return Err(Stop::Bad(bad)),
    };
    let request = match Request::of_head(alloc, text, headers, &spans, number) {
        Ok(request) => request,
        Err(_) => return Err(Stop::Memory),
    };
    buffer.consume(spans.len);
    match take_body(alloc, buffer, size, link) {
        Ok(body) => Ok(request.with_body(body, link.moment())),
        Err(stop) => Err(stop),
    }
}

// Fills the buffer until a whole head stands at its front.
fn take_head<L: Link>(
    buffer: &mut Buffer,
    headers: &mut [HeaderSpan; MAX_HEADERS],
    link: &mut L,
) -> Result<RequestSpans, Stop>
    requires open { L.is_open link.old ≡ true }
    ensures open { MatchResult result (λ _. L.is_open link.new ≡ true) (IsOpenAfter (L.is_open link.new)) }
    ensures count { L.faults link.old ≤ L.faults link.new }
    ensures quiet { MatchResult result (λ _. L.faults link.new ≡ L.faults link.old)
        (IsQuiet (L.faults link.old) (L.faults link.new)) }
    ensures fault { IfErr result (IsFaultOf (L.faults link.old) (L.faults link.new)) }
    ensures head { IfOk result (λ spans. (head : RequestHead)
        × IsHeadAt buffer.new headers.new spans head) }
    ensures told { Goes (HeadStep result buffer.old buffer.new)
        (L.told link.old) (L.told link.new) }
{
    loop {
        match read_head(buffer.held(), headers) {
            HeadRead::Whole(spans) => return Ok(spans),
            HeadRead::TooLarge => return Err(Stop::Bad(BadRequest::HeadTooLarge)),
            HeadRead::Refused => return Err(Stop::Bad(BadRequest::Malformed)),
            HeadRead::Unfinished => {}
        }
        match buffer.fill(link) {
            Ok(0) => return Err(unfinished(buffer.held())),
            Ok(_) => {}
            Err(Failed) => return Err(Stop::LinkFault(link.faults())),
        }
    }
}

// The input ended here, before a whole head.
fn unfinished(bytes: &[u8]) -> Stop
    ensures fault { (before : ℕ) → (now : ℕ) → IsFaultOf before now result }
    ensures quiet { (count : ℕ) → IsQuiet count count result }
    ensures stops { (now : Told) → IsUnfinished bytes.now → now.to_come ≡ []
        → StopsAt bytes.now now result }
{
    if skip_lines(bytes).is_empty() {
        Stop::End
    } else {
        Stop::Bad(BadRequest::CutOff)
    }
}

// Takes a body of this size: what is held of it, and the rest from the link into its own buffer.
fn take_body<L: Link>(
    alloc: Global,
    buffer: &mut Buffer,
    size: usize,
    link: &mut L,
) -> Result<Vec<u8>, Stop>
    requires open { L.is_open link.old ≡ true }
    ensures open { MatchResult result (λ _. L.is_open link.new ≡ true) (IsOpenAfter (L.is_open link.new)) }
    ensures count { L.faults link.old ≤ L.faults link.new }
    ensures quiet { MatchResult result (λ _. L.faults link.new ≡ L.faults link.old)
        (IsQuiet (L.faults link.old) (L.faults link.new)) }
    ensures fault { IfErr result (IsFaultOf (L.faults link.old) (L.faults link.new)) }
    ensures told { Goes (BodyStep (λ body. body.items) size result buffer.old buffer.new)
        (L.told link.old) (L.told link.new) }
{
    let Ok(mut body) = Vec::from_elem(alloc, 0u8, size) else {
        return Err(Stop::Memory);
    };
    let count = move_held(&mut body, buffer);
    match fill_rest(&mut body[count..], link) {
        Ok(()) => Ok(body),
        Err(stop) => Err(stop),
    }
}

// Moves what is held of a body to its front, and says how much.
fn move_held(body: &mut [u8], buffer: &mut Buffer) -> usize
    ensures count { result ≡ min (length body.old) (length buffer.old) }
    ensures body { take result body.new ≡ take result buffer.old }
    ensures buffer { buffer.new ≡ drop result buffer.old }
{
    let count = body.len().min(buffer.held().len());
    body[..count].copy_from_slice(&buffer.held()[..count]);
    buffer.consume(count);
    count
}

// Reads from the link until the rest of a body is full.
fn fill_rest<L: Link>(rest: &mut [u8], link: &mut L) -> Result<(), Stop>
    requires open { L.is_open link.old ≡ true }
    ensures open { MatchResult result (λ _. L.is_open link.new ≡ true) (IsOpenAfter (L.is_open link.new)) }
    ensures count { L.faults link.old ≤ L.faults link.new }
    ensures quiet { MatchResult result (λ _. L.faults link.new ≡ L.faults link.old)
        (IsQuiet (L.faults link.old) (L.faults link.new)) }
    ensures fault { IfErr result (IsFaultOf (L.faults link.old) (L.faults link.new)) }
    ensures told { Goes (RestStep result rest.new) (L.told link.old) (L.told link.new) }
{
    let mut filled = 0;
    while filled < rest.len() {
        match link.read(&mut rest[filled..]) {
            Ok(0) => return Err(Stop::Bad(BadRequest::CutOff)),
            Ok(count) => filled += count,
            Err(Failed) => return Err(Stop::LinkFault(link.faults())),
        }
    }
    Ok(())
}
