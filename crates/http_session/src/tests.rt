//! What no clause says: whole exchanges, byte by byte.
ghost use Rattle.std.specs.Prelude.{◌≡◌, true, IfOk};

use crate::{
    Allow, BadRequest, Body, LinkFault, Method, NextRequest, Reader, Reply, Request, RequestParts,
    Status, Text, write_reply,
};
use link_trait::{Link, MemoryLink};
use std::alloc::{AllocError, Global};
use std::process::Abort;
use std::test::Fail;

const NOW: u64 = 1_700_000_000_123;

const TWO: &[u8] =
    b"POST /ingest?name=app HTTP/1.1\r\nX-Scope-OrgID: t1\r\nContent-Length: 9\r\n\r\nmain;a 3\nGET /pyroscope/render?query=process_cpu%3Asamples%3Acount%3Acpu%3Ananoseconds%7B%7D&format=folded HTTP/1.1\r\nX-Scope-OrgID: t1\r\n\r\n";

// A link that gives this input in pieces that end at the cuts.
fn link_of(alloc: Global, input: &[u8], cuts: Vec<usize>) -> Result<MemoryLink, AllocError>
    ensures { IfOk result (λ link. link.open ≡ true) }
{
    let input = Vec::from_slice(alloc, input)?;
    Ok(MemoryLink::new(alloc, input, cuts, NOW, Vec::new(alloc)))
}

// The answer's name, with its code where it has one.
fn name_of(answer: &NextRequest) -> &'static str {
    match answer {
        NextRequest::Request(_) => "request",
        NextRequest::End => "end",
        NextRequest::Bad(BadRequest::Malformed) => "malformed",
        NextRequest::Bad(BadRequest::HeadTooLarge) => "head too large",
        NextRequest::Bad(BadRequest::BodyTooLarge) => "body too large",
        NextRequest::Bad(BadRequest::Chunked) => "chunked",
        NextRequest::Bad(BadRequest::CutOff) => "cut off",
        NextRequest::LinkFault(_) => "link fault",
        NextRequest::Memory => "memory",
    }
}

fn expect_first(rt: &(impl Abort + Eprint), request: &Request) {
    assert!(rt; request.method() == Method::Post);
    assert_eq!(rt; request.path(), b"/ingest".as_slice());
    assert_eq!(rt; request.query(), b"name=app".as_slice());
    assert_eq!(rt; request.body(), b"main;a 3\n".as_slice());
    assert!(rt; request.tenant() == Some(b"t1".as_slice()));
    assert!(rt; request.front().is_none() && request.encoding().is_none());
    assert!(rt; !request.close() && request.moment() == NOW);
}

fn expect_second(rt: &(impl Abort + Eprint), request: &Request) {
    assert!(rt; request.method() == Method::Get);
    assert_eq!(rt; request.path(), b"/pyroscope/render".as_slice());
    assert!(rt; request.query().starts_with(b"query=process_cpu%3A"));
    assert!(rt; request.body().is_empty());
}

#[test]
fn two_requests_are_read_however_the_input_is_cut(rt: HostRuntime) -> Result<(), Fail> {
    for cut in 0..=TWO.len() {
        let mut cuts = Vec::new(rt.alloc());
        cuts.push(cut)?;
        let mut link = link_of(rt.alloc(), TWO, cuts)?;
        let mut reader = Reader::new(rt.alloc());
        match reader.next_request(&mut link) {
            NextRequest::Request(request) => expect_first(&rt, &request),
            other => assert_eq!(rt; name_of(&other), "request", "cut at {cut}"),
        }
        match reader.next_request(&mut link) {
            NextRequest::Request(request) => expect_second(&rt, &request),
            other => assert_eq!(rt; name_of(&other), "request", "cut at {cut}"),
        }
        match reader.next_request(&mut link) {
            NextRequest::End => {}
            other => assert_eq!(rt; name_of(&other), "end", "cut at {cut}"),
        }
    }
    Ok(())
}

#[test]
fn a_request_is_made_of_its_parts(rt: HostRuntime) -> Result<(), Fail> {
    let parts = RequestParts {
        method: Method::Post,
        target: b"/ingest?name=app",
        tenant: Some(b"t1"),
        front: None,
        encoding: Some(b""),
        close: true,
        moment: 5,
    };
    let body = Vec::from_slice(rt.alloc(), b"a 1\n")?;
    let request = Request::from_parts(rt.alloc(), &parts, body)?;
    assert!(rt; request.method() == Method::Post);
    assert_eq!(rt; request.path(), b"/ingest".as_slice());
    assert_eq!(rt; request.query(), b"name=app".as_slice());
    assert!(rt; request.tenant() == Some(b"t1".as_slice()));
    assert!(rt; request.front().is_none());
    assert!(rt; request.encoding() == Some(b"".as_slice()));
    assert!(rt; request.close() && request.moment() == 5);
    assert_eq!(rt; request.into_body().as_slice(), b"a 1\n".as_slice());
    Ok(())
}

// Some bytes, this many times.
fn repeated(alloc: Global, bytes: &[u8], count: usize) -> Result<Vec<u8>, AllocError> {
    let mut all = Vec::new(alloc);
    for _ in 0..count {
        all.extend_from_slice(bytes)?;
    }
    Ok(all)
}

// What a new reader answers first, by its name.
fn first_answer(alloc: Global, input: &[u8]) -> Result<&'static str, AllocError> {
    let mut link = link_of(alloc, input, Vec::new(alloc))?;
    Ok(name_of(&Reader::new(alloc).next_request(&mut link)))
}

#[test]
fn each_fault_is_told_by_its_name(rt: HostRuntime) -> Result<(), Fail> {
    let rows: [(&[u8], &str); 16] = [
        (b"", "end"),
        (b"\r\n\n\r\n", "end"),
        (b"GET / HTTP/1.1\r\n\r\n", "request"),
        (b"\r\n\nGET / HTTP/1.1\n\n", "request"),
        (b"GET\r\n\r\n", "malformed"),
        (
            b"GET / HTTP/1.1\r\nContent-Length: 1\r\nContent-Length: 1\r\n\r\na",
            "malformed",
        ),
        (
            b"GET / HTTP/1.1\r\nContent-Length: +1\r\n\r\na",
            "malformed",
        ),
        (b"GET / HTTP/1.1\r\nContent-Length:\r\n\r\na", "malformed"),
        (
            b"GET / HTTP/1.1\r\nContent-Length: 00000000000000000001\r\n\r\na",
            "malformed",
        ),
        (
            b"GET / HTTP/1.1\r\ntransfer-encoding: gzip\r\n\r\n",
            "malformed",
        ),
        (
            b"GET / HTTP/1.1\r\ntransfer-encoding: chunked\r\ncontent-length: 0\r\n\r\n",
            "malformed",
        ),
        (
            b"GET / HTTP/1.1\r\nTransfer-Encoding: CHUNKED\r\n\r\n",
            "chunked",
        ),
        (
            b"GET / HTTP/1.1\r\nContent-Length: 8388609\r\n\r\n",
            "body too large",
        ),
        (
            b"GET / HTTP/1.1\r\nContent-Length: 9999999999999999999\r\n\r\n",
            "body too large",
        ),
        (b"GET / HTTP/1.1\r\nContent-Length: 3\r\n\r\nab", "cut off"),
        (b"GET / HTT", "cut off"),
    ];
    for (input, want) in rows {
        assert_eq!(rt; first_answer(rt.alloc(), input)?, want);
    }
    Ok(())
}

// A head with this many headers, behind this many newline bytes.
fn head_with(alloc: Global, newlines: usize, headers: usize) -> Result<Vec<u8>, AllocError> {
    let mut head = repeated(alloc, b"\n", newlines)?;
    head.extend_from_slice(b"GET /nothing HTTP/1.1\r\n")?;
    head.extend_from_slice(&repeated(alloc, b"a: b\r\n", headers)?)?;
    head.extend_from_slice(b"\r\n")?;
    Ok(head)
}

// A head of this length.
fn head_of(alloc: Global, length: usize) -> Result<Vec<u8>, AllocError> {
    let mut head = Vec::from_slice(alloc, b"GET / HTTP/1.1\r\na: ")?;
    let rest = length.saturating_sub(head.len() + 4);
    head.extend_from_slice(&repeated(alloc, b"b", rest)?)?;
    head.extend_from_slice(b"\r\n\r\n")?;
    Ok(head)
}

#[test]
fn a_head_has_its_limits(rt: HostRuntime) -> Result<(), Fail> {
    let alloc = rt.alloc();
    assert_eq!(rt; first_answer(alloc, &head_with(alloc, 0, 64)?)?, "request");
    assert_eq!(rt; first_answer(alloc, &head_with(alloc, 70, 64)?)?, "request");
    assert_eq!(rt;
        first_answer(alloc, &head_with(alloc, 0, 65)?)?,
        "head too large"
    );
    assert_eq!(rt; first_answer(alloc, &head_of(alloc, 16_384)?)?, "request");
    assert_eq!(rt;
        first_answer(alloc, &head_of(alloc, 16_385)?)?,
        "head too large"
    );
    assert_eq!(rt;
        first_answer(alloc, &repeated(alloc, b"\n", 16_383)?)?,
        "end"
    );
    assert_eq!(rt;
        first_answer(alloc, &repeated(alloc, b"\n", 16_384)?)?,
        "head too large"
    );
    Ok(())
}

#[test]
fn closing_is_asked_in_three_ways(rt: HostRuntime) -> Result<(), Fail> {
    let rows: [(&[u8], bool); 7] = [
        (b"GET / HTTP/1.1\r\n\r\n", false),
        (b"GET / HTTP/1.1\r\nConnection: keep-alive\r\n\r\n", false),
        (
            b"GET / HTTP/1.1\r\nconnection: Keep-Alive ,\t CLOSE\t, x\r\n\r\n",
            true,
        ),
        (
            b"GET / HTTP/1.1\r\nConnection: x\r\nConnection: close\r\n\r\n",
            true,
        ),
        (b"GET / HTTP/1.1\r\nConnection: closed\r\n\r\n", false),
        (b"GET / HTTP/1.0\r\n\r\n", true),
        (b"HEAD / HTTP/1.1\r\n\r\n", true),
    ];
    for (input, want) in rows {
        let mut link = link_of(rt.alloc(), input, Vec::new(rt.alloc()))?;
        match Reader::new(rt.alloc()).next_request(&mut link) {
            NextRequest::Request(request) => assert_eq!(rt; request.close(), want),
            other => assert_eq!(rt; name_of(&other), "request"),
        }
    }
    Ok(())
}

#[test]
fn a_body_is_longer_than_the_buffer(rt: HostRuntime) -> Result<(), Fail> {
    let alloc = rt.alloc();
    let body = repeated(alloc, b"0123456789", 10_000)?;
    let mut input = Vec::from_slice(alloc, b"POST /a HTTP/1.1\r\nContent-Length: 100000\r\n\r\n")?;
    input.extend_from_slice(&body)?;
    input.extend_from_slice(b"GET /b HTTP/1.1\r\n\r\n")?;
    let mut link = link_of(alloc, &input, Vec::new(alloc))?;
    let mut reader = Reader::new(alloc);
    match reader.next_request(&mut link) {
        NextRequest::Request(request) => assert!(rt; request.body() == body.as_slice()),
        other => assert_eq!(rt; name_of(&other), "request"),
    }
    match reader.next_request(&mut link) {
        NextRequest::Request(request) => assert_eq!(rt; request.path(), b"/b".as_slice()),
        other => assert_eq!(rt; name_of(&other), "request"),
    }
    Ok(())
}

#[test]
fn a_failing_read_ends_the_reader(rt: HostRuntime) -> Result<(), Fail> {
    for failing in 0..2 {
        let mut cuts = Vec::new(rt.alloc());
        cuts.push(78)?;
        let input = Vec::from_slice(rt.alloc(), TWO)?;
        let mut calls = Vec::new(rt.alloc());
        calls.push(failing)?;
        let mut link = MemoryLink::new(rt.alloc(), input, cuts, NOW, calls);
        let mut reader = Reader::new(rt.alloc());
        match reader.next_request(&mut link) {
            NextRequest::LinkFault(count) => assert_eq!(rt; count, 1),
            other => assert_eq!(rt; name_of(&other), "link fault", "at {failing}"),
        }
        assert_eq!(rt; link.faults(), 1);
        assert_eq!(rt;
            name_of(&reader.next_request(&mut link)),
            "end",
            "at {failing}"
        );
    }
    Ok(())
}

fn reply_of(status: Status, text: Text, body: Body) -> Reply {
    Reply {
        status,
        text,
        body,
        allow: None,
        front: None,
        now: NOW,
        close: false,
    }
}

#[test]
fn replies_are_these_bytes(rt: HostRuntime) -> Result<(), Fail> {
    let alloc = rt.alloc();
    let mut link = link_of(alloc, b"", Vec::new(alloc))?;
    let mut sums = reply_of(
        Status::Ok,
        Text::Plain,
        Body::kept(b"main 2\nmain;a 3\nmain;b 5\n"),
    );
    sums.front = Some(1);
    assert!(rt; write_reply(&mut link, &sums).is_ok());
    let mut refused = reply_of(Status::MethodNotAllowed, Text::Json, Body::empty());
    refused.allow = Some(Allow::Post);
    refused.close = true;
    assert!(rt; write_reply(&mut link, &refused).is_ok());
    let want =
        b"HTTP/1.1 200 OK\r\nContent-Type: text/plain\r\nContent-Length: 25\r\nX-Pyro-Front: 1\r\nX-Pyro-Now: 1700000000123\r\n\r\nmain 2\nmain;a 3\nmain;b 5\nHTTP/1.1 405 Method Not Allowed\r\nContent-Type: application/json\r\nContent-Length: 0\r\nAllow: POST\r\nX-Pyro-Now: 1700000000123\r\nConnection: close\r\n\r\n";
    assert!(rt; link.given() == want.as_slice());
    Ok(())
}

#[test]
fn a_long_body_goes_out_whole_and_a_failing_write_leaves_a_prefix(
    rt: HostRuntime,
) -> Result<(), Fail> {
    let alloc = rt.alloc();
    let body = repeated(alloc, b"x", 10_000)?;
    let reply = reply_of(Status::Ok, Text::Octets, Body::from_vec(body));
    let mut whole = link_of(alloc, b"", Vec::new(alloc))?;
    assert!(rt; write_reply(&mut whole, &reply).is_ok());
    assert!(rt; whole.given().ends_with(b"xxx") && 10_000 < whole.given().len());
    let mut failing = Vec::new(alloc);
    failing.push(1)?;
    let mut cut = MemoryLink::new(alloc, Vec::new(alloc), Vec::new(alloc), NOW, failing);
    assert!(rt; write_reply(&mut cut, &reply) == Err(LinkFault(1)));
    assert!(rt; whole.given().starts_with(cut.given()) && !cut.given().is_empty());
    assert_eq!(rt; cut.refused(), 0);
    Ok(())
}

#[test]
fn a_small_reply_goes_out_by_one_write(rt: HostRuntime) -> Result<(), Fail> {
    let alloc = rt.alloc();
    let mut second = Vec::new(alloc);
    second.push(1)?;
    let mut link = MemoryLink::new(alloc, Vec::new(alloc), Vec::new(alloc), NOW, second);
    let reply = reply_of(Status::NotFound, Text::Json, Body::kept(b"{}"));
    assert!(rt; write_reply(&mut link, &reply).is_ok());
    let length = link.given().len();
    assert!(rt; write_reply(&mut link, &reply) == Err(LinkFault(1)));
    assert_eq!(rt; link.given().len(), length);
    Ok(())
}
