// The whole path, from the bytes that come in to the bytes that go out.
mod fronts;
mod pushes;
mod queries;
mod refusals;
mod talk;

use crate::{ExitStatus, Outcome, run};
use link_trait::{Link, MemoryLink};
use std::alloc::{AllocError, Global};
use std::process::Abort;
use std::test::Fail;

const NOW: u64 = 1_700_000_000_000;

const INGEST: &str =
    "POST /ingest?name=app HTTP/1.1\r\nX-Scope-OrgID: t1\r\nContent-Length: 25\r\n\r\nmain;a 3\nmain;b 5\nmain 2\n";

const RENDER: &str =
    "GET /pyroscope/render?query=process_cpu%3Asamples%3Acount%3Acpu%3Ananoseconds%7B%7D&format=folded HTTP/1.1\r\nX-Scope-OrgID: t1\r\n\r\n";

const INGESTED: &str =
    "HTTP/1.1 200 OK\r\nContent-Type: text/plain\r\nContent-Length: 0\r\nX-Pyro-Front: 1\r\nX-Pyro-Now: 1700000000000\r\n\r\n";

const RENDERED: &str =
    "HTTP/1.1 200 OK\r\nContent-Type: text/plain\r\nContent-Length: 25\r\nX-Pyro-Front: 1\r\nX-Pyro-Now: 1700000000000\r\n\r\nmain 2\nmain;a 3\nmain;b 5\n";

type Ran = Outcome<(), MemoryLink, (), ()>;

// A run over these words and this input.
fn ran(
    alloc: Global,
    word: &str,
    input: &[u8],
    cuts: Vec<usize>,
    failing: Vec<u64>,
) -> Result<Ran, AllocError> {
    let mut words = Vec::new(alloc);
    if !word.is_empty() {
        words.push(String::from_str(alloc, word)?)?;
    }
    let bytes = Vec::from_slice(alloc, input)?;
    let link = MemoryLink::new(alloc, bytes, cuts, NOW, failing);
    Ok(run(alloc, &words, (), link, (), (), &()))
}

// The replies to this input in one session, and how it ended.
fn session(alloc: Global, input: &[u8]) -> Result<Ran, AllocError> {
    ran(alloc, "session", input, Vec::new(alloc), Vec::new(alloc))
}

fn text(alloc: Global, pieces: &[&str]) -> Result<String, AllocError> {
    let mut whole = String::new(alloc);
    for piece in pieces {
        whole.push_str(piece)?;
    }
    Ok(whole)
}

// The run gave just these bytes and ended so.
fn expect(rt: &impl Abort, ran: &Ran, given: &str, status: ExitStatus, at: usize) {
    assert_eq!(rt; ran.stdio.given(), given.as_bytes(), "at {at}");
    assert_eq!(rt; ran.status, status, "at {at}");
}

#[test]
fn a_push_is_rendered_as_folded_text(rt: HostRuntime) -> Result<(), Fail> {
    let alloc = rt.alloc();
    let input = text(alloc, &[INGEST, RENDER])?;
    let given = text(alloc, &[INGESTED, RENDERED])?;
    let ran = session(alloc, input.as_str().as_bytes())?;
    expect(&rt, &ran, given.as_str(), ExitStatus::Done, 0);
    assert_eq!(rt; ran.history.len(), 1);
    Ok(())
}

#[test]
fn input_cut_at_each_byte_gets_the_same_replies(rt: HostRuntime) -> Result<(), Fail> {
    let alloc = rt.alloc();
    let input = text(alloc, &[INGEST, RENDER])?;
    let given = text(alloc, &[INGESTED, RENDERED])?;
    for cut in 0..input.len() {
        let cuts = vec![in alloc; cut]?;
        let ran = ran(
            alloc,
            "session",
            input.as_str().as_bytes(),
            cuts,
            Vec::new(alloc),
        )?;
        expect(&rt, &ran, given.as_str(), ExitStatus::Done, cut);
    }
    Ok(())
}

#[test]
fn words_that_are_no_command_read_nothing(rt: HostRuntime) -> Result<(), Fail> {
    let alloc = rt.alloc();
    for (at, word) in ["", "serve", "Session", "session ", "--help"]
        .iter()
        .enumerate()
    {
        let ran = ran(
            alloc,
            word,
            INGEST.as_bytes(),
            Vec::new(alloc),
            vec![in alloc; 0]?,
        )?;
        expect(&rt, &ran, "", ExitStatus::NoCommand, at);
        assert_eq!(rt; ran.stdio.faults(), 0);
    }
    Ok(())
}

#[test]
fn an_empty_session_gives_nothing(rt: HostRuntime) -> Result<(), Fail> {
    let alloc = rt.alloc();
    for (at, input) in ["", "\r\n", "\r\n\r\n"].iter().enumerate() {
        let ran = session(alloc, input.as_bytes())?;
        expect(&rt, &ran, "", ExitStatus::Done, at);
    }
    Ok(())
}

const JSON_400: &str =
    "HTTP/1.1 400 Bad Request\r\nContent-Type: application/json\r\nContent-Length: ";

const AT_NOW: &str = "\r\nX-Pyro-Now: 1700000000000\r\n";

#[test]
fn heads_that_are_not_served_close_the_connection(rt: HostRuntime) -> Result<(), Fail> {
    let alloc = rt.alloc();
    let unbuilt = text(
        alloc,
        &[
            "HTTP/1.1 501 Not Implemented\r\nContent-Type: application/json\r\nContent-Length: 19",
            AT_NOW,
            "Connection: close\r\n\r\n{\"fault\":\"unbuilt\"}",
        ],
    )?;
    let large = text(
        alloc,
        &[
            "HTTP/1.1 413 Content Too Large\r\nContent-Type: application/json\r\nContent-Length: 14",
            AT_NOW,
            "Connection: close\r\n\r\n{\"fault\":\"H3\"}",
        ],
    )?;
    let malformed = text(
        alloc,
        &[
            JSON_400,
            "14",
            AT_NOW,
            "Connection: close\r\n\r\n{\"fault\":\"H1\"}",
        ],
    )?;
    for (at, (input, given)) in [
        ("GET\r\n\r\n", malformed.as_str()),
        (
            "POST /ingest HTTP/1.1\r\nContent-Length: 1\r\nContent-Length: 1\r\n\r\nx",
            malformed.as_str(),
        ),
        (
            "POST /ingest HTTP/1.1\r\nContent-Length: 8388609\r\n\r\n",
            large.as_str(),
        ),
        (
            "POST /ingest HTTP/1.1\r\nTransfer-Encoding: chunked\r\n\r\n0\r\n\r\n",
            unbuilt.as_str(),
        ),
        ("GET /nothing", ""),
        (
            "POST /ingest?name=app HTTP/1.1\r\nX-Scope-OrgID: t1\r\nContent-Length: 25\r\n\r\nmain;a 3\n",
            "",
        ),
    ]
    .into_iter()
    .enumerate()
    {
        let ran = session(alloc, input.as_bytes())?;
        expect(&rt, &ran, given, ExitStatus::BadRequest, at);
        assert_eq!(rt; ran.history.len(), 0);
    }
    Ok(())
}

#[test]
fn a_link_that_fails_ends_the_session(rt: HostRuntime) -> Result<(), Fail> {
    let alloc = rt.alloc();
    let input = text(alloc, &[INGEST, RENDER])?;
    let given = text(alloc, &[INGESTED, RENDERED])?;
    for failing in 0..4 {
        let fails = vec![in alloc; failing]?;
        let ran = ran(
            alloc,
            "session",
            input.as_str().as_bytes(),
            Vec::new(alloc),
            fails,
        )?;
        assert_eq!(rt; ran.status, ExitStatus::StreamFault, "at {failing}");
        assert!(rt;
            given.as_str().as_bytes().starts_with(ran.stdio.given()),
            "at {failing}"
        );
        // The fourth call is the read that finds the end of the input.
        assert_eq!(rt;
            ran.stdio.given().len() == given.len(),
            failing == 3,
            "at {failing}"
        );
    }
    Ok(())
}

#[test]
fn a_head_may_have_64_headers(rt: HostRuntime) -> Result<(), Fail> {
    let alloc = rt.alloc();
    let nothing =
        "HTTP/1.1 404 Not Found\r\nContent-Type: application/json\r\nContent-Length: 17\r\nX-Pyro-Now: 1700000000000\r\n\r\n{\"fault\":\"route\"}";
    let closed =
        "HTTP/1.1 431 Request Header Fields Too Large\r\nContent-Type: application/json\r\nContent-Length: 14\r\nX-Pyro-Now: 1700000000000\r\nConnection: close\r\n\r\n{\"fault\":\"H2\"}";
    let mut head = Vec::from_slice(alloc, b"GET /nothing HTTP/1.1\r\n")?;
    for _ in 0..64 {
        head.extend_from_slice(b"a: b\r\n")?;
    }
    let mut more = head.clone()?;
    head.extend_from_slice(b"\r\n")?;
    more.extend_from_slice(b"a: b\r\n\r\n")?;
    let served = session(alloc, &head)?;
    expect(&rt, &served, nothing, ExitStatus::Done, 64);
    let refused = session(alloc, &more)?;
    expect(&rt, &refused, closed, ExitStatus::BadRequest, 65);
    Ok(())
}

#[test]
fn a_request_may_ask_for_closing(rt: HostRuntime) -> Result<(), Fail> {
    let alloc = rt.alloc();
    let ran = session(
        alloc,
        b"GET /nothing HTTP/1.1\r\nConnection: close\r\n\r\nrest",
    )?;
    let closed =
        "HTTP/1.1 404 Not Found\r\nContent-Type: application/json\r\nContent-Length: 17\r\nX-Pyro-Now: 1700000000000\r\nConnection: close\r\n\r\n{\"fault\":\"route\"}";
    expect(&rt, &ran, closed, ExitStatus::Done, 0);
    Ok(())
}
