// The replies down to their bodies, and that requests are read with ample memory.
use crate::{Answered, Verdict, acknowledge, answer, closing_reply, memory_reply};
use http_session::{BadRequest, NextRequest, Reader, Reply, Request, Status, Text};
use link_trait::MemoryLink;
use request_meaning::{Config, PushForm};
use routes::Routes;
use std::alloc::Global;
use std::test::Fail;

const NOW: u64 = 1_700_000_000_000;

// The request of these bytes.
fn request(alloc: Global, text: &str) -> Result<Option<Request>, Fail> {
    let bytes = Vec::from_slice(alloc, text.as_bytes())?;
    let mut link = MemoryLink::new(alloc, bytes, Vec::new(alloc), NOW, Vec::new(alloc));
    let mut reader = Reader::new(alloc);
    match reader.next_request(&mut link) {
        NextRequest::Request(request) => Ok(Some(request)),
        _ => Ok(None),
    }
}

// What is answered to these bytes before any push.
fn answered(alloc: Global, text: &str) -> Result<Option<Answered>, Fail> {
    let config = Config {
        single_tenant: false,
        routes: Routes::new(alloc)?,
    };
    match request(alloc, text)? {
        Some(request) => Ok(Some(answer(alloc, &request, &[], &config))),
        None => Ok(None),
    }
}

fn says(reply: &Reply, status: Status, front: Option<u64>, body: &str) -> bool {
    reply.status == status && reply.front == front && reply.body.as_slice() == body.as_bytes()
}

// Whether these bytes are answered so.
fn replies(
    alloc: Global,
    text: &str,
    status: Status,
    front: Option<u64>,
    body: &str,
) -> Result<bool, Fail> {
    match answered(alloc, text)? {
        Some(Answered::Reply(reply)) => Ok(says(&reply, status, front, body)),
        _ => Ok(false),
    }
}

// Whether these bytes are an ingest of this tenant and this sum.
fn ingests(alloc: Global, text: &str, tenant: &str, total: u128) -> Result<bool, Fail> {
    match answered(alloc, text)? {
        Some(Answered::Push(PushForm::Ingest, ask)) => {
            let push = &ask.push;
            Ok(
                push.tenant.as_bytes() == tenant.as_bytes()
                    && push.total() == total
                    && ask.asked == 0,
            )
        }
        _ => Ok(false),
    }
}

#[test]
fn a_push_is_read(rt: HostRuntime) -> Result<(), Fail> {
    let ingest =
        "POST /ingest?name=app HTTP/1.1\r\nX-Scope-OrgID: t1\r\nContent-Length: 25\r\n\r\nmain;a 3\nmain;b 5\nmain 2\n";
    assert!(rt; ingests(rt.alloc(), ingest, "t1", 10)?);
    Ok(())
}

#[test]
fn queries_before_any_push_are_answered_with_nothing(rt: HostRuntime) -> Result<(), Fail> {
    let render =
        "GET /pyroscope/render?query=process_cpu%3Asamples%3Acount%3Acpu%3Ananoseconds&format=folded HTTP/1.1\r\nX-Scope-OrgID: t1\r\n\r\n";
    assert!(rt; replies(rt.alloc(), render, Status::Ok, Some(0), "")?);
    let names = "POST /querier.v1.QuerierService/LabelNames HTTP/1.1\r\nX-Scope-OrgID: t1\r\n\r\n";
    assert!(rt; replies(rt.alloc(), names, Status::Ok, Some(0), "{\"names\":[]}")?);
    Ok(())
}

// Whether a verdict is told so.
fn tells(
    verdict: Verdict,
    form: PushForm,
    status: Status,
    text: Text,
    front: Option<u64>,
    body: &str,
) -> bool {
    let reply = acknowledge(verdict, form, 5, true);
    reply.now == 5 && reply.close && reply.text == text && says(&reply, status, front, body)
}

#[test]
fn a_push_over_the_limit_is_told_the_three_numbers(rt: HostRuntime) {
    let verdict = Verdict::OverLimit {
        kept: 10,
        push: 1,
        limit: 10,
        front: 1,
    };
    let body = "{\"asked\":1,\"fault\":\"limit\",\"kept\":10,\"limit\":10}";
    assert!(rt;
        tells(
            verdict,
            PushForm::Ingest,
            Status::UnprocessableContent,
            Text::Json,
            Some(1),
            body
        )
    );
}

#[test]
fn a_front_ahead_is_told(rt: HostRuntime) {
    let verdict = Verdict::FrontAhead { asked: 5, front: 3 };
    let body = "{\"asked\":5,\"fault\":\"front\",\"front\":3}";
    assert!(rt;
        tells(
            verdict,
            PushForm::Json,
            Status::Conflict,
            Text::Json,
            Some(3),
            body
        )
    );
}

#[test]
fn a_front_is_asked_for_by_digits_alone(rt: HostRuntime) -> Result<(), Fail> {
    let alloc = rt.alloc();
    let bad = "{\"fault\":\"X1\",\"place\":[]}";
    let ahead = "{\"asked\":9999999999999999999,\"fault\":\"front\",\"front\":0}";
    for (header, status, front, body) in [
        ("0", Status::Ok, Some(0), "{\"names\":[]}"),
        ("000", Status::Ok, Some(0), "{\"names\":[]}"),
        ("9999999999999999999", Status::Conflict, Some(0), ahead),
        ("10000000000000000000", Status::BadRequest, None, bad),
        ("+1", Status::BadRequest, None, bad),
        ("", Status::BadRequest, None, bad),
    ] {
        let names = format!(in alloc;
            "POST /querier.v1.QuerierService/LabelNames HTTP/1.1\r\nX-Scope-OrgID: t1\r\nX-Pyro-Front: {header}\r\n\r\n"
        )?;
        assert!(rt;
            replies(alloc, names.as_str(), status, front, body)?,
            "{header}"
        );
    }
    Ok(())
}

#[test]
fn a_kept_push_is_told_its_front(rt: HostRuntime) {
    let (ingest, push) = (Verdict::Kept(7), Verdict::Kept(8));
    assert!(rt;
        tells(
            ingest,
            PushForm::Ingest,
            Status::Ok,
            Text::Plain,
            Some(7),
            ""
        )
    );
    assert!(rt; tells(push, PushForm::Json, Status::Ok, Text::Json, Some(8), "{}"));
}

#[test]
fn want_of_memory_is_told(rt: HostRuntime) {
    let (status, body) = (Status::InternalServerError, "{\"fault\":\"memory\"}");
    assert!(rt;
        tells(
            Verdict::Memory,
            PushForm::Json,
            status,
            Text::Json,
            None,
            body
        )
    );
    assert!(rt; says(&memory_reply(5, false), status, None, body));
}

// Whether the last reply of a connection says so.
fn closes(bad: BadRequest, status: Status, body: &str) -> bool {
    match closing_reply(bad, 5) {
        Some(reply) => reply.close && says(&reply, status, None, body),
        None => false,
    }
}

#[test]
fn a_last_reply_says_why(rt: HostRuntime) {
    assert!(rt;
        closes(
            BadRequest::Malformed,
            Status::BadRequest,
            "{\"fault\":\"H1\"}"
        )
    );
    assert!(rt;
        closes(
            BadRequest::HeadTooLarge,
            Status::HeadersTooLarge,
            "{\"fault\":\"H2\"}"
        )
    );
    assert!(rt;
        closes(
            BadRequest::BodyTooLarge,
            Status::ContentTooLarge,
            "{\"fault\":\"H3\"}"
        )
    );
    assert!(rt; closing_reply(BadRequest::CutOff, 5).is_none());
}
