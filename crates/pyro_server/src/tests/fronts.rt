// How many pushes of its tenant a request asks for.
use super::talk::{Talk, answered, post_asking};
use std::alloc::{AllocError, Global};
use std::test::Fail;

const LINES: &[u8] = b"main 2\n";

const NAMES: &str = "/querier.v1.QuerierService/LabelNames";

// A request that asks for more than the tenant's three pushes.
fn ahead(alloc: Global, asked: u64) -> Result<String, AllocError> {
    let body = format!(in alloc; "{{\"asked\":{asked},\"fault\":\"front\",\"front\":3}}")?;
    let length = body.len();
    format!(in alloc;
        "HTTP/1.1 409 Conflict\r\nContent-Type: application/json\r\nContent-Length: {length}\r\nX-Pyro-Front: 3\r\nX-Pyro-Now: 1700000000000\r\n\r\n{body}"
    )
}

#[test]
fn a_front_ahead_is_refused_and_one_that_is_there_isnt(rt: HostRuntime) -> Result<(), Fail> {
    let alloc = rt.alloc();
    let mut talk = Talk::new(alloc);
    for front in 1..4 {
        talk.keeps("/ingest?name=app", LINES, front)?;
    }
    for asked in [4, 5, u64::MAX / 2] {
        let told = ahead(alloc, asked)?;
        for (target, body) in [("/ingest?name=app", LINES), (NAMES, b"{}")] {
            let request = post_asking(alloc, target, body, asked)?;
            talk.says(&request, told.as_str())?;
        }
    }
    talk.renders(
        "query=process_cpu:samples:count:cpu:nanoseconds",
        3,
        "main 6\n",
    )?;
    let kept = post_asking(alloc, "/ingest?name=app", LINES, 3)?;
    talk.says(&kept, answered(alloc, "text/plain", 4, "")?.as_str())?;
    talk.holds(&rt, 4)
}
