// What is refused, in its order, with its code and its place.
use super::talk::{Talk, get, post};
use std::alloc::{AllocError, Global};
use std::test::Fail;

const BAD: &str = "400 Bad Request";

#[test]
fn faults_of_an_ingest_are_told_with_their_places(rt: HostRuntime) -> Result<(), Fail> {
    let alloc = rt.alloc();
    let mut talk = Talk::new(alloc);
    for (target, body, code, place) in [
        ("/ingest", "", "I1", "0"),
        ("/ingest?name=", "", "I1", "0"),
        ("/ingest?name=app%7Benv=prod", "", "I1", "12"),
        ("/ingest?name=app%7B1st=x%7D&from=x", "", "L1", "1"),
        ("/ingest?name=app%7Benv=a,env=b%7D", "", "L3", "2"),
        ("/ingest?name=app%7Bservice_name=b%7D", "", "L3", "1"),
        ("/ingest?name=app&from=soon&format=jfr", "", "I2", ""),
        ("/ingest?name=app&format=jfr", "x", "I3", ""),
        ("/ingest?name=app", "main", "F1", "1"),
        ("/ingest?name=app", "x 1\nx", "F1", "2"),
        ("/ingest?name=app", "main 3\r\n", "F2", "1"),
        ("/ingest?name=app", "a;;b 1", "F3", "1"),
        ("/ingest?name=app&format=lines", "a;;b", "F3", "1"),
    ] {
        let request = post(alloc, target, body.as_bytes())?;
        talk.faults(&request, BAD, code, place)?;
    }
    talk.holds(&rt, 0)
}

// A name of a series with so many labels, each with a value of so many bytes.
fn many_labels(alloc: Global, labels: usize, bytes: usize) -> Result<String, AllocError> {
    let mut value = String::new(alloc);
    for _ in 0..bytes {
        value.push_str("v")?;
    }
    let mut name = String::from_str(alloc, "/ingest?name=app%7B")?;
    for number in 0..labels {
        let comma = if number == 0 { "" } else { "," };
        let pair = format!(in alloc; "{comma}l{number}={value}")?;
        name.push_str(pair.as_str())?;
    }
    name.push_str("%7D")?;
    Ok(name)
}

#[test]
fn labels_are_counted_and_measured(rt: HostRuntime) -> Result<(), Fail> {
    let alloc = rt.alloc();
    let mut talk = Talk::new(alloc);
    talk.keeps(many_labels(alloc, 29, 1)?.as_str(), b"", 1)?;
    talk.keeps(many_labels(alloc, 1, 2048)?.as_str(), b"", 2)?;
    talk.keeps(many_labels(alloc, 40, 0)?.as_str(), b"", 3)?;
    let many = post(alloc, many_labels(alloc, 30, 1)?.as_str(), b"")?;
    talk.faults(&many, BAD, "L4", "")?;
    let long = post(alloc, many_labels(alloc, 1, 2049)?.as_str(), b"")?;
    talk.faults(&long, BAD, "L2", "1")?;
    talk.holds(&rt, 3)
}

#[test]
fn faults_of_a_render_are_told_with_their_places(rt: HostRuntime) -> Result<(), Fail> {
    let alloc = rt.alloc();
    let mut talk = Talk::new(alloc);
    for (parameters, code, place) in [
        ("", "Q1", ""),
        ("&query=cpu%7B&from=x", "S1", ""),
        ("&query=a:b:c:d:e%7Benv%7D&from=x", "S2", "13"),
        (
            "&query=process_cpu:samples:count:cpu:nanoseconds%7Benv%7D",
            "S2",
            "45",
        ),
        (
            "&query=process_cpu:samples:count:cpu:nanoseconds%7Benv=~%22(%22%7D",
            "S3",
            "0",
        ),
        ("&query=a:b:c:d:e%7Bx=%22y%22", "S2", "15"),
        ("&query=a:b:c:d:e%7Bx=~%22(%22%7D", "S3", "0"),
        (
            "&query=a:b:c:d:e%7Bx=%22y%22,z!~%22((a%7B1000%7D)%7B1000%7D)%7B1000%7D%22%7D",
            "S5",
            "1",
        ),
        (
            "&query=a:b:c:d:e%7Ba=%221%22,a=%222%22,a=%223%22,a=%224%22,a=%225%22,a=%226%22,a=%227%22,a=%228%22,a=%229%22,a=%2210%22,a=%2211%22,a=%2212%22,a=%2213%22,a=%2214%22,a=%2215%22,a=%2216%22,a=~%22(%22%7D",
            "S4",
            "",
        ),
        ("&query=a:b:c:d:e&from=soon&until=late", "Q2", "1"),
        ("&query=a:b:c:d:e&until=12345678901234567890", "Q2", "2"),
        ("&query=a:b:c:d:e&from=now&until=now-1s", "Q3", ""),
    ] {
        let target = format!(in alloc; "/pyroscope/render?format=folded{parameters}")?;
        let request = get(alloc, target.as_str())?;
        talk.faults(request.as_str().as_bytes(), BAD, code, place)?;
    }
    talk.holds(&rt, 0)
}

#[test]
fn faults_of_a_query_method_are_told_with_their_places(rt: HostRuntime) -> Result<(), Fail> {
    let alloc = rt.alloc();
    let mut talk = Talk::new(alloc);
    for (method, body, code, place) in [
        ("LabelNames", "[]", "J1", ""),
        ("LabelNames", "{", "J1", ""),
        ("LabelNames", "{\"matchers\":7,\"start\":-1}", "J3", "0"),
        (
            "LabelNames",
            "{\"matchers\":[\"{\"],\"end\":1.0}",
            "J3",
            "2",
        ),
        ("LabelValues", "{\"name\":null}", "J3", "0"),
        ("Series", "{\"labelNames\":[1]}", "J3", "1"),
        (
            "Series",
            "{\"matchers\":[\"{a=\\\"x\\\"}\",\"{a\"],\"start\":2,\"end\":1}",
            "S2",
            "2",
        ),
        (
            "Series",
            "{\"matchers\":[\"\",\"\",\"\",\"\",\"\",\"\",\"\",\"\",\"\",\"\",\"\",\"\",\"\",\"\",\"\",\"\",\"{\"]}",
            "S4",
            "",
        ),
        ("LabelNames", "{\"start\":2,\"end\":1}", "Q3", ""),
    ] {
        let target = format!(in alloc; "/querier.v1.QuerierService/{method}")?;
        let request = post(alloc, target.as_str(), body.as_bytes())?;
        talk.faults(&request, BAD, code, place)?;
    }
    talk.holds(&rt, 0)
}

// Requests with faults of several orders: the route comes first, then the method, the tenant, the coding, the asked
// front, and then what is read.
#[test]
fn refusals_come_in_their_order(rt: HostRuntime) -> Result<(), Fail> {
    let mut talk = Talk::new(rt.alloc());
    for (request, status, body) in [
        (
            "GET /nothing HTTP/1.1\r\nContent-Encoding: gzip\r\n\r\n",
            "404 Not Found",
            "{\"fault\":\"route\"}",
        ),
        (
            "POST /pyroscope/render-diff/ HTTP/1.1\r\n\r\n",
            "404 Not Found",
            "{\"fault\":\"route\"}",
        ),
        (
            "GET /pyroscope/render-diff HTTP/1.1\r\n\r\n",
            "501 Not Implemented",
            "{\"fault\":\"unbuilt\"}",
        ),
        (
            "POST /ingest?name= HTTP/1.1\r\nContent-Encoding: gzip\r\n\r\n",
            "401 Unauthorized",
            "{\"fault\":\"tenant\"}",
        ),
        (
            "POST /ingest?name= HTTP/1.1\r\nX-Scope-OrgID: ..\r\nContent-Encoding: gzip\r\n\r\n",
            BAD,
            "{\"fault\":\"T1\",\"place\":[0]}",
        ),
        (
            "POST /ingest?name= HTTP/1.1\r\nX-Scope-OrgID: t1\r\nContent-Encoding: gzip\r\nX-Pyro-Front: 1\r\n\r\n",
            "415 Unsupported Media Type",
            "{\"fault\":\"encoding\"}",
        ),
        (
            "POST /ingest?name= HTTP/1.1\r\nX-Scope-OrgID: t1\r\nContent-Encoding: Identity\r\nX-Pyro-Front: +1\r\n\r\n",
            BAD,
            "{\"fault\":\"X1\",\"place\":[]}",
        ),
        (
            "GET /pyroscope/render HTTP/1.1\r\nX-Scope-OrgID: t1\r\n\r\n",
            "501 Not Implemented",
            "{\"fault\":\"unbuilt\"}",
        ),
        (
            "GET /pyroscope/render?format=folded&maxNodes=1 HTTP/1.1\r\nX-Scope-OrgID: t1\r\n\r\n",
            "501 Not Implemented",
            "{\"fault\":\"unbuilt\"}",
        ),
    ] {
        talk.refuses(request.as_bytes(), status, body)?;
    }
    talk.holds(&rt, 0)
}

#[test]
fn a_wrong_method_is_told_the_right_one(rt: HostRuntime) -> Result<(), Fail> {
    let mut talk = Talk::new(rt.alloc());
    talk.says(
        b"GET /ingest HTTP/1.1\r\n\r\n",
        "HTTP/1.1 405 Method Not Allowed\r\nContent-Type: application/json\r\nContent-Length: 18\r\nAllow: POST\r\nX-Pyro-Now: 1700000000000\r\n\r\n{\"fault\":\"method\"}",
    )?;
    talk.says(
        b"POST /pyroscope/render HTTP/1.1\r\n\r\n",
        "HTTP/1.1 405 Method Not Allowed\r\nContent-Type: application/json\r\nContent-Length: 18\r\nAllow: GET\r\nX-Pyro-Now: 1700000000000\r\n\r\n{\"fault\":\"method\"}",
    )?;
    talk.holds(&rt, 0)
}
