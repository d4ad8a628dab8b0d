// What pushes with labels and times answer to queries.
use super::talk::{Talk, answered};
use std::test::Fail;

#[test]
fn a_render_takes_the_profiles_that_its_selector_matches(rt: HostRuntime) -> Result<(), Fail> {
    let mut talk = Talk::new(rt.alloc());
    talk.keeps("/ingest?name=app", b"x 1\n", 1)?;
    talk.keeps("/ingest?name=app%7Benv=prod%7D", b"y 1\n", 2)?;
    for (selector, text) in [
        ("", "x 1\ny 1\n"),
        ("%7B%7D", "x 1\ny 1\n"),
        ("%7Benv!=%22prod%22%7D", "x 1\n"),
        ("%7Benv=~%22pr%22%7D", ""),
        ("%7Benv=~%22pr.*%22%7D", "y 1\n"),
        ("%7Benv=%22prod%22,%7D", "y 1\n"),
        ("%7Benv=%22%22,service_name!~%22b.*%22%7D", "x 1\n"),
    ] {
        let query = format!(in rt.alloc();
            "query=process_cpu:samples:count:cpu:nanoseconds{selector}"
        )?;
        talk.renders(query.as_str(), 2, text)?;
    }
    talk.holds(&rt, 2)
}

#[test]
fn a_window_is_closed_at_both_ends(rt: HostRuntime) -> Result<(), Fail> {
    let mut talk = Talk::new(rt.alloc());
    talk.keeps("/ingest?name=app&from=1600000000", b"seconds 1\n", 1)?;
    talk.keeps("/ingest?name=app&from=16000000000", b"early 1\n", 2)?;
    talk.keeps("/ingest?name=app&from=now-1h", b"hour 1\n", 3)?;
    talk.keeps("/ingest?name=app&from=now-3601s", b"longer 1\n", 4)?;
    for (window, text) in [
        ("", "hour 1\n"),
        ("&from=now-1h&until=now", "hour 1\n"),
        ("&until=now-1h", "hour 1\n"),
        ("&from=now-3601s&until=now-3601s", "longer 1\n"),
        ("&from=1600000000000&until=1600000000000000", "seconds 1\n"),
        ("&from=1600000000000999999&until=1600000000", "seconds 1\n"),
        ("&from=1600000000001&until=1600000001", ""),
        ("&from=0&until=1599999999999", "early 1\n"),
        ("&from=16000000&until=16000000", "early 1\n"),
    ] {
        let query = format!(in rt.alloc();
            "query=process_cpu:samples:count:cpu:nanoseconds{window}"
        )?;
        talk.renders(query.as_str(), 4, text)?;
    }
    talk.holds(&rt, 4)
}

#[test]
fn of_a_repeated_parameter_the_first_counts(rt: HostRuntime) -> Result<(), Fail> {
    let mut talk = Talk::new(rt.alloc());
    talk.keeps("/ingest?name=app&name=other&colour=red", b"x 1\n", 1)?;
    talk.renders(
        "query=process_cpu:samples:count:cpu:nanoseconds%7Bservice_name=%22app%22%7D&query=none&format=svg",
        1,
        "x 1\n",
    )?;
    talk.holds(&rt, 1)
}

#[test]
fn lines_are_stacks_and_units_are_of_the_type(rt: HostRuntime) -> Result<(), Fail> {
    let mut talk = Talk::new(rt.alloc());
    talk.keeps(
        "/ingest?name=app&format=lines&units=a:b",
        b"do it;x\ndo it;x\n",
        1,
    )?;
    talk.keeps(
        "/ingest?name=app%7B__name__=wall,__profile_type__=t%7D",
        b"w 1\n",
        2,
    )?;
    talk.renders(
        "query=process_cpu:samples:a_b:cpu:nanoseconds",
        2,
        "do it;x 2\n",
    )?;
    talk.renders("query=wall:samples:count:cpu:nanoseconds", 2, "w 1\n")?;
    talk.renders("query=process_cpu:samples:count:cpu:nanoseconds", 2, "")?;
    talk.lists(
        "LabelValues",
        "{\"name\":\"__name__\"}",
        2,
        "{\"names\":[\"process_cpu\",\"wall\"]}",
    )?;
    talk.holds(&rt, 2)
}

#[test]
fn frames_may_have_blanks_and_lines_may_be_empty(rt: HostRuntime) -> Result<(), Fail> {
    let mut talk = Talk::new(rt.alloc());
    let query = "query=process_cpu:samples:count:cpu:nanoseconds";
    talk.keeps("/ingest?name=app", b"\n\n", 1)?;
    talk.renders(query, 1, "")?;
    talk.keeps("/ingest?name=app", b"do it;x y 4", 2)?;
    talk.renders(query, 2, "do it;x y 4\n")?;
    talk.lists(
        "LabelNames",
        "{}",
        2,
        "{\"names\":[\"__name__\",\"__profile_type__\",\"service_name\"]}",
    )?;
    talk.lists(
        "LabelValues",
        "{\"name\":\"service_name\"}",
        2,
        "{\"names\":[\"app\"]}",
    )?;
    talk.holds(&rt, 2)
}

#[test]
fn labels_values_and_series_are_listed(rt: HostRuntime) -> Result<(), Fail> {
    let mut talk = Talk::new(rt.alloc());
    talk.keeps("/ingest?name=app", b"x 1\n", 1)?;
    talk.keeps(
        "/ingest?name=shop%7Benv=prod%7D&from=1600000000",
        b"y 1\n",
        2,
    )?;
    let all = "{\"names\":[\"__name__\",\"__profile_type__\",\"env\",\"service_name\"]}";
    let app = "{\"labelsSet\":[{\"labels\":[{\"name\":\"service_name\",\"value\":\"app\"}]}]}";
    for (method, body, text) in [
        ("LabelNames", "", all),
        ("LabelNames", "{}", all),
        ("LabelNames", "{\"matchers\":[]}", all),
        (
            "LabelNames",
            "{\"start\":1600000000001}",
            "{\"names\":[\"__name__\",\"__profile_type__\",\"service_name\"]}",
        ),
        (
            "LabelNames",
            "{\"matchers\":[\"{env=\\\"prod\\\"}\",\"{}\"],\"end\":\"1599999999999\"}",
            "{\"names\":[]}",
        ),
        (
            "LabelValues",
            "{\"name\":\"service_name\"}",
            "{\"names\":[\"app\",\"shop\"]}",
        ),
        (
            "LabelValues",
            "{\"name\":\"service_name\",\"matchers\":[\"{env!=\\\"prod\\\"}\"]}",
            "{\"names\":[\"app\"]}",
        ),
        ("LabelValues", "{\"name\":\"none\"}", "{\"names\":[]}"),
        (
            "Series",
            "{\"matchers\":[\"{service_name=\\\"app\\\"}\"],\"labelNames\":[\"service_name\",\"env\"]}",
            app,
        ),
        (
            "Series",
            "{\"labelNames\":[\"none\"]}",
            "{\"labelsSet\":[{\"labels\":[]}]}",
        ),
        ("Series", "{\"end\":1599999999999}", "{\"labelsSet\":[]}"),
    ] {
        talk.lists(method, body, 2, text)?;
    }
    talk.holds(&rt, 2)
}

#[test]
fn a_tenant_sees_nothing_of_another(rt: HostRuntime) -> Result<(), Fail> {
    let mut talk = Talk::new(rt.alloc());
    talk.keeps("/ingest?name=app", b"x 1\n", 1)?;
    let nothing = answered(rt.alloc(), "text/plain", 0, "")?;
    talk.says(
        b"GET /pyroscope/render?format=folded&query=process_cpu:samples:count:cpu:nanoseconds HTTP/1.1\r\nX-Scope-OrgID: t2\r\n\r\n",
        nothing.as_str(),
    )?;
    for (method, text) in [
        ("LabelNames", "{\"names\":[]}"),
        ("LabelValues", "{\"names\":[]}"),
        ("Series", "{\"labelsSet\":[]}"),
    ] {
        let request = format!(in rt.alloc();
            "POST /querier.v1.QuerierService/{method} HTTP/1.1\r\nX-Scope-OrgID: t2\r\n\r\n"
        )?;
        let reply = answered(rt.alloc(), "application/json", 0, text)?;
        talk.says(request.as_str().as_bytes(), reply.as_str())?;
    }
    talk.holds(&rt, 1)
}
