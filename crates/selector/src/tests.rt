use crate::{Query, Selector, SelectorFault};
use faults::{Place, Refused};
use profile_model::{LabelSet, Name, ProfileType};
use std::alloc::Global;
use std::test::Fail;

// 41 bytes.
const KIND: &str = "process_cpu:samples:count:cpu:nanoseconds";

fn labels(alloc: Global, pairs: &[(&str, &str)]) -> Result<LabelSet, Fail> {
    let mut named = Vec::new(alloc);
    for (name, value) in pairs {
        named.push((
            Name::from_text(alloc, name)?,
            Name::from_text(alloc, value)?,
        ))?;
    }
    Ok(LabelSet::from_pairs(alloc, &named)?)
}

// Whether a selector matches a profile with these labels.
fn matches(alloc: Global, text: &str, pairs: &[(&str, &str)]) -> Result<bool, Fail> {
    let mut selector = Selector::read(alloc, text)?;
    let kind = ProfileType::read(alloc, KIND)?;
    Ok(selector.matches(&labels(alloc, pairs)?, &kind)?)
}

// The same of one whose label `a` has this value.
fn matches_a(alloc: Global, text: &str, value: &str) -> Result<bool, Fail> {
    matches(alloc, text, &[("a", value)])
}

// Whether a selector tells `x` from `y`.
fn tells_x(alloc: Global, text: &str) -> Result<bool, Fail> {
    Ok(matches_a(alloc, text, "x")? && !matches_a(alloc, text, "y")?)
}

fn is_refused(alloc: Global, text: &str, fault: SelectorFault) -> bool {
    Selector::read(alloc, text).err() == Some(Refused::Fault(fault))
}

// 16 matchers, and this end.
fn sixteen(alloc: Global, end: &str) -> Result<String, Fail> {
    let mut text = String::from_str(alloc, "{")?;
    for _ in 0..16 {
        text.push_str("a=\"x\",")?;
    }
    text.push_str(end)?;
    Ok(text)
}

fn sixteen_tell_x(alloc: Global, end: &str) -> Result<bool, Fail> {
    let text = sixteen(alloc, end)?;
    tells_x(alloc, text.as_str())
}

fn sixteen_are_refused(alloc: Global, end: &str, fault: SelectorFault) -> Result<bool, Fail> {
    let text = sixteen(alloc, end)?;
    Ok(is_refused(alloc, text.as_str(), fault))
}

// Whether a query asks for a production profile of its own kind.
fn asks_for_production(alloc: Global, text: &str) -> Result<bool, Fail> {
    let mut query = Query::read(alloc, text)?;
    let labels = labels(alloc, &[("env", "prod")])?;
    Ok(query.selector.matches(&labels, &query.kind)?)
}

fn is_of_kind(alloc: Global, text: &str, kind: &str) -> Result<bool, Fail> {
    let query = Query::read(alloc, text)?;
    Ok(query.kind == ProfileType::read(alloc, kind)?)
}

fn is_query_refused(alloc: Global, text: &str, fault: SelectorFault) -> bool {
    Query::read(alloc, text).err() == Some(Refused::Fault(fault))
}

fn shows(
    alloc: Global,
    fault: SelectorFault,
    code: &str,
    place: Place,
    text: &str,
) -> Result<bool, Fail> {
    let shown = fault.to_string(alloc)?;
    Ok(fault.code() == code && fault.place() == place && shown.as_str() == text)
}

#[test]
fn matchers_compare_whole_values(rt: HostRuntime) -> Result<(), Fail> {
    let alloc = rt.alloc();
    let shop = [("env", "prod"), ("service_name", "shop")];
    for (text, answer) in [
        ("", true),
        ("{}", true),
        (" { } ", true),
        ("{\n}", true),
        ("{service_name=\"shop\"}", true),
        ("{service_name=\"sho\"}", false),
        ("{service_name!=\"shop\"}", false),
        ("{service_name!=\"cart\"}", true),
        ("{env=~\"pr\"}", false),
        ("{env=~\"rod\"}", false),
        ("{env=~\"pr.*\"}", true),
        ("{env=~\"prod|dev\"}", true),
        ("{env=~\"pro|od\"}", false),
        ("{env!~\"pr\"}", true),
        ("{env!~\"pr.*\"}", false),
        ("{service_name=\"shop\",env=\"prod\"}", true),
        ("{service_name=\"shop\",env=\"dev\"}", false),
        ("{service_name=\"cart\",env=\"prod\"}", false),
        // A pattern that two matchers share.
        ("{env=~\"p.*\",service_name!~\"p.*\"}", true),
        ("{env=~\"p.*\",service_name=~\"p.*\"}", false),
        // An absent label is the empty text.
        ("{a=\"\"}", true),
        ("{a=\"x\"}", false),
        ("{a!=\"\"}", false),
        ("{a!=\"x\"}", true),
        ("{a=~\"\"}", true),
        ("{a=~\"x*\"}", true),
        ("{a=~\"x+\"}", false),
        ("{a!~\"x*\"}", false),
        ("{a!~\"x+\"}", true),
    ] {
        assert!(rt; matches(alloc, text, &shop)? == answer, "{text}");
    }
    Ok(())
}

#[test]
fn the_types_own_labels_are_seen_first(rt: HostRuntime) -> Result<(), Fail> {
    let alloc = rt.alloc();
    let own = [("__name__", "memory"), ("__profile_type__", "memory")];
    for (text, answer) in [
        ("{__name__=\"process_cpu\"}", true),
        ("{__name__=\"memory\"}", false),
        (
            "{__profile_type__=\"process_cpu:samples:count:cpu:nanoseconds\"}",
            true,
        ),
        ("{__profile_type__=\"memory\"}", false),
        ("{__profile_type__=~\".*:cpu:nanoseconds\"}", true),
    ] {
        assert!(rt; matches(alloc, text, &own)? == answer, "{text}");
        assert!(rt; matches(alloc, text, &[])? == answer, "{text}");
    }
    Ok(())
}

#[test]
fn escapes_stand_for_bytes(rt: HostRuntime) -> Result<(), Fail> {
    let alloc = rt.alloc();
    for (text, value) in [
        ("{a=\"x\\\\y\"}", "x\\y"),
        ("{a=\"x\\\"y\"}", "x\"y"),
        ("{a=\"x\\ny\"}", "x\ny"),
        ("{a=\"x\\ty\"}", "x\ty"),
        ("{a!=\"x\\ty\"}", "x\\ty"),
        // The tab and any other byte stand for themselves.
        ("{a=\"x\ty\"}", "x\ty"),
        ("{a=\"läs}{,=~\"}", "läs}{,=~"),
        // A pattern's backslash is written twice.
        ("{a=~\"\\\\d+\"}", "42"),
        ("{a!~\"\\\\d+\"}", "d"),
    ] {
        assert!(rt; matches_a(alloc, text, value)?, "{text}");
    }
    Ok(())
}

#[test]
fn white_space_stands_before_each_token(rt: HostRuntime) -> Result<(), Fail> {
    let alloc = rt.alloc();
    for text in [
        " {a=\"x\"}",
        "{\ta=\"x\"}",
        "{a\n=\"x\"}",
        "{a=\r\"x\"}",
        "{a=\"x\" }",
        "{a=\"x\"} ",
        "{a=\"x\" ,}",
        "{a=\"x\", }",
        " \t\r\n{ a = \"x\" , } \t\r\n",
        "{a=\"x\",}",
    ] {
        assert!(rt; tells_x(alloc, text)?, "{text}");
    }
    Ok(())
}

#[test]
fn a_selector_has_at_most_16_matchers(rt: HostRuntime) -> Result<(), Fail> {
    let alloc = rt.alloc();
    assert!(rt; sixteen_tell_x(alloc, "}")?);
    assert!(rt; sixteen_are_refused(alloc, "a=~\"(\"}", SelectorFault::TooMany)?);
    // A text that isn't of the grammar is told before.
    assert!(rt; sixteen_are_refused(alloc, "a=~\"(\"", SelectorFault::Syntax(103))?);
    Ok(())
}

#[test]
fn a_text_breaks_where_no_selector_goes_on(rt: HostRuntime) {
    let alloc = rt.alloc();
    for (text, at) in [
        // More was needed.
        ("  ", 2),
        ("{", 1),
        ("{a", 2),
        ("{a=", 3),
        ("{a!", 3),
        ("{a=~", 4),
        ("{a=\"x", 5),
        ("{a=\"x\\", 6),
        ("{a=\"x\"", 6),
        ("{a=\"x\",", 7),
        // Something else was needed.
        ("a", 0),
        ("{,}", 1),
        ("{1a=\"x\"}", 1),
        ("{.a=\"x\"}", 1),
        ("{ä=\"x\"}", 1),
        ("{aä=\"x\"}", 2),
        ("{env}", 4),
        ("{a b=\"x\"}", 3),
        ("{a==\"x\"}", 3),
        ("{a!\"x\"}", 3),
        ("{a! =\"x\"}", 3),
        ("{a= ~\"x\"}", 4),
        ("{a=~=\"x\"}", 4),
        ("{a=x}", 3),
        ("{a='x'}", 3),
        ("{a=\"x\ny\"}", 5),
        ("{a=\"x\\d\"}", 6),
        ("{a=\"x\"b=\"y\"}", 6),
        ("{a=\"x\",,}", 7),
        ("{a=\"x\"}}", 7),
        ("{a=\"x\"} b", 8),
    ] {
        assert!(rt;
            is_refused(alloc, text, SelectorFault::Syntax(at)),
            "{text}"
        );
    }
}

#[test]
fn the_first_pattern_that_is_refused_is_told(rt: HostRuntime) {
    let alloc = rt.alloc();
    for (text, fault) in [
        ("{a=~\"(\"}", SelectorFault::Pattern(0)),
        ("{a!~\"(\"}", SelectorFault::Pattern(0)),
        (
            "{a=\"(\",b=~\"x\",c=~\"*\",d=~\"(\"}",
            SelectorFault::Pattern(2),
        ),
        // A pattern between its anchors alone, and two by themselves alone, of which one is too large.
        ("{a=~\"x)(?:y\"}", SelectorFault::Pattern(0)),
        ("{a=~\"(?x)a#\"}", SelectorFault::Pattern(0)),
        (
            "{a=~\"(?x)((a{1000}){1000}){1000}#\"}",
            SelectorFault::Pattern(0),
        ),
        // Too large for regex.
        (
            "{a=\"x\",b=~\"((a{1000}){1000}){1000}\"}",
            SelectorFault::PatternRefused(1),
        ),
        (
            "{a=~\"((a{1000}){1000}){1000}\",b=~\"(\"}",
            SelectorFault::PatternRefused(0),
        ),
    ] {
        assert!(rt; is_refused(alloc, text, fault), "{text}");
    }
}

#[test]
fn a_query_is_a_kind_and_a_selector(rt: HostRuntime) -> Result<(), Fail> {
    let alloc = rt.alloc();
    for (text, answer) in [
        (KIND, true),
        ("process_cpu:samples:count:cpu:nanoseconds{}", true),
        (
            "process_cpu:samples:count:cpu:nanoseconds{env=\"prod\"} ",
            true,
        ),
        (
            "process_cpu:samples:count:cpu:nanoseconds{env=\"dev\"}",
            false,
        ),
    ] {
        assert!(rt; is_of_kind(alloc, text, KIND)?, "{text}");
        assert!(rt; asks_for_production(alloc, text)? == answer, "{text}");
    }
    // Without braces all is the kind, trailing blanks included.
    assert!(rt; is_of_kind(alloc, "a:b:c:d: ", "a:b:c:d: ")?);
    Ok(())
}

#[test]
fn a_query_has_the_first_of_its_faults(rt: HostRuntime) {
    let alloc = rt.alloc();
    for (text, fault) in [
        ("", SelectorFault::Kind),
        ("process_cpu", SelectorFault::Kind),
        ("a:b:c:d:e:f{", SelectorFault::Kind),
        (" ", SelectorFault::Kind),
        ("{a=\"x\"}", SelectorFault::Kind),
        (
            "process_cpu:samples:count:cpu:nanoseconds{env}",
            SelectorFault::Syntax(45),
        ),
        (
            "process_cpu:samples:count:cpu:nanoseconds{",
            SelectorFault::Syntax(42),
        ),
        ("::::{a=~\"(\"}", SelectorFault::Pattern(0)),
    ] {
        assert!(rt; is_query_refused(alloc, text, fault), "{text}");
    }
}

#[test]
fn faults_have_codes_places_and_texts(rt: HostRuntime) -> Result<(), Fail> {
    let alloc = rt.alloc();
    for (fault, code, place, text) in [
        (
            SelectorFault::Kind,
            "S1",
            Place::Whole,
            "a profile's type has five parts",
        ),
        (
            SelectorFault::Syntax(45),
            "S2",
            Place::At(45),
            "no selector goes on as at byte 45",
        ),
        (
            SelectorFault::Pattern(2),
            "S3",
            Place::At(2),
            "matcher 2 has no pattern",
        ),
        (
            SelectorFault::TooMany,
            "S4",
            Place::Whole,
            "more than 16 matchers",
        ),
        (
            SelectorFault::PatternRefused(3),
            "S5",
            Place::At(3),
            "the pattern of matcher 3 is too large",
        ),
    ] {
        assert!(rt; shows(alloc, fault, code, place, text)?, "{text}");
    }
    Ok(())
}
