use crate::{LabelSets, each_member_once, names_text, series_text, sets_of_more_profiles};
use profile_model::{LabelSet, Name, Profile, ProfileType, StackSums};
use selector::Selector;
use std::alloc::Global;
use std::test::Fail;

// The labels and the types of four profiles: two of one series, one of another, and one that already has a label
// `__name__`.
const PROFILES: [([(&str, &str); 2], &str); 4] = [
    (
        [("service_name", "shop"), ("env", "prod")],
        "cpu:samples:count:cpu:ns",
    ),
    (
        [("service_name", "shop"), ("env", "dev")],
        "cpu:samples:count:cpu:ns",
    ),
    (
        [("env", "prod"), ("service_name", "shop")],
        "cpu:samples:count:cpu:ns",
    ),
    ([("service_name", "bank"), ("__name__", "own")], ":a:b:c:d"),
];

fn pair(alloc: Global, name: &str, value: &str) -> Result<(Name, Name), Fail> {
    let name = Name::from_text(alloc, name)?;
    let value = Name::from_text(alloc, value)?;
    Ok((name, value))
}

fn pairs(alloc: Global, labels: &[(&str, &str)]) -> Result<Vec<(Name, Name)>, Fail> {
    let mut pairs = Vec::new(alloc);
    for (name, value) in labels {
        pairs.push(pair(alloc, name, value)?)?;
    }
    Ok(pairs)
}

fn profile(alloc: Global, labels: &[(&str, &str)], kind: &str) -> Result<Profile, Fail> {
    let pairs = pairs(alloc, labels)?;
    let labels = LabelSet::from_pairs(alloc, &pairs)?;
    let kind = ProfileType::read(alloc, kind)?;
    Ok(Profile {
        labels,
        kind,
        time_ms: 0,
        values: StackSums::new(alloc),
    })
}

fn selectors(alloc: Global, texts: &[&str]) -> Result<Vec<Selector>, Fail> {
    let mut selectors = Vec::new(alloc);
    for text in texts {
        selectors.push(Selector::read(alloc, text)?)?;
    }
    Ok(selectors)
}

fn add(
    alloc: Global,
    sets: &mut LabelSets,
    labels: &[(&str, &str)],
    kind: &str,
) -> Result<(), Fail> {
    let profile = profile(alloc, labels, kind)?;
    Ok(sets.add(&profile)?)
}

// The sets of the profiles that these selectors ask for.
fn gathered(alloc: Global, texts: &[&str]) -> Result<LabelSets, Fail> {
    let mut sets = LabelSets::new(alloc, selectors(alloc, texts)?);
    for (labels, kind) in &PROFILES {
        add(alloc, &mut sets, labels, kind)?;
    }
    Ok(sets)
}

fn same(text: &[u8], expected: &str) -> bool {
    text == expected.as_bytes()
}

fn is_written(alloc: Global, names: &[Name], expected: &str) -> Result<bool, Fail> {
    let text = names_text(alloc, names)?;
    Ok(same(&text, expected))
}

// Whether the names in the sets are these, as they are written.
fn are_names(alloc: Global, sets: &LabelSets, expected: &str) -> Result<bool, Fail> {
    let names = sets.names()?;
    is_written(alloc, &names, expected)
}

fn lists_names(alloc: Global, selectors: &[&str], expected: &str) -> Result<bool, Fail> {
    let sets = gathered(alloc, selectors)?;
    are_names(alloc, &sets, expected)
}

fn lists_no_name_of_no_profiles(alloc: Global) -> Result<bool, Fail> {
    let sets = LabelSets::new(alloc, Vec::new(alloc));
    are_names(alloc, &sets, "{\"names\":[]}")
}

fn has_no_names(alloc: Global, selectors: &[&str]) -> Result<bool, Fail> {
    let sets = gathered(alloc, selectors)?;
    let names = sets.names()?;
    Ok(names.is_empty())
}

fn lists_values(
    alloc: Global,
    selectors: &[&str],
    name: &str,
    expected: &str,
) -> Result<bool, Fail> {
    let sets = gathered(alloc, selectors)?;
    let values = sets.values(name)?;
    is_written(alloc, &values, expected)
}

fn lists_series(
    alloc: Global,
    selectors: &[&str],
    names: &[&str],
    expected: &str,
) -> Result<bool, Fail> {
    let sets = gathered(alloc, selectors)?;
    let series = sets.series(names)?;
    let text = series_text(alloc, &series)?;
    Ok(same(&text, expected))
}

fn is_written_as(alloc: Global, name: &str, expected: &str) -> Result<bool, Fail> {
    let mut names = Vec::new(alloc);
    names.push(Name::from_text(alloc, name)?)?;
    is_written(alloc, &names, expected)
}

#[test]
fn names_are_listed_once_ascending(rt: HostRuntime) -> Result<(), Fail> {
    let alloc = rt.alloc();
    let expected = "{\"names\":[\"__name__\",\"__profile_type__\",\"env\",\"service_name\"]}";
    assert!(rt; lists_names(alloc, &[], expected)?);
    assert!(rt; lists_no_name_of_no_profiles(alloc)?);
    Ok(())
}

#[test]
fn values_are_of_the_sets_that_have_the_label(rt: HostRuntime) -> Result<(), Fail> {
    let alloc = rt.alloc();
    for (name, expected) in [
        ("env", "{\"names\":[\"dev\",\"prod\"]}"),
        ("service_name", "{\"names\":[\"bank\",\"shop\"]}"),
        ("__name__", "{\"names\":[\"\",\"cpu\"]}"),
        (
            "__profile_type__",
            "{\"names\":[\":a:b:c:d\",\"cpu:samples:count:cpu:ns\"]}",
        ),
        ("region", "{\"names\":[]}"),
    ] {
        assert!(rt; lists_values(alloc, &[], name, expected)?, "{name}");
    }
    Ok(())
}

#[test]
fn series_are_cut_and_listed_once(rt: HostRuntime) -> Result<(), Fail> {
    let alloc = rt.alloc();
    let cut = "{\"labelsSet\":[{\"labels\":[]},{\"labels\":[{\"name\":\"env\",\"value\":\"dev\"}]},\
               {\"labels\":[{\"name\":\"env\",\"value\":\"prod\"}]}]}";
    assert!(rt; lists_series(alloc, &[], &["env"], cut)?);
    let whole = "{\"labelsSet\":[{\"labels\":[{\"name\":\"__name__\",\"value\":\"cpu\"},\
                 {\"name\":\"__profile_type__\",\"value\":\"cpu:samples:count:cpu:ns\"},\
                 {\"name\":\"env\",\"value\":\"dev\"},{\"name\":\"service_name\",\"value\":\"shop\"}]}]}";
    assert!(rt; lists_series(alloc, &["{env=\"dev\"}"], &[], whole)?);
    Ok(())
}

#[test]
fn any_selector_lets_a_profile_in(rt: HostRuntime) -> Result<(), Fail> {
    let alloc = rt.alloc();
    let both = ["{env=\"dev\"}", "{service_name=\"bank\"}"];
    let services = "{\"names\":[\"bank\",\"shop\"]}";
    assert!(rt; lists_values(alloc, &both, "service_name", services)?);
    assert!(rt; lists_values(alloc, &both, "env", "{\"names\":[\"dev\"]}")?);
    assert!(rt; has_no_names(alloc, &["{env=\"test\"}"])?);
    Ok(())
}

#[test]
fn texts_are_escaped_as_json_has_it(rt: HostRuntime) -> Result<(), Fail> {
    let expected = "{\"names\":[\"a\\\"\\\\\\n\\u0001/é\"]}";
    assert!(rt; is_written_as(rt.alloc(), "a\"\\\n\u{1}/é", expected)?);
    Ok(())
}

#[test]
fn laws_take_no_step(_rt: HostRuntime) -> Result<(), Fail> {
    each_member_once();
    sets_of_more_profiles();
    Ok(())
}
