// What no clause says: that each call succeeds with ample memory, and the texts of the faults.
ghost use Rattle.std.specs.Prelude.{◌≡◌, IfOk};
ghost use Rattle.profile_model.specs.LabelSets.{AreProfileLabels};

use crate::*;
use faults::Refused;
use std::alloc::{AllocError, Global};
use std::cmp::Ordering;
use std::sync::ArcSlice;
use std::test::Fail;

// Stacks and their values: one stack comes twice, and one has nothing.
const SAMPLES: [(&[&str], u64); 5] = [
    (&["main", "b"], 5),
    (&["main", "a"], 1),
    (&["main"], 2),
    (&["main", "a"], 2),
    (&["main", "c"], 0),
];

fn push_name(alloc: Global, names: &mut Vec<Name>, text: &str) -> Result<(), Fail> {
    let name = Name::from_text(alloc, text)?;
    Ok(names.push(name)?)
}

fn names(alloc: Global, texts: &[&str]) -> Result<Vec<Name>, Fail> {
    let mut names = Vec::new(alloc);
    for text in texts {
        push_name(alloc, &mut names, text)?;
    }
    Ok(names)
}

fn frames(alloc: Global, texts: &[&str]) -> Result<ArcSlice<Name>, Fail> {
    let names = names(alloc, texts)?;
    Ok(ArcSlice::from_vec(names)?)
}

fn stack(alloc: Global, texts: &[&str]) -> Result<Stack, Fail> {
    let frames = frames(alloc, texts)?;
    Ok(Stack::from_frames(frames)?)
}

fn is_copied(name: &Name, text: &str, length: usize) -> Result<bool, Fail> {
    let copy = name.clone()?;
    Ok(copy.as_str() == text && copy.len() == length && *name == copy)
}

fn name_is_kept(alloc: Global, bytes: &[u8], text: &str, length: usize) -> Result<bool, Fail> {
    let name = Name::read(alloc, bytes)?;
    is_copied(&name, text, length)
}

fn name_fault(alloc: Global, bytes: &[u8]) -> Option<Refused<NameFault>> {
    Name::read(alloc, bytes).err()
}

#[test]
fn a_name_keeps_its_bytes_and_shares_them(rt: HostRuntime) -> Result<(), Fail> {
    let alloc = rt.alloc();
    assert!(rt; name_is_kept(alloc, b"main.run", "main.run", 8)?);
    assert_eq!(rt;
        name_fault(alloc, b"ab\xffc"),
        Some(Refused::Fault(NameFault::NotUtf8(2)))
    );
    Ok(())
}

fn depth(alloc: Global, texts: &[&str]) -> Result<usize, Fail> {
    let stack = stack(alloc, texts)?;
    Ok(stack.frames().len())
}

fn stack_fault(alloc: Global, texts: &[&str]) -> Result<Option<StackFault>, Fail> {
    let frames = frames(alloc, texts)?;
    Ok(Stack::from_frames(frames).err())
}

#[test]
fn a_stack_is_refused_at_its_first_wrong_frame(rt: HostRuntime) -> Result<(), Fail> {
    let alloc = rt.alloc();
    assert_eq!(rt; depth(alloc, &["main", "run", "loop"])?, 3);
    assert_eq!(rt; stack_fault(alloc, &[])?, Some(StackFault::NoFrames));
    assert_eq!(rt;
        stack_fault(alloc, &["main", ""])?,
        Some(StackFault::EmptyFrame(1))
    );
    Ok(())
}

fn equal_names(alloc: Global, count: usize) -> Result<Vec<Name>, Fail> {
    let mut names = Vec::new(alloc);
    for _ in 0..count {
        push_name(alloc, &mut names, "f")?;
    }
    Ok(names)
}

fn may_have_frames(alloc: Global, count: usize) -> Result<bool, Fail> {
    let names = equal_names(alloc, count)?;
    let frames = ArcSlice::from_vec(names)?;
    Ok(Stack::from_frames(frames).is_ok())
}

#[test]
fn a_stack_holds_1024_frames_and_no_more(rt: HostRuntime) -> Result<(), Fail> {
    let alloc = rt.alloc();
    assert!(rt; may_have_frames(alloc, 1024)?);
    assert!(rt; !may_have_frames(alloc, 1025)?);
    Ok(())
}

fn add(
    alloc: Global,
    sums: &mut StackSums,
    texts: &[&str],
    value: u64,
) -> Result<Result<(), Refused<AddFault>>, Fail> {
    let stack = stack(alloc, texts)?;
    Ok(sums.add(stack, value))
}

fn sums_of(alloc: Global, samples: &[(&[&str], u64)]) -> Result<StackSums, Fail> {
    let mut sums = StackSums::new(alloc);
    for (texts, value) in samples {
        add(alloc, &mut sums, texts, *value)??;
    }
    Ok(sums)
}

fn count_and_total(alloc: Global) -> Result<(usize, u64), Fail> {
    let sums = sums_of(alloc, &SAMPLES)?;
    Ok((sums.len(), sums.total()))
}

fn has_values(sums: &StackSums, expected: &[u64]) -> bool {
    let mut rest = expected.iter();
    for (_stack, value) in sums.iter() {
        if rest.next() != Some(value) {
            return false;
        }
    }
    rest.next().is_none()
}

fn values_are(alloc: Global, expected: &[u64]) -> Result<bool, Fail> {
    let sums = sums_of(alloc, &SAMPLES)?;
    Ok(has_values(&sums, expected))
}

fn value_of(alloc: Global, sums: &StackSums, texts: &[&str]) -> Result<u64, Fail> {
    let stack = stack(alloc, texts)?;
    Ok(sums.value(&stack))
}

// What becomes of one value more than there is room for, of the most that there is room for, and of what was there.
fn filled(
    alloc: Global,
) -> Result<
    (
        Result<(), Refused<AddFault>>,
        Result<(), Refused<AddFault>>,
        u64,
    ),
    Fail,
> {
    let mut sums = sums_of(alloc, &SAMPLES)?;
    let over = add(alloc, &mut sums, &["x"], MAX_TOTAL - 9)?;
    let most = add(alloc, &mut sums, &["x"], MAX_TOTAL - 10)?;
    let held = value_of(alloc, &sums, &["main", "b"])?;
    Ok((over, most, held))
}

fn samples_of(alloc: Global, sums: &StackSums) -> Result<Vec<(Stack, u64)>, AllocError>
    ensures { IfOk result (λ samples. samples.items ≡ sums.now) }
{
    let mut samples = Vec::new(alloc);
    for (stack, value) in sums.iter() {
        samples.push((stack.clone()?, *value))?;
    }
    Ok(samples)
}

// The values and their total of sums that are made of the samples of these.
fn made_of_samples(alloc: Global, expected: &[u64]) -> Result<(bool, u64), Fail> {
    let sums = sums_of(alloc, &SAMPLES)?;
    let made = made_again(alloc, &sums)?;
    Ok((has_values(&made, expected), made.total()))
}

fn made_again(alloc: Global, sums: &StackSums) -> Result<StackSums, AllocError> {
    sums.iter();
    StackSums::from_samples(alloc, samples_of(alloc, sums)?)
}

#[test]
fn equal_stacks_are_summed_and_others_ascend(rt: HostRuntime) -> Result<(), Fail> {
    let alloc = rt.alloc();
    assert_eq!(rt; count_and_total(alloc)?, (3, 10));
    assert!(rt; values_are(alloc, &[2, 3, 5])?);
    assert_eq!(rt;
        filled(alloc)?,
        (Err(Refused::Fault(AddFault::Sum)), Ok(()), 5)
    );
    assert_eq!(rt; made_of_samples(alloc, &[2, 3, 5])?, (true, 10));
    Ok(())
}

fn tenant_is_copied(tenant: &Tenant, bytes: &[u8]) -> Result<bool, Fail> {
    let copy = tenant.clone()?;
    Ok(copy.as_bytes() == bytes && *tenant == copy)
}

fn tenant_is_kept(alloc: Global, bytes: &[u8]) -> Result<bool, Fail> {
    let tenant = Tenant::read(alloc, bytes)?;
    tenant_is_copied(&tenant, bytes)
}

fn tenant_fault(alloc: Global, bytes: &[u8]) -> Option<Refused<TenantFault>> {
    Tenant::read(alloc, bytes).err()
}

#[test]
fn a_tenant_is_told_from_what_is_none(rt: HostRuntime) -> Result<(), Fail> {
    let alloc = rt.alloc();
    assert!(rt; tenant_is_kept(alloc, b"team-1.(a)!*'_")?);
    for (bytes, at) in [
        (b"".as_slice(), 0),
        (b".".as_slice(), 0),
        (b"..".as_slice(), 0),
        (b"a/b".as_slice(), 1),
        (b"team 1".as_slice(), 4),
        ([b'a'; 151].as_slice(), 150),
    ] {
        assert_eq!(rt; wrong_tenant_byte(bytes), Some(at));
        assert_eq!(rt;
            tenant_fault(alloc, bytes),
            Some(Refused::Fault(TenantFault::BadTenant(at)))
        );
    }
    assert_eq!(rt; wrong_tenant_byte([b'a'; 150].as_slice()), None);
    Ok(())
}

fn type_is_copied(kind: &ProfileType) -> Result<bool, Fail> {
    let copy = kind.clone()?;
    Ok(*kind == copy)
}

fn type_is_kept(
    alloc: Global,
    text: &str,
    name: &str,
    sample_unit: &str,
    period_unit: &str,
) -> Result<bool, Fail> {
    let kind = ProfileType::read(alloc, text)?;
    Ok(
        kind.name.as_str() == name
            && kind.sample_unit.as_str() == sample_unit
            && kind.period_unit.as_str() == period_unit
            && type_is_copied(&kind)?,
    )
}

fn has_period_type(alloc: Global, text: &str, period_type: &str) -> Result<bool, Fail> {
    let kind = ProfileType::read(alloc, text)?;
    Ok(kind.period_type.as_str() == period_type)
}

fn type_fault(alloc: Global, text: &str) -> Option<Refused<TypeFault>> {
    ProfileType::read(alloc, text).err()
}

#[test]
fn a_type_has_five_parts(rt: HostRuntime) -> Result<(), Fail> {
    let alloc = rt.alloc();
    let text = "process_cpu:samples:count:cpu:nanoseconds";
    assert!(rt; type_is_kept(alloc, text, "process_cpu", "count", "nanoseconds")?);
    assert!(rt; has_period_type(alloc, "::::", "")?);
    for text in ["", "a:b:c:d", "a:b:c:d:e:f"] {
        assert_eq!(rt;
            type_fault(alloc, text),
            Some(Refused::Fault(TypeFault::NotFiveParts))
        );
    }
    Ok(())
}

fn profile_with(
    alloc: Global,
    labels: LabelSet,
    kind: &str,
    samples: &[(&[&str], u64)],
) -> Result<Profile, Fail>
    requires { AreProfileLabels labels }
{
    let kind = ProfileType::read(alloc, kind)?;
    let values = sums_of(alloc, samples)?;
    Ok(Profile {
        labels,
        kind,
        time_ms: 1_700_000_000_000,
        values,
    })
}

fn labels_of_service(alloc: Global) -> Result<LabelSet, Fail>
    ensures { IfOk result AreProfileLabels }
{
    let service = Name::from_text(alloc, "app")?;
    Ok(LabelSet::of_service(alloc, service)?)
}

fn profile_of_service(alloc: Global) -> Result<Profile, Fail> {
    let labels = labels_of_service(alloc)?;
    profile_with(alloc, labels, "a:b:c:d:e", &[(&["main"], 7)])
}

fn count_of_labels(alloc: Global) -> Result<usize, Fail> {
    let profile = profile_of_service(alloc)?;
    Ok(profile.labels.pairs().len())
}

fn total_and_count(alloc: Global) -> Result<(u128, usize), Fail> {
    let profile = profile_of_service(alloc)?;
    let profiles = Profiles::one(alloc, profile)?;
    let tenant = Tenant::read(alloc, b"t1")?;
    let push = Push { tenant, profiles };
    Ok((push.total(), push.profiles.as_slice().len()))
}

#[test]
fn a_push_comes_to_the_sum_of_its_profiles(rt: HostRuntime) -> Result<(), Fail> {
    let alloc = rt.alloc();
    assert_eq!(rt; count_of_labels(alloc)?, 1);
    assert_eq!(rt; total_and_count(alloc)?, (7, 1));
    Ok(())
}

fn pair(alloc: Global, name: &str, value: &str) -> Result<(Name, Name), Fail> {
    let name = Name::from_text(alloc, name)?;
    let value = Name::from_text(alloc, value)?;
    Ok((name, value))
}

fn pairs(alloc: Global, texts: &[(&str, &str)]) -> Result<Vec<(Name, Name)>, Fail> {
    let mut pairs = Vec::new(alloc);
    for (name, value) in texts {
        pairs.push(pair(alloc, name, value)?)?;
    }
    Ok(pairs)
}

fn labels(alloc: Global, texts: &[(&str, &str)]) -> Result<LabelSet, Fail>
    ensures { IfOk result AreProfileLabels }
{
    let pairs = pairs(alloc, texts)?;
    Ok(LabelSet::from_pairs(alloc, &pairs)?)
}

fn has_pairs(alloc: Global, labels: &LabelSet, texts: &[(&str, &str)]) -> Result<bool, Fail> {
    let pairs = pairs(alloc, texts)?;
    Ok(labels.pairs() == pairs.as_slice())
}

fn labels_are(
    alloc: Global,
    given: &[(&str, &str)],
    expected: &[(&str, &str)],
) -> Result<bool, Fail> {
    let labels = labels(alloc, given)?;
    has_pairs(alloc, &labels, expected)
}

#[test]
fn labels_ascend_and_an_empty_value_is_left_out(rt: HostRuntime) -> Result<(), Fail> {
    let alloc = rt.alloc();
    let given = [
        ("service_name", "app"),
        ("pod", ""),
        ("_z.9", "1"),
        ("a", "{x}"),
    ];
    let ascending = [("_z.9", "1"), ("a", "{x}"), ("service_name", "app")];
    assert!(rt; labels_are(alloc, &given, &ascending)?);
    assert!(rt; labels_are(alloc, &[], &[])?);
    Ok(())
}

fn long_text(alloc: Global, length: usize) -> Result<String, Fail> {
    let mut text = String::new(alloc);
    for _ in 0..length {
        text.push('a')?;
    }
    Ok(text)
}

fn fault_of(
    alloc: Global,
    first: (&str, &str),
    second: (&str, &str),
) -> Result<Option<Refused<LabelFault>>, Fail> {
    let given = pairs(alloc, &[first, second])?;
    Ok(LabelSet::from_pairs(alloc, &given).err())
}

fn is_refused(
    alloc: Global,
    first: (&str, &str),
    second: (&str, &str),
    fault: LabelFault,
) -> Result<bool, Fail> {
    Ok(fault_of(alloc, first, second)? == Some(Refused::Fault(fault)))
}

// The name and the value are too long.
fn wrong_names_are_refused(alloc: Global, name: &str, value: &str) -> Result<bool, Fail> {
    Ok(
        is_refused(alloc, ("a", "1"), ("", "2"), LabelFault::BadName(1))?
            && is_refused(alloc, ("9a", "1"), ("b", value), LabelFault::BadName(0))?
            && is_refused(alloc, ("a-b", "1"), ("a", "2"), LabelFault::BadName(0))?
            && is_refused(alloc, (name, "1"), ("a", "2"), LabelFault::BadName(0))?,
    )
}

fn long_values_are_refused(alloc: Global, value: &str) -> Result<bool, Fail> {
    Ok(
        is_refused(alloc, ("a", value), ("", "2"), LabelFault::BadValue(0))?
            && is_refused(alloc, ("a", "1"), ("a", value), LabelFault::BadValue(1))?,
    )
}

fn repeated_names_are_refused(alloc: Global) -> Result<bool, Fail> {
    Ok(
        is_refused(alloc, ("a", ""), ("a", "2"), LabelFault::Repeated(1))?
            && is_refused(alloc, ("a", "1"), ("a", ""), LabelFault::Repeated(1))?,
    )
}

fn are_refused_at_lengths(
    alloc: Global,
    name_length: usize,
    value_length: usize,
) -> Result<bool, Fail> {
    let name = long_text(alloc, name_length)?;
    let value = long_text(alloc, value_length)?;
    Ok(
        wrong_names_are_refused(alloc, name.as_str(), value.as_str())?
            && long_values_are_refused(alloc, value.as_str())?,
    )
}

fn is_taken_at_lengths(
    alloc: Global,
    name_length: usize,
    value_length: usize,
) -> Result<bool, Fail> {
    let name = long_text(alloc, name_length)?;
    let value = long_text(alloc, value_length)?;
    let longest = [(name.as_str(), value.as_str())];
    labels_are(alloc, &longest, &longest)
}

#[test]
fn pairs_are_refused_at_the_first_that_breaks_a_rule(rt: HostRuntime) -> Result<(), Fail> {
    let alloc = rt.alloc();
    assert!(rt; are_refused_at_lengths(alloc, 1025, 2049)?);
    assert!(rt; repeated_names_are_refused(alloc)?);
    assert!(rt; is_taken_at_lengths(alloc, 1024, 2048)?);
    Ok(())
}

fn numbered_pair(alloc: Global, number: usize) -> Result<(Name, Name), Fail> {
    let name = format!(in alloc; "l{number}")?;
    pair(alloc, name.as_str(), "v")
}

// A pair without a value, and 30 that have one.
fn thirty_pairs(alloc: Global) -> Result<Vec<(Name, Name)>, Fail> {
    let mut given = pairs(alloc, &[("none", "")])?;
    for number in 0..30 {
        given.push(numbered_pair(alloc, number)?)?;
    }
    Ok(given)
}

fn count_of_thirty(alloc: Global) -> Result<usize, Fail> {
    let given = thirty_pairs(alloc)?;
    let labels = LabelSet::from_pairs(alloc, &given)?;
    Ok(labels.pairs().len())
}

fn fault_of_one_more(alloc: Global) -> Result<Option<Refused<LabelFault>>, Fail> {
    let mut given = thirty_pairs(alloc)?;
    given.push(pair(alloc, "last", "v")?)?;
    Ok(LabelSet::from_pairs(alloc, &given).err())
}

#[test]
fn thirty_labels_have_a_value_and_no_more(rt: HostRuntime) -> Result<(), Fail> {
    let alloc = rt.alloc();
    assert_eq!(rt; count_of_thirty(alloc)?, 30);
    assert_eq!(rt;
        fault_of_one_more(alloc)?,
        Some(Refused::Fault(LabelFault::TooMany))
    );
    Ok(())
}

fn put(alloc: Global, labels: &mut LabelSet, name: &str, value: &str) -> Result<(), Fail> {
    let (name, value) = pair(alloc, name, value)?;
    Ok(labels.set(name, value)?)
}

// The labels of a service, with a pod that is put twice and a zone.
fn put_labels(alloc: Global) -> Result<LabelSet, Fail> {
    let mut labels = LabelSet::of_service(alloc, Name::from_text(alloc, "app")?)?;
    for (name, value) in [("pod", "p1"), ("zone", "eu"), ("pod", "p2")] {
        put(alloc, &mut labels, name, value)?;
    }
    Ok(labels)
}

fn are_put(alloc: Global, expected: &[(&str, &str)]) -> Result<bool, Fail> {
    let labels = put_labels(alloc)?;
    has_pairs(alloc, &labels, expected)
}

fn is_found(alloc: Global, name: &str, value: &str) -> Result<bool, Fail> {
    let labels = put_labels(alloc)?;
    Ok(match labels.get(name.as_bytes()) {
        Some(found) => found.as_str() == value,
        None => false,
    })
}

fn is_absent(alloc: Global, name: &str) -> Result<bool, Fail> {
    let labels = put_labels(alloc)?;
    Ok(labels.get(name.as_bytes()).is_none())
}

fn without_service(alloc: Global) -> Result<LabelSet, Fail> {
    let labels = put_labels(alloc)?;
    Ok(labels.without(b"service_name").without(b"po"))
}

fn are_left(alloc: Global, expected: &[(&str, &str)]) -> Result<bool, Fail> {
    let labels = without_service(alloc)?;
    has_pairs(alloc, &labels, expected)
}

fn are_copied(alloc: Global) -> Result<bool, Fail> {
    let labels = without_service(alloc)?;
    let copy = labels.clone()?;
    Ok(copy == labels)
}

#[test]
fn a_label_is_put_found_and_left_out(rt: HostRuntime) -> Result<(), Fail> {
    let alloc = rt.alloc();
    let all = [("pod", "p2"), ("service_name", "app"), ("zone", "eu")];
    assert!(rt; are_put(alloc, &all)?);
    for (name, value) in all {
        assert!(rt; is_found(alloc, name, value)?, "{name}");
    }
    assert!(rt; is_absent(alloc, "po")?);
    assert!(rt; are_left(alloc, &[("pod", "p2"), ("zone", "eu")])?);
    assert!(rt; are_copied(alloc)?);
    Ok(())
}

fn order_to(alloc: Global, one: &LabelSet, other: &[(&str, &str)]) -> Result<Ordering, Fail> {
    let other = labels(alloc, other)?;
    Ok(one.cmp(&other))
}

fn order(alloc: Global, one: &[(&str, &str)], other: &[(&str, &str)]) -> Result<Ordering, Fail> {
    let one = labels(alloc, one)?;
    order_to(alloc, &one, other)
}

#[test]
fn label_sets_are_ordered_as_lists_of_pairs(rt: HostRuntime) -> Result<(), Fail> {
    let sets: [&[(&str, &str)]; 6] = [
        &[],
        &[("a", "1")],
        &[("a", "1"), ("b", "1")],
        &[("a", "10")],
        &[("a", "2"), ("b", "0")],
        &[("b", "0")],
    ];
    for (i, one) in sets.iter().enumerate() {
        for (j, other) in sets.iter().enumerate() {
            assert_eq!(rt; order(rt.alloc(), one, other)?, i.cmp(&j), "{i} and {j}");
        }
    }
    Ok(())
}

fn is_cleaned(alloc: Global, text: &str, expected: &str) -> Result<bool, Fail> {
    let name = Name::cleaned(alloc, text)?;
    Ok(name.as_str() == expected)
}

fn is_written(alloc: Global, kind: &ProfileType, text: &str) -> Result<bool, Fail> {
    let written = kind.to_string(alloc)?;
    Ok(written.as_str() == text)
}

fn is_written_as_read(alloc: Global, text: &str) -> Result<bool, Fail> {
    let kind = ProfileType::read(alloc, text)?;
    is_written(alloc, &kind, text)
}

#[test]
fn marks_are_cleaned_and_a_type_is_written(rt: HostRuntime) -> Result<(), Fail> {
    let alloc = rt.alloc();
    assert!(rt; is_cleaned(alloc, "a:b{c}\"é", "a_b_c__é")?);
    assert!(rt; is_written_as_read(alloc, "cpu::count:c p:ns")?);
    Ok(())
}

fn weight_of_stack(alloc: Global, texts: &[&str]) -> Result<u64, Fail> {
    let stack = stack(alloc, texts)?;
    Ok(stack.weight())
}

fn profile(alloc: Global, service: &str) -> Result<Profile, Fail> {
    let labels = labels(alloc, &[("service_name", service)])?;
    let samples: [(&[&str], u64); 2] = [(&["main"], 7), (&["main", "run"], 1)];
    profile_with(alloc, labels, "cpu::count:c p:ns", &samples)
}

fn profiles(alloc: Global) -> Result<Profiles, Fail> {
    let mut items = Vec::new(alloc);
    items.push(profile(alloc, "app")?)?;
    items.push(profile(alloc, "other")?)?;
    Ok(Profiles::from_vec(items))
}

fn have_weights(profiles: &[Profile], expected: &[u64]) -> bool {
    let mut rest = expected.iter();
    for profile in profiles {
        if rest.next() != Some(&profile.weight()) {
            return false;
        }
    }
    rest.next().is_none()
}

fn profiles_weigh(alloc: Global, expected: &[u64]) -> Result<bool, Fail> {
    let profiles = profiles(alloc)?;
    Ok(have_weights(profiles.as_slice(), expected))
}

fn weight_of_push(alloc: Global) -> Result<u64, Fail> {
    let profiles = profiles(alloc)?;
    let tenant = Tenant::read(alloc, b"t1")?;
    let push = Push { tenant, profiles };
    Ok(push.weight())
}

#[test]
fn a_push_weighs_what_it_holds(rt: HostRuntime) -> Result<(), Fail> {
    let alloc = rt.alloc();
    assert_eq!(rt;
        weight_of_stack(alloc, &["main", "run"])?,
        16 + (16 + 4) + (16 + 3)
    );
    // The label, the type's five parts and the two stacks.
    let first = 128 + (16 + 12 + 3) + (3 + 5 + 3 + 2) + 36 + 55;
    assert!(rt; profiles_weigh(alloc, &[first, first + 2])?);
    assert_eq!(rt; weight_of_push(alloc)?, 256 + 2 * first + 2);
    Ok(())
}

fn shows(alloc: Global, text: &str) -> Result<bool, Fail> {
    let profile = profile(alloc, "app")?;
    Ok(profile.to_string(alloc)?.as_str() == text)
}

#[test]
fn a_profile_shows_its_labels_its_type_its_time_and_its_stacks(
    rt: HostRuntime,
) -> Result<(), Fail> {
    let text = "service_name=app cpu::count:c p:ns 1700000000000\nmain 7\nmain;run 1\n";
    assert!(rt; shows(rt.alloc(), text)?);
    Ok(())
}
