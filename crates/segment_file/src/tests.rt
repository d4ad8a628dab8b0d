// Objects by their numbers, their bytes and their rows, and faults by their texts.
ghost use Rattle.std.specs.Prelude.{IfOk, IsTrue};
ghost use Rattle.std.specs.List.{All};
ghost use Rattle.profile_model.specs.LabelSets.{AreProfileLabels};
ghost use Rattle.segment_file.specs.Laws.{IsLight};

use super::*;
use faults::Refused;
use profile_model::{
    LabelSet, MAX_PROFILES, MAX_WEIGHT, Name, PartAsk, Profile, ProfileType, Profiles, Push, Stack,
    StackSums, Tenant,
};
use std::alloc::Global;
use std::sync::ArcSlice;
use std::test::Fail;

// What an object of one push says of itself.
fn numbers(alloc: Global) -> Result<(u64, u64, usize), Fail> {
    let tenant = Tenant::read(alloc, b"t1")?;
    let profiles = Profiles::from_vec(Vec::new(alloc));
    let mut pushes = Vec::new(alloc);
    pushes.push(Push { tenant, profiles })?;
    let object = Object::from_pushes(7, pushes);
    Ok((object.lo(), object.hi(), object.pushes().len()))
}

fn shown(alloc: Global, fault: ObjectFault, text: &str) -> Result<bool, Fail> {
    Ok(fault.to_string(alloc)?.as_str() == text)
}

#[test]
fn an_object_tells_its_numbers_and_a_fault_its_place(rt: HostRuntime) -> Result<(), Fail> {
    let alloc = rt.alloc();
    assert_eq!(rt; numbers(alloc)?, (7, 8, 1));
    let form = ObjectFault {
        rule: ObjectRule::Form,
        at: 30,
    };
    assert!(rt; shown(alloc, form, "no object: see byte 30")?);
    let content = ObjectFault {
        rule: ObjectRule::Content,
        at: 20,
    };
    assert!(rt; shown(alloc, content, "an object with a wrong field at byte 20")?);
    Ok(())
}

fn are_light(pushes: &[Push]) -> bool
    ensures { IsTrue result → All IsLight pushes.now }
{
    pushes.iter().all(|push| push.weight() <= MAX_WEIGHT)
}

// The object of these pushes, where they are some and within their limit of weight.
fn object(lo: u8, pushes: Vec<Push>) -> Option<Object> {
    if pushes.is_empty() || !are_light(&pushes) {
        return None;
    }
    Some(Object::of_light(u64::from(lo), pushes))
}

fn stack(alloc: Global, texts: &[&str]) -> Result<Stack, Fail> {
    let mut names = Vec::new(alloc);
    for text in texts {
        names.push(Name::from_text(alloc, text)?)?;
    }
    Ok(Stack::from_frames(ArcSlice::from_vec(names)?)?)
}

fn sums(alloc: Global, texts: &[&str], value: u64) -> Result<StackSums, Fail> {
    let stack = stack(alloc, texts)?;
    let mut sums = StackSums::new(alloc);
    sums.add(stack, value)?;
    Ok(sums)
}

// No label where the service has no name.
fn labels(alloc: Global, service: &str) -> Result<LabelSet, Fail>
    ensures { IfOk result AreProfileLabels }
{
    let mut pairs = Vec::new(alloc);
    pairs.push((
        Name::from_text(alloc, "service_name")?,
        Name::from_text(alloc, service)?,
    ))?;
    Ok(LabelSet::from_pairs(alloc, &pairs)?)
}

fn profile(
    alloc: Global,
    service: &str,
    time_ms: u64,
    texts: &[&str],
    value: u64,
) -> Result<Profile, Fail> {
    let mut profile = Profile {
        labels: labels(alloc, service)?,
        kind: ProfileType::read(alloc, "cpu:samples:count::")?,
        time_ms,
        values: StackSums::new(alloc),
    };
    profile.values = sums(alloc, texts, value)?;
    Ok(profile)
}

fn push(alloc: Global, tenant: &[u8], mut items: Vec<Profile>) -> Result<Push, Fail> {
    items.truncate(MAX_PROFILES);
    let profiles = Profiles::from_vec(items);
    let tenant = Tenant::read(alloc, tenant)?;
    Ok(Push { tenant, profiles })
}

fn empty(alloc: Global) -> Result<Vec<Push>, Fail> {
    let mut pushes = Vec::new(alloc);
    pushes.push(push(alloc, b"t1", Vec::new(alloc))?)?;
    Ok(pushes)
}

fn of_one(alloc: Global, tenant: &[u8], profile: Profile) -> Result<Push, Fail> {
    let mut items = Vec::with_capacity(alloc, 1)?;
    items.push(profile)?;
    push(alloc, tenant, items)
}

// Two tenants' pushes of a profile with one stack each.
fn two(alloc: Global) -> Result<Vec<Push>, Fail> {
    let first = profile(alloc, "", 1000, &["main"], 3)?;
    let second = profile(alloc, "web", 2000, &["main", "leaf"], 258)?;
    let mut pushes = Vec::new(alloc);
    pushes.push(of_one(alloc, b"t1", first)?)?;
    pushes.push(of_one(alloc, b"t2", second)?)?;
    Ok(pushes)
}

fn is_encoded(alloc: Global, lo: u8, pushes: Vec<Push>, bytes: &[u8]) -> Result<bool, Fail> {
    match object(lo, pushes) {
        Some(object) => Ok(object.encode(alloc)?.as_slice() == bytes),
        None => Ok(false),
    }
}

const EMPTY: &[u8; 30] = b"PYO0\
    \0\0\0\0\0\0\0\0\
    \0\0\0\0\0\0\0\x01\
    \0\0\0\x02t1\
    \0\0\0\0";

const TWO: &[u8; 213] = b"PYO0\
    \0\0\0\0\0\0\0\x05\
    \0\0\0\0\0\0\0\x07\
    \0\0\0\x02t1\
    \0\0\0\x01\
    \0\0\0\0\
    \0\0\0\x03cpu\0\0\0\x07samples\0\0\0\x05count\0\0\0\0\0\0\0\0\
    \0\0\0\0\0\0\x03\xE8\
    \0\0\0\x01\
    \0\0\0\x01\0\0\0\x04main\
    \0\0\0\0\0\0\0\x03\
    \0\0\0\x02t2\
    \0\0\0\x01\
    \0\0\0\x01\0\0\0\x0Cservice_name\0\0\0\x03web\
    \0\0\0\x03cpu\0\0\0\x07samples\0\0\0\x05count\0\0\0\0\0\0\0\0\
    \0\0\0\0\0\0\x07\xD0\
    \0\0\0\x01\
    \0\0\0\x02\0\0\0\x04main\0\0\0\x04leaf\
    \0\0\0\0\0\0\x01\x02";

// The object of docs/FORMATS.md.
const TEXT: &str = "50594f30\
    0000000000000000\
    0000000000000001\
    00000002\
    7431\
    00000000";

fn bytes_of_text() -> Result<[u8; 30], Fail> {
    let mut bytes = [0; 30];
    for (i, byte) in bytes.iter_mut().enumerate() {
        let digits = TEXT.get(2 * i..2 * i + 2).unwrap_or("");
        *byte = u8::from_str_radix(digits, 16)?;
    }
    Ok(bytes)
}

#[test]
fn an_object_is_spelled_field_by_field(rt: HostRuntime) -> Result<(), Fail> {
    let alloc = rt.alloc();
    assert!(rt; bytes_of_text()? == *EMPTY);
    assert!(rt; is_encoded(alloc, 0, empty(alloc)?, EMPTY)?);
    assert!(rt; is_encoded(alloc, 5, two(alloc)?, TWO)?);
    Ok(())
}

// Pushes by their tenants and the times of their profiles; the first of them has number 5.
const PUSHES: [(&[u8], &[u64]); 5] = [
    (b"a", &[9, 7, 12]),
    (b"b", &[9]),
    (b"a", &[]),
    (b"a", &[6, 8]),
    (b"a", &[10, 5]),
];

fn timed(alloc: Global, tenant: &[u8], times: &[u64]) -> Result<Push, Fail> {
    let mut items = Vec::new(alloc);
    for time in times {
        items.push(profile(alloc, "", *time, &["main"], 1)?)?;
    }
    push(alloc, tenant, items)
}

fn pushes(alloc: Global) -> Result<Vec<Push>, Fail> {
    let mut pushes = Vec::new(alloc);
    for (tenant, times) in PUSHES {
        pushes.push(timed(alloc, tenant, times)?)?;
    }
    Ok(pushes)
}

fn ask(alloc: Global, tenant: &[u8], from_ms: u64, until_ms: u64) -> Result<PartAsk, Fail> {
    let tenant = Tenant::read(alloc, tenant)?;
    Ok(PartAsk {
        tenant,
        from_ms,
        until_ms,
    })
}

fn are_rows(rows: &[Row], expected: &[(u64, u64, u64)]) -> bool {
    rows.iter()
        .map(|row| (row.push, row.place, row.profile.time_ms))
        .eq(expected.iter().copied())
}

// What an ask finds, where the object has the number `from` or ends there.
fn part(alloc: Global, from: u64, until: u64, ask: &PartAsk) -> Result<Option<Part>, Fail> {
    match object(5, pushes(alloc)?) {
        Some(object) if object.lo() <= from && from <= object.hi() && from <= until => {
            Ok(Some(object.into_part(alloc, from, until, ask)?))
        }
        _ => Ok(None),
    }
}

// Whether an ask finds these rows, each by its push, its place and its time.
fn finds(
    alloc: Global,
    from: u64,
    until: u64,
    ask: &PartAsk,
    expected: &[(u64, u64, u64)],
) -> Result<bool, Fail> {
    match part(alloc, from, until, ask)? {
        Some(part) => {
            Ok(part.from == from && part.until == until && are_rows(&part.rows, expected))
        }
        None => Ok(false),
    }
}

fn ends_at(alloc: Global, from: u64, until: u64, ask: &PartAsk, end: u64) -> Result<bool, Fail> {
    match part(alloc, from, until, ask)? {
        Some(part) => Ok(part.from == from && part.until == end),
        None => Ok(false),
    }
}

// Numbers, the tenant and the window, and the rows.
const FOUND: [(u64, u64, &[u8], u64, u64, &[(u64, u64, u64)]); 7] = [
    (5, 10, b"a", 7, 9, &[(5, 0, 9), (5, 1, 7), (8, 1, 8)]),
    (5, 10, b"a", 9, 9, &[(5, 0, 9)]),
    (5, 10, b"b", 0, u64::MAX, &[(6, 0, 9)]),
    (8, 9, b"a", 0, u64::MAX, &[(8, 0, 6), (8, 1, 8)]),
    (5, 5, b"a", 0, u64::MAX, &[]),
    (9, 10, b"a", 0, u64::MAX, &[(9, 0, 10), (9, 1, 5)]),
    (5, 10, b"A", 0, u64::MAX, &[]),
];

#[test]
fn an_ask_finds_rows_by_number_tenant_and_window(rt: HostRuntime) -> Result<(), Fail> {
    let alloc = rt.alloc();
    for (from, until, tenant, from_ms, until_ms, expected) in FOUND {
        let ask = ask(alloc, tenant, from_ms, until_ms)?;
        assert!(rt; finds(alloc, from, until, &ask, expected)?, "from {from}");
    }
    Ok(())
}

#[test]
fn a_part_ends_where_its_object_does(rt: HostRuntime) -> Result<(), Fail> {
    let alloc = rt.alloc();
    let ask = ask(alloc, b"a", 0, u64::MAX)?;
    for (from, until, end) in [(9, u64::MAX, 10), (5, 11, 10), (10, 12, 10), (5, 9, 9)] {
        assert!(rt; ends_at(alloc, from, until, &ask, end)?, "from {from}");
    }
    Ok(())
}

fn is_cut_short(alloc: Global, bytes: &[u8]) -> bool {
    match decode(alloc, bytes) {
        Err(Refused::Fault(fault)) => fault.rule == ObjectRule::Form && fault.at == bytes.len(),
        Err(Refused::Memory) => false,
        Ok(_object) => false,
    }
}

// Bytes that end behind a great number: of pushes, of a tenant's bytes, of profiles, of samples.
const CUT_SHORT: [&[u8]; 4] = [
    b"PYO0\
    \0\0\0\0\0\0\0\0\
    \x7F\xFF\xFF\xFF\xFF\xFF\xFF\xFF",
    b"PYO0\
    \0\0\0\0\0\0\0\0\
    \0\0\0\0\0\0\0\x01\
    \xFF\xFF\xFF\xFFt1",
    b"PYO0\
    \0\0\0\0\0\0\0\0\
    \0\0\0\0\0\0\0\x01\
    \0\0\0\x02t1\
    \0\0\x10\0",
    b"PYO0\
    \0\0\0\0\0\0\0\0\
    \0\0\0\0\0\0\0\x01\
    \0\0\0\x02t1\
    \0\0\0\x01\
    \0\0\0\0\
    \0\0\0\0\0\0\0\0\0\0\0\0\0\0\0\0\0\0\0\0\
    \0\0\0\0\0\0\0\0\
    \xFF\xFF\xFF\xFF",
];

#[test]
fn no_number_that_is_read_is_trusted(rt: HostRuntime) {
    for bytes in CUT_SHORT {
        assert!(rt; is_cut_short(rt.alloc(), bytes), "{} bytes", bytes.len());
    }
}

// As many profiles as a push may have, an empty push, and a push of another tenant.
fn many(alloc: Global) -> Result<Vec<Push>, Fail> {
    let mut items = Vec::new(alloc);
    for time in 0..MAX_PROFILES as u64 {
        items.push(profile(alloc, "web", time, &["main"], 1)?)?;
    }
    let last = profile(alloc, "", 1, &["main", "leaf"], 2)?;
    let mut pushes = Vec::new(alloc);
    pushes.push(push(alloc, b"t1", items)?)?;
    pushes.push(push(alloc, b"t1", Vec::new(alloc))?)?;
    pushes.push(of_one(alloc, b"t2", last)?)?;
    Ok(pushes)
}

fn encoded(alloc: Global, lo: u8, pushes: Vec<Push>) -> Result<Vec<u8>, Fail> {
    match object(lo, pushes) {
        Some(object) => Ok(object.encode(alloc)?),
        None => Ok(Vec::new(alloc)),
    }
}

// Its numbers, and how many profiles its three pushes have.
fn counts(alloc: Global, bytes: &[u8]) -> Result<(u64, u64, [usize; 3]), Fail> {
    let object = decode(alloc, bytes)?;
    let profiles = match object.pushes() {
        [first, second, third] => [
            first.profiles.as_slice().len(),
            second.profiles.as_slice().len(),
            third.profiles.as_slice().len(),
        ],
        _ => [0; 3],
    };
    Ok((object.lo(), object.hi(), profiles))
}

// What was read is spelled as what was written.
fn is_spelled_again(alloc: Global, bytes: &[u8]) -> Result<bool, Fail> {
    let object = decode(alloc, bytes)?;
    Ok(object.encode(alloc)?.as_slice() == bytes)
}

#[test]
fn an_object_of_several_tenants_and_4096_profiles_is_read_back(
    rt: HostRuntime,
) -> Result<(), Fail> {
    let alloc = rt.alloc();
    let bytes = encoded(alloc, 9, many(alloc)?)?;
    assert_eq!(rt; counts(alloc, &bytes)?, (9, 12, [MAX_PROFILES, 0, 1]));
    assert!(rt; is_spelled_again(alloc, &bytes)?);
    Ok(())
}
