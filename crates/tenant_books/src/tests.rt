// What no clause says: that each call succeeds with ample memory. Standings and verdicts that were told by hand.
ghost use Rattle.std.specs.Prelude.{IfOk};
ghost use Rattle.profile_model.specs.LabelSets.{AreProfileLabels};

use super::*;
use faults::Refused;
use profile_model::{
    LabelSet, MAX_TOTAL, Name, Profile, ProfileType, Profiles, Push, Stack, StackSums, Tenant,
};
use push_history::Standing;
use std::alloc::Global;
use std::sync::ArcSlice;
use std::test::Fail;

fn stack(alloc: Global) -> Result<Stack, Fail> {
    let mut names = Vec::new(alloc);
    names.push(Name::from_text(alloc, "main")?)?;
    Ok(Stack::from_frames(ArcSlice::from_vec(names)?)?)
}

fn sums(alloc: Global, value: u64) -> Result<StackSums, Fail> {
    let stack = stack(alloc)?;
    let mut sums = StackSums::new(alloc);
    sums.add(stack, value)?;
    Ok(sums)
}

fn labels(alloc: Global) -> Result<LabelSet, Fail>
    ensures { IfOk result AreProfileLabels }
{
    let pairs = Vec::new(alloc);
    Ok(LabelSet::from_pairs(alloc, &pairs)?)
}

fn profile(alloc: Global, value: u64) -> Result<Profile, Fail> {
    let mut profile = Profile {
        labels: labels(alloc)?,
        kind: ProfileType::read(alloc, "cpu:samples:count::")?,
        time_ms: 1,
        values: StackSums::new(alloc),
    };
    profile.values = sums(alloc, value)?;
    Ok(profile)
}

fn push(alloc: Global, tenant: &str, value: u64) -> Result<Push, Fail> {
    let profile = profile(alloc, value)?;
    let profiles = Profiles::one(alloc, profile)?;
    let tenant = Tenant::read(alloc, tenant.as_bytes())?;
    Ok(Push { tenant, profiles })
}

// Pushes of these tenants, with these values.
fn pushes(alloc: Global, rows: &[(&str, u64)]) -> Result<Vec<Push>, Fail> {
    let mut pushes = Vec::new(alloc);
    for (tenant, value) in rows {
        pushes.push(push(alloc, tenant, *value)?)?;
    }
    Ok(pushes)
}

// Pushes of these tenants, with these values, that ask for so many pushes.
fn asks(alloc: Global, rows: &[(&str, u64, u64)]) -> Result<Vec<PushAsk>, Fail> {
    let mut asks = Vec::new(alloc);
    for (tenant, value, asked) in rows {
        let push = push(alloc, tenant, *value)?;
        asks.push(PushAsk {
            push,
            asked: *asked,
        })?;
    }
    Ok(asks)
}

fn counted(alloc: Global, rows: &[(&str, u64)]) -> Result<Books, Fail> {
    let pushes = pushes(alloc, rows)?;
    let mut books = Books::new(alloc);
    books.count(&pushes)?;
    Ok(books)
}

fn taken(alloc: Global, rows: &[(&str, u64)]) -> Result<Books, Fail> {
    let pushes = pushes(alloc, rows)?;
    let mut books = Books::new(alloc);
    books.room(&pushes)?;
    books.take(&pushes);
    Ok(books)
}

fn standing_in(alloc: Global, books: &Books, tenant: &str) -> Result<Standing, Fail> {
    let tenant = Tenant::read(alloc, tenant.as_bytes())?;
    Ok(books.standing(&tenant))
}

// Three pushes of two tenants.
const HISTORY: [(&str, u64); 3] = [("a", 60), ("b", 7), ("a", 30)];

fn stands_counted(alloc: Global, tenant: &str, front: u64, total: u128) -> Result<bool, Fail> {
    let books = counted(alloc, &HISTORY)?;
    Ok(standing_in(alloc, &books, tenant)? == Standing { front, total })
}

fn stands_taken(alloc: Global, tenant: &str, front: u64, total: u128) -> Result<bool, Fail> {
    let books = taken(alloc, &HISTORY)?;
    Ok(standing_in(alloc, &books, tenant)? == Standing { front, total })
}

#[test]
fn books_tell_where_each_tenant_stands(rt: HostRuntime) -> Result<(), Fail> {
    let alloc = rt.alloc();
    assert!(rt; stands_counted(alloc, "a", 2, 90)?);
    assert!(rt; stands_counted(alloc, "c", 0, 0)?);
    assert!(rt; stands_taken(alloc, "a", 2, 90)?);
    assert!(rt; stands_taken(alloc, "b", 1, 7)?);
    Ok(())
}

fn passes(alloc: Global, rows: &[(&str, u64)]) -> Result<bool, Fail> {
    let pushes = pushes(alloc, rows)?;
    let mut books = Books::new(alloc);
    Ok(books.count(&pushes) == Err(Refused::Fault(TotalPassed)))
}

fn is_told(alloc: Global, text: &str) -> Result<bool, Fail> {
    Ok(TotalPassed.to_string(alloc)?.as_str() == text)
}

#[test]
fn no_total_of_a_tenant_passes_2_to_the_63_less_1(rt: HostRuntime) -> Result<(), Fail> {
    let alloc = rt.alloc();
    let most = MAX_TOTAL - 1;
    assert!(rt; !passes(alloc, &[("a", most), ("b", 2), ("a", 1)])?);
    assert!(rt; passes(alloc, &[("a", most), ("b", 2), ("a", 2)])?);
    assert!(rt;
        is_told(
            alloc,
            "all values of a tenant come to more than 9223372036854775807"
        )?
    );
    Ok(())
}

fn limits(alloc: Global) -> Result<Limits, Fail> {
    let mut limits = Limits::with_fallback(alloc, 100);
    limits.set(b"small", 10)?;
    Ok(limits)
}

fn limit_of(alloc: Global, limits: &Limits, tenant: &str) -> Result<u64, Fail> {
    let tenant = Tenant::read(alloc, tenant.as_bytes())?;
    Ok(limits.of(&tenant))
}

fn has_limit(alloc: Global, tenant: &str, limit: u64) -> Result<bool, Fail> {
    let limits = limits(alloc)?;
    Ok(limit_of(alloc, &limits, tenant)? == limit)
}

fn has_usual_limit(alloc: Global) -> Result<bool, Fail> {
    let limits = Limits::usual(alloc);
    Ok(limit_of(alloc, &limits, "a")? == MAX_TOTAL)
}

#[test]
fn a_tenant_has_its_own_limit_or_that_of_all_others(rt: HostRuntime) -> Result<(), Fail> {
    let alloc = rt.alloc();
    assert!(rt; has_limit(alloc, "small", 10)?);
    assert!(rt; has_limit(alloc, "a", 100)?);
    assert!(rt; has_usual_limit(alloc)?);
    Ok(())
}

fn judged(alloc: Global, rows: &[(&str, u64, u64)]) -> Result<Judged, Fail> {
    let books = counted(alloc, &HISTORY)?;
    let limits = limits(alloc)?;
    let asks = asks(alloc, rows)?;
    Ok(judge(alloc, &books, &limits, 3, asks)?)
}

fn is_push(push: &Push, tenant: &str, total: u64) -> bool {
    push.tenant.as_bytes() == tenant.as_bytes() && push.total() == u128::from(total)
}

fn are_pushes(pushes: &[Push], rows: &[(&str, u64)]) -> bool {
    pushes.len() == rows.len()
        && pushes
            .iter()
            .zip(rows)
            .all(|(push, (tenant, total))| is_push(push, tenant, *total))
}

fn have_verdicts(
    alloc: Global,
    rows: &[(&str, u64, u64)],
    expected: &[Verdict],
    kept: &[(&str, u64)],
) -> Result<bool, Fail> {
    let judged = judged(alloc, rows)?;
    Ok(judged.verdicts.as_slice() == expected && are_pushes(&judged.kept, kept))
}

fn over(kept: u128, push: u128, limit: u64, front: u64) -> Verdict {
    Verdict::OverLimit {
        kept,
        push,
        limit,
        front,
    }
}

fn ahead(asked: u64, front: u64) -> Verdict {
    Verdict::FrontAhead { asked, front }
}

fn kept(place: u64, front: u64) -> Verdict {
    Verdict::Kept(Receipt::new(place, front))
}

#[test]
fn each_push_is_judged_after_those_kept_before_it(rt: HostRuntime) -> Result<(), Fail> {
    let alloc = rt.alloc();
    let first = [("a", 10, 2), ("a", 1, 3), ("a", 0, 4)];
    assert!(rt;
        have_verdicts(
            alloc,
            &first,
            &[kept(3, 3), over(100, 1, 100, 3), ahead(4, 3)],
            &[("a", 10)]
        )?
    );
    let second = [("small", 5, 0), ("b", 93, 1), ("small", 6, 1)];
    assert!(rt;
        have_verdicts(
            alloc,
            &second,
            &[kept(3, 1), kept(4, 2), over(5, 6, 10, 1)],
            &[("small", 5), ("b", 93)]
        )?
    );
    Ok(())
}

fn keeps_any(alloc: Global, rows: &[(&str, u64, u64)]) -> Result<bool, Fail> {
    let books = counted(alloc, &HISTORY)?;
    let limits = limits(alloc)?;
    let asks = asks(alloc, rows)?;
    Ok(would_keep(&books, &limits, &asks))
}

#[test]
fn whether_any_is_kept_is_told_before_they_are_judged(rt: HostRuntime) -> Result<(), Fail> {
    let alloc = rt.alloc();
    assert!(rt; !keeps_any(alloc, &[("a", 11, 2), ("b", 1, 2)])?);
    assert!(rt; keeps_any(alloc, &[("a", 11, 2), ("b", 1, 1)])?);
    Ok(())
}

fn is_told_by(place: u64, front: u64) -> bool {
    let receipt = Receipt::new(place, front);
    receipt.place() == place && receipt.front() == front
}

#[test]
fn a_receipt_tells_a_place_and_a_front(rt: HostRuntime) {
    assert!(rt; is_told_by(3, 2));
    assert!(rt; kept(3, 2).is_kept());
}
