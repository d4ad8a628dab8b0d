// What becomes of pushes that ask to be kept: they are judged in order, each after those that were kept before it.
ghost use Rattle.std.specs.Prelude.{◌≡◌, ◌+◌, ◌^◌, ◌<◌, ◌≤◌, ◌++◌, ◌&&◌, [], List, ℕ, IfOk, IsTrue, OnOk, false, length, nat_le};
ghost use Rattle.std.specs.List.{list_any};
ghost use Rattle.profile_model.specs.declared.push.Push.{Push};
ghost use Rattle.profile_model.specs.Limits.{total_bound};
ghost use Rattle.profile_model.specs.Pushes.{profiles_total};
ghost use Rattle.push_history.specs.History.{HasBoundedTotals, front_of, tenant_total};
ghost use Rattle.tenant_books.specs.declared.verdict.Verdict.{Verdict};
ghost use Rattle.tenant_books.specs.Books.{AreBooksOf, standing_in};
ghost use Rattle.tenant_books.specs.Keeping.{is_kept, is_kept_alone, is_some_kept};
ghost use Rattle.tenant_books.specs.Limits.{limit_of};
ghost use Rattle.tenant_books.specs.Verdicts.{AreVerdicts, IsVerdict, kept_of, with_kept};

use crate::{Books, Limits, PushAsk, Receipt, Verdict};
use profile_model::{Push, Tenant};
use push_history::{Standing, standing};
use std::alloc::{AllocError, Global};

/// What became of pushes that asked to be kept.
#[derive(Debug, Drop)]
pub struct Judged {
    /// One for each, in their order.
    pub verdicts: Vec<Verdict>,
    /// Those that are kept, in their order.
    pub kept: Vec<Push>,
}

/// Judges pushes against the books of a history of `end` pushes, each after those kept before it. The books stay as they
/// are: whoever keeps the pushes has the books take them. Where memory runs out, the pushes are gone.
pub fn judge(
    alloc: Global,
    books: &Books,
    limits: &Limits,
    end: u64,
    asks: Vec<PushAsk>,
) -> Result<Judged, AllocError>
    ensures verdicts { IfOk result (λ judged. (history : List Push) → AreBooksOf books.now history → HasBoundedTotals history
        → length history ≡ end → end + length judged.kept.items < 2 ^ 63
        → AreVerdicts (limit_of limits.now) history asks.items judged.verdicts.items (history ++ judged.kept.items)) }
    ensures bounded { IfOk result (λ judged. (history : List Push) → AreBooksOf books.now history → HasBoundedTotals history
        → length history ≡ end → end + length judged.kept.items < 2 ^ 63
        → HasBoundedTotals (history ++ judged.kept.items)) }
    ensures one { (history : List Push) → (others : List Verdict) → (last : List Push) → AreBooksOf books.now history → HasBoundedTotals history
        → length history ≡ end → AreVerdicts (limit_of limits.now) history asks.items others last → length last < 2 ^ 63
        → IfOk result (λ judged. (judged.verdicts.items ≡ others) × (history ++ judged.kept.items ≡ last)) }
    ensures few { IfOk result (λ judged. length judged.kept.items ≤ length asks.items) }
    ensures kept { IfOk result (λ judged. judged.kept.items ≡ kept_of asks.items judged.verdicts.items) }
    ensures many { IfOk result (λ judged. length judged.verdicts.items ≡ length asks.items) }
    ensures none { list_any (is_kept_alone books.now limits.now) asks.items ≡ false → IfOk result (λ judged. judged.kept.items ≡ []) }
{
    let mut verdicts = Vec::new(alloc);
    let mut kept = Vec::new(alloc);
    for ask in asks {
        let verdict = verdict_after(books, limits, end, &kept, &ask);
        keep(&mut kept, ask, &verdict)?;
        verdicts.push(verdict)?;
    }
    Ok(Judged { verdicts, kept })
}

fn keep(kept: &mut Vec<Push>, ask: PushAsk, verdict: &Verdict) -> Result<(), AllocError>
    ensures { OnOk result (kept.new.items ≡ with_kept kept.old.items ask.push verdict.now) }
{
    if verdict.is_kept() {
        kept.push(ask.push)?;
    }
    Ok(())
}

/// Whether judging keeps any of the pushes. It takes no memory.
pub fn would_keep(books: &Books, limits: &Limits, asks: &[PushAsk]) -> bool
    ensures told { (history : List Push) → (verdicts : List Verdict) → (last : List Push) → AreBooksOf books.now history
        → AreVerdicts (limit_of limits.now) history asks.now verdicts last → result ≡ is_some_kept verdicts }
    ensures alone { result ≡ list_any (is_kept_alone books.now limits.now) asks.now }
{
    // The first that is kept has none before it that is, so the books alone tell.
    is_any_kept_alone(books, limits, asks)
}

fn is_any_kept_alone(books: &Books, limits: &Limits, asks: &[PushAsk]) -> bool
    ensures { result ≡ list_any (is_kept_alone books.now limits.now) asks.now }
{
    asks.iter().any(|ask| is_kept_alone(books, limits, ask))
}

fn is_kept_alone(books: &Books, limits: &Limits, ask: &PushAsk) -> bool
    ensures { result ≡ is_kept_alone books.now limits.now ask.now }
{
    let tenant = &ask.push.tenant;
    let standing = books.standing(tenant);
    let limit = u128::from(limits.of(tenant));
    ask.asked <= standing.front && standing.total.saturating_add(ask.push.total()) <= limit
}

// The verdict of a push that asks after those that were kept.
fn verdict_after(books: &Books, limits: &Limits, end: u64, kept: &[Push], ask: &PushAsk) -> Verdict
    requires { HasBoundedTotals kept.now }
    ensures verdict { (history : List Push) → AreBooksOf books.now history → HasBoundedTotals history
        → length history ≡ end → end + length kept.now < 2 ^ 63
        → IsVerdict (limit_of limits.now) (history ++ kept.now) ask.now result }
    ensures within { IsTrue (is_kept result) → tenant_total kept.now ask.now.push.tenant + profiles_total ask.now.push.profiles < total_bound }
    ensures limit { limit_of limits.now ask.now.push.tenant < total_bound }
    ensures alone { kept.now ≡ [] → is_kept result ≡ is_kept_alone books.now limits.now ask.now }
{
    let tenant = &ask.push.tenant;
    let standing = standing_after(books, kept, tenant);
    let place = end.saturating_add(kept.len() as u64);
    verdict_of(standing, limits.of(tenant), place, ask)
}

// Where a tenant stands after pushes that were kept.
fn standing_after(books: &Books, kept: &[Push], tenant: &Tenant) -> Standing
    requires { HasBoundedTotals kept.now }
    ensures front { (history : List Push) → AreBooksOf books.now history → length history + length kept.now < 2 ^ 63
        → result.front ≡ front_of (history ++ kept.now) tenant.now }
    ensures few { (history : List Push) → AreBooksOf books.now history → length history + length kept.now < 2 ^ 63 → result.front < 2 ^ 63 }
    ensures total { (history : List Push) → AreBooksOf books.now history → HasBoundedTotals history
        → result.total ≡ tenant_total (history ++ kept.now) tenant.now }
    ensures least { tenant_total kept.now tenant.now ≤ result.total }
    ensures alone { kept.now ≡ [] → result ≡ standing_in books.now tenant.now }
{
    let before = books.standing(tenant);
    let since = standing(kept, tenant);
    Standing {
        front: before.front.saturating_add(since.front),
        total: before.total.saturating_add(since.total),
    }
}

// The verdict of a push that asks where its tenant stands so.
fn verdict_of(standing: Standing, limit: u64, place: u64, ask: &PushAsk) -> Verdict
    ensures verdict { (limits : List ℕ → ℕ) → (history : List Push) → standing.front ≡ front_of history ask.now.push.tenant
        → standing.front < 2 ^ 63 → standing.total ≡ tenant_total history ask.now.push.tenant → place ≡ length history
        → limit ≡ limits ask.now.push.tenant → IsVerdict limits history ask.now result }
    ensures within { IsTrue (is_kept result) → standing.total + profiles_total ask.now.push.profiles ≤ limit }
    ensures alone { is_kept result ≡ (nat_le ask.now.asked standing.front && nat_le (standing.total + profiles_total ask.now.push.profiles) limit) }
{
    let Standing { front, total } = standing;
    if front < ask.asked {
        let asked = ask.asked;
        return Verdict::FrontAhead { asked, front };
    }
    let push = ask.push.total();
    if total.saturating_add(push) > u128::from(limit) {
        return Verdict::OverLimit {
            kept: total,
            push,
            limit,
            front,
        };
    }
    Verdict::Kept(Receipt::new(place, front.saturating_add(1)))
}
