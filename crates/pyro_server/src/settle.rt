// A push joins the history, or is refused.
ghost use Rattle.push_history.specs.History.{HasBoundedTotals};
ghost use Rattle.std.specs.Prelude.{◌-◌, ◌^◌};
ghost use Rattle.pyro_server.specs.Settled.{IsSettledOrNot};

use api_replies::Verdict;
use profile_model::{MAX_TOTAL, Push};
use push_history::standing;
use tenant_books::PushAsk;

/// Keeps the push at the history's end, where its tenant has the pushes that it asks for, its total allows it and there is
/// memory.
pub(crate) fn settle(history: &mut Vec<Push>, ask: PushAsk) -> Verdict
    requires { HasBoundedTotals history.old.items }
    ensures bounded { HasBoundedTotals history.new.items }
    ensures settled { IsSettledOrNot (2 ^ 63 - 1) history.old.items ask.push ask.asked result history.new.items }
{
    let PushAsk { push, asked } = ask;
    let before = standing(history, &push.tenant);
    if before.front < asked {
        return Verdict::FrontAhead {
            asked,
            front: before.front,
        };
    }
    let adds = push.total();
    if before.total + adds > u128::from(MAX_TOTAL) {
        return Verdict::OverLimit {
            kept: before.total,
            push: adds,
            limit: MAX_TOTAL,
            front: before.front,
        };
    }
    match history.push(push) {
        Ok(()) => Verdict::Kept(before.front + 1),
        Err(_) => Verdict::Memory,
    }
}
