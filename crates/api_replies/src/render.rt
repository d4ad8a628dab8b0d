// A render's answer over a history.
ghost use Rattle.std.specs.Prelude.{◌≡◌, ◌+◌, ◌^◌, ◌<◌, ◌≤◌, IfOk, OnOk};
ghost use Rattle.profile_model.specs.Sums.{total_of};
ghost use Rattle.profile_model.specs.Pushes.{profiles_total};
ghost use Rattle.push_history.specs.History.{sums_of_rows, tenant_total};
ghost use Rattle.api_replies.specs.Rendering.{is_wanted, wanted_samples, with_samples};
ghost use Rattle.api_replies.specs.Replies.{asked_rows, rendered};

use faults::Refused;
use folded_reader::write_folded;
use profile_model::{Profile, Push, StackSums};
use request_meaning::RenderAsk;
use std::alloc::{AllocError, Global};

/// What the profiles that are asked for come to, as folded text.
pub(crate) fn folded_text(
    alloc: Global,
    history: &[Push],
    ask: &mut RenderAsk,
) -> Result<Vec<u8>, AllocError>
    requires { tenant_total history.now ask.old.part.tenant < 2 ^ 63 }
    ensures ok { IfOk result (λ text. text.items ≡ rendered history.now ask.old) }
    ensures unchanged { ask.new ≡ ask.old }
{
    let sums = sums_of_history(alloc, history, ask)?;
    write_folded(alloc, &sums)
}

fn sums_of_history(
    alloc: Global,
    history: &[Push],
    ask: &mut RenderAsk,
) -> Result<StackSums, AllocError>
    requires { tenant_total history.now ask.old.part.tenant < 2 ^ 63 }
    ensures ok { IfOk result (λ sums. sums ≡ sums_of_rows (asked_rows history.now ask.old)) }
    ensures unchanged { ask.new ≡ ask.old }
{
    let mut sums = StackSums::new(alloc);
    for push in history {
        if push.tenant == ask.part.tenant {
            add_profiles(&mut sums, push.profiles.as_slice(), ask)?;
        }
    }
    Ok(sums)
}

fn add_profiles(
    sums: &mut StackSums,
    profiles: &[Profile],
    ask: &mut RenderAsk,
) -> Result<(), AllocError>
    requires { total_of sums.old + profiles_total profiles.now < 2 ^ 63 }
    ensures ok { OnOk result (sums.new ≡ with_samples sums.old (wanted_samples ask.old profiles.now)) }
    ensures total { OnOk result (total_of sums.new ≤ total_of sums.old + profiles_total profiles.now) }
    ensures unchanged { ask.new ≡ ask.old }
{
    for profile in profiles {
        if wants(ask, profile)? {
            add_values(sums, &profile.values)?;
        }
    }
    Ok(())
}

// Whether the profile stands in the window, has the query's type, and matches.
fn wants(ask: &mut RenderAsk, profile: &Profile) -> Result<bool, AllocError>
    ensures exact { IfOk result (λ answer. answer ≡ is_wanted ask.old profile.now) }
    ensures unchanged { ask.new ≡ ask.old }
{
    if ask.part.from_ms <= profile.time_ms
        && profile.time_ms <= ask.part.until_ms
        && profile.kind == ask.query.kind
    {
        ask.query.selector.matches(&profile.labels, &profile.kind)
    } else {
        Ok(false)
    }
}

fn add_values(sums: &mut StackSums, values: &StackSums) -> Result<(), AllocError>
    requires { total_of sums.old + total_of values.now < 2 ^ 63 }
    ensures ok { OnOk result (sums.new ≡ with_samples sums.old values.now) }
    ensures total { OnOk result (total_of sums.new ≡ total_of sums.old + total_of values.now) }
{
    for (stack, value) in values.iter() {
        match sums.add(stack.clone()?, *value) {
            Ok(()) => {}
            Err(Refused::Memory) => return Err(AllocError),
            // The sums stay within the tenant's total.
            Err(Refused::Fault(_)) => unreachable!(),
        }
    }
    Ok(())
}
