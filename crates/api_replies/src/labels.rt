// The answer to a query for labels over a history.
ghost use Rattle.std.specs.Prelude.{◌≡◌, IfOk, OnOk, map};
ghost use Rattle.push_history.specs.History.{front_of, rows_of};
ghost use Rattle.label_queries.specs.Labels.{label_sets_of};
ghost use Rattle.api_replies.specs.Listing.{with_rows};
ghost use Rattle.api_replies.specs.Replies.{asked_sets, listed};

use label_queries::{LabelSets, names_text, series_text};
use profile_model::{Name, PartAsk, Profile, Push};
use request_meaning::{LabelAsk, LabelQuery};
use selector::Selector;
use std::alloc::{AllocError, Global};

/// The labels that are asked for, as JSON.
pub(crate) fn listed_text(
    alloc: Global,
    history: &[Push],
    ask: LabelAsk,
) -> Result<Vec<u8>, AllocError>
    ensures { IfOk result (λ text. text.items ≡ listed ask.query (asked_sets history.now ask)) }
{
    let LabelAsk {
        part,
        query,
        selectors,
    } = ask;
    let sets = sets_of_history(alloc, history, &part, selectors)?;
    match query {
        LabelQuery::Names => names_text(alloc, &sets.names()?),
        LabelQuery::Values(name) => names_text(alloc, &sets.values(name.as_str())?),
        LabelQuery::Series(names) => series_text(alloc, &sets.series(&texts_of(alloc, &names)?)?),
    }
}

// The label sets of the tenant's profiles in the window that match.
fn sets_of_history(
    alloc: Global,
    history: &[Push],
    part: &PartAsk,
    selectors: Vec<Selector>,
) -> Result<LabelSets, AllocError>
    ensures { IfOk result (λ gathered. gathered.sets
        ≡ label_sets_of selectors.items (rows_of history.now part.now.tenant (front_of history.now part.now.tenant) part.now.from_ms part.now.until_ms)) }
{
    let mut sets = LabelSets::new(alloc, selectors);
    for push in history {
        if push.tenant == part.tenant {
            add_rows(&mut sets, push.profiles.as_slice(), part)?;
        }
    }
    Ok(sets)
}

// Adds the profiles in the window.
fn add_rows(sets: &mut LabelSets, profiles: &[Profile], part: &PartAsk) -> Result<(), AllocError>
    ensures { OnOk result (sets.new ≡ with_rows sets.old profiles.now part.now.from_ms part.now.until_ms) }
{
    for profile in profiles {
        if part.from_ms <= profile.time_ms && profile.time_ms <= part.until_ms {
            sets.add(profile)?;
        }
    }
    Ok(())
}

fn texts_of<'n>(alloc: Global, names: &'n [Name]) -> Result<Vec<&'n str>, AllocError>
    ensures { IfOk result (λ texts. map (λ text. text.now) texts.items ≡ names.now) }
{
    let mut texts = Vec::with_capacity(alloc, names.len())?;
    for name in names {
        texts.push(name.as_str())?;
    }
    Ok(texts)
}
