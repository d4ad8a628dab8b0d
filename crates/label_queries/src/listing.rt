// What is listed of label sets.
ghost use Rattle.std.specs.Prelude.{◌≡◌, IfOk, OnOk, fold, map};
ghost use Rattle.std.specs.BTreeSet.{insert_key};
ghost use Rattle.std.specs.Map.{keys_of};
ghost use Rattle.profile_model.specs.Stacks.{name_cmp};
ghost use Rattle.label_queries.specs.Labels.{cut_to, is_kept, label_names_of, label_values_of, series_of};
ghost use Rattle.label_queries.specs.Ordered.{ascending};

use profile_model::{LabelSet, Name};
use std::alloc::{AllocError, Global};
use std::collections::BTreeSet;

pub(crate) fn names_in(alloc: Global, sets: &BTreeSet<LabelSet>) -> Result<Vec<Name>, AllocError>
    ensures { IfOk result (λ names. names.items ≡ label_names_of sets.now.keys) }
{
    let mut names = BTreeSet::new(alloc);
    for set in sets {
        add_names(&mut names, set.pairs())?;
    }
    names.into_iter().collect(alloc)
}

fn add_names(names: &mut BTreeSet<Name>, labels: &[(Name, Name)]) -> Result<(), AllocError>
    ensures { OnOk result (names.new.keys ≡ fold (insert_key name_cmp) names.old.keys (keys_of labels.now)) }
{
    for (name, _) in labels {
        names.insert(name.clone()?)?;
    }
    Ok(())
}

pub(crate) fn values_in(
    alloc: Global,
    sets: &BTreeSet<LabelSet>,
    name: &str,
) -> Result<Vec<Name>, AllocError>
    ensures { IfOk result (λ values. values.items ≡ label_values_of name.now sets.now.keys) }
{
    let mut values = BTreeSet::new(alloc);
    for set in sets {
        if let Some(value) = set.get(name.as_bytes()) {
            values.insert(value.clone()?)?;
        }
    }
    values.into_iter().collect(alloc)
}

pub(crate) fn series_in(
    alloc: Global,
    sets: &BTreeSet<LabelSet>,
    names: &[&str],
) -> Result<Vec<Vec<(Name, Name)>>, AllocError>
    ensures { IfOk result (λ series. map (λ set. set.items) series.items
        ≡ series_of (map (λ name. name.now) names.now) sets.now.keys) }
{
    let wanted = in_order(alloc, names)?;
    let mut series = BTreeSet::new(alloc);
    for set in sets {
        series.insert(cut_to(alloc, set.pairs(), &wanted)?)?;
    }
    series.into_iter().collect(alloc)
}

// Names are looked up for every label of every set, so they are put in order once.
fn in_order<'n>(alloc: Global, names: &[&'n str]) -> Result<BTreeSet<&'n str>, AllocError>
    ensures { IfOk result (λ ordered. map (λ name. name.now) ordered.keys
        ≡ ascending name_cmp (map (λ name. name.now) names.now)) }
{
    let mut ordered = BTreeSet::new(alloc);
    for name in names {
        ordered.insert(*name)?;
    }
    Ok(ordered)
}

// The labels with these names, or all where there are no names.
fn cut_to(
    alloc: Global,
    labels: &[(Name, Name)],
    names: &BTreeSet<&str>,
) -> Result<Vec<(Name, Name)>, AllocError>
    ensures { IfOk result (λ kept. kept.items ≡ cut_to (map (λ name. name.now) names.now.keys) labels.now) }
{
    let mut kept = Vec::new(alloc);
    for (name, value) in labels {
        if is_kept(names, name) {
            kept.push((name.clone()?, value.clone()?))?;
        }
    }
    Ok(kept)
}

fn is_kept(names: &BTreeSet<&str>, name: &Name) -> bool
    ensures { result ≡ is_kept (map (λ other. other.now) names.now.keys) name.now }
{
    names.is_empty() || names.contains(name.as_str())
}
