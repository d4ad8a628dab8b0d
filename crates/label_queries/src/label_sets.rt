// The label sets of the profiles that are asked for.
ghost use Rattle.std.specs.Prelude.{◌≡◌, [], IfOk, IsTrue, OnErr, OnOk, map};
ghost use Rattle.std.specs.BTreeSet.{insert_key};
ghost use Rattle.std.specs.List.{list_any};
ghost use Rattle.profile_model.specs.LabelOrder.{labels_cmp};
ghost use Rattle.selector.specs.Matching.{matches};
ghost use Rattle.label_queries.specs.Labels.{is_asked, label_names_of, label_values_of, series_of};

use crate::listing::{names_in, series_in, values_in};
use crate::shown::shown_labels;
use profile_model::{LabelSet, Name, Profile};
use selector::Selector;
use std::alloc::{AllocError, Global};
use std::collections::BTreeSet;
use std::marker::Model;

/// Selectors, and the distinct label sets of the profiles that any of them matches; of all profiles where there are
/// no selectors. A set has the two labels that tell the profile's type.
#[derive(Drop)]
pub struct LabelSets {
    alloc: Global,
    selectors: Vec<Selector>,
    sets: BTreeSet<LabelSet>,
}

impl Model for LabelSets {
    ghost use Rattle.label_queries.specs.Gathered.{Gathered};

    ghost Value = { Gathered };

    ghost view = { λ l. record { selectors = l.selectors.items; sets = l.sets.keys } };
}

impl LabelSets {
    ghost use Rattle.label_queries.specs.Gathered.{with_profile};

    /// No profile has come. It takes no memory.
    pub fn new(alloc: Global, selectors: Vec<Selector>) -> LabelSets
        ensures { result ≡ record { selectors = selectors.items; sets = [] } }
    {
        LabelSets {
            alloc,
            selectors,
            sets: BTreeSet::new(alloc),
        }
    }

    /// Adds the profile's label set, if the profile is asked for. Want of memory leaves the sets as they were.
    pub fn add(&mut self, profile: &Profile) -> Result<(), AllocError>
        ensures ok { OnOk result (self.new ≡ with_profile self.old profile.now) }
        ensures err { OnErr result (self.new ≡ self.old) }
    {
        let set = shown_labels(self.alloc, profile)?;
        // The profiles of one series come again and again: where the set is there, selectors aren't judged again.
        if !is_there(&self.sets, &set) && is_asked(&mut self.selectors, profile)? {
            self.sets.insert(set)?;
        }
        Ok(())
    }

    /// The sets.
    pub fn sets(&self) -> &BTreeSet<LabelSet>
        ensures { result.now.keys ≡ self.now.sets }
    {
        &self.sets
    }

    /// Takes these as the sets, which were copied before profiles were added.
    pub fn put_back(&mut self, sets: BTreeSet<LabelSet>)
        ensures selectors { self.new.selectors ≡ self.old.selectors }
        ensures sets { self.new.sets ≡ sets.keys }
    {
        self.sets = sets;
    }

    /// The sets, ascending, none twice.
    pub fn list(self) -> Result<Vec<LabelSet>, AllocError>
        ensures { IfOk result (λ sets. sets.items ≡ self.sets) }
    {
        self.sets.into_iter().collect(self.alloc)
    }

    /// The names of labels that any set has, ascending.
    pub fn names(&self) -> Result<Vec<Name>, AllocError>
        ensures { IfOk result (λ names. names.items ≡ label_names_of self.now.sets) }
    {
        names_in(self.alloc, &self.sets)
    }

    /// The values of a label in the sets that have it, ascending.
    pub fn values(&self, name: &str) -> Result<Vec<Name>, AllocError>
        ensures { IfOk result (λ values. values.items ≡ label_values_of name.now self.now.sets) }
    {
        values_in(self.alloc, &self.sets, name)
    }

    /// The sets cut to these names, ascending; whole sets where there are no names.
    pub fn series(&self, names: &[&str]) -> Result<Vec<Vec<(Name, Name)>>, AllocError>
        ensures { IfOk result (λ series. map (λ set. set.items) series.items
            ≡ series_of (map (λ name. name.now) names.now) self.now.sets) }
    {
        series_in(self.alloc, &self.sets, names)
    }
}

// Whether the set is one of these, so that it isn't put in again.
fn is_there(sets: &BTreeSet<LabelSet>, set: &LabelSet) -> bool
    ensures { IsTrue result → insert_key labels_cmp sets.now.keys set.now ≡ sets.now.keys }
{
    sets.len() > 0 && sets.contains(set)
}

/// Whether any of the selectors matches the profile, or there are none.
pub fn is_asked(selectors: &mut Vec<Selector>, profile: &Profile) -> Result<bool, AllocError>
    ensures exact { IfOk result (λ asked. asked ≡ is_asked selectors.old.items profile.now) }
    ensures unchanged { selectors.new.items ≡ selectors.old.items }
{
    if selectors.is_empty() {
        Ok(true)
    } else {
        any_matches(selectors, profile)
    }
}

fn any_matches(selectors: &mut [Selector], profile: &Profile) -> Result<bool, AllocError>
    ensures exact { IfOk result (λ matched. matched ≡ list_any
        (λ selector. matches selector profile.now.labels profile.now.kind) selectors.old) }
    ensures unchanged { selectors.new ≡ selectors.old }
{
    for selector in selectors.iter_mut() {
        if selector.matches(&profile.labels, &profile.kind)? {
            return Ok(true);
        }
    }
    Ok(false)
}
