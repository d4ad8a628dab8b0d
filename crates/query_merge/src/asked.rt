// Which profiles a query asks for.
ghost use Rattle.std.specs.Prelude.{◌≡◌, IfOk};
ghost use Rattle.selector.specs.Matching.{matches};
ghost use Rattle.query_merge.specs.Asked.{is_asked};

use profile_model::{LabelSet, Profile};
use selector::Query;
use std::alloc::{AllocError, Global};
use std::collections::BTreeMap;
use std::marker::Model;

// A query, and what it said of label sets: profiles of one series come again and again, and it is judged once.
#[derive(Drop)]
pub(crate) struct Asked {
    alloc: Global,
    query: Query,
    verdicts: BTreeMap<LabelSet, bool>,
}

impl Model for Asked {
    ghost use Rattle.query_merge.specs.Merging.{AreVerdicts};
    ghost use Rattle.selector.specs.declared.query.Query.{Query};

    ghost Value = { Query };

    ghost view = { λ a. a.query };

    ghost invariant = { λ a. AreVerdicts a.query a.verdicts };
}

impl Asked {
    pub(crate) fn new(alloc: Global, query: Query) -> Asked
        ensures { result ≡ query }
    {
        Asked {
            alloc,
            query,
            verdicts: BTreeMap::new(alloc),
        }
    }

    pub(crate) fn asks(&mut self, profile: &Profile) -> Result<bool, AllocError>
        ensures exact { IfOk result (λ asked. asked ≡ is_asked self.old profile.now) }
        ensures unchanged { self.new ≡ self.old }
    {
        if profile.kind == self.query.kind {
            self.verdict(&profile.labels)
        } else {
            Ok(false)
        }
    }

    // Whether a profile of the query's type with these labels matches.
    fn verdict(&mut self, labels: &LabelSet) -> Result<bool, AllocError>
        ensures exact { IfOk result (λ matched. matched ≡ matches self.old.selector labels.now self.old.kind) }
        ensures unchanged { self.new ≡ self.old }
    {
        if let Some(verdict) = self.verdicts.get(labels) {
            return Ok(*verdict);
        }
        let verdict = self.query.selector.matches(labels, &self.query.kind)?;
        self.verdicts.insert(labels.clone()?, verdict)?;
        Ok(verdict)
    }
}
