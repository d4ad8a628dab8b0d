// A test, and what it said of values so far.
ghost use Rattle.std.specs.Prelude.{◌≡◌, IfOk};
ghost use Rattle.selector.specs.Matching.{passes};
ghost use Rattle.selector.specs.Tests.{AreVerdicts, operator_of, asked_of};

use crate::matchers::Test;
use profile_model::Name;
use std::alloc::{AllocError, Global};
use std::collections::BTreeMap;

/// The most values of which the verdict is kept.
const MAX_VERDICTS: usize = 256;

// A pattern's verdict takes a search, and the same few values come again and again.
#[derive(Drop)]
pub(crate) struct Judge {
    test: Test,
    verdicts: BTreeMap<Name, bool>,
    ghost right: { AreVerdicts test verdicts },
}

impl Judge {
    pub(crate) fn new(alloc: Global, test: Test) -> Judge
        ensures { result.test ≡ test }
    {
        Judge {
            test,
            verdicts: BTreeMap::new(alloc),
        }
    }

    pub(crate) fn test(&self) -> &Test
        ensures { result.now ≡ self.now.test }
    {
        &self.test
    }

    pub(crate) fn passes(&mut self, alloc: Global, value: &Name) -> Result<bool, AllocError>
        ensures exact { IfOk result (λ answer. answer ≡ passes (operator_of self.old.test) (asked_of self.old.test) value.now) }
        ensures unchanged { self.new.test ≡ self.old.test }
    {
        if let Some(verdict) = self.verdicts.get(value) {
            return Ok(*verdict);
        }
        let verdict = self.test.passes(alloc, value.as_str())?;
        if self.test.has_pattern() && self.verdicts.len() < MAX_VERDICTS {
            self.verdicts.insert(value.clone()?, verdict)?;
        }
        Ok(verdict)
    }
}
