// Which labels are asked for.
ghost use Rattle.std.specs.Prelude.{◌≡◌, ◌≤◌, ℕ, Bool, List, IfOk, MatchResult, map, length, true};
ghost use Rattle.faults.specs.Answers.{IfAnswered, IfFault};
ghost use Rattle.selector.specs.Grammar.{IsSelectorText};
ghost use Rattle.selector.specs.Matching.{Matching, matches};
ghost use Rattle.selector.specs.Limits.{most_matchers};
ghost use Rattle.selector.specs.Building.{IsBuildFault};
ghost use Rattle.selector.specs.Rests.{AtSelector, IsReadFault, matching_of};

use crate::SelectorFault;
use crate::inside::read_inside;
use crate::matchers::{Matcher, all_hold, build_all};
use crate::tokens::{skip_space, strip};
use crate::written::{ReadFault, Written, placed};
use faults::Refused;
use profile_model::{LabelSet, ProfileType};
use std::alloc::{AllocError, Global};
use std::marker::Model;

/// Matchers that all have to hold. Their patterns are built when the selector is read.
#[derive(Drop)]
pub struct Selector {
    alloc: Global,
    matchers: Vec<Matcher>,
}

impl Model for Selector {
    ghost use Rattle.std.specs.Prelude.{List, map};
    ghost use Rattle.selector.specs.Matching.{Matching};
    ghost use Rattle.selector.specs.Matchers.{matching_of};

    ghost Value = { List Matching };

    ghost view = { λ s. map matching_of s.matchers.items };
}

impl Selector {
    ghost use Rattle.selector.specs.Read.{IsReadSelector, AreShort, AreBuilt};

    /// The selector of a text such as `{service_name="shop",env=~"prod.*"}`. The empty text is `{}`.
    pub fn read(alloc: Global, text: &str) -> Result<Selector, Refused<SelectorFault>>
        ensures read { IfAnswered (IsReadSelector text.now) result }
    {
        match read_selector(alloc, text) {
            Ok(written) => Selector::build(alloc, written),
            Err(refused) => Err(placed(refused, text.len())),
        }
    }

    pub(crate) fn build(
        alloc: Global,
        written: Vec<Written<'_>>,
    ) -> Result<Selector, Refused<SelectorFault>>
        ensures { MatchResult result
            (λ selector. (selector ≡ map matching_of written.entry.items) × (length selector ≤ most_matchers) × AreShort selector × AreBuilt (λ _. true) selector)
            (IfFault (λ fault. (built : List ℕ → Bool) × IsBuildFault built (map matching_of written.entry.items) fault)) }
    {
        let matchers = build_all(alloc, written)?;
        Ok(Selector { alloc, matchers })
    }

    /// Whether every matcher holds for a profile with these labels and of this type.
    pub fn matches(&mut self, labels: &LabelSet, kind: &ProfileType) -> Result<bool, AllocError>
        ensures exact { IfOk result (λ answer. answer ≡ matches self.old labels.now kind.now) }
        ensures unchanged { self.new ≡ self.old }
    {
        all_hold(self.alloc, &mut self.matchers, labels, kind)
    }
}

// The matchers of a selector, as the text has them.
pub(crate) fn read_selector(
    alloc: Global,
    text: &str,
) -> Result<Vec<Written<'_>>, Refused<ReadFault>>
    ensures { MatchResult result
        (λ matchers. IsSelectorText text.now (map matching_of matchers.items))
        (IfFault (IsReadFault AtSelector text.now)) }
{
    if text.is_empty() {
        return Ok(Vec::new(alloc));
    }
    let start = skip_space(text);
    match strip(start, '{') {
        Some(inside) => read_inside(alloc, inside),
        None => Err(Refused::Fault(ReadFault::BreaksOff(start.len()))),
    }
}
