// A selector's matchers, with their patterns built.
ghost use Rattle.std.specs.Prelude.{◌≡◌, ◌≢◌, ◌≤◌, ℕ, Bool, List, IfOk, MatchOption, MatchResult, map, length, string_bytes, true};
ghost use Rattle.std.specs.Arc.{arc_value};
ghost use Rattle.std.specs.List.{list_all};
ghost use Rattle.faults.specs.Answers.{IfFault, IsMapped};
ghost use Rattle.selector.specs.Matching.{passes, holds, seen_labels, value_of};
ghost use Rattle.selector.specs.Matchers.{matching_of};
ghost use Rattle.selector.specs.Tests.{operator_of, asked_of};
ghost use Rattle.selector.specs.Read.{AreBuilt, AreShort, ForPattern, ForPatterns, OfPattern};
ghost use Rattle.selector.specs.Patterns.{IsWellFormed};
ghost use Rattle.selector.specs.Building.{IsNew, IsUnbuilt, IsBuildFault};
ghost use Rattle.selector.specs.Limits.{most_matchers};
ghost use Rattle.selector.specs.Placed.{fault_of_matcher};
ghost use Rattle.selector.specs.Rests as rests;

use crate::budget::{MAX_PATTERN_BYTES, left_of};
use crate::judge::Judge;
use crate::pattern::{Pattern, PatternFault};
use crate::written::Written;
use crate::{Operator, SelectorFault};
use faults::Refused;
use profile_model::{LabelSet, Name, ProfileType};
use std::alloc::{AllocError, Global};
use std::sync::Arc;

/// The most matchers of a selector.
pub const MAX_MATCHERS: usize = 16;

/// The label by which matchers see the name of a profile's type.
pub const NAME_LABEL: &str = "__name__";

/// The label by which matchers see the text of a profile's type.
pub const TYPE_LABEL: &str = "__profile_type__";

// What is asked of the value of the label with this name.
#[derive(Drop)]
pub(crate) struct Matcher {
    name: String,
    judge: Judge,
}

// An operator, with what it compares with. Matchers with the same pattern share it.
#[derive(Drop)]
pub(crate) enum Test {
    Equal(String),
    NotEqual(String),
    Finds(Arc<Pattern>),
    FindsNot(Arc<Pattern>),
}

impl Test {
    fn build(
        alloc: Global,
        before: &[Matcher],
        operator: Operator,
        asked: String,
    ) -> Result<Test, Refused<PatternFault>>
        requires formed { ForPatterns IsWellFormed (map matching_of before.now) }
        ensures { MatchResult result
            (λ test. (operator_of test ≡ operator) × (asked_of test ≡ string_bytes asked) × ForPattern IsWellFormed operator (string_bytes asked))
            (IfFault (IsUnbuilt (map matching_of before.now) operator (string_bytes asked))) }
    {
        match operator {
            Operator::Equal => Ok(Test::Equal(asked)),
            Operator::NotEqual => Ok(Test::NotEqual(asked)),
            Operator::Finds => Ok(Test::Finds(shared_pattern(alloc, before, asked)?)),
            Operator::FindsNot => Ok(Test::FindsNot(shared_pattern(alloc, before, asked)?)),
        }
    }

    // Its pattern, where this is the pattern's text.
    fn pattern_of(&self, text: &str) -> Option<&Arc<Pattern>>
        ensures { MatchOption result
            (ForPattern (λ other. other ≢ text.now) (operator_of self.now) (asked_of self.now))
            (λ pattern. OfPattern (λ other. other ≡ text.now) (operator_of self.now) (asked_of self.now) × (string_bytes (arc_value pattern.now).text ≡ text.now)) }
    {
        match self {
            Test::Finds(pattern) | Test::FindsNot(pattern) if pattern.text() == text => Some(
                pattern,
            ),
            _ => None,
        }
    }

    pub(crate) fn has_pattern(&self) -> bool {
        matches!(self, Test::Finds(_) | Test::FindsNot(_))
    }

    pub(crate) fn passes(&self, alloc: Global, value: &str) -> Result<bool, AllocError>
        ensures { IfOk result (λ answer. answer ≡ passes (operator_of self.now) (asked_of self.now) value.now) }
    {
        match self {
            Test::Equal(text) => Ok(value == text.as_str()),
            Test::NotEqual(text) => Ok(value != text.as_str()),
            Test::Finds(pattern) => pattern.is_found(alloc, value),
            Test::FindsNot(pattern) => Ok(!pattern.is_found(alloc, value)?),
        }
    }
}

impl Matcher {
    fn build(
        alloc: Global,
        before: &[Matcher],
        written: Written<'_>,
    ) -> Result<Matcher, Refused<PatternFault>>
        requires formed { ForPatterns IsWellFormed (map matching_of before.now) }
        ensures { MatchResult result
            (λ matcher. (matching_of matcher ≡ rests.matching_of written.entry) × ForPattern IsWellFormed written.entry.operator (string_bytes written.entry.value))
            (IfFault (IsUnbuilt (map matching_of before.now) written.entry.operator (string_bytes written.entry.value))) }
    {
        let test = Test::build(alloc, before, written.operator, written.value)?;
        let name = String::from_str(alloc, written.name)?;
        Ok(Matcher {
            name,
            judge: Judge::new(alloc, test),
        })
    }

    pub(crate) fn holds(
        &mut self,
        alloc: Global,
        labels: &LabelSet,
        kind: &ProfileType,
    ) -> Result<bool, AllocError>
        ensures exact { IfOk result (λ answer. answer ≡ holds (seen_labels labels.now kind.now) (matching_of self.old)) }
        ensures unchanged { matching_of self.new ≡ matching_of self.old }
    {
        let value = seen_value(alloc, self.name.as_str(), labels, kind)?;
        self.judge.passes(alloc, &value)
    }
}

pub(crate) fn all_hold(
    alloc: Global,
    matchers: &mut [Matcher],
    labels: &LabelSet,
    kind: &ProfileType,
) -> Result<bool, AllocError>
    ensures exact { IfOk result (λ answer. answer ≡ list_all (holds (seen_labels labels.now kind.now)) (map matching_of matchers.old)) }
    ensures unchanged { map matching_of matchers.new ≡ map matching_of matchers.old }
{
    for matcher in matchers.iter_mut() {
        if !matcher.holds(alloc, labels, kind)? {
            return Ok(false);
        }
    }
    Ok(true)
}

// The value that matchers see of the label with this name.
fn seen_value(
    alloc: Global,
    name: &str,
    labels: &LabelSet,
    kind: &ProfileType,
) -> Result<Name, AllocError>
    ensures { IfOk result (λ value. value ≡ value_of (seen_labels labels.now kind.now) name.now) }
{
    if name == TYPE_LABEL {
        let text = kind.to_string(alloc)?;
        return Name::from_text(alloc, text.as_str());
    }
    if name == NAME_LABEL {
        return kind.name.clone();
    }
    match labels.get(name.as_bytes()) {
        Some(value) => value.clone(),
        None => Name::from_text(alloc, ""),
    }
}

// The pattern with this text: that of a matcher before, where one has it.
fn shared_pattern(
    alloc: Global,
    before: &[Matcher],
    text: String,
) -> Result<Arc<Pattern>, Refused<PatternFault>>
    requires formed { ForPatterns IsWellFormed (map matching_of before.now) }
    ensures { MatchResult result
        (λ pattern. (string_bytes (arc_value pattern).text ≡ string_bytes text) × IsWellFormed (string_bytes text))
        (IfFault (IsUnbuilt (map matching_of before.now) Operator.Finds (string_bytes text))) }
{
    match find_pattern(before, text.as_str()) {
        Some(pattern) => Ok(pattern.clone()?),
        None => Ok(Arc::new(alloc, Pattern::build(alloc, text)?)?),
    }
}

fn find_pattern<'a>(matchers: &'a [Matcher], text: &str) -> Option<&'a Arc<Pattern>>
    requires formed { ForPatterns IsWellFormed (map matching_of matchers.now) }
    ensures { MatchOption result
        (IsNew (map matching_of matchers.now) text.now)
        (λ pattern. (string_bytes (arc_value pattern.now).text ≡ text.now) × IsWellFormed text.now) }
{
    for matcher in matchers {
        if let Some(pattern) = matcher.judge.test().pattern_of(text) {
            return Some(pattern);
        }
    }
    None
}

// The matchers that were written, with their patterns built in order.
pub(crate) fn build_all(
    alloc: Global,
    written: Vec<Written<'_>>,
) -> Result<Vec<Matcher>, Refused<SelectorFault>>
    ensures { MatchResult result
        (λ matchers. (map matching_of matchers.items ≡ map rests.matching_of written.entry.items) × (length written.entry.items ≤ most_matchers) × AreShort (map rests.matching_of written.entry.items) × AreBuilt (λ _. true) (map rests.matching_of written.entry.items))
        (IfFault (λ fault. (built : List ℕ → Bool) × IsBuildFault built (map rests.matching_of written.entry.items) fault)) }
{
    if written.len() > MAX_MATCHERS {
        return Err(Refused::Fault(SelectorFault::TooMany));
    }
    if left_of(&written, MAX_PATTERN_BYTES).is_none() {
        return Err(Refused::Memory);
    }
    let mut matchers = Vec::new(alloc);
    for matcher in written {
        let number = matchers.len();
        match Matcher::build(alloc, &matchers, matcher) {
            Ok(matcher) => matchers.push(matcher)?,
            Err(refused) => return Err(of_matcher(number, refused)),
        }
    }
    Ok(matchers)
}

// Why a selector isn't read, where the pattern of the matcher with this number isn't built.
fn of_matcher(number: usize, refused: Refused<PatternFault>) -> Refused<SelectorFault>
    ensures { IsMapped (λ fault told. told ≡ fault_of_matcher number fault) refused result }
{
    refused.map(|fault| fault.of_matcher(number))
}
