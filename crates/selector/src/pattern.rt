// The pattern of a matcher.
ghost use Rattle.std.specs.Prelude.{◌≡◌, ◌≢◌, MatchResult, IfOk, IfErr, OnOk, string_bytes};
ghost use Rattle.selector.specs.Patterns.{anchored, finds, IsReadable, IsUnreadable, IsWellFormed};
ghost use Rattle.selector.specs.Stored.{IsFoundAs, IsBuiltFrom, IsRefusalOf, IsRefused};
ghost use Rattle.selector.specs.Placed.{fault_of_matcher};
ghost use Rattle.faults.specs.Answers.{IfFault};
ghost use Rattle.regex.specs.Patterns.{default_config};
ghost use Rattle.regex.specs.Sources.{IsRefusal};
ghost use Rattle.regex.specs.Failures.{IsRightKind};
ghost use Rattle.regex.specs.declared.error.Error.TheVariants as Error;
ghost use Rattle.regex_syntax.specs.declared.error.ErrorKind.TheVariants as ErrorKind;

use crate::SelectorFault;
use faults::Refused;
use regex::{Regex, RegexBuilder};
use regex_syntax::{Config, ErrorKind};
use std::alloc::{AllocError, Global};

/// The most bytes of the tables that are built of a pattern. With what stands beside them a pattern just below it takes
/// two to three times as much memory, and one to thirteen milliseconds.
const MAX_PATTERN_SIZE: usize = 1 << 20;

// A pattern P, and what `regex` built of `\A(?:P)\z`.
#[derive(Drop)]
pub(crate) struct Pattern {
    text: String,
    regex: Regex,
    ghost same: { IsFoundAs (string_bytes text) regex },
}

// Why a pattern isn't built.
#[derive(Clone, Copy, Debug, PartialEq, Eq)]
pub(crate) enum PatternFault {
    Syntax,
    TooLarge,
}

impl PatternFault {
    // As a fault of the selector whose matcher with this number has the pattern.
    pub(crate) fn of_matcher(self, number: usize) -> SelectorFault
        ensures { result ≡ fault_of_matcher number self }
    {
        match self {
            PatternFault::Syntax => SelectorFault::Pattern(number),
            PatternFault::TooLarge => SelectorFault::PatternRefused(number),
        }
    }
}

impl Pattern {
    // The pattern has to be one by itself too: `a)(?:b` is one only between the anchors. By itself it is only parsed,
    // since no search asks for it without them.
    pub(crate) fn build(alloc: Global, text: String) -> Result<Pattern, Refused<PatternFault>>
        ensures { MatchResult result
            (λ pattern. (string_bytes pattern.text ≡ string_bytes text) × IsWellFormed (string_bytes text))
            (IfFault (IsRefused (string_bytes text))) }
    {
        parse_alone(alloc, text.as_str())?;
        let regex = build_anchored(alloc, text.as_str())?;
        Ok(Pattern { text, regex })
    }

    pub(crate) fn text(&self) -> &str
        ensures { result.now ≡ string_bytes self.now.text }
    {
        self.text.as_str()
    }

    pub(crate) fn is_found(&self, alloc: Global, value: &str) -> Result<bool, AllocError>
        ensures { IfOk result (λ answer. answer ≡ finds (string_bytes self.now.text) value.now) }
    {
        let mut matcher = self.regex.matcher(alloc)?;
        Ok(matcher.is_match(value))
    }
}

// The text `\A(?:P)\z` of a pattern P.
fn anchor(alloc: Global, pattern: &str) -> Result<String, AllocError>
    ensures { IfOk result (λ text. string_bytes text ≡ anchored pattern.now) }
{
    let mut text = String::from_str(alloc, "\\A(?:")?;
    text.push_str(pattern)?;
    text.push_str(")\\z")?;
    Ok(text)
}

// Whether the grammar reads the text by itself.
fn parse_alone(alloc: Global, text: &str) -> Result<(), Refused<PatternFault>>
    ensures ok { OnOk result (IsReadable text.now) }
    ensures err { IfErr result (IfFault (λ fault. (fault ≡ PatternFault.Syntax) × IsUnreadable text.now)) }
{
    match regex_syntax::parse(alloc, text, &Config::default()) {
        Ok(_) => Ok(()),
        Err(error) => Err(of_parser(error)),
    }
}

fn of_parser(error: regex_syntax::Error) -> Refused<PatternFault>
    ensures { IfFault (λ fault. (fault ≡ PatternFault.Syntax) × (error.kind ≢ ErrorKind.OutOfMemory)) result }
{
    match error.kind {
        ErrorKind::OutOfMemory => Refused::Memory,
        _ => Refused::Fault(PatternFault::Syntax),
    }
}

// What is built of `\A(?:P)\z`.
fn build_anchored(alloc: Global, pattern: &str) -> Result<Regex, Refused<PatternFault>>
    ensures ok { IfOk result (λ regex. IsReadable (anchored pattern.now) × IsFoundAs pattern.now regex) }
    ensures err { IfErr result (IfFault (IsRefusalOf (anchored pattern.now))) }
{
    let whole = anchor(alloc, pattern)?;
    build(alloc, whole.as_str())
}

fn build(alloc: Global, text: &str) -> Result<Regex, Refused<PatternFault>>
    ensures ok { IfOk result (IsBuiltFrom text.now) }
    ensures err { IfErr result (IfFault (IsRefusalOf text.now)) }
{
    match compile(alloc, text) {
        Ok(regex) => Ok(regex),
        Err(regex::Error::Syntax(_)) => Err(Refused::Fault(PatternFault::Syntax)),
        Err(regex::Error::CompiledTooBig) => Err(Refused::Fault(PatternFault::TooLarge)),
        Err(regex::Error::Internal) => unreachable!(),
        Err(regex::Error::OutOfMemory) => Err(Refused::Memory),
    }
}

fn compile(alloc: Global, text: &str) -> Result<Regex, regex::Error>
    ensures ok { IfOk result (IsBuiltFrom text.now) }
    ensures by_grammar { IfErr result (IsRefusal default_config text.now) }
    ensures kind { IfErr result (IsRightKind default_config text.now) }
    ensures no_internal { IfErr result (λ e. e ≢ Error.Internal) }
{
    RegexBuilder::new(text)
        .size_limit(MAX_PATTERN_SIZE)
        .build(alloc)
}
