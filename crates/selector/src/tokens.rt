// The tokens of a selector. Each is read from the front of a rest of the text, which it cuts.
ghost use Rattle.std.specs.Prelude.{◌≡◌, ◌==◌, ◌<◌, ◌++◌, ◌∷◌, ℕ, List, Some, not, is_some, position, IsFalse, MatchResult, MatchOption, string_bytes};
ghost use Rattle.faults.specs.Answers.{IfFault};
ghost use Rattle.selector.specs.Grammar.{IsNameText, IsString, AreWritten, escaped, is_space, is_name_start, is_name_byte, is_plain, operator_text};
ghost use Rattle.selector.specs.Rests.{AtName, AtOperator, AtNegated, AtString, AtWritten, EndsOperator, IsReadFault};
ghost use Rattle.selector.specs.Runs.{is_in, begins_with, IsRun};

use crate::Operator;
use crate::written::ReadFault;
use faults::Refused;
use std::alloc::Global;

// The bytes that a run is made of.
#[derive(Clone, Copy, Debug, PartialEq, Eq)]
enum Class {
    Space,
    Name,
    // What stands for itself in a string.
    Plain,
}

impl Class {
    fn has(self, byte: u8) -> bool
        ensures { result ≡ is_in self byte }
    {
        match self {
            Class::Space => matches!(byte, b' ' | b'\t' | b'\n' | b'\r'),
            Class::Name => byte.is_ascii_alphanumeric() || matches!(byte, b'_' | b'.'),
            Class::Plain => !matches!(byte, b'"' | b'\\' | b'\n'),
        }
    }

    fn first_other(self, bytes: &[u8]) -> Option<usize>
        ensures { result ≡ position (λ b. not (is_in self b)) bytes.now }
    {
        bytes.iter().position(|byte| !self.has(*byte))
    }
}

// The longest front of the text whose bytes are all of the class, and the rest.
fn run(text: &str, class: Class) -> (&str, &str)
    ensures { IsRun (is_in class) text.now result.0.now result.1.now }
{
    match class.first_other(text.as_bytes()) {
        Some(at) => text.split_at(at),
        None => (text, ""),
    }
}

// The text without the white space before its first token.
pub(crate) fn skip_space(text: &str) -> &str
    ensures { (space : List ℕ) × IsRun is_space text.now space result.now }
{
    run(text, Class::Space).1
}

// What follows this ASCII character, where the text begins with it.
pub(crate) fn strip(text: &str, mark: char) -> Option<&str>
    requires { mark < 128 }
    ensures { MatchOption result (IsFalse (begins_with (λ b. b == mark) text.now)) (λ rest. text.now ≡ mark ∷ rest.now) }
{
    text.strip_prefix(mark)
}

pub(crate) fn read_name(text: &str) -> Result<(&str, &str), ReadFault>
    ensures { MatchResult result
        (λ said. IsNameText said.0.now × IsRun is_name_byte text.now said.0.now said.1.now)
        (IsReadFault AtName text.now) }
{
    let (name, rest) = run(text, Class::Name);
    if begins_name(name.as_bytes()) {
        Ok((name, rest))
    } else {
        Err(ReadFault::BreaksOff(text.len()))
    }
}

fn begins_name(bytes: &[u8]) -> bool
    ensures { result ≡ begins_with is_name_start bytes.now }
{
    match bytes.first() {
        Some(first) => first.is_ascii_alphabetic() || *first == b'_',
        None => false,
    }
}

pub(crate) fn read_operator(text: &str) -> Result<(Operator, &str), ReadFault>
    ensures { MatchResult result
        (λ said. (text.now ≡ operator_text said.0 ++ said.1.now) × EndsOperator said.0 said.1.now)
        (IsReadFault AtOperator text.now) }
{
    if let Some(rest) = strip(text, '=') {
        return match strip(rest, '~') {
            Some(rest) => Ok((Operator::Finds, rest)),
            None => Ok((Operator::Equal, rest)),
        };
    }
    match strip(text, '!') {
        Some(rest) => read_negated(rest),
        None => Err(ReadFault::BreaksOff(text.len())),
    }
}

// The rest of an operator that begins with `!`.
fn read_negated(text: &str) -> Result<(Operator, &str), ReadFault>
    ensures { MatchResult result
        (λ said. (33 ∷ text.now ≡ operator_text said.0 ++ said.1.now) × EndsOperator said.0 said.1.now)
        (IsReadFault AtNegated text.now) }
{
    if let Some(rest) = strip(text, '=') {
        return Ok((Operator::NotEqual, rest));
    }
    match strip(text, '~') {
        Some(rest) => Ok((Operator::FindsNot, rest)),
        None => Err(ReadFault::BreaksOff(text.len())),
    }
}

// The bytes of a string, which may be written with backslashes.
pub(crate) fn read_string(alloc: Global, text: &str) -> Result<(String, &str), Refused<ReadFault>>
    ensures { MatchResult result
        (λ said. (string : List ℕ) × (text.now ≡ string ++ said.1.now) × IsString string (string_bytes said.0))
        (IfFault (IsReadFault AtString text.now)) }
{
    match strip(text, '"') {
        Some(inside) => read_written(alloc, inside),
        None => Err(Refused::Fault(ReadFault::BreaksOff(text.len()))),
    }
}

// The inside of a string and the quote that ends it.
fn read_written(alloc: Global, text: &str) -> Result<(String, &str), Refused<ReadFault>>
    ensures { MatchResult result
        (λ said. (inside : List ℕ) × (text.now ≡ inside ++ 34 ∷ said.1.now) × AreWritten inside (string_bytes said.0))
        (IfFault (IsReadFault AtWritten text.now)) }
{
    let mut value = String::new(alloc);
    let mut rest = text;
    loop {
        let (plain, after) = run(rest, Class::Plain);
        value.push_str(plain)?;
        if let Some(after) = strip(after, '"') {
            return Ok((value, after));
        }
        let (meant, after) = read_escape(after)?;
        value.push(meant)?;
        rest = after;
    }
}

// A backslash and the letter after it: the character that they stand for.
fn read_escape(text: &str) -> Result<(char, &str), ReadFault>
    requires plain { IsFalse (begins_with is_plain text.now) }
    requires quote { IsFalse (begins_with (λ b. b == 34) text.now) }
    ensures { MatchResult result
        (λ said. (letter : ℕ) × (text.now ≡ 92 ∷ letter ∷ said.1.now) × (escaped letter ≡ Some said.0))
        (IsReadFault AtWritten text.now) }
{
    let Some(rest) = strip(text, '\\') else {
        return Err(ReadFault::BreaksOff(text.len()));
    };
    match unescape(rest) {
        Some(said) => Ok(said),
        None => Err(ReadFault::BreaksOff(rest.len())),
    }
}

fn unescape(text: &str) -> Option<(char, &str)>
    ensures { MatchOption result
        (IsFalse (begins_with (λ b. is_some (escaped b)) text.now))
        (λ said. (letter : ℕ) × (text.now ≡ letter ∷ said.1.now) × (escaped letter ≡ Some said.0)) }
{
    let mut chars = text.chars();
    let letter = chars.next()?;
    let meant = meant_by(letter)?;
    Some((meant, chars.as_str()))
}

fn meant_by(letter: char) -> Option<char>
    ensures { result ≡ escaped letter }
{
    match letter {
        '\\' => Some('\\'),
        '"' => Some('"'),
        'n' => Some('\n'),
        't' => Some('\t'),
        _ => None,
    }
}
