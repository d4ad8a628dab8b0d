// A walk over the tokens of a text that keeps nothing: values that aren't asked for are passed over.
ghost use Rattle.std.specs.Prelude.{◌≡◌, ◌≢◌, ℕ, ◌∷◌, length, MatchResult, None, option_map, Some};
ghost use Rattle.std.specs.Bool.{MatchBool};
ghost use Rattle.json.specs.Reads.{token_of};
ghost use Rattle.json.specs.Token.{begin_array, begin_object};
ghost use Rattle.serde_json.specs.Data.{no_members};
ghost use Rattle.json_bodies.specs.Walks.{itemed, membered, rest_of, token_number, token_text, valued};

use crate::number::whole_number;
use json::{Invalid, Reader, Token};
use std::alloc::{AllocError, AllocFailed};

// Why a walk ends before the text does.
#[derive(Clone, Copy, Drop)]
pub(crate) enum Stop {
    // The text is no JSON, or none that `serde_json` reads.
    NoJson,
    Memory,
}

impl From<Invalid> for Stop {
    ghost use Rattle.json_bodies.specs.declared.walk.Stop.TheVariants.{NoJson};

    ghost from_gives = { λ _ stop. stop ≡ NoJson };

    fn from(_error: Invalid) -> Stop {
        Stop::NoJson
    }
}

impl From<AllocError> for Stop {
    ghost use Rattle.json_bodies.specs.declared.walk.Stop.TheVariants.{Memory};

    ghost from_gives = { λ _ stop. stop ≡ Memory };

    fn from(_error: AllocError) -> Stop {
        Stop::Memory
    }
}

impl<T: Drop> From<AllocFailed<T>> for Stop {
    ghost use Rattle.json_bodies.specs.declared.walk.Stop.TheVariants.{Memory};

    ghost from_gives = { λ _ stop. stop ≡ Memory };

    fn from(_error: AllocFailed<T>) -> Stop {
        Stop::Memory
    }
}

// The text of a token that is one.
pub(crate) fn text_of<'a>(token: &Token<'a>) -> Option<&'a str>
    ensures { option_map (λ text. text.now) result ≡ token_text (token_of token.now) }
{
    match token {
        Token::String(text) => Some(*text),
        _ => None,
    }
}

// The digits of a token that is a number.
pub(crate) fn number_text<'a>(token: &Token<'a>) -> Option<&'a str>
    ensures { option_map (λ text. text.now) result ≡ token_number (token_of token.now) }
{
    match token {
        Token::Number(text) => Some(*text),
        _ => None,
    }
}

pub(crate) fn opens_array(token: &Token<'_>) -> bool
    ensures { MatchBool result (token_of token.now ≡ begin_array) (token_of token.now ≢ begin_array) }
{
    matches!(token, Token::BeginArray)
}

pub(crate) fn opens_object(token: &Token<'_>) -> bool
    ensures { MatchBool result (token_of token.now ≡ begin_object) (token_of token.now ≢ begin_object) }
{
    matches!(token, Token::BeginObject)
}

pub(crate) fn is_key(key: &str, name: &str) -> bool
    ensures { MatchBool result (key.now ≡ name.now) (¬ (key.now ≡ name.now)) }
{
    key == name
}

// The token that a value begins with.
pub(crate) fn first<'a>(reader: &mut Reader<'a>) -> Result<Token<'a>, Invalid>
    ensures { MatchResult result
        (λ token. reader.old ≡ token_of token ∷ reader.new) (λ _. (depth : ℕ) → valued depth reader.old ≡ None) }
{
    match reader.next() {
        Some(token) => Ok(token),
        None => Err(Invalid),
    }
}

// Passes over a value that nests no deeper than `depth`.
pub(crate) fn skip(reader: &mut Reader<'_>, depth: usize) -> Result<(), Invalid>
    ensures { MatchResult result
        (λ _. rest_of (valued depth reader.old) ≡ Some reader.new) (λ _. rest_of (valued depth reader.old) ≡ None) }
{
    let token = first(reader)?;
    skip_rest(token, reader, depth)
}

// Passes over the rest of a value that begins with the token.
#[cycle(skip)]
pub(crate) fn skip_rest(
    token: Token<'_>,
    reader: &mut Reader<'_>,
    depth: usize,
) -> Result<(), Invalid>
    ensures { MatchResult result
        (λ _. rest_of (valued depth (token_of token.entry ∷ reader.old)) ≡ Some reader.new)
        (λ _. rest_of (valued depth (token_of token.entry ∷ reader.old)) ≡ None) }
{
    match token {
        Token::String(_) | Token::Bool(_) | Token::Null => Ok(()),
        Token::Number(text) => match whole_number(text) {
            Some(_) => Ok(()),
            None => Err(Invalid),
        },
        Token::EndObject | Token::EndArray | Token::Key(_) | Token::Bad => Err(Invalid),
        Token::BeginArray => {
            if depth == 0 {
                return Err(Invalid);
            }
            skip_items(reader, depth - 1)
        }
        Token::BeginObject => {
            if depth == 0 {
                return Err(Invalid);
            }
            skip_members(reader, depth - 1)
        }
    }
}

#[cycle(skip)]
fn skip_items(reader: &mut Reader<'_>, depth: usize) -> Result<(), Invalid>
    ensures { MatchResult result
        (λ _. rest_of (itemed depth (length reader.old) reader.old) ≡ Some reader.new)
        (λ _. rest_of (itemed depth (length reader.old) reader.old) ≡ None) }
{
    'items: while !reader.take_end_array() {
        let token = first(reader)?;
        skip_rest(token, reader, depth)?;
    }
    Ok(())
}

#[cycle(skip)]
fn skip_members(reader: &mut Reader<'_>, depth: usize) -> Result<(), Invalid>
    ensures { MatchResult result
        (λ _. rest_of (membered depth no_members (length reader.old) reader.old) ≡ Some reader.new)
        (λ _. rest_of (membered depth no_members (length reader.old) reader.old) ≡ None) }
{
    'members: while let Some(_) = reader.next_key()? {
        let token = first(reader)?;
        skip_rest(token, reader, depth)?;
    }
    Ok(())
}
