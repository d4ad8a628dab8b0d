// The bytes of a file, from the front.
ghost use Rattle.std.specs.Prelude.{◌≡◌, ◌≢◌, ◌+◌, ◌^◌, ◌<◌, [], ◌++◌, length, MatchBool, MatchOption, MatchResult};
ghost use Rattle.std.specs.Int.{bytes_high_first};
ghost use Rattle.segment_file.specs.declared.fault.ObjectRule.TheVariants.{Form};
ghost use Rattle.segment_file.specs.Reading.{AreShort, IsCut, IsWhole, Passes, marks, numbers, texts};

use crate::{ObjectFault, ObjectRule};
use std::marker::Model;

// The bytes that are left, and the place of the first of them.
#[derive(Drop)]
pub(crate) struct Cursor<'b> {
    rest: &'b [u8],
    at: usize,
}

impl<'b> Model for Cursor<'b> {
    ghost use Rattle.std.specs.Prelude.{◌+◌, ◌^◌, ◌<◌, length};
    ghost use Rattle.segment_file.specs.Reading.{CursorView};

    ghost Value = { CursorView };

    ghost view = { λ c. record { rest = c.rest.now; at = c.at } };

    ghost invariant = { λ c. c.at + length c.rest.now < 2 ^ 64 };
}

impl<'b> Cursor<'b> {
    pub(crate) fn new(bytes: &'b [u8]) -> Cursor<'b>
        ensures rest { result.rest ≡ bytes.now }
        ensures at { result.at ≡ 0 }
    {
        Cursor { rest: bytes, at: 0 }
    }

    pub(crate) fn at(&self) -> usize
        ensures { result ≡ self.now.at }
    {
        self.at
    }

    pub(crate) fn has_more(&self) -> bool
        ensures { MatchBool result (self.now.rest ≢ []) (self.now.rest ≡ []) }
    {
        self.rest.len() > 0
    }

    // The fault where bytes are missing.
    fn missing(&self) -> ObjectFault
        ensures rule { result.rule ≡ Form }
        ensures at { result.at ≡ self.now.at + length self.now.rest }
    {
        ObjectFault {
            rule: ObjectRule::Form,
            at: self.at + self.rest.len(),
        }
    }

    // The next bytes, so many.
    fn take(&mut self, count: usize) -> Option<&'b [u8]>
        ensures { MatchOption result ((length self.old.rest < count) × (self.new ≡ self.old)) (λ piece. (length piece.now ≡ count) × Passes piece.now self.old self.new) }
    {
        if count > self.rest.len() {
            return None;
        }
        let (piece, rest) = self.rest.split_at(count);
        self.rest = rest;
        self.at += count;
        Some(piece)
    }

    pub(crate) fn mark(&mut self) -> Result<&'b [u8], ObjectFault>
        ensures { MatchResult result (λ mark. IsWhole marks self.old self.new mark.now) (IsCut marks self.old) }
    {
        match self.take(4) {
            Some(mark) => Ok(mark),
            None => Err(self.missing()),
        }
    }

    // A number of four bytes.
    pub(crate) fn four(&mut self) -> Result<u32, ObjectFault>
        ensures { MatchResult result (IsWhole (numbers 4) self.old self.new) (IsCut (numbers 4) self.old) }
    {
        match first_four(self.rest) {
            Some((number, rest)) => {
                self.rest = rest;
                self.at += 4;
                Ok(number)
            }
            None => Err(self.missing()),
        }
    }

    // A number of eight bytes.
    pub(crate) fn eight(&mut self) -> Result<u64, ObjectFault>
        ensures { MatchResult result (IsWhole (numbers 8) self.old self.new) (IsCut (numbers 8) self.old) }
    {
        match first_eight(self.rest) {
            Some((number, rest)) => {
                self.rest = rest;
                self.at += 8;
                Ok(number)
            }
            None => Err(self.missing()),
        }
    }

    // A text, its length before it.
    pub(crate) fn text(&mut self) -> Result<&'b [u8], ObjectFault>
        ensures { MatchResult result (λ text. IsWhole texts self.old self.new text.now) (IsCut texts self.old) }
    {
        let length = self.four()?;
        match self.take(length as usize) {
            Some(text) => Ok(text),
            None => Err(self.missing()),
        }
    }
}

// The number of the first four bytes, and the bytes behind it.
fn first_four(bytes: &[u8]) -> Option<(u32, &[u8])>
    ensures { MatchOption result (AreShort 4 bytes.now) (λ found. (found.0 < 256 ^ 4) × (bytes.now ≡ bytes_high_first 4 found.0 ++ found.1.now)) }
{
    match bytes.split_first_chunk::<4>() {
        Some((number, rest)) => Some((u32::from_be_bytes(*number), rest)),
        None => None,
    }
}

// The same of eight bytes.
fn first_eight(bytes: &[u8]) -> Option<(u64, &[u8])>
    ensures { MatchOption result (AreShort 8 bytes.now) (λ found. (found.0 < 256 ^ 8) × (bytes.now ≡ bytes_high_first 8 found.0 ++ found.1.now)) }
{
    match bytes.split_first_chunk::<8>() {
        Some((number, rest)) => Some((u64::from_be_bytes(*number), rest)),
        None => None,
    }
}
