//! A reader of the fields of a message.

ghost use Rattle.std.specs.Prelude.{◌≡◌, ◌↔◌, ℕ, ◌+◌, ◌^◌, ◌<◌, List, [], ◌++◌, length};
ghost use Rattle.wire_proto.specs.declared.field.WireFault.{WireFault};
ghost use Rattle.wire_proto.specs.Field.{IsFault, content_of};
ghost use Rattle.wire_proto.specs.Message.{WireField, Spells};
ghost use Rattle.wire_proto.specs.Reading.{fields_of};
ghost use Rattle.wire_proto.specs.Next.{wire_field, message_of, TakesField, IfField, IsFieldAnd, UnlessField, inner_length};

use crate::field::{Field, Next};
use crate::reading::read_field;
use std::marker::Model;

/// Reads a message from its first field on. A contract sees the bytes that are left, and the place of
/// the first of them.
#[derive(Drop)]
pub struct Fields<'a> {
    left: &'a [u8],
    at: u64,
}

impl<'a> Model for Fields<'a> {
    ghost use Rattle.std.specs.Prelude.{◌+◌, ◌^◌, ◌<◌, length};
    ghost use Rattle.wire_proto.specs.Message.{Cursor};

    ghost Value = { Cursor };

    ghost view = { λ f. record { left = f.left.now; at = f.at } };

    ghost invariant = { λ f. f.at + length f.left.now < 2 ^ 64 };
}

impl<'a> Fields<'a> {
    /// Places are told as if the first byte stood at `base`.
    pub fn new(bytes: &'a [u8], base: u64) -> Fields<'a>
        requires { base + length bytes.now < 2 ^ 64 }
        ensures { result ≡ record { left = bytes.now; at = base } }
    {
        Fields {
            left: bytes,
            at: base,
        }
    }

    /// The place of the next field's first byte. After a field that is the place behind its last byte,
    /// so the bytes of a `Value::Bytes` begin at this place less their length.
    pub fn at(&self) -> u64
        ensures place { result ≡ self.now.at }
        ensures within { result + length self.now.left < 2 ^ 64 }
    {
        self.at
    }

    /// The next field. A fault leaves the reader where it is, so it's told again by each later call.
    pub fn next(&mut self) -> Next<'a>
        // What was given, and after a field what is left, is what there was to read.
        ensures reads { fields_of self.old.left self.old.at ≡ message_of result self.new }

        // Each of the three comes exactly where the bytes say so.
        ensures field { IfField result (λ f. TakesField self.old self.new (wire_field f self.new)) }
        ensures only { (f : WireField) (spelling rest : List ℕ) → self.old.left ≡ spelling ++ rest → Spells spelling self.old.at f
            → IsFieldAnd result (λ g. (wire_field g self.new ≡ f) × (self.new.left ≡ rest)) }
        ensures end { (result ≡ Next.End) ↔ (self.old.left ≡ []) }
        ensures refuses { (fault : WireFault) → (result ≡ Next.Fault fault) ↔ IsFault self.old.left self.old.at fault }

        // Where the field stands, and the reader then.
        ensures place { IfField result (λ f. f.at ≡ self.old.at) }
        ensures unmoved { UnlessField result (self.new ≡ self.old) }
        ensures total { self.new.at + length self.new.left ≡ self.old.at + length self.old.left }
        ensures inside { IfField result (λ f. self.old.at + inner_length (content_of f.value) < self.new.at) }
    {
        if self.left.is_empty() {
            return Next::End;
        }
        match read_field(self.left, self.at) {
            Ok((number, value, rest)) => {
                let at = self.at;
                self.at += (self.left.len() - rest.len()) as u64;
                self.left = rest;
                Next::Field(Field { number, at, value })
            }
            Err(fault) => Next::Fault(fault),
        }
    }
}
