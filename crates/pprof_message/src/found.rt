// The fields of a message, each with the place behind its last byte.
ghost use Rattle.std.specs.Prelude.{◌≡◌, ◌+◌, ◌^◌, ◌<◌, length, IfOk, OnSome};
ghost use Rattle.wire_proto.specs.Reading.{fields_of};
ghost use Rattle.pprof_message.specs.Fields.{number_in, part_in};
ghost use Rattle.pprof_message.specs.Broken.{place_of as fault_place};
ghost use Rattle.pprof_message.specs.Readers.{TellsNext};

use crate::fault::MessageFault;
use std::marker::Model;
use wire_proto::{Field, Fields, Next, Value, WireFault};

// A field that was read. A contract sees it without where its bytes lie.
#[derive(Drop)]
pub(crate) struct Found<'a> {
    field: Field<'a>,
    end: u64,
}

impl<'a> Model for Found<'a> {
    ghost use Rattle.std.specs.Prelude.{◌≤◌};
    ghost use Rattle.wire_proto.specs.Message.{WireField};
    ghost use Rattle.wire_proto.specs.Field.{content_of};
    ghost use Rattle.wire_proto.specs.Next.{inner_length};

    ghost Value = { WireField };

    ghost view = { λ f. record { number = f.field.number; at = f.field.at; end = f.end; value = content_of f.field.value } };

    ghost invariant = { λ f. inner_length (content_of f.field.value) ≤ f.end };
}

// The bytes behind a length, and the place of the first of them.
#[derive(Drop)]
pub(crate) struct Part<'a> {
    bytes: &'a [u8],
    at: u64,
}

impl<'a> Model for Part<'a> {
    ghost use Rattle.std.specs.Prelude.{◌+◌, ◌^◌, ◌<◌, length};
    ghost use Rattle.pprof_message.specs.Fields.{Part as Bytes};

    ghost Value = { Bytes };

    ghost view = { λ p. record { bytes = p.bytes.now; at = p.at } };

    ghost invariant = { λ p. p.at + length p.bytes.now < 2 ^ 64 };
}

impl<'a> Part<'a> {
    // All bytes of a message, from place 0 on.
    pub(crate) fn whole(bytes: &'a [u8]) -> Part<'a>
        ensures { result ≡ record { bytes = bytes.now; at = 0 } }
    {
        Part { bytes, at: 0 }
    }

    pub(crate) fn bytes(&self) -> &'a [u8]
        ensures { result.now ≡ self.now.bytes }
    {
        self.bytes
    }

    pub(crate) fn fields(&self) -> Fields<'a>
        ensures { result ≡ record { left = self.now.bytes; at = self.now.at } }
    {
        Fields::new(self.bytes, self.at)
    }
}

impl<'a> Found<'a> {
    pub(crate) fn number(&self) -> u64
        ensures { result ≡ self.now.number }
    {
        self.field.number
    }

    pub(crate) fn at(&self) -> u64
        ensures { result ≡ self.now.at }
    {
        self.field.at
    }

    pub(crate) fn varint(&self) -> Option<u64>
        ensures { result ≡ number_in self.now.value }
    {
        match self.field.value {
            Value::Varint(number) => Some(number),
            Value::Eight(_) | Value::Bytes(_) | Value::Four(_) => None,
        }
    }

    pub(crate) fn part(&self) -> Option<Part<'a>>
        ensures { result ≡ part_in self.now.end self.now.value }
    {
        match self.field.value {
            Value::Bytes(bytes) => {
                let at = self.end - bytes.len() as u64;
                Some(Part { bytes, at })
            }
            Value::Varint(_) | Value::Eight(_) | Value::Four(_) => None,
        }
    }
}

// The next field; a fault is told by its place.
pub(crate) fn next_found<'a>(fields: &mut Fields<'a>) -> Result<Option<Found<'a>>, MessageFault>
    ensures next { TellsNext (fields_of fields.old.left fields.old.at) (fields_of fields.new.left fields.new.at) result }
    ensures shorter { IfOk result (λ next. OnSome next (length fields.new.left < length fields.old.left)) }
{
    match fields.next() {
        Next::Field(field) => {
            let end = fields.at();
            Ok(Some(Found { field, end }))
        }
        Next::End => Ok(None),
        Next::Fault(fault) => Err(MessageFault::Broken(place_of(fault))),
    }
}

fn place_of(fault: WireFault) -> u64
    ensures { result ≡ fault_place fault }
{
    match fault {
        WireFault::Truncated(at) | WireFault::BadVarint(at) | WireFault::BadType(at) => at,
    }
}
