// A body that is a JSON object.
ghost use Rattle.faults.specs.Answers.{IfAnswered};

use crate::kept::{Fields, read_fields};
use crate::walk::Stop;
use faults::Refused;
use std::alloc::Global;
use std::error::Error;
use std::fmt;
use std::marker::Model;

/// An object in JSON, as its body spells it, with what its fields say. Of a repeated key the last value stands.
#[derive(Drop)]
pub struct JsonObject<'b> {
    body: &'b [u8],
    pub(crate) fields: Fields,
}

impl<'b> Model for JsonObject<'b> {
    ghost use Rattle.std.specs.Prelude.{IsSome};
    ghost use Rattle.serde_json.specs.Data.{Data};
    ghost use Rattle.serde_json.specs.Find.{as_object};
    ghost use Rattle.json_bodies.specs.Codes.{data_coded};
    ghost use Rattle.json_bodies.specs.KeptFields.{AreFields, value_of};

    ghost Value = { Data };

    ghost coded = { data_coded };

    ghost view = { λ o. value_of o.body.now };

    ghost invariant = { λ o. IsSome (as_object (value_of o.body.now)) × AreFields (value_of o.body.now) o.fields };
}

/// Why a body is no object.
#[derive(Clone, Copy, Debug, PartialEq, Eq)]
pub enum JsonFault {
    /// The body is no JSON, or none that `serde_json` reads, or another value than an object.
    NotObject,
}

impl fmt::Display for JsonFault {
    fn fmt<W: fmt::Write>(&self, f: &mut fmt::Formatter<W>) -> fmt::Result {
        match self {
            JsonFault::NotObject => write!(f, "the body is no JSON object"),
        }
    }
}

impl Error for JsonFault {}

impl<'b> JsonObject<'b> {
    ghost use Rattle.json_bodies.specs.Objects.{IsReadObject, or_braces};

    /// The object that the body is.
    pub fn read(alloc: Global, body: &'b [u8]) -> Result<JsonObject<'b>, Refused<JsonFault>>
        ensures read { IfAnswered (IsReadObject body.now) result }
    {
        let Ok(text) = str::from_utf8(body) else {
            return Err(Refused::Fault(JsonFault::NotObject));
        };
        match read_fields(alloc, text) {
            Ok(fields) => Ok(JsonObject { body, fields }),
            Err(Stop::NoJson) => Err(Refused::Fault(JsonFault::NotObject)),
            Err(Stop::Memory) => Err(Refused::Memory),
        }
    }

    /// The same, where a body without bytes stands for `{}`.
    pub fn read_or_empty(
        alloc: Global,
        body: &'b [u8],
    ) -> Result<JsonObject<'b>, Refused<JsonFault>>
        ensures read { IfAnswered (IsReadObject (or_braces body.now)) result }
    {
        if body.is_empty() {
            JsonObject::read(alloc, b"{}")
        } else {
            JsonObject::read(alloc, body)
        }
    }
}
