// The fields of an object: texts, lists of texts, and numbers of 64 bits.
ghost use Rattle.std.specs.Prelude.{◌≡◌, map, MatchResult, Some};
ghost use Rattle.faults.specs.Answers.{IfFault};
ghost use Rattle.json_bodies.specs.Fields.{end_of};
ghost use Rattle.json_bodies.specs.FieldFaults.{IsWrongKind};

use crate::JsonObject;
use crate::texts::Texts;
use faults::Refused;
use std::alloc::Global;
use std::error::Error;
use std::fmt;

/// The last millisecond of the year 9999, the latest end of a window.
const LATEST_MS: u64 = 253_402_300_799_999;

/// Why an object is no query.
#[derive(Clone, Copy, Debug, PartialEq, Eq)]
pub enum FieldFault {
    /// The number, in the order of the method's fields from 0, of the first field of a wrong kind.
    WrongKind(u64),
}

impl fmt::Display for FieldFault {
    fn fmt<W: fmt::Write>(&self, f: &mut fmt::Formatter<W>) -> fmt::Result {
        match self {
            FieldFault::WrongKind(number) => write!(f, "field {number} is of a wrong kind"),
        }
    }
}

impl Error for FieldFault {}

impl From<FieldFault> for Refused<FieldFault> {
    ghost use Rattle.faults.specs.declared.refused.Refused.TheVariants.{Fault};

    ghost from_gives = { λ fault refused. refused ≡ Fault fault };

    fn from(fault: FieldFault) -> Refused<FieldFault> {
        Refused::Fault(fault)
    }
}

impl JsonObject<'_> {
    ghost use Rattle.std.specs.Prelude.{codes};
    ghost use Rattle.json_bodies.specs.Fields.{number_in, text_in, texts_in};

    /// The text `name`, which is field `number`. It is empty where the field is absent.
    pub(crate) fn name(&self, number: u64) -> Result<&str, FieldFault>
        ensures { MatchResult result
            (λ text. text_in (codes "name") self.now ≡ Some text.now)
            (IsWrongKind number (text_in (codes "name") self.now)) }
    {
        match &self.fields.name {
            Some(text) => Ok(text.as_str()),
            None => Err(FieldFault::WrongKind(number)),
        }
    }

    /// The texts `matchers`, which are field `number`, none where the field is absent.
    pub(crate) fn matchers(
        &self,
        alloc: Global,
        number: u64,
    ) -> Result<Vec<&str>, Refused<FieldFault>>
        ensures { MatchResult result
            (λ texts. texts_in (codes "matchers") self.now ≡ Some (map (λ text. text.now) texts.items))
            (IfFault (IsWrongKind number (texts_in (codes "matchers") self.now))) }
    {
        slices_of(alloc, &self.fields.matchers, number)
    }

    /// The texts `labelNames`, which are field `number`, none where the field is absent.
    pub(crate) fn label_names(
        &self,
        alloc: Global,
        number: u64,
    ) -> Result<Vec<&str>, Refused<FieldFault>>
        ensures { MatchResult result
            (λ texts. texts_in (codes "labelNames") self.now ≡ Some (map (λ text. text.now) texts.items))
            (IfFault (IsWrongKind number (texts_in (codes "labelNames") self.now))) }
    {
        slices_of(alloc, &self.fields.label_names, number)
    }

    /// The number `start`, which is field `number`. It is 0 where the field is absent.
    pub(crate) fn start(&self, number: u64) -> Result<u64, FieldFault>
        ensures { MatchResult result
            (λ n. number_in (codes "start") self.now ≡ Some n) (IsWrongKind number (number_in (codes "start") self.now)) }
    {
        number_or(self.fields.start, number)
    }

    /// The number `end`, which is field `number`. It is 0 where the field is absent.
    pub(crate) fn end(&self, number: u64) -> Result<u64, FieldFault>
        ensures { MatchResult result
            (λ n. number_in (codes "end") self.now ≡ Some n) (IsWrongKind number (number_in (codes "end") self.now)) }
    {
        number_or(self.fields.end, number)
    }
}

// The texts of field `number`.
fn slices_of<'v>(
    alloc: Global,
    texts: &'v Option<Texts>,
    number: u64,
) -> Result<Vec<&'v str>, Refused<FieldFault>>
    ensures { MatchResult result
        (λ slices. texts.now ≡ Some (map (λ text. text.now) slices.items)) (IfFault (IsWrongKind number texts.now)) }
{
    match texts {
        Some(texts) => Ok(texts.to_slices(alloc)?),
        None => Err(Refused::Fault(FieldFault::WrongKind(number))),
    }
}

fn number_or(value: Option<u64>, number: u64) -> Result<u64, FieldFault>
    ensures { MatchResult result (λ n. value ≡ Some n) (IsWrongKind number value) }
{
    value.ok_or(FieldFault::WrongKind(number))
}

// An end of 0 is the latest, and so is any that is later.
pub(crate) fn end_of(ms: u64) -> u64
    ensures { result ≡ end_of ms }
{
    if ms == 0 {
        LATEST_MS
    } else {
        ms.min(LATEST_MS)
    }
}
