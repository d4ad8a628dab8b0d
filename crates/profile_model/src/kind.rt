// What the values of a profile count.
ghost use Rattle.std.specs.Prelude.{◌≡◌, ◌≢◌, [], ◌∷◌, length, MatchOption, IfOk, IsErrOf};
ghost use Rattle.profile_model.specs.Kinds.{IsPart, parts_of};
ghost use Rattle.faults.specs.Answers.{IfAnswered};
ghost use Rattle.faults.specs.declared.refused.Refused.TheVariants.{Fault};

use crate::Name;
use faults::Refused;
use std::alloc::{AllocError, Global};
use std::error::Error;
use std::fmt;

/// What a profile's values count, in Pyroscope's five parts, as `process_cpu:samples:count:cpu:nanoseconds`.
/// A part may be empty, and holds no `:`.
#[derive(Debug, Drop, PartialEq, Eq)]
pub struct ProfileType {
    pub name: Name,
    pub sample_type: Name,
    pub sample_unit: Name,
    pub period_type: Name,
    pub period_unit: Name,
    ghost parts: { IsPart name × IsPart sample_type × IsPart sample_unit × IsPart period_type × IsPart period_unit },
}

/// Why a text is no profile's type.
#[derive(Clone, Copy, Debug, PartialEq, Eq)]
pub enum TypeFault {
    NotFiveParts,
}

impl fmt::Display for TypeFault {
    fn fmt<W: fmt::Write>(&self, f: &mut fmt::Formatter<W>) -> fmt::Result {
        match self {
            TypeFault::NotFiveParts => write!(f, "a profile's type has five parts"),
        }
    }
}

impl Error for TypeFault {}

impl ProfileType {
    ghost use Rattle.profile_model.specs.ReadKinds.{IsReadType};

    /// The type of this text, whose parts stand between four `:`.
    pub fn read(alloc: Global, text: &str) -> Result<ProfileType, Refused<TypeFault>>
        ensures read { IfAnswered (IsReadType text.now) result }
        ensures refused { length (parts_of text.now) ≢ 5 → IsErrOf result (Fault TypeFault.NotFiveParts) }
    {
        match five_parts(text) {
            Some(parts) => Ok(parts.kept(alloc)?),
            None => Err(Refused::Fault(TypeFault::NotFiveParts)),
        }
    }
}

// The parts of a type's text.
#[derive(Clone, Copy)]
struct Parts<'a> {
    name: &'a str,
    sample_type: &'a str,
    sample_unit: &'a str,
    period_type: &'a str,
    period_unit: &'a str,
    ghost parts: { IsPart name.now × IsPart sample_type.now × IsPart sample_unit.now × IsPart period_type.now × IsPart period_unit.now },
}

impl Parts<'_> {
    ghost use Rattle.profile_model.specs.ReadKinds.{parts_in};

    fn kept(&self, alloc: Global) -> Result<ProfileType, AllocError>
        ensures { IfOk result (λ kind. parts_in kind ≡ self.now.name.now ∷ self.now.sample_type.now ∷ self.now.sample_unit.now ∷ self.now.period_type.now ∷ self.now.period_unit.now ∷ []) }
    {
        Ok(ProfileType {
            name: Name::from_text(alloc, self.name)?,
            sample_type: Name::from_text(alloc, self.sample_type)?,
            sample_unit: Name::from_text(alloc, self.sample_unit)?,
            period_type: Name::from_text(alloc, self.period_type)?,
            period_unit: Name::from_text(alloc, self.period_unit)?,
        })
    }
}

fn five_parts(text: &str) -> Option<Parts<'_>>
    ensures { MatchOption result (length (parts_of text.now) ≢ 5) (λ p. parts_of text.now ≡ p.name.now ∷ p.sample_type.now ∷ p.sample_unit.now ∷ p.period_type.now ∷ p.period_unit.now ∷ []) }
{
    let (name, rest) = first_part(text)?;
    let (sample_type, rest) = first_part(rest)?;
    let (sample_unit, rest) = first_part(rest)?;
    let (period_type, period_unit) = first_part(rest)?;
    match first_part(period_unit) {
        Some(_) => None,
        None => Some(Parts {
            name,
            sample_type,
            sample_unit,
            period_type,
            period_unit,
        }),
    }
}

// The part before the first colon, and what follows it.
fn first_part(text: &str) -> Option<(&str, &str)>
    ensures parts { MatchOption result (parts_of text.now ≡ text.now ∷ []) (λ p. parts_of text.now ≡ p.0.now ∷ parts_of p.1.now) }
    ensures part { MatchOption result (IsPart text.now) (λ p. IsPart p.0.now) }
{
    text.split_once(':')
}

impl fmt::Display for ProfileType {
    ghost use Rattle.std.specs.Prelude.{Some};
    ghost use Rattle.profile_model.specs.TypeTexts.{type_text};

    ghost output = { λ kind. Some (type_text kind) };

    fn fmt<W: fmt::Write>(&self, f: &mut fmt::Formatter<W>) -> fmt::Result {
        write!(
            f,
            "{}:{}:{}:{}:{}",
            self.name, self.sample_type, self.sample_unit, self.period_type, self.period_unit
        )
    }
}

impl Clone for ProfileType {
    ghost use Rattle.profile_model.specs.ReadKinds.{parts_in};

    ghost is_clone = { λ kind copy. parts_in copy ≡ parts_in kind };

    fn clone(&self) -> Result<ProfileType, AllocError> {
        Ok(ProfileType {
            name: self.name.clone()?,
            sample_type: self.sample_type.clone()?,
            sample_unit: self.sample_unit.clone()?,
            period_type: self.period_type.clone()?,
            period_unit: self.period_unit.clone()?,
        })
    }
}
