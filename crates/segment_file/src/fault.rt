// Why bytes are no object.
ghost use Rattle.std.specs.Prelude.{◌≡◌, [], ◌∷◌};
ghost use Rattle.faults.specs.Places.{numbers_of};
ghost use Rattle.faults.specs.declared.refused.Refused.TheVariants.{Fault};
ghost use Rattle.segment_file.specs.Faults.{code_of};

use faults::{Place, Refused};
use std::error::Error;
use std::fmt;

/// What kind of rule is broken.
#[derive(Clone, Copy, Debug, PartialEq, Eq)]
pub enum ObjectRule {
    /// The mark, the order of the first and last push, and that the bytes end where the object does.
    Form,
    /// A rule of what the object holds: of tenants, labels, types, stacks or values.
    Content,
}

/// The first rule that bytes break, and the place of the field that breaks it; the length of the bytes where they end
/// inside a field.
#[derive(Clone, Copy, Debug, PartialEq, Eq)]
pub struct ObjectFault {
    pub rule: ObjectRule,
    pub at: usize,
}

impl ObjectFault {
    /// The code that stands for the fault: `O1` or `O9`.
    pub fn code(&self) -> &'static str
        ensures { result.now ≡ code_of self.now }
    {
        match self.rule {
            ObjectRule::Form => "O1",
            ObjectRule::Content => "O9",
        }
    }

    pub fn place(&self) -> Place
        ensures { numbers_of result ≡ self.now.at ∷ [] }
    {
        Place::At(self.at as u64)
    }
}

impl fmt::Display for ObjectFault {
    fn fmt<W: fmt::Write>(&self, f: &mut fmt::Formatter<W>) -> fmt::Result {
        let at = self.at;
        match self.rule {
            ObjectRule::Form => write!(f, "no object: see byte {at}"),
            ObjectRule::Content => write!(f, "an object with a wrong field at byte {at}"),
        }
    }
}

impl Error for ObjectFault {}

impl From<ObjectFault> for Refused<ObjectFault> {
    ghost from_gives = { λ fault refused. refused ≡ Fault fault };

    fn from(fault: ObjectFault) -> Refused<ObjectFault> {
        Refused::Fault(fault)
    }
}
