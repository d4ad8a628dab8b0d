// A matcher as a text has it, before its pattern is built.
ghost use Rattle.std.specs.Prelude.{◌≡◌, string_bytes};
ghost use Rattle.faults.specs.Answers.{IsMapped};
ghost use Rattle.faults.specs.declared.refused.Refused.TheVariants.{Fault};
ghost use Rattle.selector.specs.Placed.{placed_at};
ghost use Rattle.selector.specs.Read.{pattern_length};

use crate::{Operator, SelectorFault};
use faults::Refused;

#[derive(Debug, Drop)]
pub(crate) struct Written<'a> {
    pub(crate) name: &'a str,
    pub(crate) operator: Operator,
    pub(crate) value: String,
}

impl Written<'_> {
    // How many bytes its pattern has, where it has one.
    pub(crate) fn pattern_len(&self) -> usize
        ensures { result ≡ pattern_length self.now.operator (string_bytes self.now.value) }
    {
        match self.operator {
            Operator::Finds | Operator::FindsNot => self.value.len(),
            Operator::Equal | Operator::NotEqual => 0,
        }
    }
}

// Why a rest of a text isn't read.
#[derive(Clone, Copy, Debug, PartialEq, Eq)]
pub(crate) enum ReadFault {
    // How many bytes are left from the first on with which no selector goes on.
    BreaksOff(usize),
}

impl ReadFault {
    // As a fault of a whole text that ends where the rest does.
    fn placed(self, length: usize) -> SelectorFault
        ensures { result ≡ placed_at length self }
    {
        match self {
            ReadFault::BreaksOff(left) => SelectorFault::Syntax(length.saturating_sub(left)),
        }
    }
}

impl From<ReadFault> for Refused<ReadFault> {
    ghost from_gives = { λ fault refused. refused ≡ Fault fault };

    fn from(fault: ReadFault) -> Refused<ReadFault> {
        Refused::Fault(fault)
    }
}

// Why a whole text of this length isn't read, where the rest that isn't read ends where the text does.
pub(crate) fn placed(refused: Refused<ReadFault>, length: usize) -> Refused<SelectorFault>
    ensures { IsMapped (λ fault placed. placed ≡ placed_at length fault) refused result }
{
    refused.map(|fault| fault.placed(length))
}
