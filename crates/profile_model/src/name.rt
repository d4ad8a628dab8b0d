// A text that many profiles share.
ghost use Rattle.std.specs.Prelude.{◌≡◌, ◌↔◌, [], length, IfOk, IsErrOf, IsTrue, nat_eq, refl, Some};
ghost use Rattle.std.specs.Str.{IsUtf8, IsValidUpTo};
ghost use Rattle.std.specs.Ordering.{nat_cmp};
ghost use Rattle.std.specs.Cmp.Lexicographic.{pointwise, slice_cmp, nat_list_eq_equiv, nat_list_cmp_total, texts_ties, texts_po};
ghost use Rattle.std.specs.Cmp;
ghost use Rattle.profile_model.specs.Stacks.{name_cmp};
ghost use Rattle.profile_model.specs.Names.{IsReadName};
ghost use Rattle.profile_model.specs.CleanedTexts.{clean_byte, cleaned};
ghost use Rattle.profile_model.specs.Kinds.{IsPart};
ghost use Rattle.faults.specs.Answers.{IfAnswered};
ghost use Rattle.faults.specs.declared.refused.Refused.TheVariants.{Memory};

use faults::Refused;
use std::alloc::{AllocError, Global};
use std::cmp::Ordering;
use std::error::Error;
use std::fmt;
use std::marker::Model;
use std::sync::ArcStr;

/// A UTF-8 text: a frame, a label's name or value, a part of a profile's type.
/// It is shared: a clone copies no bytes.
#[derive(Drop)]
pub struct Name {
    text: ArcStr,
}

impl Model for Name {
    ghost use Rattle.std.specs.Prelude.{List, ℕ};
    ghost use Rattle.std.specs.Arc.{arc_str_bytes};

    ghost Value = { List ℕ };

    ghost view = { λ n. arc_str_bytes n.text };
}

/// Why bytes are no name.
#[derive(Clone, Copy, Debug, PartialEq, Eq)]
pub enum NameFault {
    /// The bytes aren't UTF-8; the place is the length of their longest valid prefix.
    NotUtf8(usize),
}

impl fmt::Display for NameFault {
    fn fmt<W: fmt::Write>(&self, f: &mut fmt::Formatter<W>) -> fmt::Result {
        match self {
            NameFault::NotUtf8(at) => write!(f, "no UTF-8 at byte {at}"),
        }
    }
}

impl Error for NameFault {}

impl Name {
    /// The text of these bytes.
    pub fn read(alloc: Global, bytes: &[u8]) -> Result<Name, Refused<NameFault>>
        ensures read { IfAnswered (IsReadName bytes.now) result }
        ensures memory { IsErrOf result Memory → IsUtf8 bytes.now }
    {
        match str::from_utf8(bytes) {
            Ok(text) => Ok(Name::from_text(alloc, text)?),
            Err(fault) => Err(Refused::Fault(NameFault::NotUtf8(fault.valid_up_to()))),
        }
    }

    /// A copy of the text, which is shared from then on.
    pub fn from_text(alloc: Global, text: &str) -> Result<Name, AllocError>
        ensures ok { IfOk result (λ name. name ≡ text.now) }
    {
        let text = ArcStr::from_str(alloc, text)?;
        Ok(Name { text })
    }

    /// The text with `_` in the place of each `:`, `{`, `}` and `"`: a part of a type, whatever the text.
    pub fn cleaned(alloc: Global, text: &str) -> Result<Name, AllocError>
        ensures value { IfOk result (λ name. name ≡ cleaned text.now) }
        ensures part { IfOk result IsPart }
    {
        let bytes: Vec<u8> = text
            .as_bytes()
            .iter()
            .map(|b| clean_byte(*b))
            .collect(alloc)?;
        // ASCII bytes that stand for ASCII bytes leave UTF-8, so this is never refused.
        match str::from_utf8(&bytes) {
            Ok(text) => Name::from_text(alloc, text),
            Err(_) => Err(AllocError),
        }
    }

    pub fn as_str(&self) -> &str
        ensures { result.now ≡ self.now }
    {
        self.text.as_str()
    }

    pub fn as_bytes(&self) -> &[u8]
        ensures value { result.now ≡ self.now }
        ensures utf8 { IsUtf8 self.now }
    {
        self.text.as_str().as_bytes()
    }

    /// In bytes.
    pub fn len(&self) -> usize
        ensures { result ≡ length self.now }
    {
        self.text.len()
    }

    pub fn is_empty(&self) -> bool
        ensures { IsTrue result ↔ (self.now ≡ []) }
    {
        self.text.len() == 0
    }
}

fn clean_byte(byte: u8) -> u8
    ensures { result ≡ clean_byte byte }
{
    if matches!(byte, b':' | b'{' | b'}' | b'"') {
        b'_'
    } else {
        byte
    }
}

impl Clone for Name {
    ghost is_clone = { λ name copy. copy ≡ name };

    fn clone(&self) -> Result<Name, AllocError> {
        let text = self.text.clone()?;
        Ok(Name { text })
    }
}

impl PartialEq for Name {
    ghost eq = { pointwise nat_eq };

    ghost laws = { Cmp.partial_equiv_from_equiv nat_list_eq_equiv };

    fn eq(&self, other: &Self) -> bool {
        self.as_str() == other.as_str()
    }
}

impl Eq for Name {
    ghost laws = { nat_list_eq_equiv };
}

impl PartialOrd for Name {
    ghost partial_cmp = { λ x y. Some (name_cmp x y) };

    ghost laws = { texts_po };

    fn partial_cmp(&self, other: &Self) -> Option<Ordering> {
        Some(self.cmp(other))
    }
}

impl Ord for Name {
    ghost cmp = { name_cmp };

    ghost total = { nat_list_cmp_total };

    ghost matches_partial_cmp = { λ x y. refl };

    ghost matches_eq = { texts_ties };

    fn cmp(&self, other: &Self) -> Ordering {
        self.as_str().cmp(other.as_str())
    }
}

impl fmt::Display for Name {
    ghost output = { λ name. Some name };

    fn fmt<W: fmt::Write>(&self, f: &mut fmt::Formatter<W>) -> fmt::Result {
        f.pad(self.as_str())
    }
}

impl fmt::Debug for Name {
    fn fmt<W: fmt::Write>(&self, f: &mut fmt::Formatter<W>) -> fmt::Result {
        fmt::Debug::fmt(&self.as_str(), f)
    }
}
