// What names a profile's series.
ghost use Rattle.std.specs.Prelude.{◌≡◌, ◌≤◌, [], ◌∷◌, codes, find, length, nat_eq, IfOk, IsErrOf, OnErr, OnOk, option_map};
ghost use Rattle.std.specs.List.{list_all};
ghost use Rattle.std.specs.Cmp;
ghost use Rattle.std.specs.Cmp.Lexicographic.{pointwise};
ghost use Rattle.profile_model.specs.LabelSets.{AreLabels, AreProfileLabels, AreSound, IsLabel, IsLabelValue, begins_with_digit, has_label, is_label_byte, is_label_name, is_name_length, label_of, with_label, with_value, without_label};
ghost use Rattle.profile_model.specs.Limits.{most_labels};
ghost use Rattle.profile_model.specs.LabelPlaces.{IsPlace, put_all};
ghost use Rattle.profile_model.specs.LabelOrder.{labels_cmp, labels_eq, labels_equiv, labels_po, labels_ties, labels_total};
ghost use Rattle.profile_model.specs.ReadLabels.{IsPairFault, IsReadLabels};
ghost use Rattle.profile_model.specs.LabelFaults.{code_of, place_of};
ghost use Rattle.faults.specs.Answers.{IfAnswered};
ghost use Rattle.faults.specs.Places.{numbers_of};
ghost use Rattle.faults.specs.declared.refused.Refused.TheVariants.{Memory};

use crate::Name;
use crate::seen::Seen;
use faults::{Place, Refused};
use std::alloc::{AllocError, Global};
use std::cmp::Ordering;
use std::error::Error;
use std::fmt;
use std::marker::Model;

/// The label that names the service.
pub const SERVICE_LABEL: &str = "service_name";

/// The most labels that a request may give a profile. A service's name may be added to them.
pub const MAX_LABELS: usize = 30;

/// The most bytes that a label's name may have.
pub const MAX_NAME_BYTES: usize = 1024;

/// The most bytes that a label's value may have.
pub const MAX_VALUE_BYTES: usize = 2048;

/// Pairs of a name and a value, ascending by name, no name twice.
#[derive(Debug, Drop)]
pub struct LabelSet {
    pairs: Vec<(Name, Name)>,
}

impl Model for LabelSet {
    ghost use Rattle.std.specs.Prelude.{List, ℕ};
    ghost use Rattle.profile_model.specs.LabelSets.{AreLabels};

    ghost Value = { List (List ℕ × List ℕ) };

    ghost view = { λ l. l.pairs.items };

    ghost invariant = { λ l. AreLabels l.pairs.items };
}

/// Why pairs are no labels. The number is that of the first pair that breaks a rule, from 0.
#[derive(Clone, Copy, Debug, PartialEq, Eq)]
pub enum LabelFault {
    /// The name isn't 1 to 1,024 bytes of letters, digits, `_` and `.`, the first no digit.
    BadName(usize),
    /// The value has more than 2,048 bytes.
    BadValue(usize),
    /// An earlier pair has the name.
    Repeated(usize),
    /// More than 30 pairs have a value.
    TooMany,
}

impl LabelFault {
    /// The code that stands for the fault: `L1` to `L4`.
    pub fn code(&self) -> &'static str
        ensures { result.now ≡ code_of self.now }
    {
        match self {
            LabelFault::BadName(_) => "L1",
            LabelFault::BadValue(_) => "L2",
            LabelFault::Repeated(_) => "L3",
            LabelFault::TooMany => "L4",
        }
    }

    /// The number of the pair, none where there are too many.
    pub fn place(&self) -> Place
        ensures place { numbers_of result ≡ place_of self.now }
        ensures short { length (numbers_of result) ≤ 1 }
    {
        match self {
            LabelFault::BadName(at) | LabelFault::BadValue(at) | LabelFault::Repeated(at) => {
                Place::At(*at as u64)
            }
            LabelFault::TooMany => Place::Whole,
        }
    }
}

impl fmt::Display for LabelFault {
    fn fmt<W: fmt::Write>(&self, f: &mut fmt::Formatter<W>) -> fmt::Result {
        match self {
            LabelFault::BadName(at) => write!(f, "label {at} has a wrong name"),
            LabelFault::BadValue(at) => write!(
                f,
                "label {at} has a value of more than {MAX_VALUE_BYTES} bytes"
            ),
            LabelFault::Repeated(at) => write!(f, "label {at} has the name of an earlier one"),
            LabelFault::TooMany => write!(f, "more than {MAX_LABELS} labels"),
        }
    }
}

impl Error for LabelFault {}

impl LabelSet {
    /// The one label that names a service.
    pub fn of_service(alloc: Global, service: Name) -> Result<LabelSet, AllocError>
        requires { IsLabelValue service }
        ensures one { IfOk result (λ labels. labels ≡ (codes "service_name", service) ∷ []) }
        ensures profile { IfOk result AreProfileLabels }
    {
        let mut pairs = Vec::with_capacity(alloc, 1)?;
        pairs.push((Name::from_text(alloc, SERVICE_LABEL)?, service))?;
        Ok(LabelSet { pairs })
    }

    /// The labels that these pairs name, without those whose value is empty. Want of memory comes only of pairs
    /// that break no rule.
    pub fn from_pairs(
        alloc: Global,
        pairs: &[(Name, Name)],
    ) -> Result<LabelSet, Refused<LabelFault>>
        ensures read { IfAnswered (IsReadLabels pairs.now) result }
        ensures memory { IsErrOf result Memory → AreSound pairs.now × (length (with_value pairs.now) ≤ most_labels) }
        ensures few { IfOk result (λ labels. length labels ≤ most_labels) }
        ensures profile { IfOk result AreProfileLabels }
    {
        if let Some(fault) = first_fault(alloc, pairs) {
            return Err(Refused::Fault(fault));
        }
        if count_with_value(pairs) > MAX_LABELS {
            return Err(Refused::Fault(LabelFault::TooMany));
        }
        Ok(gathered(alloc, pairs)?)
    }

    pub fn pairs(&self) -> &[(Name, Name)]
        ensures value { result.now ≡ self.now }
        ensures labels { AreLabels self.now }
    {
        &self.pairs
    }

    /// The value of the label with this name.
    pub fn get(&self, name: &[u8]) -> Option<&Name>
        ensures { option_map (λ value. value.now) result ≡ label_of self.now name.now }
    {
        match find_label(&self.pairs, name) {
            Some(pair) => Some(&pair.1),
            None => None,
        }
    }

    /// The labels but for the one with this name. It takes no memory.
    pub fn without(mut self, name: &[u8]) -> LabelSet
        ensures others { result ≡ without_label self name.now }
        ensures profile { AreProfileLabels self → AreProfileLabels result }
    {
        self.pairs.retain(|pair| !has_key(pair, name));
        self
    }

    /// Puts the label in its place, or in the place of the one with its name.
    pub fn set(&mut self, name: Name, value: Name) -> Result<(), AllocError>
        ensures ok { OnOk result (self.new ≡ with_label self.old name value) }
        ensures profile { OnOk result (length self.old ≤ most_labels → AreProfileLabels self.old → IsLabel (name, value) → AreProfileLabels self.new) }
        ensures err { OnErr result (self.new ≡ self.old) }
    {
        match place_of(&self.pairs, &name) {
            Ok(at) => self.pairs[at] = (name, value),
            Err(at) => self.pairs.insert(at, (name, value))?,
        }
        Ok(())
    }
}

// Where the label of this name is, or else where it belongs.
fn place_of(pairs: &[(Name, Name)], name: &Name) -> Result<usize, usize>
    ensures { IsPlace pairs.now name.now result }
{
    for (at, pair) in pairs.iter().enumerate() {
        match name.cmp(&pair.0) {
            Ordering::Less => return Err(at),
            Ordering::Equal => return Ok(at),
            Ordering::Greater => {}
        }
    }
    Err(pairs.len())
}

// The labels of pairs that break no rule.
fn gathered(alloc: Global, pairs: &[(Name, Name)]) -> Result<LabelSet, AllocError>
    ensures { IfOk result (λ labels. labels ≡ put_all [] (with_value pairs.now)) }
{
    let mut labels = LabelSet {
        pairs: Vec::new(alloc),
    };
    for (name, value) in pairs {
        put_pair(&mut labels, name, value)?;
    }
    Ok(labels)
}

// Puts the pair in its place, if it has a value.
fn put_pair(labels: &mut LabelSet, name: &Name, value: &Name) -> Result<(), AllocError>
    ensures { OnOk result (labels.new ≡ put_all labels.old (with_value ((name.now, value.now) ∷ []))) }
{
    if value.is_empty() {
        return Ok(());
    }
    labels.set(name.clone()?, value.clone()?)
}

// The first pair that breaks a rule, if there is one.
fn first_fault(alloc: Global, pairs: &[(Name, Name)]) -> Option<LabelFault>
    ensures { IsPairFault pairs.now result }
{
    let mut seen = Seen::none(alloc);
    for (at, pair) in pairs.iter().enumerate() {
        let name = pair.0.as_bytes();
        if !is_label_name(name) {
            return Some(LabelFault::BadName(at));
        }
        if pair.1.len() > MAX_VALUE_BYTES {
            return Some(LabelFault::BadValue(at));
        }
        if seen.repeats(&pairs[..at], name) {
            return Some(LabelFault::Repeated(at));
        }
    }
    None
}

pub(crate) fn has_name(pairs: &[(Name, Name)], name: &[u8]) -> bool
    ensures { result ≡ has_label pairs.now name.now }
{
    pairs.iter().any(|pair| has_key(pair, name))
}

fn find_label<'p>(pairs: &'p [(Name, Name)], name: &[u8]) -> Option<&'p (Name, Name)>
    ensures { option_map (λ pair. pair.now) result ≡ find (λ pair. pointwise nat_eq name.now pair.0) pairs.now }
{
    pairs.iter().find(|pair| has_key(pair, name))
}

fn has_key(pair: &(Name, Name), name: &[u8]) -> bool
    ensures { result ≡ pointwise nat_eq name.now pair.now.0 }
{
    name == pair.0.as_bytes()
}

fn count_with_value(pairs: &[(Name, Name)]) -> usize
    ensures { result ≡ length (with_value pairs.now) }
{
    pairs.iter().filter(|pair| 0 < pair.1.len()).count()
}

fn is_label_name(name: &[u8]) -> bool
    ensures { result ≡ is_label_name name.now }
{
    is_name_length(name.len()) && has_label_bytes(name) && !begins_with_digit(name)
}

fn is_name_length(length: usize) -> bool
    ensures { result ≡ is_name_length length }
{
    0 < length && length <= MAX_NAME_BYTES
}

fn has_label_bytes(name: &[u8]) -> bool
    ensures { result ≡ list_all is_label_byte name.now }
{
    name.iter().all(|b| is_label_byte(*b))
}

fn begins_with_digit(name: &[u8]) -> bool
    ensures { result ≡ begins_with_digit name.now }
{
    match name {
        [] => false,
        [first, ..] => first.is_ascii_digit(),
    }
}

fn is_label_byte(byte: u8) -> bool
    ensures { result ≡ is_label_byte byte }
{
    byte.is_ascii_alphanumeric() || byte == b'_' || byte == b'.'
}

impl Clone for LabelSet {
    ghost is_clone = { λ labels copy. copy ≡ labels };

    fn clone(&self) -> Result<LabelSet, AllocError> {
        let pairs = self.pairs.clone()?;
        Ok(LabelSet { pairs })
    }
}

impl PartialEq for LabelSet {
    ghost eq = { labels_eq };

    ghost laws = { Cmp.partial_equiv_from_equiv labels_equiv };

    fn eq(&self, other: &Self) -> bool {
        self.pairs == other.pairs
    }
}

impl Eq for LabelSet {
    ghost laws = { labels_equiv };
}

impl PartialOrd for LabelSet {
    ghost use Rattle.std.specs.Prelude.{Some};

    ghost partial_cmp = { λ x y. Some (labels_cmp x y) };

    ghost laws = { labels_po };

    fn partial_cmp(&self, other: &Self) -> Option<Ordering> {
        Some(self.cmp(other))
    }
}

impl Ord for LabelSet {
    ghost use Rattle.std.specs.Prelude.{refl};

    ghost cmp = { labels_cmp };

    ghost total = { labels_total };

    ghost matches_partial_cmp = { λ x y. refl };

    ghost matches_eq = { labels_ties };

    fn cmp(&self, other: &Self) -> Ordering {
        self.pairs.cmp(&other.pairs)
    }
}
