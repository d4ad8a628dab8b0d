// The labels of a profile, as a file has them.
ghost use Rattle.std.specs.Prelude.{◌≡◌, [], MatchResult};
ghost use Rattle.faults.specs.Answers.{IfFault};
ghost use Rattle.std.specs.List.{list_all};
ghost use Rattle.profile_model.specs.LabelSets.{begins_with_digit, is_label_byte, is_label_name, is_name_length};
ghost use Rattle.segment_file.specs.Files.{label_fields, labels_fields};
ghost use Rattle.segment_file.specs.ReadFields.{AreRead, IsFieldRead, IsNextRead, IsRead, count_field, few_labels, is_above_labels, is_label_value, is_next_name, judged};

use crate::ObjectFault;
use crate::reader::Reader;
use crate::texts::content;
use faults::Refused;
use profile_model::{LabelSet, MAX_LABELS, MAX_NAME_BYTES, MAX_VALUE_BYTES, Name};
use std::alloc::Global;

/// The most labels of a profile: those of a request, and the name of its service.
const MAX_PROFILE_LABELS: usize = MAX_LABELS + 1;

impl<'b> Reader<'b> {
    pub(crate) fn labels(&mut self, alloc: Global) -> Result<LabelSet, Refused<ObjectFault>>
        ensures { IsRead labels_fields (λ labels. labels) self.old.cursor self.new.cursor result }
    {
        let count = self.labels_count()?;
        self.counted_labels(alloc, count)
    }

    fn labels_count(&mut self) -> Result<u32, Refused<ObjectFault>>
        ensures { IsFieldRead (count_field few_labels) self.old.cursor self.new.cursor result }
    {
        let at = self.cursor.at();
        let count = self.cursor.four()?;
        if count as usize > MAX_PROFILE_LABELS {
            return Err(content(at));
        }
        Ok(count)
    }

    fn counted_labels(
        &mut self,
        alloc: Global,
        count: u32,
    ) -> Result<LabelSet, Refused<ObjectFault>>
        ensures { AreRead count label_fields (λ labels. labels) self.old.cursor self.new.cursor result }
    {
        let mut labels = no_labels(alloc)?;
        for _ in 0..count {
            self.label(alloc, &mut labels)?;
        }
        Ok(labels)
    }

    // Reads the label behind these.
    fn label(&mut self, alloc: Global, labels: &mut LabelSet) -> Result<(), Refused<ObjectFault>>
        ensures { IsNextRead label_fields labels.old labels.new self.old.cursor self.new.cursor result }
    {
        let name = self.label_name(alloc, labels)?;
        let value = self.label_value(alloc)?;
        labels.set(name, value)?;
        Ok(())
    }

    fn label_name(&mut self, alloc: Global, labels: &LabelSet) -> Result<Name, Refused<ObjectFault>>
        ensures { IsFieldRead (judged (is_next_name labels.now)) self.old.cursor self.new.cursor result }
    {
        let at = self.cursor.at();
        let name = self.cursor.text()?;
        self.texts.kept(alloc, name, at, is_next_name(labels, name))
    }

    fn label_value(&mut self, alloc: Global) -> Result<Name, Refused<ObjectFault>>
        ensures { IsFieldRead (judged is_label_value) self.old.cursor self.new.cursor result }
    {
        let at = self.cursor.at();
        let value = self.cursor.text()?;
        self.texts.kept(alloc, value, at, is_label_value(value))
    }
}

// No pairs break no rule, so only memory can be wanting.
fn no_labels(alloc: Global) -> Result<LabelSet, Refused<ObjectFault>>
    ensures { MatchResult result (λ labels. labels ≡ []) (IfFault (λ _. ⊥)) }
{
    match LabelSet::from_pairs(alloc, &[]) {
        Ok(labels) => Ok(labels),
        Err(_) => Err(Refused::Memory),
    }
}

fn is_next_name(labels: &LabelSet, name: &[u8]) -> bool
    ensures { result ≡ is_next_name labels.now name.now }
{
    is_label_name(name) && is_above(labels, name)
}

fn is_label_value(value: &[u8]) -> bool
    ensures { result ≡ is_label_value value.now }
{
    0 < value.len() && value.len() <= MAX_VALUE_BYTES
}

// Labels ascend, so the last tells.
fn is_above(labels: &LabelSet, name: &[u8]) -> bool
    ensures { result ≡ is_above_labels labels.now name.now }
{
    match labels.pairs() {
        [.., last] => last.0.as_bytes().cmp(name).is_lt(),
        [] => true,
    }
}

fn is_label_name(name: &[u8]) -> bool
    ensures { result ≡ is_label_name name.now }
{
    is_name_length(name.len()) && has_label_bytes(name) && !begins_with_digit(name)
}

fn is_name_length(length: usize) -> bool
    ensures { result ≡ is_name_length length }
{
    0 < length && length <= MAX_NAME_BYTES
}

fn has_label_bytes(name: &[u8]) -> bool
    ensures { result ≡ list_all is_label_byte name.now }
{
    name.iter().all(|b| is_label_byte(*b))
}

fn begins_with_digit(name: &[u8]) -> bool
    ensures { result ≡ begins_with_digit name.now }
{
    match name {
        [] => false,
        [first, ..] => first.is_ascii_digit(),
    }
}

fn is_label_byte(byte: u8) -> bool
    ensures { result ≡ is_label_byte byte }
{
    byte.is_ascii_alphanumeric() || byte == b'_' || byte == b'.'
}
