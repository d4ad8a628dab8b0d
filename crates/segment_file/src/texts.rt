// The texts of a file, each kept once.
ghost use Rattle.std.specs.Prelude.{◌≡◌, IfOk, MatchResult, true};
ghost use Rattle.std.specs.List.{All};
ghost use Rattle.faults.specs.Answers.{IfFault};
ghost use Rattle.faults.specs.declared.refused.Refused.TheVariants.{Fault};
ghost use Rattle.segment_file.specs.declared.fault.ObjectRule.TheVariants.{Content};
ghost use Rattle.segment_file.specs.Reading.{IsContentAt, is_kept};

use crate::{ObjectFault, ObjectRule};
use faults::Refused;
use profile_model::Name;
use std::alloc::{AllocError, Global};
use std::collections::BTreeMap;

// Each text that was met, with its name. An ordered map, since no choice of texts makes it slow.
#[derive(Drop)]
pub(crate) struct Texts<'b> {
    names: BTreeMap<&'b str, Name>,
    ghost same: { All (λ entry. entry.1 ≡ entry.0.now) (names.entries) },
}

impl<'b> Texts<'b> {
    pub(crate) fn new(alloc: Global) -> Texts<'b> {
        Texts {
            names: BTreeMap::new(alloc),
        }
    }

    // The name of these bytes, which stand at this place, where they keep their rule and are UTF-8.
    pub(crate) fn kept(
        &mut self,
        alloc: Global,
        bytes: &'b [u8],
        at: usize,
        sound: bool,
    ) -> Result<Name, Refused<ObjectFault>>
        ensures { MatchResult result
            (λ name. (is_kept sound bytes.now ≡ true) × (name ≡ bytes.now)) (IfFault (IsContentAt (is_kept sound bytes.now) at)) }
    {
        if !sound {
            return Err(content(at));
        }
        match str::from_utf8(bytes) {
            Ok(text) => Ok(self.name(alloc, text)?),
            Err(_) => Err(content(at)),
        }
    }

    fn name(&mut self, alloc: Global, text: &'b str) -> Result<Name, AllocError>
        ensures { IfOk result (λ name. name ≡ text.now) }
    {
        if let Some(name) = self.names.get(text) {
            return name.clone();
        }
        let name = Name::from_text(alloc, text)?;
        let kept = name.clone()?;
        match self.names.insert(text, kept) {
            Ok(_) => Ok(name),
            Err(_) => Err(AllocError),
        }
    }
}

// The fault of a field that breaks a rule of what an object holds.
pub(crate) fn content(at: usize) -> Refused<ObjectFault>
    ensures { result ≡ Fault (record { rule = Content; at = at }) }
{
    Refused::Fault(ObjectFault {
        rule: ObjectRule::Content,
        at,
    })
}
