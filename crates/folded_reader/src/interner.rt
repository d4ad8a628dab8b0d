// The names of a body, each kept once.
ghost use Rattle.std.specs.Prelude.{◌≡◌, IfOk, length};
ghost use Rattle.std.specs.List.{All};
ghost use Rattle.profile_model.specs.Stacks.{IsStack};
ghost use Rattle.folded_reader.specs.Lines.{frames_of};

use profile_model::{Name, Stack};
use std::alloc::{AllocError, Global};
use std::collections::BTreeMap;
use std::sync::ArcSlice;

// Each text of a frame that was met, with its name. An ordered map, since no choice of texts makes it slow.
#[derive(Drop)]
pub(crate) struct Interner<'a> {
    names: BTreeMap<&'a str, Name>,
    ghost same: { All (λ entry. entry.1 ≡ entry.0.now) (names.entries) },
}

impl<'a> Interner<'a> {
    pub(crate) fn new(alloc: Global) -> Interner<'a> {
        Interner {
            names: BTreeMap::new(alloc),
        }
    }

    // The stack of a text that depth_of took.
    pub(crate) fn stack(
        &mut self,
        alloc: Global,
        text: &'a str,
        depth: usize,
    ) -> Result<Stack, AllocError>
        requires { IsStack (frames_of text.now) }
        ensures { IfOk result (λ stack. stack ≡ frames_of text.now) }
    {
        let mut frames = Vec::with_capacity(alloc, depth)?;
        for frame in text.split(';') {
            let name = self.name(alloc, frame)?;
            frames.push(name)?;
        }
        match Stack::from_frames(ArcSlice::from_vec(frames)?) {
            Ok(stack) => Ok(stack),
            Err(_) => unreachable!(),
        }
    }

    fn name(&mut self, alloc: Global, frame: &'a str) -> Result<Name, AllocError>
        ensures { IfOk result (λ name. name ≡ frame.now) }
    {
        if let Some(name) = self.names.get(frame) {
            return name.clone();
        }
        let name = Name::from_text(alloc, frame)?;
        let kept = name.clone()?;
        match self.names.insert(frame, kept) {
            Ok(_) => Ok(name),
            Err(_) => Err(AllocError),
        }
    }
}
