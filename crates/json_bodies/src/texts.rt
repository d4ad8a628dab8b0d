// Texts that are kept of a body.
ghost use Rattle.std.specs.Prelude.{◌≡◌, ◌++◌, ◌∷◌, [], IfOk, OnOk, length, map, string_bytes};

use std::alloc::{AllocError, Global};
use std::marker::Model;

#[derive(Debug, Drop)]
pub(crate) struct Texts {
    texts: Vec<String>,
}

impl Model for Texts {
    ghost use Rattle.std.specs.Prelude.{List, ℕ, map, string_bytes};

    ghost Value = { List (List ℕ) };

    ghost view = { λ t. map string_bytes t.texts.items };
}

impl Texts {
    pub(crate) fn new(alloc: Global) -> Texts
        ensures { result ≡ [] }
    {
        Texts {
            texts: Vec::new(alloc),
        }
    }

    pub(crate) fn push(&mut self, alloc: Global, text: &str) -> Result<(), AllocError>
        ensures { OnOk result (self.new ≡ self.old ++ text.now ∷ []) }
    {
        let text = String::from_str(alloc, text)?;
        self.texts.push(text)?;
        Ok(())
    }

    pub(crate) fn len(&self) -> usize
        ensures { result ≡ length self.now }
    {
        self.texts.len()
    }

    pub(crate) fn to_slices(&self, alloc: Global) -> Result<Vec<&str>, AllocError>
        ensures { IfOk result (λ slices. map (λ slice. slice.now) slices.items ≡ self.now) }
    {
        slices_of(alloc, &self.texts)
    }
}

fn slices_of(alloc: Global, texts: &[String]) -> Result<Vec<&str>, AllocError>
    ensures { IfOk result (λ slices. map (λ slice. slice.now) slices.items ≡ map string_bytes texts.now) }
{
    let mut slices = Vec::with_capacity(alloc, texts.len())?;
    for text in texts {
        slices.push(text.as_str())?;
    }
    Ok(slices)
}
