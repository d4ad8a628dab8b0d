// Of which types rows are.
ghost use Rattle.std.specs.Prelude.{◌≡◌, ◌++◌, List, [], IfOk, OnErr, OnOk, fold, length, map};
ghost use Rattle.std.specs.BTreeSet.{insert_key};
ghost use Rattle.std.specs.List.{All};
ghost use Rattle.profile_model.specs.Kinds.{parts_of};
ghost use Rattle.profile_model.specs.Stacks.{name_cmp};
ghost use Rattle.profile_model.specs.TypeTexts.{type_text};
ghost use Rattle.profile_model.specs.declared.profile.Profile.{Profile};
ghost use Rattle.query_merge.specs.Rows.{profiles_of};
ghost use Rattle.query_merge.specs.TypeLists.{HasFiveParts, type_texts_of, types_of};

use faults::Refused;
use profile_model::{Name, ProfileType};
use segment_file::{Part, Row};
use std::alloc::{AllocError, Global};
use std::collections::BTreeSet;
use std::marker::Model;

/// The distinct types of the rows that were added, by their texts.
#[derive(Drop)]
pub struct Types {
    alloc: Global,
    texts: BTreeSet<Name>,
}

impl Model for Types {
    ghost use Rattle.std.specs.Prelude.{List, ℕ};
    ghost use Rattle.std.specs.List.{All};
    ghost use Rattle.query_merge.specs.TypeLists.{HasFiveParts};

    ghost Value = { List (List ℕ) };

    ghost view = { λ t. t.texts.keys };

    ghost invariant = { λ t. All HasFiveParts t.texts.keys };
}

impl Types {
    /// No row was added. It takes no memory.
    pub fn new(alloc: Global) -> Types
        ensures none { result ≡ types_of [] }
    {
        Types {
            alloc,
            texts: BTreeSet::new(alloc),
        }
    }

    /// Adds the part's rows. Want of memory leaves all as it was.
    pub fn add(&mut self, part: &Part) -> Result<(), AllocError>
        ensures more { (profiles : List Profile) → self.old ≡ types_of profiles → OnOk result (self.new ≡ types_of (profiles ++ profiles_of part.now.rows)) }
        ensures err { OnErr result (self.new ≡ self.old) }
    {
        let mut texts = self.texts.clone()?;
        add_texts(self.alloc, &mut texts, &part.rows)?;
        self.texts = texts;
        Ok(())
    }

    /// The types, ascending by their texts, none twice.
    pub fn list(self) -> Result<Vec<ProfileType>, AllocError>
        ensures types { (profiles : List Profile) → self ≡ types_of profiles → IfOk result (λ types. map type_text types.items ≡ types_of profiles) }
    {
        let texts: Vec<Name> = self.texts.into_iter().collect(self.alloc)?;
        types_in(self.alloc, &texts)
    }
}

fn add_texts(alloc: Global, texts: &mut BTreeSet<Name>, rows: &[Row]) -> Result<(), AllocError>
    ensures { OnOk result (texts.new.keys ≡ fold (insert_key name_cmp) texts.old.keys (type_texts_of (profiles_of rows.now))) }
{
    for row in rows {
        texts.insert(text_of(alloc, &row.profile.kind)?)?;
    }
    Ok(())
}

fn text_of(alloc: Global, kind: &ProfileType) -> Result<Name, AllocError>
    ensures { IfOk result (λ text. text ≡ type_text kind.now) }
{
    let text = kind.to_string(alloc)?;
    Name::from_text(alloc, text.as_str())
}

fn types_in(alloc: Global, texts: &[Name]) -> Result<Vec<ProfileType>, AllocError>
    requires { All HasFiveParts texts.now }
    ensures { IfOk result (λ types. map type_text types.items ≡ texts.now) }
{
    let mut types = Vec::with_capacity(alloc, texts.len())?;
    for text in texts {
        types.push(type_of(alloc, text)?)?;
    }
    Ok(types)
}

fn type_of(alloc: Global, text: &Name) -> Result<ProfileType, AllocError>
    requires { HasFiveParts text.now }
    ensures { IfOk result (λ kind. type_text kind ≡ text.now) }
{
    match ProfileType::read(alloc, text.as_str()) {
        Ok(kind) => Ok(kind),
        Err(Refused::Memory) => Err(AllocError),
        // The text is that of a type.
        Err(Refused::Fault(_)) => unreachable!(),
    }
}
