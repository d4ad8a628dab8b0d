// The names of what levels show, and their numbers.
ghost use Rattle.std.specs.Prelude.{◌≡◌, length, map, codes, IfOk, OnOk, unwrap_or, nat_eq};
ghost use Rattle.std.specs.List.{All, flat_map};
ghost use Rattle.std.specs.Cmp.Lexicographic.{pointwise};
ghost use Rattle.flamebearer.specs.Branches.{stacks_of};
ghost use Rattle.flamebearer.specs.Names.{AreNumbered, with_name, with_names};
ghost use Rattle.flamebearer.specs.Pictures.{number_of};
ghost use Rattle.flamebearer.specs.Spots.{AreWithin, IsPlace, name_at};
ghost use Rattle.flamebearer.specs.Trees.{firsts};

use crate::branches::Frame;
use crate::levels::{Spot, Stands};
use profile_model::Name;
use std::alloc::{AllocError, Global};
use std::collections::BTreeMap;

// The names of the root, of each frame, and of what stands for others.
#[derive(Drop)]
pub(crate) struct Labels<'a> {
    frames: &'a [Frame],
    total: Name,
    other: Name,
    ghost root: { total ≡ codes "total" },
    ghost rest: { other ≡ codes "other" },
}

impl<'a> Labels<'a> {
    pub(crate) fn new(alloc: Global, frames: &'a [Frame]) -> Result<Labels<'a>, AllocError>
        ensures { IfOk result (λ labels. labels.frames.now ≡ frames.now) }
    {
        let total = Name::from_text(alloc, "total")?;
        let other = Name::from_text(alloc, "other")?;
        Ok(Labels {
            frames,
            total,
            other,
        })
    }

    fn name(&self, stands: Stands) -> &Name
        requires { IsPlace (length self.now.frames.now) stands }
        ensures { result.now ≡ name_at (stacks_of self.now.frames.now) stands }
    {
        match stands {
            Stands::Root => &self.total,
            Stands::At(place) => &self.frames[place].name,
            Stands::Others => &self.other,
        }
    }
}

// A name that has no number yet gets the next one.
fn add_name(
    names: &mut Vec<Name>,
    numbers: &mut BTreeMap<Name, u64>,
    name: &Name,
) -> Result<(), AllocError>
    requires { AreNumbered names.old.items numbers.old.entries }
    ensures names { OnOk result (names.new.items ≡ with_name names.old.items name.now) }
    ensures numbers { OnOk result (AreNumbered names.new.items numbers.new.entries) }
{
    if numbers.contains_key(name) {
        return Ok(());
    }
    let number = names.len() as u64;
    names.push(name.clone()?)?;
    numbers.insert(name.clone()?, number)?;
    Ok(())
}

// The names with those of a level.
fn add_names(
    names: &mut Vec<Name>,
    numbers: &mut BTreeMap<Name, u64>,
    labels: &Labels,
    level: &[Spot],
) -> Result<(), AllocError>
    requires numbered { AreNumbered names.old.items numbers.old.entries }
    requires places { All (λ spot. IsPlace (length labels.now.frames.now) spot.stands) level.now }
    ensures names { OnOk result (names.new.items ≡ with_names names.old.items (map (λ spot. name_at (stacks_of labels.now.frames.now) spot.stands) level.now)) }
    ensures numbers { OnOk result (AreNumbered names.new.items numbers.new.entries) }
{
    for spot in level {
        add_name(names, numbers, labels.name(spot.stands))?;
    }
    Ok(())
}

// The names of levels, each once, with their numbers.
pub(crate) fn names_of(
    alloc: Global,
    labels: &Labels,
    levels: &[Vec<Spot>],
) -> Result<(Vec<Name>, BTreeMap<Name, u64>), AllocError>
    requires { AreWithin (length labels.now.frames.now) (map (λ level. level.items) levels.now) }
    ensures names { IfOk result (λ parts. parts.0.items ≡ firsts (pointwise nat_eq)
        (flat_map (map (λ spot. name_at (stacks_of labels.now.frames.now) spot.stands)) (map (λ level. level.items) levels.now))) }
    ensures numbers { IfOk result (λ parts. AreNumbered parts.0.items parts.1.entries) }
{
    let mut names = Vec::new(alloc);
    let mut numbers = BTreeMap::new(alloc);
    for level in levels {
        add_names(&mut names, &mut numbers, labels, level)?;
    }
    Ok((names, numbers))
}

// The numbers of a level's names.
pub(crate) fn numbers_of(
    alloc: Global,
    labels: &Labels,
    numbers: &BTreeMap<Name, u64>,
    level: &[Spot],
) -> Result<Vec<u64>, AllocError>
    requires { All (λ spot. IsPlace (length labels.now.frames.now) spot.stands) level.now }
    ensures { IfOk result (λ row. (names : _) → AreNumbered names numbers.now.entries
        → row.items ≡ map (λ spot. number_of names (name_at (stacks_of labels.now.frames.now) spot.stands)) level.now) }
{
    let mut row = Vec::with_capacity(alloc, level.len())?;
    for spot in level {
        row.push(number_of(numbers, labels.name(spot.stands)))?;
    }
    Ok(row)
}

fn number_of(numbers: &BTreeMap<Name, u64>, name: &Name) -> u64
    ensures { (names : _) → AreNumbered names numbers.now.entries → result ≡ number_of names name.now }
{
    numbers.get(name).copied().unwrap_or(0)
}
