// The functions of a profile, and the frame that each stands for.
ghost use Rattle.std.specs.Prelude.{◌≡◌, ◌<◌, ℕ, List, [], ◌∷◌, ◌++◌, length, get_or, map, is_some, MatchOption};
ghost use Rattle.std.specs.Option.{option_copied};
ghost use Rattle.pprof_codec.specs.Members.{text_at};
ghost use Rattle.pprof_codec.specs.Frames.{function_frame, unknown_frame};
ghost use Rattle.pprof_codec.specs.Checks.{first_of, faults_of_function, function_faults};
ghost use Rattle.pprof_codec.specs.Tables.{Judges, found_in};

use crate::ids::Ids;
use crate::texts::{has_names, text_at};
use crate::{Member, PprofFault};
use faults::Refused;
use pprof_message::Function;
use profile_model::{MAX_FRAME_BYTES, Name};
use std::alloc::Global;

// The frame of what has no name.
pub(crate) const UNKNOWN_FRAME: &str = "[unknown]";

// Each function's frame, found by the function's id.
#[derive(Drop)]
pub(crate) struct Functions {
    ids: Ids,
    frames: Vec<Name>,
    // The place of each frame among the texts.
    places: Vec<usize>,
    ghost even: { length frames.items ≡ length ids },
    ghost placed: { length places.items ≡ length ids },
}

impl Functions {
    // The functions, in their order. `unknown` is the frame of one without a name.
    pub(crate) fn read(
        alloc: Global,
        names: &[Name],
        unknown: &Name,
        functions: &[Function],
    ) -> Result<Functions, Refused<PprofFault>>
        requires { unknown.now ≡ unknown_frame }
        ensures { Judges result (function_faults names.now functions.now) (λ table.
            (table.ids ≡ map (λ f. f.id) functions.now) × (table.frames.items ≡ map (function_frame names.now) functions.now)
            × ((rest : List (List ℕ)) → map (λ place. get_or (names.now ++ unknown_frame ∷ rest) place []) table.places.items ≡ map (function_frame names.now) functions.now)) }
    {
        let mut ids = Ids::new(alloc);
        let mut frames = Vec::with_capacity(alloc, functions.len())?;
        let mut places = Vec::with_capacity(alloc, functions.len())?;
        for (number, function) in functions.iter().enumerate() {
            let frame = frame_of(names, unknown, function);
            if let Some(fault) = function_fault(names, &ids, number as u64, function, frame) {
                return Err(Refused::Fault(fault));
            }
            ids.push(function.id)?;
            frames.push(frame.clone()?)?;
            places.push(place_of(names, function))?;
        }
        Ok(Functions {
            ids,
            frames,
            places,
        })
    }

    // The frame of the function with this id.
    pub(crate) fn frame(&self, id: u64) -> Option<&Name>
        ensures { option_copied result ≡ found_in self.now.ids self.now.frames.items id }
    {
        let number = self.ids.number(id)?;
        Some(&self.frames[number])
    }

    // The place of the frame of the function with this id.
    pub(crate) fn place(&self, id: u64) -> Option<usize>
        ensures { result ≡ found_in self.now.ids self.now.places.items id }
    {
        let number = self.ids.number(id)?;
        Some(self.places[number])
    }

    // Whether there is a function with this id.
    pub(crate) fn has(&self, id: u64) -> bool
        ensures { result ≡ is_some (found_in self.now.ids self.now.frames.items id) }
    {
        self.frame(id).is_some()
    }
}

// The first fault of a function, where those before it have these ids.
fn function_fault(
    names: &[Name],
    ids: &Ids,
    number: u64,
    function: &Function,
    frame: &Name,
) -> Option<PprofFault>
    requires { frame.now ≡ function_frame names.now function.now }
    ensures { result ≡ first_of (faults_of_function names.now ids.now number function.now) }
{
    let member = Member::Function;
    if function.id == 0 {
        return Some(PprofFault::ZeroId { member, number });
    }
    if ids.number(function.id).is_some() {
        return Some(PprofFault::RepeatedId { member, number });
    }
    if !has_names(names, function) {
        return Some(PprofFault::NoSuchText { member, number });
    }
    if frame.len() > MAX_FRAME_BYTES {
        return Some(PprofFault::LongFrame { function: number });
    }
    None
}

// The function's name, else its system name.
fn frame_of<'a>(names: &'a [Name], unknown: &'a Name, function: &Function) -> &'a Name
    requires { unknown.now ≡ unknown_frame }
    ensures { result.now ≡ function_frame names.now function.now }
{
    if let Some(name) = filled(names, function.name) {
        return name;
    }
    match filled(names, function.system_name) {
        Some(name) => name,
        None => unknown,
    }
}

// The text at this place, where it has bytes.
fn filled(names: &[Name], place: i64) -> Option<&Name>
    ensures { MatchOption result (text_at names.now place ≡ []) (λ name. (name.now ≡ text_at names.now place) × (0 < length name.now)) }
{
    let name = text_at(names, place)?;
    if name.is_empty() { None } else { Some(name) }
}

// The place of the function's frame among the texts, and for the unknown frame the place after them.
fn place_of(names: &[Name], function: &Function) -> usize
    ensures { (rest : List (List ℕ)) → get_or (names.now ++ unknown_frame ∷ rest) result [] ≡ function_frame names.now function.now }
{
    if let Some(place) = filled_place(names, function.name) {
        return place;
    }
    match filled_place(names, function.system_name) {
        Some(place) => place,
        None => names.len(),
    }
}

// The place as a number, where its text has bytes.
fn filled_place(names: &[Name], place: i64) -> Option<usize>
    ensures { MatchOption result (text_at names.now place ≡ []) (λ at. (at < length names.now) × (get_or names.now at [] ≡ text_at names.now place) × (0 < length (get_or names.now at []))) }
{
    if place < 0 {
        return None;
    }
    let name = names.get(place as usize)?;
    if name.is_empty() {
        None
    } else {
        Some(place as usize)
    }
}
