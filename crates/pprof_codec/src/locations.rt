// The locations of a profile, and the frames that each stands for.
ghost use Rattle.std.specs.Prelude.{◌≡◌, ◌==◌, ◌||◌, ◌^◌, ◌<◌, [], ◌∷◌, length, map, is_some, slice_get, IfOk, Some};
ghost use Rattle.std.specs.List.{list_all};
ghost use Rattle.std.specs.Option.{option_copied};
ghost use Rattle.pprof_message.specs.Gathered.{location_in};
ghost use Rattle.pprof_message.specs.Pprof.{Pprof};
ghost use Rattle.pprof_codec.specs.Frames.{address_frame, line_frame, location_frames, unknown_frame};
ghost use Rattle.pprof_codec.specs.Checks.{first_of, faults_of_location, location_faults};
ghost use Rattle.pprof_codec.specs.Tables.{AreFunctions, AreLocations, AreNumberedFrames, Judges, found_in, frame_numbered};

use crate::functions::Functions;
use crate::ids::Ids;
use crate::{Member, PprofFault};
use faults::Refused;
use pprof_message::{LocationRef, PprofMessage};
use profile_model::Name;
use std::alloc::{AllocError, Global};
use std::marker::Model;
use std::slice;

// The frames of one location, the innermost first.
#[derive(Drop)]
pub(crate) struct Frames {
    names: Names,
}

// Most locations have one frame, which needs no list of its own.
#[derive(Drop)]
enum Names {
    One(Name),
    Many(Vec<Name>),
}

impl Model for Frames {
    ghost use Rattle.std.specs.Prelude.{List, ℕ};
    ghost use Rattle.pprof_codec.specs.LocationFrames.{names_in};

    ghost Value = { List (List ℕ) };

    ghost view = { λ f. names_in f.names };
}

impl Frames {
    fn one(name: Name) -> Frames
        ensures { result ≡ name ∷ [] }
    {
        Frames {
            names: Names::One(name),
        }
    }

    fn many(names: Vec<Name>) -> Frames
        ensures { result ≡ names.items }
    {
        Frames {
            names: Names::Many(names),
        }
    }

    pub(crate) fn as_slice(&self) -> &[Name]
        ensures { result.now ≡ self.now }
    {
        match &self.names {
            Names::One(name) => slice::from_ref(name),
            Names::Many(names) => names.as_slice(),
        }
    }

    pub(crate) fn len(&self) -> usize
        ensures { result ≡ length self.now }
    {
        self.as_slice().len()
    }
}

// Each location's frames, found by the location's id.
#[derive(Drop)]
pub(crate) struct Locations {
    ids: Ids,
    frames: Vec<Frames>,
    // Those frames by their numbers.
    numbers: Vec<Vec<usize>>,
    ghost even: { length frames.items ≡ length ids },
    ghost numbered: { length numbers.items ≡ length ids },
}

impl Locations {
    // The locations, in their order.
    pub(crate) fn read(
        alloc: Global,
        message: &PprofMessage,
        unknown: &Name,
        functions: &Functions,
    ) -> Result<Locations, Refused<PprofFault>>
        requires name { unknown.now ≡ unknown_frame }
        requires functions { AreFunctions message.now functions.now.ids functions.now.frames.items }
        requires places { map (frame_numbered message.now) functions.now.places.items ≡ functions.now.frames.items }
        ensures { Judges result (location_faults message.now) (λ table.
            AreLocations message.now table.ids table.frames.items × AreNumberedFrames message.now table.numbers.items) }
    {
        let mut ids = Ids::new(alloc);
        let mut frames = Vec::with_capacity(alloc, message.locations())?;
        let mut numbers = Vec::with_capacity(alloc, message.locations())?;
        for number in 0..message.locations() {
            let location = message.location(number);
            if let Some(fault) = location_fault(functions, &ids, number as u64, &location) {
                return Err(Refused::Fault(fault));
            }
            ids.push(location.id)?;
            frames.push(frames_of(alloc, unknown, functions, &location)?)?;
            numbers.push(numbers_of(alloc, message, functions, number, &location)?)?;
        }
        Ok(Locations {
            ids,
            frames,
            numbers,
        })
    }

    // The frames of the location with this id.
    pub(crate) fn frames(&self, id: u64) -> Option<&Frames>
        ensures { option_copied result ≡ found_in self.now.ids self.now.frames.items id }
    {
        let number = self.ids.number(id)?;
        Some(&self.frames[number])
    }

    // The numbers of the frames of the location with this id.
    pub(crate) fn numbers(&self, id: u64) -> Option<&Vec<usize>>
        ensures { option_copied result ≡ found_in self.now.ids self.now.numbers.items id }
    {
        let number = self.ids.number(id)?;
        Some(&self.numbers[number])
    }
}

// The first fault of a location, where those before it have these ids.
fn location_fault(
    functions: &Functions,
    ids: &Ids,
    number: u64,
    location: &LocationRef,
) -> Option<PprofFault>
    ensures { (pprof : Pprof) → AreFunctions pprof functions.now.ids functions.now.frames.items →
        result ≡ first_of (faults_of_location pprof ids.now number (location_in location.now)) }
{
    let member = Member::Location;
    if location.id == 0 {
        return Some(PprofFault::ZeroId { member, number });
    }
    if ids.number(location.id).is_some() {
        return Some(PprofFault::RepeatedId { member, number });
    }
    if !has_functions(functions, location.lines) {
        return Some(PprofFault::NoSuchFunction { location: number });
    }
    None
}

// Whether each line names a function, or 0 for none.
fn has_functions(functions: &Functions, ids: &[u64]) -> bool
    ensures { result ≡ list_all (λ id. (id == 0) || is_some (found_in functions.now.ids functions.now.frames.items id)) ids.now }
{
    ids.iter().all(|id| *id == 0 || functions.has(*id))
}

// The frames of a location that has no fault.
fn frames_of(
    alloc: Global,
    unknown: &Name,
    functions: &Functions,
    location: &LocationRef,
) -> Result<Frames, AllocError>
    requires { unknown.now ≡ unknown_frame }
    ensures { (pprof : Pprof) → AreFunctions pprof functions.now.ids functions.now.frames.items →
        IfOk result (λ frames. frames ≡ location_frames pprof (location_in location.now)) }
{
    if location.lines.is_empty() {
        return frames_of_address(alloc, location.address);
    }
    if let [id] = location.lines {
        let frame = line_frame(unknown, functions, *id);
        return Ok(Frames::one(frame.clone()?));
    }
    let mut names = Vec::with_capacity(alloc, location.lines.len())?;
    for id in location.lines {
        let frame = line_frame(unknown, functions, *id);
        names.push(frame.clone()?)?;
    }
    Ok(Frames::many(names))
}

fn frames_of_address(alloc: Global, address: u64) -> Result<Frames, AllocError>
    ensures { IfOk result (λ frames. frames ≡ address_frame address ∷ []) }
{
    let text = format!(in alloc; "0x{address:x}")?;
    Ok(Frames::one(Name::from_text(alloc, &text)?))
}

// The frame of the line's function.
fn line_frame<'a>(unknown: &'a Name, functions: &'a Functions, id: u64) -> &'a Name
    requires { unknown.now ≡ unknown_frame }
    ensures { (pprof : Pprof) → AreFunctions pprof functions.now.ids functions.now.frames.items →
        result.now ≡ line_frame pprof id }
{
    if id == 0 {
        return unknown;
    }
    match functions.frame(id) {
        Some(frame) => frame,
        None => unknown,
    }
}

// The numbers of the frames of the location with this number, the innermost first.
fn numbers_of(
    alloc: Global,
    message: &PprofMessage,
    functions: &Functions,
    number: usize,
    location: &LocationRef,
) -> Result<Vec<usize>, AllocError>
    requires bound { number < 2 ^ 63 }
    requires is { slice_get message.now.locations number ≡ Some (location_in location.now) }
    requires functions { AreFunctions message.now functions.now.ids functions.now.frames.items }
    requires places { map (frame_numbered message.now) functions.now.places.items ≡ functions.now.frames.items }
    ensures { IfOk result (λ numbers. map (frame_numbered message.now) numbers.items ≡ location_frames message.now (location_in location.now)) }
{
    if !location.lines.is_empty() {
        return line_numbers(alloc, message, functions, location.lines);
    }
    let mut numbers = Vec::with_capacity(alloc, 1)?;
    numbers.push(message.texts().len() + 1 + number)?;
    Ok(numbers)
}

fn line_numbers(
    alloc: Global,
    message: &PprofMessage,
    functions: &Functions,
    ids: &[u64],
) -> Result<Vec<usize>, AllocError>
    requires functions { AreFunctions message.now functions.now.ids functions.now.frames.items }
    requires places { map (frame_numbered message.now) functions.now.places.items ≡ functions.now.frames.items }
    ensures { IfOk result (λ numbers. map (frame_numbered message.now) numbers.items ≡ map (line_frame message.now) ids.now) }
{
    let mut numbers = Vec::with_capacity(alloc, ids.len())?;
    for id in ids {
        numbers.push(line_number(message, functions, *id))?;
    }
    Ok(numbers)
}

// The number of the frame of the line's function.
fn line_number(message: &PprofMessage, functions: &Functions, id: u64) -> usize
    requires functions { AreFunctions message.now functions.now.ids functions.now.frames.items }
    requires places { map (frame_numbered message.now) functions.now.places.items ≡ functions.now.frames.items }
    ensures { frame_numbered message.now result ≡ line_frame message.now id }
{
    let unknown = message.texts().len();
    if id == 0 {
        return unknown;
    }
    match functions.place(id) {
        Some(place) => place,
        None => unknown,
    }
}
