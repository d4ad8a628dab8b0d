ghost use Rattle.std.specs.Prelude.{◌≡◌};

use super::*;
use profile_model::{Profiles, Push, Tenant};
use std::alloc::Global;
use std::marker::Brand;
use std::sync::{Mutex, Wait};
use std::test::*;
use std::thread;
use std::thread::Threads;

// Where a history and its numbers stop growing here.
const MOST: u64 = 1 << 20;

// How often each thread takes the lock.
const ROUNDS: u64 = 1000;

// A list of pushes, which it holds.
#[derive(Drop)]
struct Held {
    pushes: Vec<Push>,
}

impl Standing for Held {
    ghost list = { λ held. held.pushes.items };

    fn count(&self) -> u64 {
        self.pushes.len() as u64
    }
}

// So many pushes, with no profile.
fn hold(alloc: Global, count: u64) -> Result<Held, Fail> {
    let mut pushes = Vec::new(alloc);
    for _ in 0..count {
        pushes.push(Push {
            tenant: Tenant::read(alloc, b"t")?,
            profiles: Profiles::from_vec(Vec::new(alloc)),
        })?;
    }
    Ok(Held { pushes })
}

fn open<J: Naming>(blank: BlankSpine, held: &Held) -> Option<Spine<J>>
    requires { blank ≡ J.spine }
{
    if held.count() > MOST {
        return None;
    }
    Some(blank.open(held))
}

fn extend<J: Naming>(spine: &mut Spine<J>, held: &Held) {
    if spine.seen() <= MOST && held.count() <= MOST {
        spine.extend(held);
    }
}

fn tell_fault<J: Naming>(spine: &mut Spine<J>) {
    let faults = spine.faults();
    let full = spine.full();
    if faults < MOST {
        spine.tell(faults + 1, full);
    }
}

fn tell_full<J: Naming>(spine: &mut Spine<J>) {
    let faults = spine.faults();
    if spine.full() <= 1 {
        spine.tell(faults, 1);
    }
}

#[derive(Clone, Copy, Drop)]
enum Act {
    Extend(u64),
    Fault,
    Full,
    Meet(usize),
}

fn perform<J: Naming>(
    alloc: Global,
    spine: &mut Spine<J>,
    passes: &mut [Pass<J>],
    act: Act,
) -> Result<(), Fail> {
    match act {
        Act::Extend(count) => extend(spine, &hold(alloc, count)?),
        Act::Fault => tell_fault(spine),
        Act::Full => tell_full(spine),
        Act::Meet(number) => {
            if number < passes.len() {
                spine.meet(&mut passes[number]);
            }
        }
    }
    Ok(())
}

// What each pass has seen, then what the spine has.
fn text_of<J: Naming>(alloc: Global, spine: &Spine<J>, passes: &[Pass<J>]) -> Result<String, Fail> {
    let mut text = String::new(alloc);
    for pass in passes {
        text.push_str(format!(in alloc; "{} ", pass.seen())?.as_str())?;
    }
    let last = format!(in alloc; "of {}, {}, {}", spine.seen(), spine.faults(), spine.full())?;
    text.push_str(last.as_str())?;
    Ok(text)
}

// The same of three passes of a spine after these acts.
fn seen_after<J: Naming>(alloc: Global, mut spine: Spine<J>, acts: &[Act]) -> Result<String, Fail> {
    let mut passes = Vec::new(alloc);
    for _ in 0..3 {
        passes.push(spine.new_pass())?;
    }
    for act in acts {
        perform(alloc, &mut spine, passes.as_mut_slice(), *act)?;
    }
    text_of(alloc, &spine, passes.as_slice())
}

// The same where the spine opens with so many pushes.
fn seen_as<J: Naming>(
    alloc: Global,
    blank: BlankSpine,
    opening: u64,
    acts: &[Act],
) -> Result<String, Fail>
    requires { blank ≡ J.spine }
{
    let opened: Option<Spine<J>> = open(blank, &hold(alloc, opening)?);
    match opened {
        Some(spine) => seen_after(alloc, spine, acts),
        None => Ok(String::new(alloc)),
    }
}

fn seen(alloc: Global, opening: u64, acts: &[Act], expected: &str) -> Result<bool, Fail> {
    let text = seen_as::<Brand>(alloc, BlankSpine::new(alloc)?, opening, acts)?;
    Ok(text.as_str() == expected)
}

#[test]
fn a_pass_has_what_the_spine_had_when_they_met(rt: HostRuntime) -> Result<(), Fail> {
    use Act::{Extend, Fault, Full, Meet};

    let alloc = rt.alloc();
    let table: [(u64, &[Act], &str); 5] = [
        (0, &[], "0 0 0 of 0, 0, 0"),
        (2, &[Extend(3), Fault], "2 2 2 of 5, 1, 0"),
        (
            2,
            &[
                Extend(1),
                Meet(0),
                Extend(1),
                Meet(1),
                Fault,
                Extend(1),
                Meet(2),
            ],
            "3 4 5 of 5, 1, 0",
        ),
        (
            2,
            &[
                Meet(2),
                Extend(1),
                Meet(2),
                Fault,
                Meet(0),
                Extend(2),
                Meet(2),
            ],
            "3 2 5 of 5, 1, 0",
        ),
        (
            7,
            &[
                Extend(0),
                Meet(1),
                Fault,
                Full,
                Fault,
                Meet(1),
                Extend(1),
                Meet(0),
                Meet(1),
            ],
            "8 8 7 of 8, 2, 1",
        ),
    ];
    for (opening, acts, expected) in table {
        assert!(rt; seen(alloc, opening, acts, expected)?, "{expected}");
    }
    Ok(())
}

// A pass, and whether what it has seen ever got less.
#[derive(Drop)]
struct Walker<J: Naming> {
    pass: Pass<J>,
    fell: bool,
}

fn meet_often<J: Naming, R: Wait>(rt: &R, shared: &Mutex<Spine<J>>, walker: &mut Walker<J>) {
    for _ in 0..ROUNDS {
        let before = walker.pass.seen();
        shared.lock(rt).meet(&mut walker.pass);
        if walker.pass.seen() < before {
            walker.fell = true;
        }
    }
}

fn extend_often<J: Naming, R: Wait>(rt: &R, shared: &Mutex<Spine<J>>, held: &Held) {
    for _ in 0..ROUNDS {
        let mut spine = shared.lock(rt);
        extend(&mut spine, held);
        tell_fault(&mut spine);
    }
}

// Whether the last meeting of each walker is with all that there is, and none of them fell.
fn all_arrive<J: Naming>(mut spine: Spine<J>, walkers: &mut [Walker<J>]) -> bool {
    let mut arrived = spine.seen() == ROUNDS + 1 && spine.faults() == ROUNDS;
    for walker in walkers {
        spine.meet(&mut walker.pass);
        arrived = arrived && !walker.fell && walker.pass.seen() == spine.seen();
    }
    arrived
}

fn meet_in_threads<J: Naming + Send + Sync, R: Threads + Wait + Sync>(
    rt: &R,
    spine: Spine<J>,
    mut walkers: Vec<Walker<J>>,
    one: &Held,
) -> bool {
    let shared = Mutex::new(spine);
    let lock = &shared;
    thread::join_mut(
        rt,
        &mut || extend_often(rt, lock, one),
        &mut || thread::for_each_mut(
            rt,
            walkers.as_mut_slice(),
            8,
            &|_, walker| meet_often(rt, lock, walker),
        ),
    );
    all_arrive(shared.into_inner(), walkers.as_mut_slice())
}

fn arrive_as<J: Naming + Send + Sync, R: Threads + Wait + Sync>(
    rt: &R,
    alloc: Global,
    blank: BlankSpine,
) -> Result<bool, Fail>
    requires { blank ≡ J.spine }
{
    let opened: Option<Spine<J>> = open(blank, &hold(alloc, 1)?);
    let Some(mut spine) = opened else {
        return Ok(false);
    };
    let mut walkers = Vec::new(alloc);
    for _ in 0..8 {
        walkers.push(Walker {
            pass: spine.new_pass(),
            fell: false,
        })?;
    }
    Ok(meet_in_threads(rt, spine, walkers, &hold(alloc, 1)?))
}

#[test]
fn eight_threads_meet_a_spine_that_another_extends(rt: HostRuntime) -> Result<(), Fail> {
    let alloc = rt.alloc();
    let blank = BlankSpine::new(alloc)?;
    assert!(rt; arrive_as::<Brand, _>(&rt, alloc, blank)?);
    Ok(())
}
