//! What no clause says: that the real clock is read, where pieces end, and that calls succeed.
ghost use Rattle.std.specs.Prelude.{◌≡◌, true, false};

use crate::{Failed, Link, MemoryLink, StdioLink};
use std::test::Fail;

// The last moment of a link, which isn't open then.
fn last_moment<L: Link>(link: &mut L) -> u64
    requires { L.is_open link.old ≡ true }
    ensures { L.is_open link.new ≡ false }
{
    let moment = link.moment();
    link.end();
    moment
}

#[test]
fn the_real_clock_is_past_2020(rt: HostRuntime) -> Result<(), Fail> {
    let mut link = StdioLink::new(rt.clone()?);
    assert!(rt; 1_577_836_800_000 < last_moment(&mut link));
    assert_eq!(rt; link.faults(), 0);
    Ok(())
}

#[test]
fn pieces_end_at_the_cuts_and_chosen_calls_fail(rt: HostRuntime) -> Result<(), Fail> {
    let alloc = rt.alloc();
    let input = Vec::from_slice(alloc, b"abcde")?;
    let cuts = Vec::from_slice(alloc, &[2, 2, 9])?;
    let mut link = MemoryLink::new(alloc, input, cuts, 7, Vec::from_slice(alloc, &[1, 4])?);
    let mut front = [0; 4];
    let mut back = [0; 4];
    assert_eq!(rt; link.read(&mut front), Ok(2));
    assert_eq!(rt; link.read(&mut front), Err(Failed));
    assert_eq!(rt; link.read(&mut back), Ok(3));
    assert_eq!(rt; link.read(&mut back), Ok(0));
    assert_eq!(rt; &front, b"ab\0\0");
    assert_eq!(rt; &back, b"cde\0");
    assert_eq!(rt; link.write(b"x"), Err(Failed));
    assert_eq!(rt; link.write(b"xy"), Ok(2));
    assert_eq!(rt; link.given(), b"xy".as_slice());
    assert_eq!(rt; (link.moment(), link.faults(), link.refused()), (7, 2, 0));
    Ok(())
}
