// That a fault is told by another and want of memory isn't, what both are called, and what places are.
use crate::{Place, Refused};
use std::alloc::{AllocError, Global};
use std::test::Fail;

fn raised(refused: Refused<u64>) -> Refused<u64> {
    refused.map(|number| number.saturating_add(10))
}

#[test]
fn a_fault_is_told_by_another(rt: HostRuntime) {
    assert_eq!(rt; raised(Refused::Fault(3)), Refused::Fault(13));
    assert_eq!(rt; raised(Refused::Memory), Refused::Memory);
}

fn reads(alloc: Global, refused: Refused<u64>, expected: &str) -> Result<bool, Fail> {
    let text = format!(in alloc; "{refused}")?;
    Ok(text.as_str() == expected)
}

#[test]
fn each_is_told_in_words(rt: HostRuntime) -> Result<(), Fail> {
    assert!(rt; reads(rt.alloc(), Refused::Fault(7), "7")?);
    assert!(rt; reads(rt.alloc(), Refused::from(AllocError), "out of memory")?);
    Ok(())
}

#[test]
fn a_place_is_told_from_the_outermost_number_on(rt: HostRuntime) {
    let within = Place::Whole.within(4);
    assert_eq!(rt; within, Place::At(4));
    assert_eq!(rt; within.within(3), Place::Pair(3, 4));
    assert_eq!(rt; Place::Pair(3, 4).within(2), Place::Triple(2, 3, 4));
    assert_eq!(rt; Place::Whole.numbers().len(), 0);
    assert_eq!(rt; Place::At(4).numbers().as_slice(), [4].as_slice());
    assert_eq!(rt;
        Place::Triple(2, 3, 4).numbers().as_slice(),
        [2, 3, 4].as_slice()
    );
}
