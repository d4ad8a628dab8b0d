// What a fault of the disk leaves: what a crash finds from then on, and what a store answers that isn't sure. A settle makes
// calls 0 to 5, so that a fault in it leaves the entry in the air from call 2 on, and call 5 lets it through.
use super::*;
use crate::tests::{
    Act, ONE, SETTLE, after, eighth_gives, failing, fault_gives, fault_leaves, folder_opens_to,
    folder_says, moments_say, opened,
};
use disk_trait::{DirDisk, Disk, FileId};
use std::alloc::Global;
use std::fs;
use std::test::Fail;

const SETTLE_ONE: Act<'static> = Act::Settle(&ONE);

const MENDED: [Act<'static>; 4] = [SETTLE, Act::Mend, Act::Mend, SETTLE_ONE];

const REAPED: [Act<'static>; 4] = [SETTLE, Act::Reap, Act::Mend, SETTLE_ONE];

const UNMENDED: [Act<'static>; 2] = [SETTLE, SETTLE_ONE];

// The images from the fault of this call of a settle on, through a mend and the settle of one more push.
fn mend_says(alloc: Global, call: u64, want: &str) -> Result<bool, Fail> {
    let from = call.saturating_add(1);
    Ok(
        moments_say(alloc, &[], &[call], &MENDED, from, want)?
            && moments_say(alloc, &[], &[call], &UNMENDED, from, want)?,
    )
}

#[test]
fn a_crash_in_a_mend_leaves_what_was_kept_with_the_flight_or_without(
    rt: HostRuntime,
) -> Result<(), Fail> {
    for (call, want) in [
        (0, "0000 0000 0000 0000 0000 0000 0110 1111 "),
        (1, "0000 0000 0000 0000 0000 0000 0000 0110 1111 "),
        (2, "0000 0000 0000 0000 0000 0000 0000 0000 0000 0110 1111 "),
        (3, "0000 0000 0000 0000 0000 0000 0000 0000 0000 0110 1111 "),
        (4, "0330 0000 0000 0000 0000 0000 0000 0000 0000 0110 1111 "),
        (5, "0330 3333 3333 3333 3333 3333 3333 3333 3443 4444 "),
    ] {
        assert!(rt; mend_says(rt.alloc(), call, want)?, "call {call}");
    }
    Ok(())
}

// The same where a call of the first mend fails too.
fn later_mend_says(alloc: Global, call: u64, later: u64, want: &str) -> Result<bool, Fail> {
    let from = call.saturating_add(1);
    Ok(
        moments_say(alloc, &[], &[call, later], &MENDED, from, want)?
            && moments_say(alloc, &[], &[call, later], &REAPED, from, want)?,
    )
}

#[test]
fn a_crash_after_a_mend_that_failed_leaves_no_other_history(rt: HostRuntime) -> Result<(), Fail> {
    for (call, later, want) in [
        (
            4,
            5,
            "0330 0330 0000 0000 0000 0000 0000 0000 0000 0000 0110 1111 ",
        ),
        (
            4,
            6,
            "0330 0000 0000 0000 0000 0000 0000 0000 0000 0000 0000 0110 1111 ",
        ),
        (
            4,
            7,
            "0330 0000 0000 0000 0000 0000 0000 0000 0000 0000 0110 1111 ",
        ),
        (
            4,
            8,
            "0330 0000 0000 0000 0000 0000 0000 0000 0000 0000 0000 0110 1111 ",
        ),
        (
            5,
            6,
            "0330 0330 3333 3333 3333 3333 3333 3333 3333 3443 4444 ",
        ),
        (
            5,
            7,
            "0330 3333 3333 3333 3333 3333 3333 3333 3333 3333 3443 4444 ",
        ),
        (
            5,
            8,
            "0330 3333 3333 3333 3333 3333 3333 3333 3333 3443 4444 ",
        ),
    ] {
        assert!(rt;
            later_mend_says(rt.alloc(), call, later, want)?,
            "calls {call} and {later}"
        );
    }
    Ok(())
}

const SETTLE_AGAIN: [Act<'static>; 4] = [SETTLE, SETTLE, Act::Sure, Act::Count];

#[test]
fn a_store_that_is_not_sure_is_mended_before_it_settles(rt: HostRuntime) -> Result<(), Fail> {
    let alloc = rt.alloc();
    for call in 0..6 {
        let (want, left) = if call < 5 {
            ("disk 1|0/1 1/1 2/2 |true|3 2 1|", "3 2 1")
        } else {
            ("disk 1|3/3 4/2 5/4 |true|6 4 2|", "6 4 2")
        };
        assert!(rt;
            fault_gives(alloc, &[call], &SETTLE_AGAIN, want)?,
            "call {call}"
        );
        assert!(rt;
            fault_leaves(alloc, &[call], &SETTLE_AGAIN, left)?,
            "call {call}"
        );
    }
    Ok(())
}

const LAST: Act<'static> = Act::Settle(&[("t1", 5, 0)]);

const OTHERS: Act<'static> = Act::Settle(&[("t2", 1, 0), ("t2", 2, 3)]);

// Whether an index is full shows once it is known what came of its last record.
#[test]
fn a_store_that_is_not_sure_is_mended_before_it_tells_that_it_is_full(
    rt: HostRuntime,
) -> Result<(), Fail> {
    let cases: [(&[u64], &str); 3] = [
        (&[4], "disk 1|7/1 ahead 3/1 |true|8 7 1|"),
        (&[5], "disk 1|full 8 of 2|true|8 8 0|"),
        (&[5, 6], "disk 1|disk 2|false|7 7 0|"),
    ];
    for (calls, want) in cases {
        assert!(rt;
            eighth_gives(
                rt.alloc(),
                calls,
                &[LAST, OTHERS, Act::Sure, Act::Count],
                want
            )?,
            "{want}"
        );
    }
    Ok(())
}

const AGAIN_BY_MEND: [Act<'static>; 8] = [
    SETTLE,
    Act::Mend,
    Act::Sure,
    Act::Count,
    Act::Mend,
    Act::Sure,
    Act::Count,
    SETTLE,
];

const AGAIN_BY_REAP: [Act<'static>; 8] = [
    SETTLE,
    Act::Reap,
    Act::Sure,
    Act::Count,
    Act::Reap,
    Act::Sure,
    Act::Count,
    SETTLE,
];

const AGAIN_BY_SETTLE: [Act<'static>; 8] = [
    SETTLE,
    SETTLE_ONE,
    Act::Sure,
    Act::Count,
    Act::Mend,
    Act::Sure,
    Act::Count,
    SETTLE,
];

// Whether a mend that fails too, at the later call, leaves a store that isn't sure, and the next one finds out all the same.
fn mends_later(alloc: Global, call: u64, later: u64, want: &str) -> Result<bool, Fail> {
    let calls = [call, later];
    Ok(
        fault_gives(alloc, &calls, &AGAIN_BY_MEND, want)?
            && fault_gives(alloc, &calls, &AGAIN_BY_REAP, want)?
            && fault_gives(alloc, &calls, &AGAIN_BY_SETTLE, want)?,
    )
}

#[test]
fn a_mend_that_fails_is_made_again(rt: HostRuntime) -> Result<(), Fail> {
    let want = "disk 1|disk 2|false|0 0 0|mended|true|0 0 0|0/1 1/1 2/2 |";
    // The call of the settle that fails, and the first and the last one of the mend.
    for (call, first, last) in [(0, 1, 1), (1, 2, 3), (2, 3, 6), (3, 4, 7), (4, 5, 8)] {
        for later in first..=last {
            assert!(rt;
                mends_later(rt.alloc(), call, later, want)?,
                "calls {call} and {later}"
            );
        }
    }
    Ok(())
}

// What the store has after the mend that failed.
fn flight_is_found(alloc: Global, later: u64, count: &str) -> Result<bool, Fail> {
    let want = format!(in alloc; "disk 1|disk 2|false|{count}|mended|true|3 2 1|3/3 4/2 5/4 |")?;
    mends_later(alloc, 5, later, want.as_str())
}

#[test]
fn a_flight_that_came_through_is_found_by_a_later_mend(rt: HostRuntime) -> Result<(), Fail> {
    // The last call of a mend comes when it is known what became of the flight.
    for (later, count) in [(6, "0 0 0"), (7, "0 0 0"), (8, "3 2 1")] {
        assert!(rt; flight_is_found(rt.alloc(), later, count)?, "call {later}");
    }
    Ok(())
}

// Whether the object of a settle is there after the fault of this call, and after this is done then.
fn object_is_there(alloc: Global, call: u64, then: Act) -> Result<bool, Fail> {
    let mut disk = after(alloc, failing(alloc, &[], &[call])?, &[SETTLE, then])?;
    Ok(disk.length(FileId::Object(1))?.is_some())
}

#[test]
fn a_mend_and_a_reaping_remove_the_object_of_pushes_that_were_not_kept(
    rt: HostRuntime,
) -> Result<(), Fail> {
    let alloc = rt.alloc();
    for call in 0..6 {
        assert!(rt;
            object_is_there(alloc, call, Act::Sure)? == (call > 0),
            "call {call}"
        );
        assert!(rt;
            object_is_there(alloc, call, Act::Mend)? == (call == 5),
            "call {call}"
        );
        assert!(rt;
            object_is_there(alloc, call, Act::Reap)? == (call == 5),
            "call {call}"
        );
    }
    Ok(())
}

// A reaping lists the files by its first call, on a sure store too.
#[test]
fn a_reaping_that_fails_leaves_a_store_that_is_not_sure(rt: HostRuntime) -> Result<(), Fail> {
    let acts = [
        SETTLE,
        Act::Reap,
        Act::Sure,
        Act::Mend,
        Act::Sure,
        Act::Count,
    ];
    let cases: [(&[u64], &str); 2] = [
        (&[6], "0/1 1/1 2/2 |disk 1|false|mended|true|3 2 1|"),
        (&[7], "0/1 1/1 2/2 |mended|true|mended|true|3 2 1|"),
    ];
    for (calls, want) in cases {
        assert!(rt; fault_gives(rt.alloc(), calls, &acts, want)?, "{want}");
    }
    Ok(())
}

// Puts an object beside a store's own, and tells whether it is there.
fn put_beside(store: &mut Store<DirDisk>) -> Result<bool, Fail> {
    store.disk.write_at(FileId::Object(7), 0, &[1])?;
    Ok(store.disk.length(FileId::Object(7))?.is_some())
}

fn reap_in_folder(rt: &HostRuntime) -> Result<bool, Fail> {
    let alloc = rt.alloc();
    let Ok(mut store) = opened(alloc, DirDisk::new(rt.clone()?))? else {
        return Ok(false);
    };
    let there = put_beside(&mut store)?;
    Ok(there && store.reap(alloc).is_ok())
}

// Which of the objects 1, 2 and 7 are there.
fn objects_there(rt: &HostRuntime) -> Result<[bool; 3], Fail> {
    let mut disk = DirDisk::new(rt.clone()?);
    Ok([
        disk.length(FileId::Object(1))?.is_some(),
        disk.length(FileId::Object(2))?.is_some(),
        disk.length(FileId::Object(7))?.is_some(),
    ])
}

#[test]
fn a_reaping_removes_the_objects_that_are_not_live(rt: HostRuntime) -> Result<(), Fail> {
    let _ = fs::remove_dir_all(&rt, "pyro-data");
    assert!(rt; folder_says(&rt, &ONE, "0/1 ")?);
    assert!(rt; folder_says(&rt, &ONE, "1/2 ")?);
    assert!(rt; reap_in_folder(&rt)?);
    assert!(rt; objects_there(&rt)? == [true, true, false]);
    assert!(rt; folder_opens_to(&rt, "2 0 2")?);
    fs::remove_dir_all(&rt, "pyro-data")?;
    Ok(())
}
