// What becomes of pushes that a connection asks to be kept, one by one and together.
use crate::tests::{Line, RECORDS, tells, told_failing};
use std::test::Fail;

#[test]
fn a_push_that_was_kept_is_read_by_the_next_query(rt: HostRuntime) -> Result<(), Fail> {
    let lines = [
        Line::Push("t1", 7, 0),
        Line::Query("t1", 1),
        Line::Push("t2", 4, 0),
        Line::Push("t1", 3, 1),
        Line::Query("t1", 2),
    ];
    let want = "0/1;1: 0-1: 0;1/1;2/2;2: 0-1: 0 1-2: 2-3: 2;";
    assert!(rt; tells(rt.alloc(), RECORDS, &[], &lines, want)?);
    Ok(())
}

#[test]
fn a_push_over_its_tenants_limit_or_ahead_of_its_front_is_not_kept(
    rt: HostRuntime,
) -> Result<(), Fail> {
    let lines = [
        Line::Push("t1", 13, 0),
        Line::Push("t1", 8, 0),
        Line::Push("t2", 8, 0),
        Line::Push("t1", 7, 2),
        Line::Push("t1", 7, 1),
        Line::Query("t1", 3),
        Line::Query("t1", 2),
    ];
    let want = "0/1;over 13+8/20/1;1/1;2 of 1;2/2;3 of 2;2: 0-1: 0 1-2: 2-3: 2;";
    assert!(rt; tells(rt.alloc(), RECORDS, &[], &lines, want)?);
    Ok(())
}

#[test]
fn a_full_index_refuses_only_what_would_be_kept(rt: HostRuntime) -> Result<(), Fail> {
    let lines = [
        Line::Push("t1", 7, 0),
        Line::Push("t1", 7, 0),
        Line::Push("t1", 6, 0),
        Line::Push("t1", 7, 0),
        Line::Push("t1", 6, 3),
        Line::Push("t2", 1, 0),
        Line::Query("t1", 2),
    ];
    let want = "0/1;1/2;full 2;over 14+7/20/2;3 of 2;full 2;2: 0-1: 0 1-2: 1;";
    assert!(rt; tells(rt.alloc(), 2, &[], &lines, want)?);
    Ok(())
}

// A fault in the first push, whose record lets it through only where the last call is the one that fails.
const AFTER_A_FAULT: [Line<'static>; 4] = [
    Line::Push("t1", 7, 0),
    Line::Query("t1", 0),
    Line::Push("t1", 3, 0),
    Line::Query("t1", 0),
];

#[test]
fn a_push_that_met_a_fault_is_kept_or_not_when_the_next_is_settled(
    rt: HostRuntime,
) -> Result<(), Fail> {
    let alloc = rt.alloc();
    let before = told_failing(alloc, &[], &[], &[])?.calls;
    let after = told_failing(alloc, &[], &[], &[Line::Push("t1", 7, 0)])?.calls;
    assert!(rt; before < after);
    for call in before..after {
        let want = if call.saturating_add(1) == after {
            "disk 1;0:;1/2;2: 0-1: 0 1-2: 1;"
        } else {
            "disk 1;0:;0/1;1: 0-1: 0;"
        };
        let told = told_failing(alloc, &[call], &[], &AFTER_A_FAULT)?;
        assert!(rt; told.text.as_str() == want, "call {call}: {}", told.text);
    }
    Ok(())
}

#[test]
fn a_mend_that_meets_a_fault_leaves_it_to_the_next_push(rt: HostRuntime) -> Result<(), Fail> {
    let alloc = rt.alloc();
    let lines = [
        Line::Push("t1", 7, 0),
        Line::Push("t1", 3, 0),
        Line::Push("t1", 2, 0),
        Line::Query("t1", 0),
    ];
    let before = told_failing(alloc, &[], &[], &[])?.calls;
    let after = told_failing(alloc, &[], &[], &[Line::Push("t1", 7, 0)])?.calls;
    for call in before..after {
        let want = if call.saturating_add(1) == after {
            "disk 1;disk 2;1/2;2: 0-1: 0 1-2: 1;"
        } else {
            "disk 1;disk 2;0/1;1: 0-1: 0;"
        };
        let told = told_failing(alloc, &[call, call.saturating_add(1)], &[], &lines)?;
        assert!(rt; told.text.as_str() == want, "call {call}: {}", told.text);
    }
    Ok(())
}

const FLUSH: [(&str, u64, u64); 5] = [
    ("t1", 13, 0),
    ("t1", 8, 0),
    ("t2", 8, 0),
    ("t1", 7, 2),
    ("t1", 7, 1),
];

#[test]
fn a_flush_is_judged_in_order_and_kept_as_one_object(rt: HostRuntime) -> Result<(), Fail> {
    let lines = [
        Line::Flush(&FLUSH),
        Line::Query("t1", 2),
        Line::Query("t2", 1),
    ];
    let want = "0/1 over 13+8/20/1 1/1 2 of 1 2/2 ;2: 0-3: 0 2;1: 0-3: 1;";
    assert!(rt; tells(rt.alloc(), RECORDS, &[], &lines, want)?);
    assert!(rt; tells(rt.alloc(), RECORDS, &[], &[Line::Flush(&[])], ";")?);
    Ok(())
}

#[test]
fn where_the_index_is_full_only_what_would_be_kept_is_told_so(rt: HostRuntime) -> Result<(), Fail> {
    let flush = [("t1", 7, 0), ("t1", 8, 0), ("t2", 1, 0), ("t1", 7, 3)];
    let lines = [
        Line::Push("t1", 7, 0),
        Line::Push("t1", 6, 0),
        Line::Flush(&flush),
        Line::Flush(&[("t1", 8, 0)]),
        Line::Query("t1", 2),
    ];
    let want = "0/1;1/2;full 2 over 13+8/20/2 full 2 3 of 2 ;over 13+8/20/2 ;2: 0-1: 0 1-2: 1;";
    assert!(rt; tells(rt.alloc(), 2, &[], &lines, want)?);
    Ok(())
}

#[test]
fn a_flush_that_met_a_fault_is_kept_whole_or_not_at_all(rt: HostRuntime) -> Result<(), Fail> {
    let alloc = rt.alloc();
    let flush = [("t1", 7, 0), ("t1", 2, 0)];
    let lines = [
        Line::Flush(&flush),
        Line::Query("t1", 0),
        Line::Flush(&[("t1", 3, 0)]),
        Line::Query("t1", 0),
    ];
    let before = told_failing(alloc, &[], &[], &[])?.calls;
    let after = told_failing(alloc, &[], &[], &[Line::Flush(&flush)])?.calls;
    assert!(rt; before < after);
    for call in before..after {
        let want = if call.saturating_add(1) == after {
            "disk 1 disk 1 ;0:;2/3 ;3: 0-2: 0 1 2-3: 2;"
        } else {
            "disk 1 disk 1 ;0:;0/1 ;1: 0-1: 0;"
        };
        let told = told_failing(alloc, &[call], &[], &lines)?;
        assert!(rt; told.text.as_str() == want, "call {call}: {}", told.text);
    }
    Ok(())
}
