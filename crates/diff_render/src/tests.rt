// What no clause says: that pictures of two sides are made where there is ample memory. The rows are worked by hand.
use crate::*;
use flamebearer::Tree;
use profile_model::{Name, Stack, StackSums};
use std::alloc::Global;
use std::sync::ArcSlice;
use std::test::Fail;

fn stack(alloc: Global, texts: &[&str]) -> Result<Stack, Fail> {
    let mut names = Vec::new(alloc);
    for text in texts {
        names.push(Name::from_text(alloc, text)?)?;
    }
    let frames = ArcSlice::from_vec(names)?;
    Ok(Stack::from_frames(frames)?)
}

fn tree(alloc: Global, samples: &[(&[&str], u64)]) -> Result<Tree, Fail> {
    let mut sums = StackSums::new(alloc);
    for (texts, value) in samples {
        sums.add(stack(alloc, texts)?, *value)?;
    }
    Ok(Tree::of(alloc, &sums)?)
}

fn are_named(names: &[Name], texts: &[&str]) -> bool {
    if names.len() != texts.len() {
        return false;
    }
    for (name, text) in names.iter().zip(texts) {
        if name.as_str() != *text {
            return false;
        }
    }
    true
}

fn are_rows(levels: &[Vec<u64>], rows: &[&[u64]]) -> bool {
    if levels.len() != rows.len() {
        return false;
    }
    for (level, row) in levels.iter().zip(rows) {
        if level.as_slice() != *row {
            return false;
        }
    }
    true
}

// A flame graph as it is to be: its names, its levels, and the totals of both roots and the greatest own value.
#[derive(Clone, Copy)]
struct Drawn<'d> {
    names: &'d [&'d str],
    rows: &'d [&'d [u64]],
    numbers: (u64, u64, u64),
}

fn is_drawn(flame: &DoubleFlame, drawn: &Drawn) -> bool {
    (flame.left_ticks, flame.right_ticks, flame.max_self) == drawn.numbers
        && are_named(&flame.names, drawn.names)
        && are_rows(&flame.levels, drawn.rows)
}

// Whether the flame graph of these samples, left and right, is this one.
fn draws(
    alloc: Global,
    left: &[(&[&str], u64)],
    right: &[(&[&str], u64)],
    most: u64,
    drawn: &Drawn,
) -> Result<bool, Fail> {
    let left = tree(alloc, left)?;
    let right = tree(alloc, right)?;
    let flame = double(alloc, &left, &right, most)?;
    Ok(is_drawn(&flame, drawn))
}

#[test]
fn stacks_of_either_side_are_drawn(rt: HostRuntime) -> Result<(), Fail> {
    let left: &[(&[&str], u64)] = &[(&["main", "a"], 3), (&["main"], 2)];
    let right: &[(&[&str], u64)] = &[(&["main", "b"], 5), (&["main", "a"], 1)];
    let drawn = Drawn {
        names: &["total", "main", "a", "b"],
        rows: &[
            &[0, 5, 0, 0, 6, 0, 0],
            &[0, 5, 2, 0, 6, 0, 1],
            &[2, 3, 3, 0, 1, 1, 2, 0, 0, 0, 0, 5, 5, 3],
        ],
        numbers: (5, 6, 5),
    };
    assert!(rt; draws(rt.alloc(), left, right, 1024, &drawn)?);
    Ok(())
}

#[test]
fn what_is_not_kept_is_drawn_on_both_sides(rt: HostRuntime) -> Result<(), Fail> {
    let left: &[(&[&str], u64)] = &[(&["main", "a"], 3), (&["main"], 2)];
    let right: &[(&[&str], u64)] = &[(&["main", "b"], 5), (&["main", "a"], 1)];
    let drawn = Drawn {
        names: &["total", "main", "b", "other"],
        rows: &[
            &[0, 5, 0, 0, 6, 0, 0],
            &[0, 5, 2, 0, 6, 0, 1],
            &[2, 0, 0, 0, 5, 5, 2, 0, 3, 3, 0, 1, 1, 3],
        ],
        numbers: (5, 6, 5),
    };
    assert!(rt; draws(rt.alloc(), left, right, 2, &drawn)?);
    Ok(())
}

#[test]
fn a_side_may_be_empty(rt: HostRuntime) -> Result<(), Fail> {
    let right: &[(&[&str], u64)] = &[(&["main", "b"], 5), (&["main", "a"], 1)];
    let drawn = Drawn {
        names: &["total", "main", "a", "b"],
        rows: &[
            &[0, 0, 0, 0, 6, 0, 0],
            &[0, 0, 0, 0, 6, 0, 1],
            &[0, 0, 0, 0, 1, 1, 2, 0, 0, 0, 0, 5, 5, 3],
        ],
        numbers: (0, 6, 5),
    };
    assert!(rt; draws(rt.alloc(), &[], right, 1024, &drawn)?);
    Ok(())
}

#[test]
fn equal_sides_are_drawn_alike(rt: HostRuntime) -> Result<(), Fail> {
    let samples: &[(&[&str], u64)] = &[(&["main", "a"], 3), (&["main"], 2)];
    let drawn = Drawn {
        names: &["total", "main", "a"],
        rows: &[
            &[0, 5, 0, 0, 5, 0, 0],
            &[0, 5, 2, 0, 5, 2, 1],
            &[2, 3, 3, 2, 3, 3, 2],
        ],
        numbers: (5, 5, 3),
    };
    assert!(rt; draws(rt.alloc(), samples, samples, 1024, &drawn)?);
    Ok(())
}

#[test]
fn a_side_may_end_above_the_other(rt: HostRuntime) -> Result<(), Fail> {
    let left: &[(&[&str], u64)] = &[(&["a", "b", "c", "d"], 4)];
    let right: &[(&[&str], u64)] = &[(&["a", "b"], 7)];
    let drawn = Drawn {
        names: &["total", "a", "b", "c", "d"],
        rows: &[
            &[0, 4, 0, 0, 7, 0, 0],
            &[0, 4, 0, 0, 7, 0, 1],
            &[0, 4, 0, 0, 7, 7, 2],
            &[0, 4, 0, 7, 0, 0, 3],
            &[0, 4, 4, 7, 0, 0, 4],
        ],
        numbers: (4, 7, 7),
    };
    assert!(rt; draws(rt.alloc(), left, right, 1024, &drawn)?);
    Ok(())
}

#[test]
fn siblings_of_both_sides_stand_in_order(rt: HostRuntime) -> Result<(), Fail> {
    let left: &[(&[&str], u64)] = &[(&["main", "a"], 3), (&["main", "b"], 5), (&["main"], 2)];
    let right: &[(&[&str], u64)] = &[(&["main", "a"], 1), (&["main", "c"], 4)];
    let drawn = Drawn {
        names: &["total", "main", "a", "b", "c"],
        rows: &[
            &[0, 10, 0, 0, 5, 0, 0],
            &[0, 10, 2, 0, 5, 0, 1],
            &[
                2, 3, 3, 0, 1, 1, 2, 0, 5, 5, 0, 0, 0, 3, 0, 0, 0, 0, 4, 4, 4,
            ],
        ],
        numbers: (10, 5, 5),
    };
    assert!(rt; draws(rt.alloc(), left, right, 1024, &drawn)?);
    Ok(())
}
