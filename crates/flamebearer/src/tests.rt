// What no clause says: that a tree and its pictures are made where there is ample memory. The rows are worked by hand.
use crate::*;
use profile_model::{Name, Stack, StackSums};
use std::alloc::Global;
use std::sync::ArcSlice;
use std::test::Fail;

fn stack(alloc: Global, texts: &[&str]) -> Result<Stack, Fail> {
    let mut names = Vec::new(alloc);
    for text in texts {
        names.push(Name::from_text(alloc, text)?)?;
    }
    let frames = ArcSlice::from_vec(names)?;
    Ok(Stack::from_frames(frames)?)
}

fn tree(alloc: Global, samples: &[(&[&str], u64)]) -> Result<Tree, Fail> {
    let mut sums = StackSums::new(alloc);
    for (texts, value) in samples {
        sums.add(stack(alloc, texts)?, *value)?;
    }
    Ok(Tree::of(alloc, &sums)?)
}

fn are_named(names: &[Name], texts: &[&str]) -> bool {
    if names.len() != texts.len() {
        return false;
    }
    for (name, text) in names.iter().zip(texts) {
        if name.as_str() != *text {
            return false;
        }
    }
    true
}

fn are_rows(levels: &[Vec<u64>], rows: &[&[u64]]) -> bool {
    if levels.len() != rows.len() {
        return false;
    }
    for (level, row) in levels.iter().zip(rows) {
        if level.as_slice() != *row {
            return false;
        }
    }
    true
}

// Whether the flame graph of these samples has these names and levels.
fn draws(
    alloc: Global,
    samples: &[(&[&str], u64)],
    most: u64,
    names: &[&str],
    rows: &[&[u64]],
) -> Result<bool, Fail> {
    let tree = tree(alloc, samples)?;
    let flame = single(alloc, &tree, most)?;
    Ok(are_named(&flame.names, names) && are_rows(&flame.levels, rows))
}

// The same of a picture that has the samples on both sides.
fn draws_twice(
    alloc: Global,
    samples: &[(&[&str], u64)],
    most: u64,
    rows: &[&[u64]],
) -> Result<bool, Fail> {
    let tree = tree(alloc, samples)?;
    let (branches, values) = tree.parts();
    let picture = picture(alloc, branches, &[values, values], most)?;
    Ok(are_rows(&picture.levels, rows))
}

#[test]
fn a_tree_is_drawn_level_by_level(rt: HostRuntime) -> Result<(), Fail> {
    let alloc = rt.alloc();
    let samples: &[(&[&str], u64)] = &[(&["m", "a"], 3), (&["m", "b"], 5), (&["m"], 2)];
    let whole: &[&[u64]] = &[&[0, 10, 0, 0], &[0, 10, 2, 1], &[2, 3, 3, 2, 0, 5, 5, 3]];
    let two: &[&[u64]] = &[&[0, 10, 0, 0], &[0, 10, 2, 1], &[2, 5, 5, 2, 0, 3, 3, 3]];
    assert!(rt; draws(alloc, samples, 1024, &["total", "m", "a", "b"], whole)?);
    assert!(rt; draws(alloc, samples, 2, &["total", "m", "b", "other"], two)?);
    assert!(rt;
        draws(
            alloc,
            samples,
            0,
            &["total", "other"],
            &[&[0, 10, 0, 0], &[0, 10, 10, 1]]
        )?
    );
    assert!(rt; draws(alloc, &[], 1024, &["total"], &[&[0, 0, 0, 0]])?);
    Ok(())
}

#[test]
fn of_equal_totals_the_earlier_are_kept(rt: HostRuntime) -> Result<(), Fail> {
    let alloc = rt.alloc();
    let samples: &[(&[&str], u64)] = &[(&["a"], 2), (&["b"], 2), (&["c"], 2)];
    let rows: &[&[u64]] = &[&[0, 6, 0, 0], &[0, 2, 2, 1, 0, 2, 2, 2, 0, 2, 2, 3]];
    assert!(rt; draws(alloc, samples, 2, &["total", "a", "b", "other"], rows)?);
    Ok(())
}

#[test]
fn two_sides_are_drawn_beside_one_another(rt: HostRuntime) -> Result<(), Fail> {
    let alloc = rt.alloc();
    let rows: &[&[u64]] = &[
        &[0, 5, 0, 0, 5, 0, 0],
        &[0, 5, 2, 0, 5, 2, 1],
        &[2, 3, 3, 2, 3, 3, 2],
    ];
    assert!(rt; draws_twice(alloc, &[(&["m", "a"], 3), (&["m"], 2)], 1024, rows)?);
    Ok(())
}

#[test]
fn a_stack_begins_another(rt: HostRuntime) -> Result<(), Fail> {
    let alloc = rt.alloc();
    let samples: &[(&[&str], u64)] = &[(&["a"], 1), (&["a", "b", "c"], 2)];
    let rows: &[&[u64]] = &[&[0, 3, 0, 0], &[0, 3, 1, 1], &[1, 2, 0, 2], &[1, 2, 2, 3]];
    assert!(rt; draws(alloc, samples, 1024, &["total", "a", "b", "c"], rows)?);
    Ok(())
}

#[test]
fn frames_named_as_the_root_and_the_others_have_their_numbers(rt: HostRuntime) -> Result<(), Fail> {
    let alloc = rt.alloc();
    let samples: &[(&[&str], u64)] = &[(&["other"], 1), (&["total"], 2), (&["x"], 1)];
    let rows: &[&[u64]] = &[&[0, 4, 0, 0], &[0, 1, 1, 1, 0, 2, 2, 0, 0, 1, 1, 1]];
    assert!(rt; draws(alloc, samples, 2, &["total", "other"], rows)?);
    Ok(())
}

fn deep_stack(alloc: Global, depth: usize) -> Result<Stack, Fail> {
    let mut names = Vec::new(alloc);
    for _ in 0..depth {
        names.push(Name::from_text(alloc, "f")?)?;
    }
    let frames = ArcSlice::from_vec(names)?;
    Ok(Stack::from_frames(frames)?)
}

// How many levels the flame graph of one stack so deep has.
fn levels_of_one(alloc: Global, depth: usize) -> Result<usize, Fail> {
    let mut sums = StackSums::new(alloc);
    sums.add(deep_stack(alloc, depth)?, 1)?;
    let tree = Tree::of(alloc, &sums)?;
    let flame = single(alloc, &tree, 1024)?;
    Ok(flame.levels.len())
}

#[test]
fn the_deepest_stack_has_a_level_for_each_frame(rt: HostRuntime) -> Result<(), Fail> {
    let alloc = rt.alloc();
    assert!(rt; levels_of_one(alloc, 1024)? == 1025);
    Ok(())
}

// Stacks by their numbers: four names, at most five frames, of which the first is that of the number by four.
fn text_of(number: usize) -> &'static str {
    match number % 4 {
        0 => "a",
        1 => "b",
        2 => "c",
        _ => "d",
    }
}

fn numbered_stack(alloc: Global, number: usize) -> Result<Stack, Fail> {
    let mut names = Vec::new(alloc);
    for depth in 0..number % 5 + 1 {
        names.push(Name::from_text(alloc, text_of(number / (depth + 1)))?)?;
    }
    let frames = ArcSlice::from_vec(names)?;
    Ok(Stack::from_frames(frames)?)
}

fn value_of(number: usize) -> u64 {
    number as u64 % 101 + 1
}

// What the first so many stacks come to whose first frame is this one, worked from the numbers alone.
fn total_below(first: usize, count: usize) -> u64 {
    let mut total: u64 = 0;
    for number in 0..count {
        if number % 4 == first {
            total = total.saturating_add(value_of(number));
        }
    }
    total
}

fn numbered_tree(alloc: Global, count: usize) -> Result<Tree, Fail> {
    let mut sums = StackSums::new(alloc);
    for number in 0..count {
        sums.add(numbered_stack(alloc, number)?, value_of(number))?;
    }
    Ok(Tree::of(alloc, &sums)?)
}

// One number of each place of a level, together: 1 is their totals, 2 their own values.
fn sum_of(row: &[u64], which: usize) -> u64 {
    let mut sum: u64 = 0;
    for (at, number) in row.iter().enumerate() {
        if at % 4 == which {
            sum = sum.saturating_add(*number);
        }
    }
    sum
}

// Whether each level has what the one above has beside its own values, down to nothing.
fn add_up(levels: &[Vec<u64>], ticks: u64) -> bool {
    let mut left = ticks;
    for level in levels {
        if sum_of(level, 1) != left {
            return false;
        }
        left = left.saturating_sub(sum_of(level, 2));
    }
    left == 0
}

fn has_totals_of_first_frames(row: &[u64], count: usize) -> bool {
    for (at, number) in row.iter().enumerate() {
        if at % 4 == 1 && *number != total_below(at / 4, count) {
            return false;
        }
    }
    true
}

fn has_numbers_below(row: &[u64], count: u64) -> bool {
    for (at, number) in row.iter().enumerate() {
        if at % 4 == 3 && *number >= count {
            return false;
        }
    }
    true
}

fn are_numbered(levels: &[Vec<u64>], names: &[Name]) -> bool {
    for level in levels {
        if !has_numbers_below(level, names.len() as u64) {
            return false;
        }
    }
    true
}

// Whether the flame graph of so many stacks has the totals that their numbers give.
fn is_right(alloc: Global, count: usize, most: u64, names: &[&str]) -> Result<bool, Fail> {
    let tree = numbered_tree(alloc, count)?;
    let flame = single(alloc, &tree, most)?;
    if flame.levels.len() < 2 {
        return Ok(false);
    }
    Ok(
        are_named(&flame.names, names)
            && add_up(&flame.levels, flame.ticks)
            && has_totals_of_first_frames(&flame.levels[1], count)
            && are_numbered(&flame.levels, &flame.names),
    )
}

#[test]
fn many_stacks_add_up_at_each_level(rt: HostRuntime) -> Result<(), Fail> {
    let alloc = rt.alloc();
    assert!(rt; is_right(alloc, 300, 1024, &["total", "a", "b", "c", "d"])?);
    assert!(rt; is_right(alloc, 300, 20, &["total", "a", "b", "c", "d", "other"])?);
    Ok(())
}
