// Levels as rows of numbers.
ghost use Rattle.std.specs.Prelude.{◌≡◌, ◌++◌, ◌-◌, ◌<◌, [], length, map, max, fold, get_or, IfOk, OnOk};
ghost use Rattle.std.specs.List.{All, flat_map, range_with_len};
ghost use Rattle.flamebearer.specs.Branches.{stacks_of};
ghost use Rattle.flamebearer.specs.Names.{AreNumbered};
ghost use Rattle.flamebearer.specs.Pictures.{level_of, row_of, spans_of};
ghost use Rattle.flamebearer.specs.Rows.{all_shown, left_of, numbered_row, spots_of};
ghost use Rattle.flamebearer.specs.Spots.{AreWithin, shown_at};

use crate::levels::Spot;
use crate::names::{Labels, numbers_of};
use profile_model::Name;
use std::alloc::{AllocError, Global};
use std::collections::BTreeMap;

// The rows of all levels.
pub(crate) fn rows_of(
    alloc: Global,
    labels: &Labels,
    numbers: &BTreeMap<Name, u64>,
    laid: &[Vec<Vec<Spot>>],
) -> Result<Vec<Vec<u64>>, AllocError>
    requires some { 0 < length laid.now }
    requires places { AreWithin (length labels.now.frames.now) (get_or (spots_of laid.now) 0 []) }
    ensures { IfOk result (λ rows. (names : _) → AreNumbered names numbers.now.entries → map (λ row. row.items) rows.items
        ≡ map (λ depth. row_of names (level_of (all_shown (stacks_of labels.now.frames.now) (spots_of laid.now)) depth)) (range_with_len 0 (length (get_or (spots_of laid.now) 0 [])))) }
{
    let count = laid[0].len();
    let mut rows = Vec::with_capacity(alloc, count)?;
    for depth in 0..count {
        let row = row_at(alloc, labels, numbers, laid, depth)?;
        rows.push(row)?;
    }
    Ok(rows)
}

// The row of the level so deep.
fn row_at(
    alloc: Global,
    labels: &Labels,
    numbers: &BTreeMap<Name, u64>,
    laid: &[Vec<Vec<Spot>>],
    depth: usize,
) -> Result<Vec<u64>, AllocError>
    requires some { 0 < length laid.now }
    requires depth { depth < length (get_or (spots_of laid.now) 0 []) }
    requires places { AreWithin (length labels.now.frames.now) (get_or (spots_of laid.now) 0 []) }
    ensures { IfOk result (λ row. (names : _) → AreNumbered names numbers.now.entries
        → row.items ≡ row_of names (level_of (all_shown (stacks_of labels.now.frames.now) (spots_of laid.now)) depth)) }
{
    let numbers = numbers_of(alloc, labels, numbers, &laid[0][depth])?;
    numbered_row(alloc, laid, depth, &numbers)
}

// The row of the level so deep, whose names have these numbers.
fn numbered_row(
    alloc: Global,
    laid: &[Vec<Vec<Spot>>],
    depth: usize,
    numbers: &[u64],
) -> Result<Vec<u64>, AllocError>
    ensures { IfOk result (λ row. (stacks : _) → row.items ≡ numbered_row (level_of (all_shown stacks (spots_of laid.now)) depth) numbers.now) }
{
    let mut row = Vec::new(alloc);
    for at in 0..numbers.len() {
        push_spans(&mut row, laid, depth, at)?;
        row.push(numbers[at])?;
    }
    Ok(row)
}

// Each side's numbers at a place of the level so deep.
fn push_spans(
    row: &mut Vec<u64>,
    laid: &[Vec<Vec<Spot>>],
    depth: usize,
    at: usize,
) -> Result<(), AllocError>
    ensures { OnOk result ((stacks : _) → row.new.items ≡ row.old.items
        ++ flat_map (λ side. get_or (spans_of 0 side) at []) (level_of (all_shown stacks (spots_of laid.now)) depth)) }
{
    for levels in laid {
        push_span_of(row, levels, depth, at)?;
    }
    Ok(())
}

// Nothing where the side has no level so deep.
fn push_span_of(
    row: &mut Vec<u64>,
    levels: &[Vec<Spot>],
    depth: usize,
    at: usize,
) -> Result<(), AllocError>
    ensures { OnOk result ((stacks : _) → row.new.items ≡ row.old.items
        ++ get_or (spans_of 0 (get_or (map (map (shown_at stacks)) (map (λ level. level.items) levels.now)) depth [])) at []) }
{
    if depth < levels.len() {
        push_span(row, &levels[depth], at)?;
    }
    Ok(())
}

// Nothing where the level ends before the place.
fn push_span(row: &mut Vec<u64>, level: &[Spot], at: usize) -> Result<(), AllocError>
    ensures { OnOk result ((stacks : _) → row.new.items ≡ row.old.items ++ get_or (spans_of 0 (map (shown_at stacks) level.now)) at []) }
{
    if at < level.len() {
        row.push(gap(level, at))?;
        row.push(level[at].total)?;
        row.push(level[at].own)?;
    }
    Ok(())
}

// How far it begins from the end of the one to its left.
fn gap(level: &[Spot], at: usize) -> u64
    requires { at < length level.now }
    ensures { (d : _) → result ≡ (get_or level.now at d).begin - left_of level.now at }
{
    let begin = level[at].begin;
    if at == 0 {
        return begin;
    }
    let before = level[at - 1];
    begin
        .saturating_sub(before.begin)
        .saturating_sub(before.total)
}

fn greatest_of_level(level: &[Spot], least: u64) -> u64
    ensures { result ≡ fold max least (map (λ spot. spot.own) level.now) }
{
    let mut greatest = least;
    for spot in level {
        greatest = greatest.max(spot.own);
    }
    greatest
}

fn greatest_of_side(levels: &[Vec<Spot>], least: u64) -> u64
    ensures { result ≡ fold max least (flat_map (map (λ spot. spot.own)) (map (λ level. level.items) levels.now)) }
{
    let mut greatest = least;
    for level in levels {
        greatest = greatest_of_level(level, greatest);
    }
    greatest
}

// The greatest own value of all sides.
pub(crate) fn greatest_own(laid: &[Vec<Vec<Spot>>]) -> u64
    ensures { result ≡ fold max 0 (flat_map (flat_map (map (λ spot. spot.own))) (spots_of laid.now)) }
{
    let mut greatest = 0;
    for levels in laid {
        greatest = greatest_of_side(levels, greatest);
    }
    greatest
}
