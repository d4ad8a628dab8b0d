// Where entries stand among others.
ghost use Rattle.std.specs.Prelude.{◌≡◌, ℕ, ◌-◌, ◌<◌, ◌≤◌, IfSome, IsNone, drop, length, take};
ghost use Rattle.std.specs.List.{AllWithin};
ghost use Rattle.metastore_index.specs.Entries.{AreEntries, Covers, HasRun, IsRunOver, end_of, of_level};

use crate::entry::{Entry, MAX_LEVEL};

// The push after the last.
pub(crate) fn end_of(entries: &[Entry]) -> u64
    ensures { result ≡ end_of entries.now }
{
    match entries.last() {
        Some(entry) => entry.hi,
        None => 0,
    }
}

// How many entries are above the level.
fn count_above(entries: &[Entry], level: u8) -> usize
    requires { AreEntries entries.now }
    ensures within { result ≤ length entries.now }
    ensures above { AllWithin (λ entry. level < entry.level) entries.now 0 result }
    ensures others { AllWithin (λ entry. entry.level ≤ level) entries.now result (length entries.now) }
{
    entries.partition_point(|entry| entry.level > level)
}

// How many entries are of the level or above it.
fn count_down_to(entries: &[Entry], level: u8) -> usize
    requires { AreEntries entries.now }
    ensures within { result ≤ length entries.now }
    ensures above { AllWithin (λ entry. level ≤ entry.level) entries.now 0 result }
    ensures others { AllWithin (λ entry. entry.level < level) entries.now result (length entries.now) }
{
    entries.partition_point(|entry| entry.level >= level)
}

// Where the entries of the level stand: the first of them, and the one after their last.
fn find_level(entries: &[Entry], level: u8) -> (usize, usize)
    requires { AreEntries entries.now }
    ensures order { result.0 ≤ result.1 }
    ensures within { result.1 ≤ length entries.now }
    ensures found { take (result.1 - result.0) (drop result.0 entries.now) ≡ of_level level entries.now }
{
    (count_above(entries, level), count_down_to(entries, level))
}

// The entries of the level.
pub(crate) fn of_level(entries: &[Entry], level: u8) -> &[Entry]
    requires { AreEntries entries.now }
    ensures { result.now ≡ of_level level entries.now }
{
    let (start, end) = find_level(entries, level);
    &entries[start..end]
}

// How many entries have no push from this one on.
fn count_before(entries: &[Entry], at: u64) -> usize
    requires { AreEntries entries.now }
    ensures within { result ≤ length entries.now }
    ensures before { AllWithin (λ entry. entry.hi ≤ at) entries.now 0 result }
    ensures others { AllWithin (λ entry. at < entry.hi) entries.now result (length entries.now) }
{
    entries.partition_point(|entry| entry.hi <= at)
}

// The entry that holds the push.
pub(crate) fn cover(entries: &[Entry], at: u64) -> Option<Entry>
    requires { AreEntries entries.now }
    ensures entry { IfSome result (λ entry. Covers entries.now at entry) }
    ensures none { IsNone result → end_of entries.now ≤ at }
{
    entries.get(count_before(entries, at)).copied()
}

// Where the run of the level stands that covers just these pushes: its first entry, and the one after its last.
pub(crate) fn find_run(entries: &[Entry], level: u8, lo: u64, hi: u64) -> Option<(usize, usize)>
    requires { AreEntries entries.now }
    ensures found { IfSome result (λ run. (run.0 < run.1) × (run.1 ≤ length entries.now)
        × IsRunOver (take run.0 entries.now) (take (run.1 - run.0) (drop run.0 entries.now)) (drop run.1 entries.now) level lo hi) }
    ensures none { IsNone result → ¬ (HasRun entries.now level lo hi) }
{
    let start = count_above(entries, level);
    let end = count_before(entries, hi);
    if start < end
        && entries[start].lo == lo
        && entries[end - 1].hi == hi
        && entries[end - 1].level == level
    {
        Some((start, end))
    } else {
        None
    }
}

// The level of the run that covers just these pushes.
pub(crate) fn level_of_run(entries: &[Entry], lo: u64, hi: u64) -> Option<u8>
    requires { AreEntries entries.now }
    ensures level { IfSome result (λ level. HasRun entries.now level lo hi) }
    ensures none { IsNone result → (level : ℕ) → ¬ (HasRun entries.now level lo hi) }
{
    for level in 0..=MAX_LEVEL {
        if find_run(entries, level, lo, hi).is_some() {
            return Some(level);
        }
    }
    None
}
