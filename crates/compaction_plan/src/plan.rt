// What an index wants merged.
ghost use Rattle.std.specs.Prelude.{◌≡◌, ℕ, ◌<◌, ◌≤◌, IfSome, IsNone, length, take};
ghost use Rattle.compaction_plan.specs.Jobs.{AreEnough, AreFewest, HasJob, IsDue, IsJob};

use crate::Job;
use metastore_index::{Entry, Index, MAX_LEVEL};

/// So many entries are merged at once: so each level has fewer where no job is due.
pub const MAX_ENTRIES: usize = 8;

/// Fewer are merged where their objects' files have so many bytes together: so a merge holds little more than this
/// beside the last of them.
pub const ENOUGH_BYTES: u64 = 33_554_432;

/// The job of the lowest level that has one. It takes no memory, and goes through eight entries of a level at most,
/// however many there are: where a level begins is found by halving.
pub fn due(index: &Index) -> Option<Job>
    ensures job { IfSome result (λ job. IsDue index.now.entries job) }
    ensures none { IsNone result → (level : ℕ) → ¬ (HasJob index.now.entries level) }
{
    for level in 0..MAX_LEVEL {
        if let Some(job) = job_of(index, level) {
            return Some(job);
        }
    }
    None
}

// The job of a level.
fn job_of(index: &Index, level: u8) -> Option<Job>
    requires { level < 3 }
    ensures job { IfSome result (λ job. (job.level ≡ level) × IsJob index.now.entries job) }
    ensures none { IsNone result → ¬ (HasJob index.now.entries level) }
{
    let entries = index.of_level(level);
    let count = fewest(entries)?;
    Some(Job {
        lo: entries[0].lo,
        hi: entries[count - 1].hi,
        level,
    })
}

// How many of the oldest entries are enough for a job, and no fewer would be.
fn fewest(entries: &[Entry]) -> Option<usize>
    ensures count { IfSome result (λ count. (count ≤ length entries.now) × AreFewest (take count entries.now)) }
    ensures none { IsNone result → ¬ (AreEnough entries.now) }
{
    let mut bytes: u64 = 0;
    for (i, entry) in entries.iter().enumerate() {
        bytes = bytes.saturating_add(entry.length);
        if i + 1 == MAX_ENTRIES || bytes >= ENOUGH_BYTES {
            return Some(i + 1);
        }
    }
    None
}
