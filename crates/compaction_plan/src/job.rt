// Entries that are to be merged.
ghost use Rattle.std.specs.Prelude.{◌<◌};

/// The oldest entries of a level: the objects of pushes number `lo` to `hi` - 1, which are to become one.
#[derive(Clone, Copy, Debug, PartialEq, Eq)]
pub struct Job {
    pub lo: u64,
    pub hi: u64,
    /// Of the entries that are merged, 0 to 2: what stands in for them is one level higher.
    pub level: u8,
    ghost some: { lo < hi },
    ghost below: { level < 3 },
}
