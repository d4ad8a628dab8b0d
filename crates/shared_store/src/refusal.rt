// Why a push has no verdict.

/// Why a push has no verdict.
#[derive(Clone, Copy, Debug, PartialEq, Eq)]
pub enum Refusal {
    /// Nothing of it is kept.
    Memory,
    /// The index has so many records, and the push would be kept.
    Full(u64),
    /// The disk failed, and has counted so many faults. The push may turn out to be kept.
    Disk(u64),
}
