// Why a store doesn't answer.

use disk_trait::FileId;
use tenant_books::PushAsk;

/// Why a store wasn't mended.
#[derive(Clone, Copy, Debug, PartialEq, Eq)]
pub enum MendFault {
    Memory,
    /// The disk failed, and has counted so many faults.
    Disk(u64),
}

/// Why pushes weren't settled.
#[derive(Debug, Drop)]
pub enum SettleFault {
    Memory,
    /// The index has so many records, and at least one of the pushes would be kept. Here they are, as they came.
    Full { records: u64, asks: Vec<PushAsk> },
    /// The disk failed, and has counted so many faults. What was to be kept may turn out to be.
    Disk(u64),
}

/// Why nothing was read.
#[derive(Clone, Copy, Debug, PartialEq, Eq)]
pub enum ReadFault {
    Memory,
    /// The disk failed, and has counted so many faults.
    Disk(u64),
    /// The object with this id isn't what the index tells. This doesn't come where the disk tells what it holds.
    Damaged(u64),
}

/// Why a store wasn't opened.
#[derive(Clone, Copy, Debug, PartialEq, Eq)]
pub enum OpenCause {
    Memory,
    /// The disk failed, and has counted so many faults.
    Disk(u64),
    /// The files stand for no history, by the fault of this one.
    Damaged(FileId),
}

/// A disk whose store wasn't opened.
#[derive(Drop)]
pub struct OpenRefused<D> {
    pub disk: D,
    pub cause: OpenCause,
}
