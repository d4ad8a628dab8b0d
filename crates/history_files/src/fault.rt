// Why files weren't read or changed.
ghost use Rattle.std.specs.Prelude.{◌≡◌};
ghost use Rattle.history_files.specs.declared.fault.FilesFault.TheVariants.{Disk, Memory};

use disk_trait::Failed;
use std::alloc::AllocError;

/// Why files weren't read or changed whole.
#[derive(Clone, Copy, Debug, PartialEq, Eq)]
pub enum FilesFault {
    Memory,
    /// The disk failed, and counted a fault.
    Disk,
}

impl From<Failed> for FilesFault {
    ghost from_gives = { λ _ fault. fault ≡ Disk };

    fn from(_: Failed) -> FilesFault {
        FilesFault::Disk
    }
}

impl From<AllocError> for FilesFault {
    ghost from_gives = { λ _ fault. fault ≡ Memory };

    fn from(_: AllocError) -> FilesFault {
        FilesFault::Memory
    }
}

/// Why a store wasn't opened.
#[derive(Clone, Copy, Debug, PartialEq, Eq)]
pub enum OpenFault {
    Memory,
    /// The disk failed, and counted a fault.
    Disk,
    /// The index file's records leave no index, or are too many.
    Damaged,
}
