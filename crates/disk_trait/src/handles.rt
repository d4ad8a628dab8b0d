// The files of the folder that are kept open.
ghost use Rattle.std.specs.Prelude.{◌≡◌, None};
ghost use Rattle.disk_trait.specs.Handles.{kept_in, kept_of};

use crate::FileId;
use crate::table::is_same;
use std::fs::File;

// An open file, and which it is.
#[derive(Drop)]
struct Handle {
    file: FileId,
    opened: File,
}

/// One index and one object at most, open for reading and writing: a store writes into one index, and syncs the object
/// that it wrote last.
#[derive(Drop)]
pub struct Handles {
    index: Option<Handle>,
    object: Option<Handle>,
}

// Leaves another file's handle in its place.
fn take_from(place: &mut Option<Handle>, file: FileId) -> Option<File>
    ensures kept { result ≡ kept_in place.old file }
    ensures taken { kept_in place.new file ≡ None }
{
    match place.take() {
        Some(handle) if is_same(handle.file, file) => Some(handle.opened),
        other => {
            *place = other;
            None
        }
    }
}

impl Handles {
    /// None is kept.
    pub fn new() -> Handles {
        Handles {
            index: None,
            object: None,
        }
    }

    /// Takes the file's handle out, where it is kept. So one on which a call fails isn't kept any longer.
    pub fn take(&mut self, file: FileId) -> Option<File>
        ensures kept { result ≡ kept_of self.old file }
        ensures taken { kept_of self.new file ≡ None }
    {
        match file {
            FileId::Index(_) => take_from(&mut self.index, file),
            FileId::Object(_) => take_from(&mut self.object, file),
            FileId::Root | FileId::LimitsFile => None,
        }
    }

    /// Keeps the file's handle, in place of another index's or object's.
    pub fn keep(&mut self, file: FileId, opened: File) {
        match file {
            FileId::Index(_) => self.index = Some(Handle { file, opened }),
            FileId::Object(_) => self.object = Some(Handle { file, opened }),
            FileId::Root | FileId::LimitsFile => {}
        }
    }
}
