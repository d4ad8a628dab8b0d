// The folder with what is kept open of it, and whether its names wait for a sync.
ghost use Rattle.std.specs.Prelude.{◌≡◌, ◌≤◌, length, true, false, None, IfOk, OnOk, OnErr};
ghost use Rattle.disk_trait.specs.Handles.{handle_of, waits};

use crate::handles::Handles;
use crate::{FileId, folder};
use std::alloc::Global;
use std::fs::File;
use std::io;
use std::os::unix::fs::FileExt;

/// A call takes the handle that it works on out, and keeps it when it came through. So after a failed call the next
/// one opens the file anew.
#[derive(Drop)]
pub struct OpenFolder {
    rt: HostRuntime,
    // The folder is there, and its own name is on the disk.
    is_made: bool,
    // A name may have been made or removed since the folder was last synced. So it is at the beginning: an earlier
    // program may have been cut off in between.
    waits_for_sync: bool,
    folder: Option<File>,
    handles: Handles,
}

impl OpenFolder {
    /// The folder is made before the first write.
    pub fn new(rt: HostRuntime) -> OpenFolder
        ensures { waits result ≡ true }
    {
        OpenFolder {
            rt,
            is_made: false,
            waits_for_sync: true,
            folder: None,
            handles: Handles::new(),
        }
    }

    /// The files that are there.
    pub fn names(&self, alloc: Global) -> io::Result<Vec<FileId>> {
        folder::names(&self.rt, alloc)
    }

    /// The file's length, and `None` where it isn't there.
    pub fn length(&mut self, file: FileId) -> io::Result<Option<u64>>
        ensures waits { waits self.new ≡ waits self.old }
        ensures failed { OnErr result (handle_of self.new file ≡ None) }
    {
        let Some(opened) = self.handles.take(file) else {
            return folder::length(&self.rt, file);
        };
        let length = opened.metadata()?.len();
        self.handles.keep(file, opened);
        Ok(Some(length))
    }

    /// Reads as much as there is and fits. A file that isn't kept open is closed again: at its start a server reads each
    /// of its objects once.
    pub fn read(&mut self, file: FileId, at: u64, into: &mut [u8]) -> io::Result<usize>
        ensures bound { IfOk result (λ count. count ≤ length into.old) }
        ensures waits { waits self.new ≡ waits self.old }
        ensures failed { OnErr result (handle_of self.new file ≡ None) }
    {
        let Some(opened) = self.handles.take(file) else {
            return folder::read(&self.rt, file, at, into);
        };
        let count = folder::read_on(&opened, at, into)?;
        self.handles.keep(file, opened);
        Ok(count)
    }

    /// Writes, and makes a file that isn't there.
    pub fn write(&mut self, file: FileId, at: u64, bytes: &[u8]) -> io::Result<()>
        ensures waits { waits self.old ≡ true → waits self.new ≡ true }
    {
        self.ensure_folder()?;
        self.write_bytes(file, at, bytes)
    }

    /// Syncs the file, but for its times, and the folder where it waits.
    pub fn sync(&mut self, file: FileId) -> io::Result<()>
        ensures ok { OnOk result (waits self.new ≡ false) }
        ensures err { OnErr result (waits self.new ≡ waits self.old) }
    {
        self.ensure_folder()?;
        self.sync_bytes(file)?;
        if self.waits_for_sync {
            self.sync_folder()?;
        }
        Ok(())
    }

    /// Removes the file, if it is there, and syncs the folder.
    pub fn remove(&mut self, file: FileId) -> io::Result<()>
        ensures handle { handle_of self.new file ≡ None }
        ensures failed { OnErr result (waits self.new ≡ true) }
    {
        drop(self.handles.take(file));
        // Also where the call fails: the name may be gone.
        self.waits_for_sync = true;
        folder::remove(&self.rt, file)?;
        match self.sync_folder() {
            // No folder, no file.
            Err(error) if error.kind() == io::ErrorKind::NotFound => Ok(()),
            answer => answer,
        }
    }

    // Once in the life of this value, since an earlier program may have been cut off before the folder's name was kept.
    fn ensure_folder(&mut self) -> io::Result<()>
        ensures waits { waits self.new ≡ waits self.old }
        ensures handles { self.new.handles ≡ self.old.handles }
    {
        if !self.is_made {
            folder::make_folder(&self.rt)?;
            self.is_made = true;
        }
        Ok(())
    }

    fn write_bytes(&mut self, file: FileId, at: u64, bytes: &[u8]) -> io::Result<()>
        ensures waits { waits self.old ≡ true → waits self.new ≡ true }
        ensures failed { OnErr result (handle_of self.new file ≡ None) }
    {
        let opened = self.opened_or_made(file)?;
        opened.write_all_at(bytes, at)?;
        self.handles.keep(file, opened);
        Ok(())
    }

    fn sync_bytes(&mut self, file: FileId) -> io::Result<()>
        ensures waits { waits self.new ≡ waits self.old }
        ensures failed { OnErr result (handle_of self.new file ≡ None) }
    {
        let opened = self.opened(file)?;
        opened.sync_data()?;
        self.handles.keep(file, opened);
        Ok(())
    }

    fn opened(&mut self, file: FileId) -> io::Result<File>
        ensures waits { waits self.new ≡ waits self.old }
        ensures taken { handle_of self.new file ≡ None }
    {
        match self.handles.take(file) {
            Some(opened) => Ok(opened),
            None => folder::open(&self.rt, file),
        }
    }

    fn opened_or_made(&mut self, file: FileId) -> io::Result<File>
        ensures waits { waits self.old ≡ true → waits self.new ≡ true }
        ensures taken { handle_of self.new file ≡ None }
    {
        match self.opened(file) {
            Err(error) if error.kind() == io::ErrorKind::NotFound => {
                // Also where the call fails: the name may be there.
                self.waits_for_sync = true;
                folder::make(&self.rt, file)
            }
            answer => answer,
        }
    }

    fn sync_folder(&mut self) -> io::Result<()>
        ensures ok { OnOk result (waits self.new ≡ false) }
        ensures err { OnErr result (waits self.new ≡ waits self.old) }
        ensures handles { self.new.handles ≡ self.old.handles }
    {
        let folder = match self.folder.take() {
            Some(folder) => folder,
            None => folder::open_folder(&self.rt)?,
        };
        folder.sync_all()?;
        self.folder = Some(folder);
        self.waits_for_sync = false;
        Ok(())
    }
}
