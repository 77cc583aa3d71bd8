ghost use Rattle.std.specs.Prelude.{◌≡◌, ◌≤◌, ◌<◌, ◌+◌, ◌^◌, [], ◌∷◌, ◌++◌, length, take, Some};
ghost use Rattle.std.specs.Prelude.{None, OnOk, OnErr, IfOk, IfSome, slice_index_or, true, IsTrue};
ghost use Rattle.std.specs.Prelude.{◌↔◌};
ghost use Rattle.plane_words.specs.Causes.{HasCause};
ghost use Rattle.plane_disk.specs.declared.call.DiskCall.TheVariants.{Write, Cut, Sync};
ghost use Rattle.plane_disk.specs.Files.{bytes_of, TornAt, CutAt, Reads};
ghost use Rattle.plane_disk.specs.Names.{AreDiskNames};
ghost use Rattle.plane_disk.specs.View.{Only, MayStep, Steps, AddsNone, Tells, HasWritten, HasCut};
ghost use Rattle.plane_disk.specs.View.{IsFile, Elapses, Stays};
ghost use Rattle.plane_disk.specs.Images.{IsImage};
ghost use Rattle.plane_disk.specs.MemDisk.{names_of, contents_of, state_of, view_of, Ends, Records};

use crate::call::DiskCall;
use crate::change::{contents, copy_from, cut, is_to_fail, record_sync, write};
use crate::disk::Disk;
use crate::image::{is_image, refilled};
use crate::mem_file::MemFile;
use plane_io::{Failed, Memory, Text};
use std::alloc::Global;
use std::marker::Model;

/// A disk in memory. Its calls of `read`, `write_at`, `cut` and `sync` are numbered from 1 in the
/// order in which they are made. A call fails where its number stands in the list of the disk,
/// behind the calls that its fuse passes, or where the disk cannot grow. Then a read gives what it
/// gave, but a crash may leave any part of a write or a cut.
#[derive(Drop)]
pub struct MemDisk {
    alloc: Global,
    start: Vec<MemFile>,
    seen: Vec<Text>,
    synced: Vec<Text>,
    calls: Vec<DiskCall>,
    recorded: usize,
    failing: Vec<u64>,
    fuse: Option<u64>,
    made: u64,
    faults: u64,
    refused: u64,
}

impl Model for MemDisk {
    ghost use Rattle.plane_disk.specs.MemDisk.{DiskInMemory, IsKept};

    ghost Value = { DiskInMemory };

    ghost view = { λ disk. record {
      start = disk.start.items;
      calls = disk.calls.items;
      failing = disk.failing.items;
      fuse = disk.fuse;
      made = disk.made;
      faults = disk.faults;
      refused = disk.refused;
    } };

    ghost invariant = { λ disk. IsKept disk.start.items disk.calls.items
        disk.seen.items disk.synced.items disk.recorded };
}

impl MemDisk {
    /// A disk that has these files, in the order of their numbers. Its calls with the numbers in
    /// `failing` fail, and all those behind the calls that the fuse passes.
    pub fn new(
        alloc: Global,
        files: Vec<MemFile>,
        failing: Vec<u64>,
        fuse: Option<u64>,
    ) -> Result<MemDisk, Memory>
        requires named { AreDiskNames (names_of files.items) }
        requires few { length files.items < 2 ^ 32 }
        ensures files { IfOk result (λ disk. disk.start ≡ files.items) }
        ensures lists { IfOk result (λ disk. (disk.failing ≡ failing.items) × (disk.fuse ≡ fuse)) }
        ensures calls { IfOk result (λ disk. (disk.calls ≡ []) × (disk.made ≡ 0)) }
        ensures counts { IfOk result (λ disk. (disk.faults ≡ 0) × (disk.refused ≡ 0)) }
    {
        let seen = contents(alloc, &files)?;
        let synced = contents(alloc, &files)?;
        Ok(MemDisk {
            alloc,
            start: files,
            seen,
            synced,
            calls: Vec::new(alloc),
            recorded: 0,
            failing,
            fuse,
            made: 0,
            faults: 0,
            refused: 0,
        })
    }

    /// Whether a crash at this moment may leave these files.
    pub fn is_image(&self, files: &[Text]) -> bool
        ensures { IsTrue result ↔ IsImage (state_of self.now) files.now }
    {
        is_image(&self.synced, &self.calls[self.recorded..], files)
    }

    /// The disk that a crash leaves where it leaves these files. None of its calls fails.
    pub fn after_crash(&self, files: &[Text]) -> Result<MemDisk, Memory>
        requires { IsImage (state_of self.now) files.now }
        ensures names { IfOk result (λ disk. names_of disk.start ≡ names_of self.now.start) }
        ensures files { IfOk result (λ disk. contents_of disk.start ≡ files.now) }
        ensures calls { IfOk result (λ disk. (disk.calls ≡ []) × (disk.made ≡ 0)) }
        ensures lists { IfOk result (λ disk. (disk.failing ≡ []) × (disk.fuse ≡ None)) }
        ensures counts { IfOk result (λ disk. (disk.faults ≡ 0) × (disk.refused ≡ 0)) }
    {
        let start = refilled(self.alloc, &self.start, files)?;
        MemDisk::new(self.alloc, start, Vec::new(self.alloc), None)
    }

    /// How many growths were refused for want of memory.
    pub fn refused(&self) -> u64
        ensures { result ≡ self.now.refused }
    {
        self.refused
    }
}

impl Disk for MemDisk {
    ghost use Rattle.plane_disk.specs.MemDisk.{view_of};
    ghost use Rattle.plane_disk.specs.Sound.{memory_is_sound};

    ghost view = { view_of };

    ghost sound = { memory_is_sound };

    fn count(&self) -> u32 {
        self.start.len() as u32
    }

    fn name(&self, file: u32) -> &[u8] {
        self.start[file as usize].name.as_bytes()
    }

    fn size(&self, file: u32) -> u64 {
        self.seen[file as usize].as_bytes().len() as u64
    }

    fn read(&mut self, file: u32, at: u64, into: &mut [u8]) -> Result<usize, Failed>
        requires { IsFile (view_of self.old) file }
        ensures fits { IfOk result (λ count. count ≤ length into.new) }
        ensures gives { IfOk result (λ count. Tells (view_of self.old)
            (λ files. Reads (bytes_of files file) at count into.old into.new)) }
        ensures stays { Stays (view_of self.old) (view_of self.new) }
        ensures time { Elapses (view_of self.old) (view_of self.new) }
        ensures cause { HasCause (view_of self.old).faults (view_of self.new).faults result }

        // A call fails exactly where its number says so, and takes no memory.
        ensures ends { Ends self.old self.new result }
        ensures calls { self.new.calls ≡ self.old.calls }
        ensures refused { self.new.refused ≡ self.old.refused }
    {
        self.made = self.made.saturating_add(1);
        if is_to_fail(&self.failing, self.fuse, self.made) {
            self.faults = self.faults.saturating_add(1);
            return Err(Failed);
        }
        Ok(copy_from(self.seen[file as usize].as_bytes(), at as usize, into))
    }

    fn write_at(&mut self, file: u32, at: u64, bytes: &[u8]) -> Result<(), Failed>
        requires number { IsFile (view_of self.old) file }
        requires inside { Tells (view_of self.old) (λ files. at ≤ length (bytes_of files file)) }
        ensures written { OnOk result
            (HasWritten (view_of self.old) (view_of self.new) file at bytes.now) }
        ensures torn { Steps (TornAt file at (length bytes.now))
            (view_of self.old) (view_of self.new) }
        ensures crash { MayStep (TornAt file at (length bytes.now))
            (view_of self.old) (view_of self.new) }
        ensures time { Elapses (view_of self.old) (view_of self.new) }
        ensures cause { HasCause (view_of self.old).faults (view_of self.new).faults result }

        // A call fails exactly where its number says so or a growth was refused, and is recorded.
        ensures ends { Ends self.old self.new result }
        ensures records { Records self.old self.new result (λ done. Write file at bytes.now done) }
    {
        self.made = self.made.saturating_add(1);
        let fails = is_to_fail(&self.failing, self.fuse, self.made);
        let Ok(()) = write(&mut self.seen, &mut self.calls, file, at, bytes, !fails) else {
            self.refused = self.refused.saturating_add(1);
            self.faults = self.faults.saturating_add(1);
            return Err(Failed);
        };
        if fails {
            self.faults = self.faults.saturating_add(1);
            return Err(Failed);
        }
        Ok(())
    }

    fn cut(&mut self, file: u32, size: u64) -> Result<(), Failed>
        requires { IsFile (view_of self.old) file }
        ensures cut { OnOk result (HasCut (view_of self.old) (view_of self.new) file size) }
        ensures torn { Steps (CutAt file size) (view_of self.old) (view_of self.new) }
        ensures crash { MayStep (CutAt file size) (view_of self.old) (view_of self.new) }
        ensures time { Elapses (view_of self.old) (view_of self.new) }
        ensures cause { HasCause (view_of self.old).faults (view_of self.new).faults result }

        // A call fails exactly where its number says so or a growth was refused, and is recorded.
        ensures ends { Ends self.old self.new result }
        ensures records { Records self.old self.new result (λ done. Cut file size done) }
    {
        self.made = self.made.saturating_add(1);
        let fails = is_to_fail(&self.failing, self.fuse, self.made);
        let Ok(()) = cut(&mut self.seen, &mut self.calls, file, size, !fails) else {
            self.refused = self.refused.saturating_add(1);
            self.faults = self.faults.saturating_add(1);
            return Err(Failed);
        };
        if fails {
            self.faults = self.faults.saturating_add(1);
            return Err(Failed);
        }
        Ok(())
    }

    fn sync(&mut self) -> Result<(), Failed>
        ensures whole { OnOk result
            (Tells (view_of self.old) (λ files. Only files (view_of self.new).is_image)) }
        ensures seen { OnOk result ((view_of self.new).seen ≡ (view_of self.old).seen) }
        ensures stays { OnErr result (Stays (view_of self.old) (view_of self.new)) }
        ensures crash { AddsNone (view_of self.old) (view_of self.new) }
        ensures time { Elapses (view_of self.old) (view_of self.new) }
        ensures cause { HasCause (view_of self.old).faults (view_of self.new).faults result }

        // A call fails exactly where its number says so or a growth was refused, and is recorded
        // where it is done.
        ensures ends { Ends self.old self.new result }
        ensures ok { OnOk result (self.new.calls ≡ self.old.calls ++ Sync ∷ []) }
        ensures err { OnErr result (self.new.calls ≡ self.old.calls) }
    {
        self.made = self.made.saturating_add(1);
        let is_failing = is_to_fail(&self.failing, self.fuse, self.made);
        if is_failing {
            self.faults = self.faults.saturating_add(1);
            return Err(Failed);
        }
        let Ok(()) = record_sync(&self.seen, &mut self.synced, &mut self.calls) else {
            self.refused = self.refused.saturating_add(1);
            self.faults = self.faults.saturating_add(1);
            return Err(Failed);
        };
        self.recorded = self.calls.len();
        Ok(())
    }
}
