ghost use Rattle.std.specs.Prelude.{◌≡◌, ◌≤◌, ◌<◌, length, take, Some, OnOk, OnErr, IfOk, IfSome};
ghost use Rattle.plane_words.specs.Causes.{HasCause};
ghost use Rattle.plane_disk.specs.Files.{bytes_of, TornAt, CutAt, Reads};
ghost use Rattle.plane_disk.specs.Names.{AreDiskNames, name_at};
ghost use Rattle.plane_disk.specs.View.{View, Only, MayStep, Steps, AddsNone, Tells, HasWritten};
ghost use Rattle.plane_disk.specs.View.{HasCut, IsFile, IsSound, Elapses, Stays};

use plane_io::Failed;

/// A disk of several files, which have numbers below a count. Set and names of the files are fixed:
/// files 0 and 1 are `.plane-gates` and `.plane-snapshot`, the others are packages in byte order of
/// their names.
pub trait Disk {
    /// What the disk tells.
    ghost view: { Self → View };

    /// The number of files.
    fn count(&self) -> u32
        ensures count { result ≡ length (view self.now).names }
        ensures named { AreDiskNames (view self.now).names };

    /// The name of a file.
    fn name(&self, file: u32) -> &[u8]
        requires { IsFile (view self.now) file }
        ensures { result.now ≡ name_at (view self.now).names file };

    /// The number of bytes of a file.
    fn size(&self, file: u32) -> u64
        requires { IsFile (view self.now) file }
        ensures { Tells (view self.now) (λ files. result ≡ length (bytes_of files file)) };

    /// Reads as many bytes as a file has from the place `at` on, up to the length of `into`, and
    /// answers how many.
    fn read(&mut self, file: u32, at: u64, into: &mut [u8]) -> Result<usize, Failed>
        requires { IsFile (view self.old) file }
        ensures fits { IfOk result (λ count. count ≤ length into.new) }
        ensures gives { IfOk result (λ count. Tells (view self.old)
            (λ files. Reads (bytes_of files file) at count into.old into.new)) }
        ensures stays { Stays (view self.old) (view self.new) }
        ensures time { Elapses (view self.old) (view self.new) }
        ensures cause { HasCause (view self.old).faults (view self.new).faults result };

    /// Writes bytes over a file from a place up to its end on. Where that fails it may have been
    /// done in part.
    fn write_at(&mut self, file: u32, at: u64, bytes: &[u8]) -> Result<(), Failed>
        requires number { IsFile (view self.old) file }
        requires inside { Tells (view self.old) (λ files. at ≤ length (bytes_of files file)) }
        ensures written { OnOk result
            (HasWritten (view self.old) (view self.new) file at bytes.now) }
        ensures torn { Steps (TornAt file at (length bytes.now))
            (view self.old) (view self.new) }
        ensures crash { MayStep (TornAt file at (length bytes.now))
            (view self.old) (view self.new) }
        ensures time { Elapses (view self.old) (view self.new) }
        ensures cause { HasCause (view self.old).faults (view self.new).faults result };

    /// Cuts a file to a size; one that is no longer stays. Where that fails it may have been done
    /// in part.
    fn cut(&mut self, file: u32, size: u64) -> Result<(), Failed>
        requires { IsFile (view self.old) file }
        ensures cut { OnOk result (HasCut (view self.old) (view self.new) file size) }
        ensures torn { Steps (CutAt file size) (view self.old) (view self.new) }
        ensures crash { MayStep (CutAt file size) (view self.old) (view self.new) }
        ensures time { Elapses (view self.old) (view self.new) }
        ensures cause { HasCause (view self.old).faults (view self.new).faults result };

    /// Makes all files whole: a crash then leaves what a read gives. Where that fails, nothing
    /// changes.
    fn sync(&mut self) -> Result<(), Failed>
        ensures whole { OnOk result
            (Tells (view self.old) (λ files. Only files (view self.new).is_image)) }
        ensures seen { OnOk result ((view self.new).seen ≡ (view self.old).seen) }
        ensures stays { OnErr result (Stays (view self.old) (view self.new)) }
        ensures crash { AddsNone (view self.old) (view self.new) }
        ensures time { Elapses (view self.old) (view self.new) }
        ensures cause { HasCause (view self.old).faults (view self.new).faults result };

    ghost sound: { (disk : Self) → IsSound (view disk) };
}
