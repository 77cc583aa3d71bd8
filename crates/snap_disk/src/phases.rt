//! Runs of calls of a disk, each of which ends with a sync.
ghost use Rattle.std.specs.Prelude.{◌≡◌, ◌≤◌, ◌<◌};
ghost use Rattle.plane_words.specs.Causes.{HasCause};
ghost use Rattle.plane_disk.specs.View.{IsFile};
ghost use Rattle.snap_disk.specs.Opened.{put, open_gate};
ghost use Rattle.snap_disk.specs.Phase.{Phase, Fills, IsLaid, AnyGate, AnySecondGate, AnyBody};
ghost use Rattle.snap_disk.specs.Phase.{AnyPackages};
ghost use Rattle.snap_disk.specs.Phase.{ArePackageFiles, Restores, Undoes, Prepares, Stages};
ghost use Rattle.snap_disk.specs.Phase.{Applies, Commits};
ghost use Rattle.std.specs.Prelude.{length};

use crate::NewFile;
use plane_disk::Disk;
use plane_io::Failed;

/// The value of a gate byte that is open.
pub(crate) const OPEN: u8 = 0x4f;

/// One that is closed.
pub(crate) const CLOSED: u8 = 0;

/// The file of the gates.
pub(crate) const GATES: u32 = 0;

/// The file of the body.
pub(crate) const BODY: u32 = 1;

/// Writes the first gate.
pub(crate) fn set_gate<D: Disk>(disk: &mut D, byte: u8) -> Result<(), Failed>
    requires count { 2 ≤ length (D.view disk.old).names }
    requires laid { IsLaid (D.view disk.old) }
    ensures phase { Phase (D.view disk.old) (D.view disk.new) result
        AnyGate (λ l. record l { gate = byte }) }
    ensures cause { HasCause (D.view disk.old).faults (D.view disk.new).faults result }
{
    disk.write_at(GATES, 0, &[byte])?;
    disk.sync()?;
    Ok(())
}

/// Writes the second gate.
fn set_second_gate<D: Disk>(disk: &mut D, byte: u8) -> Result<(), Failed>
    requires count { 2 ≤ length (D.view disk.old).names }
    requires laid { IsLaid (D.view disk.old) }
    ensures phase { Phase (D.view disk.old) (D.view disk.new) result
        AnySecondGate (λ l. record l { second_gate = byte }) }
    ensures cause { HasCause (D.view disk.old).faults (D.view disk.new).faults result }
{
    disk.write_at(GATES, 1, &[byte])?;
    disk.sync()?;
    Ok(())
}

/// Cuts a file and writes it anew. Until a sync a crash may leave any bytes in it.
fn fill<D: Disk>(disk: &mut D, file: u32, bytes: &[u8]) -> Result<(), Failed>
    requires { IsFile (D.view disk.old) file }
    ensures fills { Fills (D.view disk.old) (D.view disk.new) result file bytes.now }
    ensures cause { HasCause (D.view disk.old).faults (D.view disk.new).faults result }
{
    disk.cut(file, 0)?;
    disk.write_at(file, 0, bytes)?;
    Ok(())
}

fn write_body<D: Disk>(disk: &mut D, body: &[u8]) -> Result<(), Failed>
    requires { 2 ≤ length (D.view disk.old).names }
    ensures phase { Phase (D.view disk.old) (D.view disk.new) result
        AnyBody (λ l. record l { body = body.now }) }
    ensures cause { HasCause (D.view disk.old).faults (D.view disk.new).faults result }
{
    fill(disk, BODY, body)?;
    disk.sync()?;
    Ok(())
}

fn write_packages<D: Disk>(disk: &mut D, files: &[NewFile]) -> Result<(), Failed>
    requires { ArePackageFiles (length (D.view disk.old).names) files.now }
    ensures phase { Phase (D.view disk.old) (D.view disk.new) result
        (AnyPackages files.now) (λ l. record l { packages = put files.now l.packages }) }
    ensures cause { HasCause (D.view disk.old).faults (D.view disk.new).faults result }
{
    for file in files {
        fill(disk, file.file, file.bytes.as_bytes())?;
    }
    disk.sync()?;
    Ok(())
}

/// Writes the old files, behind a closed second gate, and closes the first.
pub(crate) fn restore<D: Disk>(disk: &mut D, files: &[NewFile]) -> Result<(), Failed>
    requires count { 2 ≤ length (D.view disk.old).names }
    requires laid { IsLaid (D.view disk.old) }
    requires files { ArePackageFiles (length (D.view disk.old).names) files.now }
    ensures phase { Phase (D.view disk.old) (D.view disk.new) result
        (Restores (D.view disk.old).names files.now)
        (λ l. record l { gate = 0; packages = put files.now l.packages }) }
    ensures cause { HasCause (D.view disk.old).faults (D.view disk.new).faults result }
{
    write_packages(disk, files)?;
    set_gate(disk, CLOSED)?;
    Ok(())
}

/// Rolls an apply that waits back to the old files.
pub(crate) fn undo<D: Disk>(disk: &mut D, files: &[NewFile]) -> Result<(), Failed>
    requires count { 2 ≤ length (D.view disk.old).names }
    requires laid { IsLaid (D.view disk.old) }
    requires files { ArePackageFiles (length (D.view disk.old).names) files.now }
    ensures phase { Phase (D.view disk.old) (D.view disk.new) result
        (Undoes (D.view disk.old).names files.now)
        (λ l. record l { gate = 0; second_gate = 0; packages = put files.now l.packages }) }
    ensures cause { HasCause (D.view disk.old).faults (D.view disk.new).faults result }
{
    // The gate is closed on the disk before any file is written.
    set_second_gate(disk, CLOSED)?;
    restore(disk, files)?;
    Ok(())
}

/// Puts a body on the disk, and opens the first gate before it.
fn stage<D: Disk>(disk: &mut D, body: &[u8]) -> Result<(), Failed>
    requires count { 2 ≤ length (D.view disk.old).names }
    requires laid { IsLaid (D.view disk.old) }
    ensures phase { Phase (D.view disk.old) (D.view disk.new) result
        (Prepares (D.view disk.old).names body.now)
        (λ l. record { gate = 79; second_gate = 0; body = body.now; packages = l.packages }) }
    ensures cause { HasCause (D.view disk.old).faults (D.view disk.new).faults result }
{
    set_second_gate(disk, CLOSED)?;
    write_body(disk, body)?;
    set_gate(disk, OPEN)?;
    Ok(())
}

/// The same, and then writes the new files.
fn stage_packages<D: Disk>(disk: &mut D, body: &[u8], new: &[NewFile]) -> Result<(), Failed>
    requires count { 2 ≤ length (D.view disk.old).names }
    requires laid { IsLaid (D.view disk.old) }
    requires files { ArePackageFiles (length (D.view disk.old).names) new.now }
    ensures phase { Phase (D.view disk.old) (D.view disk.new) result
        (Stages (D.view disk.old).names body.now new.now)
        (λ l. record {
          gate = 79;
          second_gate = 0;
          body = body.now;
          packages = put new.now l.packages;
        }) }
    ensures cause { HasCause (D.view disk.old).faults (D.view disk.new).faults result }
{
    stage(disk, body)?;
    write_packages(disk, new)?;
    Ok(())
}

/// Writes new files, so that they wait.
pub(crate) fn apply_new<D: Disk>(disk: &mut D, body: &[u8], new: &[NewFile]) -> Result<(), Failed>
    requires count { 2 ≤ length (D.view disk.old).names }
    requires laid { IsLaid (D.view disk.old) }
    requires files { ArePackageFiles (length (D.view disk.old).names) new.now }
    ensures phase { Phase (D.view disk.old) (D.view disk.new) result
        (Applies (D.view disk.old).names body.now new.now)
        (λ l. record {
          gate = 79;
          second_gate = 79;
          body = body.now;
          packages = put new.now l.packages;
        }) }
    ensures cause { HasCause (D.view disk.old).faults (D.view disk.new).faults result }
{
    stage_packages(disk, body, new)?;
    set_second_gate(disk, OPEN)?;
    Ok(())
}

/// Writes new files, so that they stay.
pub(crate) fn commit_new<D: Disk>(disk: &mut D, body: &[u8], new: &[NewFile]) -> Result<(), Failed>
    requires count { 2 ≤ length (D.view disk.old).names }
    requires laid { IsLaid (D.view disk.old) }
    requires files { ArePackageFiles (length (D.view disk.old).names) new.now }
    ensures phase { Phase (D.view disk.old) (D.view disk.new) result
        (Commits (D.view disk.old).names body.now new.now)
        (λ l. record {
          gate = 0;
          second_gate = 0;
          body = body.now;
          packages = put new.now l.packages;
        }) }
    ensures cause { HasCause (D.view disk.old).faults (D.view disk.new).faults result }
{
    stage_packages(disk, body, new)?;
    set_gate(disk, CLOSED)?;
    Ok(())
}
