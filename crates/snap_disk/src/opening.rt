//! How a disk is opened.
ghost use Rattle.std.specs.Prelude.{ℕ, ◌≡◌, ◌≢◌, ◌≤◌, ◌<◌, ◌+◌, ◌-◌, ◌∷◌, [], drop, take, length};
ghost use Rattle.std.specs.Prelude.{false, Some, None, Err, Ok, OnOk, IfOk, IfErr};
ghost use Rattle.plane_disk.specs.Files.{Files, bytes_of};
ghost use Rattle.plane_disk.specs.View.{IsFile, Tells};
ghost use Rattle.snap_disk.specs.Images.{IsOn, LeavesOnly, SameDisk};
ghost use Rattle.snap_disk.specs.Body.{most_bytes};
ghost use Rattle.snap_disk.specs.Opened.{put, IsWithin};
ghost use Rattle.snap_disk.specs.Phase.{files_of, ArePackageFiles};
ghost use Rattle.snap_disk.specs.Open.{IsOpenOn, state_of};
ghost use Rattle.snap_disk.specs.Opening.{Quiet, OpensFrom, FromImage, found, read_as, OpensGiving};
ghost use Rattle.snap_disk.specs.Opening.{Refuses, ReadRefuses, GatesRefuse, LoadRefuses};
ghost use Rattle.snap_disk.specs.Opening.{SettlesAs, SettleRefuses};

use crate::body::{MOST_BYTES, read_body};
use crate::kept::Kept;
use crate::phases::{BODY, GATES, OPEN, restore, undo};
use crate::snap::put;
use crate::{NewFile, Snap, SnapError};
use plane_disk::Disk;
use plane_io::{Items, Text};
use std::alloc::Global;

/// The most packages of a disk.
const MOST_PACKAGES: u32 = 64;

impl Snap {
    /// Opens a disk, which a stop may have left in any state: restores the old files where the
    /// gates say so, or where the deadline of an apply that waits has come.
    ///
    /// # Errors
    ///
    /// `Limit` exactly where there are more than 64 packages or one has more than 1,048,576 bytes;
    /// `BadSnapshot` exactly where the gates are not two bytes, or the first is open and the body
    /// has no reading; `DiskFailed` only where the disk failed; `Memory`. One that failed may be
    /// called again.
    pub fn open<D: Disk>(alloc: Global, disk: &mut D, now: u64) -> Result<Snap, SnapError>
        ensures same { SameDisk (D.view disk.old) (D.view disk.new) }
        ensures gives { IfOk result (λ snap. (files : Files) → (D.view disk.old).seen ≡ Some files →
            OpensGiving (D.view disk.old).names files now (state_of snap)) }
        ensures open { IfOk result (λ snap.
            IsOpenOn snap (D.view disk.new) × (snap.failed ≡ false)) }
        ensures images { (files : Files) → (D.view disk.old).seen ≡ Some files →
            LeavesOnly (D.view disk.old) (D.view disk.new) (FromImage now (D.view disk.old)) }
        ensures after { OnOk result ((files : Files) → (D.view disk.old).seen ≡ Some files →
            (image : Files) → (D.view disk.new).is_image image →
            OpensFrom (D.view disk.old).names now image files) }
        ensures refused { IfErr result (λ error.
            Refuses (D.view disk.old) (D.view disk.new) now error) }
    {
        let Ok(()) = disk.sync() else {
            return Err(SnapError::DiskFailed);
        };
        let packages = match read_packages(alloc, disk) {
            Ok(packages) => packages,
            Err(error) => return Err(error),
        };
        let gates = match read_gates(disk) {
            Ok(gates) => gates,
            Err(error) => return Err(error),
        };
        let size = disk.size(BODY);
        let body = match read_file(alloc, disk, BODY, size) {
            Ok(body) => body,
            Err(error) => return Err(error),
        };
        settle(alloc, disk, gates, &body, packages, now)
    }
}

/// The bytes of a file of that size.
fn read_file<D: Disk>(
    alloc: Global,
    disk: &mut D,
    file: u32,
    size: u64,
) -> Result<Vec<u8>, SnapError>
    requires number { IsFile (D.view disk.old) file }
    requires size { Tells (D.view disk.old) (λ files. size ≡ length (bytes_of files file)) }
    ensures quiet { Quiet (D.view disk.old) (D.view disk.new) }
    ensures fits { IfOk result (λ bytes. length bytes.items ≤ size) }
    ensures bytes { IfOk result (λ bytes. (files : Files) → (D.view disk.old).seen ≡ Some files →
        bytes.items ≡ bytes_of files file) }
    ensures refused { IfErr result (λ error.
        ReadRefuses (D.view disk.old) (D.view disk.new) error) }
{
    let mut bytes = vec![in alloc; 0u8; size as usize]?;
    match disk.read(file, 0, &mut bytes) {
        Ok(count) => {
            bytes.truncate(count);
            Ok(bytes)
        }
        Err(_) => Err(SnapError::DiskFailed),
    }
}

/// The two gates.
fn read_gates<D: Disk>(disk: &mut D) -> Result<(u8, u8), SnapError>
    requires { IsFile (D.view disk.old) 0 }
    ensures quiet { Quiet (D.view disk.old) (D.view disk.new) }
    ensures gates { IfOk result (λ gates. (files : Files) → (D.view disk.old).seen ≡ Some files →
        bytes_of files 0 ≡ gates.0 ∷ gates.1 ∷ []) }
    ensures refused { IfErr result (λ error.
        GatesRefuse (D.view disk.old) (D.view disk.new) error) }
{
    let size = disk.size(GATES);
    if size != 2 {
        return Err(SnapError::BadSnapshot { byte: size });
    }
    let mut gates = [0u8; 2];
    match disk.read(GATES, 0, &mut gates) {
        Ok(_) => Ok((gates[0], gates[1])),
        Err(_) => Err(SnapError::DiskFailed),
    }
}

/// The bytes of a package.
fn read_package<D: Disk>(alloc: Global, disk: &mut D, file: u32) -> Result<Text, SnapError>
    requires number { IsFile (D.view disk.old) file }
    requires low { 2 ≤ file }
    requires few { length (D.view disk.old).names ≤ 66 }
    ensures quiet { Quiet (D.view disk.old) (D.view disk.new) }
    ensures small { IfOk result (λ bytes. length bytes ≤ most_bytes) }
    ensures bytes { IfOk result (λ bytes. (files : Files) → (D.view disk.old).seen ≡ Some files →
        bytes ≡ bytes_of files file) }
    ensures refused { IfErr result (λ error.
        LoadRefuses (D.view disk.old) (D.view disk.new) error) }
{
    let size = disk.size(file);
    if size > MOST_BYTES as u64 {
        return Err(SnapError::Limit {
            number: MOST_BYTES as u64,
        });
    }
    match read_file(alloc, disk, file, size) {
        Ok(bytes) => Ok(Text::from_vec(bytes)),
        Err(error) => Err(error),
    }
}

/// All packages.
fn read_packages<D: Disk>(alloc: Global, disk: &mut D) -> Result<Vec<Text>, SnapError>
    ensures quiet { Quiet (D.view disk.old) (D.view disk.new) }
    ensures count { IfOk result (λ packages.
        length (D.view disk.old).names ≡ length packages.items + 2) }
    ensures within { IfOk result (λ packages. IsWithin packages.items) }
    ensures packages { IfOk result (λ packages. (files : Files) →
        (D.view disk.old).seen ≡ Some files → packages.items ≡ drop 2 files) }
    ensures refused { IfErr result (λ error.
        LoadRefuses (D.view disk.old) (D.view disk.new) error) }
{
    let count = disk.count();
    if count > MOST_PACKAGES + 2 {
        return Err(SnapError::Limit {
            number: u64::from(MOST_PACKAGES),
        });
    }
    let mut packages = Vec::new(alloc);
    for file in 2..count {
        let bytes = match read_package(alloc, disk, file) {
            Ok(bytes) => bytes,
            Err(error) => return Err(error),
        };
        packages.push(bytes)?;
    }
    Ok(packages)
}

/// Acts on the gates of a disk that reads as these gates, this body and these packages.
#[tactic(auto, using(crate::proofs::LoadLemmas::same_self))]
fn settle<D: Disk>(
    alloc: Global,
    disk: &mut D,
    gates: (u8, u8),
    body: &[u8],
    packages: Vec<Text>,
    now: u64,
) -> Result<Snap, SnapError>
    requires count { length (D.view disk.old).names ≡ length packages.items + 2 }
    requires within { IsWithin packages.items }
    requires on { (files : Files) → (D.view disk.old).seen ≡ Some files →
        IsOn (D.view disk.old) (files_of (read_as gates body.now packages.items)) }
    ensures same { SameDisk (D.view disk.old) (D.view disk.new) }
    ensures settles { IfOk result (λ snap.
        SettlesAs (D.view disk.old).names (files_of (read_as gates body.now packages.items))
        now (state_of snap)) }
    ensures open { IfOk result (λ snap. IsOpenOn snap (D.view disk.new) × (snap.failed ≡ false)) }
    ensures images { (files : Files) → (D.view disk.old).seen ≡ Some files →
        LeavesOnly (D.view disk.old) (D.view disk.new)
        (λ image. OpensFrom (D.view disk.old).names now image
        (files_of (read_as gates body.now packages.items))) }
    ensures refused { IfErr result (λ error. SettleRefuses (D.view disk.old) (D.view disk.new)
        (files_of (read_as gates body.now packages.items)) now error) }
{
    if gates.0 != OPEN {
        return Ok(holding(packages, None));
    }
    let kept = match read_body(alloc, disk, body) {
        Ok(kept) => kept,
        Err(error) => return Err(error),
    };
    if gates.1 != OPEN {
        return match restore(disk, kept.files.as_slice()) {
            Ok(()) => Ok(rested(packages, kept.files)),
            Err(_) => Err(SnapError::DiskFailed),
        };
    }
    if now < kept.pending.deadline {
        return Ok(holding(packages, Some(kept)));
    }
    match undo(disk, kept.files.as_slice()) {
        Ok(()) => Ok(rested(packages, kept.files)),
        Err(_) => Err(SnapError::DiskFailed),
    }
}

/// The object over packages, with what is kept.
fn holding(packages: Vec<Text>, kept: Option<Kept>) -> Snap
    ensures { result ≡ record { packages = packages; kept = kept; failed = false } }
{
    Snap {
        packages,
        kept,
        failed: false,
    }
}

/// The object over packages into which old files were written back.
fn rested(mut packages: Vec<Text>, files: Items<NewFile>) -> Snap
    requires { ArePackageFiles (length packages.items + 2) files }
    ensures packages { result.packages.items ≡ put files packages.items }
    ensures none { result.kept ≡ None }
    ensures good { result.failed ≡ false }
{
    put(&mut packages, files);
    holding(packages, None)
}
