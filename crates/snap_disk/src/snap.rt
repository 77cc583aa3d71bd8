ghost use Rattle.std.specs.Prelude.{◌≡◌, ◌≢◌, ◌≤◌, ◌<◌, ◌+◌, ◌-◌, ◌↔◌, ◌^◌, Bool, true, false};
ghost use Rattle.std.specs.Prelude.{length, Some, None, Ok, Err, OnOk, OnErr, IfOk, IfErr, IfSome};
ghost use Rattle.std.specs.Prelude.{IsErrOf, is_some};
ghost use Rattle.plane_words.specs.Causes.{Rose};
ghost use Rattle.plane_disk.specs.Files.{bytes_of};
ghost use Rattle.snap_disk.specs.Body.{read_body};
ghost use Rattle.snap_disk.specs.Images.{SameDisk};
ghost use Rattle.snap_disk.specs.Opened.{put, settled, pending_over, OpensAsEither};
ghost use Rattle.snap_disk.specs.Phase.{ArePackageFiles, GivesBack};
ghost use Rattle.snap_disk.specs.BodyText.{body_text};
ghost use Rattle.snap_disk.specs.Open.{IsOpenOn, ImagesSince, state_of, begun, confirmed};
ghost use Rattle.snap_disk.specs.Open.{rolled_back, ticked, is_due};
ghost use Rattle.snap_disk.specs.Open.{pending_of, old_files, begun_body, HoldsBody, IsStaged};
ghost use Rattle.snap_disk.specs.Open.{KeepsFiles};
ghost use Rattle.snap_disk.specs.Refusals.{IsGood, NothingIsPending, SomethingIsPending};
ghost use Rattle.snap_disk.specs.Refusals.{BeginRefuses, EndRefuses, TickRefuses};

use crate::body_text::body_text;
use crate::kept::Kept;
use crate::names::has_number;
use crate::phases::{CLOSED, apply_new, commit_new, set_gate, undo};
use crate::{NewFile, Pending, SnapError};
use plane_disk::Disk;
use plane_io::{Items, Memory, Text};
use std::alloc::Global;
use std::mem;

/// The packages of a disk, and the apply that waits on it. It belongs to the disk on which it was
/// opened.
#[derive(Drop)]
pub struct Snap {
    pub(crate) packages: Vec<Text>,
    pub(crate) kept: Option<Kept>,
    pub(crate) failed: bool,
}

/// Writes files into the list of packages.
pub(crate) fn put(packages: &mut Vec<Text>, files: Items<NewFile>)
    requires { ArePackageFiles (length packages.old.items + 2) files }
    ensures { packages.new.items ≡ put files packages.old.items }
{
    for file in files.into_vec() {
        packages[(file.file - 2) as usize] = file.bytes;
    }
}

impl Snap {
    /// The bytes of a package file.
    pub fn file(&self, file: u32) -> &[u8]
        requires low { 2 ≤ file }
        requires number { file < length (state_of self.now).packages + 2 }
        ensures { result.now ≡ bytes_of (state_of self.now).packages (file - 2) }
    {
        self.packages[(file - 2) as usize].as_bytes()
    }

    /// What waits.
    pub fn pending(&self) -> Option<Pending>
        ensures { result ≡ pending_of (state_of self.now).waits }
    {
        match &self.kept {
            Some(kept) => Some(kept.pending),
            None => None,
        }
    }

    /// Writes new files: with a deadline they wait for a confirm, without one they stay. Memory is
    /// taken before the first write. Of files of one number the last one counts.
    ///
    /// # Errors
    ///
    /// `Reopen` exactly after a `DiskFailed`; `Waiting` exactly where an apply waits; `DiskFailed`
    /// only where the disk failed; `Memory`.
    #[tactic(auto, using(crate::proofs::LoadLemmas::same_self))]
    pub fn begin<D: Disk>(
        &mut self,
        alloc: Global,
        disk: &mut D,
        new: Vec<NewFile>,
        wait: Option<Pending>,
    ) -> Result<(), SnapError>
        requires open { IsOpenOn self.old (D.view disk.old) }
        requires files { ArePackageFiles (length (D.view disk.old).names) new.items }
        ensures same { SameDisk (D.view disk.old) (D.view disk.new) }
        ensures open { IsOpenOn self.new (D.view disk.new) }
        ensures images { ImagesSince self.old (D.view disk.old) (D.view disk.new)
            (OpensAsEither (D.view disk.old).names (state_of self.old)
            (begun (state_of self.old) new.items wait)) }
        ensures ok { OnOk result (IsGood self.old × NothingIsPending self.old × IsGood self.new
            × (state_of self.new ≡ begun (state_of self.old) new.items wait)) }
        ensures body { OnOk result (HoldsBody (D.view disk.old) (D.view disk.new)
            (body_text (D.view disk.old).names 2 (begun_body (state_of self.old) new.items wait))) }
        ensures err { OnErr result (state_of self.new ≡ state_of self.old) }
        ensures refused { IfErr result (λ error.
            BeginRefuses self.old (D.view disk.old) (D.view disk.new) error) }
        ensures closes { result ≡ Err SnapError.DiskFailed → self.new.failed ≡ true }
        ensures stays { IfErr result (λ error. error ≢ SnapError.DiskFailed →
            (self.new ≡ self.old) × (disk.new ≡ disk.old)) }
    {
        if self.failed {
            return Err(SnapError::Reopen);
        }
        if let Some(kept) = &self.kept {
            return Err(SnapError::Waiting {
                deadline: kept.pending.deadline,
            });
        }
        match wait {
            Some(pending) => self.begin_apply(alloc, disk, new, pending),
            None => self.begin_commit(alloc, disk, new),
        }
    }

    /// With a deadline.
    #[tactic(auto, using(crate::proofs::LoadLemmas::same_self))]
    fn begin_apply<D: Disk>(
        &mut self,
        alloc: Global,
        disk: &mut D,
        new: Vec<NewFile>,
        pending: Pending,
    ) -> Result<(), SnapError>
        requires open { IsOpenOn self.old (D.view disk.old) }
        requires files { ArePackageFiles (length (D.view disk.old).names) new.items }
        requires ready { self.old.failed ≡ false }
        requires none { self.old.kept ≡ None }
        ensures same { SameDisk (D.view disk.old) (D.view disk.new) }
        ensures open { IsOpenOn self.new (D.view disk.new) }
        ensures images { ImagesSince self.old (D.view disk.old) (D.view disk.new)
            (OpensAsEither (D.view disk.old).names (state_of self.old)
            (begun (state_of self.old) new.items (Some pending))) }
        ensures ok { OnOk result (IsGood self.new
            × (state_of self.new ≡ begun (state_of self.old) new.items (Some pending))) }
        ensures body { OnOk result (HoldsBody (D.view disk.old) (D.view disk.new)
            (body_text (D.view disk.old).names 2
            (begun_body (state_of self.old) new.items (Some pending)))) }
        ensures err { OnErr result (state_of self.new ≡ state_of self.old) }
        ensures refused { IfErr result (λ error.
            BeginRefuses self.old (D.view disk.old) (D.view disk.new) error) }
        ensures closes { result ≡ Err SnapError.DiskFailed → self.new.failed ≡ true }
        ensures stays { IfErr result (λ error. error ≢ SnapError.DiskFailed →
            (self.new ≡ self.old) × (disk.new ≡ disk.old)) }
    {
        let kept = self.old_kept(alloc, disk, &new, pending)?;
        let body = body_text(alloc, disk, &kept)?;
        match apply_new(disk, &body, &new) {
            Ok(()) => {
                put(&mut self.packages, Items::from_vec(new));
                self.kept = Some(kept);
                Ok(())
            }
            Err(_) => {
                self.failed = true;
                Err(SnapError::DiskFailed)
            }
        }
    }

    /// Without one: the body has deadline and holder 0.
    #[tactic(auto, using(crate::proofs::LoadLemmas::same_self))]
    fn begin_commit<D: Disk>(
        &mut self,
        alloc: Global,
        disk: &mut D,
        new: Vec<NewFile>,
    ) -> Result<(), SnapError>
        requires open { IsOpenOn self.old (D.view disk.old) }
        requires files { ArePackageFiles (length (D.view disk.old).names) new.items }
        requires ready { self.old.failed ≡ false }
        requires none { self.old.kept ≡ None }
        ensures same { SameDisk (D.view disk.old) (D.view disk.new) }
        ensures open { IsOpenOn self.new (D.view disk.new) }
        ensures images { ImagesSince self.old (D.view disk.old) (D.view disk.new)
            (OpensAsEither (D.view disk.old).names (state_of self.old)
            (begun (state_of self.old) new.items None)) }
        ensures ok { OnOk result (IsGood self.new
            × (state_of self.new ≡ begun (state_of self.old) new.items (None))) }
        ensures body { OnOk result (HoldsBody (D.view disk.old) (D.view disk.new)
            (body_text (D.view disk.old).names 2 (begun_body (state_of self.old) new.items None))) }
        ensures err { OnErr result (state_of self.new ≡ state_of self.old) }
        ensures refused { IfErr result (λ error.
            BeginRefuses self.old (D.view disk.old) (D.view disk.new) error) }
        ensures closes { result ≡ Err SnapError.DiskFailed → self.new.failed ≡ true }
        ensures stays { IfErr result (λ error. error ≢ SnapError.DiskFailed →
            (self.new ≡ self.old) × (disk.new ≡ disk.old)) }
    {
        let plain = Pending {
            deadline: 0,
            holder: 0,
        };
        let kept = self.old_kept(alloc, disk, &new, plain)?;
        let body = body_text(alloc, disk, &kept)?;
        match commit_new(disk, &body, &new) {
            Ok(()) => {
                put(&mut self.packages, Items::from_vec(new));
                Ok(())
            }
            Err(_) => {
                self.failed = true;
                Err(SnapError::DiskFailed)
            }
        }
    }

    /// Lets the new files stay. It takes no memory.
    ///
    /// # Errors
    ///
    /// `Reopen` exactly after a `DiskFailed`; `NothingWaits` exactly where no apply waits;
    /// `DiskFailed` only where the disk failed.
    #[tactic(auto, using(crate::proofs::LoadLemmas::same_self))]
    pub fn confirm<D: Disk>(&mut self, disk: &mut D) -> Result<(), SnapError>
        requires open { IsOpenOn self.old (D.view disk.old) }
        ensures same { SameDisk (D.view disk.old) (D.view disk.new) }
        ensures open { IsOpenOn self.new (D.view disk.new) }
        ensures images { ImagesSince self.old (D.view disk.old) (D.view disk.new)
            (OpensAsEither (D.view disk.old).names (state_of self.old)
            (confirmed (state_of self.old))) }
        ensures ok { OnOk result (IsGood self.old × SomethingIsPending self.old × IsGood self.new
            × (state_of self.new ≡ confirmed (state_of self.old))) }
        ensures err { OnErr result (state_of self.new ≡ state_of self.old) }
        ensures refused { IfErr result (λ error.
            EndRefuses self.old (D.view disk.old) (D.view disk.new) error) }
        ensures closes { result ≡ Err SnapError.DiskFailed → self.new.failed ≡ true }
        ensures stays { IfErr result (λ error. error ≢ SnapError.DiskFailed →
            (self.new ≡ self.old) × (disk.new ≡ disk.old)) }
    {
        if self.failed {
            return Err(SnapError::Reopen);
        }
        let Some(_) = &self.kept else {
            return Err(SnapError::NothingWaits);
        };
        match set_gate(disk, CLOSED) {
            Ok(()) => {
                self.kept = None;
                Ok(())
            }
            Err(_) => {
                self.failed = true;
                Err(SnapError::DiskFailed)
            }
        }
    }

    /// Writes the old files back. It takes no memory.
    ///
    /// # Errors
    ///
    /// `Reopen` exactly after a `DiskFailed`; `NothingWaits` exactly where no apply waits;
    /// `DiskFailed` only where the disk failed.
    #[tactic(auto, using(crate::proofs::LoadLemmas::same_self))]
    pub fn rollback<D: Disk>(&mut self, disk: &mut D) -> Result<(), SnapError>
        requires open { IsOpenOn self.old (D.view disk.old) }
        ensures same { SameDisk (D.view disk.old) (D.view disk.new) }
        ensures open { IsOpenOn self.new (D.view disk.new) }
        ensures images { ImagesSince self.old (D.view disk.old) (D.view disk.new)
            (OpensAsEither (D.view disk.old).names (state_of self.old)
            (rolled_back (state_of self.old))) }
        ensures ok { OnOk result (IsGood self.old × SomethingIsPending self.old × IsGood self.new
            × (state_of self.new ≡ rolled_back (state_of self.old))) }
        ensures err { OnErr result (state_of self.new ≡ state_of self.old) }
        ensures refused { IfErr result (λ error.
            EndRefuses self.old (D.view disk.old) (D.view disk.new) error) }
        ensures closes { result ≡ Err SnapError.DiskFailed → self.new.failed ≡ true }
        ensures stays { IfErr result (λ error. error ≢ SnapError.DiskFailed →
            (self.new ≡ self.old) × (disk.new ≡ disk.old)) }
    {
        if self.failed {
            return Err(SnapError::Reopen);
        }
        let Some(kept) = &self.kept else {
            return Err(SnapError::NothingWaits);
        };
        match undo(disk, kept.files.as_slice()) {
            Ok(()) => {
                self.settle();
                Ok(())
            }
            Err(_) => {
                self.failed = true;
                Err(SnapError::DiskFailed)
            }
        }
    }

    /// Rolls back where the deadline of an apply that waits has come, and answers whether it did.
    /// It takes no memory.
    ///
    /// # Errors
    ///
    /// `Reopen` exactly after a `DiskFailed`; `DiskFailed` only where the disk failed.
    #[tactic(auto, using(crate::proofs::LoadLemmas::same_self))]
    pub fn tick<D: Disk>(&mut self, disk: &mut D, now: u64) -> Result<bool, SnapError>
        requires open { IsOpenOn self.old (D.view disk.old) }
        ensures same { SameDisk (D.view disk.old) (D.view disk.new) }
        ensures open { IsOpenOn self.new (D.view disk.new) }
        ensures images { ImagesSince self.old (D.view disk.old) (D.view disk.new)
            (OpensAsEither (D.view disk.old).names (state_of self.old)
            (ticked (state_of self.old) now)) }
        ensures ok { IfOk result (λ done. (done ≡ is_due (state_of self.old).waits now)
            × IsGood self.old × IsGood self.new
            × (state_of self.new ≡ ticked (state_of self.old) now)) }
        ensures rests { result ≡ Ok false → (self.new ≡ self.old) × (disk.new ≡ disk.old) }
        ensures err { OnErr result (state_of self.new ≡ state_of self.old) }
        ensures refused { IfErr result (λ error.
            TickRefuses self.old now (D.view disk.old) (D.view disk.new) error) }
        ensures closes { result ≡ Err SnapError.DiskFailed → self.new.failed ≡ true }
        ensures stays { IfErr result (λ error. error ≢ SnapError.DiskFailed →
            (self.new ≡ self.old) × (disk.new ≡ disk.old)) }
    {
        if self.failed {
            return Err(SnapError::Reopen);
        }
        if !self.is_due(now) {
            return Ok(false);
        }
        match self.rollback(disk) {
            Ok(()) => Ok(true),
            Err(error) => Err(error),
        }
    }

    /// Whether the deadline of what waits has come.
    fn is_due(&self, now: u64) -> bool
        ensures { result ≡ is_due (state_of self.now).waits now }
    {
        match &self.kept {
            Some(kept) => kept.pending.deadline <= now,
            None => false,
        }
    }

    /// Takes the old files.
    fn settle(&mut self)
        requires { KeepsFiles (length self.old.packages.items + 2) self.old.kept }
        ensures state { state_of self.new ≡ rolled_back (state_of self.old) }
        ensures none { self.new.kept ≡ None }
        ensures failed { self.new.failed ≡ self.old.failed }
    {
        if let Some(kept) = mem::replace(&mut self.kept, None) {
            put(&mut self.packages, kept.files);
        }
    }

    /// What is to be kept beside a begin of these files.
    fn old_kept<D: Disk>(
        &self,
        alloc: Global,
        disk: &D,
        new: &[NewFile],
        pending: Pending,
    ) -> Result<Kept, Memory>
        requires open { IsOpenOn self.now (D.view disk.now) }
        requires files { ArePackageFiles (length (D.view disk.now).names) new.now }
        ensures pending { IfOk result (λ kept. kept.pending ≡ pending) }
        ensures few { IfOk result (λ kept. length kept.files < 2 ^ 32) }
        ensures files { IfOk result (λ kept.
            kept.files ≡ old_files new.now 2 self.now.packages.items) }
        ensures staged { IfOk result (λ kept. IsStaged (D.view disk.now).names
            (body_text (D.view disk.now).names 2 kept) new.now self.now kept) }
    {
        // There are fewer files than 2^32.
        let _count = disk.count();
        let files = self.old_files(alloc, new)?;
        Ok(Kept { pending, files })
    }

    /// Those files, as they are, that are about to be written.
    fn old_files(&self, alloc: Global, new: &[NewFile]) -> Result<Items<NewFile>, Memory>
        requires { length self.now.packages.items + 2 < 2 ^ 32 }
        ensures { IfOk result (λ files. files ≡ old_files new.now 2 self.now.packages.items) }
    {
        let mut files = Items::new(alloc);
        let packages = self.packages.as_slice();
        for index in 0..packages.len() {
            let file = index as u32 + 2;
            if has_number(new, file) {
                let bytes = packages[index].copy()?;
                files.push(NewFile { file, bytes })?;
            }
        }
        Ok(files)
    }
}
