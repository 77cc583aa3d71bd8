//! An apply that waits: confirmed or rolled back by its holder, or undone when its time is over.
ghost use Rattle.std.specs.Prelude.{◌≡◌, ◌≢◌, false, true, Ok, Err, IfOk, IfErr, OnOk, OnErr};
ghost use Rattle.snap_disk.specs.Images.{SameDisk};
ghost use Rattle.snap_disk.specs.Open.{is_due};
ghost use Rattle.uci_store.specs.Store.{names_of, snap_of, files_of, staged_in, has_failed};
ghost use Rattle.uci_store.specs.Store.{IsOnFiles};
ghost use Rattle.uci_store.specs.Staging.{IsWhole};
ghost use Rattle.uci_store.specs.StoreError.{IsAnswer};
ghost use Rattle.uci_store.specs.Stops.{StopLeaves, UnlessFailed};
ghost use Rattle.uci_store.specs.Waiting.{IsHolders, ConfirmsTo, RollsBackTo, TicksTo, EndStops};
ghost use Rattle.uci_store.specs.Waiting.{EndRefuses, TickRefuses};

use crate::{Store, StoreError};
use plane_disk::Disk;
use snap_disk::SnapError;

impl Store {
    /// Lets the new files of the holder's apply stay. It takes no memory.
    ///
    /// # Errors
    ///
    /// The store stays as it was, and but for `DiskFailed` the disk is untouched. `Reopen` exactly
    /// after a disk failed; `NothingWaits` exactly where no apply waits; `NotHolder` exactly where
    /// another holder's does; `DiskFailed` only where the disk failed.
    pub fn confirm<D: Disk>(&mut self, files: &mut D, holder: u128) -> Result<(), StoreError>
        requires { IsOnFiles self.old (D.view files.old) }
        ensures same { SameDisk (D.view files.old) (D.view files.new) }
        ensures on { IsOnFiles self.new (D.view files.new) }
        ensures names { names_of self.new ≡ names_of self.old }
        ensures staged { staged_in self.new ≡ staged_in self.old }
        ensures images { StopLeaves self.old (D.view files.old) (D.view files.new)
            (ConfirmsTo self.old holder) }
        ensures done { OnOk result (ConfirmsTo self.old holder (files_of self.new)) }
        ensures kept { OnErr result (files_of self.new ≡ files_of self.old) }
        ensures refused { IfErr result
            (EndRefuses self.old holder (D.view files.old) (D.view files.new)) }
        ensures untouched { IfErr result (UnlessFailed (files.new ≡ files.old)) }
        ensures closes { IsWhole result (has_failed self.old) (has_failed self.new) }
    {
        self.refuse_other(holder)?;
        match self.snap.confirm(files) {
            Ok(()) => Ok(()),
            Err(error) => Err(self.failed_on(error)),
        }
    }

    /// Writes the files before the holder's apply back. It takes no memory.
    ///
    /// # Errors
    ///
    /// Those of [`Store::confirm`].
    pub fn rollback<D: Disk>(&mut self, files: &mut D, holder: u128) -> Result<(), StoreError>
        requires { IsOnFiles self.old (D.view files.old) }
        ensures same { SameDisk (D.view files.old) (D.view files.new) }
        ensures on { IsOnFiles self.new (D.view files.new) }
        ensures names { names_of self.new ≡ names_of self.old }
        ensures staged { staged_in self.new ≡ staged_in self.old }
        ensures images { StopLeaves self.old (D.view files.old) (D.view files.new)
            (RollsBackTo self.old holder) }
        ensures done { OnOk result (RollsBackTo self.old holder (files_of self.new)) }
        ensures kept { OnErr result (files_of self.new ≡ files_of self.old) }
        ensures refused { IfErr result
            (EndRefuses self.old holder (D.view files.old) (D.view files.new)) }
        ensures untouched { IfErr result (UnlessFailed (files.new ≡ files.old)) }
        ensures closes { IsWhole result (has_failed self.old) (has_failed self.new) }
    {
        self.refuse_other(holder)?;
        match self.snap.rollback(files) {
            Ok(()) => Ok(()),
            Err(error) => Err(self.failed_on(error)),
        }
    }

    /// Rolls back where the deadline of an apply that waits has come, and answers whether it did.
    /// It takes no memory.
    ///
    /// # Errors
    ///
    /// The store stays as it was, and but for `DiskFailed` the disk is untouched. `Reopen` exactly
    /// after a disk failed; `DiskFailed` only where the disk failed.
    pub fn tick<D: Disk>(&mut self, files: &mut D, now: u64) -> Result<bool, StoreError>
        requires { IsOnFiles self.old (D.view files.old) }
        ensures same { SameDisk (D.view files.old) (D.view files.new) }
        ensures on { IsOnFiles self.new (D.view files.new) }
        ensures names { names_of self.new ≡ names_of self.old }
        ensures staged { staged_in self.new ≡ staged_in self.old }
        ensures images { StopLeaves self.old (D.view files.old) (D.view files.new)
            (TicksTo self.old now) }
        ensures due { IfOk result (λ done. done ≡ is_due (files_of self.old).waits now) }
        ensures done { OnOk result (TicksTo self.old now (files_of self.new)) }
        ensures rests { result ≡ Ok false → files.new ≡ files.old }
        ensures kept { OnErr result (files_of self.new ≡ files_of self.old) }
        ensures refused { IfErr result
            (TickRefuses self.old now (D.view files.old) (D.view files.new)) }
        ensures untouched { IfErr result (UnlessFailed (files.new ≡ files.old)) }
        ensures closes { IsWhole result (has_failed self.old) (has_failed self.new) }
    {
        self.refuse_failed()?;
        match self.snap.tick(files, now) {
            Ok(done) => Ok(done),
            Err(error) => Err(self.failed_on(error)),
        }
    }

    /// Refuses where no apply of the holder waits.
    fn refuse_other(&self, holder: u128) -> Result<(), StoreError>
        ensures ready { OnOk result (IsHolders self.now holder) }
        ensures refused { IfErr result (EndStops self.now holder) }
    {
        self.refuse_failed()?;
        let Some(pending) = self.snap.pending() else {
            return Err(StoreError::Snap(SnapError::NothingWaits));
        };
        if pending.holder != holder {
            return Err(StoreError::NotHolder {
                holder: pending.holder,
            });
        }
        Ok(())
    }

    /// What a call answers that the snapshot has refused.
    pub(crate) fn failed_on(&mut self, error: SnapError) -> StoreError
        ensures names { names_of self.new ≡ names_of self.old }
        ensures snap { snap_of self.new ≡ snap_of self.old }
        ensures staged { staged_in self.new ≡ staged_in self.old }
        ensures answer { IsAnswer error result (has_failed self.old) (has_failed self.new) }
    {
        match error {
            SnapError::DiskFailed => {
                self.failed = true;
                StoreError::Snap(SnapError::DiskFailed)
            }
            SnapError::Memory => StoreError::Memory,
            other => StoreError::Snap(other),
        }
    }
}
