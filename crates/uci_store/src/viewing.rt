//! What holders see.
ghost use Rattle.std.specs.Prelude.{◌≡◌, ◌≤◌, ◌<◌, ◌+◌, length, IfOk, IfErr};
ghost use Rattle.uci_tree.specs.Valid.{IsValid};
ghost use Rattle.uci_store.specs.Store.{names_of, name_of, IsStore};
ghost use Rattle.uci_store.specs.Refusals.{ReadsAt, IsSeenAt, FileRefuses, IsCommitted, IsSeen};
ghost use Rattle.uci_store.specs.Refusals.{ReadRefuses, AreChanges, ChangesRefuse};

use crate::{Store, StoreError};
use plane_io::Items;
use std::alloc::Global;
use uci_delta::Delta;
use uci_tree::{Package, read_package};

impl Store {
    /// The package as it is committed.
    ///
    /// # Errors
    ///
    /// `NoPackage` exactly where no file has that name, `Parse` exactly where the file does not
    /// read, and `Memory`, of a package that has a file.
    pub fn committed(&self, alloc: Global, package: &[u8]) -> Result<Package, StoreError>
        requires { IsStore self.now }
        ensures found { IfOk result (IsCommitted self.now «package».now) }
        ensures refused { IfErr result (ReadRefuses self.now «package».now) }
        ensures valid { IfOk result IsValid }
    {
        let Some(file) = self.file_of(package) else {
            return Err(StoreError::NoPackage);
        };
        self.read(alloc, package, file)
    }

    /// The package as the holder sees it: what the holder has staged, applied in its order. A
    /// change that is refused then is passed over, and stays staged.
    ///
    /// # Errors
    ///
    /// Those of [`Store::committed`].
    pub fn view(&self, alloc: Global, holder: u128, package: &[u8]) -> Result<Package, StoreError>
        requires { IsStore self.now }
        ensures seen { IfOk result (IsSeen self.now holder «package».now) }
        ensures refused { IfErr result (ReadRefuses self.now «package».now) }
        ensures valid { IfOk result IsValid }
    {
        let Some(file) = self.file_of(package) else {
            return Err(StoreError::NoPackage);
        };
        self.view_of(alloc, holder, package, file)
    }

    /// What the holder has staged of the package, in its order. The package's file is not read.
    ///
    /// # Errors
    ///
    /// `NoPackage` exactly where no file has that name, and `Memory`, of a package that has a file.
    pub fn changes(
        &self,
        alloc: Global,
        holder: u128,
        package: &[u8],
    ) -> Result<Items<Delta>, StoreError>
        requires { IsStore self.now }
        ensures found { IfOk result (AreChanges self.now holder «package».now) }
        ensures refused { IfErr result (ChangesRefuse self.now «package».now) }
    {
        let Some(file) = self.file_of(package) else {
            return Err(StoreError::NoPackage);
        };
        Ok(self.staged.deltas(alloc, holder, file)?)
    }

    /// The view of the package of that file.
    pub(crate) fn view_of(
        &self,
        alloc: Global,
        holder: u128,
        package: &[u8],
        file: u32,
    ) -> Result<Package, StoreError>
        requires store { IsStore self.now }
        requires low { 2 ≤ file }
        requires number { file < length (names_of self.now) + 2 }
        requires name { name_of (names_of self.now) file ≡ «package».now }
        ensures seen { IfOk result (IsSeenAt self.now holder file) }
        ensures refused { IfErr result (FileRefuses self.now file) }
        ensures valid { IfOk result IsValid }
    {
        let mut tree = self.read(alloc, package, file)?;
        self.staged.apply_to(alloc, holder, file, &mut tree)?;
        Ok(tree)
    }

    /// The committed package of that file.
    fn read(&self, alloc: Global, package: &[u8], file: u32) -> Result<Package, StoreError>
        requires store { IsStore self.now }
        requires low { 2 ≤ file }
        requires number { file < length (names_of self.now) + 2 }
        requires name { name_of (names_of self.now) file ≡ «package».now }
        ensures reads { IfOk result (ReadsAt self.now file) }
        ensures refused { IfErr result (FileRefuses self.now file) }
        ensures valid { IfOk result IsValid }
    {
        match read_package(alloc, package, self.snap.file(file)) {
            Ok(tree) => Ok(tree),
            Err(error) => Err(StoreError::from(error)),
        }
    }
}
