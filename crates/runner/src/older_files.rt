//! What is asked of the files of older stores.
ghost use Rattle.std.specs.Prelude.{◌≡◌, [], ◌∷◌, ◌++◌, IfOk, IfErr};
ghost use Rattle.store_files.specs.Refusal.{IsOfOpening};
ghost use Rattle.store_files.specs.declared.files.Deed.TheVariants.{Copied, Joined, Made, Refused};
ghost use Rattle.store_files.specs.declared.files.Deed.TheVariants.{OpenedUnnamed, RefusedUnnamed, Unlinked};

use crate::temporary_files::TemporaryFiles;
use store_files::files::{OpenFile, StoreFiles};
use store_files::refusal::StoreRefusal;

/// The files of older stores, which are opened as connections `C`.
pub trait OlderFiles<C>: StoreFiles<C, C> {
    /// Copies a file, and its log if there is one, into new files in the folder of another, and returns their names.
    /// Fails with `Device`, `BadSchema` or `Memory`, and then leaves no copy.
    fn copy(&mut self, from: &str, beside: &str) -> Result<TemporaryFiles, StoreRefusal>
        ensures copied { IfOk result (λ copy. Self.history self.new ≡ Self.history self.old ++ (from.now, Copied)
            ∷ (beside.now, Joined) ∷ (copy.path.bytes.items, Made) ∷ (copy.log.bytes.items, Made) ∷ []) }
        ensures refused { IfErr result
            (λ why. Self.history self.new ≡ Self.history self.old ++ (from.now, Refused why) ∷ []) }
        ensures opening { IfErr result IsOfOpening };

    /// Opens the store of a copy, also to write to it, and takes both names of the copy away before it returns. Fails
    /// with the refusal of the store, and takes the names away then, too. If that fails, the names stay.
    fn open_unnamed<'n>(
        &mut self,
        copy: &'n TemporaryFiles,
    ) -> Result<OpenFile<'n, C>, StoreRefusal>
        ensures begun { IfOk result
            (λ file. Self.begins file.store × (file.name.now ≡ copy.now.path.bytes.items)) }
        ensures opened { IfOk result (λ _. Self.history self.new ≡ Self.history self.old
            ++ (copy.now.path.bytes.items, OpenedUnnamed) ∷ (copy.now.log.bytes.items, Unlinked) ∷ []) }
        ensures refused { IfErr result (λ why. Self.history self.new ≡ Self.history self.old
            ++ (copy.now.path.bytes.items, RefusedUnnamed why) ∷ (copy.now.log.bytes.items, Unlinked) ∷ []) }
        ensures opening { IfErr result IsOfOpening };
}
