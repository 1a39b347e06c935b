//! What is asked of files.
ghost use Rattle.std.specs.Prelude.{◌≡◌, [], ◌∷◌, ◌++◌, IfOk, IfErr};
ghost use Rattle.store_files.specs.History.{Done};
ghost use Rattle.store_files.specs.Refusal.{IsOfOpening};
ghost use Rattle.store_files.specs.declared.files.Deed.TheVariants.{Closed, Looked, Opened, Refused};

use crate::refusal::StoreRefusal;

/// What was done to a file.
#[derive(Drop)]
pub enum Deed<C> {
    /// It was looked at: whether there was such a file, it could be read, and it had bytes.
    Looked(bool),
    /// Its store was opened for this.
    Opened(Use),
    /// Its store was to be opened, and was not, for this reason.
    Refused(StoreRefusal),
    /// Its store was opened, also to be written to, and it lost its name before anything else was done.
    OpenedUnnamed,
    /// Its store was to be opened, and was not, for this reason, and it lost its name.
    RefusedUnnamed(StoreRefusal),
    /// Its store was closed, and this was left of it.
    Closed(C),
    /// It and its log were read, and copied into files that were made for that.
    Copied,
    /// Files were made beside it, in its folder.
    Joined,
    /// It was made, and no file had its name before.
    Made,
    /// It lost its name.
    Unlinked,
}

/// What a store is opened for.
#[derive(Clone, Copy, Debug, Drop, PartialEq, Eq)]
pub enum Use {
    /// It is only read: if there is no file, none is left.
    Reading,
    /// It is also written to.
    Writing,
}

/// An open store, with the name of its file.
#[derive(Drop)]
pub struct OpenFile<'n, S> {
    pub store: S,
    pub name: &'n str,
}

/// Files whose stores are `S`. A closed store leaves a `C`.
///
/// Each opening, each closing and each look for bytes is noted.
pub trait StoreFiles<S, C> {
    ghost use Rattle.std.specs.Prelude.{List, ◌++◌};
    ghost use Rattle.store_files.specs.History.{Done};

    /// What was done so far, the oldest first.
    ghost history: { Self → List (Done C) };

    /// What holds of a store that was just opened.
    ghost begins: { S → Type 0 };

    /// What is left of a store that is closed.
    ghost left: { S → C };

    /// Returns whether there is such a file, it can be read, and it has bytes. It changes no file.
    fn holds_bytes(&mut self, name: &str) -> bool
        ensures { history self.new ≡ history self.old ++ (name.now, Looked result) ∷ [] };

    /// Opens the store of a file. Fails with the refusal of the store.
    fn open<'n>(&mut self, name: &'n str, purpose: Use) -> Result<OpenFile<'n, S>, StoreRefusal>
        ensures begun { IfOk result (λ file. begins file.store × (file.name.now ≡ name.now)) }
        ensures opened { IfOk result (λ _. history self.new ≡ history self.old ++ (name.now, Opened purpose) ∷ []) }
        ensures refused { IfErr result (λ why. history self.new ≡ history self.old ++ (name.now, Refused why) ∷ []) }
        ensures opening { IfErr result IsOfOpening };

    /// Closes the store of a file, as it is now.
    fn close<'n>(&mut self, file: OpenFile<'n, S>)
        ensures { history self.new ≡ history self.old ++ (file.entry.name.now, Closed (left file.entry.store)) ∷ [] };
}
