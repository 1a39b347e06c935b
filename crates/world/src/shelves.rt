//! The trait of a store of shelves.
use crate::entry::{EntryRef, Heading, Holder, Right, Seen};
use crate::registry::{RegistryReply, StoreFault};
use crate::standing::Standing;
use crate::text_set::TextSet;
use crate::version_list::Versions;
use modpath::ModulePath;
use modver::Version;

/// A store. The contract of a call says what it does in each world that the store stands for before it, as long as no
/// disk gave a wrong answer. A call fails with `Device` if a device failed, and with `Memory` if memory ran out. After
/// a call that fails, the store stands for the world that it stood for before. A crash may leave the change, but only
/// whole: `AfterCrash` in `specs/Store.antt` says what it leaves.
pub trait Shelves {
    ghost use Rattle.std.specs.Prelude.{◌≡◌, option_copied};
    ghost use Rattle.std.specs.FinMap as map;
    ghost use Rattle.modver.specs.SemanticVersion.{version_text};
    ghost use Rattle.world.specs.World.{World, IsWorld, place, view, heading, count, with_entry};
    ghost use Rattle.world.specs.Registry.{team_added, after_team_add, group_added, after_group_add};
    ghost use Rattle.world.specs.Registry.{key_added, after_key_add, key_revoked, after_key_revoke};
    ghost use Rattle.world.specs.Registry.{keys_revoked, after_keys_revoke};
    ghost use Rattle.world.specs.Standing.{standing};
    ghost use Rattle.world.specs.Latest.{latest_of};
    ghost use Rattle.world.specs.Versions.{versions_of};
    ghost use Rattle.world.specs.Visible.{paths_seen};
    ghost use Rattle.world.specs.Store.{Shown, Does, DoesWhere, Reads, IsRoomFor};

    /// What is known of the store.
    ghost shown: { Self → Shown };

    /// Returns how often a device has failed. Allocates nothing.
    fn failures(&self) -> u64
        ensures { result ≡ (shown self.now).failures };

    /// Returns what the key holds, or None if there is no such key.
    fn key(&mut self, key: &str) -> Result<Option<Holder>, StoreFault>
        ensures reads { Reads (shown self.old) (shown self.new) result (λ w. map.get w.keys key.now) };

    /// Returns the entry of the version that the shelf sees, with the shelf that it stands on, or None if the shelf
    /// sees none.
    fn entry(
        &mut self,
        shelf: &str,
        path: &ModulePath,
        version: &Version,
    ) -> Result<Option<Seen>, StoreFault>
        ensures reads { Reads (shown self.old) (shown self.new) result
            (λ w. view w shelf.now path.now (version_text version.now)) };

    /// Returns what the shelf sees of the version without its zip, or None if the shelf sees no entry.
    fn heading(
        &mut self,
        shelf: &str,
        path: &ModulePath,
        version: &Version,
    ) -> Result<Option<Heading>, StoreFault>
        ensures reads { Reads (shown self.old) (shown self.new) result
            (λ w. heading w shelf.now path.now (version_text version.now)) };

    /// Returns how an entry that is handed in compares with what the shelf sees of the version.
    fn compare(
        &mut self,
        shelf: &str,
        path: &ModulePath,
        version: &Version,
        entry: &EntryRef,
    ) -> Result<Standing, StoreFault>
        ensures reads { Reads (shown self.old) (shown self.new) result
            (λ w. standing w shelf.now path.now (version_text version.now) entry.now) };

    /// Returns the versions of the path that the shelf sees, each once, in ascending precedence. (SemVer 2.0.0, section
    /// 11.)
    fn versions(&mut self, shelf: &str, path: &ModulePath) -> Result<Versions, StoreFault>
        ensures reads { Reads (shown self.old) (shown self.new) result (λ w. versions_of w shelf.now path.now) };

    /// Returns the latest version of the path, or None if there is none: among the versions that the shelf sees, the
    /// highest by rank that the go.mod of the highest does not retract. (Go Modules Reference, "GOPROXY protocol", on
    /// `@latest`.)
    fn latest(&mut self, shelf: &str, path: &ModulePath) -> Result<Option<Version>, StoreFault>
        ensures reads { Reads (shown self.old) (shown self.new) result (λ w. latest_of w shelf.now path.now) };

    /// Returns the paths that the shelf sees.
    fn paths(&mut self, shelf: &str) -> Result<TextSet, StoreFault>
        ensures reads { Reads (shown self.old) (shown self.new) result (λ w. paths_seen w shelf.now) };

    /// Returns how many versions of the path stand on the shelf.
    fn count(&mut self, shelf: &str, path: &ModulePath) -> Result<u64, StoreFault>
        ensures reads { Reads (shown self.old) (shown self.new) result (λ w. count w shelf.now path.now) };

    /// Stores an entry at its place. The contract speaks only of worlds with room for it (`IsRoomFor`), so the caller
    /// checks that first. `AfterCrash` says what a crash leaves.
    fn insert(
        &mut self,
        shelf: &str,
        path: &ModulePath,
        version: &Version,
        entry: &EntryRef,
    ) -> Result<(), StoreFault>
        ensures does { DoesWhere (λ w. IsRoomFor w (place shelf.now path.now (version_text version.now)) entry.now)
            (shown self.old) (shown self.new) result (λ _. tt)
            (λ w. with_entry w (place shelf.now path.now (version_text version.now)) entry.now) };

    /// Adds a team, as a member of a group if one is named. Returns `Done`, or why the team was not added: `Name` if
    /// the name is malformed, otherwise `Taken` if a shelf has it, otherwise `NoGroup` if the group does not exist.
    fn team_add(&mut self, name: &str, group: Option<&str>) -> Result<RegistryReply, StoreFault>
        ensures does { Does (shown self.old) (shown self.new) result
            (λ w. team_added w name.now (option_copied group.entry))
            (λ w. after_team_add w name.now (option_copied group.entry)
            (team_added w name.now (option_copied group.entry))) };

    /// Adds a group. Returns `Done`, or why the group was not added: `Name` if the name is malformed, otherwise `Taken`
    /// if a shelf has it.
    fn group_add(&mut self, name: &str) -> Result<RegistryReply, StoreFault>
        ensures does { Does (shown self.old) (shown self.new) result (λ w. group_added w name.now)
            (λ w. after_group_add w name.now (group_added w name.now)) };

    /// Adds a key to a shelf. Returns `Done`, or why the key was not added: `Name` if the key is malformed, otherwise
    /// `NoTeam` if there is no such shelf, otherwise `Taken` if the key exists.
    fn key_add(&mut self, shelf: &str, key: &str, right: Right) -> Result<RegistryReply, StoreFault>
        ensures does { Does (shown self.old) (shown self.new) result (λ w. key_added w shelf.now key.now)
            (λ w. after_key_add w shelf.now key.now right (key_added w shelf.now key.now)) };

    /// Takes a key away. Returns `Done`, or `NoKey` if there is no such key.
    fn key_revoke(&mut self, key: &str) -> Result<RegistryReply, StoreFault>
        ensures does { Does (shown self.old) (shown self.new) result (λ w. key_revoked w key.now)
            (λ w. after_key_revoke w key.now (key_revoked w key.now)) };

    /// Takes all keys of a shelf away in one change. Returns `Done`, also if the shelf has no key, or `NoTeam` if there
    /// is no such shelf.
    fn keys_revoke(&mut self, shelf: &str) -> Result<RegistryReply, StoreFault>
        ensures does { Does (shown self.old) (shown self.new) result (λ w. keys_revoked w shelf.now)
            (λ w. after_keys_revoke w shelf.now (keys_revoked w shelf.now)) };

    // Each world that a store stands for is well formed.
    ghost sound: { (s : Self) (w : World) → (shown s).stands w → IsWorld w };

    // Where a crash leaves only this world, it leaves this world or any other, which says less.
    ghost wider: { (s : Self) (w x : World) → (shown s).leaves w w → (shown s).leaves w x };
}
