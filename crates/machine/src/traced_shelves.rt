//! A store that keeps account of what it is asked.

use crate::noted::Noted;
use modpath::ModulePath;
use modver::Version;
use world::entry::{EntryRef, Heading, Holder, Seen};
use world::registry::StoreFault;
use world::standing::Standing;
use world::text_set::TextSet;
use world::version_list::Versions;

/// What a store can be asked for a request.
#[derive(Clone, Copy, Drop)]
pub enum Method {
    Key,
    Entry,
    Heading,
    Compare,
    Versions,
    Latest,
    Paths,
    Count,
    Insert,
}

/// Which call was made, and the fault that it met.
#[derive(Clone, Copy, Drop)]
pub struct Outcome {
    pub method: Method,
    pub fault: Option<StoreFault>,
}

/// What the machine may ask of a store for a request, with an account of all that was asked. The contract of a call is
/// that of `world::shelves::Shelves`, and that the call is noted. Code over this trait has no other way to the store.
pub trait TracedShelves {
    ghost use Rattle.std.specs.Prelude.{◌≡◌};
    ghost use Rattle.std.specs.FinMap as map;
    ghost use Rattle.modver.specs.SemanticVersion.{version_text};
    ghost use Rattle.world.specs.World.{World, IsWorld, place, view, heading, count, with_entry};
    ghost use Rattle.world.specs.Standing.{standing};
    ghost use Rattle.world.specs.Latest.{latest_of};
    ghost use Rattle.world.specs.Versions.{versions_of};
    ghost use Rattle.world.specs.Visible.{paths_seen};
    ghost use Rattle.world.specs.Store.{Shown, DoesWhere, Reads, IsRoomFor};
    ghost use Rattle.machine.specs.Calls.{History, noted, fault_of};
    ghost use Rattle.machine.specs.Calls.{of_key, entry_of, heading_of, comparison, versions_at};
    ghost use Rattle.machine.specs.Calls.{latest_at, paths_on, count_of, insertion};

    /// What is known of the store.
    ghost shown: { Self → Shown };

    /// What it was asked so far.
    ghost history: { Self → History };

    /// Returns what the key holds, or None if there is no such key.
    fn key(&mut self, key: &str) -> Result<Option<Holder>, StoreFault>
        ensures reads { Reads (shown self.old) (shown self.new) result (λ w. map.get w.keys key.now) }
        ensures asks { history self.new ≡ noted (history self.old) (of_key key.now) (fault_of result) };

    /// Returns the entry of the version that the shelf sees, with the shelf that it stands on, or None if the shelf
    /// sees none.
    fn entry(
        &mut self,
        shelf: &str,
        path: &ModulePath,
        version: &Version,
    ) -> Result<Option<Seen>, StoreFault>
        ensures reads { Reads (shown self.old) (shown self.new) result
            (λ w. view w shelf.now path.now (version_text version.now)) }
        ensures asks { history self.new
            ≡ noted (history self.old) (entry_of shelf.now path.now version.now) (fault_of result) };

    /// Returns what the shelf sees of the version without its zip, or None if the shelf sees no entry.
    fn heading(
        &mut self,
        shelf: &str,
        path: &ModulePath,
        version: &Version,
    ) -> Result<Option<Heading>, StoreFault>
        ensures reads { Reads (shown self.old) (shown self.new) result
            (λ w. heading w shelf.now path.now (version_text version.now)) }
        ensures asks { history self.new
            ≡ noted (history self.old) (heading_of shelf.now path.now version.now) (fault_of result) };

    /// Returns how an entry that is handed in compares with what the shelf sees of the version.
    fn compare(
        &mut self,
        shelf: &str,
        path: &ModulePath,
        version: &Version,
        entry: &EntryRef,
    ) -> Result<Standing, StoreFault>
        ensures reads { Reads (shown self.old) (shown self.new) result
            (λ w. standing w shelf.now path.now (version_text version.now) entry.now) }
        ensures asks { history self.new
            ≡ noted (history self.old) (comparison shelf.now path.now version.now) (fault_of result) };

    /// Returns the versions of the path that the shelf sees, each once, in ascending precedence. (SemVer 2.0.0, section
    /// 11.)
    fn versions(&mut self, shelf: &str, path: &ModulePath) -> Result<Versions, StoreFault>
        ensures reads { Reads (shown self.old) (shown self.new) result (λ w. versions_of w shelf.now path.now) }
        ensures asks { history self.new ≡ noted (history self.old) (versions_at shelf.now path.now) (fault_of result) };

    /// Returns the latest version of the path, or None if there is none.
    fn latest(&mut self, shelf: &str, path: &ModulePath) -> Result<Option<Version>, StoreFault>
        ensures reads { Reads (shown self.old) (shown self.new) result (λ w. latest_of w shelf.now path.now) }
        ensures asks { history self.new ≡ noted (history self.old) (latest_at shelf.now path.now) (fault_of result) };

    /// Returns the paths that the shelf sees.
    fn paths(&mut self, shelf: &str) -> Result<TextSet, StoreFault>
        ensures reads { Reads (shown self.old) (shown self.new) result (λ w. paths_seen w shelf.now) }
        ensures asks { history self.new ≡ noted (history self.old) (paths_on shelf.now) (fault_of result) };

    /// Returns how many versions of the path stand on the shelf.
    fn count(&mut self, shelf: &str, path: &ModulePath) -> Result<u64, StoreFault>
        ensures reads { Reads (shown self.old) (shown self.new) result (λ w. count w shelf.now path.now) }
        ensures asks { history self.new ≡ noted (history self.old) (count_of shelf.now path.now) (fault_of result) };

    /// Stores an entry at its place. The contract speaks only of worlds with room for it.
    fn insert(
        &mut self,
        shelf: &str,
        path: &ModulePath,
        version: &Version,
        entry: &EntryRef,
    ) -> Result<(), StoreFault>
        ensures does { DoesWhere (λ w. IsRoomFor w (place shelf.now path.now (version_text version.now)) entry.now)
            (shown self.old) (shown self.new) result (λ _. tt)
            (λ w. with_entry w (place shelf.now path.now (version_text version.now)) entry.now) }
        ensures asks { history self.new
            ≡ noted (history self.old) (insertion shelf.now path.now version.now) (fault_of result) };

    // Each world that a store stands for is well formed.
    ghost sound: { (s : Self) (w : World) → (shown s).stands w → IsWorld w };

    // Where a crash leaves only this world, it leaves this world or any other, which says less.
    ghost wider: { (s : Self) (w x : World) → (shown s).leaves w w → (shown s).leaves w x };
}
