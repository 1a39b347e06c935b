//! How often each shelf was published to and fetched from.
ghost use Rattle.std.specs.Prelude.{◌≡◌, ◌++◌, OnErr, OnOk, option_copied, string_bytes};
ghost use Rattle.std.specs.FinMap as map;
ghost use Rattle.control.specs.Traffic as spec;
ghost use Rattle.control.specs.Traffic.{CountsOne, StaysUncounted};

use std::alloc::{AllocError, Global};
use world::names::{COMMON, is_team_name};
use world::text_map::TextMap;

/// How often a shelf was published to, and how often its keys fetched a zip.
#[derive(Clone, Copy, Drop)]
pub struct ShelfTraffic {
    pub publishes: u64,
    pub fetches: u64,
}

/// What is counted for a shelf.
#[derive(Clone, Copy, Debug, Drop, PartialEq, Eq)]
pub enum Transfer {
    /// A version was published to it.
    Publish,
    /// A key of it fetched a zip.
    Fetch,
}

impl ShelfTraffic {
    /// Returns the counts of a shelf that has none.
    fn none() -> ShelfTraffic
        ensures { result ≡ spec.none }
    {
        ShelfTraffic {
            publishes: 0,
            fetches: 0,
        }
    }

    /// Returns the counts with one transfer more. A count of 2^64 - 1 stays.
    fn with_one(self, transfer: Transfer) -> ShelfTraffic
        ensures { result ≡ spec.with_one transfer self }
    {
        match transfer {
            Transfer::Publish => ShelfTraffic {
                publishes: self.publishes.saturating_add(1),
                fetches: self.fetches,
            },
            Transfer::Fetch => ShelfTraffic {
                publishes: self.publishes,
                fetches: self.fetches.saturating_add(1),
            },
        }
    }
}

/// The counts of each shelf that was published to or fetched from.
#[derive(Drop)]
pub struct Traffic {
    shelves: TextMap<ShelfTraffic>,
}

impl Traffic {
    /// Returns the counts of a server that begins: none.
    pub fn new(alloc: Global) -> Traffic
        ensures { result.shelves ≡ map.empty }
    {
        Traffic {
            shelves: TextMap::new(alloc),
        }
    }

    /// Counts one transfer of a shelf. Fails only if the shelf has no counts and memory runs out for them; the shelf
    /// then stays without.
    pub(crate) fn count(
        &mut self,
        alloc: Global,
        shelf: &str,
        transfer: Transfer,
    ) -> Result<(), AllocError>
        ensures counted { OnOk result (CountsOne transfer shelf.now self.old self.new) }
        ensures uncounted { OnErr result (StaysUncounted shelf.now self.old self.new) }
    {
        if let Some(counts) = self.shelves.get_mut(shelf) {
            *counts = counts.with_one(transfer);
            return Ok(());
        }
        let shelf = String::from_str(alloc, shelf)?;
        self.shelves
            .insert(shelf, ShelfTraffic::none().with_one(transfer))
    }

    /// Returns how many shelves have counts.
    pub(crate) fn len(&self) -> usize
        ensures { result ≡ map.len self.now.shelves }
    {
        self.shelves.len()
    }

    /// Adds the line of each shelf that has counts, in byte order. Fails only if memory runs out.
    pub(crate) fn add_lines(&self, alloc: Global, text: &mut String) -> Result<(), AllocError>
        ensures { OnOk result (string_bytes text.new ≡ string_bytes text.old ++ spec.lines_of self.now) }
    {
        for shelf in self.shelves.keys() {
            let counts = self.shelves.get(shelf.as_str());
            add_line(alloc, text, shelf.as_str(), counts)?;
        }
        Ok(())
    }
}

/// Adds the line of a shelf with these counts, if there are some. Fails only if memory runs out.
fn add_line(
    alloc: Global,
    text: &mut String,
    shelf: &str,
    counts: Option<&ShelfTraffic>,
) -> Result<(), AllocError>
    ensures { OnOk result (string_bytes text.new
        ≡ string_bytes text.old ++ spec.shelf_line shelf.now (option_copied counts.entry)) }
{
    let Some(counts) = counts else {
        return Ok(());
    };
    let line = format!(in alloc;
        "shelf {} publishes={} fetches={}\n",
        shelf, counts.publishes, counts.fetches,
    )?;
    text.push_str(line.as_str())
}

/// Whether a shelf can have this name.
pub(crate) fn is_shelf_name(name: &str) -> bool
    ensures { result ≡ spec.is_shelf_name name.now }
{
    is_team_name(name) || name == COMMON
}
