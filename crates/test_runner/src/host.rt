//! A system whose stores are in memory.
use commands::action::{Action, acceptance};
use commands::refusal::CommandRefusal;
use commands::registry::register;
use commands::report::print_inventory;
use file_action::host::ActionHost;
use histories::{Hear, Tell};
use memory_store::map_shelves::MapShelves;
use network::servers::Servers;
use runner::file_checks::FileChecks;
use runner::host::Host;
use runner::older_files::OlderFiles;
use std::alloc::Global;
use std::rt::HostRuntime;
use store_files::files::StoreFiles;
use store_files::refusal::StoreRefusal;
use world::entry::Right;
use world::shelves::Shelves;

/// A system that carries out registry commands, prints inventories, and neither extracts nor migrates.
#[derive(Drop)]
pub struct MemoryHost<'a> {
    pub rt: &'a HostRuntime,
}

impl<'a> FileChecks for MemoryHost<'a> {
    ghost free = { λ _ _ _. Unit {0} };

    ghost apart = { λ _ _ _. Unit {0} };

    ghost lone_log = { λ _ _ _. Unit {0} };

    ghost synced = { λ _ _ _. Unit {0} };

    fn is_empty(&self, _name: &str) -> bool {
        false
    }

    fn is_missing_or_empty(&self, _name: &str) -> bool {
        false
    }

    fn is_same(&self, name: &str, other: &str) -> bool {
        name == other
    }

    fn check_name(&self, _db: &str, _to: &str) -> Result<(), StoreRefusal> {
        Ok(())
    }

    fn has_lone_log(&self, _name: &str) -> bool {
        false
    }

    fn sync_log(&self, _path: &str) -> bool {
        true
    }
}

impl<'a> ActionHost<MapShelves, ()> for MemoryHost<'a> {
    // the tests look at results alone
    ghost acts = { λ _ _ _ _ _. Unit {0} };

    ghost causes = { λ _ _ _ _ _ _. Unit {0} };

    fn act<I: Hear, O: Tell>(
        &mut self,
        _name: &str,
        shelves: &mut MapShelves,
        _outside: &mut (),
        action: &Action,
        _input: &mut I,
        output: &mut O,
    ) -> Result<bool, CommandRefusal> {
        match action {
            Action::Register { command } => acceptance(register(shelves, command)),
            Action::Inventory { key } => print_inventory(self.rt.alloc(), shelves, key, output),
            _ => Ok(true),
        }
    }
}

impl<'a> Host<MapShelves, MapShelves> for MemoryHost<'a> {
    ghost use Rattle.test_runner.specs.Tables.{no_tables};

    ghost shown = { ⟦<MapShelves as Shelves>⟧.shown };

    ghost state_of = { λ _. no_tables };

    fn alloc(&self) -> Global {
        self.rt.alloc()
    }

    fn extract<F, G>(
        &mut self,
        _files: &mut F,
        _targets: &mut G,
        _db: &str,
        _teams: &[&str],
        _to: &str,
    ) -> Result<(), CommandRefusal>
    where
        F: StoreFiles<MapShelves, MapShelves>,
        G: StoreFiles<MapShelves, MapShelves>,
    {
        Err(CommandRefusal::NotEmpty)
    }

    fn migrate<Q, G>(
        &mut self,
        _older: &mut Q,
        _targets: &mut G,
        _from: &str,
        _to: &str,
    ) -> Result<(), CommandRefusal>
    where
        Q: OlderFiles<MapShelves>,
        G: StoreFiles<MapShelves, MapShelves>,
    {
        Err(CommandRefusal::Device)
    }

    fn order_new<R: Hear, U: Tell, V: Servers<R, U>, O: Tell>(
        &mut self,
        _servers: &mut V,
        _control: &str,
        _shelf: &str,
        _right: Right,
        _output: &mut O,
    ) -> Result<(), CommandRefusal> {
        Err(CommandRefusal::Io)
    }
}
