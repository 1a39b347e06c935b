//! What a go.mod says.
ghost use Rattle.std.specs.Prelude.{◌≡◌, IfOk};
ghost use Rattle.world.specs.GoMods.{reading_of};
ghost use Rattle.world.specs.Latest.{module_of};

use crate::entry::Heading;
use gomod::{GoMod, GoModFault};
use std::alloc::{AllocError, Global};

/// The result of reading a go.mod.
#[derive(Drop)]
pub enum Reading {
    /// What the file says.
    Module(GoMod),
    /// The file does not read. The number of the faulty line, or 0 if the fault has none.
    Fault(usize),
}

impl Reading {
    /// Returns what a go.mod says, or the line of its fault. Fails only if memory runs out.
    /// (Go Modules Reference, "go.mod files".)
    pub fn of(alloc: Global, bytes: &[u8]) -> Result<Reading, AllocError>
        ensures { IfOk result (λ r. r ≡ reading_of bytes.now) }
    {
        match GoMod::read(alloc, bytes) {
            Ok(module) => Ok(Reading::Module(module)),
            Err(GoModFault::Memory) => Err(AllocError),
            Err(fault) => Ok(Reading::Fault(fault.line())),
        }
    }
}

/// Returns what the go.mod of a version says, or None if there is no version or its go.mod does not read.
/// Fails only if memory runs out.
pub fn gomod_in(alloc: Global, heading: Option<Heading>) -> Result<Option<GoMod>, AllocError>
    ensures { IfOk result (λ m. m ≡ module_of heading) }
{
    let Some(heading) = heading else {
        return Ok(None);
    };
    match Reading::of(alloc, heading.gomod.as_slice())? {
        Reading::Module(gomod) => Ok(Some(gomod)),
        Reading::Fault(_) => Ok(None),
    }
}
