//! The outcome of a registry command, and why a store fails.
ghost use Rattle.std.specs.Prelude.{◌≡◌};
ghost use Rattle.world.specs.declared.registry.StoreFault.TheVariants.{Memory};

use std::alloc::AllocError;

/// The outcome of a command of the registry.
#[derive(Clone, Copy, Debug, PartialEq, Eq)]
pub enum RegistryReply {
    Done,
    /// The name or the key is malformed.
    Name,
    /// The name or the key exists already.
    Taken,
    /// No shelf has the name.
    NoTeam,
    /// The key does not exist.
    NoKey,
    /// The group does not exist.
    NoGroup,
}

/// Why a store could not do what was asked. Its world is unchanged.
#[derive(Clone, Copy, Debug, PartialEq, Eq)]
pub enum StoreFault {
    /// A device failed.
    Device,
    /// Memory ran out.
    Memory,
}

impl From<AllocError> for StoreFault {
    ghost from_gives = { λ _ fault. fault ≡ Memory };

    fn from(_error: AllocError) -> StoreFault {
        StoreFault::Memory
    }
}
