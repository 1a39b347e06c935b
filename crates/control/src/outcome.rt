//! The outcomes of what is done for an order.
ghost use Rattle.std.specs.Prelude.{◌≡◌};
ghost use Rattle.control.specs.Outcome as spec;

use crate::copies::{CatalogRefusal, CopyRefusal};
use orders::Outcome;
use world::registry::{RegistryReply, StoreFault};

/// Returns the outcome of a registry command that was carried out.
pub(crate) fn outcome_of(told: Result<RegistryReply, StoreFault>) -> Outcome
    ensures { result ≡ spec.outcome_of told }
{
    match told {
        Ok(registered) => Outcome::RegistryReply(registered),
        Err(fault) => Outcome::Failed(fault),
    }
}

/// Returns the outcome of a copy.
pub(crate) fn outcome_of_copy(told: Result<(), CopyRefusal>) -> Outcome
    ensures { result ≡ spec.outcome_of_copy told }
{
    match told {
        Ok(()) => Outcome::RegistryReply(RegistryReply::Done),
        Err(CopyRefusal::NotEmpty) => Outcome::NotEmpty,
        Err(CopyRefusal::Device) => Outcome::Failed(StoreFault::Device),
        Err(CopyRefusal::Memory) => Outcome::Failed(StoreFault::Memory),
        Err(CopyRefusal::Busy) => Outcome::Busy,
        Err(CopyRefusal::Ended) => Outcome::Ended,
    }
}

/// Returns the outcome of a catalog. If the output failed, nobody reads it.
pub(crate) fn outcome_of_catalog(told: Result<(), CatalogRefusal>) -> Outcome
    ensures { result ≡ spec.outcome_of_catalog told }
{
    match told {
        Ok(()) => Outcome::RegistryReply(RegistryReply::Done),
        Err(CatalogRefusal::NoKey) => Outcome::RegistryReply(RegistryReply::NoKey),
        Err(CatalogRefusal::Device) => Outcome::Failed(StoreFault::Device),
        Err(CatalogRefusal::Memory) => Outcome::Failed(StoreFault::Memory),
        Err(CatalogRefusal::Busy) => Outcome::Busy,
        Err(CatalogRefusal::Ended | CatalogRefusal::Output) => Outcome::Ended,
    }
}
