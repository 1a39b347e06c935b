//! A store of which it is known what it stands for.
use world::registry::StoreFault;
use world::shelves::Shelves;

/// A store that tells whether it stands for one world alone.
pub trait Definite: Shelves {
    ghost use Rattle.std.specs.Prelude.{OnOk};
    ghost use Rattle.world.specs.Store.{Reads};
    ghost use Rattle.world.specs.World.{World};
    ghost use Rattle.interleave.specs.Interleave.{StandsForOne};

    /// Returns if the store stands for one world alone. Fails with `Device` otherwise, as after a fault of a device,
    /// and with `Memory` if memory ran out.
    fn settle(&mut self) -> Result<(), StoreFault>
        ensures reads { Reads (Self.shown self.old) (Self.shown self.new) result (λ _. tt) }
        ensures one { (w : World) → (Self.shown self.old).stands w → OnOk result (StandsForOne (Self.shown self.new)) };
}
