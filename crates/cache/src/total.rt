//! Counts all versions from call to call.

ghost use Rattle.std.specs.Prelude.{◌≡◌, None};
ghost use Rattle.std.specs.FinMap as map;
ghost use Rattle.world.specs.World.{World, with_entry};
ghost use Rattle.cache.specs.Total.{IsTotal};

/// Returns the number of all versions after one more was stored, or None if it is not kept or cannot grow.
pub fn raised(total: Option<u64>) -> Option<u64>
    ensures { (w : World) (q : _) (e : _) → map.get w.entries q ≡ None
        → IsTotal w total → IsTotal (with_entry w q e) result }
{
    let Some(number) = total else {
        return None;
    };
    match number.checked_add(1) {
        Some(more) => Some(more),
        None => None,
    }
}
