//! The map that finds a marker's list, by the number of its incarnation.
ghost use Rattle.std.specs.Prelude.{◌≡◌, ℕ, true, false, None, Some, cond, nat_eq};
ghost use Rattle.std.specs.List.{list_any};
ghost use Rattle.indexmap.specs.IndexMap.{get};

use crate::room::Room;
use indexmap::IndexMap;
use std::alloc::AllocError;

/// Reserves capacity for one more marker, if the capacity is for one. After an error the map is unchanged.
pub(crate) fn reserve_owner(owners: &mut IndexMap<u64, u64>, room: Room) -> Result<(), AllocError>
    ensures { (m : ℕ) → get nat_eq owners.new m ≡ get nat_eq owners.old m }
{
    match room {
        Room::Mark => owners.reserve(1),
        _ => Ok(()),
    }
}

/// Maps a marker to a number and returns whether it did. It did not if the map is not used, has the marker, or has no capacity for
/// it.
pub(crate) fn map_new(
    owners: &mut IndexMap<u64, u64>,
    unmapped: bool,
    marker: u64,
    number: u64,
) -> bool
    ensures used { result ≡ true → unmapped ≡ false }
    ensures absent { result ≡ true → get nat_eq owners.old marker ≡ None }
    ensures mapped { result ≡ true → (m : ℕ) → get nat_eq owners.new m ≡ cond (nat_eq marker m) (Some number) (get nat_eq owners.old m) }
{
    if unmapped {
        return false;
    }
    matches!(owners.insert(marker, number), Ok(None))
}

/// Drops markers from the map.
pub(crate) fn forget(owners: &mut IndexMap<u64, u64>, markers: &[u64])
    ensures { (m : ℕ) → get nat_eq owners.new m ≡ cond (list_any (nat_eq m) markers.now) None (get nat_eq owners.old m) }
{
    for marker in markers {
        owners.swap_remove(marker);
    }
}
