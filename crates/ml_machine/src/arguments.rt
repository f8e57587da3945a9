//! The arguments of calls: saved for the clauses that are left, and loaded again.
ghost use Rattle.std.specs.Prelude.{◌≡◌, ◌+◌, ◌++◌, ◌≤◌, drop, length, take, IfOk, OnErr, OnOk};

use ml_heap::Ref;
use std::alloc::AllocError;

/// Saves cells behind those that are saved, and gives the place of the first. After a refusal the
/// same are saved as before.
pub(crate) fn save_cells(saved: &mut Vec<Ref>, cells: &[Ref]) -> Result<usize, AllocError>
    ensures place { IfOk result (λ place. place ≡ length saved.old.items) }
    ensures saved { OnOk result (saved.new.items ≡ saved.old.items ++ cells.now) }
    ensures stays { OnErr result (saved.new.items ≡ saved.old.items) }
{
    let place = saved.len();
    saved.extend_from_slice(cells)?;
    Ok(place)
}

/// Loads so many cells that are saved from a place on.
pub(crate) fn load_cells(
    saved: &[Ref],
    place: usize,
    count: usize,
    cells: &mut Vec<Ref>,
) -> Result<(), AllocError>
    requires { length (take count (drop place saved.now)) ≡ count }
    ensures { OnOk result (cells.new.items ≡ take count (drop place saved.now)) }
{
    cells.truncate(0);
    if count == 0 {
        return Ok(());
    }
    cells.extend_from_slice(&saved[place..place + count])?;
    Ok(())
}
