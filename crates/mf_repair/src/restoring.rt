//! Restoring the lost names of a stripe.
ghost use Rattle.std.specs.Prelude.{◌≡◌, ◌≤◌, All, length, map};
ghost use Rattle.mf_read.specs.Stripes.{chunks_of_stripe};
ghost use Rattle.mf_vault.specs.Conditions.{IsOfFamily};
ghost use Rattle.mf_vault.specs.Facts.{cell_of};
ghost use Rattle.mf_vault.specs.Licence.{Does};
ghost use Rattle.mf_repair.specs.Repair.{restores};
ghost use Rattle.mf_repair.specs.Mending.{IsMender, HasStripe, Stays, AreApart, IsLostOf};
ghost use Rattle.mf_repair.specs.Mending.{RestoresSome};

use crate::cells::cells_of;
use mf_check::Family;
use mf_vault::{Chunk, Fetch, Memory, Name};
use std::alloc::Global;

// Restores each of these names, in order.
fn restore_all<A: Fetch>(access: &mut A, g: u32, j: u32, lost: &[Name], cells: Vec<Chunk>)
    requires mender { IsMender g (A.actor access.old) }
    requires apart { AreApart (A.actor access.old).facts.book lost.now }
    requires lost { All (IsLostOf g j (A.actor access.old)) lost.now }
    requires cells { cells.items ≡ map (cell_of (A.actor access.old).facts) lost.now }
    requires room { length lost.now ≤ A.spare access.old }
    ensures does { Does (restores lost.now) (A.actor access.old) (A.actor access.new) }
    ensures stays { Stays (A.actor access.old) (A.actor access.new) }
{
    let _ = (g, j);
    let mut i = 0;
    for cell in cells {
        access.restore(lost[i], cell);
        i += 1;
    }
}

// Makes the lost names of stripe j of generation g from the stripe's chunks, and restores them. The
// only error is want of memory, and then none was restored.
pub(crate) fn restore_stripe<A: Fetch>(
    alloc: Global,
    access: &mut A,
    family: &Family,
    g: u32,
    j: u32,
    lost: &[Name],
    chunks: &[Chunk],
) -> Result<(), Memory>
    requires mender { IsMender g (A.actor access.old) }
    requires stripe { HasStripe g j (A.actor access.old).facts.book }
    requires family { IsOfFamily family.now.shape family.now.points
        (A.actor access.old).facts.book }
    requires apart { AreApart (A.actor access.old).facts.book lost.now }
    requires lost { All (IsLostOf g j (A.actor access.old)) lost.now }
    requires chunks { chunks.now ≡ chunks_of_stripe (A.actor access.old).facts g j }
    ensures restores { RestoresSome result lost.now (A.actor access.old) (A.actor access.new) }
    ensures stays { Stays (A.actor access.old) (A.actor access.new) }
{
    let cells = cells_of(alloc, access.book(), family, g, j, lost, chunks)?;
    access.reserve(lost.len())?;
    restore_all(access, g, j, lost, cells);
    Ok(())
}
