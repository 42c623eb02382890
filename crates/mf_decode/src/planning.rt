//! Plans: which data of a stripe is erased, which parities are had in its stead, and the inverse
//! that leads back.
ghost use Rattle.std.specs.Prelude.{◌≡◌, ℕ, ◌<◌, ◌≤◌, length, map, slice_index};
ghost use Rattle.std.specs.Prelude.{OnOk, IfOk, IfErr};
ghost use Rattle.mf_matrix.specs.Tables.{HasInverse};
ghost use Rattle.mf_erasure.specs.Erasure.{entry, IsErasure};
ghost use Rattle.mf_decode.specs.Plans.{IsNoPlan, no_plan_of};

use mf_erasure::erasure_matrix;
use mf_kernel::Memory;
use mf_matrix::{KernelList, Matrix, NoInverse, invert};
use std::alloc::{AllocError, Global};
use std::marker::Model;

/// How the erased data of a stripe is had again: a plan serves each stripe of its width that has
/// lost the same data and has the same parities.
#[derive(Drop)]
pub struct DecodePlan {
    pub(crate) points: Vec<u8>,
    pub(crate) width: u32,
    pub(crate) erased: Vec<u32>,
    pub(crate) parities: Vec<u32>,
    // The points of the parities, and the inverse of the erasure's matrix.
    pub(crate) chosen: Vec<u8>,
    pub(crate) inverse: Matrix,
}

impl Model for DecodePlan {
    ghost use Rattle.mf_decode.specs.Decoding.{Plan};
    ghost use Rattle.mf_decode.specs.Plans.{IsPlan};

    ghost Value = { Plan };

    ghost view = { λ p. record {
      points = p.points.items;
      width = p.width;
      erased = p.erased.items;
      parities = p.parities.items;
    } };

    ghost invariant = { λ p. IsPlan (record {
      points = p.points.items;
      width = p.width;
      erased = p.erased.items;
      parities = p.parities.items;
    }) p.chosen.items p.inverse };
}

impl DecodePlan {
    ghost use Rattle.std.specs.Bool.{OnTrue};

    // Whether it is the plan of a stripe of this width and these points, with these places erased
    // and these parities in their stead.
    pub(crate) fn is_of(&self, points: &[u8], width: u32, erased: &[u32], parities: &[u32]) -> bool
        ensures { OnTrue result (self.now
            ≡ record {
              points = points.now;
              width = width;
              erased = erased.now;
              parities = parities.now;
            }) }
    {
        self.points.as_slice() == points
            && self.width == width
            && self.erased.as_slice() == erased
            && self.parities.as_slice() == parities
    }
}

/// Why there is no plan.
#[derive(Drop)]
pub enum NoPlan {
    /// The matrix has no inverse, and this is its kernel list.
    Kernel(KernelList),
    /// Memory ran out.
    Memory,
}

impl From<AllocError> for NoPlan {
    ghost use Rattle.mf_decode.specs.declared.planning.NoPlan.TheVariants as no_plan;

    ghost from_gives = { λ _ reason. reason ≡ no_plan.Memory };

    fn from(_error: AllocError) -> NoPlan {
        NoPlan::Memory
    }
}

impl From<NoInverse> for NoPlan {
    ghost from_gives = { λ reason same. same ≡ no_plan_of reason };

    fn from(reason: NoInverse) -> NoPlan {
        match reason {
            NoInverse::Kernel(kernel) => NoPlan::Kernel(kernel),
            NoInverse::Memory => NoPlan::Memory,
        }
    }
}

/// The plan by which the data at the erased places of a stripe of this width is had again from
/// these parities and the other data. It has none exactly where the matrix of the parities' points
/// has no inverse, or memory ran out.
pub fn plan(
    alloc: Global,
    points: &[u8],
    width: u32,
    erased: &[u32],
    parities: &[u32],
) -> Result<DecodePlan, NoPlan>
    requires width { (1 ≤ width) × (width ≤ 64) }
    requires points { length points.now ≤ 4 }
    requires erasure { IsErasure width (length points.now) erased.now parities.now }
    ensures plan { IfOk result
        (λ plan. plan
        ≡ record {
          points = points.now;
          width = width;
          erased = erased.now;
          parities = parities.now;
        }) }
    ensures solvable { OnOk result (HasInverse (length erased.now)
        (entry points.now erased.now parities.now)) }
    ensures kernel { IfErr result (IsNoPlan (length erased.now)
        (entry points.now erased.now parities.now)) }
{
    let matrix = erasure_matrix(points, erased, parities);
    let inverse = invert(alloc, &matrix)?;
    Ok(DecodePlan {
        points: Vec::from_slice(alloc, points)?,
        width,
        erased: Vec::from_slice(alloc, erased)?,
        parities: Vec::from_slice(alloc, parities)?,
        chosen: chosen_of(alloc, points, parities)?,
        inverse,
    })
}

// The points of these parities.
fn chosen_of(alloc: Global, points: &[u8], parities: &[u32]) -> Result<Vec<u8>, Memory>
    requires { (j : ℕ) → j < length parities.now → slice_index parities.now j < length points.now }
    ensures { IfOk result (λ chosen. chosen.items ≡ map
        (λ p. slice_index points.now p) parities.now) }
{
    let mut chosen = Vec::with_capacity(alloc, parities.len())?;
    for p in parities {
        chosen.push(points[*p as usize])?;
    }
    Ok(chosen)
}
