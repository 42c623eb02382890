//! Families of codes: a chain of stages over one list of points, at each stage of which every set
//! of as many places as there are parities is decodable.
//!
//! A family has as many points as its first stage has parities, 1 to 4, none 0 and no two equal.
//!
//! `FamilyFault` is the number of points that isn't right, the first point that is 0, the first
//! pair that is equal, or the first set of places that isn't decodable, of the least such stage,
//! with a list of data that gives zero in every parity that is left.
//!
//! ```text
//! let family = check(alloc, &shape, &[1, 2, 4, 8])?;
//! // width 21 with four parities is a family;
//! // with width 22 the places 0, 10, 21 and 24 can't be decoded
//! ```
//!
//! *Proved.* `check` answers each fault exactly, a fault of points alone wherever there is one, the
//! undecodable set the first of the least stage, with its kernel; a `Family` is decodable at every
//! stage, said by codewords that agree outside the lost places.
//!
//! *Neither.* How long the check takes.
#![tactic(auto)]

ghost use Rattle.std.specs.Prelude.{◌≡◌, Err, IfOk, IfErr};
ghost use Rattle.mf_shape.specs.Stages.{parities_at};
ghost use Rattle.mf_check.specs.Families.{IsCode};
ghost use Rattle.mf_check.specs.Faults.{IsFault, IsPointFault};

mod points;
mod search;
mod sets;
mod texts;

use mf_matrix::KernelList;
use mf_shape::Shape;
use points::point_fault;
use search::first_undecodable;
use std::alloc::{AllocError, Global};
use std::clone::Clone;
use std::marker::Model;

/// A set of places in ascending order: data places below the width, and the place width + p for
/// parity p.
#[derive(Drop)]
pub struct Places {
    items: Vec<u32>,
}

impl Model for Places {
    ghost use Rattle.std.specs.Prelude.{List, ℕ};

    ghost Value = { List ℕ };

    ghost view = { λ places. places.items.items };
}

impl Places {
    /// The places, in ascending order.
    pub fn as_slice(&self) -> &[u32]
        ensures { result.now ≡ self.now }
    {
        self.items.as_slice()
    }
}

/// Why a shape and points are no family.
#[derive(Drop)]
pub enum FamilyFault {
    /// There are this many points, and not as many as stage 0 has parities.
    PointCount(u32),
    /// The point of this number is 0, and none before it is.
    PointZero(u32),
    /// The points of these two numbers are equal. It is the first such pair.
    PointTwice(u32, u32),
    /// This is the least stage with a set of places that isn't decodable, its first such set, and
    /// the kernel list of that set: one entry for each data place, and zero in every surviving
    /// parity.
    Undecodable {
        stage: u32,
        places: Places,
        kernel: KernelList,
    },
    /// Memory ran out.
    Memory,
}

/// A shape and points at which every stage is decodable.
#[derive(Drop)]
pub struct Family {
    shape: Shape,
    points: Vec<u8>,
}

impl Model for Family {
    ghost use Rattle.mf_check.specs.Families.{Code, IsCode};

    ghost Value = { Code };

    ghost view = { λ family. record { shape = family.shape; points = family.points.items } };

    ghost invariant = { λ family.
        IsCode (record { shape = family.shape; points = family.points.items }) };
}

impl Family {
    /// The shape.
    pub fn shape(&self) -> &Shape
        ensures value { result.now ≡ self.now.shape }
        ensures kept { IsCode self.now }
    {
        &self.shape
    }

    /// The points, one for each parity of stage 0.
    pub fn points(&self) -> &[u8]
        ensures value { result.now ≡ self.now.points }
        ensures kept { IsCode self.now }
    {
        self.points.as_slice()
    }
}

impl From<AllocError> for FamilyFault {
    ghost use Rattle.mf_check.specs.declared.FamilyFault.TheVariants.{Memory};

    ghost from_gives = { λ _ fault. fault ≡ Memory };

    fn from(_error: AllocError) -> FamilyFault {
        FamilyFault::Memory
    }
}

/// The family of this shape and these points, or the first fault.
///
/// The points are looked at first: their number, then zeros, then equal pairs. Then stage after
/// stage each set of places is tried, in their order. Memory may run out at any point.
pub fn check(alloc: Global, shape: &Shape, points: &[u8]) -> Result<Family, FamilyFault>
    ensures family { IfOk result (λ family.
        (family ≡ record { shape = shape.now; points = points.now }) × IsCode family) }
    ensures fault { IfErr result (IsFault shape.now.stages points.now) }

    // The fault of points alone is what is answered, wherever there is one.
    ensures exactly { (fault : FamilyFault)
        → IsPointFault (parities_at shape.now.stages 0) points.now fault → result ≡ Err fault }
{
    let stages = shape.stages();
    if let Some(fault) = point_fault(points, stages[0].parities) {
        return Err(fault);
    }
    for g in 0..stages.len() {
        let stage = stages[g];
        let own = &points[..stage.parities as usize];
        if let Some((items, kernel)) = first_undecodable(alloc, own, stage.width)? {
            return Err(FamilyFault::Undecodable {
                stage: g as u32,
                places: Places { items },
                kernel,
            });
        }
    }
    Ok(Family {
        shape: shape.clone()?,
        points: Vec::from_slice(alloc, points)?,
    })
}
