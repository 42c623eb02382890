//! Chains of stages: each fault on both sides of its limit, and the numbers of a chain.
ghost use Rattle.std.specs.Prelude.{◌≡◌, length};

use crate::rows::assert_no_row;
use mf_shape::{Shape, ShapeFault, Stage};
use std::alloc::{AllocError, Global};
use std::test::Fail;

macro_rules! stage {
    ($width:literal, $parities:literal, $copies:literal) => {
        Stage {
            width: $width,
            parities: $parities,
            copies: $copies,
        }
    };
}

const NARROW: Stage = stage!(1, 1, 0);

// Stages, servers, and the fault.
static CASES: [(&[Stage], u32, Option<ShapeFault>); 31] = [
    (&[], 6, Some(ShapeFault::NoStage)),
    (&[NARROW], 6, None),
    (
        &[NARROW, NARROW, NARROW, NARROW, stage!(0, 0, 9)],
        6,
        Some(ShapeFault::TooManyStages),
    ),
    (&[NARROW, NARROW, NARROW, NARROW], 6, None),
    (&[stage!(0, 1, 0)], 6, Some(ShapeFault::Width(0))),
    (&[NARROW, stage!(65, 0, 0)], 6, Some(ShapeFault::Width(1))),
    (&[stage!(64, 4, 0)], 68, None),
    (&[stage!(2, 0, 0)], 6, Some(ShapeFault::Parities(0))),
    (&[stage!(2, 5, 0)], 7, Some(ShapeFault::Parities(0))),
    (&[stage!(2, 4, 0)], 6, None),
    (
        &[stage!(2, 1, 3), stage!(8, 1, 0)],
        9,
        Some(ShapeFault::Copies(0)),
    ),
    (&[stage!(2, 1, 2), stage!(6, 1, 0)], 7, None),
    (
        &[stage!(2, 1, 0), stage!(3, 2, 1)],
        6,
        Some(ShapeFault::NotMultiple(1)),
    ),
    (
        &[stage!(2, 1, 0), stage!(4, 2, 1)],
        6,
        Some(ShapeFault::ParitiesGrow(1)),
    ),
    (
        &[stage!(2, 1, 0), stage!(4, 1, 1)],
        6,
        Some(ShapeFault::CopiesGrow(1)),
    ),
    (&[stage!(2, 1, 0), stage!(4, 1, 0)], 5, None),
    (
        &[stage!(1, 2, 0), stage!(2, 2, 0)],
        6,
        Some(ShapeFault::ParitiesOverWidth(1)),
    ),
    (&[stage!(1, 2, 0), stage!(2, 1, 0)], 6, None),
    (&[stage!(1, 2, 0), stage!(1, 2, 0)], 6, None),
    (
        &[stage!(2, 2, 1), stage!(2, 2, 0)],
        6,
        Some(ShapeFault::CopiesDontFit),
    ),
    (
        &[stage!(2, 2, 1), stage!(2, 2, 0), stage!(4, 2, 0)],
        6,
        None,
    ),
    (
        &[stage!(2, 2, 1), stage!(4, 2, 0)],
        5,
        Some(ShapeFault::Servers(6)),
    ),
    (&[stage!(2, 2, 1), stage!(4, 2, 0)], 6, None),
    (&[stage!(2, 2, 1), stage!(4, 2, 0)], 128, None),
    (
        &[stage!(2, 2, 1), stage!(4, 2, 0)],
        129,
        Some(ShapeFault::Servers(6)),
    ),
    (&[stage!(21, 4, 0)], 25, None),
    // Kind by kind: the width of stage 1 comes before the parities of stage 0.
    (
        &[stage!(2, 0, 0), stage!(65, 1, 0)],
        6,
        Some(ShapeFault::Width(1)),
    ),
    (
        &[stage!(2, 1, 0), stage!(4, 2, 0), stage!(7, 1, 0)],
        9,
        Some(ShapeFault::NotMultiple(2)),
    ),
    // Within a kind the least stage.
    (
        &[stage!(2, 1, 0), stage!(3, 1, 0), stage!(4, 1, 0)],
        6,
        Some(ShapeFault::NotMultiple(1)),
    ),
    (
        &[stage!(2, 5, 0), stage!(4, 0, 0)],
        6,
        Some(ShapeFault::Parities(0)),
    ),
    // Room for copies comes before the servers.
    (
        &[stage!(2, 2, 1), stage!(2, 2, 0)],
        1,
        Some(ShapeFault::CopiesDontFit),
    ),
];

// A fault by its kind and its number.
fn told(fault: Option<&ShapeFault>) -> (&'static str, u32) {
    match fault {
        None => ("none", 0),
        Some(ShapeFault::NoStage) => ("no stage", 0),
        Some(ShapeFault::TooManyStages) => ("too many stages", 0),
        Some(ShapeFault::Width(g)) => ("width", *g),
        Some(ShapeFault::Parities(g)) => ("parities", *g),
        Some(ShapeFault::Copies(g)) => ("copies", *g),
        Some(ShapeFault::NotMultiple(g)) => ("not multiple", *g),
        Some(ShapeFault::ParitiesGrow(g)) => ("parities grow", *g),
        Some(ShapeFault::CopiesGrow(g)) => ("copies grow", *g),
        Some(ShapeFault::ParitiesOverWidth(g)) => ("parities over width", *g),
        Some(ShapeFault::CopiesDontFit) => ("copies don't fit", 0),
        Some(ShapeFault::Servers(count)) => ("servers", *count),
        Some(ShapeFault::Memory) => ("memory", 0),
    }
}

fn first_other_fault(alloc: Global) -> Option<usize> {
    for (row, (stages, servers, want)) in CASES.iter().enumerate() {
        let fault = Shape::new(alloc, stages, *servers).err();
        if told(fault.as_ref()) != told(want.as_ref()) {
            return Some(row);
        }
    }
    None
}

const CHAIN: [Stage; 3] = [stage!(6, 3, 1), stage!(6, 3, 0), stage!(12, 3, 0)];

// Of each stage of the chain the tolerance, and of each but the last the factor.
static TOLERANCES: [u32; 3] = [4, 3, 3];

static FACTORS: [u32; 2] = [1, 2];

fn has_numbers(shape: &Shape) -> bool
    requires { length shape.now.stages ≡ 3 }
{
    let tolerances = [shape.tolerance(0), shape.tolerance(1), shape.tolerance(2)];
    let factors = [shape.factor(0), shape.factor(1)];
    shape.servers() == 16 && tolerances == TOLERANCES && factors == FACTORS
}

// Whether a shape has these stages.
fn has_stages(shape: &Shape, wanted: &[Stage]) -> bool {
    let stages = shape.stages();
    for (stage, other) in stages.iter().zip(wanted) {
        let (width, parities, copies) = (stage.width, stage.parities, stage.copies);
        if (width, parities, copies) != (other.width, other.parities, other.copies) {
            return false;
        }
    }
    stages.len() == wanted.len()
}

fn is_chain(alloc: Global) -> Result<bool, AllocError> {
    let Ok(shape) = Shape::new(alloc, &CHAIN, 16) else {
        return Ok(false);
    };
    let copy = shape.clone()?;
    Ok(has_numbers(&shape) && has_stages(&shape, &CHAIN) && has_stages(&copy, &CHAIN))
}

#[test]
fn each_fault_on_both_sides_of_its_limit(rt: HostRuntime) -> Result<(), Fail> {
    assert_no_row(&rt, first_other_fault(rt.alloc()));
    assert!(rt; is_chain(rt.alloc())?);
    Ok(())
}
