//! Families and their faults, at the limits too.
use crate::rows::assert_no_row;
use mf_check::{FamilyFault, check};
use mf_shape::{Shape, Stage};
use std::alloc::Global;

macro_rules! stage {
    ($width:literal, $parities:literal, $copies:literal) => {
        Stage {
            width: $width,
            parities: $parities,
            copies: $copies,
        }
    };
}

// What is said of stages and points.
enum Wanted {
    Family,
    Undecodable(u32, [u32; 4], [u8; 3]),
    PointCount(u32),
    PointZero(u32),
    PointTwice(u32, u32),
}

// Stages, points and what is said of them. Over the points 1, 2, 4, 8 a family is at most 21 wide:
// at 22, 2 ^ 10 and 2 ^ 21 differ by 1, so the data 0, 10 and 21 and the parity by 4 are not
// decodable by 1, 2 and 8, and in a wider stripe data 0, 1 and 25 come first, since 2 ^ 1 and 2 ^
// 25 differ by 1. Over 1, 2, 4 any three places of a stripe are decodable, since the powers of 2
// differ. All of it was tried by a program of another kind, determinant by determinant.
static CASES: [(&[Stage], &[u8], Wanted); 12] = [
    (&[stage!(21, 4, 0)], &[1, 2, 4, 8], Wanted::Family),
    (
        &[stage!(22, 4, 0)],
        &[1, 2, 4, 8],
        Wanted::Undecodable(0, [0, 10, 21, 24], [1, 116, 117]),
    ),
    (&[stage!(33, 4, 0)], &[1, 21, 208, 54], Wanted::Family),
    (&[stage!(64, 3, 0)], &[1, 2, 4], Wanted::Family),
    (
        &[
            stage!(4, 4, 2),
            stage!(16, 4, 1),
            stage!(64, 3, 0),
            stage!(64, 3, 0),
        ],
        &[1, 2, 4, 8],
        Wanted::Family,
    ),
    (
        &[stage!(64, 4, 0)],
        &[1, 2, 4, 8],
        Wanted::Undecodable(0, [0, 1, 25, 66], [1, 2, 3]),
    ),
    (
        &[stage!(4, 4, 0), stage!(64, 4, 0)],
        &[1, 2, 4, 8],
        Wanted::Undecodable(1, [0, 1, 25, 66], [1, 2, 3]),
    ),
    (&[stage!(64, 4, 0)], &[1, 2, 4, 0], Wanted::PointZero(3)),
    (&[stage!(64, 4, 0)], &[5, 7, 9, 7], Wanted::PointTwice(1, 3)),
    (&[stage!(2, 2, 0)], &[3, 3], Wanted::PointTwice(0, 1)),
    (&[stage!(2, 2, 0)], &[0, 1], Wanted::PointZero(0)),
    (&[stage!(2, 2, 0)], &[1], Wanted::PointCount(1)),
];

// Whether a fault is the one that was wanted.
fn is_fault(fault: &FamilyFault, wanted: &Wanted) -> bool {
    match (fault, wanted) {
        (
            FamilyFault::Undecodable {
                stage,
                places,
                kernel,
            },
            Wanted::Undecodable(g, set, list),
        ) => {
            stage == g
                && places.as_slice() == set.as_slice()
                && kernel.as_slice() == list.as_slice()
        }
        (FamilyFault::PointCount(n), Wanted::PointCount(count)) => n == count,
        (FamilyFault::PointZero(i), Wanted::PointZero(place)) => i == place,
        (FamilyFault::PointTwice(i, j), Wanted::PointTwice(a, b)) => i == a && j == b,
        _ => false,
    }
}

// Whether it is said of these stages over 128 servers, and these points. A family has the points.
fn is_said(alloc: Global, stages: &[Stage], points: &[u8], wanted: &Wanted) -> bool {
    let Ok(shape) = Shape::new(alloc, stages, 128) else {
        return false;
    };
    match check(alloc, &shape, points) {
        Ok(family) => matches!(wanted, Wanted::Family) && family.points() == points,
        Err(fault) => is_fault(&fault, wanted),
    }
}

fn first_other(alloc: Global) -> Option<usize> {
    for (row, (stages, points, wanted)) in CASES.iter().enumerate() {
        if !is_said(alloc, stages, points, wanted) {
            return Some(row);
        }
    }
    None
}

#[test]
fn families_and_faults(rt: HostRuntime) {
    assert_no_row(&rt, first_other(rt.alloc()));
}
