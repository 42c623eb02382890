//! The due stages of files, and the files that a sweep converts.
ghost use Rattle.std.specs.Prelude.{◌≡◌};

use crate::rows::assert_no_row;
use mf_policy::{Memory, Policy, due, sweep_list};
use std::alloc::Global;
use std::test::Fail;

// Ages, and the due stages under the thresholds 0, 7 and 30.
static DUE: [(u64, u32); 9] = [
    (0, 0),
    (1, 0),
    (6, 0),
    (7, 1),
    (8, 1),
    (29, 1),
    (30, 2),
    (31, 2),
    (u64::MAX, 2),
];

fn first_other_stage(policy: &Policy) -> Option<usize> {
    for (row, (age, stage)) in DUE.iter().enumerate() {
        if due(policy, *age) != *stage {
            return Some(row);
        }
    }
    None
}

// For each file the number of its family and its age, and the files that are due, with their
// stages. The families have the thresholds 0 7 30, none, and 0 10.
static SWEEPS: [(&[u32], &[u64], &[(u32, u32)]); 5] = [
    (
        &[0, 0, 0, 0, 0],
        &[6, 7, 0, 31, 29],
        &[(1, 1), (3, 2), (4, 1)],
    ),
    (&[], &[], &[]),
    (&[1, 1], &[0, u64::MAX], &[]),
    (
        &[2, 1, 0, 2, 0, 1],
        &[9, 40, 40, 10, 9, 7],
        &[(2, 2), (3, 1), (4, 1)],
    ),
    (&[0, 2], &[8, 8], &[(0, 1)]),
];

fn first_other_sweep(
    alloc: Global,
    policies: &[Option<Policy>; 3],
) -> Result<Option<usize>, Memory> {
    for (row, (of, ages, wanted)) in SWEEPS.iter().enumerate() {
        let has_families = of.iter().all(|family| *family < 3);
        if !has_families || ages.len() > 100 || of.len() != ages.len() {
            return Ok(Some(row));
        }
        if sweep_list(alloc, policies, of, ages)?.as_slice() != *wanted {
            return Ok(Some(row));
        }
    }
    Ok(None)
}

#[test]
fn due_stages_and_sweeps(rt: HostRuntime) -> Result<(), Fail> {
    let policy = Policy::new(vec![in rt.alloc(); 0, 7, 30]?);
    assert_no_row(&rt, first_other_stage(&policy));
    let short = Policy::new(vec![in rt.alloc(); 0, 10]?);
    let policies = [Some(policy), None, Some(short)];
    assert_no_row(&rt, first_other_sweep(rt.alloc(), &policies)?);
    let single = Policy::new(vec![in rt.alloc(); 0]?);
    assert!(rt; due(&single, 1_000_000_000) == 0);
    Ok(())
}
