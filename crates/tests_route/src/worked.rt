//! Answers that were worked out by hand.
use crate::asking::{Question, ask};
use mf_route::{Candidate, RouteOutcome};
use std::alloc::Global;
use std::test::Fail;

const NARROW: Candidate = Candidate {
    width: 2,
    parities: 2,
    from: 0,
};

const WIDE: Candidate = Candidate {
    width: 4,
    parities: 2,
    from: 50,
};

/// Servers, the cost of a chunk, candidates, and the cost of the cheapest plan with its stages.
static ROWS: [(u32, u64, &[Candidate], Option<(u64, &[u32])>); 6] = [
    (6, 16, &[NARROW, WIDE], Some((796, &[0, 1]))),
    (6, 17, &[NARROW, WIDE], Some((800, &[0]))),
    (5, 16, &[NARROW, WIDE], Some((800, &[0]))),
    (6, 16, &[WIDE], None),
    (6, 16, &[NARROW, NARROW], Some((800, &[0]))),
    (6, 16, &[], None),
];

fn is_wanted(outcome: RouteOutcome, wanted: Option<(u64, &[u32])>) -> bool {
    match outcome {
        RouteOutcome::Plan { cost, stages } => match wanted {
            Some((least, plan)) => cost == least && stages.as_slice() == plan,
            None => false,
        },
        RouteOutcome::NoPlan => wanted.is_none(),
        RouteOutcome::Memory => false,
    }
}

fn first_other_row(alloc: Global) -> Option<usize> {
    for (row, (servers, cost, candidates, wanted)) in ROWS.iter().enumerate() {
        let question = Question {
            servers: *servers,
            chunks: 4,
            cost: *cost,
            horizon: 100,
        };
        if !is_wanted(ask(alloc, &question, candidates), *wanted) {
            return Some(row);
        }
    }
    None
}

#[test]
fn by_hand(rt: HostRuntime) -> Result<(), Fail> {
    assert_eq!(rt; first_other_row(rt.alloc()), None);
    Ok(())
}
