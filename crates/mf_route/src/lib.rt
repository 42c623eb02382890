//! The cheapest life of a file: which stages it is given, and when.
//!
//! A candidate is a stage, by width and parities, that a file may have from a tick on. A plan is a
//! list of one to four candidates by their numbers, from 0. Its cost is that of the chunks that are
//! kept, tick by tick up to the horizon, and of the chunks that each change of the width reads and
//! writes.
//!
//! `route` wants 1 to 128 servers, 1 to 4 points as a family has them, 1 to 1,024 chunks, a cost of
//! at most 1,000,000, a horizon of at most 1,000,000,000, and 1 to 64 candidates with a width of 1
//! to 64, 1 parity up to as many as there are points, and ticks of at most 1,000,000,000. It takes
//! memory, and want of it is the outcome `Memory`.
//!
//! ```text
//! let candidates = [Candidate { width: 2, parities: 2, from: 0 },
//!     Candidate { width: 4, parities: 2, from: 50 }];
//! route(alloc, 6, &[1, 2], 4, 16, 100, &candidates);     // Plan { cost: 796, stages: [0, 1] }
//! route(alloc, 6, &[1, 2], 4, 17, 100, &candidates);     // Plan { cost: 800, stages: [0] }
//! ```
//!
//! *Proved.* The plan is a plan of that cost; every plan costs at least that, and of those that
//! cost as much it is the first, as words are ordered. `NoPlan` comes exactly where there is none.
//!
//! *Neither.* How long it takes.
#![tactic(auto)]

ghost use Rattle.std.specs.Prelude.{◌≤◌, length, IfOk};
ghost use Rattle.std.specs.List.{All};
ghost use Rattle.mf_check.specs.Families.{ArePoints};
ghost use Rattle.mf_route.specs.Plans.{IsAnswer, IsCandidate};

mod plans;
mod table;
mod terms;

use plans::cheapest;
use std::alloc::Global;
use terms::Terms;

/// A stage that a file may have from a tick on.
#[derive(Clone, Copy)]
pub struct Candidate {
    pub width: u32,
    pub parities: u32,
    pub from: u64,
}

/// What `route` answers.
#[derive(Drop)]
pub enum RouteOutcome {
    /// The cheapest plan, by the numbers of its candidates.
    Plan { cost: u64, stages: Vec<u32> },
    /// There is no plan.
    NoPlan,
    /// Memory ran out.
    Memory,
}

/// The cheapest plan for a file of so many chunks, where a chunk that a change reads or writes
/// costs `cost`, and a chunk that is kept 1 a tick.
pub fn route(
    alloc: Global,
    servers: u32,
    points: &[u8],
    chunks: u32,
    cost: u64,
    horizon: u64,
    candidates: &[Candidate],
) -> RouteOutcome
    requires servers { servers ≤ 128 }
    requires points { ArePoints (length points.now) points.now }
    requires few_points { length points.now ≤ 4 }
    requires chunks { chunks ≤ 1024 }
    requires cost { cost ≤ 1000000 }
    requires horizon { horizon ≤ 1000000000 }
    requires few { length candidates.now ≤ 64 }
    requires limits { All (IsCandidate (length points.now)) candidates.now }
    ensures { IsAnswer (record {
      servers = servers;
      points = points.now;
      chunks = chunks;
      cost = cost;
      horizon = horizon;
      candidates = candidates.now;
    }) result }
{
    let Ok(terms) = Terms::new(alloc, servers, points, chunks, cost, horizon, candidates) else {
        return RouteOutcome::Memory;
    };
    match cheapest(alloc, &terms) {
        Ok(Some(way)) => RouteOutcome::Plan {
            cost: way.cost,
            stages: way.stages,
        },
        Ok(None) => RouteOutcome::NoPlan,
        Err(_) => RouteOutcome::Memory,
    }
}
