//! The cheapest plan, by its first candidate.
ghost use Rattle.std.specs.Prelude.{◌≡◌, ◌<◌, length, IfOk};
ghost use Rattle.mf_route.specs.Tables.{IsPick, IsPlanFrom, IsPlanBelow, better_of, pick_of};

use crate::table::{Way, full};
use crate::terms::Terms;
use std::alloc::{AllocError, Global};

/// The cheapest plan that begins with a candidate.
fn plan_from(alloc: Global, terms: &Terms, i: u32) -> Result<Option<Way>, AllocError>
    requires { i < length terms.now.candidates }
    ensures { IfOk result (λ way. IsPick terms.now (IsPlanFrom terms.now i) (pick_of way)) }
{
    let first = terms.candidate(i);
    if first.from > 0 {
        return Ok(None);
    }
    let mut table = full(alloc, terms, terms.room(first))?;
    Ok(table.ways.swap_remove(i as usize))
}

/// The cheaper of two plans, and of two as cheap the former.
fn better(best: Option<Way>, new: Option<Way>) -> Option<Way>
    ensures { result ≡ better_of best new }
{
    let Some(new) = new else {
        return best;
    };
    let Some(old) = best else {
        return Some(new);
    };
    if new.cost < old.cost {
        Some(new)
    } else {
        Some(old)
    }
}

/// The cheapest plan.
pub fn cheapest(alloc: Global, terms: &Terms) -> Result<Option<Way>, AllocError>
    ensures { IfOk result (λ way.
        IsPick terms.now (IsPlanBelow terms.now (length terms.now.candidates)) (pick_of way)) }
{
    let mut best = None;
    for i in 0..terms.count() {
        let way = plan_from(alloc, terms, i)?;
        best = better(best, way);
    }
    Ok(best)
}
