//! Plans that are kept for gatherings to come.
ghost use Rattle.std.specs.Prelude.{◌≡◌, ◌≤◌, IfOk, IfSome};

use crate::planning::DecodePlan;
use lru::LruCache;
use mf_kernel::Memory;
use std::alloc::Global;
use std::array;
use std::marker::Model;
use std::num::NonZeroUsize;

// What a plan is looked up by: points, width, erased places and parities. There are at most four
// points, and so at most four erased places and parities; None stands behind the last one.
#[derive(PartialEq, Eq, Hash, Drop)]
struct Key {
    points: [Option<u8>; 4],
    width: u32,
    erased: [Option<u32>; 4],
    parities: [Option<u32>; 4],
}

impl Key {
    fn new(points: &[u8], width: u32, erased: &[u32], parities: &[u32]) -> Key {
        Key {
            points: first_four(points),
            width,
            erased: first_four(erased),
            parities: first_four(parities),
        }
    }

    fn of(plan: &DecodePlan) -> Key {
        Key::new(
            plan.points.as_slice(),
            plan.width,
            plan.erased.as_slice(),
            plan.parities.as_slice(),
        )
    }
}

// The first four items, and None where there are fewer.
fn first_four<T: Copy>(items: &[T]) -> [Option<T>; 4] {
    array::from_fn(|i| items.get(i).copied())
}

/// Plans that are kept for gatherings to come, those that were used last. A cache changes no
/// answer: a plan that isn't kept is made anew.
#[derive(Drop)]
pub struct PlanCache {
    // None keeps no plans.
    plans: Option<LruCache<Key, DecodePlan>>,
}

impl Model for PlanCache {
    ghost use Rattle.std.specs.Prelude.{ℕ};
    ghost use Rattle.mf_decode.specs.Caches.{capacity_of};

    ghost Value = { ℕ };

    ghost view = { λ cache. capacity_of cache.plans };
}

impl PlanCache {
    /// A cache that keeps no plans, and takes no memory.
    pub fn none() -> PlanCache
        ensures { result ≡ 0 }
    {
        PlanCache { plans: None }
    }

    /// A cache of at most `capacity` plans, of which it keeps none yet. The only error is want of
    /// memory.
    pub fn new(alloc: Global, capacity: u32) -> Result<PlanCache, Memory>
        requires { 1 ≤ capacity }
        ensures { IfOk result (λ cache. cache ≡ capacity) }
    {
        let Some(capacity) = NonZeroUsize::new(capacity as usize) else {
            unreachable!()
        };
        Ok(PlanCache {
            plans: Some(LruCache::new(alloc, capacity)?),
        })
    }

    // Takes out the plan of a stripe of this width and these points, with these places erased and
    // these parities in their stead, where it is kept.
    pub(crate) fn take(
        &mut self,
        points: &[u8],
        width: u32,
        erased: &[u32],
        parities: &[u32],
    ) -> Option<DecodePlan>
        ensures { IfSome result
            (λ plan. plan
            ≡ record {
              points = points.now;
              width = width;
              erased = erased.now;
              parities = parities.now;
            }) }
    {
        let key = Key::new(points, width, erased, parities);
        let plan = self.plans.as_mut()?.pop(&key)?;
        if plan.is_of(points, width, erased, parities) {
            Some(plan)
        } else {
            None
        }
    }

    // Keeps the plan. One that finds no room is dropped.
    pub(crate) fn keep(&mut self, plan: DecodePlan) {
        if let Some(plans) = &mut self.plans {
            let _ = plans.put(Key::of(&plan), plan);
        }
    }
}
