//! All data of a stripe, gathered through an access.
ghost use Rattle.std.specs.Prelude.{◌≡◌, ◌<◌, ◌≤◌, length, None};
ghost use Rattle.mf_read.specs.Gathers.{Gathers};
ghost use Rattle.mf_vault.specs.Conditions.{IsOfFamily};
ghost use Rattle.mf_read.specs.Groups.{IsReader};

use crate::asker::{Asker, Begun};
use crate::asking::stage;
use mf_check::Family;
use mf_decode::{Gathered, PlanCache, gather_kept};
use mf_vault::Fetch;
use std::alloc::Global;
use std::marker::{Brand, PhantomData};

// All data of the asker's stripe.
fn gather_by<'a, A: Fetch, K: Begun>(
    alloc: Global,
    cache: &mut PlanCache,
    asker: &mut Asker<'a, A, K>,
    family: &Family,
) -> Gathered
    requires start { K.start ≡ A.actor asker.old.access.now }
    requires going { asker.old.stopped ≡ None }
    requires family { IsOfFamily family.now.shape family.now.points
        (A.actor asker.old.access.now).facts.book }
    ensures gathers { Gathers asker.old.g asker.old.j result
        (A.actor asker.old.access.now) (A.actor asker.new.access.now) }
    ensures same_reference { asker.new.access.ghost_name ≡ asker.old.access.ghost_name }
{
    let stage = stage(&*asker.access, asker.g);
    let count = asker.access.book().pieces(asker.g, asker.j);
    let chunk = asker.access.book().chunk();
    let points = &family.points()[..stage.parities as usize];
    gather_kept(alloc, cache, asker, points, stage.width, count, chunk)
}

// All data of stripe j of generation g, by an asking that begins here.
fn gather_from<A: Fetch, K: Begun>(
    alloc: Global,
    access: &mut A,
    family: &Family,
    cache: &mut PlanCache,
    g: u32,
    j: u32,
) -> Gathered
    requires start { K.start ≡ A.actor access.old }
    requires family { IsOfFamily family.now.shape family.now.points
        (A.actor access.old).facts.book }
    requires reader { IsReader g j (A.actor access.old) }
    ensures { Gathers g j result (A.actor access.old) (A.actor access.new) }
{
    let mut asker = Asker {
        access,
        g,
        j,
        stopped: None,
        start: PhantomData::<K>,
    };
    gather_by(alloc, cache, &mut asker, family)
}

/// All data of stripe j of generation g, which is pinned: each chunk is asked for where the
/// generation has it until it is had, and then parities until as many are had as chunks are
/// missing.
pub fn gather_stripe<A: Fetch>(
    alloc: Global,
    access: &mut A,
    family: &Family,
    g: u32,
    j: u32,
) -> Gathered
    requires family { IsOfFamily family.now.shape family.now.points
        (A.actor access.old).facts.book }
    requires reader { IsReader g j (A.actor access.old) }
    ensures { Gathers g j result (A.actor access.old) (A.actor access.new) }
{
    gather_with(alloc, access, family, &mut PlanCache::none(), g, j)
}

// The same, with the plans of the cache.
pub(crate) fn gather_with<A: Fetch>(
    alloc: Global,
    access: &mut A,
    family: &Family,
    cache: &mut PlanCache,
    g: u32,
    j: u32,
) -> Gathered
    requires family { IsOfFamily family.now.shape family.now.points
        (A.actor access.old).facts.book }
    requires reader { IsReader g j (A.actor access.old) }
    ensures { Gathers g j result (A.actor access.old) (A.actor access.new) }
{
    gather_from::<A, Brand>(alloc, access, family, cache, g, j)
}
