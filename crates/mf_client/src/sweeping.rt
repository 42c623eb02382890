//! The command that converts each file up to the stage for which it is due.

ghost use Rattle.std.specs.Prelude.{◌≡◌, ◌+◌, ◌*◌, ◌<◌, ◌≤◌, ◌++◌, ◌∷◌, [], All, IfOk, OnErr};
ghost use Rattle.std.specs.Prelude.{length, map};
ghost use Rattle.std.specs.Prelude.{count_by, vec_capacity};
ghost use Rattle.mf_policy.specs.Due.{sweep_of};
ghost use Rattle.mf_script.specs.Families.{file_policies};
ghost use Rattle.mf_vault.specs.Actor.{Actor};
ghost use Rattle.mf_vault.specs.Conditions.{IsIdle, IsOfFamily};
ghost use Rattle.mf_vault.specs.Counting.{io_of};
ghost use Rattle.mf_vault.specs.Facts.{stages};
ghost use Rattle.mf_client.specs.Runs.{gained, io_gained};
ghost use Rattle.mf_client.specs.Sweeps.{IsSwept, is_converted, is_part, parts_of, ages_in};
ghost use Rattle.mf_client.specs.Steps.{AreDue, AreOfFamilies, Visited, VisitedAll};

use crate::came::{Came, NOTHING, append, count_from};
use crate::done::{Outcome, Part};
use mf_convert::{Change, convert};
use mf_policy::sweep_list;
use mf_read::Family;
use mf_script::Script;
use mf_shape::MAX_STAGES;
use mf_vault::{Fetch, Io, Memory};
use std::alloc::Global;

// Whether the change published a generation.
fn is_converted(change: Change) -> bool
    ensures { result ≡ is_converted change }
{
    matches!(change, Change::Converted { .. })
}

// Whether a sweep tells of the change.
fn is_part(change: Change) -> bool
    ensures { result ≡ is_part change }
{
    !matches!(
        change,
        Change::Last { .. } | Change::Absent | Change::Removed
    )
}

// Adds a change of a file, where a sweep tells of it, within the room that is there.
fn add_part(parts: &mut Vec<Part>, file: u32, change: Change)
    requires { length parts.old.items < vec_capacity parts.old }
    ensures items { parts.new.items ≡ parts.old.items ++ parts_of file (change ∷ []) }
    ensures capacity { vec_capacity parts.old ≤ vec_capacity parts.new }
{
    if is_part(change) {
        append(parts, Part { file, change });
    }
}

// Converts the file of this access up to the stage for which it is due, one conversion after the
// other, until one publishes no generation.
fn convert_in_turn<A: Fetch>(
    alloc: Global,
    access: &mut A,
    family: &Family,
    file: u32,
    due: u32,
    parts: &mut Vec<Part>,
)
    requires idle { IsIdle (A.actor access.old) }
    requires family { IsOfFamily family.now.shape family.now.points
        (A.actor access.old).facts.book }
    requires due { due < stages (A.actor access.old).facts }
    requires room { length parts.old.items + due ≤ vec_capacity parts.old }
    ensures visited { Visited file due (A.actor access.old) (A.actor access.new)
        parts.old.items parts.new.items }
    ensures capacity { vec_capacity parts.old ≤ vec_capacity parts.new }
{
    for _turn in 0..due {
        let change = convert(alloc, access, family, due, None);
        add_part(parts, file, change);
        if !is_converted(change) {
            return;
        }
    }
}

// The same, with the operations that it took.
fn visit<A: Fetch>(
    alloc: Global,
    access: &mut A,
    family: &Family,
    file: u32,
    due: u32,
    parts: &mut Vec<Part>,
) -> Io
    requires idle { IsIdle (A.actor access.old) }
    requires family { IsOfFamily family.now.shape family.now.points
        (A.actor access.old).facts.book }
    requires due { due < stages (A.actor access.old).facts }
    requires room { length parts.old.items + due ≤ vec_capacity parts.old }
    ensures visited { Visited file due (A.actor access.old) (A.actor access.new)
        parts.old.items parts.new.items }
    ensures capacity { vec_capacity parts.old ≤ vec_capacity parts.new }
    ensures io { result ≡ io_of (gained (A.actor access.old) (A.actor access.new)) }
{
    let from = access.ledger().len();
    convert_in_turn(alloc, access, family, file, due, parts);
    count_from(access.ledger(), from)
}

// Visits the files that are due, in turn.
fn visit_all<A: Fetch>(
    alloc: Global,
    accesses: &mut [A],
    script: &Script,
    dues: &[(u32, u32)],
    parts: &mut Vec<Part>,
) -> Io
    requires idle { All IsIdle (map A.actor accesses.old) }
    requires families { AreOfFamilies script.now (map A.actor accesses.old) }
    requires due { AreDue script.now dues.now }
    requires few { length dues.now ≤ 128 }
    requires none { parts.old.items ≡ [] }
    requires room { length dues.now * 4 ≤ vec_capacity parts.old }
    ensures visited { VisitedAll dues.now (map A.actor accesses.old) (map A.actor accesses.new)
        [] parts.new.items }
    ensures few { length parts.new.items ≤ 512 }
    ensures io { result
        ≡ io_gained (map A.actor accesses.old) (map A.actor accesses.new) }
{
    let mut io = NOTHING;
    for (file, due) in dues {
        let family = script.family(script.family_of(*file));
        let access = &mut accesses[*file as usize];
        io = io.plus(visit(alloc, access, family, *file, *due, parts));
    }
    io
}

// The ages of the files, in order.
fn ages_of<A: Fetch>(alloc: Global, accesses: &[A]) -> Result<Vec<u64>, Memory>
    ensures { IfOk result (λ ages. ages.items ≡ ages_in (map A.actor accesses.now)) }
{
    let mut ages = Vec::new(alloc);
    for access in accesses {
        ages.push(access.age())?;
    }
    Ok(ages)
}

// What a sweep finds before it begins: the files that are due, with their due stages, and room for
// what it tells of them.
#[derive(Drop)]
struct Plan {
    dues: Vec<(u32, u32)>,
    parts: Vec<Part>,
}

// The plan of a sweep. The only error is want of memory.
fn planned<A: Fetch>(alloc: Global, accesses: &[A], script: &Script) -> Result<Plan, Memory>
    requires few { length accesses.now ≤ 128 }
    requires count { length accesses.now ≡ length script.now.files }
    ensures dues { IfOk result (λ plan. plan.dues.items
        ≡ sweep_of (file_policies script.now) (ages_in (map A.actor accesses.now))) }
    ensures due { IfOk result (λ plan. AreDue script.now plan.dues.items) }
    ensures few { IfOk result (λ plan. length plan.dues.items ≤ 128) }
    ensures none { IfOk result (λ plan. plan.parts.items ≡ []) }
    ensures room { IfOk result (λ plan. length plan.dues.items * 4 ≤ vec_capacity plan.parts) }
{
    let policies = script.policies();
    let families = script.file_families();
    let ages = ages_of(alloc, accesses)?;
    let dues = sweep_list(alloc, policies, families, ages.as_slice())?;
    let parts = Vec::with_capacity(alloc, dues.len() * MAX_STAGES)?;
    Ok(Plan { dues, parts })
}

// Converts each file up to the stage for which it is due.
pub(crate) fn sweep_files<A: Fetch>(alloc: Global, accesses: &mut [A], script: &Script) -> Came
    requires idle { All IsIdle (map A.actor accesses.old) }
    requires families { AreOfFamilies script.now (map A.actor accesses.old) }
    requires few { length accesses.old ≤ 128 }
    ensures swept { IsSwept (file_policies script.now) result.outcome result.parts.items
        (map A.actor accesses.old) (map A.actor accesses.new) }
    ensures io { result.io
        ≡ io_gained (map A.actor accesses.old) (map A.actor accesses.new) }
{
    let Ok(Plan { dues, mut parts }) = planned(alloc, accesses, script) else {
        return Came {
            outcome: Outcome::Memory,
            parts: Vec::new(alloc),
            io: NOTHING,
        };
    };
    let io = visit_all(alloc, accesses, script, dues.as_slice(), &mut parts);
    let swept = parts
        .iter()
        .filter(|part| is_converted(part.change))
        .count();
    Came {
        outcome: Outcome::Swept(swept as u32),
        parts,
        io,
    }
}
