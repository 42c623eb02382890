//! What a short asking comes to.
ghost use Rattle.std.specs.Prelude.{◌≡◌, ℕ, ◌<◌, ◌≤◌, [], length, IfOk};
ghost use Rattle.std.specs.declared.alloc.Global.{Global};
ghost use Rattle.std.specs.declared.vec.Vec.{Vec};
ghost use Rattle.mf_read.specs.Asking.{lost_in, away_in};
ghost use Rattle.mf_read.specs.Groups.{asks_in};
ghost use Rattle.mf_read.specs.Steps.{IsShortOf, first_of, lost_name, away_name};
ghost use Rattle.mf_read.specs.Taking.{with_bytes};

use crate::outcome::{IntoOutcome, LostNames};
use mf_kernel::Memory;
use mf_vault::{Answer, Entry, Name, Op};
use std::alloc::Global;

// The name that an entry found lost, with its line.
fn lost(entry: Entry) -> Option<(Name, u32)>
    ensures { result ≡ lost_name entry }
{
    match entry {
        Entry::Chunk {
            op: Op::Get,
            name,
            answer: Answer::Lost(line),
        } => Some((name, line)),
        _ => None,
    }
}

// The name that an entry couldn't reach, with its server.
fn away(entry: Entry) -> Option<(Name, u32)>
    ensures { result ≡ away_name entry }
{
    match entry {
        Entry::Chunk {
            op: Op::Get,
            name,
            answer: Answer::Away(server),
        } => Some((name, server)),
        _ => None,
    }
}

// The names that these entries found lost, in order.
fn lost_names(alloc: Global, entries: &[Entry]) -> Result<LostNames, Memory>
    ensures { IfOk result (λ names. names ≡ lost_in (asks_in entries.now)) }
{
    let mut items = Vec::new(alloc);
    for entry in entries {
        if let Some(name) = lost(*entry) {
            items.push(name)?;
        }
    }
    Ok(LostNames::new(items))
}

// The first name that these entries couldn't reach, with its server.
fn first_away(entries: &[Entry]) -> Option<(Name, u32)>
    ensures { result ≡ first_of (away_in (asks_in entries.now)) }
{
    for entry in entries {
        let found = away(*entry);
        if found.is_some() {
            return found;
        }
    }
    None
}

// What the short asking of stripe j with these entries comes to. The generation bears `most` lost
// names.
pub(crate) fn short(alloc: Global, most: u32, g: u32, j: u32, entries: &[Entry]) -> IntoOutcome
    requires { away_in (asks_in entries.now) ≡ [] → most < length (lost_in (asks_in entries.now)) }
    ensures { (bytes : Vec ℕ Global)
        → IsShortOf most g j (asks_in entries.now) (with_bytes result bytes) }
{
    let Ok(lost) = lost_names(alloc, entries) else {
        return IntoOutcome::Memory;
    };
    let few = lost.as_slice().len() <= most as usize;
    match first_away(entries) {
        Some((name, server)) if few => IntoOutcome::Unreachable {
            g,
            stripe: j,
            name,
            server,
        },
        _ => IntoOutcome::DataLost { g, stripe: j, lost },
    }
}
