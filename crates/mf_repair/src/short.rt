//! What a short asking of a repair comes to.
ghost use Rattle.std.specs.Prelude.{◌≡◌, ℕ, ◌<◌, ◌≤◌, [], length, drop, IfOk};
ghost use Rattle.std.specs.List.{list_any};
ghost use Rattle.mf_read.specs.Asking.{lost_in, away_in};
ghost use Rattle.mf_read.specs.Reading.{bears};
ghost use Rattle.mf_vault.specs.Facts.{stages};
ghost use Rattle.mf_places.specs.declared.Name.{Name};
ghost use Rattle.mf_repair.specs.Repair.{once, same_name};
ghost use Rattle.mf_repair.specs.Mending.{told_by, first_of, lost_name, away_name};
ghost use Rattle.mf_repair.specs.Mending.{IsShortOf, LacksNames, with_found};

use crate::outcome::RepairOutcome;
use mf_read::LostNames;
use mf_vault::{Answer, Entry, Fetch, Memory, Name, Op};
use std::alloc::Global;

// The entries from number `from` on.
pub(crate) fn entries_from(entries: &[Entry], from: usize) -> &[Entry]
    requires { from ≤ length entries.now }
    ensures { result.now ≡ drop from entries.now }
{
    &entries[from..]
}

// The name that a probe or a get found lost, with its line.
fn lost(entry: Entry) -> Option<(Name, u32)>
    ensures { result ≡ lost_name entry }
{
    match entry {
        Entry::Chunk {
            op: Op::Probe | Op::Get,
            name,
            answer: Answer::Lost(line),
        } => Some((name, line)),
        _ => None,
    }
}

// The name that a probe or a get couldn't reach, with its server.
fn away(entry: Entry) -> Option<(Name, u32)>
    ensures { result ≡ away_name entry }
{
    match entry {
        Entry::Chunk {
            op: Op::Probe | Op::Get,
            name,
            answer: Answer::Away(server),
        } => Some((name, server)),
        _ => None,
    }
}

fn is_same(a: Name, b: Name) -> bool
    ensures { result ≡ same_name a b }
{
    match (a, b) {
        (Name::Data(i), Name::Data(j)) => i == j,
        (Name::Copy(c, i), Name::Copy(d, j)) => c == d && i == j,
        (Name::Parity(w, i, p), Name::Parity(v, j, q)) => w == v && i == j && p == q,
        _ => false,
    }
}

// Whether the name is among these.
fn has(names: &[(Name, u32)], name: Name) -> bool
    ensures { result ≡ list_any (λ (x : Name × ℕ). same_name x.0 name) names.now }
{
    names.iter().any(|x| is_same(x.0, name))
}

// Appends what was found, where its name isn't among those before. The only error is want of
// memory.
fn keep_once(items: &mut Vec<(Name, u32)>, found: Option<(Name, u32)>) -> Result<(), Memory>
    ensures { IfOk result (λ _. items.new.items ≡ with_found items.old.items found) }
{
    match found {
        Some(found) => {
            if !has(items, found.0) {
                items.push(found)?;
            }
            Ok(())
        }
        None => Ok(()),
    }
}

// The names that these entries found lost, each once, in the order found.
fn lost_names(alloc: Global, entries: &[Entry]) -> Result<LostNames, Memory>
    ensures { IfOk result (λ names. names ≡ once (lost_in (told_by entries.now))) }
{
    let mut items = Vec::new(alloc);
    for entry in entries {
        keep_once(&mut items, lost(*entry))?;
    }
    Ok(LostNames::new(items))
}

// The first name that these entries couldn't reach, with its server.
fn first_away(entries: &[Entry]) -> Option<(Name, u32)>
    ensures { result ≡ first_of (away_in (told_by entries.now)) }
{
    for entry in entries {
        let found = away(*entry);
        if found.is_some() {
            return found;
        }
    }
    None
}

// What the short asking of stripe j with these entries comes to. The generation bears `most` lost
// names.
fn short(alloc: Global, most: u32, g: u32, j: u32, entries: &[Entry]) -> RepairOutcome
    requires { away_in (told_by entries.now) ≡ []
        → most < length (once (lost_in (told_by entries.now))) }
    ensures { IsShortOf most g j (told_by entries.now) result }
{
    let Ok(lost) = lost_names(alloc, entries) else {
        return RepairOutcome::Memory;
    };
    let few = lost.as_slice().len() <= most as usize;
    match first_away(entries) {
        Some((name, server)) if few => RepairOutcome::Unreachable {
            g,
            stripe: j,
            name,
            server,
        },
        _ => RepairOutcome::DataLost { g, stripe: j, lost },
    }
}

// What the short asking of stripe j comes to that has the entries from number `from` on.
pub(crate) fn short_from<A: Fetch>(
    alloc: Global,
    access: &A,
    g: u32,
    j: u32,
    from: usize,
) -> RepairOutcome
    requires stage { g < stages (A.actor access.now).facts }
    requires from { from ≤ length (A.actor access.now).entries }
    requires lost { LacksNames g from (A.actor access.now) }
    ensures { IsShortOf (bears (A.actor access.now).facts.book g) g j
        (told_by (drop from (A.actor access.now).entries)) result }
{
    let most = access.book().tolerance(g);
    let entries = entries_from(access.ledger(), from);
    short(alloc, most, g, j, entries)
}
