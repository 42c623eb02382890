//! The command that empties a server.

ghost use Rattle.std.specs.Prelude.{◌≡◌, ◌≤◌, All, IfOk, length, map};
ghost use Rattle.mf_client.specs.Acts.{LosesIn, LosesAll, IsLost, lists_on, names_on};
ghost use Rattle.mf_client.specs.Clients.{facts_in};
ghost use Rattle.mf_client.specs.Steps.{AreLosable, AllLosable, HaveRoom, IsLine, rows};

use crate::done::Outcome;
use mf_vault::{Fetch, Memory, Name};
use std::alloc::Global;

// The names on the server, file by file, with room in each ledger for as many entries. The only
// error is want of memory.
fn prepared<A: Fetch>(
    alloc: Global,
    accesses: &mut [A],
    server: u32,
) -> Result<Vec<Vec<Name>>, Memory>
    ensures stays { map A.actor accesses.new ≡ map A.actor accesses.old }
    ensures lists { IfOk result (λ lists. rows lists.items
        ≡ lists_on server (map A.actor accesses.old)) }
    ensures room { IfOk result (λ lists. HaveRoom (rows lists.items) (map A.spare accesses.new)) }
{
    let mut lists = Vec::with_capacity(alloc, accesses.len())?;
    for i in 0..accesses.len() {
        let names = names_in(&mut accesses[i], server)?;
        lists.push(names)?;
    }
    Ok(lists)
}

// The names of one file on the server, with room in its ledger for as many entries. The only error
// is want of memory.
fn names_in<A: Fetch>(access: &mut A, server: u32) -> Result<Vec<Name>, Memory>
    ensures stays { A.actor access.new ≡ A.actor access.old }
    ensures names { IfOk result (λ names. names.items
        ≡ names_on (A.actor access.old).facts server) }
    ensures room { IfOk result (λ names. length names.items ≤ A.spare access.new) }
{
    let names = access.book().names_on(server)?;
    access.reserve(names.len())?;
    Ok(names)
}

// Loses the names in the file of this access, and counts those that were there.
fn lose_names<A: Fetch>(access: &mut A, names: &[Name], line: u32) -> u32
    requires may { AreLosable line names.now (A.actor access.old) }
    requires room { length names.now ≤ A.spare access.old }
    ensures { LosesIn line names.now result (A.actor access.old) (A.actor access.new) }
{
    let mut count = 0;
    for name in names {
        if access.lose(*name, line) {
            count += 1;
        }
    }
    count
}

// Loses the names of each list in its file, and counts those that were there.
fn lose_all<A: Fetch>(accesses: &mut [A], lists: &[Vec<Name>], line: u32) -> u32
    requires few { length accesses.old ≤ 128 }
    requires may { AllLosable line (rows lists.now) (map A.actor accesses.old) }
    requires room { HaveRoom (rows lists.now) (map A.spare accesses.old) }
    ensures { LosesAll line (rows lists.now) result
        (map A.actor accesses.old) (map A.actor accesses.new) }
{
    let mut count = 0;
    for i in 0..accesses.len() {
        count += lose_names(&mut accesses[i], lists[i].as_slice(), line);
    }
    count
}

// Empties the server, by the command of this line.
pub(crate) fn lose_server<A: Fetch>(
    alloc: Global,
    accesses: &mut [A],
    server: u32,
    line: u32,
) -> Outcome
    requires few { length accesses.old ≤ 128 }
    requires line { All (IsLine line server) (facts_in (map A.actor accesses.old)) }
    ensures { IsLost server line result (map A.actor accesses.old) (map A.actor accesses.new) }
{
    match prepared(alloc, accesses, server) {
        Ok(lists) => Outcome::Lost(lose_all(accesses, lists.as_slice(), line)),
        Err(_) => Outcome::Memory,
    }
}
