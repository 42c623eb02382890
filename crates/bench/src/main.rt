//! Times the codes, gets of accesses, and the floor of a store. With a number of turns it prints
//! the best of so many, and with no argument what it would time.
#![tactic(auto)]

mod accesses;
mod checking;
mod codes;
mod files;
mod gathering;
mod gets;
mod kernels;
mod report;
mod store;
mod stripe;

use anyhow::{Result, bail};
use report::report;
use std::env;

fn main(rt: HostRuntime) -> Result<()> {
    match env::args(&rt)?.nth(1) {
        None => explain(&rt),
        Some(turns) => match turns.parse::<u32>()? {
            0 => bail!("0 turns time nothing"),
            turns => report(&rt, turns),
        },
    }
}

/// Prints what is timed.
fn explain(rt: &impl Print) -> Result<()> {
    println!(rt; "bench TURNS")?;
    println!(rt; "times the codes with chunks of 4, 64 and 1024 KiB: the best of TURNS turns")?;
    println!(rt; "each rate is of the bytes that are read, and as a part of that of xor")?;
    println!(rt; "xor, copy: a plain loop of exclusive or, and a copy, of one chunk")?;
    println!(rt; "add_into, scale, add_scaled: the three kernels, on one chunk")?;
    println!(rt; "encode 6+3, 12+3: a stripe of 6 or of 12 chunks to 3 parities")?;
    println!(rt; "merge 2, merge 4: the parities of so many narrow stripes to a wide one")?;
    println!(rt; "decode E of K+3: K - E chunks and E parities to the E erased chunks")?;
    println!(rt; "gather 6+3: the 6 chunks of a stripe of which nothing is lost")?;
    println!(rt;
        "gather 1 of 6+3: those of one that lost a chunk, with a plan made each time or kept"
    )?;
    println!(rt;
        "check 33+4: four stages of 33 chunks and 4 parities, the worst known that is accepted"
    )?;
    println!(rt; "get alone, shared: a get by a file's only actor, and by one of several")?;
    println!(rt;
        "get by 4: four threads, on names of their own and on one; their time by all their gets"
    )?;
    println!(rt; "store: 64 files of 1 MiB in chunks of 64 KiB: their SHA-256, and encoding 6+3")?;
    Ok(())
}
