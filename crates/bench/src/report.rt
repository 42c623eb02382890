//! What is timed, and the lines that are printed of it.
ghost use Rattle.std.specs.Prelude.{◌≡◌, length};

use crate::accesses::{least_plain, least_shared, least_threads};
use crate::checking::least_check;
use crate::codes::{Turns, least_decoding, least_encoding, least_merging};
use crate::gathering::least_gathering;
use crate::kernels::{Kernel, least_kernel};
use crate::store::least_floor;
use anyhow::Result;
use mf_decode::PlanCache;
use mf_vault::Name;
use std::rt::Clock;
use std::sync::Wait;
use std::thread::Threads;

/// Times everything, and prints a line for each.
pub fn report<R: Print + Clock + AllocGlobal + Threads + Wait + Sync>(
    rt: &R,
    turns: u32,
) -> Result<()> {
    report_sizes(rt, turns)?;
    let least = least_check(
        rt,
        Turns {
            count: turns,
            repeats: 1,
        },
    )?;
    println!(rt; "check 33+4 {} us", least / 1_000)?;
    for size in [65_536, 64] {
        report_gets(rt, turns, size)?;
    }
    println!(rt; "store {} ms", least_floor(rt, turns)? / 1_000_000)?;
    Ok(())
}

// Times the codes with chunks of each size.
fn report_sizes<R: Print + Clock + AllocGlobal>(rt: &R, turns: u32) -> Result<()> {
    for kibibytes in [4, 64, 1_024] {
        let repeats = 1_024 / kibibytes;
        let turns = Turns {
            count: turns,
            repeats,
        };
        let size = kibibytes * 1_024;
        println!(rt; "{kibibytes} KiB")?;
        let plain = report_kernels(rt, turns, size)?;
        report_codes(rt, turns, size, plain)?;
        report_decodings(rt, turns, size, plain)?;
        report_gathering(rt, turns, size, plain)?;
    }
    Ok(())
}

// Times the kernels, and answers the rate of the plain loop of exclusive or, in hundredths.
fn report_kernels<R: Print + Clock + AllocGlobal>(rt: &R, turns: Turns, size: u32) -> Result<u64> {
    let mut dst = vec![in rt.alloc(); 0xa5; size as usize]?;
    let src = vec![in rt.alloc(); 0x3c; size as usize]?;
    let least = least_kernel(rt, turns, Kernel::Xor, &mut dst, &src)?;
    let plain = rate(turns, u64::from(size), least);
    print_rate(rt, "xor", plain, plain)?;
    report_kernel(rt, turns, "copy", Kernel::Copy, size, plain)?;
    report_kernel(rt, turns, "add_into", Kernel::AddInto, size, plain)?;
    report_kernel(rt, turns, "scale", Kernel::Scale, size, plain)?;
    report_kernel(rt, turns, "add_scaled", Kernel::AddScaled, size, plain)?;
    Ok(plain)
}

// Times a kernel.
fn report_kernel<R: Print + Clock + AllocGlobal>(
    rt: &R,
    turns: Turns,
    name: &str,
    kernel: Kernel,
    size: u32,
    plain: u64,
) -> Result<()> {
    let mut dst = vec![in rt.alloc(); 0xa5; size as usize]?;
    let src = vec![in rt.alloc(); 0x3c; size as usize]?;
    let least = least_kernel(rt, turns, kernel, &mut dst, &src)?;
    print_rate(rt, name, rate(turns, u64::from(size), least), plain)
}

// Times encodings and merges.
fn report_codes<R: Print + Clock + AllocGlobal>(
    rt: &R,
    turns: Turns,
    size: u32,
    plain: u64,
) -> Result<()> {
    let bytes = u64::from(size);
    let least = least_encoding(rt, turns, 6, size)?;
    print_rate(rt, "encode 6+3", rate(turns, 6 * bytes, least), plain)?;
    let least = least_encoding(rt, turns, 12, size)?;
    print_rate(rt, "encode 12+3", rate(turns, 12 * bytes, least), plain)?;
    let least = least_merging(rt, turns, 2, size)?;
    print_rate(rt, "merge 2", rate(turns, 2 * bytes, least), plain)?;
    let least = least_merging(rt, turns, 4, size)?;
    print_rate(rt, "merge 4", rate(turns, 4 * bytes, least), plain)
}

// Times the decodings of one to three erased pieces.
fn report_decodings<R: Print + Clock + AllocGlobal>(
    rt: &R,
    turns: Turns,
    size: u32,
    plain: u64,
) -> Result<()> {
    for width in [6, 12] {
        for erased in [3, 2, 1] {
            let least = least_decoding(rt, turns, width, erased, size)?;
            let rate = rate(turns, u64::from(width) * u64::from(size), least);
            print_rate(
                rt,
                &format!(in rt.alloc(); "decode {erased} of {width}+3")?,
                rate,
                plain,
            )?;
        }
    }
    Ok(())
}

// Times the gathering of a stripe, whole and without a chunk, with a plan that is made each time
// and with one that is kept.
fn report_gathering<R: Print + Clock + AllocGlobal>(
    rt: &R,
    turns: Turns,
    size: u32,
    plain: u64,
) -> Result<()> {
    let bytes = 6 * u64::from(size);
    let mut none = PlanCache::none();
    let least = least_gathering(rt, turns, 0, size, &mut none)?;
    print_rate(rt, "gather 6+3", rate(turns, bytes, least), plain)?;
    let least = least_gathering(rt, turns, 1, size, &mut none)?;
    print_rate(
        rt,
        "gather 1 of 6+3, plan made",
        rate(turns, bytes, least),
        plain,
    )?;
    let mut kept = PlanCache::new(rt.alloc(), 1)?;
    let least = least_gathering(rt, turns, 1, size, &mut kept)?;
    print_rate(
        rt,
        "gather 1 of 6+3, plan kept",
        rate(turns, bytes, least),
        plain,
    )
}

// Times the gets of a file of chunks of this size.
fn report_gets<R: Print + Clock + AllocGlobal + Threads + Wait + Sync>(
    rt: &R,
    turns: u32,
    size: u32,
) -> Result<()> {
    println!(rt; "{size} bytes")?;
    print_time(rt, "get alone", least_plain(rt, turns, size)?)?;
    print_time(rt, "get shared", least_shared(rt, turns, size)?)?;
    let apart = [Name::Data(0), Name::Data(1), Name::Data(2), Name::Data(3)];
    let least = least_threads(rt, turns, size, apart)?;
    print_time(rt, "get by 4, names of their own", least)?;
    let least = least_threads(rt, turns, size, [Name::Data(0); 4])?;
    print_time(rt, "get by 4, one name", least)
}

// The rate at which so many bytes are read in each repeat, in hundredths of GB/s.
fn rate(turns: Turns, bytes: u64, nanoseconds: u64) -> u64 {
    bytes
        .saturating_mul(u64::from(turns.repeats))
        .saturating_mul(100)
        / nanoseconds.max(1)
}

// Prints a rate, and which part of the plain loop's it is.
fn print_rate(rt: &impl Print, name: &str, rate: u64, plain: u64) -> Result<()> {
    let part = rate.saturating_mul(100) / plain.max(1);
    println!(rt;
        "  {name} {}.{:02} GB/s, {}.{:02} of xor",
        rate / 100,
        rate % 100,
        part / 100,
        part % 100
    )?;
    Ok(())
}

// Prints a time in tenths of nanoseconds.
fn print_time(rt: &impl Print, name: &str, time: u64) -> Result<()> {
    println!(rt; "  {name} {}.{} ns", time / 10, time % 10)?;
    Ok(())
}
