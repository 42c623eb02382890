//! What commands took, added up.

ghost use Rattle.std.specs.Prelude.{◌≡◌, ◌≤◌, map, length, IfOk};
ghost use Rattle.std.specs.List.{All};
ghost use Rattle.mf_client.specs.declared.done.Done.{Done};
ghost use Rattle.mf_client.specs.Runs.{IsSmall};
ghost use Rattle.mf_report.specs.Report.{took, conversions};

use crate::commands::converts;
use crate::counts::total;
use mf_client::Done;
use mf_vault::Io;
use std::alloc::{AllocError, Global};

// What each of the commands took.
fn ios_of(alloc: Global, commands: &[Done]) -> Result<Vec<Io>, AllocError>
    ensures { IfOk result (λ ios. ios.items ≡ map (λ (d : Done). d.io) commands.now) }
{
    let mut ios = Vec::new(alloc);
    for done in commands {
        ios.push(done.io)?;
    }
    Ok(ios)
}

// What each of the commands took that convert.
fn conversion_ios_of(alloc: Global, commands: &[Done]) -> Result<Vec<Io>, AllocError>
    ensures { IfOk result
        (λ ios. ios.items ≡ map (λ (d : Done). d.io) (conversions commands.now)) }
{
    let mut ios = Vec::new(alloc);
    for done in commands {
        if converts(&done.act) {
            ios.push(done.io)?;
        }
    }
    Ok(ios)
}

/// What the commands took, in all. Fails only for want of memory.
pub fn took(alloc: Global, commands: &[Done]) -> Result<Io, AllocError>
    requires few { length commands.now ≤ 4096 }
    requires small { All (λ (d : Done). IsSmall d.io) commands.now }
    ensures { IfOk result (λ io. io ≡ took commands.now) }
{
    let ios = ios_of(alloc, commands)?;
    Ok(total(&ios))
}

/// What the commands took that convert, in all. Fails only for want of memory.
pub fn conversions_took(alloc: Global, commands: &[Done]) -> Result<Io, AllocError>
    requires few { length commands.now ≤ 4096 }
    requires small { All (λ (d : Done). IsSmall d.io) commands.now }
    ensures { IfOk result (λ io. io ≡ took (conversions commands.now)) }
{
    let ios = conversion_ios_of(alloc, commands)?;
    Ok(total(&ios))
}
