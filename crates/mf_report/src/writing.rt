//! The report of a run.

ghost use Rattle.std.specs.Prelude.{◌≡◌, ◌≤◌, ◌++◌, length, map, IfOk, IfErr, OnOk};
ghost use Rattle.std.specs.List.{All, flat_map};
ghost use Rattle.std.specs.String.{string_bytes};
ghost use Rattle.std.specs.Io.KnownBytes.{Appends};
ghost use Rattle.mf_client.specs.declared.done.Done.{Done};
ghost use Rattle.mf_report.specs.Lines.{ended};
ghost use Rattle.mf_client.specs.Runs.{IsSmall};
ghost use Rattle.mf_report.specs.Report.{report_text};
ghost use Rattle.mf_report.specs.Json.{written_text};
ghost use Rattle.mf_report.specs.Writing.{Leaves};

use crate::commands::write_commands;
use crate::dumps::lines_of;
use crate::json::json_of;
use crate::totals::{conversions_took, took};
use mf_client::Done;
use mf_io::{Sink, write_all};
use mf_plain::Plain;
use mf_script::Script;
use std::alloc::{AllocError, Global};

/// Why a report wasn't written whole.
#[derive(Clone, Copy)]
pub enum ReportFault {
    /// A write failed.
    Sink,
    /// Memory ran out.
    Memory,
}

// Writes lines, each with its end.
fn write_lines(out: &mut String, lines: &[String]) -> Result<(), AllocError>
    ensures { OnOk result (string_bytes out.new
        ≡ string_bytes out.old ++ flat_map ended (map string_bytes lines.now)) }
{
    for line in lines {
        writeln!(out, "{line}")?;
    }
    Ok(())
}

/// The report's text. Fails only for want of memory.
#[tactic(auto, using(std::proofs::lemmas::List::append_assoc))]
pub fn text_of(
    alloc: Global,
    script: &Script,
    commands: &[Done],
    files: &[Plain],
) -> Result<String, AllocError>
    requires few { length commands.now ≤ 4096 }
    requires small { All (λ (d : Done). IsSmall d.io) commands.now }
    ensures { IfOk result
        (λ text. string_bytes text ≡ report_text script.now commands.now files.now) }
{
    let all = took(alloc, commands)?;
    let converted = conversions_took(alloc, commands)?;
    let dumps = lines_of(alloc, script.files(), files, script.dumps())?;
    let mut out = String::from_str(alloc, "report 1\n")?;
    write_commands(&mut out, script.files(), commands)?;
    write_lines(&mut out, &dumps)?;
    writeln!(out, "total {all}")?;
    writeln!(out, "converts {converted}")?;
    writeln!(out, "end")?;
    Ok(out)
}

/// Writes the report of these commands of the script, in their order: one line for each, with what
/// came of it and the operations on chunks that it took, one line for each of its parts, the dumps
/// that the script asks for of these files, and the sums of the operations. With `json` it writes
/// the same as one line of JSON.
///
/// # Errors
/// `Sink` where a write failed: the sink's count has risen, and a front of the report was written.
/// `Memory` where memory ran out; nothing was written then.
pub fn report<K: Sink>(
    alloc: Global,
    sink: &mut K,
    script: &Script,
    done: &[Done],
    files: &[Plain],
    json: bool,
) -> Result<(), ReportFault>
    requires few { length done.now ≤ 4096 }
    requires small { All (λ (d : Done). IsSmall d.io) done.now }
    ensures text { OnOk result
        (Appends (K.written sink.old) (K.written sink.new)
        (written_text json script.now done.now files.now)) }
    ensures count { OnOk result (K.faults sink.new ≡ K.faults sink.old) }
    ensures fault { IfErr result (λ fault. Leaves fault
        (written_text json script.now done.now files.now) (K.written sink.old) (K.written sink.new) (K.faults sink.old) (K.faults sink.new)) }
{
    let made = if json {
        json_of(alloc, script, done, files)
    } else {
        text_of(alloc, script, done, files)
    };
    let Ok(text) = made else {
        return Err(ReportFault::Memory);
    };
    match write_all(sink, text.as_bytes()) {
        Ok(()) => Ok(()),
        Err(_) => Err(ReportFault::Sink),
    }
}
