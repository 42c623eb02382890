//! The report of a run as JSON.

ghost use Rattle.std.specs.Prelude.{◌≡◌, ◌≤◌, map, length, false, IfOk};
ghost use Rattle.std.specs.List.{All};
ghost use Rattle.std.specs.String.{string_bytes};
ghost use Rattle.serde_json.specs.Data.{array};
ghost use Rattle.serde_json.specs.View.{view, items_of};
ghost use Rattle.serde_json.specs.Written.{has_float, compact_text};
ghost use Rattle.mf_lines.specs.Meaning.{names_in};
ghost use Rattle.mf_client.specs.declared.done.Done.{Done};
ghost use Rattle.mf_client.specs.Runs.{IsSmall};
ghost use Rattle.mf_report.specs.Lines.{ended};
ghost use Rattle.mf_report.specs.Commands.{part_text};
ghost use Rattle.mf_report.specs.Json.{texts_json, numbers_json, io_json, done_json, report_json};
ghost use Rattle.mf_report.specs.Json.{json_text};

use crate::commands::{CommandText, PartText};
use crate::dumps::lines_of;
use crate::totals::{conversions_took, took};
use mf_client::{Done, Part};
use mf_plain::Plain;
use mf_script::{FileLine, Script};
use mf_vault::Io;
use serde_json::{Value, json};
use std::alloc::{AllocError, Global};

// ---- commands

// Numbers.
fn numbers_value(alloc: Global, numbers: &[u64]) -> Result<Value, AllocError>
    ensures { IfOk result (λ v. view v ≡ numbers_json numbers.now) }
{
    let mut list = Vec::new(alloc);
    for n in numbers {
        list.push(Value::from(*n))?;
    }
    Ok(Value::from(list))
}

// The seven numbers of counts.
fn io_value(alloc: Global, io: Io) -> Result<Value, AllocError>
    ensures { IfOk result (λ v. view v ≡ io_json io) }
{
    numbers_value(alloc, &io.numbers())
}

// The parts of a command.
fn parts_value(alloc: Global, files: &[FileLine], parts: &[Part]) -> Result<Value, AllocError>
    ensures { IfOk result
        (λ v. view v ≡ texts_json (map (part_text (names_in files.now)) parts.now)) }
{
    let mut list = Vec::new(alloc);
    for part in parts {
        let part = PartText { files, part: *part };
        list.push(Value::from(format!(in alloc; "{part}")?))?;
    }
    Ok(Value::from(list))
}

// A command with its place, its counts and its parts.
fn done_value(alloc: Global, files: &[FileLine], done: &Done) -> Result<Value, AllocError>
    ensures { IfOk result (λ v. view v ≡ done_json (names_in files.now) done.now) }
{
    let io = io_value(alloc, done.io)?;
    let parts = parts_value(alloc, files, done.parts.as_slice())?;
    let command = CommandText { files, done };
    let text = Value::from(format!(in alloc; "{command}")?);
    json!(in alloc; {
        "client": done.place.client,
        "command": done.place.command,
        "io": io,
        "parts": parts,
        "phase": done.place.phase,
        "text": text
    })
}

// The commands, in order.
fn commands_value(alloc: Global, files: &[FileLine], commands: &[Done]) -> Result<Value, AllocError>
    ensures { IfOk result
        (λ v. view v ≡ array (items_of (map (done_json (names_in files.now)) commands.now))) }
{
    let mut list = Vec::new(alloc);
    for done in commands {
        list.push(done_value(alloc, files, done)?)?;
    }
    Ok(Value::from(list))
}

// Lines, in order.
fn lines_value(alloc: Global, lines: &[String]) -> Result<Value, AllocError>
    ensures { IfOk result (λ v. view v ≡ texts_json (map string_bytes lines.now)) }
{
    let mut list = Vec::new(alloc);
    for line in lines {
        list.push(Value::from(format!(in alloc; "{line}")?))?;
    }
    Ok(Value::from(list))
}

// ---- the report

// The report.
fn report_value(
    alloc: Global,
    script: &Script,
    commands: &[Done],
    files: &[Plain],
) -> Result<Value, AllocError>
    requires few { length commands.now ≤ 4096 }
    requires small { All (λ (d : Done). IsSmall d.io) commands.now }
    ensures { IfOk result (λ v. view v ≡ report_json script.now commands.now files.now) }
{
    let total = io_value(alloc, took(alloc, commands)?)?;
    let converts = io_value(alloc, conversions_took(alloc, commands)?)?;
    let done = commands_value(alloc, script.files(), commands)?;
    let dumps = lines_of(alloc, script.files(), files, script.dumps())?;
    let dumps = lines_value(alloc, &dumps)?;
    json!(in alloc; {
        "commands": done,
        "converts": converts,
        "dumps": dumps,
        "total": total
    })
}

// A value without floats as one line: compact, and with a line's end.
fn line_of(alloc: Global, value: &Value) -> Result<String, AllocError>
    requires { has_float (view value.now) ≡ false }
    ensures { IfOk result (λ text. string_bytes text ≡ ended (compact_text (view value.now))) }
{
    let mut text = value.to_string(alloc)?;
    text.push('\n')?;
    Ok(text)
}

/// The report's text as JSON. Fails only for want of memory.
pub fn json_of(
    alloc: Global,
    script: &Script,
    commands: &[Done],
    files: &[Plain],
) -> Result<String, AllocError>
    requires few { length commands.now ≤ 4096 }
    requires small { All (λ (d : Done). IsSmall d.io) commands.now }
    ensures { IfOk result
        (λ text. string_bytes text ≡ json_text script.now commands.now files.now) }
{
    let report = report_value(alloc, script, commands, files)?;
    line_of(alloc, &report)
}
