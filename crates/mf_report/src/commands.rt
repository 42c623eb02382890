//! Commands that were done, written.

ghost use Rattle.std.specs.Prelude.{◌≡◌, ◌++◌, OnOk};
ghost use Rattle.std.specs.List.{flat_map};
ghost use Rattle.std.specs.String.{string_bytes};
ghost use Rattle.mf_lines.specs.Meaning.{names_in};
ghost use Rattle.mf_report.specs.Lines.{ended};
ghost use Rattle.mf_report.specs.Commands.{converts, part_line, done_text};

use mf_client::{Done, Part, Place};
use mf_script::{Act, ActText, FileLine, name_of};
use std::alloc::AllocError;
use std::fmt;

/// Whether the operations of a command count among those of conversions.
pub fn converts(act: &Act) -> bool
    ensures { result ≡ converts act.now }
{
    match act {
        Act::Convert { .. } | Act::Sweep => true,
        _ => false,
    }
}

/// A command on these files, and what came of it.
#[derive(Clone, Copy)]
pub struct CommandText<'a> {
    pub files: &'a [FileLine],
    pub done: &'a Done,
}

impl fmt::Display for CommandText<'_> {
    ghost use Rattle.std.specs.Prelude.{Some};
    ghost use Rattle.mf_lines.specs.Meaning.{names_in};
    ghost use Rattle.mf_report.specs.Commands.{command_text};

    ghost output = { λ text. Some (command_text (names_in text.files.now) text.done.now) };

    fn fmt<W: fmt::Write>(&self, f: &mut fmt::Formatter<W>) -> fmt::Result {
        let act = ActText {
            files: self.files,
            act: self.done.act,
        };
        let outcome = &self.done.outcome;
        write!(f, "{act}: {outcome}")
    }
}

/// A part of a command: one of these files, and what came of it.
#[derive(Clone, Copy)]
pub struct PartText<'a> {
    pub files: &'a [FileLine],
    pub part: Part,
}

impl fmt::Display for PartText<'_> {
    ghost use Rattle.std.specs.Prelude.{Some};
    ghost use Rattle.mf_lines.specs.Meaning.{names_in};
    ghost use Rattle.mf_report.specs.Commands.{part_text};

    ghost output = { λ text. Some (part_text (names_in text.files.now) text.part) };

    fn fmt<W: fmt::Write>(&self, f: &mut fmt::Formatter<W>) -> fmt::Result {
        let name = name_of(self.files, self.part.file);
        let change = self.part.change;
        write!(f, "{name} {change}")
    }
}

// The lines of parts.
fn write_parts(
    out: &mut String,
    files: &[FileLine],
    place: Place,
    parts: &[Part],
) -> Result<(), AllocError>
    ensures { OnOk result (string_bytes out.new ≡ string_bytes out.old
        ++ flat_map (λ part. ended (part_line (names_in files.now) place part)) parts.now) }
{
    for part in parts {
        let part = PartText { files, part: *part };
        writeln!(out, "{place} {part}")?;
    }
    Ok(())
}

// The lines of a command.
#[tactic(auto, using(std::proofs::lemmas::List::append_assoc))]
fn write_done(out: &mut String, files: &[FileLine], done: &Done) -> Result<(), AllocError>
    ensures { OnOk result (string_bytes out.new
        ≡ string_bytes out.old ++ done_text (names_in files.now) done.now) }
{
    let place = done.place;
    let command = CommandText { files, done };
    let io = done.io;
    writeln!(out, "{place} {command} {io}")?;
    write_parts(out, files, place, done.parts.as_slice())
}

/// Writes the lines of the commands, in order. Fails only for want of memory.
pub fn write_commands(
    out: &mut String,
    files: &[FileLine],
    commands: &[Done],
) -> Result<(), AllocError>
    ensures { OnOk result (string_bytes out.new ≡ string_bytes out.old
        ++ flat_map (done_text (names_in files.now)) commands.now) }
{
    for done in commands {
        write_done(out, files, done)?;
    }
    Ok(())
}
