//! The line that sums up the run of a seed's script.

ghost use Rattle.std.specs.Prelude.{◌≡◌, ◌≤◌, ◌++◌, length, map, IfOk, OnOk};
ghost use Rattle.std.specs.List.{All, flat_map};
ghost use Rattle.std.specs.String.{string_bytes};
ghost use Rattle.mf_client.specs.declared.done.Part.{Part};
ghost use Rattle.mf_client.specs.declared.done.Done.{Done};
ghost use Rattle.mf_client.specs.Runs.{IsSmall};
ghost use Rattle.mf_report.specs.Report.{report_text};
ghost use Rattle.mf_report.specs.Summary.{had_bytes, had_lost, restored_by, is_converted};
ghost use Rattle.mf_report.specs.Summary.{changes_of, reads, losses, conversions, repairs};
ghost use Rattle.mf_report.specs.Summary.{counts_text, summary_text};

use crate::dumps::digest_of;
use crate::writing::text_of;
use mf_client::{Done, Outcome, Part};
use mf_convert::Change;
use mf_plain::Plain;
use mf_read::ReadOutcome;
use mf_repair::RepairOutcome;
use mf_script::Script;
use mf_text::Hex;
use std::alloc::{AllocError, Global};
use std::fmt;

// Whether a read had its file's bytes.
fn had_bytes(outcome: &Outcome) -> bool
    ensures { result ≡ had_bytes outcome.now }
{
    match outcome {
        Outcome::Bytes { .. } => true,
        _ => false,
    }
}

// Whether a read found more names lost than its generation bears.
fn had_lost(outcome: &Outcome) -> bool
    ensures { result ≡ had_lost outcome.now }
{
    match outcome {
        Outcome::Refused(ReadOutcome::DataLost { .. }) => true,
        _ => false,
    }
}

// How many names a repair restored.
fn restored_by(outcome: &Outcome) -> u32
    ensures { result ≡ restored_by outcome.now }
{
    match outcome {
        Outcome::Repair(RepairOutcome::Repaired { restored, .. }) => *restored,
        _ => 0,
    }
}

// Whether a generation was published.
fn is_converted(change: &Change) -> bool
    ensures { result ≡ is_converted change.now }
{
    match change {
        Change::Converted { .. } => true,
        _ => false,
    }
}

// How many of the commands are reads that had bytes.
fn reads(done: &[Done]) -> usize
    ensures { result ≡ reads done.now }
{
    let mut count = 0;
    for command in done {
        if had_bytes(&command.outcome) {
            count += 1;
        }
    }
    count
}

// How many are reads that lost data.
fn losses(done: &[Done]) -> usize
    ensures { result ≡ losses done.now }
{
    let mut count = 0;
    for command in done {
        if had_lost(&command.outcome) {
            count += 1;
        }
    }
    count
}

// How many names were restored.
fn repairs(done: &[Done]) -> u64
    requires { length done.now ≤ 4096 }
    ensures { result ≡ repairs done.now }
{
    let mut sum = 0;
    for command in done {
        sum += u64::from(restored_by(&command.outcome));
    }
    sum
}

// The changes of parts.
fn add_parts(changes: &mut Vec<Change>, parts: &[Part]) -> Result<(), AllocError>
    ensures { OnOk result (changes.new.items
        ≡ changes.old.items ++ map (λ (part : Part). part.change) parts.now) }
{
    for part in parts {
        changes.push(part.change)?;
    }
    Ok(())
}

// The changes of a command: the one that it made itself, and those of its parts.
#[tactic(auto, using(std::proofs::lemmas::List::append_assoc))]
fn add_changes(changes: &mut Vec<Change>, done: &Done) -> Result<(), AllocError>
    ensures { OnOk result (changes.new.items ≡ changes.old.items ++ changes_of done.now) }
{
    if let Outcome::Change(change) = &done.outcome {
        changes.push(*change)?;
    }
    add_parts(changes, done.parts.as_slice())
}

// The changes of the commands.
fn changes_of(alloc: Global, done: &[Done]) -> Result<Vec<Change>, AllocError>
    ensures { IfOk result (λ changes. changes.items ≡ flat_map changes_of done.now) }
{
    let mut changes = Vec::new(alloc);
    for command in done {
        add_changes(&mut changes, command)?;
    }
    Ok(changes)
}

// How many generations were published.
fn conversions(alloc: Global, done: &[Done]) -> Result<usize, AllocError>
    ensures { IfOk result (λ n. n ≡ conversions done.now) }
{
    let changes = changes_of(alloc, done)?;
    Ok(
        changes
            .iter()
            .filter(|change| is_converted(*change))
            .count(),
    )
}

// The numbers of reads, changes and repairs.
#[derive(Clone, Copy)]
struct Counts {
    reads: usize,
    lost: usize,
    converted: usize,
    repaired: u64,
}

impl fmt::Display for Counts {
    ghost use Rattle.std.specs.Prelude.{Some, ◌++◌, codes, decimal};

    ghost output = { λ counts. Some
        ((codes " reads " ++ decimal counts.reads ++ codes " lost " ++ decimal counts.lost)
        ++ (codes " converted " ++ decimal counts.converted
        ++ codes " repaired " ++ decimal counts.repaired)) };

    fn fmt<W: fmt::Write>(&self, f: &mut fmt::Formatter<W>) -> fmt::Result {
        let reads = self.reads;
        let lost = self.lost;
        let converted = self.converted;
        let repaired = self.repaired;
        write!(f, " reads {reads} lost {lost}")?;
        write!(f, " converted {converted} repaired {repaired}")
    }
}

// Their text.
#[tactic(auto, unfolding(crate::specs::Summary::counts_text))]
fn counts_line(alloc: Global, done: &[Done]) -> Result<String, AllocError>
    requires { length done.now ≤ 4096 }
    ensures { IfOk result (λ text. string_bytes text ≡ counts_text done.now) }
{
    let counts = Counts {
        reads: reads(done),
        lost: losses(done),
        converted: conversions(alloc, done)?,
        repaired: repairs(done),
    };
    format!(in alloc; "{counts}")
}

// The line, where the report has this text.
#[tactic(auto, unfolding(crate::specs::Summary::digest_text), using(std::proofs::lemmas::List::append_assoc))]
fn line(alloc: Global, n: u64, done: &[Done], report: &[u8]) -> Result<Vec<u8>, AllocError>
    requires { length done.now ≤ 4096 }
    ensures { IfOk result (λ line. line.items ≡ summary_text n done.now report.now) }
{
    let commands = done.len();
    let counts = counts_line(alloc, done)?;
    let digest = digest_of(report);
    let digest = Hex { bytes: &digest };
    let text = format!(in alloc; "seed {n} commands {commands}{counts} report {digest}\n")?;
    Ok(text.into_bytes())
}

/// The line of seed n, where these commands of its script were done and left these files: the
/// seed; how many commands were done, how many reads had bytes, how many found too much lost, how
/// many generations were published, and how many names were restored; and the SHA-256 of the
/// report. Fails only where memory runs out.
pub fn summary_line(
    alloc: Global,
    n: u64,
    script: &Script,
    done: &[Done],
    files: &[Plain],
) -> Result<Vec<u8>, AllocError>
    requires few { length done.now ≤ 4096 }
    requires small { All (λ (d : Done). IsSmall d.io) done.now }
    ensures { IfOk result (λ line. line.items
        ≡ summary_text n done.now (report_text script.now done.now files.now)) }
{
    let report = text_of(alloc, script, done, files)?;
    line(alloc, n, done, report.as_bytes())
}
