//! The one line that is written where no report is.

ghost use Rattle.std.specs.Prelude.{◌≡◌, ◌++◌, IfOk, OnOk};
ghost use Rattle.std.specs.List.{flat_map};
ghost use Rattle.std.specs.String.{string_bytes};
ghost use Rattle.mf_shape.specs.Chain.{IsShape};
ghost use Rattle.mf_report.specs.Verdicts.{tolerance_text, family_line, accepted_text};
ghost use Rattle.mf_report.specs.Verdicts.{refused_text, too_long, words_refusal};

use mf_script::{Script, ScriptFault};
use mf_shape::Shape;
use std::alloc::{AllocError, Global};
use std::fmt;

// The tolerance of each stage behind a space, stage 0 first.
fn write_tolerances(line: &mut String, shape: &Shape) -> Result<(), AllocError>
    requires { IsShape shape.now }
    ensures { OnOk result (string_bytes line.new
        ≡ string_bytes line.old ++ flat_map tolerance_text shape.now.stages) }
{
    for g in 0..shape.stages().len() {
        let tolerance = shape.tolerance(g as u32);
        write!(line, " {tolerance}")?;
    }
    Ok(())
}

// The line of an accepted family of this shape.
#[tactic(auto, using(std::proofs::lemmas::List::append_assoc))]
fn family_line(alloc: Global, shape: &Shape) -> Result<String, AllocError>
    ensures { IfOk result (λ line. string_bytes line ≡ family_line shape.now.stages) }
{
    let stages = shape.stages().len();
    let mut line = format!(in alloc; "family ok stages {stages} tolerance")?;
    write_tolerances(&mut line, shape)?;
    line.push('\n')?;
    Ok(line)
}

/// The lines of a script's families, one a family: `family ok stages Q tolerance T ..`, where Q is
/// the number of its stages, and each T how many lost names of one stripe a stage bears, stage 0
/// first. Fails only for want of memory.
pub fn accepted_lines(alloc: Global, script: &Script) -> Result<Vec<u8>, AllocError>
    ensures { IfOk result (λ lines. lines.items ≡ accepted_text script.now.families) }
{
    let mut lines = String::new(alloc);
    for i in 0..script.families() {
        let line = family_line(alloc, script.family(i).shape())?;
        lines.push_str(&line)?;
    }
    Ok(lines.into_bytes())
}

// A refusal, without its line's end.
#[derive(Clone, Copy)]
struct Refusal<'a> {
    fault: &'a ScriptFault,
}

impl fmt::Display for Refusal<'_> {
    ghost use Rattle.std.specs.Prelude.{Some, ◌++◌, codes};
    ghost use Rattle.mf_lines.specs.FaultTexts.{kind_text};
    ghost use Rattle.mf_report.specs.Lines.{spaced};

    ghost output = { λ refusal. Some (codes "refused line" ++ spaced refusal.fault.now.line
        ++ codes " " ++ kind_text refusal.fault.now.kind) };

    fn fmt<W: fmt::Write>(&self, f: &mut fmt::Formatter<W>) -> fmt::Result {
        let line = self.fault.line;
        let kind = &self.fault.kind;
        write!(f, "refused line {line} {kind}")
    }
}

/// The line of a refused script: `refused line L `, and the text of the fault. Fails only for want
/// of memory.
#[tactic(auto, using(std::proofs::lemmas::List::append_assoc))]
pub fn refused_line(alloc: Global, fault: &ScriptFault) -> Result<Vec<u8>, AllocError>
    ensures { IfOk result (λ line. line.items ≡ refused_text fault.now) }
{
    let refusal = Refusal { fault };
    Ok(format!(in alloc; "{refusal}\n")?.into_bytes())
}

/// The line that refuses a text with too many bytes: `refused line 0 limit text`.
pub fn too_long_line() -> &'static [u8]
    ensures { result.now ≡ refused_text too_long }
{
    b"refused line 0 limit text\n"
}

/// The line that refuses the words of a call: `refused words`.
pub fn words_line() -> &'static [u8]
    ensures { result.now ≡ words_refusal }
{
    b"refused words\n"
}
