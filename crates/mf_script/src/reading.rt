//! Scripts, read from their texts.

ghost use Rattle.std.specs.Prelude.{◌≡◌, ◌≢◌, ◌<◌, ◌∷◌, ◌^◌, [], length, codes, IfOk, IfErr};
ghost use Rattle.mf_text.specs.Lines.{lines_of};
ghost use Rattle.mf_lines.specs.Meaning as meaning;
ghost use Rattle.mf_script.specs.Texts.{end_fault};
ghost use Rattle.mf_script.specs.Scripts.{IsScript};
ghost use Rattle.mf_script.specs.Faults.{shape_kind, family_kind, IsScriptFault};
ghost use Rattle.mf_script.specs.Passes.{Reads, read_lines, read_text};

use crate::script::{NamedFamily, Script};
use mf_check::{Family, FamilyFault, check};
use mf_lines::{Bytes, Draft, Kind, LimitName, LineWord, ScriptFault};
use mf_shape::{Shape, ShapeFault};
use mf_text::{TEXT_LIMIT, first_line};
use std::alloc::{AllocError, Global};

// What is wrong with a text whose last line begins with this word.
fn end_fault(last: Option<LineWord>) -> Option<Kind>
    ensures { result ≡ end_fault last }
{
    match last {
        None => Some(Kind::Header),
        Some(LineWord::End) => None,
        Some(_) => Some(Kind::Order),
    }
}

// What the lines of a text add up to, or the fault of the first faulty one.
fn read_lines(alloc: Global, text: &[u8]) -> Result<Draft, ScriptFault>
    requires { length text.now < 2 ^ 31 }
    ensures { Reads result (read_lines meaning.so_before (lines_of text.now)) }
{
    let mut draft = Draft::new(alloc);
    let mut rest = text;
    while !rest.is_empty() {
        let (len, whole) = first_line(rest);
        let line = draft.lines + 1;
        if let Err(kind) = draft.add_line(alloc, &rest[..len]) {
            return Err(ScriptFault { line, kind });
        }
        rest = &rest[whole..];
    }
    let line = draft.lines + 1;
    match end_fault(draft.last) {
        None => Ok(draft),
        Some(kind) => Err(ScriptFault { line, kind }),
    }
}

// The same of a text that may be too long.
#[tactic(auto, unfolding(crate::specs::Passes::read_text))]
fn read_text(alloc: Global, text: &[u8]) -> Result<Draft, ScriptFault>
    ensures { Reads result (read_text text.now) }
{
    if text.len() > TEXT_LIMIT {
        return Err(ScriptFault {
            line: 0,
            kind: Kind::Limit(LimitName::Text),
        });
    }
    read_lines(alloc, text)
}

// The fault of the stages, at this line; want of memory is the script's own kind.
fn shape_fault(line: u32, fault: ShapeFault) -> ScriptFault
    ensures { result ≡ record { line = line; kind = shape_kind fault } }
{
    let kind = match fault {
        ShapeFault::Memory => Kind::Memory,
        fault => Kind::Shape(fault),
    };
    ScriptFault { line, kind }
}

// The fault of the points, at this line; want of memory is the script's own kind.
fn family_fault(line: u32, fault: FamilyFault) -> ScriptFault
    ensures { result ≡ record { line = line; kind = family_kind fault } }
{
    let kind = match fault {
        FamilyFault::Memory => Kind::Memory,
        fault => Kind::Family(fault),
    };
    ScriptFault { line, kind }
}

// The families of a script whose one family is this.
fn one_family(alloc: Global, family: Family) -> Result<Vec<NamedFamily>, AllocError>
    ensures { IfOk result (λ v. v.items ≡ record { name = codes "main"; family = family } ∷ []) }
{
    let name = Bytes::new(Vec::from_slice(alloc, b"main")?);
    let mut families = Vec::new(alloc);
    families.push(NamedFamily { name, family })?;
    Ok(families)
}

/// The script that a text is.
///
/// # Errors
/// `Limit(Text)` at line 0 of a text with more than 1,048,576 bytes. Else the fault of the first
/// line that has one, in the order of the kinds, where a text that ends before `end` has its fault
/// in the line behind its last. Where no line has one, the fault of the stages, and else that of
/// the points, both at the first stage's line. `Memory` where memory ran out; its line says
/// nothing. Want of memory aside, a text that is refused is no script.
pub fn read_script(alloc: Global, text: &[u8]) -> Result<Script, ScriptFault>
    ensures script { IfOk result (IsScript text.now) }
    ensures fault { IfErr result (IsScriptFault text.now) }
    ensures none { IfErr result
        (λ fault. fault.kind ≢ Kind.Memory → (s : meaning.Script) → IsScript text.now s → ⊥) }
{
    let draft = match read_text(alloc, text) {
        Ok(draft) => draft,
        Err(fault) => return Err(fault),
    };
    let line = draft.stage_line;
    let shape = match Shape::new(alloc, &draft.stages, draft.servers) {
        Ok(shape) => shape,
        Err(fault) => return Err(shape_fault(line, fault)),
    };
    let family = match check(alloc, &shape, draft.points.as_slice()) {
        Ok(family) => family,
        Err(fault) => return Err(family_fault(line, fault)),
    };
    let Ok(families) = one_family(alloc, family) else {
        let kind = Kind::Memory;
        return Err(ScriptFault { line, kind });
    };
    Ok(Script {
        servers: draft.servers,
        chunk: draft.chunk,
        families,
        policy: draft.policy,
        files: draft.files,
        file_families: draft.file_families,
        items: draft.items,
        dumps: draft.dumps,
    })
}
