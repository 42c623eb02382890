//! The lines of the dumps of files at rest.

ghost use Rattle.std.specs.Prelude.{◌≡◌, ◌++◌, ◌<◌, length, map, slice_index_or, IfOk, OnOk};
ghost use Rattle.std.specs.List.{range_with_len, slice_get};
ghost use Rattle.std.specs.String.{string_bytes};
ghost use Rattle.sha2.specs.Sha256.{sha256};
ghost use Rattle.mf_places.specs.Names.{count_of};
ghost use Rattle.mf_vault.specs.declared.answers.Rest.TheVariants as rest;
ghost use Rattle.mf_lines.specs.Meaning.{names_in};
ghost use Rattle.mf_lines.specs.LineTexts.{name_at};
ghost use Rattle.mf_report.specs.Dumps.{generation_text, kept_text, chunk_text};
ghost use Rattle.mf_report.specs.Dumps.{dump_lines, lines_if, dumps_lines};

use mf_places::Name;
use mf_plain::Plain;
use mf_script::{FileLine, name_of};
use mf_text::Hex;
use mf_vault::Rest;
use sha2::{Digest, Sha256};
use std::alloc::{AllocError, Global};
use std::fmt;

/// The SHA-256 of the bytes.
pub fn digest_of(bytes: &[u8]) -> [u8; 32]
    ensures { result ≡ sha256 bytes.now }
{
    let mut hasher = Sha256::new();
    hasher.update(bytes);
    hasher.finalize()
}

// What is published, of so many stages.
#[derive(Clone, Copy)]
struct Published {
    stages: u32,
    number: u32,
}

impl fmt::Display for Published {
    ghost use Rattle.std.specs.Prelude.{Some};
    ghost use Rattle.mf_report.specs.Dumps.{published_text};

    ghost output = { λ published. Some (published_text published.stages published.number) };

    fn fmt<W: fmt::Write>(&self, f: &mut fmt::Formatter<W>) -> fmt::Result {
        let number = self.number;
        if number == 0 {
            write!(f, " none")
        } else if u64::from(number) == u64::from(self.stages) + 1 {
            write!(f, " removed")
        } else {
            let g = number - 1;
            write!(f, " {g}")
        }
    }
}

// The state of a chunk.
#[derive(Clone, Copy)]
struct State<'a> {
    rest: &'a Rest,
}

impl fmt::Display for State<'_> {
    ghost use Rattle.std.specs.Prelude.{Some};
    ghost use Rattle.mf_report.specs.Dumps.{rest_text};

    ghost output = { λ state. Some (rest_text state.rest.now) };

    fn fmt<W: fmt::Write>(&self, f: &mut fmt::Formatter<W>) -> fmt::Result {
        match self.rest {
            Rest::Unborn => write!(f, "unborn"),
            Rest::Here(chunk) => {
                let digest = digest_of(chunk.bytes());
                let digest = Hex { bytes: &digest };
                write!(f, "here {digest}")
            }
            Rest::Lost(line) => write!(f, "lost {line}"),
            Rest::Dropped => write!(f, "dropped"),
        }
    }
}

// The first line of a file's dump.
#[derive(Clone, Copy)]
struct Head<'a> {
    name: &'a str,
    plain: &'a Plain,
}

impl fmt::Display for Head<'_> {
    ghost use Rattle.std.specs.Prelude.{Some};
    ghost use Rattle.mf_report.specs.Dumps.{head_text};

    ghost output = { λ head. Some (head_text head.name.now head.plain.now) };

    fn fmt<W: fmt::Write>(&self, f: &mut fmt::Formatter<W>) -> fmt::Result {
        let name = self.name;
        let published = Published {
            stages: self.plain.book().stages(),
            number: self.plain.published(),
        };
        let length = self.plain.book().length();
        write!(f, "dump {name} published{published} length {length}")
    }
}

// Whether a generation is closed, in a word.
fn kept_word(closed: bool) -> &'static str
    ensures { result.now ≡ kept_text closed }
{
    if closed { " closed" } else { " kept" }
}

// The line of a generation.
fn generation_line(alloc: Global, plain: &Plain, g: u32) -> Result<String, AllocError>
    requires { g < length plain.now.book.shape.stages }
    ensures { IfOk result (λ line. string_bytes line ≡ generation_text plain.now g) }
{
    let kept = kept_word(plain.closed(g));
    format!(in alloc; "gen {g}{kept}")
}

// The state of name number n.
fn rest_of(plain: &Plain, n: u32) -> Result<Rest, AllocError>
    requires { n < count_of plain.now.book }
    ensures { IfOk result (λ r. r ≡ slice_index_or plain.now.names n rest.Unborn) }
{
    plain.rest(plain.book().name(n))
}

// The line of a name.
#[derive(Clone, Copy)]
struct ChunkLine<'a> {
    name: Name,
    server: u32,
    rest: &'a Rest,
}

impl fmt::Display for ChunkLine<'_> {
    ghost use Rattle.std.specs.Prelude.{Some, ◌++◌, codes};
    ghost use Rattle.mf_places.specs.Texts.{name_text};
    ghost use Rattle.mf_report.specs.Lines.{spaced};
    ghost use Rattle.mf_report.specs.Dumps.{rest_text};

    ghost output = { λ line. Some (codes "chunk " ++ name_text line.name ++ codes " server"
        ++ spaced line.server ++ codes " " ++ rest_text line.rest.now) };

    fn fmt<W: fmt::Write>(&self, f: &mut fmt::Formatter<W>) -> fmt::Result {
        let name = self.name;
        let server = self.server;
        let state = State { rest: self.rest };
        write!(f, "chunk {name} server {server} {state}")
    }
}

// The line of name number n.
fn chunk_line(alloc: Global, plain: &Plain, n: u32) -> Result<String, AllocError>
    requires { n < count_of plain.now.book }
    ensures { IfOk result (λ line. string_bytes line ≡ chunk_text plain.now n) }
{
    let name = plain.book().name(n);
    let server = plain.book().server(name);
    let rest = &rest_of(plain, n)?;
    let line = ChunkLine { name, server, rest };
    format!(in alloc; "{line}")
}

// Adds the lines of the generations.
fn add_generations(alloc: Global, lines: &mut Vec<String>, plain: &Plain) -> Result<(), AllocError>
    ensures { OnOk result (map string_bytes lines.new.items ≡ map string_bytes lines.old.items
        ++ map (generation_text plain.now)
        (range_with_len 0 (length plain.now.book.shape.stages))) }
{
    for g in 0..plain.book().stages() {
        lines.push(generation_line(alloc, plain, g)?)?;
    }
    Ok(())
}

// Adds the lines of the names.
fn add_chunks(alloc: Global, lines: &mut Vec<String>, plain: &Plain) -> Result<(), AllocError>
    ensures { OnOk result (map string_bytes lines.new.items ≡ map string_bytes lines.old.items
        ++ map (chunk_text plain.now) (range_with_len 0 (count_of plain.now.book))) }
{
    for n in 0..plain.book().count() {
        lines.push(chunk_line(alloc, plain, n)?)?;
    }
    Ok(())
}

// Adds the dump of a file of this name.
fn add_dump(
    alloc: Global,
    lines: &mut Vec<String>,
    name: &str,
    plain: &Plain,
) -> Result<(), AllocError>
    ensures { OnOk result (map string_bytes lines.new.items
        ≡ map string_bytes lines.old.items ++ dump_lines name.now plain.now) }
{
    let head = Head { name, plain };
    lines.push(format!(in alloc; "{head}")?)?;
    add_generations(alloc, lines, plain)?;
    add_chunks(alloc, lines, plain)
}

// Adds the dump of file number `file`, if there is one.
fn add_dump_of(
    alloc: Global,
    lines: &mut Vec<String>,
    names: &[FileLine],
    files: &[Plain],
    file: u32,
) -> Result<(), AllocError>
    ensures { OnOk result (map string_bytes lines.new.items ≡ map string_bytes lines.old.items
        ++ lines_if (name_at (names_in names.now) file) (slice_get files.now file)) }
{
    match files.get(file as usize) {
        Some(plain) => add_dump(alloc, lines, name_of(names, file), plain),
        None => Ok(()),
    }
}

/// The lines of the dumps of the files of these numbers, in order. Fails only for want of memory.
pub fn lines_of(
    alloc: Global,
    names: &[FileLine],
    files: &[Plain],
    dumps: &[u32],
) -> Result<Vec<String>, AllocError>
    ensures { IfOk result (λ lines. map string_bytes lines.items
        ≡ dumps_lines (names_in names.now) files.now dumps.now) }
{
    let mut lines = Vec::new(alloc);
    for file in dumps {
        add_dump_of(alloc, &mut lines, names, files, *file)?;
    }
    Ok(lines)
}
