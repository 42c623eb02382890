//! What a line says, or its fault.

ghost use Rattle.std.specs.Prelude.{◌≡◌, ◌≤◌, length, map, false, IfOk, IfErr, Ok, Err};
ghost use Rattle.std.specs.Prelude.{IfSome, IfNone, Some, None};
ghost use Rattle.std.specs.List.{list_any};
ghost use Rattle.mf_text.specs.Lines.{is_clean};
ghost use Rattle.mf_lines.specs.Words.{behind};
ghost use Rattle.mf_lines.specs.Meaning.{verb_of, file_in, first_word};
ghost use Rattle.mf_lines.specs.Lines.{Says, SaysList, within, is_above, numbers_in, may_follow};
ghost use Rattle.mf_lines.specs.Lines.{servers_form, chunk_form, points_in, points_form};
ghost use Rattle.mf_lines.specs.Lines.{stage_form, sweep_operand};
ghost use Rattle.mf_lines.specs.Lines.{phase_form, client_form, file_operand, act_in, dump_form};
ghost use Rattle.mf_lines.specs.Lines.{form_in};
ghost use Rattle.mf_lines.specs.Lines.{command_fits, knows_servers, lacks_server, server_operand};
ghost use Rattle.mf_lines.specs.Lines.{has_twice, away_words, servers_in, away_operands};
ghost use Rattle.mf_lines.specs.Lines.{stop_words, stop_operands, convert_in};
ghost use Rattle.mf_lines.specs.Lines.{first_form, form_at};
ghost use Rattle.mf_lines.specs.Drafts.{so_in, IsDraft};

use crate::ages::{policy_line, tick_line};
use crate::draft::Draft;
use crate::files::file_line;
use crate::parts::{Act, Bytes, FileLine, Kind, LimitName};
use crate::words::{
    LineWord, MAX_NUMBER, Verb, end_words, last_three_words, last_word, line_word, next_word,
    number, small, spelled, split_word,
};
use indexmap::IndexSet;
use mf_places::{MAX_CHUNK, Servers};
use mf_policy::Policy;
use mf_shape::Stage;
use std::alloc::{AllocError, Global};

const MAX_POINTS: usize = 4;

const MAX_POINT: u64 = 255;

const MAX_PHASES: u32 = 64;

const MAX_CLIENTS: u32 = 8;

const MAX_COMMANDS: u32 = 1_024;

/// What a line says: its form.
#[derive(Drop)]
pub enum Form {
    Morph,
    Servers(u32),
    Chunk(u32),
    Points(Bytes),
    Stage(Stage),
    Policy(Policy),
    File(FileLine),
    Tick(u64),
    Phase,
    Client,
    Command(Act),
    Dump(u32),
    End,
}

impl Act {
    /// The word of the command.
    pub fn verb(self) -> Verb
        ensures { result ≡ verb_of self }
    {
        match self {
            Act::Create(_) => Verb::Create,
            Act::Read { .. } => Verb::Read,
            Act::Hold(_) => Verb::Hold,
            Act::Release(_) => Verb::Release,
            Act::Repair { .. } => Verb::Repair,
            Act::Convert { .. } => Verb::Convert,
            Act::Reclaim(_) => Verb::Reclaim,
            Act::Remove(_) => Verb::Remove,
            Act::Lose(_) => Verb::Lose,
            Act::Sweep => Verb::Sweep,
        }
    }

    /// The file that it is on, if it is on one.
    pub fn file(self) -> Option<u32>
        ensures { result ≡ file_in self }
    {
        match self {
            Act::Create(file)
            | Act::Read { file, .. }
            | Act::Hold(file)
            | Act::Release(file)
            | Act::Repair { file, .. }
            | Act::Convert { file, .. }
            | Act::Reclaim(file)
            | Act::Remove(file) => Some(file),
            Act::Lose(_) | Act::Sweep => None,
        }
    }
}

impl Form {
    /// The word that the line begins with.
    pub fn word(&self) -> LineWord
        ensures { result ≡ first_word self.now }
    {
        match self {
            Form::Morph => LineWord::Morph,
            Form::Servers(_) => LineWord::Servers,
            Form::Chunk(_) => LineWord::Chunk,
            Form::Points(_) => LineWord::Points,
            Form::Stage(_) => LineWord::Stage,
            Form::Policy(_) => LineWord::Policy,
            Form::File(_) => LineWord::File,
            Form::Tick(_) => LineWord::Tick,
            Form::Phase => LineWord::Phase,
            Form::Client => LineWord::Client,
            Form::Command(act) => LineWord::Command(act.verb()),
            Form::Dump(_) => LineWord::Dump,
            Form::End => LineWord::End,
        }
    }
}

/// Nothing, where no limit is passed, and else the fault of the first that is.
pub fn within(limits: &[(bool, LimitName)]) -> Result<(), Kind>
    ensures { result ≡ within limits.now }
{
    for (passed, name) in limits {
        if *passed {
            return Err(Kind::Limit(*name));
        }
    }
    Ok(())
}

fn servers_line(rest: Option<&[u8]>) -> Result<Form, Kind>
    ensures { result ≡ servers_form (behind rest.entry) }
{
    let servers = number(last_word(rest)?)?;
    Ok(Form::Servers(servers))
}

fn chunk_line(rest: Option<&[u8]>) -> Result<Form, Kind>
    ensures { result ≡ chunk_form (behind rest.entry) }
{
    let size = number(last_word(rest)?)?;
    within(&[(size == 0 || size > MAX_CHUNK, LimitName::Chunk)])?;
    Ok(Form::Chunk(size))
}

// The numbers that the words spell.
pub(crate) fn numbers_of(alloc: Global, rest: Option<&[u8]>) -> Result<Vec<u64>, Kind>
    ensures { SaysList result (numbers_in (behind rest.entry)) }
{
    let mut numbers = Vec::new(alloc);
    let mut left = rest;
    while let Some(line) = left {
        let (word, after) = split_word(line);
        match spelled(word) {
            Ok(n) => numbers.push(n)?,
            Err(kind) => return Err(kind),
        }
        left = after;
    }
    Ok(numbers)
}

// Whether one of the numbers is above `most`.
pub(crate) fn any_above(numbers: &[u64], most: u64) -> bool
    ensures { result ≡ list_any (is_above most) numbers.now }
{
    numbers.iter().any(|n| *n > most)
}

// Numbers that are bytes.
fn bytes_of(alloc: Global, numbers: &[u64]) -> Result<Bytes, AllocError>
    requires { list_any (is_above 255) numbers.now ≡ false }
    ensures { IfOk result (λ bytes. bytes ≡ numbers.now) }
{
    let mut bytes = Vec::new(alloc);
    for n in numbers {
        bytes.push(*n as u8)?;
    }
    Ok(Bytes::new(bytes))
}

// Numbers that are one to four points.
fn points_of(alloc: Global, numbers: &[u64]) -> Result<Form, Kind>
    ensures { Says result (points_in numbers.now) }
{
    within(&[
        (any_above(numbers, MAX_NUMBER), LimitName::Number),
        (any_above(numbers, MAX_POINT), LimitName::Point),
        (numbers.len() > MAX_POINTS, LimitName::Points),
    ])?;
    Ok(Form::Points(bytes_of(alloc, numbers)?))
}

fn points_line(alloc: Global, rest: Option<&[u8]>) -> Result<Form, Kind>
    ensures { Says result (points_form (behind rest.entry)) }
{
    if rest.is_none() {
        return Err(Kind::Arity);
    }
    let numbers = numbers_of(alloc, rest)?;
    points_of(alloc, &numbers)
}

fn stage_line(rest: Option<&[u8]>) -> Result<Form, Kind>
    ensures { result ≡ stage_form (behind rest.entry) }
{
    let (width, parities, copies) = last_three_words(rest)?;
    let width = spelled(width)?;
    let parities = spelled(parities)?;
    let copies = spelled(copies)?;
    Ok(Form::Stage(Stage {
        width: small(width)?,
        parities: small(parities)?,
        copies: small(copies)?,
    }))
}

fn phase_line(draft: &Draft, rest: Option<&[u8]>) -> Result<Form, Kind>
    ensures { result ≡ phase_form (so_in draft.now) (behind rest.entry) }
{
    end_words(rest)?;
    within(&[(draft.phases >= MAX_PHASES, LimitName::Phases)])?;
    Ok(Form::Phase)
}

fn client_line(draft: &Draft, rest: Option<&[u8]>) -> Result<Form, Kind>
    ensures { result ≡ client_form (so_in draft.now) (behind rest.entry) }
{
    end_words(rest)?;
    within(&[(draft.clients >= MAX_CLIENTS, LimitName::Clients)])?;
    Ok(Form::Client)
}

// Nothing, where one command more passes no limit.
fn command_fits(draft: &Draft) -> Result<(), Kind>
    ensures { result ≡ command_fits (so_in draft.now) }
{
    within(&[(draft.commands >= MAX_COMMANDS, LimitName::Commands)])
}

// A command's operand: a file.
fn file_operand(draft: &Draft, rest: Option<&[u8]>) -> Result<u32, Kind>
    requires { IsDraft draft.now }
    ensures { result ≡ file_operand (so_in draft.now) (behind rest.entry) }
{
    let name = last_word(rest)?;
    command_fits(draft)?;
    draft.file_number(name).ok_or(Kind::NoFile)
}

// Whether the line that says how many servers there are stands before, where the last line begins
// with this word.
fn knows_servers(last: Option<LineWord>) -> bool
    ensures { result ≡ knows_servers last }
{
    match last {
        None | Some(LineWord::Morph) => false,
        Some(_) => true,
    }
}

// Whether no server has this number. Before the script says how many there are, none is missed.
fn lacks_server(draft: &Draft, server: u32) -> bool
    ensures { result ≡ lacks_server (so_in draft.now) server }
{
    knows_servers(draft.last) && server >= draft.servers
}

// A command's operand: a server.
fn server_operand(draft: &Draft, rest: Option<&[u8]>) -> Result<u32, Kind>
    ensures { result ≡ server_operand (so_in draft.now) (behind rest.entry) }
{
    let server = number(last_word(rest)?)?;
    command_fits(draft)?;
    if lacks_server(draft, server) {
        return Err(Kind::NoServer);
    }
    Ok(server)
}

// Whether a number stands twice in the list.
fn has_twice(alloc: Global, numbers: &[u64]) -> Result<bool, AllocError>
    ensures { IfOk result (λ twice. twice ≡ has_twice numbers.now) }
{
    let mut seen = IndexSet::new(alloc);
    for n in numbers {
        if seen.contains(n) {
            return Ok(true);
        }
        seen.insert(*n)?;
    }
    Ok(false)
}

// Numbers that are at most the greatest u32.
fn small_of(alloc: Global, numbers: &[u64]) -> Result<Vec<u32>, AllocError>
    requires { list_any (is_above 4294967295) numbers.now ≡ false }
    ensures { IfOk result (λ v. v.items ≡ numbers.now) }
{
    let mut small = Vec::new(alloc);
    for n in numbers {
        small.push(*n as u32)?;
    }
    Ok(small)
}

// A file's name, and the words behind `without`, if that stands there.
fn away_words(rest: Option<&[u8]>) -> Result<(&[u8], Option<&[u8]>), Kind>
    ensures some { IfOk result
        (λ r. away_words (behind rest.entry) ≡ Ok (r.0.now, behind r.1)) }
    ensures none { IfErr result (λ kind. away_words (behind rest.entry) ≡ Err kind) }
{
    let (name, rest) = next_word(rest)?;
    let Some(list) = rest else {
        return Ok((name, None));
    };
    let (word, rest) = split_word(list);
    if rest.is_none() {
        return Err(Kind::Arity);
    }
    if word != b"without".as_slice() {
        return Err(Kind::Arity);
    }
    Ok((name, rest))
}

// The different servers that the words spell.
fn servers_of(alloc: Global, draft: &Draft, rest: Option<&[u8]>) -> Result<Vec<u32>, Kind>
    ensures { SaysList result (servers_in (so_in draft.now) (behind rest.entry)) }
{
    let servers = numbers_of(alloc, rest)?;
    within(&[
        (any_above(&servers, MAX_NUMBER), LimitName::Number),
        (draft.commands >= MAX_COMMANDS, LimitName::Commands),
    ])?;
    if has_twice(alloc, &servers)? {
        return Err(Kind::Twice);
    }
    Ok(small_of(alloc, &servers)?)
}

// Whether one of these servers isn't there.
fn lacks_any(draft: &Draft, servers: &[u32]) -> bool
    ensures { result ≡ list_any (lacks_server (so_in draft.now)) servers.now }
{
    servers.iter().any(|server| lacks_server(draft, *server))
}

// A command's operands: a file, and the servers that it can't reach.
fn away_operands(alloc: Global, draft: &Draft, rest: Option<&[u8]>) -> Result<(u32, Servers), Kind>
    requires { IsDraft draft.now }
    ensures { Says result (away_operands (so_in draft.now) (behind rest.entry)) }
{
    let (name, rest) = away_words(rest)?;
    let servers = servers_of(alloc, draft, rest)?;
    let file = draft.file_number(name).ok_or(Kind::NoFile)?;
    if lacks_any(draft, &servers) {
        return Err(Kind::NoServer);
    }
    Ok((file, Servers::of(&servers)))
}

// A file's name, and the number behind `stop`, where the words are these.
fn stop_words(rest: Option<&[u8]>) -> Option<(&[u8], &[u8])>
    ensures some { IfSome result (λ r. stop_words (behind rest.entry) ≡ Some (r.0.now, r.1.now)) }
    ensures none { IfNone result (stop_words (behind rest.entry) ≡ None) }
{
    let Ok((name, word, stop)) = last_three_words(rest) else {
        return None;
    };
    if word != b"stop".as_slice() {
        return None;
    }
    Some((name, stop))
}

// A command's operands: a file, and after how many operations on chunks it stops.
fn stop_operands(draft: &Draft, name: &[u8], stop: &[u8]) -> Result<(u32, u32), Kind>
    requires { IsDraft draft.now }
    ensures { result ≡ stop_operands (so_in draft.now) (name.now, stop.now) }
{
    let stop = number(stop)?;
    command_fits(draft)?;
    let file = draft.file_number(name).ok_or(Kind::NoFile)?;
    Ok((file, stop))
}

// A conversion: one that stops, or one that can't reach the servers of its list.
fn convert_of(alloc: Global, draft: &Draft, rest: Option<&[u8]>) -> Result<Act, Kind>
    requires { IsDraft draft.now }
    ensures { Says result (convert_in (so_in draft.now) (stop_words (behind rest.entry))
        (behind rest.entry)) }
{
    if let Some((name, stop)) = stop_words(rest) {
        let (file, stop) = stop_operands(draft, name, stop)?;
        let away = Servers::none();
        let stop = Some(stop);
        return Ok(Act::Convert { file, away, stop });
    }
    let (file, away) = away_operands(alloc, draft, rest)?;
    let stop = None;
    Ok(Act::Convert { file, away, stop })
}

// Nothing, where a command without an operand stands here, which needs a policy.
fn sweep_operand(draft: &Draft, rest: Option<&[u8]>) -> Result<(), Kind>
    ensures { result ≡ sweep_operand (so_in draft.now) (behind rest.entry) }
{
    end_words(rest)?;
    command_fits(draft)?;
    if draft.policy.is_none() {
        return Err(Kind::Order);
    }
    Ok(())
}

// What a command does, by its word and what stands behind it.
fn act_of(alloc: Global, draft: &Draft, verb: Verb, rest: Option<&[u8]>) -> Result<Act, Kind>
    requires { IsDraft draft.now }
    ensures { Says result (act_in (so_in draft.now) verb (behind rest.entry)) }
{
    match verb {
        Verb::Create => Ok(Act::Create(file_operand(draft, rest)?)),
        Verb::Read => {
            let (file, away) = away_operands(alloc, draft, rest)?;
            Ok(Act::Read { file, away })
        }
        Verb::Hold => Ok(Act::Hold(file_operand(draft, rest)?)),
        Verb::Release => Ok(Act::Release(file_operand(draft, rest)?)),
        Verb::Repair => {
            let (file, away) = away_operands(alloc, draft, rest)?;
            Ok(Act::Repair { file, away })
        }
        Verb::Convert => convert_of(alloc, draft, rest),
        Verb::Reclaim => Ok(Act::Reclaim(file_operand(draft, rest)?)),
        Verb::Remove => Ok(Act::Remove(file_operand(draft, rest)?)),
        Verb::Lose => Ok(Act::Lose(server_operand(draft, rest)?)),
        Verb::Sweep => {
            sweep_operand(draft, rest)?;
            Ok(Act::Sweep)
        }
    }
}

// The file of a dump line.
fn dump_line(draft: &Draft, rest: Option<&[u8]>) -> Result<Form, Kind>
    requires { IsDraft draft.now }
    ensures { result ≡ dump_form (so_in draft.now) (behind rest.entry) }
{
    let word = last_word(rest)?;
    let file = draft.file_number(word).ok_or(Kind::NoFile)?;
    if draft.has_dump(file) {
        return Err(Kind::Twice);
    }
    Ok(Form::Dump(file))
}

// What a line says, by its first word and what stands behind it.
fn form_of(alloc: Global, draft: &Draft, word: LineWord, rest: Option<&[u8]>) -> Result<Form, Kind>
    requires { IsDraft draft.now }
    ensures { Says result (form_in (so_in draft.now) word (behind rest.entry)) }
{
    match word {
        LineWord::Morph => {
            last_word(rest)?;
            Ok(Form::Morph)
        }
        LineWord::Servers => servers_line(rest),
        LineWord::Chunk => chunk_line(rest),
        LineWord::Points => points_line(alloc, rest),
        LineWord::Stage => stage_line(rest),
        LineWord::Policy => policy_line(alloc, draft, rest),
        LineWord::File => file_line(alloc, draft, rest),
        LineWord::Tick => tick_line(rest),
        LineWord::Phase => phase_line(draft, rest),
        LineWord::Client => client_line(draft, rest),
        LineWord::Command(verb) => Ok(Form::Command(act_of(alloc, draft, verb, rest)?)),
        LineWord::Dump => dump_line(draft, rest),
        LineWord::End => {
            end_words(rest)?;
            Ok(Form::End)
        }
    }
}

// Whether a line that begins with `next` may follow one that begins with `last`.
#[tactic(auto, unfolding(crate::specs::Lines::may_follow))]
fn may_follow(last: LineWord, next: LineWord) -> bool
    ensures { result ≡ may_follow last next }
{
    match last {
        LineWord::Morph => matches!(next, LineWord::Servers),
        LineWord::Servers => matches!(next, LineWord::Chunk),
        LineWord::Chunk => matches!(next, LineWord::Points),
        LineWord::Points => matches!(next, LineWord::Stage),
        LineWord::Stage => { matches!(next, LineWord::Stage | LineWord::Policy | LineWord::File) }
        LineWord::Policy => matches!(next, LineWord::File),
        LineWord::File => matches!(
            next,
            LineWord::File | LineWord::Tick | LineWord::Phase | LineWord::Dump | LineWord::End
        ),
        LineWord::Tick => matches!(
            next,
            LineWord::Tick | LineWord::Phase | LineWord::Dump | LineWord::End
        ),
        LineWord::Phase => matches!(next, LineWord::Client),
        LineWord::Client | LineWord::Command(_) => matches!(
            next,
            LineWord::Command(_)
                | LineWord::Client
                | LineWord::Phase
                | LineWord::Tick
                | LineWord::Dump
                | LineWord::End
        ),
        LineWord::Dump => matches!(next, LineWord::Dump | LineWord::End),
        LineWord::End => false,
    }
}

// Whether all bytes of a line may stand there.
#[tactic(auto, unfolding(mf_text::specs::Lines::is_clean))]
fn is_clean(line: &[u8]) -> bool
    ensures { result ≡ is_clean line.now }
{
    line.iter().all(|b| (32..=126).contains(b))
}

// What the first line says.
fn first_line(line: &[u8]) -> Result<Form, Kind>
    ensures { result ≡ first_form line.now }
{
    if line == b"morph 1".as_slice() {
        Ok(Form::Morph)
    } else {
        Err(Kind::Header)
    }
}

/// What a line says behind those before it.
///
/// # Errors
/// The first kind of fault that the line has, in the order of the kinds, or `Memory` where memory
/// ran out.
#[tactic(auto, unfolding(crate::specs::Lines::form_at))]
pub fn read_line(alloc: Global, draft: &Draft, line: &[u8]) -> Result<Form, Kind>
    requires { IsDraft draft.now }
    ensures { Says result (form_at (so_in draft.now) line.now) }
{
    if !is_clean(line) {
        return Err(Kind::Text);
    }
    let Some(last) = draft.last else {
        return first_line(line);
    };
    let (word, rest) = split_word(line);
    let word = line_word(word).ok_or(Kind::Unknown)?;
    let form = form_of(alloc, draft, word, rest)?;
    if !may_follow(last, word) {
        return Err(Kind::Order);
    }
    Ok(form)
}
