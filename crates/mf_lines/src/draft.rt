//! What the lines so far add up to.

ghost use Rattle.std.specs.Prelude.{◌≡◌, ◌<◌, ◌≤◌, ◌^◌, ◌+◌, ◌∷◌, ◌++◌, [], OnOk, length};
ghost use Rattle.std.specs.Prelude.{◌≢◌, ◌==◌, if◌then◌else◌, IfOk, IfErr, Err};
ghost use Rattle.std.specs.List.{list_any};
ghost use Rattle.mf_lines.specs.Meaning.{on_last, with_client, client_with, with_command};
ghost use Rattle.mf_lines.specs.Meaning.{with_line, so_before};
ghost use Rattle.mf_lines.specs.Meaning.{names_in};
ghost use Rattle.mf_lines.specs.Lines.{has_name, file_number, form_at};
ghost use Rattle.mf_lines.specs.Drafts.{so_in, IsDraft, IsNew, Adds};

use crate::forms::{Form, read_line};
use crate::parts::{Bytes, Client, Clients, Command, Commands, FileLine, Item, Kind};
use crate::words::LineWord;
use indexmap::IndexSet;
use mf_policy::Policy;
use mf_shape::Stage;
use std::alloc::{AllocError, Global};

// The number of the one family, to which every file belongs.
const FIRST_FAMILY: u32 = 0;

/// What the lines so far add up to: how many they are, the word of the last one, and what they say
/// of the script. Numbers of which no line has told are 0, and so is `stage_line`, the number of
/// the first stage's line, before it. `clients` is the number of clients since the last phase line.
/// `names` has the names of the files, and `file_families` the number of each file's family;
/// `dumps` has the numbers of the files of the dump lines.
#[derive(Drop)]
pub struct Draft {
    pub lines: u32,
    pub last: Option<LineWord>,
    pub stage_line: u32,
    pub phases: u32,
    pub clients: u32,
    pub commands: u32,
    pub servers: u32,
    pub chunk: u32,
    pub points: Bytes,
    pub stages: Vec<Stage>,
    pub policy: Option<Policy>,
    pub names: IndexSet<Vec<u8>>,
    pub files: Vec<FileLine>,
    pub file_families: Vec<u32>,
    pub items: Vec<Item>,
    pub dumps: Vec<u32>,
}

// The phase with one client more; ticks stay as they are.
fn with_client(alloc: Global, item: Item) -> Result<Item, AllocError>
    ensures { IfOk result (λ new. new ≡ with_client item) }
{
    match item {
        Item::Tick(ticks) => Ok(Item::Tick(ticks)),
        Item::Phase(clients) => {
            let mut clients = clients;
            let commands = Commands::new(Vec::new(alloc));
            clients.push(Client { commands })?;
            Ok(Item::Phase(clients))
        }
    }
}

// Adds a client to the last item, if that is a phase.
fn add_client(alloc: Global, items: &mut Vec<Item>) -> Result<(), AllocError>
    ensures { OnOk result (items.new.items ≡ on_last with_client items.old.items) }
{
    if let Some(item) = items.pop() {
        items.push(with_client(alloc, item)?)?;
    }
    Ok(())
}

// The clients, of which the last, if there is one, has one command more.
fn clients_with(clients: Clients, command: Command) -> Result<Clients, AllocError>
    ensures { IfOk result (λ new. new ≡ on_last (client_with command) clients) }
{
    let mut clients = clients;
    let Some(mut client) = clients.pop() else {
        return Ok(clients);
    };
    client.commands.push(command)?;
    clients.push(client)?;
    Ok(clients)
}

// The phase whose last client has one command more; ticks stay as they are.
fn with_command(item: Item, command: Command) -> Result<Item, AllocError>
    ensures { IfOk result (λ new. new ≡ with_command command item) }
{
    match item {
        Item::Tick(ticks) => Ok(Item::Tick(ticks)),
        Item::Phase(clients) => Ok(Item::Phase(clients_with(clients, command)?)),
    }
}

// Adds a command to the last client of the last item, if that is a phase.
fn add_command(items: &mut Vec<Item>, command: Command) -> Result<(), AllocError>
    ensures { OnOk result (items.new.items ≡ on_last (with_command command) items.old.items) }
{
    if let Some(item) = items.pop() {
        items.push(with_command(item, command)?)?;
    }
    Ok(())
}

// The line of the first stage, where these stages stand before this line.
fn stage_line(stages: &[Stage], first: u32, line: u32) -> u32
    ensures { result ≡ (if length stages.now == 0 then line else first) }
{
    if stages.is_empty() { line } else { first }
}

impl Draft {
    /// Before the first line.
    pub fn new(alloc: Global) -> Draft
        ensures so { so_in result ≡ so_before }
        ensures draft { IsDraft result }
    {
        Draft {
            lines: 0,
            last: None,
            stage_line: 0,
            phases: 0,
            clients: 0,
            commands: 0,
            servers: 0,
            chunk: 0,
            points: Bytes::new(Vec::new(alloc)),
            stages: Vec::new(alloc),
            policy: None,
            names: IndexSet::new(alloc),
            files: Vec::new(alloc),
            file_families: Vec::new(alloc),
            items: Vec::new(alloc),
            dumps: Vec::new(alloc),
        }
    }

    /// Whether a file of this name stands in an earlier line.
    pub fn has_file(&self, name: &[u8]) -> bool
        requires { IsDraft self.now }
        ensures { result ≡ has_name (names_in self.now.files.items) name.now }
    {
        self.names.contains(name)
    }

    /// The number of the file of this name.
    pub fn file_number(&self, name: &[u8]) -> Option<u32>
        requires { IsDraft self.now }
        ensures { result ≡ file_number (names_in self.now.files.items) name.now }
    {
        match self.names.get_index_of(name) {
            Some(file) => Some(file as u32),
            None => None,
        }
    }

    /// Whether an earlier line dumps this file.
    pub fn has_dump(&self, file: u32) -> bool
        ensures { result ≡ list_any (λ other. file == other) self.now.dumps.items }
    {
        self.dumps.iter().any(|other| file == *other)
    }

    // Adds a line of this form.
    fn add(&mut self, alloc: Global, form: Form) -> Result<(), AllocError>
        requires draft { IsDraft self.old }
        requires new { IsNew self.old form }
        requires room { self.old.lines < 2 ^ 31 }
        ensures so { OnOk result (so_in self.new ≡ with_line (so_in self.old) form) }
        ensures draft { OnOk result (IsDraft self.new) }
    {
        self.lines += 1;
        self.last = Some(form.word());
        match form {
            Form::Morph | Form::End => {}
            Form::Servers(servers) => self.servers = servers,
            Form::Chunk(chunk) => self.chunk = chunk,
            Form::Points(points) => self.points = points,
            Form::Stage(stage) => {
                self.stage_line = stage_line(&self.stages, self.stage_line, self.lines);
                self.stages.push(stage)?;
            }
            Form::Policy(policy) => self.policy = Some(policy),
            Form::File(file) => {
                let name = Vec::from_slice(alloc, file.name.as_str().as_bytes())?;
                self.names.insert(name)?;
                self.files.push(file)?;
                self.file_families.push(FIRST_FAMILY)?;
            }
            Form::Tick(ticks) => self.items.push(Item::Tick(ticks))?,
            Form::Phase => {
                self.phases += 1;
                self.clients = 0;
                self.items.push(Item::Phase(Clients::new(Vec::new(alloc))))?;
            }
            Form::Client => {
                self.clients += 1;
                add_client(alloc, &mut self.items)?;
            }
            Form::Command(act) => {
                self.commands += 1;
                let line = self.lines;
                add_command(&mut self.items, Command { line, act })?;
            }
            Form::Dump(file) => self.dumps.push(file)?,
        }
        Ok(())
    }

    /// Reads the next line.
    ///
    /// # Errors
    /// The first kind of fault that the line has, in the order of the kinds, or `Memory` where
    /// memory ran out.
    pub fn add_line(&mut self, alloc: Global, line: &[u8]) -> Result<(), Kind>
        requires draft { IsDraft self.old }
        requires room { self.old.lines < 2 ^ 31 }
        ensures line { OnOk result (Adds (so_in self.old) (so_in self.new) line.now) }
        ensures draft { OnOk result (IsDraft self.new) }
        ensures fault { IfErr result
            (λ fault. fault ≢ Kind.Memory → form_at (so_in self.old) line.now ≡ Err fault) }
    {
        let form = read_line(alloc, self, line)?;
        self.add(alloc, form)?;
        Ok(())
    }
}
