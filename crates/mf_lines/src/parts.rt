//! The parts of a script, and the faults of its text.

use mf_check::FamilyFault;
use mf_places::Servers;
use mf_shape::ShapeFault;
use std::alloc::{AllocError, AllocFailed};
use std::marker::Model;

/// What has a limit, in the order in which the limits of a line are tried. `Text` is the length of
/// the whole text.
#[derive(Clone, Copy)]
pub enum LimitName {
    Text,
    Number,
    Tick,
    Point,
    Points,
    Chunk,
    Name,
    Files,
    Pattern,
    Length,
    Chunks,
    Phases,
    Clients,
    Commands,
}

/// The kinds of faults, in the order in which they are tried: those of a line, and, where no line
/// has one, that of the stages and that of the points. Want of memory may come at any place.
#[derive(Drop)]
pub enum Kind {
    /// A byte outside 32 to 126 that is no part of a line's end.
    Text,
    /// The first line isn't `morph 1`, or there is none.
    Header,
    /// No line begins with this word, or no content has this name.
    Unknown,
    /// No line of this kind has so many words, or the bytes of a `text` file are none.
    Arity,
    /// A word in a number's place spells no number, or one in the place of bytes spells none.
    Number,
    /// A limit is passed.
    Limit(LimitName),
    /// The file's name stands in an earlier line.
    Twice,
    /// No earlier line has a file of this name.
    NoFile,
    /// No server has this number.
    NoServer,
    /// The line may not stand here, the thresholds don't rise from 0, a sweep has no policy, or the
    /// text ends too early.
    Order,
    /// The stages are no chain over the servers.
    Shape(ShapeFault),
    /// The points don't fit the stages.
    Family(FamilyFault),
    /// Memory ran out.
    Memory,
}

impl From<AllocError> for Kind {
    ghost use Rattle.std.specs.Prelude.{◌≡◌};
    ghost use Rattle.mf_lines.specs.declared.parts.Kind.TheVariants.{Memory};

    ghost from_gives = { λ _ e. e ≡ Memory };

    fn from(_e: AllocError) -> Kind {
        Kind::Memory
    }
}

impl<T: Drop> From<AllocFailed<T>> for Kind {
    ghost use Rattle.std.specs.Prelude.{◌≡◌};
    ghost use Rattle.mf_lines.specs.declared.parts.Kind.TheVariants.{Memory};

    ghost from_gives = { λ _ e. e ≡ Memory };

    fn from(_e: AllocFailed<T>) -> Kind {
        Kind::Memory
    }
}

/// What is wrong with a script, and the line, from 1, in which; line 0 is the text as a whole. The
/// line of the kinds `Shape` and `Family` is that of the first stage, and that of `Memory` says
/// nothing.
#[derive(Drop)]
pub struct ScriptFault {
    pub line: u32,
    pub kind: Kind,
}

/// A list of bytes.
#[derive(Drop)]
pub struct Bytes {
    items: Vec<u8>,
}

impl Model for Bytes {
    ghost use Rattle.std.specs.Prelude.{List, ℕ};

    ghost Value = { List ℕ };

    ghost view = { λ bytes. bytes.items.items };
}

impl Bytes {
    ghost use Rattle.std.specs.Prelude.{◌≡◌};

    /// The list of these bytes.
    pub fn new(items: Vec<u8>) -> Bytes
        ensures { result ≡ items.items }
    {
        Bytes { items }
    }

    /// The bytes, in order.
    pub fn as_slice(&self) -> &[u8]
        ensures { result.now ≡ self.now }
    {
        self.items.as_slice()
    }
}

/// The bytes of a file: none, those of the rest of a line, those that a word of hexadecimal digits
/// spells, or `length` bytes of which byte x is (x + `start`) mod 251.
#[derive(Drop)]
pub enum Content {
    Empty,
    Text(Bytes),
    Hex(Bytes),
    Pattern { length: u32, start: u32 },
}

/// The name of a file, as text.
#[derive(Drop)]
pub struct FileName {
    text: String,
}

impl Model for FileName {
    ghost use Rattle.std.specs.Prelude.{List, ℕ};
    ghost use Rattle.std.specs.String.{string_bytes};

    ghost Value = { List ℕ };

    ghost view = { λ name. string_bytes name.text };
}

impl FileName {
    ghost use Rattle.std.specs.Prelude.{◌≡◌};
    ghost use Rattle.std.specs.String.{string_bytes};

    /// The name of this text.
    pub fn new(text: String) -> FileName
        ensures { result ≡ string_bytes text }
    {
        FileName { text }
    }

    /// The text.
    pub fn as_str(&self) -> &str
        ensures { result.now ≡ self.now }
    {
        self.text.as_str()
    }
}

/// A file: its name and its bytes.
#[derive(Drop)]
pub struct FileLine {
    pub name: FileName,
    pub content: Content,
}

/// What a command does, on the file of this number, which can't reach the servers that are `away`;
/// `Lose` is on the server of this number, and `Sweep` on all files.
#[derive(Clone, Copy)]
pub enum Act {
    Create(u32),
    Read {
        file: u32,
        away: Servers,
    },
    Hold(u32),
    Release(u32),
    Repair {
        file: u32,
        away: Servers,
    },
    /// Where `stop` is a number, it stops after so many operations on chunks.
    Convert {
        file: u32,
        away: Servers,
        stop: Option<u32>,
    },
    Reclaim(u32),
    Remove(u32),
    Lose(u32),
    Sweep,
}

/// A command, and its line, from 1.
#[derive(Clone, Copy)]
pub struct Command {
    pub line: u32,
    pub act: Act,
}

/// A list of commands.
#[derive(Drop)]
pub struct Commands {
    items: Vec<Command>,
}

impl Model for Commands {
    ghost use Rattle.std.specs.Prelude.{List};
    ghost use Rattle.mf_lines.specs.declared.parts.Command.{Command};

    ghost Value = { List Command };

    ghost view = { λ commands. commands.items.items };
}

impl Commands {
    ghost use Rattle.std.specs.Prelude.{◌≡◌, ◌∷◌, ◌++◌, [], OnOk};

    /// The list of these commands.
    pub fn new(items: Vec<Command>) -> Commands
        ensures { result ≡ items.items }
    {
        Commands { items }
    }

    /// The commands, in order.
    pub fn as_slice(&self) -> &[Command]
        ensures { result.now ≡ self.now }
    {
        self.items.as_slice()
    }

    /// Adds a command. Fails only where memory runs out.
    pub fn push(&mut self, command: Command) -> Result<(), AllocError>
        ensures { OnOk result (self.new ≡ self.old ++ command ∷ []) }
    {
        self.items.push(command)?;
        Ok(())
    }
}

/// A client of a phase, with its commands in order.
#[derive(Drop)]
pub struct Client {
    pub commands: Commands,
}

/// A list of clients.
#[derive(Drop)]
pub struct Clients {
    items: Vec<Client>,
}

impl Model for Clients {
    ghost use Rattle.std.specs.Prelude.{List};
    ghost use Rattle.mf_lines.specs.declared.parts.Client.{Client};

    ghost Value = { List Client };

    ghost view = { λ clients. clients.items.items };
}

impl Clients {
    ghost use Rattle.std.specs.Prelude.{◌≡◌, ◌∷◌, ◌++◌, [], OnOk, IfNone, option_to_list};

    /// The list of these clients.
    pub fn new(items: Vec<Client>) -> Clients
        ensures { result ≡ items.items }
    {
        Clients { items }
    }

    /// The clients, in order.
    pub fn as_slice(&self) -> &[Client]
        ensures { result.now ≡ self.now }
    {
        self.items.as_slice()
    }

    /// Adds a client. Fails only where memory runs out.
    pub fn push(&mut self, client: Client) -> Result<(), AllocError>
        ensures { OnOk result (self.new ≡ self.old ++ client ∷ []) }
    {
        self.items.push(client)?;
        Ok(())
    }

    /// Takes the last client away.
    pub fn pop(&mut self) -> Option<Client>
        ensures last { self.old ≡ self.new ++ option_to_list result }
        ensures none { IfNone result (self.new ≡ []) }
    {
        self.items.pop()
    }
}

/// What stands between the files and the end: ticks of the clock, and phases.
#[derive(Drop)]
pub enum Item {
    Tick(u64),
    Phase(Clients),
}

impl Item {
    ghost use Rattle.std.specs.Prelude.{◌≡◌};
    ghost use Rattle.mf_lines.specs.Meaning.{clients_in};

    /// The clients of a phase; ticks have none.
    pub fn clients(&self) -> &[Client]
        ensures { result.now ≡ clients_in self.now }
    {
        match self {
            Item::Tick(_) => &[],
            Item::Phase(clients) => clients.as_slice(),
        }
    }
}
