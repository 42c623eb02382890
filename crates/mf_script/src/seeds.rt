//! The scripts of seeds, whose texts are drawn.

ghost use Rattle.std.specs.Prelude.{◌≡◌, ◌<◌, ◌++◌, IfOk, IfErr, OnOk};
ghost use Rattle.mf_script.specs.Scripts.{IsScript};
ghost use Rattle.std.specs.String.{string_bytes};
ghost use Rattle.mf_script.specs.Seeds.{next, behind, draw, ended, on_file, store_lines};
ghost use Rattle.mf_script.specs.Seeds.{file_line, file_lines, creator_lines, creators_lines, verb};
ghost use Rattle.mf_script.specs.Seeds.{turn_lines, client_lines, clients_lines, loss_lines};
ghost use Rattle.mf_script.specs.Seeds.{sweep_lines, round_lines, rounds_lines, dump_lines};
ghost use Rattle.mf_script.specs.Seeds.{seed_text};

use crate::reading::read_script;
use crate::script::Script;
use mf_lines::{Kind, ScriptFault};
use std::alloc::{AllocError, Global};

const MULTIPLIER: u64 = 6_364_136_223_846_793_005;

const INCREMENT: u64 = 1_442_695_040_888_963_407;

// The lines of the store.
const STORE: &str = "\
    morph 1\nservers 16\nchunk 64\npoints 1 2 4\nstage 6 3 1\nstage 6 3 0\nstage 12 3 0\n\
    policy 0 7 30\n";

// A linear congruential generator.
#[derive(Drop)]
struct Draws {
    state: u64,
}

impl Draws {
    // A number below m.
    fn draw(&mut self, m: u64) -> u64
        requires { 0 < m }
        ensures value { result ≡ draw m self.old.state }
        ensures below { result < m }
        ensures state { self.new.state ≡ next self.old.state }
    {
        self.state = self.state.wrapping_mul(MULTIPLIER).wrapping_add(INCREMENT);
        (self.state >> 33) % m
    }
}

// A line of a word and the name of a file.
#[tactic(auto, unfolding(mf_text::specs::Decimal::decimal_text), using(std::proofs::lemmas::List::append_assoc))]
fn write_on_file(out: &mut String, word: &str, file: u64) -> Result<(), AllocError>
    ensures { OnOk result
        (string_bytes out.new ≡ string_bytes out.old ++ ended (on_file word.now file)) }
{
    writeln!(out, "{word} f{file}")?;
    Ok(())
}

// The line of a file.
#[tactic(auto, unfolding(mf_text::specs::Decimal::decimal_text), using(std::proofs::lemmas::List::append_assoc))]
fn write_file(out: &mut String, draws: &mut Draws, file: u64) -> Result<(), AllocError>
    ensures text { OnOk result
        (string_bytes out.new ≡ string_bytes out.old ++ file_line draws.old.state file) }
    ensures state { OnOk result (draws.new.state ≡ behind 2 draws.old.state) }
{
    let length = draws.draw(4001);
    let start = draws.draw(251);
    writeln!(out, "file f{file} pattern {length} {start}")?;
    Ok(())
}

// The lines of the files.
#[tactic(auto, unfolding(crate::specs::Seeds::file_lines))]
fn write_files(out: &mut String, draws: &mut Draws) -> Result<(), AllocError>
    ensures text { OnOk result
        (string_bytes out.new ≡ string_bytes out.old ++ file_lines draws.old.state) }
    ensures state { OnOk result (draws.new.state ≡ behind 16 draws.old.state) }
{
    for file in 0..8 {
        write_file(out, draws, file)?;
    }
    Ok(())
}

// The lines of a client that creates its files.
#[tactic(auto, using(std::proofs::lemmas::List::append_assoc))]
fn write_creator(out: &mut String, client: u64) -> Result<(), AllocError>
    requires { client < 4 }
    ensures { OnOk result (string_bytes out.new ≡ string_bytes out.old ++ creator_lines client) }
{
    writeln!(out, "client")?;
    write_on_file(out, "create", 2 * client)?;
    write_on_file(out, "create", 2 * client + 1)
}

// The lines of the clients that create the files.
#[tactic(auto, unfolding(crate::specs::Seeds::creators_lines))]
fn write_creators(out: &mut String) -> Result<(), AllocError>
    ensures { OnOk result (string_bytes out.new ≡ string_bytes out.old ++ creators_lines) }
{
    for client in 0..4 {
        write_creator(out, client)?;
    }
    Ok(())
}

// The command that a number stands for.
fn verb(v: u64) -> &'static str
    requires { v < 4 }
    ensures { result.now ≡ verb v }
{
    match v {
        0 => "read",
        1 => "repair",
        2 => "convert",
        _ => "reclaim",
    }
}

// The lines of a file's turn.
#[tactic(auto, using(std::proofs::lemmas::List::append_assoc))]
fn write_turn(out: &mut String, draws: &mut Draws, file: u64) -> Result<(), AllocError>
    ensures text { OnOk result
        (string_bytes out.new ≡ string_bytes out.old ++ turn_lines draws.old.state file) }
    ensures state { OnOk result (draws.new.state ≡ next draws.old.state) }
{
    write_on_file(out, verb(draws.draw(4)), file)?;
    write_on_file(out, "read", file)
}

// The lines of a client of a round.
#[tactic(auto, using(std::proofs::lemmas::List::append_assoc))]
fn write_client(out: &mut String, draws: &mut Draws, client: u64) -> Result<(), AllocError>
    requires { client < 4 }
    ensures text { OnOk result
        (string_bytes out.new ≡ string_bytes out.old ++ client_lines draws.old.state client) }
    ensures state { OnOk result (draws.new.state ≡ behind 2 draws.old.state) }
{
    writeln!(out, "client")?;
    write_turn(out, draws, 2 * client)?;
    write_turn(out, draws, 2 * client + 1)
}

// The lines of the clients of a round.
#[tactic(auto, unfolding(crate::specs::Seeds::clients_lines))]
fn write_clients(out: &mut String, draws: &mut Draws) -> Result<(), AllocError>
    ensures text { OnOk result
        (string_bytes out.new ≡ string_bytes out.old ++ clients_lines draws.old.state) }
    ensures state { OnOk result (draws.new.state ≡ behind 8 draws.old.state) }
{
    for client in 0..4 {
        write_client(out, draws, client)?;
    }
    Ok(())
}

// The lines of a tick and of the phase that loses a server.
#[tactic(auto, unfolding(crate::specs::Seeds::loss_lines, mf_text::specs::Decimal::decimal_text), using(std::proofs::lemmas::List::append_assoc))]
fn write_loss(out: &mut String, draws: &mut Draws) -> Result<(), AllocError>
    ensures text { OnOk result
        (string_bytes out.new ≡ string_bytes out.old ++ loss_lines draws.old.state) }
    ensures state { OnOk result (draws.new.state ≡ behind 2 draws.old.state) }
{
    let ticks = draws.draw(10);
    let server = draws.draw(16);
    writeln!(out, "tick {ticks}\nphase\nclient\nlose {server}")?;
    Ok(())
}

// The lines of the phase that sweeps.
#[tactic(auto, unfolding(crate::specs::Seeds::sweep_lines))]
fn write_sweep(out: &mut String) -> Result<(), AllocError>
    ensures { OnOk result (string_bytes out.new ≡ string_bytes out.old ++ sweep_lines) }
{
    writeln!(out, "phase\nclient\nsweep")?;
    Ok(())
}

// The lines of a round.
#[tactic(auto, using(std::proofs::lemmas::List::append_assoc))]
fn write_round(out: &mut String, draws: &mut Draws) -> Result<(), AllocError>
    ensures text { OnOk result
        (string_bytes out.new ≡ string_bytes out.old ++ round_lines draws.old.state) }
    ensures state { OnOk result (draws.new.state ≡ behind 10 draws.old.state) }
{
    write_loss(out, draws)?;
    writeln!(out, "phase")?;
    write_clients(out, draws)?;
    write_sweep(out)
}

// The lines of the rounds.
#[tactic(auto, unfolding(crate::specs::Seeds::rounds_lines))]
fn write_rounds(out: &mut String, draws: &mut Draws) -> Result<(), AllocError>
    ensures { OnOk result
        (string_bytes out.new ≡ string_bytes out.old ++ rounds_lines draws.old.state) }
{
    for _round in 0_u64..8 {
        write_round(out, draws)?;
    }
    Ok(())
}

// The dump lines.
#[tactic(auto, unfolding(crate::specs::Seeds::dump_lines))]
fn write_dumps(out: &mut String) -> Result<(), AllocError>
    ensures { OnOk result (string_bytes out.new ≡ string_bytes out.old ++ dump_lines) }
{
    for file in 0..8 {
        write_on_file(out, "dump", file)?;
    }
    Ok(())
}

// The lines of the store.
#[tactic(auto, unfolding(crate::specs::Seeds::store_lines))]
fn store(alloc: Global) -> Result<String, AllocError>
    ensures { IfOk result (λ out. string_bytes out ≡ store_lines) }
{
    String::from_str(alloc, STORE)
}

// The text of a seed.
#[tactic(auto, unfolding(crate::specs::Seeds::seed_text), using(std::proofs::lemmas::List::append_assoc))]
pub fn seed_text(alloc: Global, n: u64) -> Result<String, AllocError>
    ensures { IfOk result (λ out. string_bytes out ≡ seed_text n) }
{
    let mut draws = Draws { state: n };
    let mut out = store(alloc)?;
    write_files(&mut out, &mut draws)?;
    writeln!(out, "phase")?;
    write_creators(&mut out)?;
    write_rounds(&mut out, &mut draws)?;
    write_dumps(&mut out)?;
    writeln!(out, "end")?;
    Ok(out)
}

// The script of a seed's text. That text is a script, so its one fault is want of memory.
fn read_seed(alloc: Global, n: u64) -> Result<Script, ScriptFault>
    ensures script { IfOk result (IsScript (seed_text n)) }
    ensures memory { IfErr result (λ fault. fault.kind ≡ Kind.Memory) }
{
    match seed_text(alloc, n) {
        Ok(text) => read_script(alloc, text.as_bytes()),
        Err(_) => Err(ScriptFault {
            line: 0,
            kind: Kind::Memory,
        }),
    }
}

/// The script of a seed, whose text its generator draws: 16 servers, eight files of up to 4,000
/// bytes, a policy, and 25 phases of 152 commands. Each of four clients has two files of its own.
/// Fails only where memory runs out, since the text of each seed is a script.
pub fn from_seed(alloc: Global, n: u64) -> Result<Script, AllocError>
    ensures { IfOk result (IsScript (seed_text n)) }
{
    match read_seed(alloc, n) {
        Ok(script) => Ok(script),
        Err(_want_of_memory) => Err(AllocError),
    }
}
