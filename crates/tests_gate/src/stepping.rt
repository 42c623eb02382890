//! Steps on a gate, each from a pass at rest to a pass at rest.
ghost use Rattle.std.specs.Prelude.{◌≡◌, ℕ, ◌+◌, ◌<◌, ◌≤◌, length, IfOk, IfNone, IfSome};
ghost use Rattle.std.specs.Bool.{OnTrue};
ghost use Rattle.mf_machine.specs.Actors.{Among, Shown};
ghost use Rattle.mf_machine.specs.File.{Holds, listed};
ghost use Rattle.mf_places.specs.Names.{count_of};
ghost use Rattle.mf_vault.specs.Facts.{lines};
ghost use Rattle.mf_gate.specs.Passes.{IsAt, about, file, view};
ghost use Rattle.mf_gate.specs.Table.{file_of};
ghost use Rattle.tests_gate.specs.Frames.{AreCells, Builds, IsPlaced, IsSettled, Moves, Shows};

use crate::site::{CHUNKS, Site};
use crate::tally::{Tally, bump};
use mf_gate::{Pass, Taken};
use mf_machine::{Closed, LoseStep, Slot, State};
use mf_places::LoseLine;
use mf_vault::{Chunk, Memory};
use std::alloc::Global;

// Looks, and pins the published generation. None where there is none, or where the pin fell on a
// closed one.
pub(crate) fn pin(site: &Site, pass: &mut Pass) -> Option<u32>
    requires { IsPlaced 0 0 pass.old site.now.gate }
    ensures none { IfNone result (Moves 0 0 pass.old pass.new site.now.gate) }
    ensures some { IfSome result (λ g. (g < length site.now.book.shape.stages)
        × Moves (g + 1) 0 pass.old pass.new site.now.gate) }
{
    let stages = site.book.stages();
    let number = site.gate.look(pass);
    if number == 0 || number > stages {
        return None;
    }
    let g = number - 1;
    if !site.gate.pin(pass, Slot::Hold, g) {
        return None;
    }
    Some(g)
}

// Counts a chunk that was handed out: right where it has the bytes of its name.
fn count_chunk(tally: &mut Tally, n: u32, chunk: &Chunk) {
    let is_right = match chunk.bytes() {
        [byte] => CHUNKS.get(n as usize) == Some(byte),
        _ => false,
    };
    if is_right {
        tally.right = tally.right.wrapping_add(1);
    } else {
        tally.wrong = tally.wrong.wrapping_add(1);
    }
}

// Takes a name that the pinned generation holds, and gives it back.
fn take(site: &Site, pass: &mut Pass, g: u32, n: u32, tally: &mut Tally)
    requires stage { g < length site.now.book.shape.stages }
    requires pinned { IsPlaced (g + 1) 0 pass.old site.now.gate }
    ensures { Moves (g + 1) 0 pass.old pass.new site.now.gate }
{
    if n >= site.book.count() || !site.book.holds(g, site.book.name(n)) {
        return;
    }
    match site.gate.take(pass, n) {
        Taken::Here(chunk) => {
            count_chunk(tally, n, &chunk);
            site.gate.give(pass, n, chunk);
        }
        Taken::Lost(_) => tally.missed = tally.missed.wrapping_add(1),
        Taken::Again => tally.again = tally.again.wrapping_add(1),
    }
}

// Sees a name that the pinned generation holds.
fn see(site: &Site, pass: &mut Pass, g: u32, n: u32)
    requires stage { g < length site.now.book.shape.stages }
    requires pinned { IsPlaced (g + 1) 0 pass.old site.now.gate }
    ensures { Moves (g + 1) 0 pass.old pass.new site.now.gate }
{
    if n >= site.book.count() || !site.book.holds(g, site.book.name(n)) {
        return;
    }
    let _ = site.gate.see(pass, n);
}

// A round of a reader: pins the published generation, takes or sees a name, and unpins.
pub(crate) fn visit(site: &Site, pass: &mut Pass, n: u32, takes: bool, tally: &mut Tally)
    requires { IsPlaced 0 0 pass.old site.now.gate }
    ensures { Moves 0 0 pass.old pass.new site.now.gate }
{
    let Some(g) = pin(site, pass) else {
        return;
    };
    if takes {
        take(site, pass, g, n, tally);
    } else {
        see(site, pass, g, n);
    }
    site.gate.unpin(pass, Slot::Hold, g);
}

// Closes a generation, where it was seen passed: whether it is closed.
pub(crate) fn close(site: &Site, pass: &mut Pass, g: u32, tally: &mut Tally) -> bool
    requires { IsPlaced 0 0 pass.old site.now.gate }
    ensures moves { Moves 0 0 pass.old pass.new site.now.gate }
    ensures still { (h : ℕ) → Shown h (view pass.old).own → Shown h (view pass.new).own }
    ensures shown { OnTrue result (Shown g (view pass.new).own) }
{
    let stages = site.book.stages();
    let number = site.gate.look(pass);
    if g >= stages || g + 1 >= number {
        return false;
    }
    match site.gate.close(pass, g) {
        Closed::Done => {
            bump(&mut tally.closed, g);
            true
        }
        Closed::Pins(_) => false,
        Closed::Already => true,
    }
}

// Closes each generation that holds a name: whether all are closed.
pub(crate) fn close_all(site: &Site, pass: &mut Pass, n: u32, tally: &mut Tally) -> bool
    requires name { n < count_of site.now.book }
    requires placed { IsPlaced 0 0 pass.old site.now.gate }
    ensures moves { Moves 0 0 pass.old pass.new site.now.gate }
    ensures shown { OnTrue result (Shows n (file_of (about site.now.gate)) (view pass.new).own) }
{
    for g in 0..site.book.stages() {
        if site.book.holds(g, site.book.name(n)) && !close(site, pass, g, tally) {
            return false;
        }
    }
    true
}

// Closes each generation that holds a name, and drops it. In turns a drop finds the name here or
// lost; beside other threads it may also find it taken by a lose, and then drops nothing.
pub(crate) fn discard(site: &Site, pass: &mut Pass, n: u32, tally: &mut Tally)
    requires { IsPlaced 0 0 pass.old site.now.gate }
    ensures { Moves 0 0 pass.old pass.new site.now.gate }
{
    if n >= site.book.count() || !close_all(site, pass, n, tally) {
        return;
    }
    if site.gate.drop_name(pass, n) {
        bump(&mut tally.dropped, n);
    }
}

// The line that empties a server.
pub(crate) fn find_line(entries: &[LoseLine], server: u32) -> Option<u32>
    ensures { IfSome result (λ line. 0 < listed line server (lines entries.now)) }
{
    for entry in entries {
        if entry.server == server {
            return Some(entry.line);
        }
    }
    None
}

// Loses a name by the lose line of its server.
pub(crate) fn lose(site: &Site, pass: &mut Pass, n: u32, tally: &mut Tally)
    requires { IsPlaced 0 0 pass.old site.now.gate }
    ensures { Moves 0 0 pass.old pass.new site.now.gate }
{
    if n >= site.book.count() {
        return;
    }
    let server = site.book.server(site.book.name(n));
    let Some(line) = find_line(site.lines.as_slice(), server) else {
        return;
    };
    if site.gate.lose(pass, n, line) == LoseStep::Done {
        bump(&mut tally.lost, n);
    }
}

// Sees a name of the next generation, and brings it again where it is lost and there is its chunk:
// whether it is settled.
fn settle(site: &Site, cells: &[Chunk], pass: &mut Pass, m: u32, n: u32, tally: &mut Tally) -> bool
    requires stage { m < length site.now.book.shape.stages }
    requires name { n < count_of site.now.book }
    requires held { Holds (file_of (about site.now.gate)) m n }
    requires cells { AreCells cells.now site.now.gate }
    requires builds { Builds m pass.old site.now.gate }
    ensures moves { Moves 0 1 pass.old pass.new site.now.gate }
    ensures builds { Builds m pass.new site.now.gate }
    ensures still { (k : ℕ) → Among k (view pass.old).build.settled
        → Among k (view pass.new).build.settled }
    ensures settled { OnTrue result (Among n (view pass.new).build.settled) }
{
    match site.gate.see(pass, n) {
        State::Here => true,
        State::Lost(_) => {
            bring(site, cells, pass, m, n, tally);
            true
        }
        State::Unborn | State::Away(_) => false,
    }
}

// Brings a lost name of the next generation again, where there is its chunk.
fn bring(site: &Site, cells: &[Chunk], pass: &mut Pass, m: u32, n: u32, tally: &mut Tally)
    requires stage { m < length site.now.book.shape.stages }
    requires name { n < count_of site.now.book }
    requires held { Holds (file_of (about site.now.gate)) m n }
    requires cells { AreCells cells.now site.now.gate }
    requires builds { Builds m pass.old site.now.gate }
    requires lost { Among n (view pass.old).build.lost }
    ensures moves { Moves 0 1 pass.old pass.new site.now.gate }
    ensures builds { Builds m pass.new site.now.gate }
    ensures still { (k : ℕ) → Among k (view pass.old).build.settled
        → Among k (view pass.new).build.settled }
{
    let Some(cell) = cells.get(n as usize) else {
        return;
    };
    let Ok(chunk) = cell.share() else {
        return;
    };
    site.gate.retake(pass, n, chunk);
    bump(&mut tally.restored, n);
}

// Settles each name of the next generation: whether all are.
fn settle_all(site: &Site, cells: &[Chunk], pass: &mut Pass, m: u32, tally: &mut Tally) -> bool
    requires stage { m < length site.now.book.shape.stages }
    requires cells { AreCells cells.now site.now.gate }
    requires builds { Builds m pass.old site.now.gate }
    ensures moves { Moves 0 1 pass.old pass.new site.now.gate }
    ensures builds { Builds m pass.new site.now.gate }
    ensures settled { OnTrue result (IsSettled m (file_of (about site.now.gate)) (view pass.new)) }
{
    for n in 0..site.book.count() {
        if site.book.holds(m, site.book.name(n)) && !settle(site, cells, pass, m, n, tally) {
            return false;
        }
    }
    true
}

// Publishes the next generation, which is settled.
fn publish(site: &Site, pass: &mut Pass, m: u32, tally: &mut Tally)
    requires stage { m < length site.now.book.shape.stages }
    requires builds { Builds m pass.old site.now.gate }
    requires settled { IsSettled m (file_of (about site.now.gate)) (view pass.old) }
    ensures { Moves 0 1 pass.old pass.new site.now.gate }
{
    site.gate.publish(pass, m + 1);
    bump(&mut tally.published, m + 1);
}

// Says that the file is removed, where it is created.
fn remove(site: &Site, pass: &mut Pass, m: u32, tally: &mut Tally)
    requires stage { m ≤ length site.now.book.shape.stages }
    requires builds { Builds m pass.old site.now.gate }
    ensures { Moves 0 1 pass.old pass.new site.now.gate }
{
    if m == 0 {
        return;
    }
    let next = site.book.stages() + 1;
    site.gate.publish(pass, next);
    bump(&mut tally.published, next);
}

// What a builder does with the right: settles the next generation and publishes it, or removes the
// file behind the last one, where the number that is passed isn't above this one.
fn build_on(site: &Site, cells: &[Chunk], pass: &mut Pass, ripe: u32, tally: &mut Tally)
    requires cells { AreCells cells.now site.now.gate }
    requires placed { IsPlaced 0 1 pass.old site.now.gate }
    ensures { Moves 0 1 pass.old pass.new site.now.gate }
{
    let stages = site.book.stages();
    let m = site.gate.look(pass);
    if m < stages {
        if settle_all(site, cells, pass, m, tally) && m <= ripe {
            publish(site, pass, m, tally);
        }
    } else if m == stages && m <= ripe {
        remove(site, pass, m, tally);
    }
}

// A round of a builder.
pub(crate) fn build(site: &Site, cells: &[Chunk], pass: &mut Pass, ripe: u32, tally: &mut Tally)
    requires cells { AreCells cells.now site.now.gate }
    requires placed { IsPlaced 0 0 pass.old site.now.gate }
    ensures { Moves 0 0 pass.old pass.new site.now.gate }
{
    if !site.gate.begin(pass) {
        return;
    }
    build_on(site, cells, pass, ripe, tally);
    site.gate.end(pass);
}

// The chunk of a name that the pinned generation holds. None where it isn't here.
fn cell(site: &Site, pass: &mut Pass, g: u32, n: u32) -> Result<Option<Chunk>, Memory>
    requires stage { g < length site.now.book.shape.stages }
    requires pinned { IsPlaced (g + 1) 0 pass.old site.now.gate }
    ensures moves { Moves (g + 1) 0 pass.old pass.new site.now.gate }
    ensures cell { IfOk result (λ found. IfSome found (λ c.
        c ≡ (file_of (about site.now.gate)).cell n)) }
{
    if n >= site.book.count() || !site.book.holds(g, site.book.name(n)) {
        return Ok(None);
    }
    let Taken::Here(chunk) = site.gate.take(pass, n) else {
        return Ok(None);
    };
    let shared = chunk.share();
    site.gate.give(pass, n, chunk);
    Ok(Some(shared?))
}

// The chunks of the pinned generation, from the first name on.
fn cells_in(alloc: Global, site: &Site, pass: &mut Pass, g: u32) -> Result<Vec<Chunk>, Memory>
    requires stage { g < length site.now.book.shape.stages }
    requires pinned { IsPlaced (g + 1) 0 pass.old site.now.gate }
    ensures moves { Moves (g + 1) 0 pass.old pass.new site.now.gate }
    ensures cells { IfOk result (λ cells. AreCells cells.items site.now.gate) }
{
    let mut cells = Vec::new(alloc);
    for n in 0..site.book.count() {
        let Some(chunk) = cell(site, pass, g, n)? else {
            return Ok(cells);
        };
        cells.push(chunk)?;
    }
    Ok(cells)
}

// The chunks of the published generation, from the first name on.
pub(crate) fn cells(alloc: Global, site: &Site, pass: &mut Pass) -> Result<Vec<Chunk>, Memory>
    requires { IsPlaced 0 0 pass.old site.now.gate }
    ensures moves { Moves 0 0 pass.old pass.new site.now.gate }
    ensures cells { IfOk result (λ cells. AreCells cells.items site.now.gate) }
{
    let Some(g) = pin(site, pass) else {
        return Ok(Vec::new(alloc));
    };
    let cells = cells_in(alloc, site, pass, g);
    site.gate.unpin(pass, Slot::Hold, g);
    cells
}
