//! Passes of one gate, one step after the other.
ghost use Rattle.std.specs.Prelude.{◌≡◌, ◌+◌, ◌<◌, ◌≤◌, length, IfSome};
ghost use Rattle.mf_machine.specs.Words.{whole_share};
ghost use Rattle.mf_gate.specs.Passes.{about, view};
ghost use Rattle.mf_gate.specs.Table.{file_of};
ghost use Rattle.tests_gate.specs.Frames.{AreCells, IsMending, IsPlaced, Moves};

use crate::making::new_site;
use crate::site::{CHUNKS, Site, line_of};
use crate::stepping::{build, cells, close_all, find_line, lose, pin};
use crate::tally::Tally;
use mf_gate::{Gate, Pass, Taken};
use mf_machine::{Closed, LoseStep, Slot, State};
use mf_vault::{Chunk, Rest};
use std::alloc::Global;
use std::test::Fail;

// What the gate says to a close of a generation that was passed.
fn close(site: &Site, pass: &mut Pass, g: u32) -> Option<Closed>
    requires { IsPlaced 0 0 pass.old site.now.gate }
    ensures { Moves 0 0 pass.old pass.new site.now.gate }
{
    let stages = site.book.stages();
    let number = site.gate.look(pass);
    if g >= stages || g + 1 >= number {
        return None;
    }
    Some(site.gate.close(pass, g))
}

// What closes of the first generation say over the first pass's pin, once it is free, and again.
// The second pass publishes the next generation before.
fn closings(
    site: &Site,
    chunks: &[Chunk],
    first: &mut Pass,
    second: &mut Pass,
    tally: &mut Tally,
) -> [Option<Closed>; 3]
    requires cells { AreCells chunks.now site.now.gate }
    requires first { IsPlaced 0 0 first.old site.now.gate }
    requires second { IsPlaced 0 0 second.old site.now.gate }
    ensures first { Moves 0 0 first.old first.new site.now.gate }
    ensures second { Moves 0 0 second.old second.new site.now.gate }
{
    let Some(g) = pin(site, first) else {
        return [None; 3];
    };
    build(site, chunks, second, 1, tally);
    let over = close(site, second, 0);
    site.gate.unpin(first, Slot::Hold, g);
    let free = close(site, second, 0);
    let again = close(site, second, 0);
    [over, free, again]
}

// Two passes, of which the second was split off, are one again.
fn rejoin(gate: &Gate, pass: &mut Pass, other: Pass)
    requires pass { IsPlaced 0 0 pass.old gate.now }
    requires other { IsPlaced 0 0 other gate.now }
    ensures placed { IsPlaced 0 0 pass.new gate.now }
    ensures share { (view pass.new).share ≡ (view pass.old).share + (view other).share }
{
    gate.join(pass, other);
}

// Splits a pass of at least this share in two, and the new one again, until the share is 1; and
// joins them all.
fn split_and_join(gate: &Gate, pass: &mut Pass, share: u32)
    requires placed { IsPlaced 0 0 pass.old gate.now }
    requires share { share ≤ (view pass.old).share }
    ensures { Moves 0 0 pass.old pass.new gate.now }
{
    if share < 2 {
        return;
    }
    let mut next = gate.split(pass);
    split_and_join(gate, &mut next, share / 2);
    rejoin(gate, pass, next);
}

// Threads may share a gate, and a pass may move from one to another.
fn may_cross<G: Sync, P: Send>(_gate: &G, _pass: &P) {}

// Whether all chunks rest, with their bytes.
fn are_here(names: &[Rest]) -> bool {
    for (n, rest) in names.iter().enumerate() {
        let is_here = match rest {
            Rest::Here(chunk) => chunk.bytes().first() == CHUNKS.get(n),
            _ => false,
        };
        if !is_here {
            return false;
        }
    }
    names.len() == CHUNKS.len()
}

// Whether a take says that another pass has the name Taken.
fn is_taken(site: &Site, pass: &mut Pass, g: u32, n: u32) -> bool
    requires stage { g < length site.now.book.shape.stages }
    requires pinned { IsPlaced (g + 1) 0 pass.old site.now.gate }
    ensures { Moves (g + 1) 0 pass.old pass.new site.now.gate }
{
    if n >= site.book.count() || !site.book.holds(g, site.book.name(n)) {
        return false;
    }
    match site.gate.take(pass, n) {
        Taken::Again => true,
        Taken::Lost(_) => false,
        Taken::Here(chunk) => {
            site.gate.give(pass, n, chunk);
            false
        }
    }
}

// What a see of a name of the pinned generation says.
fn see(site: &Site, pass: &mut Pass, g: u32, n: u32) -> Option<State>
    requires stage { g < length site.now.book.shape.stages }
    requires pinned { IsPlaced (g + 1) 0 pass.old site.now.gate }
    ensures { Moves (g + 1) 0 pass.old pass.new site.now.gate }
{
    if n >= site.book.count() || !site.book.holds(g, site.book.name(n)) {
        return None;
    }
    Some(site.gate.see(pass, n))
}

// What a lose of a name by the lose line of its server says.
fn lose_once(site: &Site, pass: &mut Pass, hold: u32, n: u32) -> Option<LoseStep>
    requires { IsPlaced hold 0 pass.old site.now.gate }
    ensures { Moves hold 0 pass.old pass.new site.now.gate }
{
    let _ = hold;
    if n >= site.book.count() {
        return None;
    }
    let server = site.book.server(site.book.name(n));
    let line = find_line(site.lines.as_slice(), server)?;
    Some(site.gate.lose(pass, n, line))
}

// What the second pass is told of a name while the first one has it Taken, and afterwards.
fn told_beside(site: &Site, first: &mut Pass, second: &mut Pass, g: u32, n: u32) -> Option<bool>
    requires stage { g < length site.now.book.shape.stages }
    requires first { IsPlaced (g + 1) 0 first.old site.now.gate }
    requires second { IsPlaced (g + 1) 0 second.old site.now.gate }
{
    if n >= site.book.count() || !site.book.holds(g, site.book.name(n)) {
        return None;
    }
    let hold = g + 1;
    let Taken::Here(chunk) = site.gate.take(first, n) else {
        return None;
    };
    let is_again = is_taken(site, second, g, n);
    let lost = lose_once(site, second, hold, n);
    let seen = see(site, second, g, n);
    site.gate.give(first, n, chunk);
    let is_kept = lost == Some(LoseStep::Again) && seen == Some(State::Here);
    let lost = lose_once(site, second, hold, n);
    let again = lose_once(site, second, hold, n);
    let seen = see(site, second, g, n);
    let is_lost = lost == Some(LoseStep::Done) && again == Some(LoseStep::Nothing);
    let line = line_of(site.book.server(site.book.name(n)));
    Some(is_again && is_kept && is_lost && seen == Some(State::Lost(line)))
}

// Whether two passes with a pin each are told so of the first name.
fn is_met_again(site: &Site, first: &mut Pass, second: &mut Pass) -> bool
    requires first { IsPlaced 0 0 first.old site.now.gate }
    requires second { IsPlaced 0 0 second.old site.now.gate }
{
    let Some(g) = pin(site, first) else {
        return false;
    };
    let Some(h) = pin(site, second) else {
        return false;
    };
    h == g && told_beside(site, first, second, g, 0) == Some(true)
}

// Pins the published generation in the Work slot.
fn pin_work(site: &Site, pass: &mut Pass) -> Option<u32>
    requires { IsPlaced 0 1 pass.old site.now.gate }
    ensures { IfSome result (λ g. (g < length site.now.book.shape.stages)
        × IsMending g pass.new site.now.gate) }
{
    let stages = site.book.stages();
    let number = site.gate.look(pass);
    if number == 0 || number > stages {
        return None;
    }
    let g = number - 1;
    if !site.gate.pin(pass, Slot::Work, g) {
        return None;
    }
    Some(g)
}

// A builder finds the name lost, and brings it again: the line by which it was lost.
fn mend(site: &Site, pass: &mut Pass, g: u32, n: u32, chunk: Chunk) -> Option<u32>
    requires stage { g < length site.now.book.shape.stages }
    requires mending { IsMending g pass.old site.now.gate }
    requires cell { chunk ≡ (file_of (about site.now.gate)).cell n }
    ensures { IsMending g pass.new site.now.gate }
{
    if n >= site.book.count() || !site.book.holds(g, site.book.name(n)) {
        return None;
    }
    let State::Lost(line) = site.gate.see(pass, n) else {
        return None;
    };
    site.gate.retake(pass, n, chunk);
    Some(line)
}

// Whether a builder sees the name here.
fn sees(site: &Site, pass: &mut Pass, g: u32, n: u32) -> bool
    requires stage { g < length site.now.book.shape.stages }
    requires mending { IsMending g pass.old site.now.gate }
    ensures { IsMending g pass.new site.now.gate }
{
    if n >= site.book.count() || !site.book.holds(g, site.book.name(n)) {
        return false;
    }
    site.gate.see(pass, n) == State::Here
}

// Whether a builder takes the name.
fn takes(site: &Site, pass: &mut Pass, g: u32, n: u32) -> bool
    requires stage { g < length site.now.book.shape.stages }
    requires mending { IsMending g pass.old site.now.gate }
{
    if n >= site.book.count() || !site.book.holds(g, site.book.name(n)) {
        return false;
    }
    matches!(site.gate.take(pass, n), Taken::Here(_))
}

// The line that empties the server of a name.
fn line_at(site: &Site, n: u32) -> Option<u32> {
    if n >= site.book.count() {
        return None;
    }
    Some(line_of(site.book.server(site.book.name(n))))
}

// Whether the first name is lost, and a builder brings it again.
fn is_brought_again(site: &Site, chunks: &[Chunk], pass: &mut Pass) -> bool
    requires cells { AreCells chunks.now site.now.gate }
    requires placed { IsPlaced 0 0 pass.old site.now.gate }
{
    if lose_once(site, pass, 0, 0) != Some(LoseStep::Done) || !site.gate.begin(pass) {
        return false;
    }
    let Some(g) = pin_work(site, pass) else {
        return false;
    };
    let Some(Ok(chunk)) = chunks.first().map(|cell| cell.share()) else {
        return false;
    };
    let is_mended = mend(site, pass, g, 0, chunk) == line_at(site, 0);
    is_mended && sees(site, pass, g, 0) && takes(site, pass, g, 0)
}

// Whether a drop changes the name. All generations that hold it are closed before.
fn drops(site: &Site, pass: &mut Pass, n: u32, tally: &mut Tally) -> Option<bool>
    requires { IsPlaced 0 0 pass.old site.now.gate }
    ensures { Moves 0 0 pass.old pass.new site.now.gate }
{
    if n >= site.book.count() || !close_all(site, pass, n, tally) {
        return None;
    }
    Some(site.gate.drop_name(pass, n))
}

// Publishes each later generation, removes the file, and loses the first name.
fn remove(site: &Site, chunks: &[Chunk], pass: &mut Pass, tally: &mut Tally)
    requires cells { AreCells chunks.now site.now.gate }
    requires placed { IsPlaced 0 0 pass.old site.now.gate }
    ensures { Moves 0 0 pass.old pass.new site.now.gate }
{
    build(site, chunks, pass, 3, tally);
    build(site, chunks, pass, 3, tally);
    build(site, chunks, pass, 3, tally);
    lose(site, pass, 0, tally);
}

// What drops say of a lost name and of one that is here, twice each, where the file is removed.
fn drops_twice(
    site: &Site,
    chunks: &[Chunk],
    pass: &mut Pass,
    tally: &mut Tally,
) -> [Option<bool>; 4]
    requires cells { AreCells chunks.now site.now.gate }
    requires placed { IsPlaced 0 0 pass.old site.now.gate }
{
    remove(site, chunks, pass, tally);
    [
        drops(site, pass, 0, tally),
        drops(site, pass, 0, tally),
        drops(site, pass, 1, tally),
        drops(site, pass, 1, tally),
    ]
}

// What closes say of the first generation, beside a pass that is split off.
fn closings_beside(
    site: &Site,
    chunks: &[Chunk],
    pass: &mut Pass,
    tally: &mut Tally,
) -> [Option<Closed>; 3]
    requires cells { AreCells chunks.now site.now.gate }
    requires placed { IsPlaced 0 0 pass.old site.now.gate }
    requires share { 2 ≤ (view pass.old).share }
    ensures { Moves 0 0 pass.old pass.new site.now.gate }
{
    let mut second = site.gate.split(pass);
    let told = closings(site, chunks, pass, &mut second, tally);
    rejoin(&site.gate, pass, second);
    told
}

// Whether the file rests with this number and these generations closed, and with all chunks.
fn rests_as(site: Site, pass: Pass, number: u32, shut: &[bool]) -> bool
    requires placed { IsPlaced 0 0 pass site.gate }
    requires share { (view pass).share ≡ whole_share }
{
    let (published, closed, names) = site.gate.rest(pass);
    published == number && closed.as_slice() == shut && are_here(names.as_slice())
}

fn closes_without_a_pin(alloc: Global) -> Result<bool, Fail> {
    let (site, mut pass) = new_site(alloc)?;
    let chunks = cells(alloc, &site, &mut pass)?;
    let mut tally = Tally::new(alloc, 3, 7)?;
    let told = closings_beside(&site, &chunks, &mut pass, &mut tally);
    let rests = rests_as(site, pass, 2, &[true, false, false]);
    Ok(
        rests
            && told
                == [
                    Some(Closed::Pins(1)),
                    Some(Closed::Done),
                    Some(Closed::Already),
                ],
    )
}

fn splits_eight_deep(alloc: Global) -> Result<bool, Fail> {
    let (site, mut pass) = new_site(alloc)?;
    may_cross(&site.gate, &pass);
    split_and_join(&site.gate, &mut pass, 256);
    Ok(rests_as(site, pass, 1, &[false; 3]))
}

fn meets_a_taken_name(alloc: Global) -> Result<bool, Fail> {
    let (site, mut first) = new_site(alloc)?;
    let mut second = site.gate.split(&mut first);
    Ok(is_met_again(&site, &mut first, &mut second))
}

fn mends_a_lost_name(alloc: Global) -> Result<bool, Fail> {
    let (site, mut pass) = new_site(alloc)?;
    let chunks = cells(alloc, &site, &mut pass)?;
    Ok(is_brought_again(&site, &chunks, &mut pass))
}

fn drops_names_once(alloc: Global) -> Result<bool, Fail> {
    let (site, mut pass) = new_site(alloc)?;
    let chunks = cells(alloc, &site, &mut pass)?;
    let mut tally = Tally::new(alloc, 3, 7)?;
    let told = drops_twice(&site, &chunks, &mut pass, &mut tally);
    Ok(told == [Some(true), Some(false), Some(true), Some(false)])
}

#[test]
fn a_pinned_generation_is_not_closed(rt: HostRuntime) -> Result<(), Fail> {
    assert!(rt; closes_without_a_pin(rt.alloc())?);
    Ok(())
}

#[test]
fn passes_split_eight_deep_and_joined_leave_the_state(rt: HostRuntime) -> Result<(), Fail> {
    assert!(rt; splits_eight_deep(rt.alloc())?);
    Ok(())
}

#[test]
fn a_taken_name_is_met_again(rt: HostRuntime) -> Result<(), Fail> {
    assert!(rt; meets_a_taken_name(rt.alloc())?);
    Ok(())
}

#[test]
fn a_lost_name_is_brought_again(rt: HostRuntime) -> Result<(), Fail> {
    assert!(rt; mends_a_lost_name(rt.alloc())?);
    Ok(())
}

#[test]
fn a_lost_name_and_one_that_is_here_are_dropped_once(rt: HostRuntime) -> Result<(), Fail> {
    assert!(rt; drops_names_once(rt.alloc())?);
    Ok(())
}
