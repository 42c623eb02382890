//! The codes as a C library; `include/morph_codes.h` is its header.
//!
//! A chunk is handed in as a pointer and a length, and a stripe as an array of these. Each call
//! tests what it is handed before it writes, and answers a status: 0 where it is done, and else
//! the number of what is refused, with nothing written. Only the check, `morph_codes_decode` and
//! the makings of rows take memory.
//!
//! *Proved.* The bytes are those of the definitions of the code, or the status says what is
//! refused; nothing is written then. No call panics.
//!
//! *Neither.* What a C caller owes: valid pointers with their lengths, rooms that overlap nothing
//! else; speed.
#![tactic(auto)]

ghost use Rattle.std.specs.Prelude.{◌⊎◌, ◌≡◌, ◌+◌, ◌*◌, ◌<◌, ◌≤◌, ℕ, length, map};
ghost use Rattle.std.specs.Prelude.{slice_index, slice_index_or};
ghost use Rattle.std.specs.Bool.{OnTrue, OnFalse};
ghost use Rattle.mf_code.specs.Rows.{column, list_of, weighted_lists};
ghost use Rattle.mf_code.specs.Sums.{weighted};
ghost use Rattle.mf_code.specs.Decodable.{IsDecodable};
ghost use Rattle.mf_shape.specs.Stages.{parities_at};
ghost use Rattle.mf_check.specs.Families.{ArePoints, IsFamily, IsStageDecodable};
ghost use Rattle.mf_kernel.specs.Dots.{dot};
ghost use Rattle.mf_merge.specs.Merged.{merged_byte};
ghost use Rattle.mf_matrix.specs.Tables.{HasInverse};
ghost use Rattle.mf_erasure.specs.Erasure.{entry, IsErasure};
ghost use Rattle.mf_decode.specs.Rows.{IsDecodingRow};
ghost use Rattle.morph_codes.specs.Decoded.{AreDecoded, AreDecodingRows, AreSums};
ghost use Rattle.morph_codes.specs.Handed.{bytes_of, rooms_of, plan_of};
ghost use Rattle.morph_codes.specs.Handed.{HaveColumns, RoomsFit};

mod applying;
mod decoding;
mod encoding;
mod handed;

use applying::fill_by_rows;
use decoding::{loss_status, row_of, rows_of};
use encoding::fill_rooms;
pub use handed::{Piece, Room};
use handed::{are_rows, fit, have};
use mf_check::{FamilyFault, check};
use mf_decode::NoPlan;
use mf_kernel::{fill_powers, fill_row};
use mf_shape::{MAX_PARITIES, MAX_SERVERS, MAX_WIDTH, Shape, Stage};
use std::alloc::Global;

/// It is done.
const DONE: u32 = 0;

/// There are more than 64 chunks, or the width is 0 or above 64.
const WIDTH: u32 = 1;

/// There isn't a room for each point, or a room hasn't the size; a row hasn't a coefficient for
/// each piece; or what is lost and what is had don't go together.
const COUNT: u32 = 2;

/// A piece hasn't the columns that are asked for.
const LENGTH: u32 = 3;

/// There are more than four points or none, one is zero, or two are equal.
const POINTS: u32 = 4;

/// Some loss of as many places as there are points can't be made good.
const UNDECODABLE: u32 = 5;

/// Memory ran out.
const MEMORY: u32 = 6;

/// Fills the rooms with the parities of a stripe, one for each point. Pieces have at least `size`
/// bytes, and rooms have as many.
#[unsafe(no_mangle)]
pub extern "C" fn morph_codes_encode(
    points: &[u8],
    pieces: &[Piece],
    size: usize,
    rooms: &mut [Room],
) -> u32
    ensures done { result ≡ 0 → rooms_of rooms.new
        ≡ map (λ point. weighted_lists size point (bytes_of pieces.now)) points.now }
    ensures refused { 1 ≤ result → rooms_of rooms.new ≡ rooms_of rooms.old }
    ensures width { result ≡ 1 → 64 < length pieces.now }
    ensures count { result ≡ 2 → length rooms.old ≡ length points.now
        → RoomsFit size rooms.old → ⊥ }
    ensures length { result ≡ 3 → HaveColumns 0 size pieces.now → ⊥ }
    ensures known { result ≤ 3 }
{
    if pieces.len() > MAX_WIDTH as usize {
        return WIDTH;
    }
    if rooms.len() != points.len() || !fit(rooms, size) {
        return COUNT;
    }
    if !have(pieces, 0, size) {
        return LENGTH;
    }
    fill_rooms(points, pieces, size, rooms);
    DONE
}

/// Fills `out` with the bytes from `start` on of the parity with this point of a stripe.
#[unsafe(no_mangle)]
pub extern "C" fn morph_codes_encode_block(
    point: u8,
    pieces: &[Piece],
    start: usize,
    out: &mut [u8],
) -> u32
    ensures done { result ≡ 0 → out.new ≡ list_of (length out.old)
        (λ x. weighted point (column (start + x) (bytes_of pieces.now))) }
    ensures refused { 1 ≤ result → out.new ≡ out.old }
    ensures width { result ≡ 1 → 64 < length pieces.now }
    ensures length { result ≡ 3 → HaveColumns start (length out.old) pieces.now → ⊥ }
    ensures known { (result ≤ 1) ⊎ (result ≡ 3) }
{
    if pieces.len() > MAX_WIDTH as usize {
        return WIDTH;
    }
    if !have(pieces, start, out.len()) {
        return LENGTH;
    }
    fill_powers(point, 1, pieces, start, out);
    DONE
}

/// Fills `out` with the bytes from `start` on of the parity with this point of a wide stripe, from
/// the parities with this point of the stripes of `width` chunks that it holds.
#[unsafe(no_mangle)]
pub extern "C" fn morph_codes_merge(
    point: u8,
    width: u32,
    parities: &[Piece],
    start: usize,
    out: &mut [u8],
) -> u32
    ensures done { result ≡ 0 → out.new ≡ list_of (length out.old)
        (λ x. merged_byte point width (bytes_of parities.now) (start + x)) }
    ensures refused { 1 ≤ result → out.new ≡ out.old }
    ensures width { result ≡ 1 → (64 < length parities.now) ⊎ (64 < width) }
    ensures length { result ≡ 3 → HaveColumns start (length out.old) parities.now → ⊥ }
    ensures known { (result ≤ 1) ⊎ (result ≡ 3) }
{
    if parities.len() > MAX_WIDTH as usize || width > MAX_WIDTH {
        return WIDTH;
    }
    if !have(parities, start, out.len()) {
        return LENGTH;
    }
    fill_powers(point, width, parities, start, out);
    DONE
}

/// Fills `out` with the bytes from `start` on of the sum of pieces, each times its coefficient of
/// a row.
#[unsafe(no_mangle)]
pub extern "C" fn morph_codes_combine(
    row: &[u8],
    pieces: &[Piece],
    start: usize,
    out: &mut [u8],
) -> u32
    ensures done { result ≡ 0 → out.new ≡ list_of (length out.old)
        (λ x. dot row.now (column (start + x) (bytes_of pieces.now))) }
    ensures refused { 1 ≤ result → out.new ≡ out.old }
    ensures count { result ≡ 2 → length row.now ≡ length pieces.now → ⊥ }
    ensures length { result ≡ 3 → HaveColumns start (length out.old) pieces.now → ⊥ }
    ensures known { (result ≡ 0) ⊎ (2 ≤ result) × (result ≤ 3) }
{
    if row.len() != pieces.len() {
        return COUNT;
    }
    if !have(pieces, start, out.len()) {
        return LENGTH;
    }
    fill_row(row, pieces, start, out);
    DONE
}

/// Fills each room with the sum of the pieces by its row. The rows stand one behind the other, with
/// a coefficient for each piece. Pieces have at least `size` bytes, and rooms have as many.
#[unsafe(no_mangle)]
pub extern "C" fn morph_codes_apply(
    rows: &[u8],
    pieces: &[Piece],
    size: usize,
    rooms: &mut [Room],
) -> u32
    ensures done { result ≡ 0 → AreSums (length rooms.old) rows.now size (bytes_of pieces.now)
        (rooms_of rooms.new) }
    ensures refused { 1 ≤ result → rooms_of rooms.new ≡ rooms_of rooms.old }
    ensures width { result ≡ 1 → 64 < length pieces.now }
    ensures count { result ≡ 2 → length rows.now ≡ length rooms.old * length pieces.now
        → RoomsFit size rooms.old → ⊥ }
    ensures length { result ≡ 3 → HaveColumns 0 size pieces.now → ⊥ }
    ensures known { result ≤ 3 }
{
    if pieces.len() > MAX_WIDTH as usize {
        return WIDTH;
    }
    if !are_rows(rows.len(), rooms.len(), pieces.len()) || !fit(rooms, size) {
        return COUNT;
    }
    if !have(pieces, 0, size) {
        return LENGTH;
    }
    fill_by_rows(rows, pieces, size, rooms);
    DONE
}

/// Fills each room with a lost piece of a stripe of `count` pieces that has lost these, from what
/// is left of it: first the parities that are had, and then the other pieces, each in order. Pieces
/// have at least `size` bytes, and rooms have as many. Memory may run out.
#[unsafe(no_mangle)]
pub extern "C" fn morph_codes_decode(
    alloc: Global,
    points: &[u8],
    count: u32,
    lost: &[u32],
    had: &[u32],
    left: &[Piece],
    size: usize,
    rooms: &mut [Room],
) -> u32
    ensures done { result ≡ 0 → AreDecoded (plan_of points.now count lost.now had.now) count size
        (bytes_of left.now) (rooms_of rooms.new) }
    ensures refused { 1 ≤ result → rooms_of rooms.new ≡ rooms_of rooms.old }
    ensures width { result ≡ 1 → (count < 1) ⊎ (64 < count) }
    ensures count { result ≡ 2 → IsErasure count (length points.now) lost.now had.now
        → length left.now ≡ count → length rooms.old ≡ length lost.now → RoomsFit size rooms.old
        → ⊥ }
    ensures length { result ≡ 3 → HaveColumns 0 size left.now → ⊥ }
    ensures points { result ≡ 4 → (length points.now < 1) ⊎ (4 < length points.now) }
    ensures undecodable { result ≡ 5
        → HasInverse (length lost.now) (entry points.now lost.now had.now) → ⊥ }
    ensures known { result ≤ 6 }
{
    let status = loss_status(points, count, lost, had);
    if status != DONE {
        return status;
    }
    if left.len() != count as usize || rooms.len() != lost.len() || !fit(rooms, size) {
        return COUNT;
    }
    if !have(left, 0, size) {
        return LENGTH;
    }
    match rows_of(alloc, points, count, lost, had) {
        Ok(rows) => {
            fill_by_rows(&rows, left, size, rooms);
            DONE
        }
        Err(NoPlan::Kernel(_)) => UNDECODABLE,
        Err(NoPlan::Memory) => MEMORY,
    }
}

/// Fills `rows` with the rows by which the lost pieces are had from what is left of a stripe of
/// `count` pieces that has lost these, one behind the other. Memory may run out.
#[unsafe(no_mangle)]
pub extern "C" fn morph_codes_plan(
    alloc: Global,
    points: &[u8],
    count: u32,
    lost: &[u32],
    had: &[u32],
    rows: &mut [u8],
) -> u32
    ensures done { result ≡ 0
        → AreDecodingRows (plan_of points.now count lost.now had.now) count rows.new }
    ensures refused { 1 ≤ result → rows.new ≡ rows.old }
    ensures width { result ≡ 1 → (count < 1) ⊎ (64 < count) }
    ensures count { result ≡ 2 → IsErasure count (length points.now) lost.now had.now
        → length rows.old ≡ length lost.now * count → ⊥ }
    ensures points { result ≡ 4 → (length points.now < 1) ⊎ (4 < length points.now) }
    ensures undecodable { result ≡ 5
        → HasInverse (length lost.now) (entry points.now lost.now had.now) → ⊥ }
    ensures known { (result ≤ 2) ⊎ ((4 ≤ result) × (result ≤ 6)) }
{
    let status = loss_status(points, count, lost, had);
    if status != DONE {
        return status;
    }
    match rows_of(alloc, points, count, lost, had) {
        Ok(made) => put_row(&made, rows),
        Err(NoPlan::Kernel(_)) => UNDECODABLE,
        Err(NoPlan::Memory) => MEMORY,
    }
}

/// Fills `row` with the coefficients by which the e-th lost piece is had from what is left of a
/// stripe of `count` pieces that has lost these: first those of the parities that are had, and then
/// those of the other pieces, each in order. Memory may run out.
#[unsafe(no_mangle)]
pub extern "C" fn morph_codes_decode_row(
    alloc: Global,
    points: &[u8],
    count: u32,
    lost: &[u32],
    had: &[u32],
    e: u32,
    row: &mut [u8],
) -> u32
    ensures done { result ≡ 0
        → IsDecodingRow (plan_of points.now count lost.now had.now) e count row.new }
    ensures refused { 1 ≤ result → row.new ≡ row.old }
    ensures width { result ≡ 1 → (count < 1) ⊎ (64 < count) }
    ensures count { result ≡ 2 → IsErasure count (length points.now) lost.now had.now
        → e < length lost.now → length row.old ≡ count → ⊥ }
    ensures points { result ≡ 4 → (length points.now < 1) ⊎ (4 < length points.now) }
    ensures undecodable { result ≡ 5
        → HasInverse (length lost.now) (entry points.now lost.now had.now) → ⊥ }
    ensures known { (result ≤ 2) ⊎ ((4 ≤ result) × (result ≤ 6)) }
{
    let status = loss_status(points, count, lost, had);
    if status != DONE {
        return status;
    }
    if e as usize >= lost.len() {
        return COUNT;
    }
    match row_of(alloc, points, count, lost, had, e) {
        Ok(made) => put_row(&made, row),
        Err(NoPlan::Kernel(_)) => UNDECODABLE,
        Err(NoPlan::Memory) => MEMORY,
    }
}

// Writes coefficients, where there is room for just these.
fn put_row(made: &[u8], row: &mut [u8]) -> u32
    ensures done { result ≡ 0 → row.new ≡ made.now }
    ensures refused { 1 ≤ result → row.new ≡ row.old }
    ensures count { result ≡ 2 → length made.now ≡ length row.old → ⊥ }
    ensures known { (result ≡ 0) ⊎ (result ≡ 2) }
{
    if made.len() != row.len() {
        return COUNT;
    }
    row.copy_from_slice(made);
    DONE
}

/// Whether stripes of this width with a parity for each point bear the loss of any chunks and
/// parities, as many as there are points. Memory may run out.
#[unsafe(no_mangle)]
pub extern "C" fn morph_codes_check(alloc: Global, points: &[u8], width: u32) -> u32
    ensures done { result ≡ 0 → IsDecodable points.now width }
    ensures width { result ≡ 1 → (width < 1) ⊎ (64 < width) }
    ensures points { result ≡ 4 → (length points.now < 1) ⊎ (4 < length points.now)
        ⊎ (ArePoints (length points.now) points.now → ⊥) }
    ensures undecodable { result ≡ 5 → IsDecodable points.now width → ⊥ }
    ensures known { (result ≤ 1) ⊎ ((4 ≤ result) × (result ≤ 6)) }
{
    if width == 0 || width > MAX_WIDTH {
        return WIDTH;
    }
    if points.is_empty() || points.len() > MAX_PARITIES as usize {
        return POINTS;
    }
    let stages = [Stage {
        width,
        parities: points.len() as u32,
        copies: 0,
    }];
    match Shape::new(alloc, &stages, MAX_SERVERS) {
        Ok(shape) => points_status(alloc, &shape, points),
        Err(_) => MEMORY,
    }
}

// Whether the points are good for a shape of one stage.
fn points_status(alloc: Global, shape: &Shape, points: &[u8]) -> u32
    requires { length shape.now.stages ≡ 1 }
    ensures done { result ≡ 0 → IsFamily shape.now.stages points.now }
    ensures points { result ≡ 4 → ArePoints (parities_at shape.now.stages 0) points.now → ⊥ }
    ensures undecodable { result ≡ 5 → IsStageDecodable shape.now.stages points.now 0 → ⊥ }
    ensures known { (result ≡ 0) ⊎ ((4 ≤ result) × (result ≤ 6)) }
{
    match check(alloc, shape, points) {
        Ok(_) => DONE,
        Err(FamilyFault::Memory) => MEMORY,
        Err(FamilyFault::Undecodable { .. }) => UNDECODABLE,
        Err(_) => POINTS,
    }
}
