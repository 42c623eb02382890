//! Sums of pieces by rows of coefficients, in rooms of the caller's. Three rooms are filled in
//! one pass over the pieces; the tables of their rows stand on the stack.
ghost use Rattle.std.specs.Prelude.{◌≡◌, ◌+◌, ◌*◌, ◌<◌, ◌≤◌, ℕ, [], length, slice_index_or};
ghost use Rattle.mf_kernel.specs.Dots.{combined};
ghost use Rattle.morph_codes.specs.Decoded.{row_at, AreSums};
ghost use Rattle.morph_codes.specs.Handed.{bytes_of, rooms_of, written, HaveColumns, RoomsFit};

use crate::handed::{Piece, Room};
use mf_kernel::{Row, TABLES, fill_row, fill_tables, fill_three};

// The columns that three rooms are given at a time.
const SPAN: usize = 2_048;

/// Fills the rooms with the sums of the pieces by rows that stand one behind the other.
pub(crate) fn fill_by_rows(rows: &[u8], pieces: &[Piece], size: usize, rooms: &mut [Room])
    requires few { length pieces.now ≤ 64 }
    requires rows { length rows.now ≡ length rooms.old * length pieces.now }
    requires columns { HaveColumns 0 size pieces.now }
    requires sizes { RoomsFit size rooms.old }
    ensures { AreSums (length rooms.old) rows.now size (bytes_of pieces.now) (rooms_of rooms.new) }
{
    let mut done = 0;
    while done < rooms.len() {
        done += fill_some(rows, pieces, size, rooms, done);
    }
}

// Fills one or three rooms from place `q` on, and tells how many.
fn fill_some(rows: &[u8], pieces: &[Piece], size: usize, rooms: &mut [Room], q: usize) -> usize
    requires few { length pieces.now ≤ 64 }
    requires place { q < length rooms.old }
    requires rows { length rows.now ≡ length rooms.old * length pieces.now }
    requires columns { HaveColumns 0 size pieces.now }
    requires sizes { RoomsFit size rooms.old }
    ensures some { 1 ≤ result }
    ensures within { q + result ≤ length rooms.old }
    ensures length { length rooms.new ≡ length rooms.old }
    ensures made { (i : ℕ) → q ≤ i → i < q + result → slice_index_or (rooms_of rooms.new) i []
        ≡ combined size (bytes_of pieces.now) (row_at (length pieces.now) rows.now i) }
    ensures below { (i : ℕ) → i < q → slice_index_or (rooms_of rooms.new) i []
        ≡ slice_index_or (rooms_of rooms.old) i [] }
    ensures above { (i : ℕ) → q + result ≤ i → slice_index_or (rooms_of rooms.new) i []
        ≡ slice_index_or (rooms_of rooms.old) i [] }
{
    let first = row(rows, q, pieces.len());
    if rooms.len() - q < 3 {
        fill_room(first, pieces, &mut rooms[q]);
        1
    } else {
        let second = row(rows, q + 1, pieces.len());
        let third = row(rows, q + 2, pieces.len());
        fill_three_at(first, second, third, pieces, size, rooms, q);
        3
    }
}

// Row q of rows of n coefficients each.
fn row(rows: &[u8], q: usize, n: usize) -> &[u8]
    requires few { n ≤ 64 }
    requires place { (q + 1) * n ≤ length rows.now }
    ensures row { result.now ≡ row_at n rows.now q }
    ensures length { length result.now ≡ n }
{
    let start = q * n;
    &rows[start..start + n]
}

// Fills a room with the sum of the pieces by a row.
fn fill_room(row: &[u8], pieces: &[Piece], room: &mut Room)
    requires coefficients { length row.now ≡ length pieces.now }
    requires columns { HaveColumns 0 (length room.old.bytes.now) pieces.now }
    ensures { room.new.bytes.now
        ≡ combined (length room.old.bytes.now) (bytes_of pieces.now) row.now }
{
    fill_row(row, pieces, 0, room.bytes);
}

// Fills the rooms at places q, q + 1 and q + 2 with the sums by three rows.
fn fill_three_at(
    first: &[u8],
    second: &[u8],
    third: &[u8],
    pieces: &[Piece],
    size: usize,
    rooms: &mut [Room],
    q: usize,
)
    requires few { length pieces.now ≤ 64 }
    requires place { q + 3 ≤ length rooms.old }
    requires first { length first.now ≡ length pieces.now }
    requires second { length second.now ≡ length pieces.now }
    requires third { length third.now ≡ length pieces.now }
    requires columns { HaveColumns 0 size pieces.now }
    requires sizes { RoomsFit size rooms.old }
    ensures length { length rooms.new ≡ length rooms.old }
    ensures first { slice_index_or (rooms_of rooms.new) q []
        ≡ combined size (bytes_of pieces.now) first.now }
    ensures second { slice_index_or (rooms_of rooms.new) (q + 1) []
        ≡ combined size (bytes_of pieces.now) second.now }
    ensures third { slice_index_or (rooms_of rooms.new) (q + 2) []
        ≡ combined size (bytes_of pieces.now) third.now }
    ensures below { (i : ℕ) → i < q → slice_index_or (rooms_of rooms.new) i []
        ≡ slice_index_or (rooms_of rooms.old) i [] }
    ensures above { (i : ℕ) → q + 3 ≤ i → slice_index_or (rooms_of rooms.new) i []
        ≡ slice_index_or (rooms_of rooms.old) i [] }
{
    let (mut a, mut b, mut c) = ([0; TABLES], [0; TABLES], [0; TABLES]);
    fill_tables(first, &mut a);
    fill_tables(second, &mut b);
    fill_tables(third, &mut c);
    let (first, second) = (Row::new(first, &a), Row::new(second, &b));
    fill_three_by(
        &first,
        &second,
        &Row::new(third, &c),
        pieces,
        size,
        rooms,
        q,
    );
}

// The same by rows with tables, span by span.
fn fill_three_by(
    first: &Row,
    second: &Row,
    third: &Row,
    pieces: &[Piece],
    size: usize,
    rooms: &mut [Room],
    q: usize,
)
    requires place { q + 3 ≤ length rooms.old }
    requires first { length first.now ≡ length pieces.now }
    requires second { length second.now ≡ length pieces.now }
    requires third { length third.now ≡ length pieces.now }
    requires columns { HaveColumns 0 size pieces.now }
    requires sizes { RoomsFit size rooms.old }
    ensures length { length rooms.new ≡ length rooms.old }
    ensures first { slice_index_or (rooms_of rooms.new) q []
        ≡ combined size (bytes_of pieces.now) first.now }
    ensures second { slice_index_or (rooms_of rooms.new) (q + 1) []
        ≡ combined size (bytes_of pieces.now) second.now }
    ensures third { slice_index_or (rooms_of rooms.new) (q + 2) []
        ≡ combined size (bytes_of pieces.now) third.now }
    ensures below { (i : ℕ) → i < q → slice_index_or (rooms_of rooms.new) i []
        ≡ slice_index_or (rooms_of rooms.old) i [] }
    ensures above { (i : ℕ) → q + 3 ≤ i → slice_index_or (rooms_of rooms.new) i []
        ≡ slice_index_or (rooms_of rooms.old) i [] }
{
    let (mut x, mut y, mut z) = ([0; SPAN], [0; SPAN], [0; SPAN]);
    let mut start = 0;
    while start < size {
        let count = SPAN.min(size - start);
        let (a, b, c) = (&mut x[..count], &mut y[..count], &mut z[..count]);
        fill_three(&*first, &*second, &*third, pieces, start, a, b, c);
        put_three(rooms, q, start, &x[..count], &y[..count], &z[..count]);
        start += count;
    }
}

// Writes a span of each of three rooms.
fn put_three(rooms: &mut [Room], q: usize, start: usize, a: &[u8], b: &[u8], c: &[u8])
    requires place { q + 3 ≤ length rooms.old }
    requires first { start + length a.now ≤ length (slice_index_or (rooms_of rooms.old) q []) }
    requires second { start + length b.now
        ≤ length (slice_index_or (rooms_of rooms.old) (q + 1) []) }
    requires third { start + length c.now
        ≤ length (slice_index_or (rooms_of rooms.old) (q + 2) []) }
    ensures length { length rooms.new ≡ length rooms.old }
    ensures sizes { (i : ℕ) → length (slice_index_or (rooms_of rooms.new) i [])
        ≡ length (slice_index_or (rooms_of rooms.old) i []) }
    ensures first { slice_index_or (rooms_of rooms.new) q []
        ≡ written start a.now (slice_index_or (rooms_of rooms.old) q []) }
    ensures second { slice_index_or (rooms_of rooms.new) (q + 1) []
        ≡ written start b.now (slice_index_or (rooms_of rooms.old) (q + 1) []) }
    ensures third { slice_index_or (rooms_of rooms.new) (q + 2) []
        ≡ written start c.now (slice_index_or (rooms_of rooms.old) (q + 2) []) }
    ensures below { (i : ℕ) → i < q → slice_index_or (rooms_of rooms.new) i []
        ≡ slice_index_or (rooms_of rooms.old) i [] }
    ensures above { (i : ℕ) → q + 3 ≤ i → slice_index_or (rooms_of rooms.new) i []
        ≡ slice_index_or (rooms_of rooms.old) i [] }
{
    put(rooms, q, start, a);
    put(rooms, q + 1, start, b);
    put(rooms, q + 2, start, c);
}

// Writes a span of the room at place q.
fn put(rooms: &mut [Room], q: usize, start: usize, block: &[u8])
    requires place { q < length rooms.old }
    requires fits { start + length block.now ≤ length (slice_index_or (rooms_of rooms.old) q []) }
    ensures length { length rooms.new ≡ length rooms.old }
    ensures here { slice_index_or (rooms_of rooms.new) q []
        ≡ written start block.now (slice_index_or (rooms_of rooms.old) q []) }
    ensures sizes { (i : ℕ) → length (slice_index_or (rooms_of rooms.new) i [])
        ≡ length (slice_index_or (rooms_of rooms.old) i []) }
    ensures others { (i : ℕ) → (i ≡ q → ⊥) → slice_index_or (rooms_of rooms.new) i []
        ≡ slice_index_or (rooms_of rooms.old) i [] }
{
    put_block(&mut rooms[q], start, block);
}

// Writes a span of a room.
fn put_block(room: &mut Room, start: usize, block: &[u8])
    requires { start + length block.now ≤ length room.old.bytes.now }
    ensures { room.new.bytes.now ≡ written start block.now room.old.bytes.now }
{
    write(room.bytes, start, block);
}

// Writes a block over the bytes from `start` on.
fn write(bytes: &mut [u8], start: usize, block: &[u8])
    requires { start + length block.now ≤ length bytes.old }
    ensures { bytes.new ≡ written start block.now bytes.old }
{
    bytes[start..start + block.len()].copy_from_slice(block);
}
