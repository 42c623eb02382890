//! The parities of a stripe, in rooms of the caller's.
ghost use Rattle.std.specs.Prelude.{◌≡◌, ◌*◌, ◌/◌, ◌%◌, ◌<◌, ◌≤◌, ℕ, [], length, map, slice_index};
ghost use Rattle.std.specs.Prelude.{slice_index_or};
ghost use Rattle.mf_code.specs.Field.{power};
ghost use Rattle.mf_code.specs.Rows.{weighted_lists};
ghost use Rattle.morph_codes.specs.Handed.{bytes_of, rooms_of, HaveColumns, RoomsFit};

use crate::applying::fill_by_rows;
use crate::handed::{Piece, Room};
use mf_field::pow;
use mf_kernel::fill_powers;
use mf_shape::MAX_PARITIES;

// The coefficients of so many rows of the widest stripe.
const ROWS: usize = 256;

/// Fills the rooms with the parities, one for each point. A code has at most four points; the
/// parities of more are made one by one.
pub(crate) fn fill_rooms(points: &[u8], pieces: &[Piece], size: usize, rooms: &mut [Room])
    requires few { length pieces.now ≤ 64 }
    requires columns { HaveColumns 0 size pieces.now }
    requires count { length rooms.old ≡ length points.now }
    requires sizes { RoomsFit size rooms.old }
    ensures { rooms_of rooms.new
        ≡ map (λ point. weighted_lists size point (bytes_of pieces.now)) points.now }
{
    if points.len() <= MAX_PARITIES as usize {
        fill_few(points, pieces, size, rooms);
    } else {
        fill_each(points, pieces, size, rooms);
    }
}

// The same of at most four points.
fn fill_few(points: &[u8], pieces: &[Piece], size: usize, rooms: &mut [Room])
    requires few { length pieces.now ≤ 64 }
    requires few_points { length points.now ≤ 4 }
    requires columns { HaveColumns 0 size pieces.now }
    requires count { length rooms.old ≡ length points.now }
    requires sizes { RoomsFit size rooms.old }
    ensures { rooms_of rooms.new
        ≡ map (λ point. weighted_lists size point (bytes_of pieces.now)) points.now }
{
    let mut room = [0; ROWS];
    let rows = &mut room[..points.len() * pieces.len()];
    put_powers(points, pieces.len(), rows);
    fill_by_rows(rows, pieces, size, rooms);
}

// The same, room by room.
fn fill_each(points: &[u8], pieces: &[Piece], size: usize, rooms: &mut [Room])
    requires few { length pieces.now ≤ 64 }
    requires columns { HaveColumns 0 size pieces.now }
    requires count { length rooms.old ≡ length points.now }
    requires sizes { RoomsFit size rooms.old }
    ensures { rooms_of rooms.new
        ≡ map (λ point. weighted_lists size point (bytes_of pieces.now)) points.now }
{
    for q in 0..points.len() {
        fill_room(points[q], pieces, &mut rooms[q]);
    }
}

// Fills a room with the parity of a point.
fn fill_room(point: u8, pieces: &[Piece], room: &mut Room)
    requires few { length pieces.now ≤ 64 }
    requires columns { HaveColumns 0 (length room.old.bytes.now) pieces.now }
    ensures { room.new.bytes.now
        ≡ weighted_lists (length room.old.bytes.now) point (bytes_of pieces.now) }
{
    fill_powers(point, 1, pieces, 0, room.bytes);
}

// Fills rows of n coefficients each with the powers of points, a row for each.
fn put_powers(points: &[u8], n: usize, rows: &mut [u8])
    requires few { n ≤ 64 }
    requires rows { length rows.old ≡ length points.now * n }
    ensures length { length rows.new ≡ length points.now * n }
    ensures powers { (i : ℕ) → i < length points.now * n → slice_index rows.new i
        ≡ power (slice_index points.now (i / n)) (i % n) }
{
    for i in 0..rows.len() {
        rows[i] = pow(points[i / n], (i % n) as u32);
    }
}
