//! Gatherings from every set of places that are lost, beside the data and the order of asking.
ghost use Rattle.std.specs.Prelude.{◌≡◌, ◌≤◌, None, length};

use crate::plain::{assert_no_row, rows};
use crate::stores::Store;
use mf_check::{Family, check};
use mf_decode::{Asked, Chunk, Gathered, Memory, Place, gather};
use mf_shape::{Shape, Stage};
use std::alloc::{AllocError, Global};
use std::test::Fail;

// A width, points, the pieces that there are, and their bytes. Every set of places is lost.
static STRIPES: [(u32, &[u8], u32, u32); 6] = [
    (2, &[2, 3], 2, 33),
    (6, &[2, 4, 8], 6, 33),
    (4, &[1], 4, 1),
    (4, &[1], 4, 4_095),
    (4, &[1], 4, 4_096),
    (4, &[1], 4, 4_097),
];

// Of a stripe of six with three parities: the pieces that there are, their bytes, and which pieces
// and which parities are lost.
static LOST: [(u32, u32, u64, u64); 8] = [
    (6, 1, 0b10110, 0),
    (4, 1, 0b1010, 0b010),
    (6, 4_095, 0b10110, 0),
    (4, 4_095, 0b1010, 0b010),
    (6, 4_096, 0b10110, 0),
    (4, 4_096, 0b1010, 0b010),
    (6, 4_097, 0b10110, 0),
    (4, 4_097, 0b1010, 0b010),
];

// The family of one stage of this width over these points.
pub fn family_of(alloc: Global, width: u32, points: &[u8]) -> Option<Family> {
    let stage = Stage {
        width,
        parities: points.len().min(5) as u32,
        copies: 0,
    };
    let Ok(shape) = Shape::new(alloc, &[stage], 128) else {
        return None;
    };
    check(alloc, &shape, points).ok()
}

// What can be had of the store.
pub fn gather_from(alloc: Global, family: &Family, store: &mut Store) -> Gathered
    requires points { store.old.points.now ≡ family.now.points }
    requires unbroken { store.old.failure ≡ None }
{
    let width = family.shape().stages()[0].width;
    let count = store.pieces.len();
    let size = store.size;
    if count > width as usize {
        return Gathered::Short;
    }
    gather(alloc, store, family.points(), width, count as u32, size)
}

// Whether number n of what was asked is this place, and it was had or not.
fn is_asked(store: &Store, n: u32, place: Place, had: bool) -> bool {
    match store.asked.get(n as usize) {
        Some(asked) => is_place(asked.place, place) && asked.had == had,
        None => false,
    }
}

pub fn is_place(place: Place, wanted: Place) -> bool {
    match (place, wanted) {
        (Place::Piece(t), Place::Piece(u)) => t == u,
        (Place::Parity(p), Place::Parity(q)) => p == q,
        _ => false,
    }
}

// Each piece is asked for once, ascending; then parities, ascending, until as many are had as
// pieces are lost.
fn are_in_order(store: &Store, count: u32, lost: u64, lost_parities: u64) -> bool
    requires { count ≤ 64 }
{
    for t in 0..count {
        if !is_asked(store, t, Place::Piece(t), lost >> t & 1 == 0) {
            return false;
        }
    }
    let mut had = 0u32;
    let mut end = count;
    for p in 0..store.points.len().min(4) as u32 {
        if had == lost.count_ones() {
            break;
        }
        let left = lost_parities >> p & 1 == 0;
        if !is_asked(store, end, Place::Parity(p), left) {
            return false;
        }
        had = had.saturating_add(u32::from(left));
        end = end.saturating_add(1);
    }
    store.asked.len() == end as usize
}

// Whether the chunks are the first `count` rows of `size` bytes.
fn are_rows(alloc: Global, chunks: &[Chunk], count: u32, size: u32) -> Result<bool, Memory> {
    let data = rows(alloc, 0, count, size as usize)?;
    for (chunk, row) in chunks.iter().zip(data.as_slice()) {
        if chunk.bytes() != row.as_slice() {
            return Ok(false);
        }
    }
    Ok(chunks.len() == count as usize)
}

// Whether the first `count` pieces, of `size` bytes, are had in order as far as they can be, where
// these pieces and these parities are lost.
fn is_gathered(
    alloc: Global,
    family: &Family,
    count: u32,
    size: u32,
    lost: u64,
    lost_parities: u64,
) -> Result<bool, Memory>
    requires { count ≤ 64 }
{
    let points = family.points();
    let mut store = Store::new(alloc, points, count, size, lost, lost_parities)?;
    let missing = lost.count_ones() + lost_parities.count_ones();
    let enough = lost == 0 || missing <= points.len().min(4) as u32;
    let is_told = match gather_from(alloc, family, &mut store) {
        Gathered::All(chunks) => enough && are_rows(alloc, &chunks, count, size)?,
        Gathered::Short => !enough,
        Gathered::Memory => return Err(AllocError),
    };
    Ok(is_told && are_in_order(&store, count, lost, lost_parities))
}

// Every set of places of the first `count` pieces is lost.
fn are_gathered(
    alloc: Global,
    family: &Family,
    count: u32,
    parities: usize,
    size: u32,
) -> Result<bool, Memory>
    requires { (count ≤ 6) × (parities ≤ 4) }
{
    let pieces = (1u64 << count) - 1;
    for set in 0..1u64 << (count + parities as u32) {
        if !is_gathered(alloc, family, count, size, set & pieces, set >> count)? {
            return Ok(false);
        }
    }
    Ok(true)
}

fn first_other_stripe(alloc: Global) -> Result<Option<usize>, Memory> {
    for (row, (width, points, count, size)) in STRIPES.iter().enumerate() {
        let Some(family) = family_of(alloc, *width, points) else {
            return Ok(Some(row));
        };
        if *count > 6 || points.len() > 4 {
            return Ok(Some(row));
        }
        if !are_gathered(alloc, &family, *count, points.len(), *size)? {
            return Ok(Some(row));
        }
    }
    Ok(None)
}

fn first_other_loss(alloc: Global) -> Result<Option<usize>, Memory> {
    let Some(family) = family_of(alloc, 6, &[2, 4, 8]) else {
        return Ok(Some(0));
    };
    for (row, (count, size, lost, lost_parities)) in LOST.iter().enumerate() {
        if *count > 64 || !is_gathered(alloc, &family, *count, *size, *lost, *lost_parities)? {
            return Ok(Some(row));
        }
    }
    Ok(None)
}

// Of a stripe of 64 pieces any three places that stand side by side are lost.
fn first_other_three(alloc: Global) -> Result<Option<usize>, Memory> {
    let Some(family) = family_of(alloc, 64, &[2, 4, 8]) else {
        return Ok(Some(0));
    };
    for first in 0..65u32 {
        let set = 7u128 << first;
        let lost = (set & u64::MAX as u128) as u64;
        let lost_parities = (set >> 64 & 7) as u64;
        if !is_gathered(alloc, &family, 64, 17, lost, lost_parities)? {
            return Ok(Some(first as usize));
        }
    }
    Ok(None)
}

#[test]
fn every_set_of_lost_places(rt: HostRuntime) -> Result<(), Fail> {
    assert_no_row(&rt, first_other_stripe(rt.alloc())?);
    assert_no_row(&rt, first_other_loss(rt.alloc())?);
    assert_no_row(&rt, first_other_three(rt.alloc())?);
    Ok(())
}
