//! Reads that hand their bytes on: of a file that is whole, that lost names, or of which servers are
//! out of reach; and to a taker that has no memory for a piece.
ghost use Rattle.std.specs.Prelude.{◌≡◌, ◌≤◌, length};
ghost use Rattle.mf_vault.specs.Conditions.{IsOfFamily};

use crate::mendings::{created, lose_all};
use crate::stages::{assert_no_row, family_of, file};
use mf_check::Family;
use mf_plain::{Plain, PlainAccess};
use mf_read::{IntoOutcome, PlanCache, Taker, read_into};
use mf_shape::Stage;
use mf_vault::{Access, Losses, Memory, Name, Servers};
use std::alloc::{AllocError, Global};
use std::test::Fail;

// The stages of the family. Of each file the data lie on the servers 0 to 3 in turn, and the
// parities on 4 and 5.
static STAGES: [Stage; 2] = [
    Stage {
        width: 2,
        parities: 2,
        copies: 0,
    },
    Stage {
        width: 4,
        parities: 2,
        copies: 0,
    },
];

// A text of three stripes, of which the last has one chunk, and that chunk one byte.
const TEXT: &[u8] = b"abcdefghi";

// What a read is to come to: the bytes, and from how many chunks they are; or the stripe where it
// ended, with the names that were lost or the one that is out of reach.
enum Wanted {
    Bytes(u32),
    Lost(u32, &'static [(Name, u32)]),
    Unreachable(u32, Name, u32),
    Memory,
}

// A read of the file of this text, of which these servers are emptied in turn, by the lines 11, 12
// and so on, and these are out of reach (as bits). It is handed to a taker that has no memory for
// the piece with the number `refused`. What comes of it, what is taken, and how many pieces were
// handed on.
struct Row {
    text: &'static [u8],
    lost: &'static [u32],
    away: u128,
    refused: Option<u32>,
    wanted: Wanted,
    taken: &'static [u8],
    handed: u32,
}

macro_rules! row {
    ($text:expr, $lost:expr, $away:expr, $refused:expr, $wanted:expr, $taken:expr, $n:expr) => {
        Row {
            text: $text,
            lost: $lost,
            away: $away,
            refused: $refused,
            wanted: $wanted,
            taken: $taken,
            handed: $n,
        }
    };
}

static ROWS: [Row; 13] = [
    row!(TEXT, &[], 0, None, Wanted::Bytes(5), TEXT, 5),
    row!(b"", &[], 0, None, Wanted::Bytes(0), b"", 0),
    // A chunk of the first stripe is lost, and the only one of the last.
    row!(TEXT, &[0], 0, None, Wanted::Bytes(5), TEXT, 5),
    row!(TEXT, &[], 0b1, None, Wanted::Bytes(5), TEXT, 5),
    // The second stripe has lost more than it bears, or can't be had.
    row!(
        TEXT,
        &[2, 3, 4],
        0,
        None,
        Wanted::Lost(
            1,
            &[
                (Name::Data(2), 11),
                (Name::Data(3), 12),
                (Name::Parity(2, 1, 0), 13)
            ]
        ),
        b"abcd",
        2
    ),
    row!(
        TEXT,
        &[],
        0b11100,
        None,
        Wanted::Unreachable(1, Name::Data(2), 2),
        b"abcd",
        2
    ),
    // There is no memory for one of the pieces.
    row!(TEXT, &[], 0, Some(0), Wanted::Memory, b"", 1),
    row!(TEXT, &[], 0, Some(1), Wanted::Memory, b"ab", 2),
    row!(TEXT, &[], 0, Some(2), Wanted::Memory, b"abcd", 3),
    row!(TEXT, &[], 0, Some(3), Wanted::Memory, b"abcdef", 4),
    row!(TEXT, &[], 0, Some(4), Wanted::Memory, b"abcdefgh", 5),
    row!(TEXT, &[], 0, Some(5), Wanted::Bytes(5), TEXT, 5),
    row!(TEXT, &[0], 0, Some(4), Wanted::Memory, b"abcdefgh", 5),
];

// A taker that counts the pieces, and has no memory for the one with the number `refused`.
#[derive(Drop)]
struct Forgetful {
    bytes: Vec<u8>,
    handed: u32,
    refused: Option<u32>,
}

impl Taker for Forgetful {
    ghost taken = { λ taker. taker.bytes.items };

    fn take(&mut self, piece: &[u8]) -> Result<(), Memory> {
        let number = self.handed;
        self.handed = number.saturating_add(1);
        match self.refused {
            Some(refused) if refused == number => Err(AllocError),
            _ => self.bytes.extend_from_slice(piece),
        }
    }
}

// What a read comes to where these servers are out of reach.
fn read(
    alloc: Global,
    plain: Plain,
    family: &Family,
    losses: &Losses,
    away: Servers,
    taker: &mut Forgetful,
) -> IntoOutcome
    requires family { IsOfFamily family.now.shape family.now.points plain.book }
    requires losses { losses.now ≡ plain.losses }
{
    let now = plain.born();
    let mut access = PlainAccess::new(alloc, plain, now, losses);
    access.cut_off(away);
    read_into(alloc, &mut access, family, &mut PlanCache::none(), taker)
}

// Whether it is what was wanted, of a file of so many bytes.
fn is_wanted(outcome: &IntoOutcome, wanted: &Wanted, bytes: usize) -> bool {
    match (outcome, wanted) {
        (IntoOutcome::Bytes { g: 0, length, from }, Wanted::Bytes(chunks)) => {
            *length as usize == bytes && from == chunks
        }
        (IntoOutcome::DataLost { g: 0, stripe, lost }, Wanted::Lost(j, names)) => {
            stripe == j && lost.as_slice() == *names
        }
        (
            IntoOutcome::Unreachable {
                g: 0,
                stripe,
                name,
                server,
            },
            Wanted::Unreachable(j, n, s),
        ) => stripe == j && name == n && server == s,
        (IntoOutcome::Memory, Wanted::Memory) => true,
        _ => false,
    }
}

// Whether the read of a row comes to what was worked out.
fn is_read(alloc: Global, family: &Family, row: &Row) -> Result<bool, Memory>
    requires { length row.now.text.now ≤ 64 }
{
    let mut losses = Losses::new(alloc);
    let plain = file(alloc, family, 2, row.text)?;
    let plain = created(alloc, plain, family, row.text, &losses);
    let plain = lose_all(alloc, plain, &mut losses, row.lost)?;
    let mut taker = Forgetful {
        bytes: Vec::new(alloc),
        handed: 0,
        refused: row.refused,
    };
    let away = Servers { bits: row.away };
    let outcome = read(alloc, plain, family, &losses, away, &mut taker);
    let is_taken = taker.bytes.as_slice() == row.taken && taker.handed == row.handed;
    Ok(is_taken && is_wanted(&outcome, &row.wanted, row.text.len()))
}

fn first_other(alloc: Global) -> Result<Option<usize>, Memory> {
    let family = family_of(alloc, &STAGES, 6)?;
    for (n, row) in ROWS.iter().enumerate() {
        if row.text.len() > 64 || !is_read(alloc, &family, row)? {
            return Ok(Some(n));
        }
    }
    Ok(None)
}

#[test]
fn reads_hand_on_what_can_be_had(rt: HostRuntime) -> Result<(), Fail> {
    assert_no_row(&rt, first_other(rt.alloc())?);
    Ok(())
}
