//! The course of a conversion.
ghost use Rattle.std.specs.Prelude.{◌≡◌, ◌<◌, ◌≤◌, ◌^◌, length, IfOk, IfErr};
ghost use Rattle.mf_vault.specs.Counting.{io_of};
ghost use Rattle.mf_convert.specs.Converting.{since, IsInTime, MayGoOn, IsStopped};

use crate::change::Change;
use mf_vault::{Access, Entry, count_io};

/// The generation that a conversion goes on from, after how many chunk operations it stops, where
/// it is to stop, and how many entries the ledger had when it began.
#[derive(Clone, Copy)]
pub(crate) struct Course {
    pub from: u32,
    pub stop: Option<u32>,
    pub start: usize,
}

impl Course {
    /// How many parities were put or restored since the conversion began.
    pub(crate) fn made<A: Access>(&self, access: &A) -> u32
        requires begun { self.now.start ≤ length (A.actor access.now).entries }
        requires few { length (since self.now (A.actor access.now)) < 2 ^ 32 }
        ensures { result ≡ (io_of (since self.now (A.actor access.now))).writes }
    {
        count_io(self.since(access)).writes as u32
    }

    // The entries since the conversion began.
    fn since<'a, A: Access>(&self, access: &'a A) -> &'a [Entry]
        requires { self.now.start ≤ length (A.actor access.now).entries }
        ensures { result.now ≡ since self.now (A.actor access.now) }
    {
        &access.ledger()[self.start..]
    }

    /// An error where another chunk operation is due and as many were done as are allowed.
    pub(crate) fn go_on<A: Access>(&self, access: &A) -> Result<(), Change>
        requires time { IsInTime self.now (A.actor access.now) }
        requires next { self.now.from < 4294967295 }
        ensures on { IfOk result (λ _. MayGoOn self.now (A.actor access.now)) }
        ensures stopped { IfErr result (IsStopped self.now (A.actor access.now)) }
    {
        match self.stop {
            Some(most) if self.since(access).len() >= most as usize => Err(Change::Stopped {
                from: self.from,
                to: self.from + 1,
                made: self.made(access),
            }),
            _ => Ok(()),
        }
    }
}
