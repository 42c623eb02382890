//! The calls that wait for nobody.
ghost use Rattle.std.specs.Prelude.{◌≡◌};

use crate::access::SharedAccess;
use mf_vault::{
    Access, Answer, Book, Chunk, Closed, Entry, Memory, Name, Op, Pinned, Servers, Slot, State,
    append, enter,
};

impl<'a, R> SharedAccess<'a, R> {
    ghost use Rattle.std.specs.Prelude.{◌<◌, ◌≤◌, IfSome};
    ghost use Rattle.mf_places.specs.Names.{HasName, count_of, name_at};
    ghost use Rattle.mf_places.specs.Numbers.{number_of};
    ghost use Rattle.mf_vault.specs.Actor as call;
    ghost use Rattle.mf_vault.specs.May.{MayPin, MayProbe};
    ghost use Rattle.mf_shared.specs.Noted.{PinMeets, StateMeets, note_of};
    ghost use Rattle.mf_shared.specs.Parts.{IsMade, TriesPin};
    ghost use Rattle.mf_shared.specs.Whole.{told_by};

    // The number of a name.
    pub(crate) fn number(&self, name: Name) -> u32
        requires { HasName self.now.shared.now.book name }
        ensures value { result ≡ number_of self.now.shared.now.book name }
        ensures low { result < count_of self.now.shared.now.book }
        ensures name { name_at self.now.shared.now.book result ≡ name }
    {
        let Some(n) = self.shared.book.number(name) else {
            unreachable!()
        };
        n
    }

    // Tries to pin the published generation. None is answered where it was closed when the pin
    // came.
    fn try_pin(&mut self, slot: Slot) -> Option<Pinned>
        requires { MayPin slot (told_by self.old) }
        ensures tries { TriesPin slot result (told_by self.old) (told_by self.new) }
        ensures ledger { self.new.ledger ≡ self.old.ledger }
        ensures noted { IfSome result (λ p. PinMeets (told_by self.old).facts p
            (note_of self.old) (note_of self.new)) }
        ensures steps { (note_of self.old).count ≤ (note_of self.new).count }
    {
        let stages = self.shared.book.stages();
        let number = self.shared.gate.look(&mut self.pass);
        if number == 0 {
            return Some(Pinned::Absent);
        }
        if number > stages {
            return Some(Pinned::Removed);
        }
        let g = number - 1;
        if !self.shared.gate.pin(&mut self.pass, slot, g) {
            return None;
        }
        match slot {
            Slot::Hold => self.hold = Some(g),
            Slot::Work => self.work = Some(g),
        }
        Some(Pinned::At(g))
    }

    // The state of a name: Away where its server is cut off.
    fn state(&mut self, name: Name) -> State
        requires { MayProbe name (told_by self.old) }
        ensures made { IsMade (call.probe name result) (told_by self.old) (told_by self.new) }
        ensures ledger { self.new.ledger ≡ self.old.ledger }
        ensures noted { StateMeets (told_by self.old).facts name result
            (note_of self.old) (note_of self.new) }
    {
        let server = self.shared.book.server(name);
        if self.cut.has(server) {
            return State::Away(server);
        }
        let n = self.number(name);
        self.shared.gate.see(&mut self.pass, n)
    }
}

impl<'a, R> Access for SharedAccess<'a, R> {
    ghost use Rattle.std.specs.Prelude.{◌+◌, ◌<◌, ◌≤◌, ℕ, List, []};
    ghost use Rattle.mf_vault.specs.Actor as call;
    ghost use Rattle.mf_vault.specs.Answers.{Goes};
    ghost use Rattle.mf_vault.specs.Facts.{cell_of};
    ghost use Rattle.mf_vault.specs.May.{MayBegin, MayClose, MayDiscard, MayEnd, MayPin, MayProbe};
    ghost use Rattle.mf_vault.specs.May.{MayPublish, MayPut, MayRestore, MayUnpin};
    ghost use Rattle.mf_shared.specs.Noted.{CallMeets, note_of};
    ghost use Rattle.mf_shared.specs.Whole.{told_by, room_in, kept_of};

    ghost actor = { told_by };

    ghost spare = { room_in };

    fn book(&self) -> &Book {
        &self.shared.book
    }

    fn age(&self) -> u64 {
        self.shared.ticks - self.shared.born
    }

    fn ledger(&self) -> &[Entry] {
        self.ledger.as_slice()
    }

    fn cut_off(&mut self, servers: Servers)
        ensures goes { Goes (call.cut_off servers) (told_by self.old) (told_by self.new) }
        ensures spare { room_in self.new ≡ room_in self.old }
        ensures met { CallMeets (call.cut_off servers) (told_by self.old)
            (note_of self.old) (note_of self.new) }
    {
        self.cut = servers;
    }

    fn pin(&mut self, slot: Slot) -> Pinned
        requires { MayPin slot (told_by self.old) }
        ensures goes { (missed : List ℕ)
            × Goes (call.pin slot missed result) (told_by self.old) (told_by self.new) }
        ensures spare { room_in self.new ≡ room_in self.old }
        ensures met { CallMeets (call.pin slot [] result) (told_by self.old)
            (note_of self.old) (note_of self.new) }
    {
        // The number grows with each turn that falls on a closed generation.
        for _ in 0..=self.shared.book.stages() {
            if let Some(pinned) = self.try_pin(slot) {
                return pinned;
            }
        }
        unreachable!()
    }

    fn pinned(&self, slot: Slot) -> Option<u32> {
        match slot {
            Slot::Hold => self.hold,
            Slot::Work => self.work,
        }
    }

    fn unpin(&mut self, slot: Slot)
        requires { MayUnpin slot (told_by self.old) }
        ensures goes { Goes (call.unpin slot) (told_by self.old) (told_by self.new) }
        ensures spare { room_in self.new ≡ room_in self.old }
        ensures met { CallMeets (call.unpin slot) (told_by self.old)
            (note_of self.old) (note_of self.new) }
    {
        let Some(g) = self.pinned(slot) else {
            unreachable!()
        };
        self.shared.gate.unpin(&mut self.pass, slot, g);
        match slot {
            Slot::Hold => self.hold = None,
            Slot::Work => self.work = None,
        }
    }

    fn begin(&mut self) -> bool
        requires { MayBegin (told_by self.old) }
        ensures goes { Goes (call.begin result) (told_by self.old) (told_by self.new) }
        ensures spare { room_in self.new ≡ room_in self.old }
        ensures met { CallMeets (call.begin result) (told_by self.old)
            (note_of self.old) (note_of self.new) }
    {
        self.right = self.shared.gate.begin(&mut self.pass);
        self.right
    }

    fn end(&mut self)
        requires { MayEnd (told_by self.old) }
        ensures goes { Goes call.end (told_by self.old) (told_by self.new) }
        ensures spare { room_in self.new ≡ room_in self.old }
        ensures met { CallMeets call.end (told_by self.old)
            (note_of self.old) (note_of self.new) }
    {
        self.shared.gate.end(&mut self.pass);
        self.right = false;
    }

    fn reserve(&mut self, n: usize) -> Result<(), Memory> {
        self.ledger.try_reserve(n)?;
        Ok(())
    }

    fn probe(&mut self, name: Name) -> State
        requires may { MayProbe name (told_by self.old) }
        requires room { 0 < room_in self.old }
        ensures goes { Goes (call.probe name result) (told_by self.old) (told_by self.new) }
        ensures spare { room_in self.old ≤ room_in self.new + 1 }
        ensures met { CallMeets (call.probe name result) (told_by self.old)
            (note_of self.old) (note_of self.new) }
    {
        let state = self.state(name);
        enter(&mut self.ledger, Op::Probe, name, Answer::told(state));
        state
    }

    fn put(&mut self, name: Name, bytes: Chunk)
        requires may { MayPut name (told_by self.old) }
        requires cell { bytes ≡ cell_of (told_by self.old).facts name }
        requires room { 0 < room_in self.old }
        ensures goes { Goes (call.put name) (told_by self.old) (told_by self.new) }
        ensures spare { room_in self.old ≤ room_in self.new + 1 }
        ensures met { CallMeets (call.put name) (told_by self.old)
            (note_of self.old) (note_of self.new) }
    {
        let n = self.number(name);
        self.shared.gate.birth(&mut self.pass, n, bytes);
        enter(&mut self.ledger, Op::Put, name, Answer::changed(true));
    }

    fn restore(&mut self, name: Name, bytes: Chunk)
        requires may { MayRestore name (told_by self.old) }
        requires cell { bytes ≡ cell_of (told_by self.old).facts name }
        requires room { 0 < room_in self.old }
        ensures goes { Goes (call.restore name) (told_by self.old) (told_by self.new) }
        ensures spare { room_in self.old ≤ room_in self.new + 1 }
        ensures met { CallMeets (call.restore name) (told_by self.old)
            (note_of self.old) (note_of self.new) }
    {
        let n = self.number(name);
        self.shared.gate.retake(&mut self.pass, n, bytes);
        enter(&mut self.ledger, Op::Restore, name, Answer::changed(true));
    }

    fn publish(&mut self, next: u32)
        requires { MayPublish next (told_by self.old) }
        ensures goes { Goes (call.publish next) (told_by self.old) (told_by self.new) }
        ensures spare { room_in self.new ≡ room_in self.old }
        ensures met { CallMeets (call.publish next) (told_by self.old)
            (note_of self.old) (note_of self.new) }
    {
        self.shared.gate.publish(&mut self.pass, next);
    }

    fn close(&mut self, g: u32) -> Closed
        requires may { MayClose g (told_by self.old) }
        requires room { 0 < room_in self.old }
        ensures goes { Goes (call.close g result) (told_by self.old) (told_by self.new) }
        ensures spare { room_in self.old ≤ room_in self.new + 1 }
        ensures met { CallMeets (call.close g result) (told_by self.old)
            (note_of self.old) (note_of self.new) }
    {
        let closed = self.shared.gate.close(&mut self.pass, g);
        append(&mut self.ledger, Entry::Close { g, closed });
        closed
    }

    fn discard(&mut self, name: Name) -> bool
        requires may { MayDiscard name (told_by self.old) }
        requires room { 0 < room_in self.old }
        ensures goes { Goes (call.discard name result) (told_by self.old) (told_by self.new) }
        ensures spare { room_in self.old ≤ room_in self.new + 1 }
        ensures met { CallMeets (call.discard name result) (told_by self.old)
            (note_of self.old) (note_of self.new) }
    {
        let n = self.number(name);
        let yes = self.shared.gate.drop_name(&mut self.pass, n);
        enter(&mut self.ledger, Op::Discard, name, Answer::changed(yes));
        yes
    }

    ghost kept = { kept_of };
}
