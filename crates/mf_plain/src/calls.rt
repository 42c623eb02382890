//! The calls that wait for nobody, as an only actor makes them.
ghost use Rattle.std.specs.Prelude.{◌≡◌, ◌≢◌, ◌<◌, ◌≤◌, ◌-◌};

use crate::access::PlainAccess;
use crate::answering::{
    close_by, drop_rest, hold_after, hold_without, pinned_by, place_of, shut_after, work_after,
    work_without,
};
use mf_vault::{
    Access, Answer, Book, Chunk, Closed, Entry, Memory, Name, Note, Op, Pinned, Rest, Servers,
    Slot, State, append, enter,
};

impl Access for PlainAccess {
    ghost use Rattle.std.specs.Prelude.{length, vec_capacity};
    ghost use Rattle.mf_plain.specs.Whole.{actor_of, kept_of};

    ghost actor = { actor_of };

    ghost spare = { λ s. vec_capacity s.ledger - length s.ledger.items };

    fn book(&self) -> &Book {
        &self.book
    }

    fn age(&self) -> u64 {
        self.ticks - self.born
    }

    fn ledger(&self) -> &[Entry] {
        self.ledger.as_slice()
    }

    fn cut_off(&mut self, servers: Servers) {
        let known = Note::pick(&(servers, &*self));
        self.cut = servers;
        self.known = known;
    }

    fn pin(&mut self, slot: Slot) -> Pinned {
        let pinned = pinned_by(self.number, self.book.stages());
        let known = Note::pick(&(slot, pinned, &*self));
        self.hold = hold_after(slot, pinned, self.hold);
        self.work = work_after(slot, pinned, self.work);
        self.known = known;
        pinned
    }

    fn pinned(&self, slot: Slot) -> Option<u32> {
        match slot {
            Slot::Hold => self.hold,
            Slot::Work => self.work,
        }
    }

    fn unpin(&mut self, slot: Slot) {
        let known = Note::pick(&(slot, &*self));
        self.hold = hold_without(slot, self.hold);
        self.work = work_without(slot, self.work);
        self.known = known;
    }

    fn begin(&mut self) -> bool {
        let known = Note::pick(&*self);
        self.right = true;
        self.known = known;
        true
    }

    fn end(&mut self) {
        let known = Note::pick(&*self);
        self.right = false;
        self.known = known;
    }

    fn reserve(&mut self, n: usize) -> Result<(), Memory> {
        self.ledger.try_reserve(n)?;
        Ok(())
    }

    fn probe(&mut self, name: Name) -> State {
        let state = self.state(name);
        let note = Note::pick(&(name, state, &*self));
        enter(&mut self.ledger, Op::Probe, name, Answer::told(state));
        self.known = note;
        state
    }

    fn put(&mut self, name: Name, bytes: Chunk) {
        let n = place_of(&self.book, name);
        let known = Note::pick(&(name, &*self));
        self.names[n] = Rest::Here(bytes);
        enter(&mut self.ledger, Op::Put, name, Answer::changed(true));
        self.known = known;
    }

    fn restore(&mut self, name: Name, bytes: Chunk) {
        let at = place_of(&self.book, name);
        let known = Note::pick(&(name, &*self));
        self.names[at] = Rest::Here(bytes);
        enter(&mut self.ledger, Op::Restore, name, Answer::changed(true));
        self.known = known;
    }

    fn publish(&mut self, next: u32) {
        let known = Note::pick(&(next, &*self));
        self.number = next;
        self.known = known;
    }

    fn close(&mut self, g: u32) -> Closed {
        let shut = self.closed[g as usize];
        let closed = close_by(shut, self.pins(g));
        let known = Note::pick(&(g, closed, &*self));
        self.closed[g as usize] = shut_after(closed, shut);
        append(&mut self.ledger, Entry::Close { g, closed });
        self.known = known;
        closed
    }

    fn discard(&mut self, name: Name) -> bool {
        let n = place_of(&self.book, name);
        let known = Note::pick(&(name, &*self));
        let yes = drop_rest(&mut self.names[n]);
        enter(&mut self.ledger, Op::Discard, name, Answer::changed(yes));
        self.known = known;
        yes
    }

    ghost kept = { kept_of };
}
