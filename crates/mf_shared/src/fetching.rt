//! The two calls that may wait for another actor: a get and a lose of a name that it has Taken.
ghost use Rattle.std.specs.Prelude.{◌≡◌, ◌+◌, ◌<◌, ◌≤◌, IfSome};
ghost use Rattle.mf_vault.specs.Actor as call;
ghost use Rattle.mf_vault.specs.Answers.{Goes, IsGot, IsReached};
ghost use Rattle.mf_vault.specs.May.{MayGet, MayLose};
ghost use Rattle.mf_shared.specs.Noted.{CallMeets, NameMeets, note_of};
ghost use Rattle.mf_shared.specs.Parts.{IsMade, TriesGet, TriesLose};
ghost use Rattle.mf_shared.specs.Whole.{told_by, room_in};

use crate::access::SharedAccess;
use crate::answering::shared;
use mf_gate::Taken;
use mf_machine::LoseStep;
use mf_vault::{Answer, Fetch, Got, Name, Op, enter, enter_get};
use std::sync::Wait;

impl<'a, R> SharedAccess<'a, R> {
    // Tries to get a chunk. None is answered where another actor has the name Taken.
    fn try_get(&mut self, name: Name) -> Option<Got>
        requires may { MayGet name (told_by self.old) }
        requires reached { IsReached (told_by self.old) name }
        ensures tries { TriesGet name result (told_by self.old) (told_by self.new) }
        ensures ledger { self.new.ledger ≡ self.old.ledger }
        ensures noted { IfSome result (λ o. NameMeets (told_by self.old).facts name (IsGot o)
            (note_of self.old) (note_of self.new)) }
        ensures steps { (note_of self.old).count ≤ (note_of self.new).count }
    {
        let n = self.number(name);
        match self.shared.gate.take(&mut self.pass, n) {
            Taken::Here(chunk) => {
                let got = shared(&chunk);
                self.shared.gate.give(&mut self.pass, n, chunk);
                Some(got)
            }
            Taken::Lost(line) => Some(Got::Lost(line)),
            Taken::Again => None,
        }
    }

    // Tries to lose a chunk. None is answered where another actor has the name Taken.
    fn try_lose(&mut self, name: Name, line: u32) -> Option<bool>
        requires { MayLose name line (told_by self.old) }
        ensures tries { TriesLose name line result (told_by self.old) (told_by self.new) }
        ensures ledger { self.new.ledger ≡ self.old.ledger }
        ensures noted { IfSome result (λ b. CallMeets (call.lose name line b) (told_by self.old)
            (note_of self.old) (note_of self.new)) }
        ensures steps { (note_of self.old).count ≤ (note_of self.new).count }
    {
        let n = self.number(name);
        match self.shared.gate.lose(&mut self.pass, n, line) {
            LoseStep::Done => Some(true),
            LoseStep::Nothing => Some(false),
            LoseStep::Again => None,
        }
    }
}

impl<'a, R: Wait> SharedAccess<'a, R> {
    // Gets a chunk whose server can be reached.
    fn fetch(&mut self, name: Name) -> Got
        requires may { MayGet name (told_by self.old) }
        requires reached { IsReached (told_by self.old) name }
        ensures made { IsMade (call.get name result) (told_by self.old) (told_by self.new) }
        ensures ledger { self.new.ledger ≡ self.old.ledger }
        ensures noted { NameMeets (told_by self.old).facts name (IsGot result)
            (note_of self.old) (note_of self.new) }
    {
        for _ in self.rt.forever() {
            if let Some(got) = self.try_get(name) {
                return got;
            }
        }
        unreachable!()
    }

    // Gets a chunk: Away where its server is cut off.
    fn got(&mut self, name: Name) -> Got
        requires { MayGet name (told_by self.old) }
        ensures made { IsMade (call.get name result) (told_by self.old) (told_by self.new) }
        ensures ledger { self.new.ledger ≡ self.old.ledger }
        ensures noted { CallMeets (call.get name result) (told_by self.old)
            (note_of self.old) (note_of self.new) }
    {
        let server = self.shared.book.server(name);
        if self.cut.has(server) {
            return Got::Away(server);
        }
        self.fetch(name)
    }

    // Loses a chunk.
    fn lost(&mut self, name: Name, line: u32) -> bool
        requires { MayLose name line (told_by self.old) }
        ensures made { IsMade (call.lose name line result) (told_by self.old) (told_by self.new) }
        ensures ledger { self.new.ledger ≡ self.old.ledger }
        ensures noted { CallMeets (call.lose name line result) (told_by self.old)
            (note_of self.old) (note_of self.new) }
    {
        for _ in self.rt.forever() {
            if let Some(yes) = self.try_lose(name, line) {
                return yes;
            }
        }
        unreachable!()
    }
}

impl<'a, R: Wait> Fetch for SharedAccess<'a, R> {
    fn get(&mut self, name: Name) -> Got
        requires may { MayGet name (told_by self.old) }
        requires room { 0 < room_in self.old }
        ensures goes { Goes (call.get name result) (told_by self.old) (told_by self.new) }
        ensures spare { room_in self.old ≤ room_in self.new + 1 }
        ensures met { CallMeets (call.get name result) (told_by self.old)
            (note_of self.old) (note_of self.new) }
    {
        let got = self.got(name);
        enter_get(&mut self.ledger, name, &got);
        got
    }

    fn lose(&mut self, name: Name, line: u32) -> bool
        requires may { MayLose name line (told_by self.old) }
        requires room { 0 < room_in self.old }
        ensures goes { Goes (call.lose name line result) (told_by self.old) (told_by self.new) }
        ensures spare { room_in self.old ≤ room_in self.new + 1 }
        ensures met { CallMeets (call.lose name line result) (told_by self.old)
            (note_of self.old) (note_of self.new) }
    {
        let yes = self.lost(name, line);
        enter(&mut self.ledger, Op::Lose, name, Answer::changed(yes));
        yes
    }
}
