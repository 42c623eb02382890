//! Getting and losing chunks, as an only actor does.
ghost use Rattle.std.specs.Prelude.{◌≡◌, ◌≢◌, ◌+◌, ◌<◌, ◌≤◌, slice_index_or};
ghost use Rattle.mf_machine.specs.Steps.{see_answer};
ghost use Rattle.mf_places.specs.Names.{HasName};
ghost use Rattle.mf_places.specs.Placement.{server_of};
ghost use Rattle.mf_places.specs.Numbers.{number_of};
ghost use Rattle.mf_places.specs.Servers.{IsIn};
ghost use Rattle.mf_vault.specs.Resting.{word_of};
ghost use Rattle.mf_vault.specs.declared.answers.Rest.TheVariants as rest;

use crate::access::PlainAccess;
use crate::answering::{got_of, lose_rest, pin_of, place_of, state_of};
use mf_vault::{Answer, Fetch, Got, Name, Note, Op, State, enter, enter_get};

impl PlainAccess {
    ghost use Rattle.mf_plain.specs.Found.{StateIn, GotIn, IsThereIn};
    ghost use Rattle.mf_plain.specs.Whole.{pins_in};

    // The pins of a generation.
    pub(crate) fn pins(&self, g: u32) -> u32
        ensures value { result ≡ pins_in self.now g }
        ensures low { result ≤ 2 }
    {
        pin_of(self.hold, g) + pin_of(self.work, g)
    }

    // The state of a name, which is Away where its server is cut off.
    pub(crate) fn state(&self, name: Name) -> State
        requires { HasName self.now.book name }
        ensures { StateIn self.now name result }
    {
        let server = self.book.server(name);
        if self.cut.has(server) {
            return State::Away(server);
        }
        state_of(&self.names[place_of(&self.book, name)])
    }

    // The chunk of a name, unless its server is cut off.
    fn got(&self, name: Name) -> Got
        requires had { HasName self.now.book name }
        requires there { IsThereIn self.now name }
        ensures { GotIn self.now name result }
    {
        let server = self.book.server(name);
        if self.cut.has(server) {
            return Got::Away(server);
        }
        got_of(&self.names[place_of(&self.book, name)])
    }
}

impl Fetch for PlainAccess {
    fn get(&mut self, name: Name) -> Got {
        let got = self.got(name);
        let note = Note::pick(&(name, &got, &*self));
        enter_get(&mut self.ledger, name, &got);
        self.known = note;
        got
    }

    fn lose(&mut self, name: Name, line: u32) -> bool {
        let n = place_of(&self.book, name);
        let known = Note::pick(&(name, line, &*self));
        let yes = lose_rest(&mut self.names[n], line);
        enter(&mut self.ledger, Op::Lose, name, Answer::changed(yes));
        self.known = known;
        yes
    }
}
