//! The texts of commands.

ghost use Rattle.std.specs.Prelude.{◌≡◌};
ghost use Rattle.mf_lines.specs.Meaning.{names_in};
ghost use Rattle.mf_lines.specs.LineTexts.{name_at};

use crate::parts::{Act, FileLine};
use crate::words::Verb;
use mf_places::Servers;
use std::fmt;

/// The name of a file, or nothing where there is none of this number.
pub fn name_of(files: &[FileLine], file: u32) -> &str
    ensures { result.now ≡ name_at (names_in files.now) file }
{
    match files.get(file as usize) {
        Some(line) => line.name.as_str(),
        None => "",
    }
}

impl fmt::Display for Verb {
    ghost use Rattle.std.specs.Prelude.{Some};
    ghost use Rattle.mf_lines.specs.Words.{verb_text};

    ghost output = { λ verb. Some (verb_text verb) };

    fn fmt<W: fmt::Write>(&self, f: &mut fmt::Formatter<W>) -> fmt::Result {
        let word = self.text();
        write!(f, "{word}")
    }
}

// A file's name, and behind `without` the servers that can't be reached, if there are any.
#[derive(Clone, Copy)]
struct Reach<'a> {
    name: &'a str,
    away: Servers,
}

impl fmt::Display for Reach<'_> {
    ghost use Rattle.std.specs.Prelude.{Some, ◌∷◌};
    ghost use Rattle.std.specs.List.{join_with_byte};
    ghost use Rattle.mf_places.specs.Servers.{servers_of};
    ghost use Rattle.mf_lines.specs.LineTexts.{listed};

    ghost output = { λ reach.
        Some (join_with_byte 32 (reach.name.now ∷ listed (servers_of reach.away))) };

    fn fmt<W: fmt::Write>(&self, f: &mut fmt::Formatter<W>) -> fmt::Result {
        let name = self.name;
        let away = self.away;
        if away.is_empty() {
            write!(f, "{name}")
        } else {
            write!(f, "{name} without{away}")
        }
    }
}

/// A command on these files, as a script has it.
#[derive(Clone, Copy)]
pub struct ActText<'a> {
    pub files: &'a [FileLine],
    pub act: Act,
}

impl fmt::Display for ActText<'_> {
    ghost use Rattle.std.specs.Prelude.{Some};
    ghost use Rattle.mf_lines.specs.declared.forms.Form.TheVariants as says;
    ghost use Rattle.mf_lines.specs.Meaning.{names_in};
    ghost use Rattle.mf_lines.specs.LineTexts.{line_text};

    ghost output = { λ text. Some (line_text (names_in text.files.now) (says.Command text.act)) };

    #[tactic(auto, unfolding(crate::specs::LineTexts::line_text, mf_text::specs::Decimal::decimal_text))]
    fn fmt<W: fmt::Write>(&self, f: &mut fmt::Formatter<W>) -> fmt::Result {
        let verb = self.act.verb();
        match self.act {
            Act::Convert {
                file,
                stop: Some(stop),
                ..
            } => {
                let name = name_of(self.files, file);
                write!(f, "{verb} {name} stop {stop}")
            }
            Act::Read { file, away }
            | Act::Repair { file, away }
            | Act::Convert {
                file,
                away,
                stop: None,
            } => {
                let name = name_of(self.files, file);
                let reach = Reach { name, away };
                write!(f, "{verb} {reach}")
            }
            Act::Create(file)
            | Act::Hold(file)
            | Act::Release(file)
            | Act::Reclaim(file)
            | Act::Remove(file) => {
                let name = name_of(self.files, file);
                write!(f, "{verb} {name}")
            }
            Act::Lose(server) => write!(f, "{verb} {server}"),
            Act::Sweep => write!(f, "{verb}"),
        }
    }
}
