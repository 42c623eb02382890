//! The words that lines begin with, and the words of a line, split off one by one.

ghost use Rattle.std.specs.Prelude.{◌≡◌, ◌==◌, ◌∷◌, [], position, IfOk, IfErr, Ok, Err};
ghost use Rattle.mf_text.specs.Words.{words_of};
ghost use Rattle.mf_lines.specs.Words.{verb_text, word_text, word_of, content_text};
ghost use Rattle.mf_lines.specs.Words.{content_word_of};
ghost use Rattle.mf_lines.specs.Words.{behind, no_words, one_word, two_words, three_words};
ghost use Rattle.mf_lines.specs.Words.{spelled, small, number_in};

use crate::parts::{Kind, LimitName};
use mf_text::decimal;

/// The greatest number of a line; some have smaller limits besides.
pub const MAX_NUMBER: u64 = 4_294_967_295;

/// The word of a command.
#[derive(Clone, Copy)]
pub enum Verb {
    Create,
    Read,
    Hold,
    Release,
    Repair,
    Convert,
    Reclaim,
    Remove,
    Lose,
    Sweep,
}

impl Verb {
    /// How the word is spelled.
    pub fn text(self) -> &'static str
        ensures { result.now ≡ verb_text self }
    {
        match self {
            Verb::Create => "create",
            Verb::Read => "read",
            Verb::Hold => "hold",
            Verb::Release => "release",
            Verb::Repair => "repair",
            Verb::Convert => "convert",
            Verb::Reclaim => "reclaim",
            Verb::Remove => "remove",
            Verb::Lose => "lose",
            Verb::Sweep => "sweep",
        }
    }
}

/// The word that a line begins with, which is the line's class; commands are one class.
#[derive(Clone, Copy)]
pub enum LineWord {
    Morph,
    Servers,
    Chunk,
    Points,
    Stage,
    Policy,
    File,
    Tick,
    Phase,
    Client,
    Command(Verb),
    Dump,
    End,
}

const LINE_WORDS: [LineWord; 22] = [
    LineWord::Morph,
    LineWord::Servers,
    LineWord::Chunk,
    LineWord::Points,
    LineWord::Stage,
    LineWord::Policy,
    LineWord::File,
    LineWord::Tick,
    LineWord::Phase,
    LineWord::Client,
    LineWord::Command(Verb::Create),
    LineWord::Command(Verb::Read),
    LineWord::Command(Verb::Hold),
    LineWord::Command(Verb::Release),
    LineWord::Command(Verb::Repair),
    LineWord::Command(Verb::Convert),
    LineWord::Command(Verb::Reclaim),
    LineWord::Command(Verb::Remove),
    LineWord::Command(Verb::Lose),
    LineWord::Command(Verb::Sweep),
    LineWord::Dump,
    LineWord::End,
];

impl LineWord {
    /// How the word is spelled.
    pub fn text(self) -> &'static str
        ensures { result.now ≡ word_text self }
    {
        match self {
            LineWord::Morph => "morph",
            LineWord::Servers => "servers",
            LineWord::Chunk => "chunk",
            LineWord::Points => "points",
            LineWord::Stage => "stage",
            LineWord::Policy => "policy",
            LineWord::File => "file",
            LineWord::Tick => "tick",
            LineWord::Phase => "phase",
            LineWord::Client => "client",
            LineWord::Command(verb) => verb.text(),
            LineWord::Dump => "dump",
            LineWord::End => "end",
        }
    }
}

/// The line word that these bytes are.
#[tactic(auto, unfolding(crate::specs::Words::word_of))]
pub fn line_word(bytes: &[u8]) -> Option<LineWord>
    ensures { result ≡ word_of bytes.now }
{
    for word in &LINE_WORDS {
        if bytes == word.text().as_bytes() {
            return Some(*word);
        }
    }
    None
}

/// The word that says how a file's bytes are given.
#[derive(Clone, Copy)]
pub enum ContentWord {
    Empty,
    Text,
    Hex,
    Pattern,
}

const CONTENT_WORDS: [ContentWord; 4] = [
    ContentWord::Empty,
    ContentWord::Text,
    ContentWord::Hex,
    ContentWord::Pattern,
];

impl ContentWord {
    /// How the word is spelled.
    pub fn text(self) -> &'static str
        ensures { result.now ≡ content_text self }
    {
        match self {
            ContentWord::Empty => "empty",
            ContentWord::Text => "text",
            ContentWord::Hex => "hex",
            ContentWord::Pattern => "pattern",
        }
    }
}

/// The content word that these bytes are.
#[tactic(auto, unfolding(crate::specs::Words::content_word_of))]
pub fn content_word(bytes: &[u8]) -> Option<ContentWord>
    ensures { result ≡ content_word_of bytes.now }
{
    for word in &CONTENT_WORDS {
        if bytes == word.text().as_bytes() {
            return Some(*word);
        }
    }
    None
}

// Where the first space of a line is.
fn space(line: &[u8]) -> Option<usize>
    ensures { result ≡ position (λ b. b == 32) line.now }
{
    line.iter().position(|b| *b == b' ')
}

/// The first word of a line, and what stands behind the space after it, where there is one.
pub fn split_word(line: &[u8]) -> (&[u8], Option<&[u8]>)
    ensures { words_of line.now ≡ result.0.now ∷ behind result.1 }
{
    match space(line) {
        Some(at) => (&line[..at], Some(&line[at + 1..])),
        None => (line, None),
    }
}

/// Nothing, where no word is left.
pub fn end_words(rest: Option<&[u8]>) -> Result<(), Kind>
    ensures { result ≡ no_words (behind rest.entry) }
{
    match rest {
        None => Ok(()),
        Some(_) => Err(Kind::Arity),
    }
}

/// The next word, and what is left behind it.
pub fn next_word(rest: Option<&[u8]>) -> Result<(&[u8], Option<&[u8]>), Kind>
    ensures some { IfOk result (λ r. behind rest.entry ≡ r.0.now ∷ behind r.1) }
    ensures none { IfErr result (λ kind. (behind rest.entry ≡ []) × (kind ≡ Kind.Arity)) }
{
    match rest {
        Some(line) => Ok(split_word(line)),
        None => Err(Kind::Arity),
    }
}

/// The one word that is left.
pub fn last_word(rest: Option<&[u8]>) -> Result<&[u8], Kind>
    ensures some { IfOk result (λ word. one_word (behind rest.entry) ≡ Ok word.now) }
    ensures none { IfErr result (λ kind. one_word (behind rest.entry) ≡ Err kind) }
{
    let (word, rest) = next_word(rest)?;
    end_words(rest)?;
    Ok(word)
}

/// The two words that are left.
pub fn last_two_words(rest: Option<&[u8]>) -> Result<(&[u8], &[u8]), Kind>
    ensures some { IfOk result
        (λ words. two_words (behind rest.entry) ≡ Ok (words.0.now, words.1.now)) }
    ensures none { IfErr result (λ kind. two_words (behind rest.entry) ≡ Err kind) }
{
    let (first, rest) = next_word(rest)?;
    let second = last_word(rest)?;
    Ok((first, second))
}

/// The three words that are left.
pub fn last_three_words(rest: Option<&[u8]>) -> Result<(&[u8], &[u8], &[u8]), Kind>
    ensures some { IfOk result
        (λ words. three_words (behind rest.entry) ≡ Ok (words.0.now, words.1.now, words.2.now)) }
    ensures none { IfErr result (λ kind. three_words (behind rest.entry) ≡ Err kind) }
{
    let (first, rest) = next_word(rest)?;
    let (second, third) = last_two_words(rest)?;
    Ok((first, second, third))
}

/// The number that a word spells.
pub fn spelled(word: &[u8]) -> Result<u64, Kind>
    ensures { result ≡ spelled word.now }
{
    decimal(word).ok_or(Kind::Number)
}

/// A number that is at most the greatest u32.
pub fn small(n: u64) -> Result<u32, Kind>
    ensures { result ≡ small n }
{
    if n > MAX_NUMBER {
        return Err(Kind::Limit(LimitName::Number));
    }
    Ok(n as u32)
}

/// The number that a word spells, which is at most the greatest u32.
pub fn number(word: &[u8]) -> Result<u32, Kind>
    ensures { result ≡ number_in word.now }
{
    small(spelled(word)?)
}
