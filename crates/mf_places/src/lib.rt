//! The names of a file's chunks, their order, and the servers where they lie.
//!
//! A file has at most 1,048,576 bytes and 1,024 chunks of 1 to 65,536 bytes; its number is below
//! 128. A *name* is `Data(i)`, `Copy(c, i)` or `Parity(width, j, p)`, for chunk i, copy c, stripe j
//! and point p. Names are numbered from 0 in that order. The names of one stripe of one generation
//! lie on different servers.
//!
//! `number` is None for a name that the file doesn't have. The lists of names, `Book::new` and
//! `Losses::push` take memory, and want of it is their one error.
//!
//! ```text
//! let book = Book::new(alloc, &shape, points, 1, 0, 4)?;    // chunk size, file, length
//! book.server(Name::Data(3)) == 3
//! book.holds(1, Name::Copy(0, 3)) == false
//! ```
//!
//! *Proved.* `Book`: names are numbered one to one in their order; `server`, `holds`, `stripe_of`,
//! `pieces` and the lists are the rules of placement; the names of one stripe of one generation lie
//! on different servers. `Servers`: a set of servers made from a list has just those below 128, and
//! gives them back ascending. `Losses`: a pushed line stands behind the others, and want of memory
//! changes nothing.
#![tactic(auto)]

ghost use Rattle.std.specs.Prelude.{◌≡◌, ℕ, ◌+◌, ◌*◌, ◌^◌, ◌<◌, ◌≤◌, length, filter, IsTrue};
ghost use Rattle.std.specs.Prelude.{IfOk, IfNone, IfSome, OnSome, Some};
ghost use Rattle.mf_code.specs.Chunks.{chunk_count};
ghost use Rattle.mf_shape.specs.Stages.{stage_at, width_at, max_width, tolerance_at};
ghost use Rattle.mf_places.specs.Facts.{HasPoints, IsBook, chunks_of};
ghost use Rattle.mf_places.specs.Names.{HasName, stripes_of, parities_of, count_of, name_at};
ghost use Rattle.mf_places.specs.Generations.{holds, stripe_of, pieces_of};
ghost use Rattle.mf_places.specs.Placement.{IsApart, column_of, server_of};
ghost use Rattle.mf_places.specs.Numbers.{first_in, number_of};
ghost use Rattle.mf_places.specs.Rows.{IsNumber};

mod lists;
mod losses;
mod rows;
mod servers;
mod texts;

pub use losses::{LoseLine, Losses};
use mf_shape::{MAX_COPIES, MAX_PARITIES, MAX_WIDTH, Shape, Stage};
use rows::{first_numbers, greatest_parities};
pub use servers::Servers;
pub use std::alloc::AllocError as Memory;
use std::alloc::Global;
use std::marker::Model;

/// The greatest number of bytes of a chunk.
pub const MAX_CHUNK: u32 = 65_536;
/// The greatest number of files, which are numbered from 0.
pub const MAX_FILES: u32 = 128;
/// The greatest number of bytes of a file.
pub const MAX_LENGTH: u32 = 1_048_576;
/// The greatest number of chunks of a file.
pub const MAX_CHUNKS: u32 = 1_024;

/// The name of one chunk of a file.
#[derive(Clone, Copy, PartialEq, Eq)]
pub enum Name {
    /// Chunk i of the file.
    Data(u32),
    /// Further copy c of chunk i.
    Copy(u32, u32),
    /// Parity p, the one with point p, of stripe j of a width, as `Parity(width, j, p)`.
    Parity(u32, u32, u32),
}

/// The names of one file, numbered in their order, and where each lies.
///
/// The order is: all data by chunk; then the copies, by copy and then chunk; then the parities, by
/// width, then stripe, then point. At a width there are as many parities as the stage of that width
/// with the most has.
#[derive(Drop)]
pub struct Book {
    shape: Shape,
    points: Vec<u8>,
    chunk: u32,
    file: u32,
    bytes: u32,
    // The number of the file's chunks.
    chunks: u32,
    // The greatest width, and the greatest width of a stage with copies.
    widest: u32,
    copied: u32,
    // The number of the first parity of each width, and then the number of names.
    firsts: Vec<u32>,
}

impl Model for Book {
    ghost use Rattle.mf_places.specs.Facts.{BookFacts};

    ghost Value = { BookFacts };

    ghost use Rattle.mf_places.specs.Kept.{facts_of, IsKept};

    ghost view = { facts_of };

    ghost invariant = { IsKept };
}

impl Book {
    /// The book of file number `file` of `length` bytes, in chunks of `chunk` bytes, whose family
    /// has this shape and these points. The only error is want of memory.
    pub fn new(
        alloc: Global,
        shape: &Shape,
        points: &[u8],
        chunk: u32,
        file: u32,
        length: u32,
    ) -> Result<Book, Memory>
        requires points { HasPoints shape.now.stages points.now }
        requires chunk { (1 ≤ chunk) × (chunk ≤ MAX_CHUNK) }
        requires file { file < MAX_FILES }
        requires length { length ≤ MAX_LENGTH }
        requires chunks { chunk_count chunk length ≤ MAX_CHUNKS }
        ensures { IfOk result (λ book. book ≡ record {
          shape = shape.now;
          points = points.now;
          chunk = chunk;
          file = file;
          bytes = length;
        }) }
    {
        let chunks = length.div_ceil(chunk);
        let widest = shape.widest();
        let firsts = first_numbers(alloc, shape.stages(), chunks, widest)?;
        Ok(Book {
            shape: shape.clone()?,
            points: Vec::from_slice(alloc, points)?,
            chunk,
            file,
            bytes: length,
            chunks,
            widest,
            copied: shape.widest_copied(),
            firsts,
        })
    }

    /// The shape of the file's family.
    pub fn shape(&self) -> &Shape
        ensures value { result.now ≡ self.now.shape }
        ensures kept { IsBook self.now }
    {
        &self.shape
    }

    /// The points of the parities: parity p is the one with point p.
    pub fn points(&self) -> &[u8]
        ensures value { result.now ≡ self.now.points }
        ensures kept { IsBook self.now }
    {
        self.points.as_slice()
    }

    /// The number of stages.
    pub fn stages(&self) -> u32
        ensures value { result ≡ length self.now.shape.stages }
        ensures kept { IsBook self.now }
    {
        self.shape.stages().len() as u32
    }

    /// The bytes of a chunk.
    pub fn chunk(&self) -> u32
        ensures value { result ≡ self.now.chunk }
        ensures kept { IsBook self.now }
    {
        self.chunk
    }

    /// The length of the file in bytes.
    pub fn length(&self) -> u32
        ensures value { result ≡ self.now.bytes }
        ensures kept { IsBook self.now }
    {
        self.bytes
    }

    /// The number of the file's chunks.
    pub fn chunks(&self) -> u32
        ensures value { result ≡ chunks_of self.now }
        ensures kept { IsBook self.now }
    {
        self.chunks
    }

    /// The number of the file's names.
    pub fn count(&self) -> u32
        ensures value { result ≡ count_of self.now }
        ensures kept { IsBook self.now }
    {
        self.first(self.widest + 1)
    }

    /// Name number n.
    pub fn name(&self, n: u32) -> Name
        requires { n < count_of self.now }
        ensures value { result ≡ name_at self.now n }
        ensures had { HasName self.now result }
    {
        if n < self.chunks {
            return Name::Data(n);
        }
        if n < self.first(0) {
            let at = n - self.chunks;
            return Name::Copy(at / self.chunks, at % self.chunks);
        }
        self.parity_name(n)
    }

    /// The number of a name, or None where the file has no chunk of that name.
    pub fn number(&self, name: Name) -> Option<u32>
        ensures none { IfNone result (HasName self.now name → ⊥) }
        ensures some { IfSome result (λ n. (n < count_of self.now) × (name_at self.now n ≡ name)) }
        ensures had { OnSome result (HasName self.now name) }
        ensures only { (n : ℕ) → n < count_of self.now → name_at self.now n ≡ name
            → result ≡ Some n }
    {
        self.find(name)
    }

    /// The server of a name.
    pub fn server(&self, name: Name) -> u32
        requires { HasName self.now name }
        ensures value { result ≡ server_of self.now name }
        ensures within { result < self.now.shape.servers }
        ensures apart { IsApart self.now name }
    {
        (self.file + self.column(name)) % self.shape.servers()
    }

    /// Whether generation g holds the name.
    pub fn holds(&self, g: u32, name: Name) -> bool
        requires { g < length self.now.shape.stages }
        ensures { result ≡ holds self.now g name }
    {
        let stage = self.stage(g);
        match name {
            Name::Data(i) => i < self.chunks,
            Name::Copy(c, i) => c < stage.copies && i < self.chunks,
            Name::Parity(width, j, p) => width == stage.width
                && j < self.chunks.div_ceil(stage.width)
                && p < stage.parities,
        }
    }

    /// How many lost names of one stripe generation g bears.
    pub fn tolerance(&self, g: u32) -> u32
        requires { g < length self.now.shape.stages }
        ensures { result ≡ tolerance_at self.now.shape.stages g }
    {
        self.shape.tolerance(g)
    }

    /// The number of stripes of generation g.
    pub fn stripes(&self, g: u32) -> u32
        requires { g < length self.now.shape.stages }
        ensures { result ≡ stripes_of self.now (width_at self.now.shape.stages g) }
    {
        self.chunks.div_ceil(self.stage(g).width)
    }

    /// The number of chunks of a stripe of generation g.
    pub fn pieces(&self, g: u32, stripe: u32) -> u32
        requires stage { g < length self.now.shape.stages }
        requires stripe { stripe < stripes_of self.now (width_at self.now.shape.stages g) }
        ensures value { result ≡ pieces_of self.now g stripe }
        ensures within { (1 ≤ result) × (result ≤ width_at self.now.shape.stages g) }
    {
        let width = self.stage(g).width;
        (self.chunks - stripe * width).min(width)
    }

    /// The stripe of generation g that a name which it holds belongs to.
    pub fn stripe_of(&self, g: u32, name: Name) -> u32
        requires stage { g < length self.now.shape.stages }
        requires held { IsTrue (holds self.now g name) }
        ensures value { result ≡ stripe_of self.now g name }
        ensures within { result < stripes_of self.now (width_at self.now.shape.stages g) }
    {
        let stage = self.stage(g);
        match name {
            Name::Data(i) => i / stage.width,
            Name::Copy(_, i) => i / stage.width,
            Name::Parity(_, j, _) => j,
        }
    }

    // Stage g.
    fn stage(&self, g: u32) -> Stage
        requires { g < length self.now.shape.stages }
        ensures value { result ≡ stage_at self.now.shape.stages g }
        ensures width { (1 ≤ result.width) × (result.width ≤ MAX_WIDTH) }
        ensures parities { result.parities ≤ MAX_PARITIES }
        ensures copies { result.copies ≤ MAX_COPIES }
        ensures kept { IsBook self.now }
    {
        self.shape.stages()[g as usize]
    }

    // The number of the first parity of a width, or of the first name that the file hasn't.
    fn first(&self, width: u32) -> u32
        requires { width ≤ max_width self.now.shape.stages + 1 }
        ensures value { result ≡ first_in (chunks_of self.now) self.now.shape.stages width }
        ensures bound { result ≤ 300000 }
        ensures kept { IsBook self.now }
    {
        self.firsts[width as usize]
    }

    // How many parities a stripe of the width has.
    fn parities(&self, width: u32) -> u32
        ensures value { result ≡ parities_of self.now width }
        ensures bound { result ≤ MAX_PARITIES }
    {
        greatest_parities(self.shape.stages(), width)
    }

    // The column of a name.
    fn column(&self, name: Name) -> u32
        requires { HasName self.now name }
        ensures value { result ≡ column_of self.now name }
        ensures bound { result ≤ MAX_WIDTH + MAX_PARITIES }
    {
        match name {
            Name::Data(i) => i % self.widest,
            Name::Copy(c, i) => (i + (c + 1) * self.copied) % self.widest,
            Name::Parity(_, _, p) => self.widest + p,
        }
    }

    // The number that a name has, if the file has it.
    fn find(&self, name: Name) -> Option<u32>
        ensures none { IfNone result (HasName self.now name → ⊥) }
        ensures some { IfSome result (IsNumber self.now name) }
    {
        match name {
            Name::Data(i) => { if i < self.chunks { Some(i) } else { None } }
            Name::Copy(c, i) => {
                if c < self.stage(0).copies && i < self.chunks {
                    Some(self.chunks + c * self.chunks + i)
                } else {
                    None
                }
            }
            Name::Parity(width, j, p) => self.parity_number(width, j, p),
        }
    }

    // The name of a parity by its number.
    fn parity_name(&self, n: u32) -> Name
        requires from { first_in (chunks_of self.now) self.now.shape.stages 0 ≤ n }
        requires below { n < count_of self.now }
        ensures had { HasName self.now result }
        ensures number { number_of self.now result ≡ n }
    {
        let mut width = 0;
        while self.first(width + 1) <= n {
            width += 1;
        }
        let parities = self.parities(width);
        let at = n - self.first(width);
        Name::Parity(width, at / parities, at % parities)
    }

    // The number of a parity.
    fn parity_number(&self, width: u32, j: u32, p: u32) -> Option<u32>
        ensures none { IfNone result (HasName self.now (Name.Parity width j p) → ⊥) }
        ensures some { IfSome result (IsNumber self.now (Name.Parity width j p)) }
    {
        let parities = self.parities(width);
        if p < parities && j < self.chunks.div_ceil(width) {
            Some(self.first(width) + j * parities + p)
        } else {
            None
        }
    }
}
