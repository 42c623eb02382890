//! The chain of stages that the files of a family pass through, and the rules that it keeps.
//!
//! A chain has 1 to 4 stages, from a file's youth (stage 0) on. A stage has a width of 1 to 64, 1
//! to 4 parities and at most 2 further copies. Each width is a multiple of the one before, and
//! neither parities nor copies grow. There are at most 128 servers, and as many as the greatest
//! width and the first stage's parities need.
//!
//! `ShapeFault` names the first rule that is broken, kind by kind and then for the least stage.
//!
//! ```text
//! let shape = Shape::new(alloc, &stages, 6)?;    // stages 2 2 1 and 4 2 0
//! shape.tolerance(0) == 3                        // lost names of one stripe
//! shape.factor(0) == 2
//! ```
//!
//! *Proved.* `Shape::new` answers the first fault, exactly, and else a shape that keeps the chain's
//! rules; `tolerance`, `factor`.
#![tactic(auto)]

ghost use Rattle.std.specs.Prelude.{◌≡◌, ◌≢◌, ◌+◌, ◌*◌, ◌/◌, ◌<◌, ◌≤◌, length, IfOk, IfErr};
ghost use Rattle.mf_shape.specs.Stages.{width_at, max_width, max_copied_width, tolerance_at};
ghost use Rattle.mf_shape.specs.Chain.{IsShape};
ghost use Rattle.mf_shape.specs.Faults.{IsFirst};

mod rules;

use rules::{first_fault, greatest_copied_width, greatest_width};
use std::alloc::{AllocError, Global};
use std::clone::Clone;
use std::fmt;
use std::marker::Model;

/// The greatest number of stages of a chain.
pub const MAX_STAGES: usize = 4;
/// The greatest width of a stage.
pub const MAX_WIDTH: u32 = 64;
/// The greatest number of parities of a stage.
pub const MAX_PARITIES: u32 = 4;
/// The greatest number of further copies of a stage.
pub const MAX_COPIES: u32 = 2;
/// The greatest number of servers.
pub const MAX_SERVERS: u32 = 128;

/// One stage of a file's life: stripes of `width` chunks with `parities` parities each, and
/// `copies` further copies of each chunk.
#[derive(Clone, Copy)]
pub struct Stage {
    pub width: u32,
    pub parities: u32,
    pub copies: u32,
}

/// Why a list of stages is no chain. The number is that of the least stage that breaks the rule,
/// and for `Servers` how many servers the chain needs.
#[derive(Clone, Copy, Debug)]
pub enum ShapeFault {
    /// There is no stage.
    NoStage,
    /// There are more than four stages.
    TooManyStages,
    /// The width is 0 or above 64.
    Width(u32),
    /// The number of parities is 0 or above 4.
    Parities(u32),
    /// There are more than two further copies.
    Copies(u32),
    /// The width is no multiple of the width before.
    NotMultiple(u32),
    /// There are more parities than before.
    ParitiesGrow(u32),
    /// There are more copies than before.
    CopiesGrow(u32),
    /// The width grows, and there are more parities than the width before.
    ParitiesOverWidth(u32),
    /// The greatest width has too few columns for all copies of a copied stripe.
    CopiesDontFit,
    /// There are fewer servers than this number, or more than 128.
    Servers(u32),
    /// Memory ran out.
    Memory,
}

// A word, and the number that the fault names. Want of memory has no text.
impl fmt::Display for ShapeFault {
    ghost use Rattle.std.specs.Prelude.{Some};
    ghost use Rattle.mf_shape.specs.Texts.{shape_text};

    ghost output = { λ fault. Some (shape_text fault) };

    fn fmt<W: fmt::Write>(&self, f: &mut fmt::Formatter<W>) -> fmt::Result {
        match *self {
            ShapeFault::NoStage => write!(f, "nostage"),
            ShapeFault::TooManyStages => write!(f, "toomanystages"),
            ShapeFault::Width(g) => write!(f, "width {g}"),
            ShapeFault::Parities(g) => write!(f, "parities {g}"),
            ShapeFault::Copies(g) => write!(f, "copies {g}"),
            ShapeFault::NotMultiple(g) => write!(f, "notmultiple {g}"),
            ShapeFault::ParitiesGrow(g) => write!(f, "paritiesgrow {g}"),
            ShapeFault::CopiesGrow(g) => write!(f, "copiesgrow {g}"),
            ShapeFault::ParitiesOverWidth(g) => write!(f, "paritiesoverwidth {g}"),
            ShapeFault::CopiesDontFit => write!(f, "copiesdontfit"),
            ShapeFault::Servers(n) => write!(f, "servers {n}"),
            ShapeFault::Memory => Ok(()),
        }
    }
}

/// A chain of stages that keeps the rules, over a number of servers.
#[derive(Drop)]
pub struct Shape {
    stages: Vec<Stage>,
    servers: u32,
}

impl Model for Shape {
    ghost use Rattle.mf_shape.specs.Chain.{Chain, IsShape};

    ghost Value = { Chain };

    ghost view = { λ shape. record { stages = shape.stages.items; servers = shape.servers } };

    ghost invariant = { λ shape.
        IsShape (record { stages = shape.stages.items; servers = shape.servers }) };
}

impl Shape {
    /// A shape of these stages over so many servers.
    ///
    /// The faults are tried kind by kind, in the order of `ShapeFault`, and within a kind for the
    /// least stage. Memory is asked for last.
    pub fn new(alloc: Global, stages: &[Stage], servers: u32) -> Result<Shape, ShapeFault>
        ensures kept { IfOk result (λ shape.
            (shape ≡ record { stages = stages.now; servers = servers }) × IsShape shape) }
        ensures refused { IfErr result (IsFirst stages.now servers) }

        // The first fault is what is answered, wherever there is one.
        ensures exactly { (fault : ShapeFault) → fault ≢ ShapeFault.Memory
            → IsFirst stages.now servers fault → result ≡ Err fault }
    {
        if let Some(fault) = first_fault(stages, servers) {
            return Err(fault);
        }
        match Vec::from_slice(alloc, stages) {
            Ok(stages) => Ok(Shape { stages, servers }),
            Err(_) => Err(ShapeFault::Memory),
        }
    }

    /// The stages, stage 0 first.
    pub fn stages(&self) -> &[Stage]
        ensures value { result.now ≡ self.now.stages }
        ensures kept { IsShape self.now }
    {
        self.stages.as_slice()
    }

    /// The number of servers.
    pub fn servers(&self) -> u32
        ensures value { result ≡ self.now.servers }
        ensures kept { IsShape self.now }
    {
        self.servers
    }

    /// The greatest width of a stage.
    pub fn widest(&self) -> u32
        ensures value { result ≡ max_width self.now.stages }
        ensures within { (1 ≤ result) × (result ≤ 64) }
    {
        greatest_width(self.stages.as_slice())
    }

    /// The greatest width of a stage with copies, or 0.
    pub fn widest_copied(&self) -> u32
        ensures value { result ≡ max_copied_width self.now.stages }
        ensures within { result ≤ 64 }
    {
        greatest_copied_width(self.stages.as_slice())
    }

    /// How many lost names of one stripe stage g bears.
    pub fn tolerance(&self, g: u32) -> u32
        requires { g < length self.now.stages }
        ensures { result ≡ tolerance_at self.now.stages g }
    {
        let stage = self.stages[g as usize];
        stage.copies + stage.parities
    }

    /// How many stripes of stage g make one of the next stage.
    pub fn factor(&self, g: u32) -> u32
        requires { g + 1 < length self.now.stages }
        ensures value { result ≡ width_at self.now.stages (g + 1) / width_at self.now.stages g }
        ensures whole { result * width_at self.now.stages g ≡ width_at self.now.stages (g + 1) }
    {
        self.stages[g as usize + 1].width / self.stages[g as usize].width
    }
}

impl Clone for Shape {
    ghost is_clone = { λ shape copy. copy ≡ shape };

    /// A shape of the same stages and servers.
    fn clone(&self) -> Result<Shape, AllocError> {
        Ok(Shape {
            stages: self.stages.clone()?,
            servers: self.servers,
        })
    }
}
