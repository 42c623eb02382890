//! The question that is asked, with which candidates may stand in a plan.
ghost use Rattle.std.specs.Prelude.{◌≡◌, ◌↔◌, ◌≤◌, ◌<◌, ◌*◌, ◌∷◌, [], length, take, IfOk, IsTrue};
ghost use Rattle.std.specs.Int.{div_ceil};
ghost use Rattle.mf_check.specs.Families.{ArePoints};
ghost use Rattle.mf_code.specs.Decodable.{IsDecodable};
ghost use Rattle.mf_route.specs.Plans as plans;
ghost use Rattle.mf_route.specs.Plans.{IsCandidate, IsChange};

use crate::Candidate;
use mf_check::{FamilyFault, check};
use mf_shape::{Shape, Stage};
use std::alloc::{AllocError, Global};
use std::marker::Model;

/// What is asked.
#[derive(Drop)]
pub struct Terms {
    servers: u32,
    points: Vec<u8>,
    chunks: u32,
    cost: u64,
    horizon: u64,
    candidates: Vec<Candidate>,
    usable: Vec<bool>,
}

impl Model for Terms {
    ghost use Rattle.mf_route.specs.Plans.{Setting};
    ghost use Rattle.mf_route.specs.Tables.{AreUsable};

    ghost Value = { Setting };

    ghost view = { λ t. record {
      servers = t.servers;
      points = t.points.items;
      chunks = t.chunks;
      cost = t.cost;
      horizon = t.horizon;
      candidates = t.candidates.items;
    } };

    ghost invariant = { λ t. AreUsable (record {
      servers = t.servers;
      points = t.points.items;
      chunks = t.chunks;
      cost = t.cost;
      horizon = t.horizon;
      candidates = t.candidates.items;
    })
        t.usable.items };
}

/// The product of two numbers.
fn times(few: u64, many: u64) -> u64
    requires few { few ≤ 10000 }
    requires many { many ≤ 1000000000 }
    ensures value { result ≡ few * many }
    ensures small { result ≤ 10000000000000 }
{
    few * many
}

/// The stripes of a file.
fn stripes(chunks: u32, width: u32) -> u64
    requires some { 1 ≤ width }
    requires few { chunks ≤ 1024 }
    ensures value { result ≡ div_ceil chunks width }
    ensures small { result ≤ 1025 }
{
    chunks.div_ceil(width) as u64
}

/// The chunks that are kept.
fn kept(chunks: u32, a: Candidate) -> u64
    requires few { chunks ≤ 1024 }
    requires limits { IsCandidate 4 a }
    ensures value { result ≡ plans.kept chunks a }
    ensures small { result ≤ 10000 }
{
    chunks as u64 + a.parities as u64 * stripes(chunks, a.width)
}

/// The chunks that a change reads and writes.
fn moved(chunks: u32, a: Candidate, b: Candidate) -> u64
    requires few { chunks ≤ 1024 }
    requires before { IsCandidate 4 a }
    requires behind { IsCandidate 4 b }
    ensures value { result ≡ plans.moved chunks a b }
    ensures small { result ≤ 10000 }
{
    if a.width < b.width {
        b.parities as u64 * (stripes(chunks, a.width) + stripes(chunks, b.width))
    } else {
        0
    }
}

/// Whether a file may be changed from the one candidate to the other.
pub fn is_change(a: Candidate, b: Candidate) -> bool
    requires { 1 ≤ a.width }
    ensures { IsTrue result ↔ IsChange a b }
{
    a.from < b.from
        && b.width % a.width == 0
        && b.parities <= a.parities
        && (a.width >= b.width || b.parities <= a.width)
}

/// The shape of one stage. Within the limits a single stage breaks no rule, so want of memory is
/// all that there may be.
fn one_stage(alloc: Global, width: u32, parities: u32) -> Result<Shape, AllocError>
    ensures { IfOk result (λ shape. shape ≡ record {
      stages = record { width = width; parities = parities; copies = 0 } ∷ [];
      servers = 128;
    }) }
{
    let stages = [Stage {
        width,
        parities,
        copies: 0,
    }];
    match Shape::new(alloc, &stages, 128) {
        Ok(shape) => Ok(shape),
        Err(_) => Err(AllocError),
    }
}

/// Whether stripes of this width with one parity a point bear the loss of as many places.
fn is_decodable(alloc: Global, points: &[u8], width: u32) -> Result<bool, AllocError>
    requires points { ArePoints (length points.now) points.now }
    requires few { length points.now ≤ 4 }
    ensures { IfOk result (λ yes. IsTrue yes ↔ IsDecodable points.now width) }
{
    let shape = one_stage(alloc, width, points.len() as u32)?;
    match check(alloc, &shape, points) {
        Ok(_family) => Ok(true),
        Err(FamilyFault::Memory) => Err(AllocError),
        Err(_fault) => Ok(false),
    }
}

/// Whether a candidate may stand in a plan.
fn may_stand(alloc: Global, points: &[u8], horizon: u64, a: Candidate) -> Result<bool, AllocError>
    requires points { ArePoints (length points.now) points.now }
    requires few { length points.now ≤ 4 }
    requires limits { IsCandidate (length points.now) a }
    ensures { IfOk result (λ yes. IsTrue yes
        ↔ ((a.from ≤ horizon) × IsDecodable (take a.parities points.now) a.width)) }
{
    if a.from > horizon {
        return Ok(false);
    }
    is_decodable(alloc, &points[..a.parities as usize], a.width)
}

impl Terms {
    ghost use Rattle.std.specs.Prelude.{◌-◌};
    ghost use Rattle.mf_route.specs.Plans.{IsStage, candidate, leg, stay};
    ghost use Rattle.mf_route.specs.Tables.{IsSetting};

    /// The question, once each candidate is checked.
    pub fn new(
        alloc: Global,
        servers: u32,
        points: &[u8],
        chunks: u32,
        cost: u64,
        horizon: u64,
        candidates: &[Candidate],
    ) -> Result<Terms, AllocError>
        requires { IsSetting (record {
          servers = servers;
          points = points.now;
          chunks = chunks;
          cost = cost;
          horizon = horizon;
          candidates = candidates.now;
        }) }
        ensures { IfOk result (λ terms. terms ≡ record {
          servers = servers;
          points = points.now;
          chunks = chunks;
          cost = cost;
          horizon = horizon;
          candidates = candidates.now;
        }) }
    {
        let mut usable = Vec::new(alloc);
        for i in 0..candidates.len() {
            let yes = may_stand(alloc, points, horizon, candidates[i])?;
            usable.push(yes)?;
        }
        Ok(Terms {
            servers,
            points: Vec::from_slice(alloc, points)?,
            chunks,
            cost,
            horizon,
            candidates: Vec::from_slice(alloc, candidates)?,
            usable,
        })
    }

    /// The number of candidates.
    pub fn count(&self) -> u32
        ensures value { result ≡ length self.now.candidates }
        ensures kept { IsSetting self.now }
    {
        self.candidates.len() as u32
    }

    /// A candidate by its number.
    pub fn candidate(&self, i: u32) -> Candidate
        requires { i < length self.now.candidates }
        ensures value { result ≡ candidate self.now i }
        ensures limits { IsCandidate (length self.now.points) result }
        ensures kept { IsSetting self.now }
    {
        self.candidates[i as usize]
    }

    /// Whether a candidate may stand in a plan.
    pub fn is_usable(&self, i: u32) -> bool
        requires { i < length self.now.candidates }
        ensures { IsTrue result ↔ IsStage self.now i }
    {
        self.usable[i as usize]
    }

    /// How wide the last candidate of a plan may be that begins with this one.
    pub fn room(&self, first: Candidate) -> u32
        ensures { result ≡ self.now.servers - first.parities }
    {
        self.servers.saturating_sub(first.parities)
    }

    /// What is paid from a candidate's tick up to the next one's, and for the change.
    pub fn leg(&self, a: Candidate, b: Candidate) -> u64
        requires before { IsCandidate (length self.now.points) a }
        requires behind { IsCandidate (length self.now.points) b }
        requires change { IsChange a b }
        ensures value { result ≡ leg self.now a b }
        ensures small { result ≤ 20000000000000 }
    {
        times(kept(self.chunks, a), b.from - a.from) + times(moved(self.chunks, a, b), self.cost)
    }

    /// What is paid from a candidate's tick up to the horizon.
    pub fn stay(&self, a: Candidate) -> u64
        requires limits { IsCandidate (length self.now.points) a }
        requires ticks { a.from ≤ self.now.horizon }
        ensures { result ≡ stay self.now a }
    {
        times(kept(self.chunks, a), self.horizon - a.from)
    }
}
