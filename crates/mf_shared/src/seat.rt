//! A seat at a file among many actors.
ghost use Rattle.mf_gate.specs.Passes.{view};
ghost use Rattle.mf_shared.specs.Unbound.{IsUnbound};

use mf_gate::Pass;

/// One actor's place at a file among many, between two accesses: it has no pin, not the right, and
/// no chunk. It carries what its actor has seen, made and met.
#[derive(Drop)]
pub struct Seat {
    pub(crate) pass: Pass,
    ghost unbound: { IsUnbound (view pass) },
}
