//! One actor's access to a file among many.
ghost use Rattle.std.specs.Prelude.{◌≡◌};
ghost use Rattle.mf_machine.specs.Actors.{Free};
ghost use Rattle.mf_machine.specs.Counts.{truth};
ghost use Rattle.mf_vault.specs.Facts.{place};
ghost use Rattle.mf_gate.specs.Passes.{IsAt, view};

use crate::shared::Shared;
use mf_gate::Pass;
use mf_vault::{Entry, Servers};

/// One actor's access to a file among many.
#[derive(Drop)]
pub struct SharedAccess<'a, R> {
    pub(crate) rt: &'a R,
    pub(crate) shared: &'a Shared,
    pub(crate) pass: Pass,
    pub(crate) hold: Option<u32>,
    pub(crate) work: Option<u32>,
    pub(crate) right: bool,
    pub(crate) cut: Servers,
    pub(crate) ledger: Vec<Entry>,
    ghost at: { IsAt pass shared.now.gate },
    ghost free: { Free (view pass) },
    ghost right_is: { (view pass).build.right ≡ truth right },
    ghost hold_is: { (view pass).hold ≡ place hold },
    ghost work_is: { (view pass).work ≡ place work },
}
