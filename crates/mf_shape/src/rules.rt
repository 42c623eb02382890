//! The rules of a chain as tests, and the first fault of a list of stages.
ghost use Rattle.std.specs.Prelude.{◌≡◌, ◌≢◌, ℕ, ◌+◌, ◌*◌, ◌<◌, ◌≤◌, ◌↔◌, length, IsTrue};
ghost use Rattle.std.specs.Prelude.{MatchOption, IfSome};
ghost use Rattle.mf_shape.specs.Stages.{max_width, max_copied_width};
ghost use Rattle.mf_shape.specs.Chain.{IsChain, IsShape, FitsCopies, FitsServers};
ghost use Rattle.mf_shape.specs.Faults.{IsFirst};
ghost use Rattle.mf_shape.specs.Rules.{KeepsLimit, KeepsStep, KeepsLimitAt, KeepsStepAt};
ghost use Rattle.mf_shape.specs.Rules.{FailsFirst, EachStage};

use crate::{MAX_COPIES, MAX_PARITIES, MAX_SERVERS, MAX_STAGES, MAX_WIDTH, ShapeFault, Stage};

/// A limit of one stage.
#[derive(Clone, Copy)]
pub enum Limit {
    Width,
    Parities,
    Copies,
}

impl Limit {
    fn keeps(self, stage: Stage) -> bool
        ensures { IsTrue result ↔ KeepsLimit self stage }
    {
        match self {
            Limit::Width => 1 <= stage.width && stage.width <= MAX_WIDTH,
            Limit::Parities => 1 <= stage.parities && stage.parities <= MAX_PARITIES,
            Limit::Copies => stage.copies <= MAX_COPIES,
        }
    }
}

/// A rule of one step, from a stage to the next.
#[derive(Clone, Copy)]
pub enum Step {
    Multiple,
    Parities,
    Copies,
    Fit,
}

impl Step {
    fn keeps(self, before: Stage, after: Stage) -> bool
        ensures { IsTrue result ↔ KeepsStep self before after }
    {
        match self {
            Step::Multiple => after.width.is_multiple_of(before.width),
            Step::Parities => after.parities <= before.parities,
            Step::Copies => after.copies <= before.copies,
            Step::Fit => after.width <= before.width || after.parities <= before.width,
        }
    }
}

// The least stage that breaks the limit.
fn first_over(stages: &[Stage], limit: Limit) -> Option<u32>
    requires { length stages.now ≤ MAX_STAGES }
    ensures { MatchOption result (EachStage stages.now (KeepsLimitAt stages.now limit))
        (FailsFirst stages.now (KeepsLimitAt stages.now limit)) }
{
    for g in 0..stages.len() {
        if !limit.keeps(stages[g]) {
            return Some(g as u32);
        }
    }
    None
}

// The least stage that the step before it leads to against the rule.
fn first_misstep(stages: &[Stage], step: Step) -> Option<u32>
    requires { length stages.now ≤ MAX_STAGES }
    ensures { MatchOption result (EachStage stages.now (KeepsStepAt stages.now step))
        (FailsFirst stages.now (KeepsStepAt stages.now step)) }
{
    for g in 1..stages.len() {
        if !step.keeps(stages[g - 1], stages[g]) {
            return Some(g as u32);
        }
    }
    None
}

/// The greatest width of a stage, or 0.
pub fn greatest_width(stages: &[Stage]) -> u32
    ensures { result ≡ max_width stages.now }
{
    let mut greatest = 0;
    for stage in stages {
        greatest = stage.width.max(greatest);
    }
    greatest
}

/// The greatest width of a stage with copies, or 0.
pub fn greatest_copied_width(stages: &[Stage]) -> u32
    ensures { result ≡ max_copied_width stages.now }
{
    let mut greatest = 0;
    for stage in stages {
        let width = if 0 < stage.copies { stage.width } else { 0 };
        greatest = width.max(greatest);
    }
    greatest
}

// The fault of a chain that has too little room for its copies or its servers.
fn first_misfit(stages: &[Stage], servers: u32) -> Option<ShapeFault>
    requires { IsChain stages.now }
    ensures { MatchOption result (FitsCopies stages.now × FitsServers stages.now servers)
        (λ fault. (fault ≢ ShapeFault.Memory) × IsFirst stages.now servers fault) }
{
    let width = greatest_width(stages);
    let copied = greatest_copied_width(stages);
    let first = stages[0];
    if 0 < first.copies && width < (first.copies + 1) * copied {
        return Some(ShapeFault::CopiesDontFit);
    }
    let needed = width + first.parities;
    if servers < needed || MAX_SERVERS < servers {
        return Some(ShapeFault::Servers(needed));
    }
    None
}

/// The first fault of these stages over so many servers.
pub fn first_fault(stages: &[Stage], servers: u32) -> Option<ShapeFault>
    ensures { MatchOption result (IsShape (record { stages = stages.now; servers = servers }))
        (λ fault. (fault ≢ ShapeFault.Memory) × IsFirst stages.now servers fault) }
{
    if stages.is_empty() {
        return Some(ShapeFault::NoStage);
    }
    if MAX_STAGES < stages.len() {
        return Some(ShapeFault::TooManyStages);
    }
    if let Some(g) = first_over(stages, Limit::Width) {
        return Some(ShapeFault::Width(g));
    }
    if let Some(g) = first_over(stages, Limit::Parities) {
        return Some(ShapeFault::Parities(g));
    }
    if let Some(g) = first_over(stages, Limit::Copies) {
        return Some(ShapeFault::Copies(g));
    }
    if let Some(g) = first_misstep(stages, Step::Multiple) {
        return Some(ShapeFault::NotMultiple(g));
    }
    if let Some(g) = first_misstep(stages, Step::Parities) {
        return Some(ShapeFault::ParitiesGrow(g));
    }
    if let Some(g) = first_misstep(stages, Step::Copies) {
        return Some(ShapeFault::CopiesGrow(g));
    }
    if let Some(g) = first_misstep(stages, Step::Fit) {
        return Some(ShapeFault::ParitiesOverWidth(g));
    }
    first_misfit(stages, servers)
}
