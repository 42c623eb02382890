//! Lines of ages: policies and ticks.

ghost use Rattle.std.specs.Prelude.{◌≡◌, ◌==◌, length};
ghost use Rattle.mf_lines.specs.Words.{behind};
ghost use Rattle.mf_lines.specs.Lines.{Says, rises_behind, are_thresholds, policy_form, tick_form};
ghost use Rattle.mf_lines.specs.Drafts.{so_in, IsDraft};

use crate::draft::Draft;
use crate::forms::{Form, any_above, numbers_of, within};
use crate::parts::{Kind, LimitName};
use crate::words::{last_word, spelled, split_word};
use mf_policy::Policy;
use std::alloc::Global;

const MAX_TICKS: u64 = 1_000_000_000;

// Whether so many words are left.
fn has_words(rest: Option<&[u8]>, many: usize) -> bool
    ensures { result ≡ (length (behind rest.entry) == many) }
{
    let mut left = rest;
    for _ in 0..many {
        let Some(line) = left else {
            return false;
        };
        let (_, after) = split_word(line);
        left = after;
    }
    left.is_none()
}

// Whether each number is above the one before it, and the first above `first`.
fn rises_behind(first: u64, numbers: &[u64]) -> bool
    ensures { result ≡ rises_behind first numbers.now }
{
    let mut last = first;
    for n in numbers {
        if *n <= last {
            return false;
        }
        last = *n;
    }
    true
}

// Whether the numbers begin with 0, and each is above the one before it.
fn are_thresholds(numbers: &[u64]) -> bool
    ensures { result ≡ are_thresholds numbers.now }
{
    match numbers.split_first() {
        None => false,
        Some((first, rest)) => *first == 0 && rises_behind(*first, rest),
    }
}

/// What a policy line says, by what stands behind its first word.
pub fn policy_line(alloc: Global, draft: &Draft, rest: Option<&[u8]>) -> Result<Form, Kind>
    requires { IsDraft draft.now }
    ensures { Says result (policy_form (so_in draft.now) (behind rest.entry)) }
{
    if draft.stages.is_empty() {
        return Err(Kind::Arity);
    }
    if !has_words(rest, draft.stages.len()) {
        return Err(Kind::Arity);
    }
    let thresholds = numbers_of(alloc, rest)?;
    within(&[(any_above(&thresholds, MAX_TICKS), LimitName::Tick)])?;
    if !are_thresholds(&thresholds) {
        return Err(Kind::Order);
    }
    Ok(Form::Policy(Policy::new(thresholds)))
}

/// What a tick line says, by what stands behind its first word.
pub fn tick_line(rest: Option<&[u8]>) -> Result<Form, Kind>
    ensures { result ≡ tick_form (behind rest.entry) }
{
    let ticks = spelled(last_word(rest)?)?;
    within(&[(ticks > MAX_TICKS, LimitName::Tick)])?;
    Ok(Form::Tick(ticks))
}
