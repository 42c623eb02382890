//! What a thread counts of its own steps.
use std::alloc::{AllocError, Global};

// How often the thread's steps changed something, by generation and by name, and how often a take
// was answered.
#[derive(Debug, Drop)]
pub(crate) struct Tally {
    // By number: how often it was published.
    pub(crate) published: Vec<u32>,
    // By generation: how often a close was answered Done.
    pub(crate) closed: Vec<u32>,
    // By name: how often it was lost, restored and dropped.
    pub(crate) lost: Vec<u32>,
    pub(crate) restored: Vec<u32>,
    pub(crate) dropped: Vec<u32>,
    // Chunks handed out with the right bytes, and with others.
    pub(crate) right: u32,
    pub(crate) wrong: u32,
    // Takes that met a lost name, or one that another thread had Taken.
    pub(crate) missed: u32,
    pub(crate) again: u32,
}

// One more at this place.
pub(crate) fn bump(counts: &mut Vec<u32>, place: u32) {
    bump_by(counts, place as usize, 1);
}

fn bump_by(counts: &mut Vec<u32>, place: usize, more: u32) {
    if let Some(count) = counts.as_mut_slice().get_mut(place) {
        *count = count.wrapping_add(more);
    }
}

// Adds counts place by place.
fn add(counts: &mut Vec<u32>, others: &[u32]) {
    for (place, more) in others.iter().enumerate() {
        bump_by(counts, place, *more);
    }
}

impl Tally {
    // Nothing yet, of a file of so many stages and names.
    pub(crate) fn new(alloc: Global, stages: u32, names: u32) -> Result<Tally, AllocError> {
        let (stages, names) = (stages as usize, names as usize);
        Ok(Tally {
            published: vec![in alloc; 0; stages.saturating_add(2)]?,
            closed: vec![in alloc; 0; stages]?,
            lost: vec![in alloc; 0; names]?,
            restored: vec![in alloc; 0; names]?,
            dropped: vec![in alloc; 0; names]?,
            right: 0,
            wrong: 0,
            missed: 0,
            again: 0,
        })
    }

    // Adds what another thread counted.
    pub(crate) fn take_in(&mut self, other: &Tally) {
        add(&mut self.published, other.published.as_slice());
        add(&mut self.closed, other.closed.as_slice());
        add(&mut self.lost, other.lost.as_slice());
        add(&mut self.restored, other.restored.as_slice());
        add(&mut self.dropped, other.dropped.as_slice());
        self.right = self.right.wrapping_add(other.right);
        self.wrong = self.wrong.wrapping_add(other.wrong);
        self.missed = self.missed.wrapping_add(other.missed);
        self.again = self.again.wrapping_add(other.again);
    }
}
