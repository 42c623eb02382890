//! Scripts.

use crate::losses::add_phases;
use crate::phases::{clients_at, ticks_ahead};
use mf_check::Family;
use mf_lines::{Bytes, Client, FileLine, Item};
use mf_places::Losses;
use mf_policy::Policy;
use std::alloc::{AllocError, Global};
use std::marker::Model;

/// A family of codes, and its name.
#[derive(Drop)]
pub struct NamedFamily {
    pub name: Bytes,
    pub family: Family,
}

/// A script: its servers, its chunk size, its families, its policy, its files, each of which
/// belongs to a family, what stands behind these, and the files of its dump lines. A script of this
/// version has one family, named `main`.
#[derive(Drop)]
pub struct Script {
    pub(crate) servers: u32,
    pub(crate) chunk: u32,
    pub(crate) families: Vec<NamedFamily>,
    pub(crate) policy: Option<Policy>,
    pub(crate) files: Vec<FileLine>,
    // The number of each file's family.
    pub(crate) file_families: Vec<u32>,
    pub(crate) items: Vec<Item>,
    // The numbers of the files of the dump lines.
    pub(crate) dumps: Vec<u32>,
}

impl Model for Script {
    ghost use Rattle.mf_lines.specs.Meaning as meaning;
    ghost use Rattle.mf_script.specs.Scripts.{script_with};
    ghost use Rattle.mf_script.specs.Sound.{IsKept};

    ghost Value = { meaning.Script };

    ghost view = { λ s. script_with s.servers s.chunk
        s.families.items s.policy s.files.items s.file_families.items s.items.items s.dumps.items };

    ghost invariant = { λ s. IsKept s.families.items
        (script_with s.servers s.chunk s.families.items s.policy s.files.items
        s.file_families.items s.items.items s.dumps.items) };
}

impl Script {
    ghost use Rattle.std.specs.Prelude.{◌≡◌, ◌≤◌, length};
    ghost use Rattle.std.specs.Prelude.{IfOk};
    ghost use Rattle.mf_lines.specs.Meaning.{phases_in};
    ghost use Rattle.mf_script.specs.Sound.{IsSound};
    ghost use Rattle.mf_script.specs.Losses.{losses_of};
    ghost use Rattle.mf_script.specs.Phases.{clients_of, ticks_before};

    /// The chunk size in bytes.
    pub fn chunk(&self) -> u32
        ensures { result ≡ self.now.chunk }
    {
        self.chunk
    }

    /// The files, by their numbers.
    pub fn files(&self) -> &[FileLine]
        ensures { result.now ≡ self.now.files }
    {
        self.files.as_slice()
    }

    /// The ticks and the phases, in order. What is told besides is what every script keeps.
    pub fn items(&self) -> &[Item]
        ensures value { result.now ≡ self.now.items }
        ensures sound { IsSound self.now }
    {
        self.items.as_slice()
    }

    /// The files of the dump lines, by their numbers, in the order of the lines.
    pub fn dumps(&self) -> &[u32]
        ensures { result.now ≡ self.now.dumps }
    {
        self.dumps.as_slice()
    }

    /// The lose lines up to the end of a phase, in the order of the script; phases are numbered
    /// from 1. Fails only where memory runs out.
    pub fn losses(&self, alloc: Global, phase: u32) -> Result<Losses, AllocError>
        ensures { IfOk result (λ losses. losses ≡ losses_of self.now phase) }
    {
        let mut losses = Losses::new(alloc);
        add_phases(&mut losses, &self.items, phase)?;
        Ok(losses)
    }

    /// The clients of a phase, in order: one to eight. Phases are numbered from 1, and one that
    /// isn't there has no clients.
    pub fn clients(&self, phase: u32) -> &[Client]
        requires { 1 ≤ phase }
        ensures value { result.now ≡ clients_of self.now phase }
        ensures many { phase ≤ length (phases_in self.now.items)
            → (1 ≤ length (clients_of self.now phase)) × (length (clients_of self.now phase) ≤ 8) }
    {
        clients_at(&self.items, phase - 1)
    }

    /// The ticks before a phase: the sum over the tick lines in front of it. Phases are numbered
    /// from 1.
    pub fn ticks_before(&self, phase: u32) -> u64
        requires { 1 ≤ phase }
        ensures { result ≡ ticks_before self.now phase }
    {
        ticks_ahead(&self.items, phase - 1)
    }
}
