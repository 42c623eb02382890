//! What a take answers.

use mf_vault::Chunk;

/// The chunk of the name, which is Taken then; the line by which it is lost; or Again, where
/// another actor has it Taken.
#[derive(Drop)]
pub enum Taken {
    Here(Chunk),
    Lost(u32),
    Again,
}
