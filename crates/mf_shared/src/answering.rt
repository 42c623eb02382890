//! What a get answers.
ghost use Rattle.std.specs.Prelude.{◌≡◌, ◌⊎◌};
ghost use Rattle.mf_vault.specs.declared.answers.Got.TheVariants as got;

use mf_vault::{Chunk, Got};

// The chunk shared, or want of memory.
pub(crate) fn shared(chunk: &Chunk) -> Got
    ensures { (result ≡ got.Here chunk.now) ⊎ (result ≡ got.Memory) }
{
    match chunk.share() {
        Ok(chunk) => Got::Here(chunk),
        Err(_) => Got::Memory,
    }
}
