//! A chunk: bytes that don't change, with several owners.
ghost use Rattle.std.specs.Prelude.{◌≡◌, ◌<◌, All, IfOk};

use std::alloc::{AllocError, Global};
use std::marker::Model;
use std::sync::Arc;

/// Memory ran out.
pub type Memory = AllocError;

/// Bytes that don't change. Its owners share them by a count, so that a further owner costs no
/// copy.
#[derive(Drop)]
pub struct Chunk {
    bytes: Arc<Vec<u8>>,
}

impl Model for Chunk {
    ghost use Rattle.std.specs.Prelude.{List, ℕ, All, ◌<◌};
    ghost use Rattle.std.specs.Arc.{arc_value};

    ghost Value = { List ℕ };

    ghost view = { λ c. (arc_value c.bytes).items };

    ghost invariant = { λ c. All (λ b. b < 256) (arc_value c.bytes).items };
}

impl Chunk {
    /// The chunk of these bytes. The only error is want of memory.
    pub fn new(alloc: Global, bytes: Vec<u8>) -> Result<Chunk, Memory>
        ensures { IfOk result (λ c. c ≡ bytes.items) }
    {
        let bytes = Arc::new(alloc, bytes)?;
        Ok(Chunk { bytes })
    }

    /// A further owner of the same bytes. The only error is want of memory.
    pub fn share(&self) -> Result<Chunk, Memory>
        ensures { IfOk result (λ c. c ≡ self.now) }
    {
        let bytes = Arc::try_clone(&self.bytes)?;
        Ok(Chunk { bytes })
    }

    /// The bytes.
    pub fn bytes(&self) -> &[u8]
        ensures same { result.now ≡ self.now }
        ensures bytes { All (λ b. b < 256) self.now }
    {
        self.bytes.as_slice()
    }
}
