//! Where the bytes of a read go.

ghost use Rattle.std.specs.Prelude.{◌≡◌, []};
ghost use Rattle.sha2.specs.Hashers.{Holds256};
ghost use Rattle.sha2.specs.Sha256.{sha256};
ghost use Rattle.mf_client.specs.Hashes.{holds_prop};

use mf_lines::Bytes;
use mf_read::{Memory, Taker};
use mf_vault::Note;
use sha2::{Digest, Sha256};

// The SHA-256 of what was taken so far.
#[derive(Drop)]
pub(crate) struct Hashing {
    hasher: Sha256,
    pub(crate) bytes: Note<Bytes>,
    ghost holds: { Holds256 hasher bytes.value } by { holds_prop hasher bytes.value },
}

impl Hashing {
    // That of no bytes.
    pub(crate) fn new() -> Hashing
        ensures { result.bytes.value ≡ [] }
    {
        let bytes = Note::pick(&());
        Hashing {
            hasher: Sha256::new(),
            bytes,
        }
    }

    // That of all bytes that were taken.
    pub(crate) fn digest(self) -> [u8; 32]
        ensures { result ≡ sha256 self.bytes.value }
    {
        self.hasher.finalize()
    }
}

impl Taker for Hashing {
    ghost taken = { λ hashing. hashing.bytes.value };

    fn take(&mut self, piece: &[u8]) -> Result<(), Memory> {
        let bytes = Note::pick(&(piece, &*self));
        self.hasher.update(piece);
        self.bytes = bytes;
        Ok(())
    }
}
