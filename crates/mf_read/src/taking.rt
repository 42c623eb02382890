//! Where the bytes of a read go.
ghost use Rattle.std.specs.Prelude.{◌≡◌, ℕ, List};
ghost use Rattle.mf_read.specs.Taking.{taken_after};

use mf_kernel::Memory;

/// What takes the bytes of a file, piece by piece.
pub trait Taker {
    /// The bytes that it took, in order.
    ghost taken: { Self → List ℕ };

    /// Takes a piece. The only error is want of memory, and then nothing of the piece was taken.
    fn take(&mut self, piece: &[u8]) -> Result<(), Memory>
        ensures { Self.taken self.new ≡ taken_after result piece.now (Self.taken self.old) };
}

impl Taker for Vec<u8> {
    ghost taken = { λ bytes. bytes.items };

    fn take(&mut self, piece: &[u8]) -> Result<(), Memory> {
        self.extend_from_slice(piece)
    }
}
