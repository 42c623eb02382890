//! The definitions of the code, which the contracts of the crates above cite: products, powers and
//! sums of bytes, the rules of the byte kernels, the chunks, stripes and parities of a file, and
//! when a stripe is decodable. They stand in `specs/`; there is no code.
//!
//! A *byte* is a number below 256, and the sum of bytes is their exclusive or. A *chunk* is the
//! bytes from i·B up to (i+1)·B of a file, filled with zero bytes. *Parity* p of a stripe is, byte
//! by byte, the sum of point^t times its piece t.
#![tactic(auto)]
