//! A disk as its user sees it: what a read gives, what a crash leaves, and its calls so far.
ghost use Rattle.std.specs.Prelude.{◌≡◌, ◌≤◌, ◌-◌, ◌++◌, ℕ, List, length, min, take, drop, IfOk};
ghost use Rattle.std.specs.Prelude.{OnOk, MatchResult};
ghost use Rattle.mf_journal.specs.Crash.{Overlays, TornAt, ComesBy, IsLasting, Advances};
ghost use Rattle.mf_journal.specs.Calls.{after, counted, failed, Fails};
ghost use Rattle.mf_journal.specs.Calls as call;
ghost use Rattle.mf_journal.specs.declared.log.Log.{Log};
ghost use Rattle.mf_journal.specs.declared.log.Origin.{Origin};

/// A call failed, and its disk has counted it.
#[derive(Clone, Copy)]
pub struct Failed;

/// Bytes that are read and written at places, and that a sync makes lasting.
pub trait Disk {
    // What no call changes.
    ghost origin: { Self → Origin };

    // What a read gives.
    ghost reads: { Self → List ℕ };

    // What a crash at this moment may leave.
    ghost leaves: { Self → List ℕ → Type 0 };

    // What a crash at some moment since that one might have left. The moments are the numbers of
    // calls, and those inside a call count as the one after it.
    ghost left_since: { Self → ℕ → List ℕ → Type 0 };

    // The calls so far, how many of them failed, and the writes among them.
    ghost log: { Self → Log };

    /// The number of bytes.
    fn length(&mut self) -> Result<u64, Failed>
        ensures length { IfOk result (λ n. n ≡ length (reads self.old)) }
        ensures reads { reads self.new ≡ reads self.old }
        ensures leaves { (c : List ℕ) → leaves self.new c → leaves self.old c }
        ensures log { MatchResult result (λ _. log self.new ≡ counted (log self.old))
            (λ _. log self.new ≡ failed (log self.old)) }
        ensures time { Advances (log self.old).calls (log self.new).calls
            (left_since self.old) (left_since self.new) (leaves self.new) }
        ensures origin { origin self.new ≡ origin self.old };

    /// Puts all bytes from a place on, up to the buffer's length, in front of `buf`, and answers
    /// their number.
    fn read_at(&mut self, at: u64, buf: &mut [u8]) -> Result<usize, Failed>
        ensures bound { IfOk result (λ n. n ≡ min (length buf.new) (length (reads self.old) - at)) }
        ensures bytes { IfOk result (λ n.
            buf.new ≡ take n (drop at (reads self.old)) ++ drop n buf.old) }
        ensures reads { reads self.new ≡ reads self.old }
        ensures leaves { (c : List ℕ) → leaves self.new c → leaves self.old c }
        ensures log { MatchResult result (λ _. log self.new ≡ counted (log self.old))
            (λ _. log self.new ≡ failed (log self.old)) }
        ensures time { Advances (log self.old).calls (log self.new).calls
            (left_since self.old) (left_since self.new) (leaves self.new) }
        ensures origin { origin self.new ≡ origin self.old };

    /// Writes over what is there, and past the end. What a write leaves between the old end and a
    /// place behind it isn't said.
    fn write_at(&mut self, at: u64, bytes: &[u8]) -> Result<(), Failed>
        ensures written { OnOk result (at ≤ length (reads self.old) →
            Overlays at bytes.now (reads self.old) (reads self.new)) }
        ensures leaves { ComesBy (TornAt at (length bytes.now)) (leaves self.old)
            (leaves self.new) }
        ensures log { MatchResult result
            (λ _. log self.new ≡ after (call.write at bytes.now) (log self.old))
            (λ _. Fails (call.write at bytes.now) (log self.old) (log self.new)) }
        ensures time { Advances (log self.old).calls (log self.new).calls
            (left_since self.old) (left_since self.new) (leaves self.new) }
        ensures origin { origin self.new ≡ origin self.old };

    /// Makes what was written lasting.
    fn sync(&mut self) -> Result<(), Failed>
        ensures lasting { OnOk result (IsLasting (reads self.old) (leaves self.new)) }
        ensures reads { reads self.new ≡ reads self.old }
        ensures leaves { (c : List ℕ) → leaves self.new c → leaves self.old c }
        ensures log { MatchResult result
            (λ _. log self.new ≡ after call.sync (log self.old))
            (λ _. Fails call.sync (log self.old) (log self.new)) }
        ensures time { Advances (log self.old).calls (log self.new).calls
            (left_since self.old) (left_since self.new) (leaves self.new) }
        ensures origin { origin self.new ≡ origin self.old };

    // What is read is one of the images.
    ghost read_is_left: { (disk : Self) → leaves disk (reads disk) };

    // This moment is one of those since an earlier one.
    ghost now_counts: { (disk : Self) (t : ℕ) (c : List ℕ) → t ≤ (log disk).calls
        → leaves disk c → left_since disk t c };

    // Since this moment there is no other.
    ghost only_now: { (disk : Self) (c : List ℕ) → left_since disk (log disk).calls c
        → leaves disk c };
}
