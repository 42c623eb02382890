//! A journal over a disk.
use crate::commit::{begin, commit, frame};
use crate::disk::Disk;
use crate::opening::{OpenFault, parse, read_all};
use std::alloc::Global;

/// The greatest number of bytes of a journal.
const LIMIT: u64 = 268_435_456;

/// Why a journal wasn't begun, or a record wasn't added.
#[derive(Clone, Copy)]
pub enum JournalFault {
    /// A call of the disk failed.
    Disk,
    /// The journal would pass its limit.
    Full,
    /// An earlier append failed at the disk.
    Broken,
    /// Memory ran out.
    Memory,
}

/// A journal over a disk.
#[derive(Drop)]
pub struct Journal<D: Disk> {
    disk: D,
    gate: u64,
    broken: bool,
}

impl<D: Disk> Journal<D> {
    ghost use Rattle.std.specs.Prelude.{◌≡◌, ◌↔◌, ◌++◌, ◌∷◌, ◌+◌, ◌<◌, ◌^◌, ◌⊎◌, [], List, ℕ};
    ghost use Rattle.std.specs.Prelude.{length};
    ghost use Rattle.std.specs.Prelude.{true, false, is_ok, IfOk, IfErr, OnOk, IsErrOf};
    ghost use Rattle.mf_journal.specs.Calls.{Ran};
    ghost use Rattle.mf_journal.specs.Calls as call;
    ghost use Rattle.mf_journal.specs.declared.journal.JournalFault.TheVariants as fault;
    ghost use Rattle.mf_journal.specs.declared.opening.OpenFault.TheVariants as open_fault;
    ghost use Rattle.mf_journal.specs.Frames.{IsBeforeOrAfter, IsJournal, mark};
    ghost use Rattle.mf_journal.specs.Opening.{HasFault, Opens, lists};
    ghost use Rattle.mf_journal.specs.Moments.{AnyMoment};
    ghost use Rattle.mf_journal.specs.Kept.{Keeps, adds, disk_of, gate_of, is_broken};

    /// Begins a journal without records.
    pub fn format(disk: D) -> Result<Journal<D>, (D, JournalFault)>
        ensures ran { IfOk result (λ journal. Ran (call.write 0 (mark ++ 0 ∷ []) ∷ call.sync ∷ [])
            (D.log disk) (D.log (disk_of journal)) true) }
        ensures ran_err { IfErr result (λ e. Ran (call.write 0 (mark ++ 0 ∷ []) ∷ call.sync ∷ [])
            (D.log disk) (D.log e.0) false) }
        ensures origin { IfOk result (λ journal. D.origin (disk_of journal) ≡ D.origin disk) }
        ensures origin_err { IfErr result (λ e. D.origin e.0 ≡ D.origin disk) }
        ensures cause { IfErr result (λ e.
            (e.1 ≡ fault.Disk) × ((D.log disk).faults < (D.log e.0).faults)) }
        ensures keeps { IfOk result (λ journal. Keeps D.reads D.leaves journal []) }
    {
        let mut disk = disk;
        match begin(&mut disk) {
            Ok(()) => Ok(Journal {
                disk,
                gate: 8,
                broken: false,
            }),
            Err(_) => Err((disk, JournalFault::Disk)),
        }
    }

    /// Adds a record. At `Ok` it is acknowledged: from then on each crash leaves a journal that has
    /// it. After `Disk`, open the journal again.
    pub fn append(&mut self, alloc: Global, payload: &[u8]) -> Result<(), JournalFault>
        ensures broken { IsErrOf result fault.Broken ↔ (is_broken self.old ≡ true) }
        ensures full { IsErrOf result fault.Full
            ↔ ((is_broken self.old ≡ false)
            × (2 ^ 28 < gate_of self.old + length payload.now + 6)) }
        ensures disk { IsErrOf result fault.Disk →
            Ran (adds (gate_of self.old) payload.now) (D.log (disk_of self.old))
            (D.log (disk_of self.new)) false
            × ((D.log (disk_of self.old)).faults < (D.log (disk_of self.new)).faults)
            × (is_broken self.new ≡ true) }
        ensures ran { OnOk result (Ran (adds (gate_of self.old) payload.now)
            (D.log (disk_of self.old)) (D.log (disk_of self.new)) true
            × (gate_of self.new ≡ gate_of self.old + 5 + length payload.now)) }
        ensures no_call { is_ok result ≡ true ⊎ IsErrOf result fault.Disk ⊎ (self.new ≡ self.old) }
        ensures origin { D.origin (disk_of self.new) ≡ D.origin (disk_of self.old) }

        // What was acknowledged stays, and so does the new record once this call has returned Ok.
        ensures acknowledged { OnOk result ((ps : List (List ℕ))
            → Keeps D.reads D.leaves self.old ps
            → Keeps D.reads D.leaves self.new (ps ++ payload.now ∷ [])) }

        // A crash at any moment of the call leaves the records from before it, with the new one or
        // without.
        ensures any_moment { (ps : List (List ℕ)) → Keeps D.reads D.leaves self.old ps
            → AnyMoment (λ d. (D.log d).calls) D.left_since (disk_of self.old) (disk_of self.new)
            (IsBeforeOrAfter ps payload.now) }
    {
        if self.broken {
            return Err(JournalFault::Broken);
        }
        let size = payload.len() as u64;
        if size > LIMIT || self.gate > LIMIT || self.gate + size + 6 > LIMIT {
            return Err(JournalFault::Full);
        }
        let Ok(body) = frame(alloc, payload) else {
            return Err(JournalFault::Memory);
        };
        if commit(&mut self.disk, self.gate, &body).is_err() {
            self.broken = true;
            return Err(JournalFault::Disk);
        }
        self.gate += body.len() as u64;
        Ok(())
    }

    /// Opens a journal that a crash may have left: its records, in order.
    pub fn open(alloc: Global, disk: D) -> Result<(Journal<D>, Vec<Vec<u8>>), (D, OpenFault)>
        ensures opens { IfOk result (λ r. Opens (D.reads disk) (lists r.1.items) (gate_of r.0)) }
        ensures refuses { IfErr result (λ e. (e.1 ≡ open_fault.Disk) ⊎ (e.1 ≡ open_fault.Memory)
            ⊎ HasFault e.1 (D.reads disk)) }
        ensures cause { IfErr result (λ e. e.1 ≡ open_fault.Disk
            → (D.log disk).faults < (D.log e.0).faults) }

        ensures whole { IfOk result (λ r. is_broken r.0 ≡ false) }

        // A fault of the bytes is answered wherever there is one, unless the disk or memory failed.
        ensures faultless { OnOk result ((fault : OpenFault) → HasFault fault (D.reads disk) → ⊥) }
        ensures exactly { IfErr result (λ e. (fault : OpenFault) → HasFault fault (D.reads disk)
            → (e.1 ≡ open_fault.Disk) ⊎ (e.1 ≡ open_fault.Memory) ⊎ (e.1 ≡ fault)) }
        ensures origin { IfOk result (λ r. D.origin (disk_of r.0) ≡ D.origin disk) }
        ensures origin_err { IfErr result (λ e. D.origin e.0 ≡ D.origin disk) }

        // A journal is opened to its records, and is never refused.
        ensures keeps { IfOk result (λ r. (ps : List (List ℕ)) → IsJournal (D.reads disk) ps
            → (lists r.1.items ≡ ps) × Keeps D.reads D.leaves r.0 ps) }
        ensures never { IfErr result (λ e. (ps : List (List ℕ)) → IsJournal (D.reads disk) ps
            → (e.1 ≡ open_fault.Disk) ⊎ (e.1 ≡ open_fault.Memory)) }

        // A crash at any moment of the call leaves what one before it might have left.
        ensures any_moment { IfOk result (λ r. AnyMoment (λ d. (D.log d).calls) D.left_since
            disk (disk_of r.0) (D.leaves disk)) }
        ensures any_moment_err { IfErr result (λ e. AnyMoment (λ d. (D.log d).calls) D.left_since
            disk e.0 (D.leaves disk)) }
    {
        let mut disk = disk;
        let bytes = match read_all(alloc, &mut disk) {
            Ok(bytes) => bytes,
            Err(e) => return Err((disk, e)),
        };
        match parse(alloc, &bytes) {
            Ok((records, gate)) => Ok((
                Journal {
                    disk,
                    gate,
                    broken: false,
                },
                records,
            )),
            Err(e) => Err((disk, e)),
        }
    }

    /// The disk.
    pub fn into_disk(self) -> D
        ensures { result ≡ disk_of self }
    {
        self.disk
    }
}
