//! What the entries of a repair count.
ghost use Rattle.std.specs.Prelude.{◌≡◌, ◌+◌, ◌<◌, ◌^◌, length};
ghost use Rattle.mf_repair.specs.Mending.{restore_entries, skip_entries, is_restore, is_skip};

use mf_vault::{Answer, Entry, Op};

fn is_restore(entry: Entry) -> bool
    ensures { result ≡ is_restore entry }
{
    match entry {
        Entry::Chunk {
            op: Op::Restore,
            name: _,
            answer: _,
        } => true,
        _ => false,
    }
}

// Whether it is a probe of a name that couldn't be reached.
fn is_skip(entry: Entry) -> bool
    ensures { result ≡ is_skip entry }
{
    match entry {
        Entry::Chunk {
            op: Op::Probe,
            name: _,
            answer: Answer::Away(_),
        } => true,
        _ => false,
    }
}

// How many restores there are.
pub(crate) fn count_restores(entries: &[Entry]) -> u32
    requires { length entries.now < 2 ^ 24 }
    ensures { result ≡ restore_entries entries.now }
{
    let mut restored = 0;
    for entry in entries {
        if is_restore(*entry) {
            restored += 1;
        }
    }
    restored
}

// How many probes of names that couldn't be reached.
pub(crate) fn count_skips(entries: &[Entry]) -> u32
    requires { length entries.now < 2 ^ 24 }
    ensures { result ≡ skip_entries entries.now }
{
    let mut skipped = 0;
    for entry in entries {
        if is_skip(*entry) {
            skipped += 1;
        }
    }
    skipped
}
