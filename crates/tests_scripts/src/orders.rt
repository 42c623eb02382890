//! Two clients at once, in orders that a turnstile forces. A body that runs one after the other
//! gives up in the first order, and in at least one of the next two. The turnstile knows the
//! commands of each client, and notes where it is told of another.

use mf_client::Turnstile;
use mf_io::{MemorySink, MemorySource};
use mf_top::morph;
use std::alloc::{AllocError, Global};
use std::sync::Wait;
use std::sync::atomic::{AtomicU64, Ordering};
use std::test::Fail;
use std::thread::Threads;

// So many turns a client waits for the other.
const TURNS: u64 = 200_000_000;

// A client's coming to a command: its number, and how often the other has to have come before the
// client goes on.
struct Coming {
    command: u32,
    others: u64,
}

// The comings of two clients, in all phases, and what went wrong.
#[derive(Drop)]
struct Held {
    comings: [&'static [Coming]; 2],
    first: AtomicU64,
    second: AtomicU64,
    gave_up: AtomicU64,
    mistold: AtomicU64,
}

impl Held {
    fn new(comings: [&'static [Coming]; 2]) -> Held {
        Held {
            comings,
            first: AtomicU64::new(0),
            second: AtomicU64::new(0),
            gave_up: AtomicU64::new(0),
            mistold: AtomicU64::new(0),
        }
    }

    // A client comes to a command; `own` and `other` count its comings and the other's.
    fn comes(&self, comings: &[Coming], own: &AtomicU64, other: &AtomicU64, command: u32) {
        let coming = own.fetch_add(1, Ordering::SeqCst);
        match comings.get(coming as usize) {
            Some(due) if due.command == command => {
                if !waited(other, due.others) {
                    self.gave_up.store(1, Ordering::SeqCst);
                }
            }
            _ => self.mistold.store(1, Ordering::SeqCst),
        }
    }

    // Whether both clients came to all their commands, in turn, and nobody gave up.
    fn is_well(&self) -> bool {
        self.first.load(Ordering::SeqCst) == self.comings[0].len() as u64
            && self.second.load(Ordering::SeqCst) == self.comings[1].len() as u64
            && self.gave_up.load(Ordering::SeqCst) == 0
            && self.mistold.load(Ordering::SeqCst) == 0
    }
}

// Waits until the counter has come so far.
fn waited(counter: &AtomicU64, others: u64) -> bool {
    for _ in 0..TURNS {
        if counter.load(Ordering::SeqCst) >= others {
            return true;
        }
    }
    false
}

impl Turnstile for Held {
    fn reached(&self, client: u32, command: u32) {
        match client {
            1 => self.comes(self.comings[0], &self.first, &self.second, command),
            2 => self.comes(self.comings[1], &self.second, &self.first, command),
            _ => self.mistold.store(1, Ordering::SeqCst),
        }
    }
}

// A script, the comings of its two clients, and its reports, of which one is written.
struct Order {
    text: &'static str,
    comings: [&'static [Coming]; 2],
    reports: [&'static str; 2],
}

const READ_AND_CONVERT: &str = "\
    morph 1\nservers 6\nchunk 1\npoints 1 2\nstage 2 2 1\nstage 4 2 0\nfile a text abcd\n\
    phase\nclient\ncreate a\nphase\nclient\nread a\nclient\nconvert a\nend\n";

const READ_GEN_0: &str = "\
    report 1\n1.1.1 create a: created io 0 0 0 0 12 12 0\n\
    2.1.1 read a: bytes 4 gen 0 from 4 sha256 \
    88d4266fd4e6338d13b845fcf289579d209c897823b9217da3e161936f031589 io 4 0 0 0 0 0 0\n\
    2.2.1 convert a: converted 0 to 1 made 2 io 0 0 4 0 2 6 0\n\
    total io 4 0 4 0 14 18 0\nconverts io 0 0 4 0 2 6 0\nend\n";

const READ_GEN_1: &str = "\
    report 1\n1.1.1 create a: created io 0 0 0 0 12 12 0\n\
    2.1.1 read a: bytes 4 gen 1 from 4 sha256 \
    88d4266fd4e6338d13b845fcf289579d209c897823b9217da3e161936f031589 io 4 0 0 0 0 0 0\n\
    2.2.1 convert a: converted 0 to 1 made 2 io 0 0 4 0 2 6 0\n\
    total io 4 0 4 0 14 18 0\nconverts io 0 0 4 0 2 6 0\nend\n";

const HOLD_AND_CONVERT: &str = "\
    morph 1\nservers 6\nchunk 1\npoints 1 2\nstage 2 2 1\nstage 4 2 0\nfile a text abcd\n\
    phase\nclient\ncreate a\nphase\nclient\nconvert a\nreclaim a\nread a\n\
    client\nhold a\nread a\nend\n";

const RECLAIMED_FIRST_REPORT: &str = "\
    report 1\n1.1.1 create a: created io 0 0 0 0 12 12 0\n\
    2.1.1 convert a: converted 0 to 1 made 2 io 0 0 4 0 2 6 0\n\
    2.1.2 reclaim a: reclaimed closed 1 dropped 8 pinned - io 0 0 0 0 0 0 8\n\
    2.1.3 read a: bytes 4 gen 1 from 4 sha256 \
    88d4266fd4e6338d13b845fcf289579d209c897823b9217da3e161936f031589 io 4 0 0 0 0 0 0\n\
    2.2.1 hold a: held 1 io 0 0 0 0 0 0 0\n\
    2.2.2 read a: bytes 4 gen 1 from 4 sha256 \
    88d4266fd4e6338d13b845fcf289579d209c897823b9217da3e161936f031589 io 4 0 0 0 0 0 0\n\
    total io 8 0 4 0 14 18 8\nconverts io 0 0 4 0 2 6 0\nend\n";

const HELD_FIRST_REPORT: &str = "\
    report 1\n1.1.1 create a: created io 0 0 0 0 12 12 0\n\
    2.1.1 convert a: converted 0 to 1 made 2 io 0 0 4 0 2 6 0\n\
    2.1.2 reclaim a: reclaimed closed 0 dropped 0 pinned 0:1 io 0 0 0 0 0 0 0\n\
    2.1.3 read a: bytes 4 gen 1 from 4 sha256 \
    88d4266fd4e6338d13b845fcf289579d209c897823b9217da3e161936f031589 io 4 0 0 0 0 0 0\n\
    2.2.1 hold a: held 0 io 0 0 0 0 0 0 0\n\
    2.2.2 read a: bytes 4 gen 0 from 4 sha256 \
    88d4266fd4e6338d13b845fcf289579d209c897823b9217da3e161936f031589 io 4 0 0 0 0 0 0\n\
    total io 8 0 4 0 14 18 0\nconverts io 0 0 4 0 2 6 0\nend\n";

const SWEEP_A_HELD_FILE: &str = "\
    morph 1\nservers 6\nchunk 1\npoints 1 2\nstage 2 2 1\nstage 4 2 0\npolicy 0 1\n\
    file a text abcd\nphase\nclient\ncreate a\ntick 1\nphase\nclient\nsweep\nread a\n\
    client\nhold a\nread a\nend\n";

const SWEEP_A_HELD_FILE_REPORT: &str = "\
    report 1\n1.1.1 create a: created io 0 0 0 0 12 12 0\n\
    2.1.1 sweep: swept 1 io 0 0 4 0 2 6 0\n2.1.1 a converted 0 to 1 made 2\n\
    2.1.2 read a: bytes 4 gen 1 from 4 sha256 \
    88d4266fd4e6338d13b845fcf289579d209c897823b9217da3e161936f031589 io 4 0 0 0 0 0 0\n\
    2.2.1 hold a: held 0 io 0 0 0 0 0 0 0\n\
    2.2.2 read a: bytes 4 gen 0 from 4 sha256 \
    88d4266fd4e6338d13b845fcf289579d209c897823b9217da3e161936f031589 io 4 0 0 0 0 0 0\n\
    total io 8 0 4 0 14 18 0\nconverts io 0 0 4 0 2 6 0\nend\n";

static ORDERS: [Order; 4] = [
    // The clients of the second phase come to their commands together.
    Order {
        text: READ_AND_CONVERT,
        comings: [
            &[
                Coming {
                    command: 1,
                    others: 0,
                },
                Coming {
                    command: 1,
                    others: 1,
                },
            ],
            &[Coming {
                command: 1,
                others: 2,
            }],
        ],
        reports: [READ_GEN_0, READ_GEN_1],
    },
    // The second client holds once the first has reclaimed.
    Order {
        text: HOLD_AND_CONVERT,
        comings: [
            &[
                Coming {
                    command: 1,
                    others: 0,
                },
                Coming {
                    command: 1,
                    others: 0,
                },
                Coming {
                    command: 2,
                    others: 0,
                },
                Coming {
                    command: 3,
                    others: 0,
                },
            ],
            &[
                Coming {
                    command: 1,
                    others: 4,
                },
                Coming {
                    command: 2,
                    others: 0,
                },
            ],
        ],
        reports: [RECLAIMED_FIRST_REPORT, RECLAIMED_FIRST_REPORT],
    },
    // The second client holds before the first converts, and reads once the first has reclaimed.
    Order {
        text: HOLD_AND_CONVERT,
        comings: [
            &[
                Coming {
                    command: 1,
                    others: 0,
                },
                Coming {
                    command: 1,
                    others: 2,
                },
                Coming {
                    command: 2,
                    others: 0,
                },
                Coming {
                    command: 3,
                    others: 0,
                },
            ],
            &[
                Coming {
                    command: 1,
                    others: 0,
                },
                Coming {
                    command: 2,
                    others: 4,
                },
            ],
        ],
        reports: [HELD_FIRST_REPORT, HELD_FIRST_REPORT],
    },
    // The second client holds before the first sweeps, and reads once the sweep is done.
    Order {
        text: SWEEP_A_HELD_FILE,
        comings: [
            &[
                Coming {
                    command: 1,
                    others: 0,
                },
                Coming {
                    command: 1,
                    others: 2,
                },
                Coming {
                    command: 2,
                    others: 0,
                },
            ],
            &[
                Coming {
                    command: 1,
                    others: 0,
                },
                Coming {
                    command: 2,
                    others: 3,
                },
            ],
        ],
        reports: [SWEEP_A_HELD_FILE_REPORT, SWEEP_A_HELD_FILE_REPORT],
    },
];

// Whether a run of this script has one of its reports, and ends well, with the clients in order.
fn runs(
    rt: &(impl Threads + Wait + Sync),
    alloc: Global,
    words: &[String],
    order: &Order,
) -> Result<bool, AllocError> {
    let turnstile = Held::new(order.comings);
    let bytes = Vec::from_slice(alloc, order.text.as_bytes())?;
    let mut source = MemorySource::new(bytes, 64, Vec::new(alloc));
    let mut sink = MemorySink::new(alloc, 4096, Vec::new(alloc));
    let status = morph(rt, alloc, words, &mut source, &mut sink, &turnstile);
    let written = sink.written();
    let is_one = written == order.reports[0].as_bytes() || written == order.reports[1].as_bytes();
    Ok(status == 0 && is_one && turnstile.is_well())
}

// The first order that goes otherwise.
fn first_other(
    rt: &(impl Threads + Wait + Sync),
    alloc: Global,
) -> Result<Option<usize>, AllocError> {
    let words = vec![in alloc; String::from_str(alloc, "run")?]?;
    for (at, order) in ORDERS.iter().enumerate() {
        if !runs(rt, alloc, &words, order)? {
            return Ok(Some(at));
        }
    }
    Ok(None)
}

#[test]
fn clients_run_beside_each_other(rt: HostRuntime) -> Result<(), Fail> {
    assert_eq!(rt; first_other(&rt, rt.alloc())?, None);
    Ok(())
}
