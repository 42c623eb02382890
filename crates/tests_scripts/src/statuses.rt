//! The statuses of calls, with what is written, over ends that fail.

use super::texts::{REPORT, SCRIPT};
use mf_client::Free;
use mf_io::{MemorySink, MemorySource};
use mf_top::{morph, morph_check};
use std::alloc::{AllocError, Global};
use std::sync::Wait;
use std::test::Fail;
use std::thread::Threads;

// Words, a text, the numbers of the read and the write that fail (0 for none), and what is wanted:
// the status, and what was written.
struct Case {
    words: &'static [&'static str],
    text: &'static str,
    read: u32,
    write: u32,
    status: u8,
    written: &'static str,
}

const JSON: &str = "\
    {\"commands\":[{\"client\":1,\"command\":1,\"io\":[0,0,0,0,12,12,0],\"parts\":[],\
    \"phase\":1,\"text\":\"create a: created\"},{\"client\":1,\"command\":2,\
    \"io\":[4,0,0,0,0,0,0],\"parts\":[],\"phase\":1,\"text\":\"read a: bytes 4 gen 0 from 4 \
    sha256 88d4266fd4e6338d13b845fcf289579d209c897823b9217da3e161936f031589\"}],\
    \"converts\":[0,0,0,0,0,0,0],\"dumps\":[],\"total\":[4,0,0,0,12,12,0]}\n";

const SEED_7: &str = "\
    seed 7 commands 152 reads 83 lost 0 converted 10 repaired 100 report \
    b13950180d2bdfc5fc1528504cbde306158bae99b0604649b05670146a6df3ab\n";

static CASES: [Case; 18] = [
    Case {
        words: &["run"],
        text: SCRIPT,
        read: 0,
        write: 0,
        status: 0,
        written: REPORT,
    },
    Case {
        words: &["run", "--json"],
        text: SCRIPT,
        read: 0,
        write: 0,
        status: 0,
        written: JSON,
    },
    Case {
        words: &["run"],
        text: "",
        read: 0,
        write: 0,
        status: 1,
        written: "refused line 1 header\n",
    },
    Case {
        words: &["run"],
        text: SCRIPT,
        read: 1,
        write: 0,
        status: 3,
        written: "",
    },
    Case {
        words: &["run"],
        text: SCRIPT,
        read: 9,
        write: 0,
        status: 3,
        written: "",
    },
    Case {
        words: &["run", "--json"],
        text: SCRIPT,
        read: 2,
        write: 0,
        status: 3,
        written: "",
    },
    Case {
        words: &["run"],
        text: "",
        read: 1,
        write: 0,
        status: 3,
        written: "",
    },
    Case {
        words: &["run"],
        text: SCRIPT,
        read: 0,
        write: 2,
        status: 4,
        written: "report ",
    },
    Case {
        words: &["run"],
        text: SCRIPT,
        read: 0,
        write: 1,
        status: 4,
        written: "",
    },
    Case {
        words: &["run"],
        text: "",
        read: 0,
        write: 2,
        status: 4,
        written: "refused",
    },
    Case {
        words: &["check"],
        text: SCRIPT,
        read: 0,
        write: 0,
        status: 0,
        written: "family ok stages 2 tolerance 3 2\n",
    },
    Case {
        words: &["check"],
        text: SCRIPT,
        read: 1,
        write: 0,
        status: 3,
        written: "",
    },
    Case {
        words: &["run", "run"],
        text: SCRIPT,
        read: 1,
        write: 0,
        status: 2,
        written: "refused words\n",
    },
    Case {
        words: &[],
        text: SCRIPT,
        read: 1,
        write: 0,
        status: 2,
        written: "refused words\n",
    },
    Case {
        words: &["run", "--jsn"],
        text: SCRIPT,
        read: 1,
        write: 2,
        status: 4,
        written: "refused",
    },
    Case {
        words: &["seed", "7"],
        text: "",
        read: 1,
        write: 0,
        status: 0,
        written: SEED_7,
    },
    Case {
        words: &["seed", "7"],
        text: "",
        read: 1,
        write: 2,
        status: 4,
        written: "seed 7 ",
    },
    Case {
        words: &["seed", "07"],
        text: "",
        read: 1,
        write: 0,
        status: 2,
        written: "refused words\n",
    },
];

// Texts with the same, for calls that check the family.
static CHECKS: [Case; 5] = [
    Case {
        words: &["check"],
        text: SCRIPT,
        read: 0,
        write: 0,
        status: 0,
        written: "family ok stages 2 tolerance 3 2\n",
    },
    Case {
        words: &["check"],
        text: "morph 1\n",
        read: 0,
        write: 0,
        status: 1,
        written: "refused line 2 order\n",
    },
    Case {
        words: &["check"],
        text: SCRIPT,
        read: 1,
        write: 0,
        status: 3,
        written: "",
    },
    Case {
        words: &["check"],
        text: SCRIPT,
        read: 0,
        write: 2,
        status: 4,
        written: "family ",
    },
    Case {
        words: &["check"],
        text: "morph 1\n",
        read: 0,
        write: 1,
        status: 4,
        written: "",
    },
];

fn words_of(alloc: Global, words: &[&str]) -> Result<Vec<String>, AllocError> {
    let mut list = Vec::new(alloc);
    for word in words {
        list.push(String::from_str(alloc, word)?)?;
    }
    Ok(list)
}

fn source_of(alloc: Global, case: &Case) -> Result<MemorySource, AllocError> {
    let bytes = Vec::from_slice(alloc, case.text.as_bytes())?;
    let fail = Vec::from_slice(alloc, &[case.read])?;
    Ok(MemorySource::new(bytes, 7, fail))
}

fn sink_of(alloc: Global, case: &Case) -> Result<MemorySink, AllocError> {
    let fail = Vec::from_slice(alloc, &[case.write])?;
    Ok(MemorySink::new(alloc, 7, fail))
}

// Whether a call ends as it should.
fn ends(rt: &(impl Threads + Wait + Sync), alloc: Global, case: &Case) -> Result<bool, AllocError> {
    let words = words_of(alloc, case.words)?;
    let mut source = source_of(alloc, case)?;
    let mut sink = sink_of(alloc, case)?;
    let status = morph(rt, alloc, &words, &mut source, &mut sink, &Free);
    Ok(status == case.status && sink.written() == case.written.as_bytes())
}

// The number of the first case that ends otherwise.
fn first_other(
    rt: &(impl Threads + Wait + Sync),
    alloc: Global,
) -> Result<Option<usize>, AllocError> {
    for (at, case) in CASES.iter().enumerate() {
        if !ends(rt, alloc, case)? {
            return Ok(Some(at));
        }
    }
    Ok(None)
}

fn checks(alloc: Global, case: &Case) -> Result<bool, AllocError> {
    let mut source = source_of(alloc, case)?;
    let mut sink = sink_of(alloc, case)?;
    let status = morph_check(alloc, &mut source, &mut sink);
    Ok(status == case.status && sink.written() == case.written.as_bytes())
}

fn first_other_check(alloc: Global) -> Result<Option<usize>, AllocError> {
    for (at, case) in CHECKS.iter().enumerate() {
        if !checks(alloc, case)? {
            return Ok(Some(at));
        }
    }
    Ok(None)
}

#[test]
fn each_status_with_what_is_written(rt: HostRuntime) -> Result<(), Fail> {
    assert_eq!(rt; first_other(&rt, rt.alloc())?, None);
    Ok(())
}

#[test]
fn each_status_of_a_check(rt: HostRuntime) -> Result<(), Fail> {
    assert_eq!(rt; first_other_check(rt.alloc())?, None);
    Ok(())
}
