//! A row for each kind of fault, with the line that tells it.

use mf_report::{Memory, refused_line};
use mf_script::read_script;
use std::alloc::Global;
use std::test::Fail;

// Texts, and their lines.
static FAULTS: [(&[u8], &[u8]); 12] = [
    (b"morph 1\nservers\t6", b"refused line 2 text\n"),
    (b"", b"refused line 1 header\n"),
    (b"morph 1\nserver 6", b"refused line 2 unknown\n"),
    (b"morph 1\nservers", b"refused line 2 arity\n"),
    (b"morph 1\nservers 06", b"refused line 2 number\n"),
    (
        b"morph 1\nservers 6\nchunk 0",
        b"refused line 3 limit chunk\n",
    ),
    (
        b"morph 1\nservers 6\nchunk 1\npoints 1 2\nstage 2 2 1\nfile a empty\nfile a empty",
        b"refused line 7 twice\n",
    ),
    (b"morph 1\nread a", b"refused line 2 nofile\n"),
    (b"morph 1\nservers 6\nlose 6", b"refused line 3 noserver\n"),
    (b"morph 1\n", b"refused line 2 order\n"),
    (
        b"morph 1\nservers 4\nchunk 1\npoints 1 2\nstage 4 2 0\nfile a empty\nend",
        b"refused line 5 shape servers 6\n",
    ),
    (
        b"morph 1\nservers 6\nchunk 1\npoints 3 3\nstage 4 2 0\nfile a empty\nend",
        b"refused line 5 family pointtwice 0 1\n",
    ),
];

// Whether this line tells the fault of a text.
fn is_told(alloc: Global, text: &[u8], line: &[u8]) -> Result<bool, Memory> {
    match read_script(alloc, text) {
        Ok(_script) => Ok(false),
        Err(fault) => Ok(refused_line(alloc, &fault)?.as_slice() == line),
    }
}

fn first_untold(alloc: Global) -> Result<Option<usize>, Memory> {
    for (at, (text, line)) in FAULTS.iter().enumerate() {
        if !is_told(alloc, text, line)? {
            return Ok(Some(at));
        }
    }
    Ok(None)
}

#[test]
fn each_kind_of_fault_is_told(rt: HostRuntime) -> Result<(), Fail> {
    assert_eq!(rt; first_untold(rt.alloc())?, None);
    Ok(())
}
