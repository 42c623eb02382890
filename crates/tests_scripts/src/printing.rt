//! Scripts that are printed again.

use super::texts::{SCRIPT, STORE};
use mf_script::{Memory, print_script, read_script};
use std::alloc::Global;
use std::test::Fail;

// What stands behind the lines of the store, and how it is printed.
static PRINTED: [(&[u8], &[u8]); 9] = [
    (
        b"file a text abcd\nphase\nclient\ncreate a\nhold a\nlose 5\nrepair a\nconvert a\n\
        reclaim a\nrelease a\nremove a\nread a\nend",
        b"file a text abcd\nphase\nclient\ncreate a\nhold a\nlose 5\nrepair a\nconvert a\n\
        reclaim a\nrelease a\nremove a\nread a\nend",
    ),
    (
        b"file a empty\nphase\nclient\nread a without 0 3 5\nrepair a without 2\n\
        convert a without 0 1 2 3 4 5\nend",
        b"file a empty\nphase\nclient\nread a without 0 3 5\nrepair a without 2\n\
        convert a without 0 1 2 3 4 5\nend",
    ),
    (
        b"file a empty\nphase\nclient\nread a without 5 0 3\nrepair a without 2\n\
        convert a without 5 4 3 2 1 0\nend",
        b"file a empty\nphase\nclient\nread a without 0 3 5\nrepair a without 2\n\
        convert a without 0 1 2 3 4 5\nend",
    ),
    (b"file a empty\ndump a\nend\n", b"file a empty\ndump a\nend"),
    (
        b"file b empty\r\nfile c hex 61ff\r\nfile d pattern 3 250\r\nfile a text  a b \nend\r\n",
        b"file b empty\nfile c hex 61ff\nfile d pattern 3 250\nfile a text  a b \nend",
    ),
    (
        b"policy 0 1000000000\nfile a text abcd\ntick 1\nphase\nclient\ncreate a\nlose 1\n\
        tick 0\ntick 1000000000\ntick 7\nphase\nclient\nsweep\nlose 2\ntick 9\nend",
        b"policy 0 1000000000\nfile a text abcd\ntick 1\nphase\nclient\ncreate a\nlose 1\n\
        tick 0\ntick 1000000000\ntick 7\nphase\nclient\nsweep\nlose 2\ntick 9\nend",
    ),
    (
        b"file a empty\ntick 3\nphase\nclient\nend",
        b"file a empty\ntick 3\nphase\nclient\nend",
    ),
    (
        b"file a pattern 1024 0\nphase\nclient\ncreate a\nend",
        b"file a pattern 1024 0\nphase\nclient\ncreate a\nend",
    ),
    (
        b"file a empty\nphase\nclient\nclient\nclient\nclient\nclient\nclient\nclient\nclient\n\
        phase\nclient\nend",
        b"file a empty\nphase\nclient\nclient\nclient\nclient\nclient\nclient\nclient\nclient\n\
        phase\nclient\nend",
    ),
];

// The script with CR LF at the end of each line but the last.
const CR_LF: &[u8] = b"\
    morph 1\r\nservers 6\r\nchunk 1\r\npoints 1 2\r\nstage 2 2 1\r\nstage 4 2 0\r\n\
    file a text abcd\r\nphase\r\nclient\r\ncreate a\r\nread a\r\nend";

// A store with 64 files.
const FILES: &[u8] = b"\
    morph 1\nservers 6\nchunk 1\npoints 1 2\nstage 2 2 1\nstage 4 2 0\n\
    file aa empty\nfile ab empty\nfile ac empty\nfile ad empty\nfile ae empty\nfile af empty\n\
    file ag empty\nfile ah empty\nfile ba empty\nfile bb empty\nfile bc empty\nfile bd empty\n\
    file be empty\nfile bf empty\nfile bg empty\nfile bh empty\nfile ca empty\nfile cb empty\n\
    file cc empty\nfile cd empty\nfile ce empty\nfile cf empty\nfile cg empty\nfile ch empty\n\
    file da empty\nfile db empty\nfile dc empty\nfile dd empty\nfile de empty\nfile df empty\n\
    file dg empty\nfile dh empty\nfile ea empty\nfile eb empty\nfile ec empty\nfile ed empty\n\
    file ee empty\nfile ef empty\nfile eg empty\nfile eh empty\nfile fa empty\nfile fb empty\n\
    file fc empty\nfile fd empty\nfile fe empty\nfile ff empty\nfile fg empty\nfile fh empty\n\
    file ga empty\nfile gb empty\nfile gc empty\nfile gd empty\nfile ge empty\nfile gf empty\n\
    file gg empty\nfile gh empty\nfile ha empty\nfile hb empty\nfile hc empty\nfile hd empty\n\
    file he empty\nfile hf empty\nfile hg empty\nfile hh empty\n";

// A store whose first file's bytes follow, in chunks of 65,536 bytes.
const BIG: &[u8] =
    b"morph 1\nservers 6\nchunk 65536\npoints 1 2\nstage 2 2 1\nstage 4 2 0\nfile a text ";

// The same, with the bytes in hexadecimal digits.
const BIG_HEX: &[u8] =
    b"morph 1\nservers 6\nchunk 65536\npoints 1 2\nstage 2 2 1\nstage 4 2 0\nfile a hex ";

// The lines up to the first client of a store with one file.
const CLIENT: &[u8] = b"\
    morph 1\nservers 6\nchunk 1\npoints 1 2\nstage 2 2 1\nstage 4 2 0\nfile a text abcd\n\
    phase\nclient\n";

// A text: what it begins with, what follows so many times, and what it ends with.
struct Long(&'static [u8], &'static [u8], usize, &'static [u8]);

// Texts at the limits, which are printed as they are.
static LONGEST: [Long; 7] = [
    Long(
        BIG_HEX,
        b"61",
        524_233,
        b"\nphase\nclient\ncreate a\nread a\nend",
    ),
    Long(
        BIG,
        b"a",
        1_048_466,
        b"\nphase\nclient\ncreate a\nread a\nend",
    ),
    Long(
        BIG,
        b"a b ",
        25_000,
        b"\nphase\nclient\ncreate a\nread a\nend",
    ),
    Long(FILES, b"", 0, b"end"),
    Long(
        FILES,
        b"phase\nclient\ncreate aa\nread hh\ncreate de\n",
        64,
        b"end",
    ),
    Long(CLIENT, b"phase\nclient\n", 63, b"end"),
    Long(CLIENT, b"read a\n", 1_024, b"end"),
];

// Whether a text is that of a script which is printed so.
fn prints(alloc: Global, text: &[u8], wanted: &[u8]) -> bool {
    let Ok(script) = read_script(alloc, text) else {
        return false;
    };
    match print_script(alloc, &script) {
        Ok(printed) => printed.as_slice() == wanted,
        Err(_) => false,
    }
}

// The lines of the store, and these behind them.
fn with_store(alloc: Global, lines: &[u8]) -> Result<Vec<u8>, Memory> {
    let mut text = Vec::from_slice(alloc, STORE)?;
    text.extend_from_slice(lines)?;
    Ok(text)
}

// The first row that is printed otherwise.
fn first_other(alloc: Global) -> Result<Option<usize>, Memory> {
    for (at, (lines, printed)) in PRINTED.iter().enumerate() {
        let text = with_store(alloc, lines)?;
        let wanted = with_store(alloc, printed)?;
        if !prints(alloc, &text, &wanted) {
            return Ok(Some(at));
        }
    }
    Ok(None)
}

fn text_of(alloc: Global, long: &Long) -> Result<Vec<u8>, Memory> {
    let mut text = Vec::from_slice(alloc, long.0)?;
    for _ in 0..long.2 {
        text.extend_from_slice(long.1)?;
    }
    text.extend_from_slice(long.3)?;
    Ok(text)
}

// The first long text that is printed otherwise.
fn first_long(alloc: Global) -> Result<Option<usize>, Memory> {
    for (at, long) in LONGEST.iter().enumerate() {
        let text = text_of(alloc, long)?;
        if !prints(alloc, &text, &text) {
            return Ok(Some(at));
        }
    }
    Ok(None)
}

#[test]
fn a_script_is_printed_with_its_lines(rt: HostRuntime) -> Result<(), Fail> {
    assert!(rt; prints(rt.alloc(), CR_LF, SCRIPT.as_bytes()));
    assert_eq!(rt; first_other(rt.alloc())?, None);
    Ok(())
}

#[test]
fn the_longest_texts_are_printed_again(rt: HostRuntime) -> Result<(), Fail> {
    assert_eq!(rt; first_long(rt.alloc())?, None);
    Ok(())
}
