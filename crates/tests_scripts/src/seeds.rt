//! The texts of seeds' scripts.

use mf_script::{Memory, from_seed, print_script};
use std::alloc::Global;
use std::test::Fail;

// Seeds, with the length of their texts and a hash of these (FNV-1a of 64 bits), as another program
// drew them.
static TEXTS: [(u64, usize, u64); 3] = [
    (0, 2_262, 13_203_059_641_013_541_230),
    (7, 2_255, 1_159_524_857_106_762_214),
    (u64::MAX, 2_267, 2_297_960_334_302_483_869),
];

fn hash(text: &[u8]) -> u64 {
    let mut h: u64 = 14_695_981_039_346_656_037;
    for byte in text {
        h = (h ^ u64::from(*byte)).wrapping_mul(1_099_511_628_211);
    }
    h
}

// The text of a seed, whose last line has an end.
fn text_of(alloc: Global, seed: u64) -> Result<Vec<u8>, Memory> {
    let script = from_seed(alloc, seed)?;
    let mut text = print_script(alloc, &script)?;
    text.push(b'\n')?;
    Ok(text)
}

// The first seed that has another text.
fn first_other(alloc: Global) -> Result<Option<u64>, Memory> {
    for (seed, length, h) in &TEXTS {
        let text = text_of(alloc, *seed)?;
        if text.len() != *length || hash(&text) != *h {
            return Ok(Some(*seed));
        }
    }
    Ok(None)
}

#[test]
fn texts_are_drawn_in_order(rt: HostRuntime) -> Result<(), Fail> {
    assert_eq!(rt; first_other(rt.alloc())?, None);
    Ok(())
}
