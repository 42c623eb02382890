//! The families of a script, their policies, and the families of its files.

use mf_script::{Memory, Script, read_script};
use std::alloc::Global;
use std::test::Fail;

// Texts, and the thresholds of the policy of their one family, if it has one.
static POLICIES: [(&[u8], Option<&[u64]>); 2] = [
    (
        b"morph 1\nservers 6\nchunk 1\npoints 1 2\nstage 2 2 1\nstage 4 2 0\nfile a empty\n\
        file b empty\nend",
        None,
    ),
    (
        b"morph 1\nservers 6\nchunk 1\npoints 1 2\nstage 2 2 1\nstage 4 2 0\npolicy 0 7\n\
        file a empty\nfile b empty\nend",
        Some(&[0, 7]),
    ),
];

// Whether the script has the one family `main` with these thresholds, to which both files belong.
fn is_main(script: &Script, thresholds: Option<&[u64]>) -> bool {
    if script.families() != 1 || script.files().len() != 2 {
        return false;
    }
    let has_policy = match (script.policy(0), thresholds) {
        (Some(policy), Some(wanted)) => policy.thresholds() == wanted,
        (None, None) => true,
        _ => false,
    };
    let family = script.family(0);
    has_policy
        && script.version() == 1
        && script.family_name(0) == b"main".as_slice()
        && family.points() == [1, 2].as_slice()
        && family.shape().stages().len() == 2
        && script.family_of(0) == 0
        && script.family_of(1) == 0
}

// The first text whose script tells otherwise.
fn first_other(alloc: Global) -> Result<Option<usize>, Memory> {
    for (row, (text, thresholds)) in POLICIES.iter().enumerate() {
        match read_script(alloc, text) {
            Ok(script) => {
                if !is_main(&script, *thresholds) {
                    return Ok(Some(row));
                }
            }
            Err(_) => return Ok(Some(row)),
        }
    }
    Ok(None)
}

#[test]
fn a_script_tells_its_families(rt: HostRuntime) -> Result<(), Fail> {
    let other = first_other(rt.alloc())?;
    assert!(rt; other.is_none());
    Ok(())
}
