//! Texts that the tests share.

/// The lines of a store.
pub const STORE: &[u8] = b"morph 1\nservers 6\nchunk 1\npoints 1 2\nstage 2 2 1\nstage 4 2 0\n";

/// A script of a file that is created and read.
pub const SCRIPT: &str = "\
    morph 1\nservers 6\nchunk 1\npoints 1 2\nstage 2 2 1\nstage 4 2 0\nfile a text abcd\n\
    phase\nclient\ncreate a\nread a\nend";

/// Its report.
pub const REPORT: &str = "\
    report 1\n1.1.1 create a: created io 0 0 0 0 12 12 0\n\
    1.1.2 read a: bytes 4 gen 0 from 4 sha256 \
    88d4266fd4e6338d13b845fcf289579d209c897823b9217da3e161936f031589 io 4 0 0 0 0 0 0\n\
    total io 4 0 0 0 12 12 0\nconverts io 0 0 0 0 0 0 0\nend\n";
