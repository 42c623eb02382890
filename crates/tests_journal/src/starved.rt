//! A disk that lacks memory for a write.
use mf_journal::{Disk, MemoryDisk};
use std::alloc::Global;
use std::test::Fail;

// Whether a write at a place that no memory reaches fails, is told, and leaves what is read; and
// whether the disk then goes on.
fn is_told(alloc: Global) -> bool {
    let mut disk = MemoryDisk::new(alloc, 0);
    let before = disk.write_at(0, b"abc").is_ok() && !disk.starved();
    let far = disk.write_at(u64::MAX, b"d").is_err() && disk.starved();
    let same = match disk.length() {
        Ok(length) => length == 3,
        Err(_) => false,
    };
    let on = disk.write_at(3, b"d").is_ok() && disk.sync().is_ok();
    let mut read = [0; 5];
    let all = match disk.read_at(1, &mut read) {
        Ok(count) => count == 3 && read == [b'b', b'c', b'd', 0, 0],
        Err(_) => false,
    };
    before && far && same && on && all
}

#[test]
fn a_write_without_memory(rt: HostRuntime) -> Result<(), Fail> {
    assert!(rt; is_told(rt.alloc()));
    Ok(())
}

// What a crash leaves of a write that wasn't made lasting, over one that was.
fn torn(alloc: Global) -> [u8; 8] {
    let mut left = [0; 8];
    let mut disk = MemoryDisk::new(alloc, 0);
    if disk.write_at(0, b"abcdef").is_ok()
        && disk.sync().is_ok()
        && disk.write_at(1, b"VWX").is_ok()
        && disk.write_at(5, b"YZ").is_ok()
    {
        let _ = disk.after_crash().read_at(0, &mut left);
    }
    left
}

#[test]
fn a_crash_keeps_every_second_byte(rt: HostRuntime) -> Result<(), Fail> {
    assert_eq!(rt;
        torn(rt.alloc()),
        [b'a', b'V', 0xEE, b'X', b'e', b'Y', 0xEE, 0]
    );
    Ok(())
}
