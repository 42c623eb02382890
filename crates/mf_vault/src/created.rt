//! When a file was created.
ghost use Rattle.std.specs.Prelude.{◌≡◌, ◌==◌, if◌then◌else◌};

/// The ticks at a file's creation; or these, where it isn't created.
pub fn birth(published: u32, now: u64, born: u64) -> u64
    ensures { result ≡ (if published == 0 then now else born) }
{
    if published == 0 { now } else { born }
}
