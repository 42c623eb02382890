//! Phases and ticks among the items of a script.

ghost use Rattle.std.specs.Prelude.{◌≡◌, ◌<◌, ◌^◌, [], slice_index_or};
ghost use Rattle.mf_lines.specs.Meaning.{phases_in};
ghost use Rattle.mf_script.specs.Phases.{ticks_ahead};

use mf_lines::{Client, Item};

/// The clients of the phase behind so many others; one that isn't there has no clients.
pub fn clients_at(items: &[Item], others: u32) -> &[Client]
    ensures { result.now ≡ slice_index_or (phases_in items.now) others [] }
{
    let mut left = others;
    for item in items {
        match item {
            Item::Tick(_) => {}
            Item::Phase(clients) => {
                if left == 0 {
                    return clients.as_slice();
                }
                left -= 1;
            }
        }
    }
    &[]
}

/// The ticks in front of the phase behind so many others.
pub fn ticks_ahead(items: &[Item], others: u32) -> u64
    requires { ticks_ahead items.now others < 2 ^ 64 }
    ensures { result ≡ ticks_ahead items.now others }
{
    let mut left = others;
    let mut sum = 0;
    for item in items {
        match item {
            Item::Tick(ticks) => sum += *ticks,
            Item::Phase(_) => {
                if left == 0 {
                    return sum;
                }
                left -= 1;
            }
        }
    }
    sum
}
