//! Gets of a chunk, again and again, through any access.
ghost use Rattle.std.specs.Bool.{OnTrue};
ghost use Rattle.std.specs.Prelude.{◌≡◌, ◌<◌, ◌≤◌, true};
ghost use Rattle.mf_places.specs.Generations.{holds};
ghost use Rattle.mf_places.specs.Names.{HasName};
ghost use Rattle.mf_vault.specs.Facts.{stages};
ghost use Rattle.mf_vault.specs.May.{MayGet};

use mf_vault::{Fetch, Got, Name, Pinned, Slot};

/// Gets the chunk of a name so often, through a pin of its own: whether it was there each time.
pub fn get_often<A: Fetch>(access: &mut A, name: Name, count: u32) -> bool
    ensures { (A.actor access.new).facts ≡ (A.actor access.old).facts }
{
    if access.pinned(Slot::Work).is_some() || access.reserve(count as usize).is_err() {
        return false;
    }
    match access.pin(Slot::Work) {
        Pinned::At(g) => is_held(access, g, name) && get_all(access, name, count),
        Pinned::Absent | Pinned::Removed => false,
    }
}

// Whether generation g holds the name.
fn is_held<A: Fetch>(access: &A, g: u32, name: Name) -> bool
    requires { g < stages (A.actor access.now).facts }
    ensures had { OnTrue result (HasName (A.actor access.now).facts.book name) }
    ensures held { OnTrue result (holds (A.actor access.now).facts.book g name ≡ true) }
{
    let book = access.book();
    book.number(name).is_some() && book.holds(g, name)
}

// Gets the chunk of a name of a pinned generation so often.
fn get_all<A: Fetch>(access: &mut A, name: Name, count: u32) -> bool
    requires may { MayGet name (A.actor access.old) }
    requires room { count ≤ A.spare access.old }
    ensures { (A.actor access.new).facts ≡ (A.actor access.old).facts }
{
    let mut all = true;
    for _ in 0..count {
        all &= is_here(access.get(name));
    }
    all
}

// Whether the chunk was there.
fn is_here(got: Got) -> bool {
    matches!(&got, Got::Here(_))
}
