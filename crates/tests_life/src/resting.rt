//! A file that is not created: at rest, before its only actor and before two; and a close over a
//! pin.
ghost use Rattle.std.specs.Prelude.{◌≡◌, ◌<◌, ◌≤◌};
ghost use Rattle.mf_places.specs.Names.{count_of};
ghost use Rattle.mf_vault.specs.Facts.{stages};
ghost use Rattle.mf_plain.specs.Whole.{actor_of};

use crate::stages::{family, file};
use mf_plain::{Plain, PlainAccess};
use mf_shared::{Seat, Shared, SharedAccess};
use mf_vault::{Access, Book, Closed, Losses, Memory, Pinned, Rest, Servers, Slot};
use std::alloc::{AllocError, Global};
use std::sync::Wait;
use std::test::Fail;

// Whether nothing of the file is closed or there.
fn is_unborn(plain: &Plain) -> Result<bool, Memory> {
    for g in 0..plain.book().stages() {
        if plain.closed(g) {
            return Ok(false);
        }
    }
    for n in 0..plain.book().count() {
        if !matches!(plain.rest(plain.book().name(n))?, Rest::Unborn) {
            return Ok(false);
        }
    }
    Ok(plain.published() == 0 && plain.born() == 0 && plain.book().count() == 14)
}

// What the only actor of a file that isn't created is told.
fn finds_it_absent(access: &mut PlainAccess) -> bool
    requires right { (actor_of access.old).view.build.right ≡ 0 }
    requires slot { (actor_of access.old).view.hold ≡ 0 }
{
    let is_new = access.age() == 0 && access.ledger().is_empty();
    access.cut_off(Servers { bits: 5 });
    is_new
        && access.pin(Slot::Hold) == Pinned::Absent
        && access.pinned(Slot::Hold).is_none()
        && access.pinned(Slot::Work).is_none()
}

// Whether the only actor is told so, and the file rests then as before.
fn rests_absent(alloc: Global) -> Result<bool, Memory> {
    let plain = file(alloc, &family(alloc)?, 1, b"abcd")?;
    let losses = Losses::new(alloc);
    let mut access = PlainAccess::new(alloc, plain, 7, &losses);
    access.reserve(3)?;
    if access.begin() {
        access.end();
    }
    let is_absent = finds_it_absent(&mut access);
    let (plain, ledger) = access.finish();
    Ok(is_absent && plain.published() == 0 && plain.born() == 0 && ledger.is_empty())
}

// What a close of the first generation says over a pin, once it is free, and again.
fn closings<A: Access>(access: &mut A) -> Option<[Closed; 3]>
    requires right { (A.actor access.old).view.build.right ≡ 0 }
    requires hold { (A.actor access.old).view.hold ≡ 0 }
    requires work { (A.actor access.old).view.work ≡ 0 }
    requires empty { count_of (A.actor access.old).facts.book ≡ 0 }
    requires some { 0 < stages (A.actor access.old).facts }
    requires room { 3 ≤ A.spare access.old }
{
    if !access.begin() {
        return None;
    }
    let stages = access.book().stages();
    let Pinned::Absent = access.pin(Slot::Work) else {
        return None;
    };
    access.publish(1);
    let Pinned::At(_) = access.pin(Slot::Hold) else {
        return None;
    };
    access.publish(stages + 1);
    let over = access.close(0);
    access.unpin(Slot::Hold);
    let free = access.close(0);
    let again = access.close(0);
    access.end();
    Some([over, free, again])
}

// What closes say over a pin and without one, and what rests then.
fn closed_twice(alloc: Global) -> Result<(Option<[Closed; 3]>, Plain, usize), Memory> {
    let family = family(alloc)?;
    let book = Book::new(alloc, family.shape(), family.points(), 1, 0, 0)?;
    let plain = Plain::new(alloc, book, b"")?;
    let losses = Losses::new(alloc);
    let mut access = PlainAccess::new(alloc, plain, 7, &losses);
    access.reserve(3)?;
    let mut told = None;
    if access.book().count() == 0 && access.book().stages() == 2 {
        told = closings(&mut access);
    }
    let (plain, ledger) = access.finish();
    Ok((told, plain, ledger.len()))
}

// A seat may pass to another thread, and several threads may use the file.
fn may_cross<S: Send, F: Sync>(_seat: &S, _file: &F) {}

// Whether a file that isn't created rests again behind two actors, of whom one took the right.
fn rests_again<R: Wait>(rt: &R, alloc: Global) -> Result<bool, Memory> {
    let plain = file(alloc, &family(alloc)?, 1, b"abcd")?;
    let losses = Losses::new(alloc);
    let Ok((shared, mut first)) = Shared::of_plain(alloc, plain, 7, &losses) else {
        return Err(AllocError);
    };
    let second = shared.split(&mut first);
    may_cross::<Seat, Shared>(&second, &shared);
    let mut access = SharedAccess::new(rt, alloc, &shared, second);
    let won = access.begin();
    let (second, ledger) = access.finish();
    shared.join(&mut first, second);
    let plain = shared.into_plain(first);
    Ok(won && ledger.is_empty() && plain.published() == 0 && plain.born() == 0)
}

#[test]
fn files_that_are_not_created_rest(rt: HostRuntime) -> Result<(), Fail> {
    let plain = file(rt.alloc(), &family(rt.alloc())?, 1, b"abcd")?;
    assert!(rt; is_unborn(&Plain::together(plain.apart()))?);
    assert!(rt; rests_absent(rt.alloc())?);
    assert!(rt; rests_again(&rt, rt.alloc())?);
    Ok(())
}

#[test]
fn a_pinned_generation_is_not_closed(rt: HostRuntime) -> Result<(), Fail> {
    let (told, plain, entries) = closed_twice(rt.alloc())?;
    assert!(rt; told == Some([Closed::Pins(1), Closed::Done, Closed::Already]));
    assert!(rt; (plain.published(), plain.born(), entries) == (3, 7, 3));
    Ok(())
}
