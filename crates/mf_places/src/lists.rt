//! The names of a generation, of a stripe, and of a server.
ghost use Rattle.std.specs.Prelude.{◌≡◌, ◌-◌, ◌<◌, ◌≤◌, ◌++◌, ◌∷◌, [], length, map, filter};
ghost use Rattle.std.specs.Prelude.{All, IfOk, OnOk, true, false};
ghost use Rattle.std.specs.List.{range_with_len};
ghost use Rattle.mf_shape.specs.Stages.{width_at, copies_at};
ghost use Rattle.mf_places.specs.Names.{HasName, all_names, data_names, copies_named};
ghost use Rattle.mf_places.specs.Names.{width_parities, stripe_parities, stripes_of};
ghost use Rattle.mf_places.specs.Names.{parities_of};
ghost use Rattle.mf_places.specs.Generations.{holds, holds_in, stripe_names};
ghost use Rattle.mf_places.specs.Placement.{is_on};
ghost use Rattle.mf_places.specs.Rows.{step_behind, HasNoneOn};

use crate::{Book, Memory, Name};
use mf_shape::{MAX_PARITIES, MAX_WIDTH};
use std::alloc::Global;

impl Book {
    // The allocator that the book was made with.
    fn allocator(&self) -> Global {
        *self.firsts.allocator()
    }

    /// The names that generation g holds, in their order. The only error is want of memory.
    pub fn names(&self, g: u32) -> Result<Vec<Name>, Memory>
        requires { g < length self.now.shape.stages }
        ensures sublist { IfOk result (λ found.
            found.items ≡ filter (holds self.now g) (all_names self.now)) }
        ensures had { IfOk result (λ found. All (HasName self.now) found.items) }
    {
        let mut found = Vec::new(self.allocator());
        for n in 0..self.count() {
            let name = self.name(n);
            if self.holds(g, name) {
                found.push(name)?;
            }
        }
        Ok(found)
    }

    /// The names of one stripe of generation g, in their order. A stripe that the file hasn't has
    /// none. The only error is want of memory.
    pub fn names_of(&self, g: u32, stripe: u32) -> Result<Vec<Name>, Memory>
        requires { g < length self.now.shape.stages }
        ensures sublist { IfOk result (λ found.
            found.items ≡ filter (holds_in self.now g stripe) (all_names self.now)) }
        ensures had { IfOk result (λ found. All (HasName self.now) found.items) }
        ensures parts { stripe < stripes_of self.now (width_at self.now.shape.stages g)
            → IfOk result (λ found. found.items ≡ stripe_names self.now g stripe) }
    {
        let stage = self.stage(g);
        let mut found = Vec::new(self.allocator());
        if self.stripes(g) <= stripe {
            return Ok(found);
        }
        let from = stripe * stage.width;
        let to = from + self.pieces(g, stripe);
        push_data(&mut found, from, to)?;
        for c in 0..stage.copies {
            push_copies(&mut found, c, from, to)?;
        }
        push_parities(&mut found, stage.width, stripe, stage.parities)?;
        Ok(found)
    }

    /// The names on a server, in their order. The only error is want of memory.
    pub fn names_on(&self, server: u32) -> Result<Vec<Name>, Memory>
        ensures sublist { IfOk result (λ found.
            found.items ≡ filter (is_on self.now server) (all_names self.now)) }
        ensures had { IfOk result (λ found. All (HasName self.now) found.items) }
    {
        let widths = self.widest + 1;
        let copies = self.stage(0).copies;
        let mut found = Vec::new(self.allocator());
        self.push_data_on(&mut found, server)?;
        for c in 0..copies {
            self.push_copies_on(&mut found, c, server)?;
        }
        for width in 0..widths {
            self.push_width_on(&mut found, width, server)?;
        }
        Ok(found)
    }

    // Appends the data on a server. Of as many chunks in turn as the greatest width one at most is.
    fn push_data_on(&self, found: &mut Vec<Name>, server: u32) -> Result<(), Memory>
        ensures { OnOk result (found.new.items
            ≡ found.old.items ++ filter (is_on self.now server) (data_names self.now)) }
    {
        let mut i = 0;
        while i < self.chunks {
            let on = self.push_on(found, Name::Data(i), server)?;
            i += self.step(on);
        }
        Ok(())
    }

    // Appends copy c of the chunks, as far as it is on a server.
    fn push_copies_on(&self, found: &mut Vec<Name>, c: u32, server: u32) -> Result<(), Memory>
        requires { c < copies_at self.now.shape.stages 0 }
        ensures { OnOk result (found.new.items
            ≡ found.old.items ++ filter (is_on self.now server) (copies_named self.now c)) }
    {
        let mut i = 0;
        while i < self.chunks {
            let on = self.push_on(found, Name::Copy(c, i), server)?;
            i += self.step(on);
        }
        Ok(())
    }

    // Appends a name, if it is on a server, and says whether it is.
    fn push_on(&self, found: &mut Vec<Name>, name: Name, server: u32) -> Result<bool, Memory>
        requires { HasName self.now name }
        ensures on { IfOk result (λ on. on ≡ is_on self.now server name) }
        ensures found { OnOk result (found.new.items
            ≡ found.old.items ++ filter (is_on self.now server) (name ∷ [])) }
    {
        let on = self.server(name) == server;
        if on {
            found.push(name)?;
        }
        Ok(on)
    }

    // How far to go on behind a chunk that is on a server, or isn't.
    fn step(&self, on: bool) -> u32
        ensures value { result ≡ step_behind self.now on }
        ensures within { (1 ≤ result) × (result ≤ MAX_WIDTH) }
    {
        if on { self.widest } else { 1 }
    }

    // Appends the parities of a width, as far as they are on a server.
    fn push_width_on(&self, found: &mut Vec<Name>, width: u32, server: u32) -> Result<(), Memory>
        ensures { OnOk result (found.new.items
            ≡ found.old.items ++ filter (is_on self.now server) (width_parities self.now width)) }
    {
        let parities = self.parities(width);
        let some = self.has_parity_on(parities, server);
        if !some {
            return Ok(());
        }
        let stripes = self.chunks.div_ceil(width);
        for j in 0..stripes {
            self.push_stripe_on(found, width, j, parities, server)?;
        }
        Ok(())
    }

    // Whether, of the first parities of a stripe, one is on a server: of each stripe the same.
    fn has_parity_on(&self, parities: u32, server: u32) -> bool
        requires { parities ≤ MAX_PARITIES }
        ensures some { result ≡ true → 0 < parities }
        ensures none { result ≡ false → HasNoneOn self.now server parities }
    {
        for p in 0..parities {
            let on = (self.file + (self.widest + p)) % self.shape.servers();
            if on == server {
                return true;
            }
        }
        false
    }

    // Appends the parities of a stripe, as far as they are on a server.
    fn push_stripe_on(
        &self,
        found: &mut Vec<Name>,
        width: u32,
        j: u32,
        parities: u32,
        server: u32,
    ) -> Result<(), Memory>
        requires stripe { j < stripes_of self.now width }
        requires parities { parities ≡ parities_of self.now width }
        ensures { OnOk result (found.new.items
            ≡ found.old.items ++ filter (is_on self.now server) (stripe_parities self.now width j)) }
    {
        for p in 0..parities {
            self.push_on(found, Name::Parity(width, j, p), server)?;
        }
        Ok(())
    }
}

// Appends the data of the chunks from `from` up to `to`.
fn push_data(found: &mut Vec<Name>, from: u32, to: u32) -> Result<(), Memory>
    requires { from ≤ to }
    ensures { OnOk result (found.new.items
        ≡ found.old.items ++ map (λ i. Name.Data i) (range_with_len from (to - from))) }
{
    for i in from..to {
        found.push(Name::Data(i))?;
    }
    Ok(())
}

// Appends copy c of these chunks.
fn push_copies(found: &mut Vec<Name>, c: u32, from: u32, to: u32) -> Result<(), Memory>
    requires { from ≤ to }
    ensures { OnOk result (found.new.items
        ≡ found.old.items ++ map (λ i. Name.Copy c i) (range_with_len from (to - from))) }
{
    for i in from..to {
        found.push(Name::Copy(c, i))?;
    }
    Ok(())
}

// Appends the first parities of a stripe.
fn push_parities(
    found: &mut Vec<Name>,
    width: u32,
    stripe: u32,
    parities: u32,
) -> Result<(), Memory>
    ensures { OnOk result (found.new.items
        ≡ found.old.items ++ map (λ p. Name.Parity width stripe p) (range_with_len 0 parities)) }
{
    for p in 0..parities {
        found.push(Name::Parity(width, stripe, p))?;
    }
    Ok(())
}
