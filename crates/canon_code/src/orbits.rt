//! The orbits of half-edges under the symmetries that are found: half-edges of one orbit have the same serials.

ghost use Rattle.std.specs.Prelude.{◌≡◌, ℕ, ◌<◌, ◌≤◌, List, length, IfOk};
ghost use Rattle.tri_core.specs.declared.half.Half.{Half};
ghost use Rattle.canon_code.specs.Numbered.{entry};
ghost use Rattle.canon_code.specs.Orbits.{HaveSameSerials, AreAlike, AreBelow, LeadBack, KeepSerials};

use std::alloc::{AllocError, Global};

/// The half-edges in the order of the new numbers from a start of the best, and for each half-edge the first one that is known to be of its orbit.
#[derive(Drop)]
pub struct Orbits {
    pub places: Vec<u32>,
    pub links: Vec<u32>,
}

impl Orbits {
    /// Each of so many half-edges alone, and room for their order.
    pub fn alone(alloc: Global, count: u32) -> Result<Orbits, AllocError>
        ensures as_many { IfOk result (λ o. length o.links.items ≡ count) }
        ensures alone { IfOk result (λ o. (k : ℕ) → k < count → entry o.links.items k ≡ k) }
    {
        let places = Vec::with_capacity(alloc, count as usize)?;
        let mut links = Vec::with_capacity(alloc, count as usize)?;
        for k in 0..count {
            links.push(k)?;
        }
        Ok(Orbits { places, links })
    }

    /// The same orbits, with the order from a start of another best.
    pub fn ordered(self, order: &[u32]) -> Result<Orbits, AllocError>
        ensures places { IfOk result (λ o. o.places.items ≡ order.now) }
        ensures links { IfOk result (λ o. o.links.items ≡ self.links.items) }
    {
        let mut places = self.places;
        places.clear();
        places.extend_from_slice(order)?;
        Ok(Orbits {
            places,
            links: self.links,
        })
    }

    /// The orbits under one more symmetry: the one that takes the order to another start's.
    pub fn joined(self, order: &[u32]) -> Orbits
        requires as_many { length self.places.items ≡ length order.now }
        requires own { AreBelow (length self.links.items) self.places.items }
        requires other { AreBelow (length self.links.items) order.now }
        requires back { LeadBack self.links.items }
        ensures places { result.places.items ≡ self.places.items }
        ensures as_many { length result.links.items ≡ length self.links.items }
        ensures back { LeadBack result.links.items }
        ensures same { (d : ℕ) (halves : List Half) → AreAlike d halves self.places.items order.now → KeepSerials d halves self.links.items → KeepSerials d halves result.links.items }
    {
        let mut links = self.links;
        join_all(&mut links, self.places.as_slice(), order);
        shorten(&mut links);
        Orbits {
            places: self.places,
            links,
        }
    }
}

/// The half-edge where the links from half-edge h end.
fn first_of(links: &[u32], h: u32) -> u32
    requires inside { h < length links.now }
    requires back { LeadBack links.now }
    ensures before { result ≤ h }
    ensures same { (d : ℕ) (halves : List Half) → KeepSerials d halves links.now → HaveSameSerials d halves h result }
{
    let mut first = h;
    while links[first as usize] < first {
        first = links[first as usize];
    }
    first
}

/// Joins the orbits of two half-edges.
fn join(links: &mut [u32], h: u32, k: u32)
    requires first { h < length links.old }
    requires second { k < length links.old }
    requires back { LeadBack links.old }
    ensures as_many { length links.new ≡ length links.old }
    ensures back { LeadBack links.new }
    ensures same { (d : ℕ) (halves : List Half) → HaveSameSerials d halves h k → KeepSerials d halves links.old → KeepSerials d halves links.new }
{
    let first = first_of(links, h);
    let second = first_of(links, k);
    if first < second {
        links[second as usize] = first;
    } else {
        links[first as usize] = second;
    }
}

/// Joins the orbits of the half-edges at the same places of two lists.
fn join_all(links: &mut [u32], from: &[u32], to: &[u32])
    requires as_many { length from.now ≡ length to.now }
    requires from { AreBelow (length links.old) from.now }
    requires to { AreBelow (length links.old) to.now }
    requires back { LeadBack links.old }
    ensures as_many { length links.new ≡ length links.old }
    ensures back { LeadBack links.new }
    ensures same { (d : ℕ) (halves : List Half) → AreAlike d halves from.now to.now → KeepSerials d halves links.old → KeepSerials d halves links.new }
{
    for k in 0..from.len() {
        join(links, from[k], to[k]);
    }
}

/// Links each half-edge to the first of its orbit.
fn shorten(links: &mut [u32])
    requires back { LeadBack links.old }
    ensures as_many { length links.new ≡ length links.old }
    ensures back { LeadBack links.new }
    ensures same { (d : ℕ) (halves : List Half) → KeepSerials d halves links.old → KeepSerials d halves links.new }
{
    for k in 0..links.len() {
        links[k] = links[links[k] as usize];
    }
}
