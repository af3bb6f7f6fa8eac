//! Whether each element differs from those before it.

ghost use Rattle.std.specs.Prelude.{◌≡◌, ◌+◌, ◌*◌, ◌^◌, ◌<◌, ◌≤◌, ℕ, true, false, length, slice_set, None, IfOk, IfSome};
ghost use Rattle.log_check.specs.Checks.{Tells, checks_of_each};
ghost use Rattle.cert_check.specs.Listing.{difference_checks};
ghost use Rattle.cert_check.specs.Seen.{key_place, at_place, HaveSeen, IsUnlikeEarlier};
ghost use Rattle.cert_check.specs.Supers.{held_block, held_number, key_at, Fit, Key, AreSupers};

use crate::elements::Supers;
use crate::firsts::{first_numbers, mix_words};
use crate::keys::{is_new, key_from};
use auto_core::{Auto, List, Memory, Mode};
use cert_value::Element;
use log_check::{CheckFault, Refusal};
use std::alloc::Global;
use std::collections::BTreeSet;

/// How many places the table has for each element; the whole table has one more, so that it is
/// never empty. With so many, most keys find theirs free.
const PLACES_PER_ELEMENT: usize = 4;

/// The elements whose keys were seen. Words of a hostile file can make many keys have one place;
/// all but the first of them are looked for in the ordered set.
#[derive(Drop)]
struct Seen {
    /// At the place of a key the number of the first element that came there and one more, or 0.
    places: Vec<u32>,
    /// The keys that came to a place where an element with another key was.
    others: BTreeSet<[u64; 4]>,
}

/// The place of a key among so many.
fn key_place(key: &[u64; 4], count: usize) -> usize
    requires { 0 < count }
    ensures place { result ≡ key_place count key.now }
    ensures within { result < count }
{
    ((mix_words(0, key) >> 32) % count as u64) as usize
}

impl Seen {
    /// No elements, and room for so many.
    fn new(alloc: Global, most: usize) -> Result<Seen, Memory>
        requires few { most < 10 ^ 9 }
        ensures none { IfOk result (λ seen. (keys : ℕ → Key) → HaveSeen keys 0 seen) }
        ensures room { IfOk
            result (λ seen. length seen.places.items ≡ most * PLACES_PER_ELEMENT + 1) }
    {
        Ok(Seen {
            places: vec![in alloc; 0; most * PLACES_PER_ELEMENT + 1]?,
            others: BTreeSet::new(alloc),
        })
    }

    /// The first element that came to the key's place, if any did.
    fn first_at(&self, key: &[u64; 4]) -> Option<usize>
        requires { 0 < length self.now.places.items }
        ensures none { result ≡ None → at_place self.now key.now ≡ 0 }
        ensures some { IfSome result (λ d. at_place self.now key.now ≡ d + 1) }
    {
        let standing = self.places[key_place(key, self.places.len())];
        if standing == 0 {
            return None;
        }
        Some(standing as usize - 1)
    }

    /// Lets the element stand at the key's place.
    fn put_at(&mut self, key: &[u64; 4], e: usize)
        requires some { 0 < length self.old.places.items }
        requires few { e < 10 ^ 9 }
        ensures places { self.new.places.items
            ≡ slice_set self.old.places.items (key_place (length self.old.places.items) key.now)
            (e + 1) }
        ensures others { self.new.others ≡ self.old.others }
    {
        let place = key_place(key, self.places.len());
        self.places[place] = e as u32 + 1;
    }
}

/// Tells whether no element before `e` has the key of `e`; if so, `seen` has `e` too afterwards.
fn is_unlike_earlier(
    mode: Mode,
    supers: &Supers,
    firsts: &[u64],
    e: usize,
    seen: &mut Seen,
) -> Result<bool, Memory>
    requires arcs { e < length supers.now.arcs.items }
    requires numbers { e < length supers.now.numbers.items }
    requires firsts { (d : ℕ) → d ≤ e → held_number supers.now d < length firsts.now }
    requires few { e < 10 ^ 9 }
    requires seen { HaveSeen (key_at mode supers.now firsts.now) e seen.old }
    ensures fits { IfOk result (λ _. Fit (held_block supers.now e)) }
    ensures unlike { IfOk
        result (λ is. is ≡ true → IsUnlikeEarlier (key_at mode supers.now firsts.now) e) }
    ensures seen { IfOk
        result (λ is. is ≡ true → HaveSeen (key_at mode supers.now firsts.now) (e + 1) seen.new) }
    ensures room { IfOk result (λ _. length seen.new.places.items ≡ length seen.old.places.items) }
    ensures alike { IfOk
        result (λ is. is ≡ false → IsUnlikeEarlier (key_at mode supers.now firsts.now) e → ⊥) }
{
    let key = key_from(mode, supers, firsts, e);
    let Some(first) = seen.first_at(&key) else {
        seen.put_at(&key, e);
        return Ok(true);
    };
    let other_key = key_from(mode, supers, firsts, first);
    if other_key == key {
        return Ok(false);
    }
    is_new(&mut seen.others, key)
}

/// Tests that each element differs from those before it, in order. `item` is the number of the
/// first one's item.
pub fn check_differences(
    alloc: Global,
    mode: Mode,
    first: &Auto,
    second: &Auto,
    elements: &List<Element>,
    item: u32,
    supers: &Supers,
) -> Result<(), CheckFault>
    requires supers { AreSupers mode first.now second.now elements.now (length elements.now)
        supers.now }
    requires few { length elements.now < 10 ^ 9 }
    requires few_items { item + length elements.now < 2 ^ 32 }
    ensures { Tells
        (checks_of_each (difference_checks mode first.now second.now elements.now item) 0
        elements.now) result }
{
    let firsts = first_numbers(alloc, &supers.graphs.graphs)?;
    let items = elements.as_slice();
    let mut seen = Seen::new(alloc, items.len())?;
    for e in 0..items.len() {
        if !is_unlike_earlier(mode, supers, &firsts, e, &mut seen)? {
            return Err(CheckFault::Refused(Refusal {
                rule: 18,
                item: item + e as u32,
            }));
        }
    }
    Ok(())
}
