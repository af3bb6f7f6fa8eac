//! What elements are compared by.

ghost use Rattle.std.specs.Prelude.{◌≡◌, ◌⊎◌, ◌↔◌, ◌<◌, not, length, IfOk};
ghost use Rattle.cert_check.specs.Supers.{held_block, held_number, key_of, key_at, flag_word, Fit, Key, has_key, HasKey};

use crate::elements::Supers;
use auto_core::{Memory, Mode};
use std::collections::BTreeSet;
use supergraph::Arc;

/// The word for the arc's flag.
fn flag_of(arc: &Arc) -> u64
    ensures { result ≡ flag_word arc.now.accepting }
{
    if arc.accepting { 1 } else { 0 }
}

/// The key of an arc and the first number of its graph, in finite mode of its set.
fn arc_key(mode: Mode, arc: &Arc, first: u64) -> [u64; 4]
    ensures { result ≡ key_of mode arc.now first }
{
    match mode {
        Mode::Buchi => [first, arc.from as u64, arc.to as u64, flag_of(arc)],
        Mode::Finite => [first, 0, arc.to as u64, 0],
    }
}

/// Does nothing; its contract says what the type does of the words.
fn note_fit(words: &[u64])
    ensures { Fit words.now }
{}

/// The key of the element `e`.
pub fn key_from(mode: Mode, supers: &Supers, firsts: &[u64], e: usize) -> [u64; 4]
    requires arcs { e < length supers.now.arcs.items }
    requires numbers { e < length supers.now.numbers.items }
    requires firsts { held_number supers.now e < length firsts.now }
    ensures key { result ≡ key_at mode supers.now firsts.now e }
    ensures fits { Fit (held_block supers.now e) }
{
    note_fit(supers.block(e));
    let it = supers.element(e);
    arc_key(mode, &it.arc, firsts[it.number as usize])
}

/// Adds the key, and tells whether it was not there.
pub fn is_new<const N: usize>(keys: &mut BTreeSet<[u64; N]>, key: [u64; N]) -> Result<bool, Memory>
    ensures told { IfOk result (λ new. new ≡ not (has_key keys.old key.entry)) }
    ensures added { IfOk
        result (λ _.
        (other : Key) → HasKey keys.new other ↔ (HasKey keys.old other ⊎ (other ≡ key.entry))) }
{
    match keys.insert(key) {
        Ok(new) => Ok(new),
        Err(_refused) => Err(Memory),
    }
}
