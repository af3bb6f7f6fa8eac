//! Pairs of states, numbered in the order in which they came.

ghost use Rattle.std.specs.Prelude.{◌≡◌, ◌^◌, ◌<◌, length, Contains, IfOk};
ghost use Rattle.product_search.specs.Found.{pair_at, IsAdded};

use auto_core::Memory;
use indexmap::IndexSet;

/// The pair with this number.
pub(crate) fn pair_of(pairs: &IndexSet<(u32, u32)>, number: u32) -> (u32, u32)
    requires { number < length pairs.now.keys }
    ensures { result ≡ pair_at pairs.now.keys number }
{
    pairs.as_slice()[number as usize]
}

/// The number of the pair, which is one of them.
pub(crate) fn number_of(pairs: &IndexSet<(u32, u32)>, pair: (u32, u32)) -> u32
    requires there { Contains pairs.now.keys pair }
    requires few { length pairs.now.keys < 2 ^ 32 }
    ensures within { result < length pairs.now.keys }
    ensures pair { pair_at pairs.now.keys result ≡ pair }
{
    match pairs.get_index_of(&pair) {
        Some(number) => number as u32,
        None => 0,
    }
}

/// Puts the pair after the others, unless it is one of them. Tells whether it was none.
pub(crate) fn add(pairs: &mut IndexSet<(u32, u32)>, pair: (u32, u32)) -> Result<bool, Memory>
    ensures { IfOk result (IsAdded pairs.old.keys pair pairs.new.keys) }
{
    let (_, is_new) = pairs.insert_full(pair)?;
    Ok(is_new)
}
