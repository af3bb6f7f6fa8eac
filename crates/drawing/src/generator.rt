//! The draws of a seed.

ghost use Rattle.std.specs.Prelude.{◌≡◌, IfOk, map};
ghost use Rattle.std.specs.List.{range_with_len};
ghost use Rattle.drawing.specs.Draws.{draw_at};

use auto_core::Memory;
use rand_core::utils::NextWord;
use rand_pcg::Lcg64Xsh32;
use std::alloc::Global;

/// So many draws of the seed, in order.
pub fn draws(alloc: Global, seed: u32, count: u32) -> Result<Vec<u32>, Memory>
    ensures { IfOk result (λ v. v.items ≡ map (draw_at seed) (range_with_len 0 count)) }
{
    let mut generator = Lcg64Xsh32::new(u64::from(seed), 54);
    let mut draws = Vec::new(alloc);
    for _at in 0..count {
        draws.push(generator.next_word())?;
    }
    Ok(draws)
}
