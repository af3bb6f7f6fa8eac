//! Blocks of 64 rows with one word each, transposed in place (Warren, Hacker's Delight, 7-3).

ghost use Rattle.std.specs.Prelude.{◌≡◌, ◌+◌, ◌/◌, ◌%◌, ◌^◌, ◌<◌, ℕ, length, slice_index};
ghost use Rattle.bit_rows.specs.Blocks.{IsSquareSize, IsMask, IsExchanged, IsTransposed};

/// Exchanges squares of row `k` with those of the row `h` rows later, where `mask` has the columns
/// of each first square.
fn exchange(block: &mut [u64], k: usize, h: usize, mask: u64)
    requires len { length block.old ≡ 64 }
    requires size { IsSquareSize h }
    requires mask { IsMask h mask }
    requires first { k / h % 2 ≡ 0 }
    requires place { k < 64 }
    ensures first { IsExchanged block.old block.new h k }
    ensures second { IsExchanged block.old block.new h (k + h) }
    ensures others { (a : ℕ) → ¬ (a ≡ k) → ¬ (a ≡ k + h)
        → slice_index block.new a ≡ slice_index block.old a }
{
    let upper = block[k];
    let lower = block[k + h];
    block[k] = (upper & mask) | ((lower & mask) << h);
    block[k + h] = ((upper >> h) & mask) | (lower & !mask);
}

/// Exchanges the squares of this size.
fn exchange_all(block: &mut [u64], h: usize, mask: u64)
    requires len { length block.old ≡ 64 }
    requires size { IsSquareSize h }
    requires mask { IsMask h mask }
    ensures { (a : ℕ) → a < 64 → IsExchanged block.old block.new h a }
{
    for k in 0..64 {
        if (k / h) % 2 == 0 {
            exchange(block, k, h, mask);
        }
    }
}

/// Exchanges rows and columns of the block.
pub fn transpose_block(block: &mut [u64])
    requires { length block.old ≡ 64 }
    ensures { IsTransposed block.old block.new }
{
    exchange_all(block, 32, 0x0000_0000_FFFF_FFFF);
    exchange_all(block, 16, 0x0000_FFFF_0000_FFFF);
    exchange_all(block, 8, 0x00FF_00FF_00FF_00FF);
    exchange_all(block, 4, 0x0F0F_0F0F_0F0F_0F0F);
    exchange_all(block, 2, 0x3333_3333_3333_3333);
    exchange_all(block, 1, 0x5555_5555_5555_5555);
}
