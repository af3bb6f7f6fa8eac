//! For each graph the number of the first one with the same block, so that those with equal blocks
//! have one number.

ghost use Rattle.std.specs.Prelude.{◌≡◌, length, IfOk};
ghost use Rattle.cert_check.specs.Firsts.{mixed_with, mixed_words, mixed_fours, IsBlockKnown, IsNumberKnown, AreFirsts};

use auto_core::Memory;
use shared_graphs::GraphBlocks;
use std::alloc::Global;
use std::collections::BTreeMap;

/// By how many bits a mixed number is turned for the next word.
const MIX_TURN: u32 = 5;

/// What a mixed number is multiplied by for each word: an odd number whose bits have no pattern.
const MIX_FACTOR: u64 = 5871781006564002453;

/// By each mixed number the first graph whose block has it, and by their blocks the first ones of
/// those that come later, whose block is another one. Words of a hostile file can make many blocks
/// have one mixed number; these are told apart by the order of their words.
#[derive(Drop)]
struct Known<'a> {
    by_mixed: BTreeMap<u64, u64>,
    by_block: BTreeMap<&'a [u64], u64>,
}

/// The mixed number with one word more.
fn mix(mixed: u64, word: u64) -> u64
    ensures { result ≡ mixed_with mixed word }
{
    (mixed.rotate_left(MIX_TURN) ^ word).wrapping_mul(MIX_FACTOR)
}

/// The mixed number with these words more, one after the other.
pub fn mix_words(mixed: u64, words: &[u64]) -> u64
    ensures { result ≡ mixed_words mixed words.now }
{
    let mut now = mixed;
    for k in 0..words.len() {
        now = mix(now, words[k]);
    }
    now
}

/// The mixed number of a block. Four words are mixed by themselves first, since so the steps of one
/// four needn't wait for those of the one before.
fn mix_block(block: &[u64]) -> u64
    ensures { result ≡ mixed_fours 0 block.now }
{
    let mut now = 0;
    let mut at = 0;
    while block.len() - at >= 4 {
        let four = mix(
            mix(mix(mix(0, block[at]), block[at + 1]), block[at + 2]),
            block[at + 3],
        );
        now = mix(now, four);
        at += 4;
    }
    mix_words(now, &block[at..])
}

/// The number that the block is known by, which is this one if it was not known.
fn known_number<'a>(
    known: &mut BTreeMap<&'a [u64], u64>,
    block: &'a [u64],
    number: u64,
) -> Result<u64, Memory>
    ensures { IfOk result (IsBlockKnown known.old known.new block.now number) }
{
    if let Some(first) = known.get(block) {
        return Ok(*first);
    }
    match known.insert(block, number) {
        Ok(_none) => Ok(number),
        Err(_refused) => Err(Memory),
    }
}

/// The number of the first graph with the same block as this one, among those known and this one.
fn first_number<'a>(
    known: &mut Known<'a>,
    graphs: &'a GraphBlocks,
    number: u64,
) -> Result<u64, Memory>
    ensures { IfOk result (IsNumberKnown graphs.now.items known.old known.new number) }
{
    let block = graphs.block(number as usize);
    let mixed = mix_block(block);
    if let Some(first) = known.by_mixed.get(&mixed) {
        if graphs.block(*first as usize) == block {
            return Ok(*first);
        }
        return known_number(&mut known.by_block, block, number);
    }
    match known.by_mixed.insert(mixed, number) {
        Ok(_none) => Ok(number),
        Err(_refused) => Err(Memory),
    }
}

/// For each graph the number of the first one with the same block.
pub fn first_numbers(alloc: Global, graphs: &GraphBlocks) -> Result<Vec<u64>, Memory>
    ensures size { IfOk result (λ firsts. length firsts.items ≡ length graphs.now.items) }
    ensures firsts { IfOk result (λ firsts. AreFirsts graphs.now.items firsts.items) }
{
    let mut known = Known {
        by_mixed: BTreeMap::new(alloc),
        by_block: BTreeMap::new(alloc),
    };
    let mut firsts = Vec::new(alloc);
    for k in 0..graphs.len() {
        let first = first_number(&mut known, graphs, k as u64)?;
        firsts.push(first)?;
    }
    Ok(firsts)
}
