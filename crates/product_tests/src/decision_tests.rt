//! Random questions: each answer is tested by the check of ranked products, or on both automata.

use crate::drawn::random;
use auto_core::{Auto, Memory, Mode};
use lasso_accept::accepts_lasso;
use product_laws::RankedPair;
use product_search::{Product, decide};
use ranked_product::{are_ascending, check, is_deterministic};
use std::alloc::Global;
use std::test::Fail;
use useful_states::trim;

/// The answer for the automaton without its useless states; none if the second automaton is not
/// deterministic.
fn decided(alloc: Global, whole: &Auto, second: &Auto) -> Result<Option<Product>, Memory> {
    if !is_deterministic(second) {
        return Ok(None);
    }
    let first = trim(alloc, whole, Mode::Buchi)?;
    Ok(Some(decide(alloc, &first, second, 1000)?))
}

/// Tells whether the pairs are in order, few, and a ranked product.
fn is_product(first: &Auto, second: &Auto, pairs: &[RankedPair]) -> bool {
    if !are_ascending(pairs) {
        return false;
    }
    if pairs.len() > 1000 {
        return false;
    }
    check(first, second, pairs).is_ok()
}

#[test]
fn each_answer_is_right(rt: HostRuntime) -> Result<(), Fail> {
    let alloc = rt.alloc();
    let mut included: u64 = 0;
    let mut apart: u64 = 0;
    for seed in 1..2000 {
        let size = 1 + seed as u32 % 6;
        let labels = 1 + seed as u32 / 7 % 2;
        let whole = random(alloc, seed, size, labels, 5, false)?;
        let second = random(
            alloc,
            seed * 31 + 5,
            1 + seed as u32 / 5 % 5,
            labels,
            15,
            true,
        )?;
        let first = trim(alloc, &whole, Mode::Buchi)?;
        match decided(alloc, &whole, &second)? {
            Some(Product::Included(pairs)) => {
                included = included + 1;
                assert!(rt; is_product(&first, &second, &pairs));
            }
            Some(Product::Apart(lasso)) => {
                apart = apart + 1;
                assert!(rt; accepts_lasso(alloc, &first, &lasso)?);
                assert!(rt; !accepts_lasso(alloc, &second, &lasso)?);
            }
            Some(Product::Limit) => assert!(rt; false),
            None => assert!(rt; false),
        }
    }
    println!(rt; "included {included}, apart {apart}")?;
    assert!(rt; included > 100);
    assert!(rt; apart > 100);
    Ok(())
}
