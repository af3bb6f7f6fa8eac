//! The graph of a word, made from its last letter to its first.

ghost use Rattle.std.specs.Prelude.{◌≡◌, ◌+◌, ◌*◌, ◌/◌, ◌^◌, ◌<◌, ◌≤◌, ◌↔◌, ◌⊎◌, [], ◌∷◌, ℕ, List, length, true, false, ◌++◌, IfOk, vec_len};
ghost use Rattle.auto_core.specs.Automaton.{IsAutomaton, Moves};
ghost use Rattle.auto_core.specs.Rows.{HasCell, bit_of, cell_of};
ghost use Rattle.auto_core.specs.Reach.{IsTable};
ghost use Rattle.lasso_accept.specs.Plane.{ArePlanes, chosen};

use auto_core::{Auto, Memory, rows};
use std::alloc::Global;

/// The tables of a word: a row of `width` words for each state.
#[derive(Debug, Drop)]
pub struct Planes {
    /// Which states a run on the word joins.
    pub any: Vec<u64>,
    /// Which of them one joins that passes an accepting state.
    pub flagged: Vec<u64>,
}

/// The first table where the state is accepting, else the second.
pub fn pick<'a>(automaton: &Auto, state: u32, marked: &'a [u64], plain: &'a [u64]) -> &'a [u64]
    requires { state < automaton.now.states }
    ensures { result.now ≡ chosen automaton.now marked.now plain.now state }
{
    if automaton.accepting(state) {
        marked
    } else {
        plain
    }
}

/// Adds to the state's row of both new tables, for each of its moves with the label, the row of the
/// state that the move leads to. The flagged one gets the row of `any` where that state is
/// accepting, else that of `flagged`.
fn gather(
    automaton: &Auto,
    label: u32,
    state: u32,
    width: usize,
    any: &[u64],
    flagged: &[u64],
    new_any: &mut [u64],
    new_flagged: &mut [u64],
)
    requires any_len { length any.now ≡ automaton.now.states * width }
    requires flagged_len { length flagged.now ≡ automaton.now.states * width }
    requires new_any_len { length new_any.old ≡ automaton.now.states * width }
    requires new_flagged_len { length new_flagged.old ≡ automaton.now.states * width }
    requires is_state { state < automaton.now.states }
    ensures any_here { (q : ℕ)
        → q < width * 64
        → HasCell new_any.new width state q
        ↔ (HasCell new_any.old width state q ⊎ ((r : ℕ) × Moves automaton.now state label r × HasCell (chosen automaton.now any.now any.now r) width r q)) }
    ensures any_others { (p q : ℕ) → q < width * 64 → ¬ (p ≡ state)
        → cell_of new_any.new width p q ≡ cell_of new_any.old width p q }
    ensures flagged_here { (q : ℕ)
        → q < width * 64
        → HasCell new_flagged.new width state q
        ↔ (HasCell new_flagged.old width state q ⊎ ((r : ℕ) × Moves automaton.now state label r × HasCell (chosen automaton.now any.now flagged.now r) width r q)) }
    ensures flagged_others { (p q : ℕ) → q < width * 64 → ¬ (p ≡ state)
        → cell_of new_flagged.new width p q ≡ cell_of new_flagged.old width p q }
{
    let span = automaton.successors(state, label);
    let transitions = automaton.transitions();
    for t in span.begin..span.end {
        let target = transitions[t as usize].target;
        let plain = pick(automaton, target, any, any);
        rows::or_row(
            new_any,
            width,
            state as usize,
            rows::row_at(plain, width, target as usize),
        );
        let marked = pick(automaton, target, any, flagged);
        rows::or_row(
            new_flagged,
            width,
            state as usize,
            rows::row_at(marked, width, target as usize),
        );
    }
}

/// Writes the tables of the word with the label in front, from those of the word.
fn prepend(
    automaton: &Auto,
    label: u32,
    width: usize,
    any: &[u64],
    flagged: &[u64],
    new_any: &mut [u64],
    new_flagged: &mut [u64],
)
    requires any_len { length any.now ≡ automaton.now.states * width }
    requires flagged_len { length flagged.now ≡ automaton.now.states * width }
    requires new_any_len { length new_any.old ≡ automaton.now.states * width }
    requires new_flagged_len { length new_flagged.old ≡ automaton.now.states * width }
    ensures { (w : List ℕ)
        → ArePlanes automaton.now w width any.now flagged.now
        → ArePlanes automaton.now (label ∷ w) width new_any.new new_flagged.new }
{
    rows::clear_row(new_any);
    rows::clear_row(new_flagged);
    for state in 0..automaton.states() {
        gather(
            automaton,
            label,
            state,
            width,
            any,
            flagged,
            new_any,
            new_flagged,
        );
    }
}

/// Writes the tables of the empty word: each state is joined to itself.
fn write_empty(automaton: &Auto, width: usize, any: &mut [u64], flagged: &mut [u64])
    requires room { automaton.now.states ≤ width * 64 }
    requires any_len { length any.old ≡ automaton.now.states * width }
    requires flagged_len { length flagged.old ≡ automaton.now.states * width }
    ensures { ArePlanes automaton.now [] width any.new flagged.new }
{
    rows::clear_row(any);
    rows::clear_row(flagged);
    for state in 0..automaton.states() as usize {
        rows::set_cell(any, width, state, state);
    }
}

/// Tells whether the table has no bit.
fn is_clear(table: &[u64]) -> bool
    ensures { result ≡ true → (i : ℕ) → bit_of table.now i ≡ false }
{
    for word in table {
        if *word != 0 {
            return false;
        }
    }
    true
}

/// Puts the word in front of the one that the tables are of; the other two are room for as much.
/// Once no states are joined, no more letters are asked.
fn write_before(
    automaton: &Auto,
    word: &[u32],
    width: usize,
    any: &mut [u64],
    flagged: &mut [u64],
    next_any: &mut [u64],
    next_flagged: &mut [u64],
)
    requires valid { IsAutomaton automaton.now }
    requires any_len { length any.old ≡ automaton.now.states * width }
    requires flagged_len { length flagged.old ≡ automaton.now.states * width }
    requires next_any_len { length next_any.old ≡ automaton.now.states * width }
    requires next_flagged_len { length next_flagged.old ≡ automaton.now.states * width }
    ensures { (w : List ℕ)
        → ArePlanes automaton.now w width any.old flagged.old
        → ArePlanes automaton.now (word.now ++ w) width any.new flagged.new }
{
    for at in (0..word.len()).rev() {
        if is_clear(any) {
            return;
        }
        prepend(
            automaton,
            word[at],
            width,
            any,
            flagged,
            next_any,
            next_flagged,
        );
        any.copy_from_slice(next_any);
        flagged.copy_from_slice(next_flagged);
    }
}

/// Writes the tables of the word; the last two are room for as much.
fn write_word(
    automaton: &Auto,
    word: &[u32],
    width: usize,
    any: &mut [u64],
    flagged: &mut [u64],
    next_any: &mut [u64],
    next_flagged: &mut [u64],
)
    requires valid { IsAutomaton automaton.now }
    requires room { automaton.now.states ≤ width * 64 }
    requires any_len { length any.old ≡ automaton.now.states * width }
    requires flagged_len { length flagged.old ≡ automaton.now.states * width }
    requires next_any_len { length next_any.old ≡ automaton.now.states * width }
    requires next_flagged_len { length next_flagged.old ≡ automaton.now.states * width }
    ensures { ArePlanes automaton.now word.now width any.new flagged.new }
{
    write_empty(automaton, width, any, flagged);
    write_before(automaton, word, width, any, flagged, next_any, next_flagged);
}

/// Writes the tables of a word with the letters in front, from those of the word; the last two are
/// room for as much.
fn write_after(
    automaton: &Auto,
    letters: &[u32],
    width: usize,
    from_any: &[u64],
    from_flagged: &[u64],
    any: &mut [u64],
    flagged: &mut [u64],
    next_any: &mut [u64],
    next_flagged: &mut [u64],
)
    requires valid { IsAutomaton automaton.now }
    requires from_any_len { length from_any.now ≡ automaton.now.states * width }
    requires from_flagged_len { length from_flagged.now ≡ automaton.now.states * width }
    requires any_len { length any.old ≡ automaton.now.states * width }
    requires flagged_len { length flagged.old ≡ automaton.now.states * width }
    requires next_any_len { length next_any.old ≡ automaton.now.states * width }
    requires next_flagged_len { length next_flagged.old ≡ automaton.now.states * width }
    ensures { (w : List ℕ)
        → ArePlanes automaton.now w width from_any.now from_flagged.now
        → ArePlanes automaton.now (letters.now ++ w) width any.new flagged.new }
{
    any.copy_from_slice(from_any);
    flagged.copy_from_slice(from_flagged);
    write_before(
        automaton,
        letters,
        width,
        any,
        flagged,
        next_any,
        next_flagged,
    );
}

fn table(alloc: Global, states: u32, width: usize) -> Result<Vec<u64>, Memory>
    requires { width < 2 ^ 32 }
    ensures { IfOk result (λ v. vec_len v ≡ states * width) }
{
    Ok(vec![in alloc; 0; states as usize * width]?)
}

/// The tables of the word.
pub fn planes_of(
    alloc: Global,
    automaton: &Auto,
    word: &[u32],
    width: usize,
) -> Result<Planes, Memory>
    requires room { automaton.now.states ≤ width * 64 }
    requires few { width < 2 ^ 32 }
    ensures { IfOk
        result (λ p. ArePlanes automaton.now word.now width p.any.items p.flagged.items) }
{
    let states = automaton.states();
    let mut any = table(alloc, states, width)?;
    let mut flagged = table(alloc, states, width)?;
    let mut next_any = table(alloc, states, width)?;
    let mut next_flagged = table(alloc, states, width)?;
    write_word(
        automaton,
        word,
        width,
        &mut any,
        &mut flagged,
        &mut next_any,
        &mut next_flagged,
    );
    Ok(Planes { any, flagged })
}

/// The tables of the word with the letters in front, from those of the word.
pub fn planes_before(
    alloc: Global,
    automaton: &Auto,
    letters: &[u32],
    width: usize,
    planes: &Planes,
) -> Result<Planes, Memory>
    requires few { width < 2 ^ 32 }
    requires any { IsTable planes.now.any.items automaton.now.states width }
    requires flagged { IsTable planes.now.flagged.items automaton.now.states width }
    ensures { (w : List ℕ)
        → ArePlanes automaton.now w width planes.now.any.items planes.now.flagged.items
        → IfOk result (λ p. ArePlanes automaton.now (letters.now ++ w) width p.any.items p.flagged.items) }
{
    let states = automaton.states();
    let mut any = table(alloc, states, width)?;
    let mut flagged = table(alloc, states, width)?;
    let mut next_any = table(alloc, states, width)?;
    let mut next_flagged = table(alloc, states, width)?;
    write_after(
        automaton,
        letters,
        width,
        &planes.any,
        &planes.flagged,
        &mut any,
        &mut flagged,
        &mut next_any,
        &mut next_flagged,
    );
    Ok(Planes { any, flagged })
}
