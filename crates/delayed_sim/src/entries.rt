//! Triples with ranks as they are stored, in their order.

ghost use Rattle.std.specs.Prelude.{◌≡◌, ◌-◌, ◌<◌, ◌≤◌, ◌↔◌, ℕ, Option, None, length, slice_index_or, take, Contains, IsTrue, IfOk, IfErr, IfSome, IfNone};
ghost use Rattle.std.specs.declared.cmp.Ordering.TheVariants.{Less};
ghost use Rattle.delayed_sim.specs.Rankings.{triple_cmp, row_key, AreTriplesInOrder};
ghost use Rattle.delayed_sim.specs.Stored.{triple_of, entry_triples, no_entry, IsTripleAt, IsBetween, IsFirstFrom, IsPutIn};

use auto_core::Memory;
use std::cmp::Ordering;

/// A triple with its rank, if it has one. The first letters of `ahead` are the word, one fewer than
/// are announced.
#[derive(Clone, Copy, Debug)]
pub(crate) struct Entry {
    /// The left state.
    pub left: u32,
    /// The letters of the word, and what fills them up.
    pub ahead: [u32; 3],
    /// The right state.
    pub right: u32,
    /// The rank, if the triple has one.
    pub rank: Option<u32>,
}

/// The word of the entry in a game with so many announced letters.
pub(crate) fn ahead_of(entry: &Entry, letters: u32) -> &[u32]
    requires from { 1 ≤ letters }
    requires upto { letters ≤ 4 }
    ensures { result.now ≡ (triple_of letters entry.now).1 }
{
    &entry.ahead[..letters as usize - 1]
}

/// Compares the entry's triple with that of these states and this word.
fn compare(entry: &Entry, letters: u32, left: u32, ahead: &[u32], right: u32) -> Ordering
    requires from { 1 ≤ letters }
    requires upto { letters ≤ 4 }
    ensures { result ≡ triple_cmp (triple_of letters entry.now) (left, ahead.now, right, None) }
{
    match entry.left.cmp(&left) {
        Ordering::Less => Ordering::Less,
        Ordering::Greater => Ordering::Greater,
        Ordering::Equal => {
            if letters == 1 && ahead.is_empty() {
                return entry.right.cmp(&right);
            }
            match ahead_of(entry, letters).cmp(ahead) {
                Ordering::Less => Ordering::Less,
                Ordering::Greater => Ordering::Greater,
                Ordering::Equal => entry.right.cmp(&right),
            }
        }
    }
}

/// The number of the entry with these states and this word, or that which it would have.
fn search(
    entries: &[Entry],
    letters: u32,
    left: u32,
    ahead: &[u32],
    right: u32,
) -> Result<usize, usize>
    requires from { 1 ≤ letters }
    requires upto { letters ≤ 4 }
    requires in_order { AreTriplesInOrder (entry_triples letters entries.now) }
    ensures found { IfOk result (IsTripleAt letters entries.now left ahead.now right) }
    ensures gap { IfErr
        result (λ i. IsBetween letters entries.now (left, ahead.now, right, None) i i) }
{
    let mut low = 0;
    let mut high = entries.len();
    'halves: while low < high {
        let middle = low + (high - low) / 2;
        match compare(&entries[middle], letters, left, ahead, right) {
            Ordering::Equal => return Ok(middle),
            Ordering::Less => low = middle + 1,
            Ordering::Greater => high = middle,
        }
    }
    Err(low)
}

/// Tells whether the entry's triple stands before that of these states and this word.
fn is_before(entry: &Entry, letters: u32, left: u32, ahead: &[u32], right: u32) -> bool
    requires from { 1 ≤ letters }
    requires upto { letters ≤ 4 }
    ensures { IsTrue result
        ↔ triple_cmp (triple_of letters entry.now) (left, ahead.now, right, None) ≡ Less }
{
    match compare(entry, letters, left, ahead, right) {
        Ordering::Less => true,
        Ordering::Equal => false,
        Ordering::Greater => false,
    }
}

/// The number of the first entry that does not stand before this triple.
pub(crate) fn first_from(
    entries: &[Entry],
    letters: u32,
    left: u32,
    ahead: &[u32],
    right: u32,
) -> usize
    requires from { 1 ≤ letters }
    requires upto { letters ≤ 4 }
    requires in_order { AreTriplesInOrder (entry_triples letters entries.now) }
    ensures { IsFirstFrom letters entries.now (left, ahead.now, right, None) result }
{
    let mut low = 0;
    let mut high = entries.len();
    'halves: while low < high {
        let middle = low + (high - low) / 2;
        if is_before(&entries[middle], letters, left, ahead, right) {
            low = middle + 1;
        } else {
            high = middle;
        }
    }
    low
}

/// Is true only where there is an entry with this number and it has these states and this word.
fn is_at(entries: &[Entry], letters: u32, at: usize, left: u32, ahead: &[u32], right: u32) -> bool
    requires from { 1 ≤ letters }
    requires upto { letters ≤ 4 }
    ensures { IsTrue result → IsTripleAt letters entries.now left ahead.now right at }
{
    if entries.len() <= at {
        return false;
    }
    match compare(&entries[at], letters, left, ahead, right) {
        Ordering::Less => false,
        Ordering::Equal => true,
        Ordering::Greater => false,
    }
}

/// The number that the entry has where words are empty and each pair of states has its entry; in
/// general, one to be tried first.
fn number_among_all(entries: &[Entry], left: u32, right: u32) -> usize {
    if entries.is_empty() {
        return 0;
    }
    let columns = entries[entries.len() - 1].right as usize + 1;
    left as usize * columns + right as usize
}

/// The number of the entry with these states and this word.
pub(crate) fn find(
    entries: &[Entry],
    letters: u32,
    left: u32,
    ahead: &[u32],
    right: u32,
) -> Option<usize>
    requires from { 1 ≤ letters }
    requires upto { letters ≤ 4 }
    requires in_order { AreTriplesInOrder (entry_triples letters entries.now) }
    ensures found { IfSome result (IsTripleAt letters entries.now left ahead.now right) }
    ensures none { IfNone result
        ((rank : Option ℕ)
        → Contains (entry_triples letters entries.now) (left, ahead.now, right, rank) → ⊥) }
{
    let first = number_among_all(entries, left, right);
    if is_at(entries, letters, first, left, ahead, right) {
        return Some(first);
    }
    match search(entries, letters, left, ahead, right) {
        Ok(at) => Some(at),
        Err(_at) => None,
    }
}

/// Is true only where each of the entries stands before this one.
fn is_behind_all(entries: &[Entry], letters: u32, entry: &Entry) -> bool
    requires from { 1 ≤ letters }
    requires upto { letters ≤ 4 }
    requires in_order { AreTriplesInOrder (entry_triples letters entries.now) }
    ensures { IsTrue result
        → IsBetween letters entries.now (triple_of letters entry.now) (length entries.now)
        (length entries.now) }
{
    if entries.is_empty() {
        return true;
    }
    is_before(
        &entries[entries.len() - 1],
        letters,
        entry.left,
        ahead_of(entry, letters),
        entry.right,
    )
}

/// Puts the entry where it belongs; none has its states and its word yet.
pub(crate) fn put_in(entries: &mut Vec<Entry>, letters: u32, entry: Entry) -> Result<(), Memory>
    requires from { 1 ≤ letters }
    requires upto { letters ≤ 4 }
    requires in_order { AreTriplesInOrder (entry_triples letters entries.old.items) }
    requires lacks { (rank : Option ℕ)
        → Contains (entry_triples letters entries.old.items)
        (entry.left, (triple_of letters entry).1, entry.right, rank) → ⊥ }
    ensures { IfOk result (λ _. IsPutIn letters entries.old.items entries.new.items entry) }
{
    if is_behind_all(entries, letters, &entry) {
        entries.push(entry)?;
        return Ok(());
    }
    match search(
        entries,
        letters,
        entry.left,
        ahead_of(&entry, letters),
        entry.right,
    ) {
        Ok(_at) => Ok(()),
        Err(at) => {
            entries.insert(at, entry)?;
            Ok(())
        }
    }
}

/// Three letters that begin with the word.
pub(crate) fn padded(ahead: &[u32]) -> [u32; 3]
    requires { length ahead.now ≤ 3 }
    ensures { take (length ahead.now) result ≡ ahead.now }
{
    let mut letters = [0; 3];
    for at in 0..ahead.len() {
        letters[at] = ahead[at];
    }
    letters
}

/// Tells whether the two entries have the same left state and the same word.
fn is_of_row(entry: &Entry, other: &Entry, letters: u32) -> bool
    requires from { 1 ≤ letters }
    requires upto { letters ≤ 4 }
    ensures { IsTrue result
        ↔ (row_key (triple_of letters entry.now) ≡ row_key (triple_of letters other.now)) }
{
    entry.left == other.left && ahead_of(entry, letters) == ahead_of(other, letters)
}

/// The number past the last entry of the row of the entry with this number.
pub(crate) fn row_end(entries: &[Entry], letters: u32, at: usize) -> usize
    requires from { 1 ≤ letters }
    requires upto { letters ≤ 4 }
    requires inside { at < length entries.now }
    ensures onward { at < result }
    ensures within { result ≤ length entries.now }
    ensures same { (i : ℕ) → at ≤ i → i < result
        → row_key (triple_of letters (slice_index_or entries.now i no_entry))
        ≡ row_key (triple_of letters (slice_index_or entries.now at no_entry)) }
    ensures other { result < length entries.now
        → ¬ (row_key (triple_of letters (slice_index_or entries.now result no_entry))
        ≡ row_key (triple_of letters (slice_index_or entries.now at no_entry))) }
{
    for end in at + 1..entries.len() {
        if !is_of_row(&entries[end], &entries[at], letters) {
            return end;
        }
    }
    entries.len()
}
