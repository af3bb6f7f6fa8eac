//! What one line of a certificate's text says.

ghost use Rattle.std.specs.Prelude.{◌≡◌, ◌+◌, ◌<◌, take, ◌++◌, ◌∷◌, [], length, map, drop, Bool, true, false, IsTrue, nat_lt, slice_index_or, Option, Some, None, bytes_eq, IfOk, nat_le, not};
ghost use Rattle.cert_value.specs.WellFormed.{has_some};
ghost use Rattle.std.specs.List.{list_all};
ghost use Rattle.cert_value.specs.Tokens.{tokens_of};
ghost use Rattle.auto_core.specs.Digits.{is_digit};
ghost use Rattle.cert_line.specs.Shapes.{is_number, value, has_empty, has_word, has_number, fits, has_numbers, line_fault, value_at, values_from, number_of, may_follow, pair_up};

use crate::faults::TextKind;
use auto_core::{List, Memory};
use cert_value::{Keyword, Tokens};
use std::alloc::Global;

/// What is due at a place of a line.
#[derive(Clone, Copy, Debug, PartialEq, Eq)]
pub enum Place {
    /// This word.
    Word(Keyword),
    /// A number.
    Number,
}

/// What is due behind the places of a line.
#[derive(Clone, Copy, Debug, PartialEq, Eq)]
pub enum Tail {
    /// Nothing.
    Nothing,
    /// Any number of numbers.
    Numbers,
    /// At least one number.
    SomeNumbers,
    /// So many numbers, and then at least one pair of numbers.
    Pairs(usize),
}

/// The number that the token writes, if it writes one: `0`, or a digit other than 0 followed by at
/// most eight digits.
pub(crate) fn number_of(token: &[u8]) -> Option<u32>
    ensures { result ≡ number_of token.now }
{
    if token.is_empty() || token.len() >= 10 {
        return None;
    }
    if token.len() >= 2 && token[0] == b'0' {
        return None;
    }
    let mut value = 0u32;
    for byte in token {
        if *byte < b'0' || *byte > b'9' {
            return None;
        }
        value = value * 10 + (*byte - b'0') as u32;
    }
    Some(value)
}

/// Whether the token writes a number.
fn is_number(token: &[u8]) -> bool
    ensures { result ≡ is_number token.now }
{
    number_of(token).is_some()
}

/// What the token writes, and 0 where it writes no number.
pub(crate) fn value(token: &[u8]) -> u32
    ensures { result ≡ value token.now }
{
    number_of(token).unwrap_or(0)
}

/// Whether a token of the line is empty.
fn has_empty(line: &[u8]) -> bool
    ensures { result ≡ has_empty (tokens_of line.now) }
{
    let mut tokens = Tokens::of(line);
    while let Some(token) = tokens.next() {
        if token.is_empty() {
            return true;
        }
    }
    false
}

/// Whether what stands at the place is not another word than the one that is due.
fn has_word(place: Place, token: &[u8]) -> bool
    ensures { result ≡ has_word place token.now }
{
    match place {
        Place::Word(keyword) => token == keyword.text(),
        Place::Number => true,
    }
}

/// Whether what stands at the place is a number, where one is due.
fn has_number(place: Place, token: &[u8]) -> bool
    ensures { result ≡ has_number place token.now }
{
    match place {
        Place::Word(_) => true,
        Place::Number => is_number(token),
    }
}

/// Whether no place that the line has holds another word than the one that is due.
pub(crate) fn fits(places: &[Place], line: &[u8]) -> bool
    ensures { result ≡ fits places.now (tokens_of line.now) }
{
    let mut tokens = Tokens::of(line);
    for place in places {
        let Some(token) = tokens.next() else {
            return true;
        };
        if !has_word(*place, token) {
            return false;
        }
    }
    true
}

/// Whether all tokens that are left are numbers.
fn are_numbers(all: Tokens) -> bool
    ensures { result ≡ list_all is_number all.entry }
{
    let mut tokens = all;
    while let Some(token) = tokens.next() {
        if !is_number(token) {
            return false;
        }
    }
    true
}

/// Whether every token in a number's place is a number.
fn has_numbers(places: &[Place], tail: Tail, line: &[u8]) -> bool
    ensures { result ≡ has_numbers places.now tail (tokens_of line.now) }
{
    let mut tokens = Tokens::of(line);
    for place in places {
        let Some(token) = tokens.next() else {
            return true;
        };
        if !has_number(*place, token) {
            return false;
        }
    }
    tail == Tail::Nothing || are_numbers(tokens)
}

/// Whether the tokens that are left are an even number.
fn pair_up(all: Tokens) -> bool
    ensures { result ≡ pair_up all.entry }
{
    let mut tokens = all;
    while let Some(_first) = tokens.next() {
        if tokens.next().is_none() {
            return false;
        }
    }
    true
}

/// Whether no token is left.
fn is_over(all: Tokens) -> bool
    ensures { result ≡ not (has_some all.entry) }
{
    let mut tokens = all;
    tokens.next().is_none()
}

/// The tokens behind the places and so many more.
fn behind_both(line: &[u8], places: usize, count: usize) -> Tokens<'_>
    ensures { result ≡ drop count (drop places (tokens_of line.now)) }
{
    let mut tokens = Tokens::behind(line, places);
    for _token in 0..count {
        tokens.next();
    }
    tokens
}

/// Whether these tokens may follow the places.
fn may_follow(tail: Tail, line: &[u8], places: usize) -> bool
    ensures { result ≡ may_follow tail (drop places (tokens_of line.now)) }
{
    match tail {
        Tail::Nothing => is_over(Tokens::behind(line, places)),
        Tail::Numbers => true,
        Tail::SomeNumbers => !is_over(Tokens::behind(line, places)),
        Tail::Pairs(count) => !is_over(behind_both(line, places, count))
            && pair_up(behind_both(line, places, count)),
    }
}

/// Whether every place has a token.
fn has_places(count: usize, line: &[u8]) -> bool
    ensures { result ≡ nat_le count (length (tokens_of line.now)) }
{
    let mut tokens = Tokens::of(line);
    for _place in 0..count {
        if tokens.next().is_none() {
            return false;
        }
    }
    true
}

/// What is wrong with the line, if these places and this tail are due.
pub fn line_fault(places: &[Place], tail: Tail, line: &[u8]) -> Option<TextKind>
    ensures { result ≡ line_fault places.now tail (tokens_of line.now) }
{
    if has_empty(line) || !fits(places, line) {
        return Some(TextKind::Shape);
    }
    if !has_numbers(places, tail, line) {
        return Some(TextKind::Number);
    }
    if !has_places(places.len(), line) || !may_follow(tail, line, places.len()) {
        return Some(TextKind::Shape);
    }
    None
}

/// What the token with this number writes.
pub(crate) fn value_at(line: &[u8], number: usize) -> u32
    ensures { result ≡ value_at (tokens_of line.now) number }
{
    match Tokens::behind(line, number).next() {
        Some(token) => value(token),
        None => 0,
    }
}

/// What the tokens from this number on write, of so many of them at most.
pub(crate) fn values_in(
    alloc: Global,
    line: &[u8],
    number: usize,
    count: usize,
) -> Result<List<u32>, Memory>
    ensures { IfOk
        result (λ values. values ≡ take count (values_from number (tokens_of line.now))) }
{
    let mut values = List::new(alloc);
    let mut tokens = Tokens::behind(line, number);
    for _value in 0..count {
        let Some(token) = tokens.next() else {
            return Ok(values);
        };
        values.push(value(token))?;
    }
    Ok(values)
}

/// What the tokens from this number on write.
pub(crate) fn values_from(alloc: Global, line: &[u8], number: usize) -> Result<List<u32>, Memory>
    ensures { IfOk result (λ values. values ≡ values_from number (tokens_of line.now)) }
{
    let mut values = List::new(alloc);
    let mut tokens = Tokens::behind(line, number);
    while let Some(token) = tokens.next() {
        values.push(value(token))?;
    }
    Ok(values)
}
