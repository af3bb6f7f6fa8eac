//! Lines of elements and of steps, read straight, token by token, where they are the text of one.
//! What is wrong with others is told elsewhere.

ghost use Rattle.std.specs.Prelude.{◌≡◌, ◌∷◌, [], ◌++◌, Ok, true, decimal, IsTrue, IfOk, IfSome};
ghost use Rattle.cert_value.specs.Tokens.{tokens_of};
ghost use Rattle.cert_value.specs.Text.{spelled, numbers, origin_line, mark_tokens};
ghost use Rattle.cert_value.specs.WellFormed.{is_short, are_short, is_mark, is_origin};
ghost use Rattle.cert_line.specs.Lines.{element_in, origin_in, step_in};

use crate::shapes::number_of;
use auto_core::{List, Memory, Mode, Origin};
use cert_value::{Element, Keyword, Mark, StepLine, Tokens};
use std::alloc::Global;

/// Tells whether the token is the word, byte by byte, since words are short.
fn is_word(token: &[u8], keyword: Keyword) -> bool
    ensures { IsTrue result → token.now ≡ spelled keyword }
{
    let word = keyword.text();
    if token.len() != word.len() {
        return false;
    }
    for at in 0..word.len() {
        if token[at] != word[at] {
            return false;
        }
    }
    true
}

/// The number that the next token is the text of.
fn next_number(tokens: &mut Tokens) -> Option<u32>
    ensures { IfSome result (λ n. (tokens.old ≡ decimal n ∷ tokens.new) × (is_short n ≡ true)) }
{
    match tokens.next() {
        Some(token) => number_of(token),
        None => None,
    }
}

/// The numbers that all tokens are the text of.
fn numbers_in_all(alloc: Global, all: Tokens) -> Result<Option<List<u32>>, Memory>
    ensures { IfOk
        result (λ told. IfSome told (λ ns. (all.entry ≡ numbers ns) × (are_short ns ≡ true))) }
{
    let mut values = List::new(alloc);
    let mut tokens = all;
    while let Some(token) = tokens.next() {
        match number_of(token) {
            Some(number) => values.push(number)?,
            None => return Ok(None),
        }
    }
    Ok(Some(values))
}

/// The origin that the word and the next tokens are the text of.
fn origin_after(mode: Mode, word: &[u8], tokens: &mut Tokens) -> Option<Origin>
    ensures { IfSome
        result (λ from.
        (word.now ∷ tokens.old ≡ origin_line from ++ tokens.new) × (is_origin mode from ≡ true)) }
{
    if is_word(word, Keyword::Next) {
        let parent = next_number(tokens)?;
        let trans = next_number(tokens)?;
        return Some(Origin::Next(parent, trans));
    }
    match mode {
        Mode::Buchi => {
            if is_word(word, Keyword::Base) {
                return Some(Origin::Base(next_number(tokens)?));
            }
        }
        Mode::Finite => {
            if is_word(word, Keyword::Start) {
                return Some(Origin::Start);
            }
        }
    }
    None
}

/// The origin that all tokens are the text of.
fn origin_in_all(mode: Mode, all: Tokens) -> Option<Origin>
    ensures { IfSome
        result (λ from. (all.entry ≡ origin_line from) × (is_origin mode from ≡ true)) }
{
    let mut tokens = all;
    let word = tokens.next()?;
    let from = origin_after(mode, word, &mut tokens)?;
    match tokens.next() {
        Some(_token) => None,
        None => Some(from),
    }
}

/// The mark that the next tokens are the text of.
fn next_mark(tokens: &mut Tokens) -> Option<Mark>
    ensures { IfSome
        result (λ mark. (tokens.old ≡ mark_tokens mark ++ tokens.new) × (is_mark mark ≡ true)) }
{
    let word = tokens.next()?;
    if is_word(word, Keyword::Live) {
        return Some(Mark::Live);
    }
    if is_word(word, Keyword::Under) {
        return Some(Mark::Under(next_number(tokens)?));
    }
    None
}

/// The element of a list that the line is the text of.
pub(crate) fn straight_origin(mode: Mode, line: &[u8]) -> Option<Origin>
    ensures { IfSome result (λ from. origin_in mode (tokens_of line.now) ≡ Ok from) }
{
    origin_in_all(mode, Tokens::of(line))
}

/// The element of a yes that the line is the text of.
pub(crate) fn straight_element(mode: Mode, line: &[u8]) -> Option<Element>
    ensures { IfSome result (λ element. element_in mode (tokens_of line.now) ≡ Ok element) }
{
    let mut tokens = Tokens::of(line);
    let mark = next_mark(&mut tokens)?;
    let origin = origin_in_all(mode, tokens)?;
    Some(Element { mark, origin })
}

/// The extensions of the live element with this number that the line is the text of.
pub(crate) fn straight_step(
    alloc: Global,
    number: usize,
    line: &[u8],
) -> Result<Option<StepLine>, Memory>
    ensures { IfOk
        result (λ told. IfSome told (λ step. step_in number (tokens_of line.now) ≡ Ok step)) }
{
    let mut tokens = Tokens::of(line);
    match tokens.next() {
        Some(word) if is_word(word, Keyword::Step) => {}
        _ => return Ok(None),
    }
    let element = match next_number(&mut tokens) {
        Some(element) if element as usize == number => element,
        _ => return Ok(None),
    };
    match numbers_in_all(alloc, tokens)? {
        Some(by) => Ok(Some(StepLine { element, by })),
        None => Ok(None),
    }
}
