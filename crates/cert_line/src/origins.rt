//! The lines of elements.

ghost use Rattle.std.specs.Prelude.{◌≡◌, ◌∷◌, []};
ghost use Rattle.cert_value.specs.Tokens.{tokens_of};
ghost use Rattle.cert_line.specs.Lines.{next_origin_in, origin_in, next_element_in, element_in, base_element_in, start_element_in};
ghost use Rattle.cert_line.specs.Agrees.{Agrees};

use crate::faults::LineFault;
use crate::shapes::{Place, Tail, fits, line_fault, value_at};
use crate::straight::{straight_element, straight_origin};
use auto_core::{Mode, Origin};
use cert_value::{Element, Keyword, Mark};

/// An element of a list that comes from another.
fn next_origin_in(line: &[u8]) -> Result<Origin, LineFault>
    ensures { Agrees (next_origin_in (tokens_of line.now)) result }
{
    let places = [Place::Word(Keyword::Next), Place::Number, Place::Number];
    match line_fault(&places, Tail::Nothing, line) {
        Some(fault) => Err(LineFault::Text(fault)),
        None => Ok(Origin::Next(value_at(line, 1), value_at(line, 2))),
    }
}

/// An element of a list.
pub fn origin_in(mode: Mode, line: &[u8]) -> Result<Origin, LineFault>
    ensures { Agrees (origin_in mode (tokens_of line.now)) result }
{
    if let Some(origin) = straight_origin(mode, line) {
        return Ok(origin);
    }
    let base = [Place::Word(Keyword::Base), Place::Number];
    if mode == Mode::Buchi && fits(&base, line) {
        return match line_fault(&base, Tail::Nothing, line) {
            Some(fault) => Err(LineFault::Text(fault)),
            None => Ok(Origin::Base(value_at(line, 1))),
        };
    }
    let start = [Place::Word(Keyword::Start)];
    if mode == Mode::Finite && fits(&start, line) {
        return match line_fault(&start, Tail::Nothing, line) {
            Some(fault) => Err(LineFault::Text(fault)),
            None => Ok(Origin::Start),
        };
    }
    next_origin_in(line)
}

/// An element of a yes that comes from another.
fn next_element_in(line: &[u8]) -> Result<Element, LineFault>
    ensures { Agrees (next_element_in (tokens_of line.now)) result }
{
    let live = [
        Place::Word(Keyword::Live),
        Place::Word(Keyword::Next),
        Place::Number,
        Place::Number,
    ];
    if fits(&live, line) {
        return match line_fault(&live, Tail::Nothing, line) {
            Some(fault) => Err(LineFault::Text(fault)),
            None => Ok(Element {
                mark: Mark::Live,
                origin: Origin::Next(value_at(line, 2), value_at(line, 3)),
            }),
        };
    }
    let under = [
        Place::Word(Keyword::Under),
        Place::Number,
        Place::Word(Keyword::Next),
        Place::Number,
        Place::Number,
    ];
    match line_fault(&under, Tail::Nothing, line) {
        Some(fault) => Err(LineFault::Text(fault)),
        None => Ok(Element {
            mark: Mark::Under(value_at(line, 1)),
            origin: Origin::Next(value_at(line, 3), value_at(line, 4)),
        }),
    }
}

/// An element of a Büchi yes.
fn base_element_in(line: &[u8]) -> Result<Element, LineFault>
    ensures { Agrees (base_element_in (tokens_of line.now)) result }
{
    let live = [
        Place::Word(Keyword::Live),
        Place::Word(Keyword::Base),
        Place::Number,
    ];
    if fits(&live, line) {
        return match line_fault(&live, Tail::Nothing, line) {
            Some(fault) => Err(LineFault::Text(fault)),
            None => Ok(Element {
                mark: Mark::Live,
                origin: Origin::Base(value_at(line, 2)),
            }),
        };
    }
    let under = [
        Place::Word(Keyword::Under),
        Place::Number,
        Place::Word(Keyword::Base),
        Place::Number,
    ];
    if fits(&under, line) {
        return match line_fault(&under, Tail::Nothing, line) {
            Some(fault) => Err(LineFault::Text(fault)),
            None => Ok(Element {
                mark: Mark::Under(value_at(line, 1)),
                origin: Origin::Base(value_at(line, 3)),
            }),
        };
    }
    next_element_in(line)
}

/// An element of a finite yes.
fn start_element_in(line: &[u8]) -> Result<Element, LineFault>
    ensures { Agrees (start_element_in (tokens_of line.now)) result }
{
    let live = [Place::Word(Keyword::Live), Place::Word(Keyword::Start)];
    if fits(&live, line) {
        return match line_fault(&live, Tail::Nothing, line) {
            Some(fault) => Err(LineFault::Text(fault)),
            None => Ok(Element {
                mark: Mark::Live,
                origin: Origin::Start,
            }),
        };
    }
    let under = [
        Place::Word(Keyword::Under),
        Place::Number,
        Place::Word(Keyword::Start),
    ];
    if fits(&under, line) {
        return match line_fault(&under, Tail::Nothing, line) {
            Some(fault) => Err(LineFault::Text(fault)),
            None => Ok(Element {
                mark: Mark::Under(value_at(line, 1)),
                origin: Origin::Start,
            }),
        };
    }
    next_element_in(line)
}

/// An element of a yes.
pub fn element_in(mode: Mode, line: &[u8]) -> Result<Element, LineFault>
    ensures { Agrees (element_in mode (tokens_of line.now)) result }
{
    if let Some(element) = straight_element(mode, line) {
        return Ok(element);
    }
    match mode {
        Mode::Buchi => base_element_in(line),
        Mode::Finite => start_element_in(line),
    }
}
