//! The evidence of a yes, a no and a list, read line by line.

ghost use Rattle.std.specs.Prelude.{◌≡◌, ◌+◌, ◌∷◌, [], ◌++◌, drop};
ghost use Rattle.cert_value.specs.Tokens.{tokens_of};
ghost use Rattle.cert_line.specs.Lines.{step_in};
ghost use Rattle.cert_text.specs.declared.evidence.YesState.TheVariants as yes_state;
ghost use Rattle.cert_line.specs.Agrees.{Agrees};
ghost use Rattle.cert_text.specs.Machine.{elements_left, live_from, step_or_whole, steps_left, with_order, step_yes, origins_left, step_list, step_no, step_block, map_said};

use crate::blocks::{BlockState, step_block};
use crate::parts::{Closed, ListPart, PartSoFar, pushed};
use auto_core::{Lasso, List, Mode, Origin};
use cert_line::{LineFault, Tail, element_in, number_in, numbers_in, origin_in, step_in};
use cert_value::{Body, Element, Keyword, RelBlock, StepLine, is_live};
use std::alloc::Global;

/// What is due of a yes after its logs.
#[derive(Drop)]
pub(crate) enum YesState {
    /// The order.
    Order(BlockState),
    /// The number of the elements.
    Elements(RelBlock),
    /// An element.
    Element {
        /// The order.
        order: RelBlock,
        /// The elements so far.
        elements: List<Element>,
        /// How many elements follow the one that is due.
        later: u32,
    },
    /// The cover.
    Cover {
        /// The order.
        order: RelBlock,
        /// The elements.
        elements: List<Element>,
    },
    /// The line of a live element.
    Step {
        /// The order.
        order: RelBlock,
        /// The elements.
        elements: List<Element>,
        /// The cover.
        cover: List<u32>,
        /// The lines so far.
        steps: List<StepLine>,
        /// The number of the live element.
        at: usize,
    },
}

/// What is due of a list after its logs.
#[derive(Drop)]
pub(crate) enum ListState {
    /// The limit.
    Limit,
    /// The number of the elements, after this limit.
    Count(u32),
    /// An element.
    Origin {
        /// The limit.
        limit: u32,
        /// The elements so far.
        elements: List<Origin>,
        /// How many elements follow the one that is due.
        later: u32,
    },
}

/// What is due of a no.
#[derive(Drop)]
pub(crate) enum NoState {
    /// The prefix of a lasso.
    Prefix,
    /// The loop, after this prefix.
    Turn(List<u32>),
    /// A word.
    Word,
}

/// What is due with these elements, and this many to come.
#[tactic(auto, unfolding(crate::specs::Machine::elements_left))]
fn elements_left(order: RelBlock, elements: List<Element>, left: u32) -> PartSoFar<YesState, Closed>
    ensures { result ≡ elements_left order elements left }
{
    if left == 0 {
        PartSoFar::More(YesState::Cover { order, elements })
    } else {
        PartSoFar::More(YesState::Element {
            order,
            elements,
            later: left - 1,
        })
    }
}

/// The first live element from this number on.
fn live_from(elements: &[Element], from: usize) -> Option<usize>
    ensures { result ≡ live_from from (drop from elements.now) }
{
    let mut at = from;
    while at < elements.len() {
        if is_live(elements[at].mark) {
            return Some(at);
        }
        at += 1;
    }
    None
}

/// What is due with these lines of live elements, all that are numbered from here on being to come.
#[tactic(auto, unfolding(crate::specs::Machine::steps_left, crate::specs::Machine::step_or_whole))]
fn steps_left(
    order: RelBlock,
    elements: List<Element>,
    cover: List<u32>,
    steps: List<StepLine>,
    from: usize,
) -> PartSoFar<YesState, Closed>
    ensures { result ≡ steps_left order elements cover steps from }
{
    match live_from(elements.as_slice(), from) {
        None => PartSoFar::Whole(Closed {
            order,
            elements,
            cover,
            steps,
        }),
        Some(at) => PartSoFar::More(YesState::Step {
            order,
            elements,
            cover,
            steps,
            at,
        }),
    }
}

/// The next line of the order.
#[tactic(auto, unfolding(crate::specs::Machine::with_order))]
fn next_in_order(
    alloc: Global,
    version: u32,
    at: BlockState,
    line: &[u8],
) -> Result<PartSoFar<YesState, Closed>, LineFault>
    ensures { Agrees (map_said with_order (step_block version at (tokens_of line.now))) result }
{
    match step_block(alloc, version, at, line) {
        Ok(PartSoFar::More(at)) => Ok(PartSoFar::More(YesState::Order(at))),
        Ok(PartSoFar::Whole(order)) => Ok(PartSoFar::More(YesState::Elements(order))),
        Err(fault) => Err(fault),
    }
}

/// The line of an element.
#[tactic(auto, unfolding(crate::specs::Machine::step_yes))]
fn next_element(
    version: u32,
    mode: Mode,
    order: RelBlock,
    elements: List<Element>,
    later: u32,
    line: &[u8],
) -> Result<PartSoFar<YesState, Closed>, LineFault>
    ensures { Agrees
        (step_yes version mode (yes_state.Element order elements later) (tokens_of line.now))
        result }
{
    match element_in(mode, line) {
        Ok(element) => match pushed(elements, element) {
            Ok(elements) => Ok(elements_left(order, elements, later)),
            Err(fault) => Err(fault),
        },
        Err(fault) => Err(fault),
    }
}

/// The line of a live element.
fn next_step(
    alloc: Global,
    order: RelBlock,
    elements: List<Element>,
    cover: List<u32>,
    steps: List<StepLine>,
    at: usize,
    line: &[u8],
) -> Result<PartSoFar<YesState, Closed>, LineFault>
    ensures { Agrees
        (map_said (λ step. steps_left order elements cover (steps ++ step ∷ []) (at + 1)) (step_in at (tokens_of line.now)))
        result }
{
    match step_in(alloc, at, line) {
        Ok(step) => match pushed(steps, step) {
            Ok(steps) => Ok(steps_left(order, elements, cover, steps, at + 1)),
            Err(fault) => Err(fault),
        },
        Err(fault) => Err(fault),
    }
}

/// What the next line makes of a yes.
#[tactic(auto, unfolding(crate::specs::Machine::step_yes))]
pub(crate) fn step_yes(
    alloc: Global,
    version: u32,
    mode: Mode,
    state: YesState,
    line: &[u8],
) -> Result<PartSoFar<YesState, Closed>, LineFault>
    ensures { Agrees (step_yes version mode state (tokens_of line.now)) result }
{
    match state {
        YesState::Order(at) => next_in_order(alloc, version, at, line),
        YesState::Elements(order) => match number_in(Keyword::Elements, line) {
            Ok(count) => Ok(elements_left(order, List::new(alloc), count)),
            Err(fault) => Err(fault),
        },
        YesState::Element {
            order,
            elements,
            later,
        } => next_element(version, mode, order, elements, later, line),
        YesState::Cover { order, elements } => match numbers_in(
            alloc,
            Keyword::Cover,
            Tail::Numbers,
            line,
        ) {
            Ok(cover) => Ok(steps_left(order, elements, cover, List::new(alloc), 0)),
            Err(fault) => Err(fault),
        },
        YesState::Step {
            order,
            elements,
            cover,
            steps,
            at,
        } => next_step(alloc, order, elements, cover, steps, at, line),
    }
}

/// What is due with these elements of a list, and this many to come.
#[tactic(auto, unfolding(crate::specs::Machine::origins_left))]
fn origins_left(limit: u32, elements: List<Origin>, left: u32) -> PartSoFar<ListState, ListPart>
    ensures { result ≡ origins_left limit elements left }
{
    if left == 0 {
        PartSoFar::Whole(ListPart { limit, elements })
    } else {
        PartSoFar::More(ListState::Origin {
            limit,
            elements,
            later: left - 1,
        })
    }
}

/// What the next line makes of a list.
#[tactic(auto, unfolding(crate::specs::Machine::step_list))]
pub(crate) fn step_list(
    alloc: Global,
    mode: Mode,
    state: ListState,
    line: &[u8],
) -> Result<PartSoFar<ListState, ListPart>, LineFault>
    ensures { Agrees (step_list mode state (tokens_of line.now)) result }
{
    match state {
        ListState::Limit => match number_in(Keyword::Limit, line) {
            Ok(limit) => Ok(PartSoFar::More(ListState::Count(limit))),
            Err(fault) => Err(fault),
        },
        ListState::Count(limit) => match number_in(Keyword::Elements, line) {
            Ok(count) => Ok(origins_left(limit, List::new(alloc), count)),
            Err(fault) => Err(fault),
        },
        ListState::Origin {
            limit,
            elements,
            later,
        } => match origin_in(mode, line) {
            Ok(origin) => match pushed(elements, origin) {
                Ok(elements) => Ok(origins_left(limit, elements, later)),
                Err(fault) => Err(fault),
            },
            Err(fault) => Err(fault),
        },
    }
}

/// What the next line makes of a no.
#[tactic(auto, unfolding(crate::specs::Machine::step_no))]
pub(crate) fn step_no(
    alloc: Global,
    state: NoState,
    line: &[u8],
) -> Result<PartSoFar<NoState, Body>, LineFault>
    ensures { Agrees (step_no state (tokens_of line.now)) result }
{
    match state {
        NoState::Prefix => match numbers_in(alloc, Keyword::Prefix, Tail::Numbers, line) {
            Ok(prefix) => Ok(PartSoFar::More(NoState::Turn(prefix))),
            Err(fault) => Err(fault),
        },
        NoState::Turn(prefix) => match numbers_in(alloc, Keyword::Loop, Tail::SomeNumbers, line) {
            Ok(turn) => Ok(PartSoFar::Whole(Body::NoLasso(Lasso { prefix, turn }))),
            Err(fault) => Err(fault),
        },
        NoState::Word => match numbers_in(alloc, Keyword::Word, Tail::Numbers, line) {
            Ok(word) => Ok(PartSoFar::Whole(Body::NoWord(word))),
            Err(fault) => Err(fault),
        },
    }
}
