//! The reader's states, and what each line makes of them.

ghost use Rattle.std.specs.Prelude.{◌≡◌, ◌+◌, ◌∷◌, [], ◌++◌, drop};
ghost use Rattle.cert_value.specs.Tokens.{tokens_of};
ghost use Rattle.cert_line.specs.Agrees.{Agrees};
ghost use Rattle.cert_text.specs.Machine.{whole, begun, with_no, with_first_log, evidence_due, with_second_log, with_yes, with_list, step, step_no, step_first_log, step_second_log, step_yes, step_list, map_said};

use crate::blocks::BlockState;
use crate::evidence::{ListState, NoState, YesState, step_list, step_no, step_yes};
use crate::first_log::{FirstLog, step_first_log};
use crate::parts::PartSoFar;
use crate::second_log::{SecondLog, step_second_log};
use auto_core::{List, Mode};
use cert_line::{Heading, LineFault, Sizes, TextKind, heading_in, sizes_in, word_in};
use cert_value::{Body, Cert, FirstStep, Form, Keyword, ListBody, SecondStep, YesBody};
use std::alloc::Global;

/// What the first two lines say.
#[derive(Clone, Copy)]
pub(crate) struct Opening {
    /// The version.
    pub(crate) version: u32,
    /// What the automata were asked.
    pub(crate) mode: Mode,
    /// Which form the certificate has.
    pub(crate) form: Form,
    /// The sizes.
    pub(crate) sizes: Sizes,
}

/// What is due, with what was read.
#[derive(Drop)]
pub(crate) enum State {
    /// The first line.
    Heading,
    /// The line of sizes.
    Sizes(Heading),
    /// The evidence of a no.
    No(Opening, NoState),
    /// The first log.
    First(Opening, FirstLog),
    /// The second log.
    Second(Opening, List<FirstStep>, SecondLog),
    /// The evidence of a yes.
    Yes(Opening, List<FirstStep>, List<SecondStep>, YesState),
    /// The evidence of a list.
    List(Opening, List<FirstStep>, List<SecondStep>, ListState),
    /// The last line.
    End(Cert),
    /// Nothing.
    Done(Cert),
}

/// The last line is due.
#[tactic(auto, unfolding(crate::specs::Machine::whole))]
fn whole(opening: Opening, body: Body) -> State
    ensures { result ≡ whole opening body }
{
    State::End(Cert {
        version: opening.version,
        mode: opening.mode,
        first_states: opening.sizes.first_states,
        second_states: opening.sizes.second_states,
        labels: opening.sizes.labels,
        body,
    })
}

/// What is due after the line of sizes.
#[tactic(auto, unfolding(crate::specs::Machine::begun))]
fn begun(heading: Heading, sizes: Sizes) -> State
    ensures { result ≡ begun heading sizes }
{
    let opening = Opening {
        version: heading.version,
        mode: heading.mode,
        form: heading.form,
        sizes,
    };
    match heading.form {
        Form::Yes => State::First(opening, FirstLog::Count),
        Form::No => match heading.mode {
            Mode::Buchi => State::No(opening, NoState::Prefix),
            Mode::Finite => State::No(opening, NoState::Word),
        },
        Form::List => State::First(opening, FirstLog::Count),
    }
}

/// The next line of a no.
#[tactic(auto, unfolding(crate::specs::Machine::with_no))]
fn next_no(alloc: Global, opening: Opening, at: NoState, line: &[u8]) -> Result<State, LineFault>
    ensures { Agrees (map_said (with_no opening) (step_no at (tokens_of line.now))) result }
{
    match step_no(alloc, at, line) {
        Ok(PartSoFar::More(at)) => Ok(State::No(opening, at)),
        Ok(PartSoFar::Whole(body)) => Ok(whole(opening, body)),
        Err(fault) => Err(fault),
    }
}

/// The next line of the first log.
#[tactic(auto, unfolding(crate::specs::Machine::with_first_log))]
fn next_first(
    alloc: Global,
    opening: Opening,
    at: FirstLog,
    line: &[u8],
) -> Result<State, LineFault>
    ensures { Agrees
        (map_said (with_first_log opening) (step_first_log opening.version at (tokens_of line.now)))
        result }
{
    match step_first_log(alloc, opening.version, at, line) {
        Ok(PartSoFar::More(at)) => Ok(State::First(opening, at)),
        Ok(PartSoFar::Whole(first)) => Ok(State::Second(opening, first, SecondLog::Count)),
        Err(fault) => Err(fault),
    }
}

/// What is due after the logs.
#[tactic(auto, unfolding(crate::specs::Machine::evidence_due))]
fn evidence_due(opening: Opening, first: List<FirstStep>, second: List<SecondStep>) -> State
    ensures { result ≡ evidence_due opening first second }
{
    match opening.form {
        Form::Yes | Form::No => State::Yes(
            opening,
            first,
            second,
            YesState::Order(BlockState::Count),
        ),
        Form::List => State::List(opening, first, second, ListState::Limit),
    }
}

/// The next line of the second log.
#[tactic(auto, unfolding(crate::specs::Machine::with_second_log))]
fn next_second(
    alloc: Global,
    opening: Opening,
    first: List<FirstStep>,
    at: SecondLog,
    line: &[u8],
) -> Result<State, LineFault>
    ensures { Agrees
        (map_said (with_second_log opening first)
        (step_second_log opening.version opening.mode at (tokens_of line.now))) result }
{
    match step_second_log(alloc, opening.version, opening.mode, at, line) {
        Ok(PartSoFar::More(at)) => Ok(State::Second(opening, first, at)),
        Ok(PartSoFar::Whole(second)) => Ok(evidence_due(opening, first, second)),
        Err(fault) => Err(fault),
    }
}

/// The next line of a yes.
#[tactic(auto, unfolding(crate::specs::Machine::with_yes))]
fn next_yes(
    alloc: Global,
    opening: Opening,
    first: List<FirstStep>,
    second: List<SecondStep>,
    at: YesState,
    line: &[u8],
) -> Result<State, LineFault>
    ensures { Agrees
        (map_said (with_yes opening first second)
        (step_yes opening.version opening.mode at (tokens_of line.now))) result }
{
    match step_yes(alloc, opening.version, opening.mode, at, line) {
        Ok(PartSoFar::More(at)) => Ok(State::Yes(opening, first, second, at)),
        Ok(PartSoFar::Whole(closed)) => Ok(whole(
            opening,
            Body::Yes(YesBody {
                first,
                second,
                order: closed.order,
                elements: closed.elements,
                cover: closed.cover,
                steps: closed.steps,
            }),
        )),
        Err(fault) => {
            drop(first);
            drop(second);
            Err(fault)
        }
    }
}

/// The next line of a list.
#[tactic(auto, unfolding(crate::specs::Machine::with_list))]
fn next_list(
    alloc: Global,
    opening: Opening,
    first: List<FirstStep>,
    second: List<SecondStep>,
    at: ListState,
    line: &[u8],
) -> Result<State, LineFault>
    ensures { Agrees
        (map_said (with_list opening first second) (step_list opening.mode at (tokens_of line.now)))
        result }
{
    match step_list(alloc, opening.mode, at, line) {
        Ok(PartSoFar::More(at)) => Ok(State::List(opening, first, second, at)),
        Ok(PartSoFar::Whole(list_part)) => Ok(whole(
            opening,
            Body::Listing(ListBody {
                first,
                second,
                limit: list_part.limit,
                elements: list_part.elements,
            }),
        )),
        Err(fault) => {
            drop(first);
            drop(second);
            Err(fault)
        }
    }
}

/// What the next whole line makes of the state.
#[tactic(auto, unfolding(crate::specs::Machine::step))]
pub(crate) fn next_state(alloc: Global, state: State, line: &[u8]) -> Result<State, LineFault>
    ensures { Agrees (step state (tokens_of line.now)) result }
{
    match state {
        State::Heading => match heading_in(line) {
            Ok(heading) => Ok(State::Sizes(heading)),
            Err(fault) => Err(fault),
        },
        State::Sizes(heading) => match sizes_in(line) {
            Ok(sizes) => Ok(begun(heading, sizes)),
            Err(fault) => Err(fault),
        },
        State::No(opening, at) => next_no(alloc, opening, at, line),
        State::First(opening, at) => next_first(alloc, opening, at, line),
        State::Second(opening, first, at) => next_second(alloc, opening, first, at, line),
        State::Yes(opening, first, second, at) => next_yes(alloc, opening, first, second, at, line),
        State::List(opening, first, second, at) => next_list(
            alloc, opening, first, second, at, line,
        ),
        State::End(cert) => match word_in(Keyword::End, line) {
            Ok(()) => Ok(State::Done(cert)),
            Err(fault) => {
                drop(cert);
                Err(fault)
            }
        },
        State::Done(cert) => {
            drop(cert);
            Err(LineFault::Text(TextKind::Trailing))
        }
    }
}
