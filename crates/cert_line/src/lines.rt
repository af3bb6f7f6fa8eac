//! What each kind of line says.

ghost use Rattle.std.specs.Prelude.{◌≡◌, ℕ, ◌+◌, ◌<◌, ◌≤◌, ◌^◌, ◌∷◌, [], ◌++◌, drop, length, slice_index, IfOk};
ghost use Rattle.cert_value.specs.Tokens.{tokens_of};
ghost use Rattle.cert_line.specs.Lines.{word_in, number_in, numbers_in, ascending_in, sizes_in, by_two, joined_runs, runs_of, row_ascends, row_tail, row_in, rank_row_of, rank_row_in, gone_by_in, step_in, heading_in, is_heading, if_heading, heading, mode_heading_in, version_heading_in};
ghost use Rattle.std.specs.Option.{option_copied};
ghost use Rattle.cert_value.specs.WellFormed.{key_before};
ghost use Rattle.cert_line.specs.Agrees.{Agrees};

use crate::faults::{LineFault, TextKind};
use crate::shapes::{Place, Tail, line_fault, value_at, values_from, values_in};
use crate::straight::straight_step;
use crate::words::{form_word, mode_word, version_word};
use auto_core::{List, Memory, Mode};
use cert_value::{
    Form, GoneBy, Keyword, RankRow, Ranked, Row, Run, StepLine, ascend, exceeds_last, gone_ascend,
    rights_ascend, runs_ascend,
};
use std::alloc::Global;

/// The sizes that a certificate names.
#[derive(Clone, Copy, Debug, PartialEq, Eq)]
pub struct Sizes {
    /// The states of the read first automaton.
    pub first_states: u32,
    /// The states of the read second automaton.
    pub second_states: u32,
    /// The joined labels.
    pub labels: u32,
}

/// What the first line says.
#[derive(Clone, Copy, Debug, PartialEq, Eq)]
pub struct Heading {
    /// The version.
    pub version: u32,
    /// What the automata were asked.
    pub mode: Mode,
    /// Which form the certificate has.
    pub form: Form,
}

/// Whether the line is the first line of a certificate with this heading.
fn is_heading(heading: Heading, line: &[u8]) -> bool
    ensures { result ≡ is_heading heading (tokens_of line.now) }
{
    let places = [
        Place::Word(Keyword::RabitCert),
        Place::Word(version_word(heading.version)),
        Place::Word(mode_word(heading.mode)),
        Place::Word(form_word(heading.form)),
    ];
    line_fault(&places, Tail::Nothing, line).is_none()
}

/// The heading of these parts, if the line is the first line with it.
fn if_heading(version: u32, mode: Mode, form: Form, line: &[u8]) -> Option<Heading>
    ensures { result ≡ if_heading (heading version mode form) (tokens_of line.now) }
{
    let heading = Heading {
        version,
        mode,
        form,
    };
    if is_heading(heading, line) {
        Some(heading)
    } else {
        None
    }
}

/// One of the three headings of this version and mode.
fn mode_heading_in(version: u32, mode: Mode, line: &[u8]) -> Option<Heading>
    ensures { result ≡ mode_heading_in version mode (tokens_of line.now) }
{
    if let Some(heading) = if_heading(version, mode, Form::Yes, line) {
        return Some(heading);
    }
    if let Some(heading) = if_heading(version, mode, Form::No, line) {
        return Some(heading);
    }
    if_heading(version, mode, Form::List, line)
}

/// One of the six headings of this version.
fn version_heading_in(version: u32, line: &[u8]) -> Option<Heading>
    ensures { result ≡ version_heading_in version (tokens_of line.now) }
{
    if let Some(heading) = mode_heading_in(version, Mode::Buchi, line) {
        return Some(heading);
    }
    mode_heading_in(version, Mode::Finite, line)
}

/// What the first line says: it has one of twelve headings.
pub fn heading_in(line: &[u8]) -> Result<Heading, LineFault>
    ensures told { Agrees (heading_in (tokens_of line.now)) result }
    ensures takes_no_memory { ¬ (result ≡ Err LineFault.Memory) }
{
    if let Some(heading) = version_heading_in(1, line) {
        return Ok(heading);
    }
    match version_heading_in(2, line) {
        Some(heading) => Ok(heading),
        None => Err(LineFault::Text(TextKind::Header)),
    }
}

/// A line of one word.
pub fn word_in(keyword: Keyword, line: &[u8]) -> Result<(), LineFault>
    ensures told { Agrees (word_in keyword (tokens_of line.now)) result }
    ensures takes_no_memory { ¬ (result ≡ Err LineFault.Memory) }
{
    match line_fault(&[Place::Word(keyword)], Tail::Nothing, line) {
        Some(fault) => Err(LineFault::Text(fault)),
        None => Ok(()),
    }
}

/// A line of a word and a number.
pub fn number_in(keyword: Keyword, line: &[u8]) -> Result<u32, LineFault>
    ensures told { Agrees (number_in keyword (tokens_of line.now)) result }
    ensures takes_no_memory { ¬ (result ≡ Err LineFault.Memory) }
{
    match line_fault(&[Place::Word(keyword), Place::Number], Tail::Nothing, line) {
        Some(fault) => Err(LineFault::Text(fault)),
        None => Ok(value_at(line, 1)),
    }
}

/// A line of a word and numbers.
pub fn numbers_in(
    alloc: Global,
    keyword: Keyword,
    tail: Tail,
    line: &[u8],
) -> Result<List<u32>, LineFault>
    ensures { Agrees (numbers_in keyword tail (tokens_of line.now)) result }
{
    if let Some(fault) = line_fault(&[Place::Word(keyword)], tail, line) {
        return Err(LineFault::Text(fault));
    }
    Ok(values_from(alloc, line, 1)?)
}

/// A line of a word and numbers that ascend.
pub fn ascending_in(
    alloc: Global,
    keyword: Keyword,
    tail: Tail,
    line: &[u8],
) -> Result<List<u32>, LineFault>
    ensures { Agrees (ascending_in keyword tail (tokens_of line.now)) result }
{
    if let Some(fault) = line_fault(&[Place::Word(keyword)], tail, line) {
        return Err(LineFault::Text(fault));
    }
    let numbers = values_from(alloc, line, 1)?;
    if !ascend(numbers.as_slice()) {
        return Err(LineFault::Text(TextKind::Order));
    }
    Ok(numbers)
}

/// The line of sizes.
pub fn sizes_in(line: &[u8]) -> Result<Sizes, LineFault>
    ensures told { Agrees (sizes_in (tokens_of line.now)) result }
    ensures takes_no_memory { ¬ (result ≡ Err LineFault.Memory) }
{
    let places = [
        Place::Word(Keyword::Sizes),
        Place::Number,
        Place::Number,
        Place::Number,
    ];
    match line_fault(&places, Tail::Nothing, line) {
        Some(fault) => Err(LineFault::Text(fault)),
        None => Ok(Sizes {
            first_states: value_at(line, 1),
            second_states: value_at(line, 2),
            labels: value_at(line, 3),
        }),
    }
}

/// What two numbers of a line stand for.
trait Pair: Drop {
    ghost of: { ℕ → ℕ → Self };

    /// What these two stand for.
    fn of(first: u32, second: u32) -> Self
        ensures { result ≡ of first second };
}

impl Pair for Run {
    ghost use Rattle.cert_line.specs.Lines.{run};

    ghost of = { run };

    fn of(first: u32, second: u32) -> Run {
        Run {
            first,
            last: second,
        }
    }
}

impl Pair for Ranked {
    ghost use Rattle.cert_line.specs.Lines.{ranked};

    ghost of = { ranked };

    fn of(first: u32, second: u32) -> Ranked {
        Ranked {
            right: first,
            code: second,
        }
    }
}

impl Pair for GoneBy {
    ghost use Rattle.cert_line.specs.Lines.{gone_by};

    ghost of = { gone_by };

    fn of(first: u32, second: u32) -> GoneBy {
        GoneBy {
            trans: first,
            by: second,
        }
    }
}

/// What the numbers stand for, taken two by two.
fn by_two<T: Pair>(alloc: Global, numbers: &[u32]) -> Result<List<T>, Memory>
    ensures { IfOk result (λ pairs. pairs ≡ by_two T.of numbers.now) }
{
    let mut pairs = List::new(alloc);
    let mut at = 0;
    while numbers.len() - at >= 2 {
        pairs.push(T::of(numbers[at], numbers[at + 1]))?;
        at += 2;
    }
    Ok(pairs)
}

/// The index of the last of the numbers that follow one another from this index on.
fn run_end(numbers: &[u32], from: usize) -> usize
    requires { from < length numbers.now }
    ensures bounds { (from ≤ result) × (result < length numbers.now) }
    ensures joined { joined_runs (drop from numbers.now)
        ≡ record { first = slice_index numbers.now from; last = slice_index numbers.now result }
        ∷ joined_runs (drop (result + 1) numbers.now) }
{
    let mut end = from;
    while end + 1 < numbers.len() {
        if numbers[end + 1] as u64 != numbers[end] as u64 + 1 {
            return end;
        }
        end += 1;
    }
    end
}

/// The numbers as runs, those that follow one another joined.
pub fn joined_runs(alloc: Global, numbers: &[u32]) -> Result<List<Run>, Memory>
    ensures { IfOk result (λ runs. runs ≡ joined_runs numbers.now) }
{
    let mut runs = List::new(alloc);
    let mut at = 0;
    while at < numbers.len() {
        let end = run_end(numbers, at);
        runs.push(Run {
            first: numbers[at],
            last: numbers[end],
        })?;
        at = end + 1;
    }
    Ok(runs)
}

/// The runs of a row, from its numbers as the version has them.
fn runs_of(alloc: Global, version: u32, numbers: &[u32]) -> Result<List<Run>, Memory>
    ensures { IfOk result (λ runs. runs ≡ runs_of version numbers.now) }
{
    if version == 2 {
        by_two::<Run>(alloc, numbers)
    } else {
        joined_runs(alloc, numbers)
    }
}

/// What may follow the left number of a row.
fn row_tail(version: u32) -> Tail
    ensures { result ≡ row_tail version }
{
    if version == 2 {
        Tail::Pairs(0)
    } else {
        Tail::SomeNumbers
    }
}

/// Whether the numbers of a row, which are these runs, are in order.
fn row_ascends(version: u32, numbers: &[u32], runs: &[Run]) -> bool
    ensures { runs.now ≡ runs_of version numbers.now → result ≡ row_ascends version numbers.now }
{
    if version == 2 {
        runs_ascend(runs)
    } else {
        ascend(numbers)
    }
}

/// A row of a relation, its left number not below the bound.
pub fn row_in(alloc: Global, version: u32, bound: u64, line: &[u8]) -> Result<Row, LineFault>
    ensures { Agrees (row_in version bound (tokens_of line.now)) result }
{
    let places = [Place::Word(Keyword::Row), Place::Number];
    if let Some(fault) = line_fault(&places, row_tail(version), line) {
        return Err(LineFault::Text(fault));
    }
    let left = value_at(line, 1);
    let numbers = values_from(alloc, line, 2)?;
    let runs = runs_of(alloc, version, numbers.as_slice())?;
    if !row_ascends(version, numbers.as_slice(), runs.as_slice()) || bound > left as u64 {
        return Err(LineFault::Text(TextKind::Order));
    }
    Ok(Row { left, runs })
}

/// A row of a relation with ranks, with a word of so many labels.
fn rank_row_of(alloc: Global, count: usize, line: &[u8]) -> Result<RankRow, Memory>
    requires { count + 2 < 2 ^ 64 }
    ensures { IfOk result (λ row. row ≡ rank_row_of count (tokens_of line.now)) }
{
    let ahead = values_in(alloc, line, 2, count)?;
    let numbers = values_from(alloc, line, count + 2)?;
    let rights = by_two::<Ranked>(alloc, numbers.as_slice())?;
    Ok(RankRow {
        left: value_at(line, 1),
        ahead,
        rights,
    })
}

/// A row of a relation with ranks for so many announced letters, after the row before it, if there
/// is one.
pub fn rank_row_in(
    alloc: Global,
    letters: u32,
    before: Option<&RankRow>,
    line: &[u8],
) -> Result<RankRow, LineFault>
    ensures { Agrees
        (rank_row_in letters (key_before (option_copied before.entry)) (tokens_of line.now))
        result }
{
    let count = letters.saturating_sub(1) as usize;
    let places = [Place::Word(Keyword::Row), Place::Number];
    if let Some(fault) = line_fault(&places, Tail::Pairs(count), line) {
        return Err(LineFault::Text(fault));
    }
    let row = rank_row_of(alloc, count, line)?;
    if !rights_ascend(row.rights.as_slice()) || !exceeds_last(before, &row) {
        return Err(LineFault::Text(TextKind::Order));
    }
    Ok(row)
}

/// What goes and by what.
pub fn gone_by_in(alloc: Global, line: &[u8]) -> Result<List<GoneBy>, LineFault>
    ensures { Agrees (gone_by_in (tokens_of line.now)) result }
{
    if let Some(fault) = line_fault(&[Place::Word(Keyword::Gone)], Tail::Pairs(0), line) {
        return Err(LineFault::Text(fault));
    }
    let numbers = values_from(alloc, line, 1)?;
    let gone = by_two::<GoneBy>(alloc, numbers.as_slice())?;
    if !gone_ascend(gone.as_slice()) {
        return Err(LineFault::Text(TextKind::Order));
    }
    Ok(gone)
}

/// The line of the live element with this number.
pub fn step_in(alloc: Global, number: usize, line: &[u8]) -> Result<StepLine, LineFault>
    ensures { Agrees (step_in number (tokens_of line.now)) result }
{
    if let Some(step) = straight_step(alloc, number, line)? {
        return Ok(step);
    }
    if let Some(fault) = line_fault(
        &[Place::Word(Keyword::Step), Place::Number],
        Tail::Numbers,
        line,
    ) {
        return Err(LineFault::Text(fault));
    }
    let element = value_at(line, 1);
    let by = values_from(alloc, line, 2)?;
    if element as usize != number {
        return Err(LineFault::Text(TextKind::Order));
    }
    Ok(StepLine { element, by })
}
