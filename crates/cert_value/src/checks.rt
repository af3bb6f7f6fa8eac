//! Whether a certificate has a text.

ghost use Rattle.std.specs.Prelude.{◌≡◌, ◌+◌, ◌-◌, ◌==◌, ◌<◌, ◌++◌, ◌∷◌, ◌↔◌, length, map, Bool, true, false, IsTrue, nat_lt, [], ◌&&◌};
ghost use Rattle.std.specs.Option.{option_copied};
ghost use Rattle.std.specs.List.{list_all};
ghost use Rattle.cert_value.specs.declared.types.Grounds.TheVariants as grounds;
ghost use Rattle.cert_value.specs.WellFormed.{is_short, are_short, has_some, ascend_from, ascend, is_run, runs_ascend, is_row, are_rows, is_block, rights_of, is_ranked, rank_key, key_before, is_less, is_rank_row, are_rank_rows, is_rank_block, are_gone, are_kept, are_classes, blocks_due, is_first_step, are_letters, are_grounds, is_second_step, is_origin, is_live, is_mark, is_element, is_step_of, are_steps, are_logs, is_body, is_yes, is_lasso, is_listing, gone_of, is_gone, is_cut, is_version, has_text, WellFormed};

use crate::types::{
    Body, Cert, Element, FirstStep, GoneBy, Grounds, ListBody, Mark, RankBlock, RankRow, Ranked,
    RelBlock, Row, Run, SecondStep, StepLine, YesBody,
};
use auto_core::{Lasso, List, Mode, Origin};
use std::cmp::Ordering;

/// One more than the greatest number of nine digits.
const TOO_LONG: u32 = 1_000_000_000;

/// Whether the number has at most nine digits.
pub fn is_short(number: u32) -> bool
    ensures { result ≡ is_short number }
{
    number < TOO_LONG
}

/// Whether the count has at most nine digits.
pub fn is_short_count(count: usize) -> bool
    ensures { result ≡ is_short count }
{
    count < TOO_LONG as usize
}

/// Whether all numbers have at most nine digits.
fn are_short(numbers: &[u32]) -> bool
    ensures { result ≡ are_short numbers.now }
{
    numbers.iter().all(|n| *n < TOO_LONG)
}

/// Whether the numbers ascend, the first not below the bound.
pub fn ascend(numbers: &[u32]) -> bool
    ensures { result ≡ ascend numbers.now }
{
    let mut bound = 0u64;
    for number in numbers {
        if (*number as u64) < bound {
            return false;
        }
        bound = *number as u64 + 1;
    }
    true
}

/// Whether both ends of the run are short.
fn is_run(run: Run) -> bool
    ensures { result ≡ is_run run }
{
    is_short(run.first) && is_short(run.last)
}

/// Whether the ends of all runs are short.
fn all_runs(items: &[Run]) -> bool
    ensures { result ≡ list_all is_run items.now }
{
    items.iter().all(|item| is_run(*item))
}

/// Whether the runs ascend, none of them empty or right after the one before.
pub fn runs_ascend(runs: &[Run]) -> bool
    ensures { result ≡ runs_ascend runs.now }
{
    let mut bound = 0u64;
    for run in runs {
        if (run.first as u64) < bound {
            return false;
        }
        if run.last < run.first {
            return false;
        }
        bound = run.last as u64 + 2;
    }
    true
}

/// Whether the row is one, its left number not below the bound.
fn is_row(bound: u64, row: &Row) -> bool
    ensures { result ≡ is_row bound row.now }
{
    let runs = row.runs.as_slice();
    is_short(row.left)
        && all_runs(runs)
        && !runs.is_empty()
        && runs_ascend(runs)
        && bound <= row.left as u64
}

/// Whether the rows are, their left numbers ascending.
pub fn are_rows(rows: &[Row]) -> bool
    ensures { result ≡ are_rows 0 rows.now }
{
    let mut bound = 0u64;
    for row in rows {
        if !is_row(bound, row) {
            return false;
        }
        bound = row.left as u64 + 1;
    }
    true
}

/// Whether the relation has a text.
fn is_block(block: &RelBlock) -> bool
    ensures { result ≡ is_block block.now }
{
    let rows = block.rows.as_slice();
    is_short_count(rows.len()) && are_rows(rows)
}

/// Whether the right numbers ascend.
pub fn rights_ascend(pairs: &[Ranked]) -> bool
    ensures { result ≡ ascend (rights_of pairs.now) }
{
    let mut bound = 0u64;
    for pair in pairs {
        if (pair.right as u64) < bound {
            return false;
        }
        bound = pair.right as u64 + 1;
    }
    true
}

/// Whether what goes ascends.
pub fn gone_ascend(pairs: &[GoneBy]) -> bool
    ensures { result ≡ ascend (gone_of pairs.now) }
{
    let mut bound = 0u64;
    for pair in pairs {
        if (pair.trans as u64) < bound {
            return false;
        }
        bound = pair.trans as u64 + 1;
    }
    true
}

/// Whether both numbers are short.
fn is_ranked(pair: Ranked) -> bool
    ensures { result ≡ is_ranked pair }
{
    is_short(pair.right) && is_short(pair.code)
}

/// Whether both numbers are short.
fn is_gone(pair: GoneBy) -> bool
    ensures { result ≡ is_gone pair }
{
    is_short(pair.trans) && is_short(pair.by)
}

/// Whether all numbers of the pairs are short.
fn all_ranked(items: &[Ranked]) -> bool
    ensures { result ≡ list_all is_ranked items.now }
{
    items.iter().all(|item| is_ranked(*item))
}

/// Whether the first list is less than the second one in lexicographic order.
fn is_less(one: &[u32], other: &[u32]) -> bool
    ensures { result ≡ is_less one.now other.now }
{
    one.cmp(other).is_lt()
}

/// Whether the row's left number and word exceed those of the row before.
fn exceeds(before: &RankRow, row: &RankRow) -> bool
    ensures { result ≡ is_less (rank_key before.now) (rank_key row.now) }
{
    match before.left.cmp(&row.left) {
        Ordering::Less => true,
        Ordering::Equal => is_less(before.ahead.as_slice(), row.ahead.as_slice()),
        Ordering::Greater => false,
    }
}

/// Whether the row's left number and word exceed those of the row before, if there is one.
pub fn exceeds_last(before: Option<&RankRow>, row: &RankRow) -> bool
    ensures { result ≡ is_less (key_before (option_copied before.entry)) (rank_key row.now) }
{
    match before {
        None => true,
        Some(last) => exceeds(last, row),
    }
}

/// Whether these are short numbers, one fewer than letters are announced: a word.
fn is_ahead(letters: u32, ahead: &[u32]) -> bool
    ensures { result ≡ (are_short ahead.now && (length ahead.now == letters - 1)) }
{
    are_short(ahead) && ahead.len() == letters.saturating_sub(1) as usize
}

/// Whether the row with ranks is one for so many announced letters, its left number and word past
/// those of the row before, if there is one.
fn is_rank_row(letters: u32, before: Option<&RankRow>, row: &RankRow) -> bool
    ensures { result ≡ is_rank_row letters (key_before (option_copied before.entry)) row.now }
{
    let rights = row.rights.as_slice();
    is_short(row.left)
        && is_ahead(letters, row.ahead.as_slice())
        && all_ranked(rights)
        && !rights.is_empty()
        && rights_ascend(rights)
        && exceeds_last(before, row)
}

/// Whether the rows with ranks are, their left numbers and words ascending.
fn are_rank_rows(letters: u32, rows: &[RankRow]) -> bool
    ensures { result ≡ are_rank_rows letters [] rows.now }
{
    let mut before = None;
    for row in rows {
        if !is_rank_row(letters, before, row) {
            return false;
        }
        before = Some(row);
    }
    true
}

/// Whether the relation with ranks has a text, for so many announced letters.
fn is_rank_block(letters: u32, block: &RankBlock) -> bool
    ensures { result ≡ is_rank_block letters block.now }
{
    let rows = block.rows.as_slice();
    is_short_count(rows.len()) && are_rank_rows(letters, rows)
}

/// How many relations the cut by this pair has; no pair has none.
pub fn blocks_due(pair: u32) -> u32
    ensures { result ≡ blocks_due pair }
{
    match pair {
        1 | 2 => 1,
        3 | 4 => 2,
        _ => 0,
    }
}

/// Whether all numbers of the pairs are short.
fn all_gone(items: &[GoneBy]) -> bool
    ensures { result ≡ list_all is_gone items.now }
{
    items.iter().all(|item| is_gone(*item))
}

/// Whether what goes has a text.
fn are_gone(pairs: &[GoneBy]) -> bool
    ensures { result ≡ are_gone pairs.now }
{
    all_gone(pairs) && !pairs.is_empty() && gone_ascend(pairs)
}

/// Whether the kept states have a text.
fn are_kept(kept: &[u32]) -> bool
    ensures { result ≡ are_kept kept.now }
{
    are_short(kept) && ascend(kept)
}

/// Whether the classes have a text.
fn are_classes(classes: &[u32]) -> bool
    ensures { result ≡ are_classes classes.now }
{
    are_short(classes) && !classes.is_empty()
}

/// Whether all relations have a text.
fn are_blocks(items: &[RelBlock]) -> bool
    ensures { result ≡ list_all is_block items.now }
{
    items.iter().all(|item| is_block(item))
}

/// Whether the cut of the first log has a text.
fn is_cut(pair: u32, look: u32, gone: &[GoneBy], blocks: &[RelBlock]) -> bool
    ensures { result ≡ is_cut pair look gone.now blocks.now }
{
    let due = blocks_due(pair);
    due > 0
        && is_short(look)
        && are_gone(gone)
        && blocks.len() == due as usize
        && are_blocks(blocks)
}

/// Whether the step of the first log has a text.
fn is_first_step(step: &FirstStep) -> bool
    ensures { result ≡ is_first_step step.now }
{
    match step {
        FirstStep::Trim { kept } => are_kept(kept.as_slice()),
        FirstStep::Merge { classes } => are_classes(classes.as_slice()),
        FirstStep::Cut {
            pair,
            look,
            gone,
            blocks,
        } => is_cut(*pair, *look, gone.as_slice(), blocks.as_slice()),
    }
}

/// Whether so many letters may be announced: 1 to 4, in version 1 one alone.
pub fn are_letters(version: u32, letters: u32) -> bool
    ensures { result ≡ are_letters version letters }
{
    if version == 2 {
        1 <= letters && letters <= 4
    } else {
        letters == 1
    }
}

/// Whether the delayed relation has a text in a file of this version and mode.
fn is_delayed(version: u32, mode: Mode, letters: u32, ranks: &RankBlock) -> bool
    ensures { result ≡ are_grounds version mode (grounds.Delayed letters ranks.now) }
{
    match mode {
        Mode::Buchi => are_letters(version, letters) && is_rank_block(letters, ranks),
        Mode::Finite => false,
    }
}

/// Whether the grounds have a text in a file of this version and mode.
fn are_grounds(version: u32, mode: Mode, by: &Grounds) -> bool
    ensures { result ≡ are_grounds version mode by.now }
{
    match by {
        Grounds::Forward { look, rel } => is_short(*look) && is_block(rel),
        Grounds::Backward { look, rel } => is_short(*look) && is_block(rel),
        Grounds::Delayed { letters, ranks } => is_delayed(version, mode, *letters, ranks),
    }
}

/// Whether the step of the second log has a text in a file of this version and mode.
fn is_second_step(version: u32, mode: Mode, step: &SecondStep) -> bool
    ensures { result ≡ is_second_step version mode step.now }
{
    match step {
        SecondStep::Trim { kept } => are_kept(kept.as_slice()),
        SecondStep::Merge { by, classes } => are_classes(classes.as_slice())
            && are_grounds(version, mode, by),
        SecondStep::Cut { gone } => {
            let gone = gone.as_slice();
            are_short(gone) && !gone.is_empty() && ascend(gone)
        }
    }
}

/// Whether the origin has a text in a file of this mode.
fn is_origin(mode: Mode, origin: Origin) -> bool
    ensures { result ≡ is_origin mode origin }
{
    match origin {
        Origin::Start => mode == Mode::Finite,
        Origin::Base(trans) => mode == Mode::Buchi && is_short(trans),
        Origin::Next(parent, trans) => is_short(parent) && is_short(trans),
    }
}

/// Whether the element is live.
pub fn is_live(mark: Mark) -> bool
    ensures { result ≡ is_live mark }
{
    match mark {
        Mark::Live => true,
        Mark::Under(_) => false,
    }
}

/// Whether the mark has a text.
fn is_mark(mark: Mark) -> bool
    ensures { result ≡ is_mark mark }
{
    match mark {
        Mark::Live => true,
        Mark::Under(number) => is_short(number),
    }
}

/// Whether the element has a text in a file of this mode.
fn is_element(mode: Mode, element: &Element) -> bool
    ensures { result ≡ is_element mode element.now }
{
    is_mark(element.mark) && is_origin(mode, element.origin)
}

/// Whether it is the line of the live element with this number.
fn is_step_of(number: usize, step: &StepLine) -> bool
    ensures { result ≡ is_step_of number step.now }
{
    is_short(step.element) && are_short(step.by.as_slice()) && step.element as usize == number
}

/// Whether there is one line for each live element, in order.
fn are_steps(elements: &[Element], steps: &[StepLine]) -> bool
    ensures { result ≡ are_steps 0 elements.now steps.now }
{
    let mut done = 0;
    for number in 0..elements.len() {
        if is_live(elements[number].mark) {
            if done == steps.len() {
                return false;
            }
            if !is_step_of(number, &steps[done]) {
                return false;
            }
            done += 1;
        }
    }
    done == steps.len()
}

/// Whether all steps have a text.
fn are_first_steps(items: &[FirstStep]) -> bool
    ensures { result ≡ list_all is_first_step items.now }
{
    items.iter().all(|item| is_first_step(item))
}

/// Whether all steps have a text in a file of this version and mode.
fn are_second_steps(version: u32, mode: Mode, items: &[SecondStep]) -> bool
    ensures { result ≡ list_all (is_second_step version mode) items.now }
{
    items.iter().all(|item| is_second_step(version, mode, item))
}

/// Whether all elements have a text in a file of this mode.
fn are_elements(mode: Mode, items: &[Element]) -> bool
    ensures { result ≡ list_all (is_element mode) items.now }
{
    items.iter().all(|item| is_element(mode, item))
}

/// Whether all origins have a text in a file of this mode.
fn are_origins(mode: Mode, items: &[Origin]) -> bool
    ensures { result ≡ list_all (is_origin mode) items.now }
{
    items.iter().all(|item| is_origin(mode, *item))
}

/// Whether the two logs have a text in a file of this version and mode.
fn are_logs(version: u32, mode: Mode, first: &[FirstStep], second: &[SecondStep]) -> bool
    ensures { result ≡ are_logs version mode first.now second.now }
{
    is_short_count(first.len())
        && are_first_steps(first)
        && is_short_count(second.len())
        && are_second_steps(version, mode, second)
}

/// Whether the evidence of inclusion has a text in a file of this version and mode.
fn is_yes(version: u32, mode: Mode, yes: &YesBody) -> bool
    ensures { result ≡ is_yes version mode yes.now }
{
    let elements = yes.elements.as_slice();
    are_logs(version, mode, yes.first.as_slice(), yes.second.as_slice())
        && is_block(&yes.order)
        && is_short_count(elements.len())
        && are_elements(mode, elements)
        && are_short(yes.cover.as_slice())
        && are_steps(elements, yes.steps.as_slice())
}

/// Whether the lasso has a text.
fn is_lasso(lasso: &Lasso) -> bool
    ensures { result ≡ is_lasso lasso.now }
{
    let turn = lasso.turn.as_slice();
    are_short(lasso.prefix.as_slice()) && are_short(turn) && !turn.is_empty()
}

/// Whether the evidence of a limit has a text in a file of this version and mode.
fn is_listing(version: u32, mode: Mode, list: &ListBody) -> bool
    ensures { result ≡ is_listing version mode list.now }
{
    let elements = list.elements.as_slice();
    are_logs(version, mode, list.first.as_slice(), list.second.as_slice())
        && is_short(list.limit)
        && is_short_count(elements.len())
        && are_origins(mode, elements)
}

/// Whether the body has a text in a file of this version and mode.
fn is_body(version: u32, mode: Mode, body: &Body) -> bool
    ensures { result ≡ is_body version mode body.now }
{
    match (mode, body) {
        (_, Body::Yes(yes)) => is_yes(version, mode, yes),
        (Mode::Buchi, Body::NoLasso(lasso)) => is_lasso(lasso),
        (Mode::Finite, Body::NoLasso(_)) => false,
        (Mode::Buchi, Body::NoWord(_)) => false,
        (Mode::Finite, Body::NoWord(word)) => are_short(word.as_slice()),
        (_, Body::Listing(list)) => is_listing(version, mode, list),
    }
}

/// Whether it is a version that there is.
fn is_version(version: u32) -> bool
    ensures { result ≡ is_version version }
{
    version == 1 || version == 2
}

/// Whether the certificate has a text.
pub fn well_formed(cert: &Cert) -> bool
    ensures exact { IsTrue result ↔ WellFormed cert.now }
    ensures test { result ≡ has_text cert.now }
{
    is_version(cert.version)
        && is_short(cert.first_states)
        && is_short(cert.second_states)
        && is_short(cert.labels)
        && is_body(cert.version, cert.mode, &cert.body)
}
