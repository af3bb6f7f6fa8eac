//! The check of a cross relation.

ghost use Rattle.std.specs.Prelude.{◌≡◌, ◌+◌, ◌<◌, ◌↔◌, ◌^◌, IfOk, IsTrue, length, true, Err};
ghost use Rattle.auto_core.specs.Automaton.{IsAutomaton};
ghost use Rattle.auto_core.specs.Accept.{Includes};
ghost use Rattle.auto_core.specs.declared.parts.Mode.{Mode};
ghost use Rattle.log_check.specs.Parts.{IsLook};
ghost use Rattle.cert_text.specs.CrossText.{CrossFormed};
ghost use Rattle.cross_sim.specs.Rules.{HasCrossSizes, IsRowInRange, AreRowsInRange, cross_pair_checks, TellsCross, KeepsCrossRules, BreaksCrossRule};
ghost use Rattle.cross_sim.specs.Sides.{Raises};
ghost use Rattle.cross_sim.specs.declared.faults.CrossRefusal.{CrossRefusal};
ghost use Rattle.log_check.specs.Blocks.{pairs_of};
ghost use Rattle.cert_value.specs.WellFormed.{are_rows};

use crate::across::Across;
use crate::faults::{CheckCrossFault, CrossRefusal};
use crate::raising::raised_block;
use crate::simulation::side_by_side;
use auto_core::Memory;
use ba_format::Joined;
use bit_rel::Rel;
use cert_text::Cross;
use cert_value::Row;
use log_check::{is_stable, relation_of};
use std::alloc::Global;

/// Whether the sizes are those of the two automata and of their joined labels.
fn has_sizes(pair: &Joined, cross: &Cross) -> bool
    ensures told { IsTrue result ↔ HasCrossSizes pair.now cross.now }
    ensures automata { IsTrue result → IsAutomaton pair.now.first × IsAutomaton pair.now.second }
{
    cross.first_states == pair.first.states()
        && cross.second_states == pair.second.states()
        && cross.labels == pair.labels.count()
}

/// Whether the lookahead is one of 1 to 6.
fn is_look(look: u32) -> bool
    ensures { IsTrue result ↔ IsLook look }
{
    1 <= look && look <= 6
}

/// Whether the left number of the row is below `firsts`, and its right ones are below `seconds`.
fn is_row_across(firsts: u32, seconds: u32, row: &Row) -> bool
    ensures { IsTrue result ↔ IsRowInRange firsts seconds row.now }
{
    row.left < firsts && row.runs.as_slice().iter().all(|run| run.last < seconds)
}

/// Whether so it is with each of the rows. No run is taken apart for that.
fn are_rows_across(firsts: u32, seconds: u32, rows: &[Row]) -> bool
    ensures { IsTrue result ↔ AreRowsInRange firsts seconds rows.now }
{
    for row in rows {
        if !is_row_across(firsts, seconds, row) {
            return false;
        }
    }
    true
}

/// The relation of the rows on the states of both automata, the second's after the first's.
fn relation_across(alloc: Global, firsts: u32, seconds: u32, rows: &[Row]) -> Result<Rel, Memory>
    requires formed { are_rows 0 rows.now ≡ true }
    requires below { AreRowsInRange firsts seconds rows.now }
    requires few { firsts + seconds < 2 ^ 32 }
    ensures size { IfOk result (λ r. r.size ≡ firsts + seconds) }
    ensures pairs { IfOk
        result (λ r. Raises firsts (pairs_of (record { rows = rows.now })) r.pairs) }
{
    let block = raised_block(alloc, rows, firsts)?;
    relation_of(alloc, firsts + seconds, &block)
}

fn refused(rule: u32, item: u32) -> Result<(), CheckCrossFault>
    ensures { result ≡ Err (CheckCrossFault.Refused (record { rule = rule; item = item })) }
{
    Err(CheckCrossFault::Refused(CrossRefusal { rule, item }))
}

/// Tests the pairs: that of the initial states is there, and all of them match and have their
/// rounds.
fn check_pairs(alloc: Global, pair: &Joined, cross: &Cross) -> Result<(), CheckCrossFault>
    requires formed { CrossFormed cross.now }
    requires sizes { HasCrossSizes pair.now cross.now }
    requires look { IsLook cross.now.look }
    requires below { AreRowsInRange pair.now.first.states pair.now.second.states cross.now.rows }
    requires transitions { length pair.now.first.transitions + length pair.now.second.transitions
        < 2 ^ 32 }
    requires labels { pair.now.first.labels ≡ pair.now.second.labels }
    ensures { TellsCross (cross_pair_checks pair.now cross.now) result }
{
    let firsts = pair.first.states();
    let both = side_by_side(alloc, &pair.first, &pair.second)?;
    let rel = relation_across(alloc, firsts, pair.second.states(), cross.rows.as_slice())?;
    if !rel.get(pair.first.initial(), firsts + pair.second.initial()) {
        return refused(19, 2);
    }
    let side = Across {
        first_states: firsts,
    };
    if !is_stable(alloc, &side, &both, &rel, cross.look)? {
        return refused(20, 2);
    }
    Ok(())
}

/// Tests the cross relation, which is formed, by all its rules. Ok says that none is broken, and
/// then the second automaton accepts what the first does; a refusal is the first rule that is
/// broken. Both automata have as many labels as `pair.labels` has texts.
pub fn check_cross(alloc: Global, pair: &Joined, cross: &Cross) -> Result<(), CheckCrossFault>
    requires formed { CrossFormed cross.now }
    requires transitions { length pair.now.first.transitions + length pair.now.second.transitions
        < 2 ^ 32 }
    requires first_labels { pair.now.first.labels ≡ length pair.now.labels }
    requires second_labels { pair.now.second.labels ≡ length pair.now.labels }
    ensures valid { IfOk result (λ _. KeepsCrossRules pair.now cross.now) }
    ensures included { IfOk
        result (λ _. (mode : Mode) → Includes pair.now.first pair.now.second mode) }
    ensures refused { (refusal : CrossRefusal) → result ≡ Err (CheckCrossFault.Refused refusal)
        → BreaksCrossRule pair.now cross.now refusal }
{
    if !has_sizes(pair, cross) {
        return refused(1, 0);
    }
    if !is_look(cross.look) {
        return refused(1, 1);
    }
    if !are_rows_across(
        cross.first_states,
        cross.second_states,
        cross.rows.as_slice(),
    ) {
        return refused(1, 2);
    }
    check_pairs(alloc, pair, cross)
}
