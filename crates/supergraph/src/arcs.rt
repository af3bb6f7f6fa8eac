//! Arcs, and subsumption by an order of the states of the other automaton.

ghost use Rattle.std.specs.Prelude.{◌≡◌, ◌<◌, ◌↔◌, ℕ, List, [], ◌∷◌, ◌++◌, length, IsTrue};
ghost use Rattle.auto_core.specs.Automaton.{trans_at};
ghost use Rattle.auto_core.specs.Game.{Holds};
ghost use Rattle.auto_core.specs.Graph.{IsReal, Subsumes, base_arc, extended_arc};
ghost use Rattle.graph_rows.specs.Block.{block_graph, IsFormed};
ghost use Rattle.supergraph.specs.Stands.{with_word, with_graph};

use auto_core::Auto;
use bit_rel::Rel;

/// What a run leads from and to, and whether it passes an accepting state behind its first.
#[derive(Clone, Copy, Debug, PartialEq, Eq)]
pub struct Arc {
    /// The state in which it starts.
    pub from: u32,
    /// The state in which it ends.
    pub to: u32,
    /// Whether a state behind the first is accepting.
    pub accepting: bool,
}

/// The arc of the transition with this number.
pub fn base(automaton: &Auto, t: u32) -> Arc
    requires { t < length automaton.now.transitions }
    ensures arc { with_word result ((trans_at automaton.now t).label ∷ [])
        ≡ base_arc automaton.now (trans_at automaton.now t) }
    ensures real { IsReal automaton.now (with_word result ((trans_at automaton.now t).label ∷ [])) }
{
    let step = automaton.transitions()[t as usize];
    Arc {
        from: step.source,
        to: step.target,
        accepting: automaton.accepting(step.target),
    }
}

/// The arc and then the transition with this number, which leaves its end.
pub fn extend(automaton: &Auto, arc: &Arc, t: u32) -> Arc
    requires number { t < length automaton.now.transitions }
    requires leaves { (trans_at automaton.now t).source ≡ arc.now.to }
    ensures arc { (w : List ℕ)
        → with_word result (w ++ (trans_at automaton.now t).label ∷ [])
        ≡ extended_arc automaton.now (with_word arc.now w) (trans_at automaton.now t) }
    ensures real { (w : List ℕ) → IsReal automaton.now (with_word arc.now w)
        → IsReal automaton.now (with_word result (w ++ (trans_at automaton.now t).label ∷ [])) }
{
    let step = automaton.transitions()[t as usize];
    Arc {
        from: arc.from,
        to: step.target,
        accepting: arc.accepting || automaton.accepting(step.target),
    }
}

/// Tells whether `x` with the graph `gx` subsumes `y` with the graph `gy`: the ends are the same,
/// `x` is accepting where `y` is, and
/// `gx` covers `gy`.
pub fn subsumes(order: &Rel, x: &Arc, gx: &[u64], y: &Arc, gy: &[u64]) -> bool
    requires first { IsFormed order.now.size gx.now }
    requires second { IsFormed order.now.size gy.now }
    ensures { IsTrue result
        ↔ Subsumes (Holds order.now.pairs) (with_graph x.now (block_graph order.now.size gx.now)) (with_graph y.now (block_graph order.now.size gy.now)) }
{
    x.from == y.from
        && x.to == y.to
        && (x.accepting || !y.accepting)
        && graph_rows::covers(order, gx, gy)
}
