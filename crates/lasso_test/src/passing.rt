//! The lasso test, in room that is made once.

ghost use Rattle.std.specs.Prelude.{◌≡◌, ◌↔◌, ℕ, IfOk, IsTrue, length, vec_len};
ghost use Rattle.auto_core.specs.Rows.{HasBit};
ghost use Rattle.auto_core.specs.Graph.{LassoIn};
ghost use Rattle.graph_rows.specs.Block.{width_of, block_graph, IsFormed};
ghost use Rattle.lasso_test.specs.Loops.{HasLoop};

use auto_core::{Memory, reach, rows};
use bit_rows::{Room, mark_loops};
use std::alloc::Global;
use std::marker::Model;

/// Room for tests of graphs of one number of states. Contracts see it as that number.
#[derive(Debug, Drop)]
pub struct Scratch {
    states: u32,
    marks: Vec<u64>,
    back: Vec<u64>,
    done: Vec<u64>,
    room: Room,
}

impl Model for Scratch {
    ghost use Rattle.std.specs.Prelude.{ℕ};

    ghost Value = { ℕ };

    ghost use Rattle.lasso_test.specs.Room.{states_of, HasRoomForMarks};

    ghost view = { states_of };

    ghost invariant = { HasRoomForMarks };
}

fn row(alloc: Global, states: u32) -> Result<Vec<u64>, Memory>
    ensures { IfOk result (λ v. vec_len v ≡ width_of states) }
{
    Ok(vec![in alloc; 0; rows::words_for(states)]?)
}

impl Scratch {
    /// Room for graphs of so many states.
    pub fn new(alloc: Global, states: u32) -> Result<Scratch, Memory>
        ensures { IfOk result (λ s. s ≡ states) }
    {
        let marks = row(alloc, states)?;
        let back = row(alloc, states)?;
        let done = row(alloc, states)?;
        let room = Room::new(alloc, states)?;
        Ok(Scratch {
            states,
            marks,
            back,
            done,
            room,
        })
    }
}

/// Tells whether an arc of `g` leads from the initial state to a state from which arcs of `h` come
/// back to one of their states past an arc of value 2. What the scratch holds before does not
/// matter.
pub fn passes(n: u32, g: &[u64], h: &[u64], initial: u32, scratch: &mut Scratch) -> bool
    requires first { IsFormed n g.now }
    requires second { IsFormed n h.now }
    requires room { scratch.old ≡ n }
    ensures told { IsTrue result ↔ LassoIn (block_graph n g.now) (block_graph n h.now) initial }
    ensures kept { scratch.new ≡ n }
{
    if initial >= n {
        return false;
    }
    let width = rows::words_for(n);
    let entered = rows::row_at(graph_rows::joined(n, g), width, initial as usize);
    scratch.marks.copy_from_slice(entered);
    reach::has_flagged_cycle(
        graph_rows::joined(n, h),
        graph_rows::past(n, h),
        n,
        width,
        &mut scratch.marks,
        &mut scratch.back,
        &mut scratch.done,
    )
}

/// Marks the states from which arcs of `h` come back to one of their states past an arc of value 2.
/// What the scratch and the row hold before does not matter.
pub fn mark_looping(n: u32, h: &[u64], looping: &mut [u64], scratch: &mut Scratch)
    requires formed { IsFormed n h.now }
    requires room { scratch.old ≡ n }
    requires row { length looping.old ≡ width_of n }
    ensures marked { (q : ℕ) → HasBit looping.new q ↔ HasLoop (block_graph n h.now) q }
    ensures kept { scratch.new ≡ n }
{
    let joined = graph_rows::joined(n, h);
    let past = graph_rows::past(n, h);
    mark_loops(joined, past, n, looping, &mut scratch.room);
}
