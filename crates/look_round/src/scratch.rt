//! Room for one round.

ghost use Rattle.std.specs.Prelude.{◌≡◌, IfOk};

use crate::known::Known;
use crate::moves::Move;
use auto_core::{Auto, Memory, rows};
use smallvec::SmallVec;
use std::alloc::Global;
use std::marker::Model;

/// Fewer than so many states are listed at a time.
const MOST_LISTED: usize = 256;

/// Room for the rounds on an automaton at a lookahead: Spoiler's path, a row of bits for each of
/// its places and for its start, what a round has found out, and room for the states in which
/// Duplicator may be, where they are few. Contracts see the number of states and the lookahead that
/// it was made for.
#[derive(Drop)]
pub struct Scratch {
    pub(crate) alloc: Global,
    pub(crate) states: u32,
    pub(crate) look: u32,
    pub(crate) path: SmallVec<Move, 6>,
    pub(crate) sets: Vec<u64>,
    pub(crate) known: Known,
    pub(crate) listed: Vec<u32>,
}

impl Model for Scratch {
    ghost use Rattle.look_round.specs.Room.{Room};

    ghost Value = { Room };

    ghost use Rattle.look_round.specs.RoomStored.{room_of, IsRoomStored};

    ghost view = { room_of };

    ghost invariant = { IsRoomStored };
}

impl Scratch {
    /// Room for the rounds on this automaton at this lookahead.
    pub fn new(alloc: Global, automaton: &Auto, look: u32) -> Result<Scratch, Memory>
        ensures { IfOk result (λ s. s ≡ record { states = automaton.now.states; look = look }) }
    {
        let states = automaton.states();
        let room = (look as usize + 1) * rows::words_for(states);
        let sets = vec![in alloc; 0; room]?;
        let known = Known::new(alloc, states, look)?;
        let listed = vec![in alloc; 0; MOST_LISTED]?;
        Ok(Scratch {
            alloc,
            states,
            look,
            path: SmallVec::new(alloc),
            sets,
            known,
            listed,
        })
    }
}
