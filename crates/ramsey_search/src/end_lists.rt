//! The live elements between each two states of the first automaton.
//!
//! ```text
//! places   0 2 0 0 1 ..            by pair (from * states + to): the place of its list; 0 without elements
//! lists    []  [3 5]  [0 8 9]      the numbers of the elements, ascending
//! ```
//!
//! An automaton of n states has n * n pairs, and few of them have an element: a pair takes four
//! bytes, and a list is there for those alone that have had one.

ghost use Rattle.std.specs.Prelude.{◌≡◌, ◌<◌, ◌++◌, ◌∷◌, [], ℕ, length, IfOk, OnOk};
ghost use Rattle.ramsey_search.specs.EndLists.{list_at, HasPut};

use auto_core::Memory;
use std::alloc::Global;
use std::marker::Model;

/// The numbers of the live elements between two states, by the number of the pair. Contracts see a
/// list of lists.
#[derive(Debug, Drop)]
pub(crate) struct EndLists {
    places: Vec<u32>,
    lists: Vec<Vec<u32>>,
}

impl Model for EndLists {
    ghost use Rattle.std.specs.Prelude.{List, ℕ};

    ghost Value = { List (List ℕ) };

    ghost use Rattle.ramsey_search.specs.EndLists.{lists_of, AreApart};

    ghost view = { lists_of };

    ghost invariant = { AreApart };
}

impl EndLists {
    /// Empty lists for so many pairs.
    pub(crate) fn new(alloc: Global, pairs: usize) -> Result<EndLists, Memory>
        ensures size { IfOk result (λ lists. length lists ≡ pairs) }
        ensures empty { IfOk result (λ lists. (k : ℕ) → list_at lists k ≡ []) }
    {
        let mut lists = Vec::new(alloc);
        lists.push(Vec::new(alloc))?;
        let places = vec![in alloc; 0; pairs]?;
        Ok(EndLists { places, lists })
    }

    /// The list of the pair.
    pub(crate) fn list(&self, pair: usize) -> &[u32]
        requires { pair < length self.now }
        ensures { result.now ≡ list_at self.now pair }
    {
        &self.lists[self.places[pair] as usize]
    }

    /// Puts the list, that of a pair without elements so far, behind the others.
    fn add(&mut self, pair: usize, list: Vec<u32>) -> Result<(), Memory>
        requires { pair < length self.old }
        ensures { OnOk result (HasPut self.old self.new pair list.items) }
    {
        let place = self.lists.len();
        if place > u32::MAX as usize {
            return Err(Memory);
        }
        self.lists.push(list)?;
        self.places[pair] = place as u32;
        Ok(())
    }

    /// Gives the pair this list.
    pub(crate) fn put(&mut self, pair: usize, list: Vec<u32>) -> Result<(), Memory>
        requires { pair < length self.old }
        ensures { OnOk result (HasPut self.old self.new pair list.items) }
    {
        let place = self.places[pair] as usize;
        if place == 0 {
            return self.add(pair, list);
        }
        self.lists[place] = list;
        Ok(())
    }

    /// Puts the number behind those of the pair.
    pub(crate) fn push(&mut self, alloc: Global, pair: usize, number: u32) -> Result<(), Memory>
        requires { pair < length self.old }
        ensures { OnOk result
            (HasPut self.old self.new pair (list_at self.old pair ++ number ∷ [])) }
    {
        let place = self.places[pair] as usize;
        if place == 0 {
            return self.add(pair, vec![in alloc; number; 1]?);
        }
        self.lists[place].push(number)?;
        Ok(())
    }
}
