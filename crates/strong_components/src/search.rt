//! The search for components: a chain of groups of nodes, each of them strongly connected, each
//! with a way to the next.

ghost use Rattle.std.specs.Prelude.{◌≡◌, ◌+◌, ◌-◌, ◌*◌, ◌^◌, ◌<◌, ◌≤◌, ◌↔◌, ◌++◌, ◌∷◌, [], ℕ, List, true, false, length, take, slice_set, replicate, IsTrue, IfOk, IfSome, IfNone, OnOk, OnErr, vec_len};
ghost use Rattle.strong_components.specs.Graph.{at, IsGraph};
ghost use Rattle.strong_components.specs.UnderWay.{none, AreMarked, IsUnderWay, IsNew, LeadsOn};
ghost use Rattle.strong_components.specs.Steps.{CanGo, Went, IsLastOnPath, Stepped, SearchedFrom, AreRests};
ghost use Rattle.strong_components.specs.States.{state_of};

use auto_core::Memory;
use std::alloc::Global;

/// What stands for no number.
const NONE: u32 = 0xffff_ffff;

/// Where the search stands.
#[derive(Debug, Drop)]
pub(crate) struct Search {
    /// The nodes that are seen and have no component yet.
    stack: Vec<u32>,
    /// Where each group starts on the stack.
    bounds: Vec<u32>,
    /// The places on the stack of the nodes that may have arcs left.
    path: Vec<u32>,
    /// How many arcs of each node are left.
    rest: Vec<usize>,
    /// The place on the stack that each node was given.
    places: Vec<u32>,
    /// The number of each node's component.
    numbers: Vec<u32>,
    /// How many components there are.
    count: u32,
}

/// Numbers the nodes on the stack from the place on.
fn mark(stack: &[u32], start: usize, number: u32, numbers: &mut [u32])
    requires within { start ≤ length stack.now }
    requires nodes { (x : ℕ) → x < length stack.now → at stack.now x < length numbers.old }
    ensures { AreMarked stack.now start number numbers.old numbers.new }
{
    for x in start..stack.len() {
        numbers[stack[x] as usize] = number;
    }
}

/// How many of the bounds are at or before the place, the later ones being past it.
fn bounds_up_to(bounds: &[u32], place: u32) -> usize
    ensures within { result ≤ length bounds.now }
    ensures past { (i : ℕ) → result ≤ i → i < length bounds.now → place < at bounds.now i }
    ensures last { 0 < result → at bounds.now (result - 1) ≤ place }
{
    let mut count = bounds.len();
    while count > 0 && bounds[count - 1] > place {
        count = count - 1;
    }
    count
}

/// The number of the items, which is less than `NONE`. Refused where there are more, as no graph
/// has.
fn next_number(count: usize) -> Result<u32, Memory>
    ensures { IfOk result (λ number. (number ≡ count) × (number < none)) }
{
    if count >= NONE as usize {
        return Err(Memory);
    }
    Ok(count as u32)
}

/// The last number.
fn last_of(numbers: &[u32]) -> u32
    requires { 0 < length numbers.now }
    ensures { result ≡ at numbers.now (length numbers.now - 1) }
{
    numbers[numbers.len() - 1]
}

/// The last place, if it is not before the start.
fn last_from(path: &[u32], start: u32) -> Option<u32>
    ensures some { IfSome
        result (λ place.
        (0 < length path.now) × (at path.now (length path.now - 1) ≡ place) × (start ≤ place)) }
    ensures none { IfNone result (0 < length path.now → at path.now (length path.now - 1) < start) }
{
    if path.is_empty() {
        return None;
    }
    let place = last_of(path);
    if place < start {
        return None;
    }
    Some(place)
}

/// Takes the last number off.
fn take_off(numbers: &mut Vec<u32>)
    requires { 0 < length numbers.old.items }
    ensures { numbers.new.items ≡ take (length numbers.old.items - 1) numbers.old.items }
{
    let last = numbers.len() - 1;
    numbers.truncate(last);
}

/// Puts the number at the place.
fn put(numbers: &mut Vec<usize>, place: u32, number: usize)
    requires { place < length numbers.old.items }
    ensures { numbers.new.items ≡ slice_set numbers.old.items place number }
{
    numbers[place as usize] = number;
}

/// How many arcs each node has.
fn rests(alloc: Global, nodes: u32, starts: &[usize]) -> Result<Vec<usize>, Memory>
    requires size { length starts.now ≡ nodes + 1 }
    requires rising { (v : ℕ) → v < nodes → at starts.now v ≤ at starts.now (v + 1) }
    ensures { IfOk result (λ rest. AreRests starts.now nodes rest.items) }
{
    let mut rest = Vec::new(alloc);
    for v in 0..nodes as usize {
        rest.push(starts[v + 1] - starts[v])?;
    }
    Ok(rest)
}

/// So many numbers that are none.
fn blank(alloc: Global, nodes: u32) -> Result<Vec<u32>, Memory>
    ensures { IfOk result (λ numbers. numbers.items ≡ replicate nodes none) }
{
    Ok(vec![in alloc; NONE; nodes as usize]?)
}

impl Search {
    /// The search before its first node.
    pub fn new(alloc: Global, nodes: u32, starts: &[usize]) -> Result<Search, Memory>
        requires size { length starts.now ≡ nodes + 1 }
        requires rising { (v : ℕ) → v < nodes → at starts.now v ≤ at starts.now (v + 1) }
        ensures way { IfOk
            result (λ s. (targets : List ℕ) → IsUnderWay starts.now targets nodes (state_of s)) }
        ensures ended { IfOk result (λ s. length s.bounds.items ≡ 0) }
    {
        Ok(Search {
            stack: Vec::new(alloc),
            bounds: Vec::new(alloc),
            path: Vec::new(alloc),
            rest: rests(alloc, nodes, starts)?,
            places: blank(alloc, nodes)?,
            numbers: blank(alloc, nodes)?,
            count: 0,
        })
    }

    /// The numbers of the components.
    pub fn finish(self) -> Vec<u32>
        ensures { result.items ≡ self.numbers.items }
    {
        self.numbers
    }

    /// Tells whether the node has been seen.
    fn is_seen(&self, node: u32) -> bool
        requires { node < length self.now.places.items }
        ensures seen { result ≡ true → IsNew (state_of self.now) node → ⊥ }
        ensures new { result ≡ false → IsNew (state_of self.now) node }
    {
        self.places[node as usize] != NONE
    }

    /// Sees the node, as a group of its own at the end of the chain.
    fn enter(&mut self, node: u32) -> Result<(), Memory>
        requires { node < length self.old.places.items }
        ensures room { OnOk result (length self.old.stack.items < none) }
        ensures stack { OnOk result (self.new.stack.items ≡ self.old.stack.items ++ node ∷ []) }
        ensures bounds { OnOk result
            (self.new.bounds.items ≡ self.old.bounds.items ++ length self.old.stack.items ∷ []) }
        ensures path { OnOk result
            (self.new.path.items ≡ self.old.path.items ++ length self.old.stack.items ∷ []) }
        ensures places { OnOk result
            (self.new.places.items
            ≡ slice_set self.old.places.items node (length self.old.stack.items)) }
        ensures rest { self.new.rest.items ≡ self.old.rest.items }
        ensures numbers { self.new.numbers.items ≡ self.old.numbers.items }
        ensures count { self.new.count ≡ self.old.count }
    {
        let place = next_number(self.stack.len())?;
        self.stack.push(node)?;
        self.bounds.push(place)?;
        self.path.push(place)?;
        self.places[node as usize] = place;
        Ok(())
    }

    /// Makes one group of those from the one that has the place on.
    fn merge(&mut self, place: u32)
        ensures bounds { (n : ℕ) × (n ≤ length self.old.bounds.items) × (self.new.bounds.items ≡ take n self.old.bounds.items)
            × (0 < n → at self.old.bounds.items (n - 1) ≤ place)
            × ((i : ℕ) → n ≤ i → i < length self.old.bounds.items → place < at self.old.bounds.items i) }
        ensures stack { self.new.stack.items ≡ self.old.stack.items }
        ensures path { self.new.path.items ≡ self.old.path.items }
        ensures places { self.new.places.items ≡ self.old.places.items }
        ensures rest { self.new.rest.items ≡ self.old.rest.items }
        ensures numbers { self.new.numbers.items ≡ self.old.numbers.items }
        ensures count { self.new.count ≡ self.old.count }
    {
        let kept = bounds_up_to(&self.bounds, place);
        self.bounds.truncate(kept);
    }

    /// Goes to the node, to which an arc leads out of the last group.
    fn go(&mut self, node: u32) -> Result<(), Memory>
        requires places { node < length self.old.places.items }
        requires numbers { node < length self.old.numbers.items }
        ensures { OnOk result ((starts targets : List ℕ) (nodes x : ℕ) → IsUnderWay starts targets nodes (state_of self.old)
            → CanGo starts targets nodes (state_of self.old) x node → Went starts targets nodes (state_of self.old) (state_of self.new) x node) }
    {
        if !self.is_seen(node) {
            self.enter(node)?;
            return Ok(());
        }
        if self.numbers[node as usize] == NONE {
            let place = self.places[node as usize];
            self.merge(place);
        }
        Ok(())
    }

    /// Takes the next arc of the node at the place, which is the last on the path and in the last
    /// group, or takes the node off the path where none is left.
    fn explore(&mut self, starts: &[usize], targets: &[u32], place: u32) -> Result<(), Memory>
        requires graph { IsGraph starts.now targets.now (length self.old.rest.items) }
        requires way { IsUnderWay starts.now targets.now (length self.old.rest.items)
            (state_of self.old) }
        requires last { IsLastOnPath (state_of self.old) place }
        ensures { OnOk result
            (Stepped starts.now targets.now (length self.old.rest.items) (state_of self.old)
            (state_of self.new)) }
    {
        let node = self.stack.as_slice()[place as usize];
        let left = self.rest.as_slice()[node as usize];
        if left == 0 {
            take_off(&mut self.path);
            return Ok(());
        }
        let arc = starts[node as usize + 1] - left;
        self.go(targets[arc])?;
        put(&mut self.rest, node, left - 1);
        Ok(())
    }

    /// Makes the last group a component; none of its nodes has an arc left.
    fn close(&mut self) -> Result<(), Memory>
        requires some { 0 < length self.old.bounds.items }
        requires start { at self.old.bounds.items (length self.old.bounds.items - 1)
            ≤ length self.old.stack.items }
        requires nodes { (x : ℕ) → x < length self.old.stack.items
            → at self.old.stack.items x < length self.old.numbers.items }
        ensures bounds { OnOk result
            (self.new.bounds.items
            ≡ take (length self.old.bounds.items - 1) self.old.bounds.items) }
        ensures stack { OnOk result
            (self.new.stack.items
            ≡ take (at self.old.bounds.items (length self.old.bounds.items - 1))
            self.old.stack.items) }
        ensures numbers { OnOk result (AreMarked self.old.stack.items (at self.old.bounds.items (length self.old.bounds.items - 1)) self.old.count
            self.old.numbers.items self.new.numbers.items) }
        ensures few { OnOk result (self.old.count + 1 < none) }
        ensures count { OnOk result (self.new.count ≡ self.old.count + 1) }
        ensures path { OnOk result (self.new.path.items ≡ self.old.path.items) }
        ensures places { OnOk result (self.new.places.items ≡ self.old.places.items) }
        ensures rest { OnOk result (self.new.rest.items ≡ self.old.rest.items) }
    {
        let count = next_number(self.count as usize + 1)?;
        let last = self.bounds.len() - 1;
        let start = self.bounds.as_slice()[last] as usize;
        mark(&self.stack, start, self.count, &mut self.numbers);
        self.bounds.truncate(last);
        self.stack.truncate(start);
        self.count = count;
        Ok(())
    }

    /// The last place on the path, if it is in the last group.
    fn last_place(&self) -> Option<u32>
        requires { 0 < length self.now.bounds.items }
        ensures some { IfSome result (λ place. (0 < length self.now.path.items) × (at self.now.path.items (length self.now.path.items - 1) ≡ place)
            × (at self.now.bounds.items (length self.now.bounds.items - 1) ≤ place)) }
        ensures none { IfNone result (0 < length self.now.path.items
            → at self.now.path.items (length self.now.path.items - 1) < at self.now.bounds.items (length self.now.bounds.items - 1)) }
    {
        last_from(&self.path, last_of(&self.bounds))
    }

    /// Goes on by an arc out of the last group, or makes it a component where it has none left.
    fn step(&mut self, starts: &[usize], targets: &[u32]) -> Result<(), Memory>
        requires graph { IsGraph starts.now targets.now (length self.old.rest.items) }
        requires way { IsUnderWay starts.now targets.now (length self.old.rest.items)
            (state_of self.old) }
        requires some { 0 < length self.old.bounds.items }
        ensures { OnOk result
            (Stepped starts.now targets.now (length self.old.rest.items) (state_of self.old)
            (state_of self.new)) }
    {
        match self.last_place() {
            Some(place) => {
                self.explore(starts, targets, place)?;
                Ok(())
            }
            None => {
                self.close()?;
                Ok(())
            }
        }
    }

    /// Searches from the node, unless it has been seen.
    pub fn search_from(
        &mut self,
        starts: &[usize],
        targets: &[u32],
        root: u32,
    ) -> Result<(), Memory>
        requires graph { IsGraph starts.now targets.now (length self.old.rest.items) }
        requires way { IsUnderWay starts.now targets.now (length self.old.rest.items)
            (state_of self.old) }
        requires ended { length self.old.bounds.items ≡ 0 }
        requires root { root < length self.old.rest.items }
        ensures { OnOk result
            (SearchedFrom starts.now targets.now (length self.old.rest.items) (state_of self.old)
            (state_of self.new) root) }
    {
        if self.is_seen(root) {
            return Ok(());
        }
        self.enter(root)?;
        while self.bounds.len() > 0 {
            self.step(starts, targets)?;
        }
        Ok(())
    }
}
