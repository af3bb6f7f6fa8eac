//! The different graphs of words, each with a number, and what letters lead to from them,
//! remembered: many elements have one graph.

ghost use Rattle.std.specs.Prelude.{◌≡◌, ◌+◌, ◌*◌, ◌^◌, ◌<◌, ◌≤◌, [], length, IfOk, IfSome, OnErr};
ghost use Rattle.std.specs.FinMap as map;
ghost use Rattle.auto_core.specs.Automaton.{Automaton};
ghost use Rattle.auto_core.specs.Graph.{letter_graph, extended};
ghost use Rattle.bit_rel.specs.Relation.{IsPreorder};
ghost use Rattle.graph_rows.specs.Block.{block_graph, width_of, IsFormed};
ghost use Rattle.shared_graphs.specs.GraphBlocks.{SamePool};
ghost use Rattle.shared_graphs.specs.Graphs.{block_at, AsTheyAre, HasAddedGraph, HasGrown, HasNumber, IsBlockOf, IsGraphOf, IsStock, IsThere, Keeping, MinimisedBy, kept_under};
ghost use Rattle.shared_graphs.specs.Memo.{TellsNothingNew};

use crate::graph_blocks::GraphBlocks;
use crate::memo::{Answer, Memo};
use auto_core::{Auto, Memory};
use bit_rel::Rel;
use graph_pool::Pool;
use graph_rows::are_equal;
use std::alloc::Global;

/// How many places there are for the numbers of graphs.
const PLACES: usize = 4096;

/// How many graphs of letters are remembered.
const LETTERS: usize = 256;

/// How many extensions of graphs by letters are remembered at first, and at most.
const STEPS: usize = 1024;

const MOST_STEPS: usize = 65536;

/// Under what the numbers of letters are remembered: of their own graphs, and of those that stand
/// for them.
const OWN: u32 = 0;

const KEPT: u32 = 1;

/// Of a graph, how an equal one is looked for.
#[derive(Debug, Drop)]
pub struct Link {
    /// The mixed words of its block.
    pub mixed: u64,
    /// The number of the graph before it at the same place, which need not be there.
    pub before: u32,
}

/// Graphs that stand once each, by their numbers.
#[derive(Drop)]
pub struct Graphs {
    /// Their blocks.
    pub graphs: GraphBlocks,
    /// Their links.
    pub links: Vec<Link>,
    /// For each place of the table the number of the graph that came there last.
    pub latest: Vec<u32>,
    /// The graphs of letters.
    pub letters: Memo,
    /// The graphs extended by letters.
    pub steps: Memo,
    /// Room for the block of a letter while a graph is extended.
    pub letter_block: Vec<u64>,
}

/// Two words mixed into what is mixed already.
fn mix(mixed: u64, word: u64, other: u64) -> u64 {
    let both = word ^ other.wrapping_mul(0xC2B2AE3D27D4EB4F);
    let product = (mixed ^ both).wrapping_mul(0x9E3779B97F4A7C15);
    product ^ (product >> 29)
}

/// The words of the row mixed into what is mixed already, one by one.
fn mixed_with(mixed: u64, row: &[u64]) -> u64 {
    let mut all = mixed;
    for word in row {
        all = mix(all, *word, 0);
    }
    all
}

/// The words of the block, mixed: of each four the first two, and the last two apart from these,
/// and at last both.
fn mixed_of(block: &[u64]) -> u64 {
    let mut front = 0;
    let mut back = 1;
    let quads = block.len() / 4;
    for i in 0..quads {
        let quad = &block[4 * i..4 * i + 4];
        front = mix(front, quad[0], quad[1]);
        back = mix(back, quad[2], quad[3]);
    }
    mixed_with(mix(front, back, 0), &block[4 * quads..])
}

impl Graphs {
    /// No graphs, whose blocks are to be in this pool, which is taken.
    pub fn new(alloc: Global, pool: &mut Pool) -> Result<Graphs, Memory>
        requires room { map.len pool.old.blocks + 1 < 2 ^ 32 }
        ensures stock { IfOk
            result (λ g.
            (B : Automaton) (keeping : Keeping) → pool.old.words ≡ 2 * B.states * width_of B.states
            → IsStock B keeping g) }
        ensures words { IfOk result (λ g. g.graphs.words ≡ pool.old.words) }
        ensures rest { IfOk result (λ g. g.graphs.rest ≡ pool.old.blocks) }
        ensures free { IfOk result (λ g. g.graphs.free_before ≡ pool.old.free) }
        ensures none { IfOk result (λ g. g.graphs.items ≡ []) }
        ensures left { IfOk
            result (λ _.
            (pool.new.words ≡ pool.old.words) × (pool.new.blocks ≡ map.empty)
            × (pool.new.free ≡ 0)) }
        ensures refused { OnErr result (pool.new ≡ pool.old) }
    {
        let latest = vec![in alloc; u32::MAX; PLACES]?;
        let letters = Memo::new(alloc, LETTERS)?;
        let steps = Memo::new(alloc, STEPS)?;
        let letter_block = vec![in alloc; 0; pool.words()]?;
        Ok(Graphs {
            graphs: GraphBlocks::new(alloc, pool)?,
            links: Vec::new(alloc),
            latest,
            letters,
            steps,
            letter_block,
        })
    }

    /// The number of the graph whose block is the fresh one, if it is there.
    fn known(&self, place: usize, mixed: u64) -> Option<u32>
        ensures { IfSome result (IsThere self.now.graphs.items self.now.graphs.fresh) }
    {
        if place >= self.latest.len() {
            return None;
        }
        let mut at = self.latest[place];
        for _graph in 0..self.links.len() {
            if at as usize >= self.links.len() {
                return None;
            }
            let link = &self.links[at as usize];
            if link.mixed == mixed && self.graphs.is_fresh(at) {
                return Some(at);
            }
            at = link.before;
        }
        None
    }

    /// Gives the place to the number, and tells the one that had it.
    fn take_place(&mut self, place: usize, number: u32) -> u32
        ensures graphs { self.new.graphs ≡ self.old.graphs }
        ensures letters { self.new.letters ≡ self.old.letters }
        ensures steps { self.new.steps ≡ self.old.steps }
        ensures letter_block { self.new.letter_block ≡ self.old.letter_block }
    {
        if place >= self.latest.len() {
            return u32::MAX;
        }
        let before = self.latest[place];
        self.latest[place] = number;
        before
    }

    /// Adds the graph whose block is the fresh one, and gives its number.
    fn add(&mut self, place: usize, mixed: u64) -> Result<u32, Memory>
        ensures pool { SamePool self.old.graphs self.new.graphs }
        ensures added { IfOk result (HasAddedGraph self.old.graphs.fresh self.old self.new) }
    {
        let count = self.graphs.len();
        if count >= u32::MAX as usize {
            return Err(Memory);
        }
        let number = count as u32;
        self.graphs.keep()?;
        let before = self.take_place(place, number);
        self.links.push(Link { mixed, before })?;
        Ok(number)
    }

    /// The number of the graph whose block is the fresh one, which is added if it is not there. A
    /// block that is there already is left to the next graph.
    fn number_of_fresh(&mut self) -> Result<u32, Memory>
        ensures pool { SamePool self.old.graphs self.new.graphs }
        ensures number { IfOk result (HasNumber self.old.graphs.fresh self.old self.new) }
    {
        let mixed = mixed_of(self.graphs.fresh_block());
        let place = (mixed % PLACES as u64) as usize;
        match self.known(place, mixed) {
            Some(number) => Ok(number),
            None => self.add(place, mixed),
        }
    }

    /// The number of the graph with this block, which is added if it is not there.
    pub fn number_of(&mut self, block: &[u64]) -> Result<u32, Memory>
        requires { length block.now ≡ self.old.graphs.words }
        ensures pool { SamePool self.old.graphs self.new.graphs }
        ensures number { IfOk result (HasNumber block.now self.old self.new) }
    {
        self.graphs.write(block);
        self.number_of_fresh()
    }

    /// Gives the graph in the fresh block its number, and remembers it as that of the letter: under
    /// `OWN` where the graph is the letter's own one, under `KEPT` where it stands for that.
    fn take_letter(&mut self, under: u32, label: u32) -> Result<u32, Memory>
        ensures pool { SamePool self.old.graphs self.new.graphs }
        ensures stock { IfOk result (λ _. (B : Automaton) (keeping : Keeping) → IsStock B keeping self.old
            → IsBlockOf B (kept_under keeping under) (letter_graph B label) self.old.graphs.fresh → IsStock B keeping self.new) }
        ensures grown { IfOk result (λ _. HasGrown self.old.graphs.items self.new.graphs.items) }
        ensures is { IfOk result (λ k. (B : Automaton) (keeping : Keeping) → IsBlockOf B keeping (letter_graph B label) self.old.graphs.fresh
            → IsGraphOf B keeping (letter_graph B label) self.new.graphs.items k) }
    {
        let number = self.number_of_fresh()?;
        self.letters.note(under, label, Answer::Number(number));
        Ok(number)
    }

    /// The number of the graph of the letter.
    pub fn letter(&mut self, second: &Auto, label: u32) -> Result<u32, Memory>
        requires { IsStock second.now AsTheyAre self.old }
        ensures pool { SamePool self.old.graphs self.new.graphs }
        ensures stock { IfOk result (λ _. IsStock second.now AsTheyAre self.new) }
        ensures grown { IfOk result (λ _. HasGrown self.old.graphs.items self.new.graphs.items) }
        ensures is { IfOk result
            (IsGraphOf second.now AsTheyAre (letter_graph second.now label) self.new.graphs.items) }
    {
        if let Some(Answer::Number(number)) = self.letters.find(OWN, label) {
            return Ok(number);
        }
        self.graphs.write_letter(second, label);
        self.take_letter(OWN, label)
    }

    /// Remembers the number of the graph that stands for that of the letter as that of its own
    /// graph, if it is that graph.
    fn note_own(&mut self, second: &Auto, label: u32, number: u32)
        requires within { number < length self.old.graphs.items }
        requires stock { (keeping : Keeping) × IsStock second.now keeping self.old }
        ensures graphs { self.new.graphs ≡ self.old.graphs }
        ensures stock { (keeping : Keeping) → IsStock second.now keeping self.old
            → IsStock second.now keeping self.new }
    {
        graph_rows::letter(second, label, &mut self.letter_block);
        if are_equal(self.graphs.block(number as usize), &self.letter_block) {
            self.letters.note(OWN, label, Answer::Number(number));
        }
    }

    /// The number of the graph of the letter, minimised by the order.
    pub fn minimised_letter(
        &mut self,
        second: &Auto,
        order: &Rel,
        label: u32,
    ) -> Result<u32, Memory>
        requires order { IsPreorder second.now.states order.now.pairs }
        requires size { order.now.size ≡ second.now.states }
        requires stock { IsStock second.now (MinimisedBy order.now.pairs) self.old }
        ensures pool { SamePool self.old.graphs self.new.graphs }
        ensures stock { IfOk
            result (λ _. IsStock second.now (MinimisedBy order.now.pairs) self.new) }
        ensures grown { IfOk result (λ _. HasGrown self.old.graphs.items self.new.graphs.items) }
        ensures is { IfOk result
            (IsGraphOf second.now (MinimisedBy order.now.pairs) (letter_graph second.now label)
            self.new.graphs.items) }
    {
        if let Some(Answer::Number(number)) = self.letters.find(KEPT, label) {
            return Ok(number);
        }
        self.graphs.write_letter(second, label);
        self.graphs.minimise(order);
        let number = self.take_letter(KEPT, label)?;
        self.note_own(second, label, number);
        Ok(number)
    }

    /// Writes the letter's own graph beside the blocks. It is mostly remembered.
    fn write_letter_block(&mut self, second: &Auto, label: u32)
        requires { (keeping : Keeping) × IsStock second.now keeping self.old }
        ensures graphs { self.new.graphs ≡ self.old.graphs }
        ensures letters { self.new.letters ≡ self.old.letters }
        ensures steps { self.new.steps ≡ self.old.steps }
        ensures letter_block { IsBlockOf second.now AsTheyAre (letter_graph second.now label)
            self.new.letter_block.items }
    {
        if let Some(Answer::Number(number)) = self.letters.find(OWN, label) {
            self.letter_block
                .copy_from_slice(self.graphs.block(number as usize));
        } else {
            graph_rows::letter(second, label, &mut self.letter_block);
        }
    }

    /// Writes the graph with this number, extended by the letter, into the fresh block.
    fn write_extended(&mut self, second: &Auto, from: u32, label: u32)
        requires stock { (keeping : Keeping) × IsStock second.now keeping self.old }
        requires formed { IsFormed second.now.states (block_at self.old.graphs.items from) }
        ensures pool { SamePool self.old.graphs self.new.graphs }
        ensures items { self.new.graphs.items ≡ self.old.graphs.items }
        ensures letters { self.new.letters ≡ self.old.letters }
        ensures steps { self.new.steps ≡ self.old.steps }
        ensures letter_block { length self.new.letter_block.items ≡ self.old.graphs.words }
        ensures fresh { IsBlockOf second.now AsTheyAre
            (extended second.now
            (block_graph second.now.states (block_at self.old.graphs.items from)) label)
            self.new.graphs.fresh }
    {
        self.write_letter_block(second, label);
        self.graphs
            .write_extension(second, label, &self.letter_block, from);
    }

    /// Makes room for more extensions, where many graphs have come.
    fn make_room(&mut self, alloc: Global) -> Result<(), Memory>
        ensures graphs { self.new.graphs ≡ self.old.graphs }
        ensures letters { self.new.letters ≡ self.old.letters }
        ensures letter_block { self.new.letter_block ≡ self.old.letter_block }
        ensures steps { IfOk
            result (λ _. TellsNothingNew self.old.steps.told.items self.new.steps.told.items) }
    {
        let places = self.steps.told.len();
        if places < MOST_STEPS && self.graphs.len() > places / 2 {
            self.steps.grow(alloc, MOST_STEPS.min(places * 8))?;
        }
        Ok(())
    }

    /// Gives the graph in the fresh block, which stands for the graph `from` extended by the
    /// letter, its number, and remembers it.
    fn take_step(&mut self, alloc: Global, from: u32, label: u32) -> Result<u32, Memory>
        ensures pool { SamePool self.old.graphs self.new.graphs }
        ensures stock { IfOk result (λ _. (B : Automaton) (keeping : Keeping) → IsStock B keeping self.old → IsFormed B.states (block_at self.old.graphs.items from)
            → IsBlockOf B keeping (extended B (block_graph B.states (block_at self.old.graphs.items from)) label) self.old.graphs.fresh → IsStock B keeping self.new) }
        ensures grown { IfOk result (λ _. HasGrown self.old.graphs.items self.new.graphs.items) }
        ensures is { IfOk result (λ k. (B : Automaton) (keeping : Keeping) → IsBlockOf B keeping (extended B (block_graph B.states (block_at self.old.graphs.items from)) label) self.old.graphs.fresh
            → IsGraphOf B keeping (extended B (block_graph B.states (block_at self.old.graphs.items from)) label) self.new.graphs.items k) }
    {
        let number = self.number_of_fresh()?;
        self.make_room(alloc)?;
        self.steps.note(from, label, Answer::Number(number));
        Ok(number)
    }

    /// The number of the graph, extended by the letter.
    pub fn after(
        &mut self,
        alloc: Global,
        second: &Auto,
        from: u32,
        label: u32,
    ) -> Result<u32, Memory>
        requires stock { IsStock second.now AsTheyAre self.old }
        requires formed { IsFormed second.now.states (block_at self.old.graphs.items from) }
        ensures pool { SamePool self.old.graphs self.new.graphs }
        ensures stock { IfOk result (λ _. IsStock second.now AsTheyAre self.new) }
        ensures grown { IfOk result (λ _. HasGrown self.old.graphs.items self.new.graphs.items) }
        ensures is { IfOk result
            (IsGraphOf second.now AsTheyAre
            (extended second.now
            (block_graph second.now.states (block_at self.old.graphs.items from)) label)
            self.new.graphs.items) }
    {
        if let Some(Answer::Number(number)) = self.steps.find(from, label) {
            return Ok(number);
        }
        self.write_extended(second, from, label);
        self.take_step(alloc, from, label)
    }

    /// The number of the graph, extended by the letter and minimised by the order.
    pub fn minimised_after(
        &mut self,
        alloc: Global,
        second: &Auto,
        order: &Rel,
        from: u32,
        label: u32,
    ) -> Result<u32, Memory>
        requires order { IsPreorder second.now.states order.now.pairs }
        requires size { order.now.size ≡ second.now.states }
        requires stock { IsStock second.now (MinimisedBy order.now.pairs) self.old }
        requires formed { IsFormed second.now.states (block_at self.old.graphs.items from) }
        ensures pool { SamePool self.old.graphs self.new.graphs }
        ensures stock { IfOk
            result (λ _. IsStock second.now (MinimisedBy order.now.pairs) self.new) }
        ensures grown { IfOk result (λ _. HasGrown self.old.graphs.items self.new.graphs.items) }
        ensures is { IfOk result
            (IsGraphOf second.now (MinimisedBy order.now.pairs)
            (extended second.now
            (block_graph second.now.states (block_at self.old.graphs.items from)) label)
            self.new.graphs.items) }
    {
        if let Some(Answer::Number(number)) = self.steps.find(from, label) {
            return Ok(number);
        }
        self.write_extended(second, from, label);
        self.graphs.minimise(order);
        self.take_step(alloc, from, label)
    }

    /// The pool, all blocks of graphs given back.
    pub fn into_pool(self) -> Pool
        ensures words { result.words ≡ self.graphs.words }
        ensures blocks { result.blocks ≡ self.graphs.rest }
        ensures free { length self.graphs.items < result.free }
        ensures no_fewer { self.graphs.free_before ≤ result.free }
    {
        self.graphs.into_pool()
    }
}
