//! The relation, as rows of bits.

ghost use Rattle.std.specs.Prelude.{◌≡◌, ◌+◌, ◌/◌, ◌<◌, ◌↔◌, ◌⊎◌, ℕ, [], length, IsTrue, IfOk};
ghost use Rattle.auto_core.specs.Game.{Holds, Strict};
ghost use Rattle.auto_core.specs.Rows.{HasBit};
ghost use Rattle.bit_rel.specs.Relation.{IsRelation, Adds, Removes, IsClosed, IsStrictPart};

use crate::closing;
use auto_core::{Memory, rows};
use std::alloc::Global;
use std::marker::Model;

/// A relation on the states below a number. Contracts see it as a `Relation`: that number and the
/// list of the pairs, ascending.
#[derive(Debug, Drop)]
pub struct Rel {
    count: u32,
    width: usize,
    table: Vec<u64>,
}

impl Model for Rel {
    ghost use Rattle.bit_rel.specs.Relation.{Relation};

    ghost Value = { Relation };

    ghost use Rattle.bit_rel.specs.Stored.{relation_of, IsStoredRelation};

    ghost view = { relation_of };

    ghost invariant = { IsStoredRelation };
}

impl Rel {
    /// The relation on `n` states that holds no pair.
    pub fn empty(alloc: Global, n: u32) -> Result<Rel, Memory>
        ensures { IfOk result (λ r. r ≡ record { size = n; pairs = [] }) }
    {
        let width = rows::words_for(n);
        let table = vec![in alloc; 0; n as usize * width]?;
        Ok(Rel {
            count: n,
            width,
            table,
        })
    }

    /// The same relation once more.
    pub fn copied(&self, alloc: Global) -> Result<Rel, Memory>
        ensures same { IfOk result (λ r. r ≡ self.now) }
        ensures valid { IfOk result (λ _. IsRelation self.now) }
    {
        Ok(Rel {
            count: self.count,
            width: self.width,
            table: self.table.to_vec(alloc)?,
        })
    }

    /// The number of states.
    pub fn size(&self) -> u32
        ensures count { result ≡ self.now.size }
        ensures valid { IsRelation self.now }
    {
        self.count
    }

    /// Tells whether the relation holds the pair.
    pub fn get(&self, p: u32, q: u32) -> bool
        requires left { p < self.now.size }
        requires right { q < self.now.size }
        ensures told { IsTrue result ↔ Holds self.now.pairs p q }
        ensures valid { IsRelation self.now }
    {
        rows::has_cell(&self.table, self.width, p as usize, q as usize)
    }

    /// Adds the pair, and changes nothing else.
    pub fn set(&mut self, p: u32, q: u32)
        requires left { p < self.old.size }
        requires right { q < self.old.size }
        ensures pairs { Adds self.old self.new p q }
        ensures valid { IsRelation self.new }
    {
        rows::set_cell(&mut self.table, self.width, p as usize, q as usize);
    }

    /// Takes the pair away, and changes nothing else.
    pub fn clear(&mut self, p: u32, q: u32)
        requires left { p < self.old.size }
        requires right { q < self.old.size }
        ensures pairs { Removes self.old self.new p q }
        ensures valid { IsRelation self.new }
    {
        rows::clear_cell(&mut self.table, self.width, p as usize, q as usize);
    }

    /// The states that the relation holds `p` with, as a row of bits in words of 64.
    pub fn row(&self, p: u32) -> &[u64]
        requires { p < self.now.size }
        ensures len { length result.now ≡ (self.now.size + 63) / 64 }
        ensures bits { (q : ℕ) → HasBit result.now q ↔ Holds self.now.pairs p q }
        ensures valid { IsRelation self.now }
    {
        rows::row_at(&self.table, self.width, p as usize)
    }

    /// Makes the relation its reflexive and transitive closure on its states.
    pub fn close(&mut self)
        ensures closed { IsClosed self.old self.new }
        ensures valid { IsRelation self.new }
    {
        closing::close_table(&mut self.table, self.count, self.width);
    }

    /// Tells whether the relation holds the pair both ways.
    pub fn both_ways(&self, p: u32, q: u32) -> bool
        requires left { p < self.now.size }
        requires right { q < self.now.size }
        ensures told { IsTrue result ↔ (Holds self.now.pairs p q × Holds self.now.pairs q p) }
        ensures valid { IsRelation self.now }
    {
        self.get(p, q) && self.get(q, p)
    }

    fn strictly(&self, p: u32, q: u32) -> bool
        requires left { p < self.now.size }
        requires right { q < self.now.size }
        ensures { IsTrue result ↔ Strict (Holds self.now.pairs) p q }
    {
        self.get(p, q) && !self.get(q, p)
    }

    fn add_strict(&self, part: &mut Rel, p: u32)
        requires equal { part.old.size ≡ self.now.size }
        requires left { p < self.now.size }
        ensures size { part.new.size ≡ part.old.size }
        ensures pairs { (r s : ℕ)
            → Holds part.new.pairs r s
            ↔ (Holds part.old.pairs r s ⊎ ((r ≡ p) × Strict (Holds self.now.pairs) r s)) }
    {
        for q in 0..self.size() {
            if self.strictly(p, q) {
                part.set(p, q);
            }
        }
    }

    /// The strict part: the pairs that the relation holds one way and not the other.
    pub fn strict(&self, alloc: Global) -> Result<Rel, Memory>
        ensures { IfOk result (IsStrictPart self.now) }
    {
        let mut part = Rel::empty(alloc, self.size())?;
        for p in 0..self.size() {
            self.add_strict(&mut part, p);
        }
        Ok(part)
    }
}
