//! Classes that are split by the signs of their members.

ghost use Rattle.std.specs.Prelude.{◌≡◌, ◌+◌, ◌^◌, ◌<◌, ◌≤◌, ℕ, [], ◌∷◌, ◌++◌, length, IfOk, IfSome, OnOk};
ghost use Rattle.auto_core.specs.Quotient.{class_of};
ghost use Rattle.evidence.specs.Tables.{numbers_at};
ghost use Rattle.bisimulation.specs.declared.partition.Partition.{Partition};
ghost use Rattle.bisimulation.specs.Rounds.{AreBelow, IsLaidOut, AreListed, IsPutInPlace, IsRelisted, HasAllOf, IsRegarded, IsSplitting, HasClassFor, IsSplit};

use crate::gathering::{common_sign, extend, gather};
use crate::signing::packed;
use auto_core::Memory;
use indexmap::IndexSet;
use std::alloc::Global;

/// The classes so far.
#[derive(Drop)]
pub(crate) struct Partition {
    /// The class of each state.
    pub of: Vec<u32>,
    /// The sign of each state, as it was when it was last signed.
    pub signs: Vec<u32>,
    /// For each class the sign of those members that keep it.
    pub kept: Vec<u32>,
    /// For each class a list that has all its members, and maybe states that have left it.
    pub members: Vec<Vec<u32>>,
    /// For each class how many of its members are due, while states are listed.
    pub dues: Vec<u32>,
}

/// Counts the due members of each class.
fn count_dues(dues: &mut Vec<u32>, of: &[u32], due: &[u32])
    requires due { AreBelow (length of.now) due.now }
    requires classes { (p : ℕ) → p < length of.now → class_of of.now p < length dues.old.items }
    ensures { length dues.new.items ≡ length dues.old.items }
{
    for i in 0..due.len() {
        let class = of[due[i] as usize] as usize;
        let count = dues.as_slice()[class];
        dues[class] = count.saturating_add(1);
    }
}

/// The number of a class. Refused where it is 2^32 or more, as that of no class is.
fn class_number(number: usize) -> Result<u32, Memory>
    ensures is { IfOk result (λ class. class ≡ number) }
    ensures fits { IfOk result (λ class. class < 2 ^ 32) }
{
    if number > 0xffff_ffff {
        return Err(Memory);
    }
    Ok(number as u32)
}

impl Partition {
    /// All members of the class, if there are not more than the limit.
    fn members_of(
        &mut self,
        alloc: Global,
        class: u32,
        limit: usize,
    ) -> Result<Option<Vec<u32>>, Memory>
        requires laid { IsLaidOut (length self.old.of.items) self.old }
        requires class { class < length self.old.kept.items }
        ensures lists { OnOk result (IsRelisted (length self.old.of.items) self.old self.new) }
        ensures members { IfOk
            result (λ found.
            IfSome found (λ v. HasAllOf (length self.old.of.items) self.old class v.items)) }
    {
        let found = gather(
            alloc,
            &mut self.members[class as usize],
            &self.of,
            class,
            limit,
        )?;
        extend(&mut self.members[class as usize], &found)?;
        if found.len() > limit {
            return Ok(None);
        }
        Ok(Some(found))
    }

    /// Lists all members of the class, if there are not more than the limit, and has it kept by
    /// those of the commonest sign.
    fn regard(
        &mut self,
        alloc: Global,
        class: u32,
        limit: usize,
        listed: &mut Vec<u32>,
    ) -> Result<(), Memory>
        requires laid { IsLaidOut (length self.old.of.items) self.old }
        requires class { class < length self.old.kept.items }
        requires below { AreBelow (length self.old.of.items) listed.old.items }
        ensures { OnOk result
            (IsRegarded (length self.old.of.items) self.old self.new listed.old.items
            listed.new.items) }
    {
        match self.members_of(alloc, class, limit)? {
            Some(found) => {
                self.kept[class as usize] = common_sign(alloc, &self.signs, &found)?;
                extend(listed, &found)?;
                Ok(())
            }
            None => Ok(()),
        }
    }

    /// The same for a class with due members that have not been regarded yet; of at most twice as
    /// many members.
    fn regard_once(
        &mut self,
        alloc: Global,
        class: u32,
        listed: &mut Vec<u32>,
    ) -> Result<(), Memory>
        requires laid { IsLaidOut (length self.old.of.items) self.old }
        requires class { class < length self.old.kept.items }
        requires below { AreBelow (length self.old.of.items) listed.old.items }
        ensures { OnOk result
            (IsRegarded (length self.old.of.items) self.old self.new listed.old.items
            listed.new.items) }
    {
        let count = self.dues.as_slice()[class as usize];
        if count == 0 {
            return Ok(());
        }
        self.dues[class as usize] = 0;
        self.regard(alloc, class, count as usize * 2, listed)
    }

    /// Lists the due states, and all members of the classes of which at least half are due.
    pub fn list(&mut self, alloc: Global, due: &[u32]) -> Result<Vec<u32>, Memory>
        requires laid { IsLaidOut (length self.old.of.items) self.old }
        requires below { AreBelow (length self.old.of.items) due.now }
        requires kept { AreListed (length self.old.of.items) self.old due.now }
        ensures of { OnOk result (self.new.of.items ≡ self.old.of.items) }
        ensures signs { OnOk result (self.new.signs.items ≡ self.old.signs.items) }
        ensures laid { OnOk result (IsLaidOut (length self.old.of.items) self.new) }
        ensures below { IfOk result (λ v. AreBelow (length self.old.of.items) v.items) }
        ensures kept { IfOk result (λ v. AreListed (length self.old.of.items) self.new v.items) }
    {
        count_dues(&mut self.dues, &self.of, due);
        let mut listed = Vec::new(alloc);
        for i in 0..due.len() {
            let class = self.of.as_slice()[due[i] as usize];
            listed.push(due[i])?;
            self.regard_once(alloc, class, &mut listed)?;
        }
        Ok(listed)
    }

    /// Adds a class without members.
    fn add_class(&mut self, alloc: Global, sign: u32) -> Result<(), Memory>
        ensures of { OnOk result (self.new.of.items ≡ self.old.of.items) }
        ensures signs { OnOk result (self.new.signs.items ≡ self.old.signs.items) }
        ensures kept { OnOk result (self.new.kept.items ≡ self.old.kept.items ++ sign ∷ []) }
        ensures dues { OnOk result (length self.new.dues.items ≡ length self.old.dues.items + 1) }
        ensures members { OnOk result
            (length self.new.members.items ≡ length self.old.members.items + 1) }
        ensures lists { OnOk result
            ((c : ℕ) → numbers_at self.new.members.items c ≡ numbers_at self.old.members.items c) }
    {
        self.kept.push(sign)?;
        self.members.push(Vec::new(alloc))?;
        self.dues.push(0)?;
        Ok(())
    }

    /// The class of the part, which is made unless it is there.
    fn class_for(
        &mut self,
        alloc: Global,
        parts: &mut IndexSet<u64>,
        class: u32,
        sign: u32,
    ) -> Result<u32, Memory>
        requires { length parts.old.keys ≤ length self.old.kept.items }
        ensures class { IfOk result
            (HasClassFor self.old self.new parts.old.keys parts.new.keys class sign) }
        ensures fits { IfOk result (λ made. made < 2 ^ 32) }
        ensures sign_fits { OnOk result (sign < 2 ^ 32) }
    {
        let (number, is_new) = parts.insert_full(packed(class, sign))?;
        if !is_new {
            let made = class_number(self.kept.len() - parts.len() + number)?;
            return Ok(made);
        }
        self.add_class(alloc, sign)?;
        let made = class_number(self.kept.len() - parts.len() + number)?;
        Ok(made)
    }

    /// Moves the state to the class of its part, and lists it, unless its sign keeps its class.
    fn move_state(
        &mut self,
        alloc: Global,
        parts: &mut IndexSet<u64>,
        state: u32,
        moved: &mut Vec<u32>,
    ) -> Result<(), Memory>
        requires state { state < length self.old.of.items }
        requires laid { IsLaidOut (length self.old.of.items) self.old }
        requires parts { length parts.old.keys ≤ length self.old.kept.items }
        ensures { OnOk result
            ((first : Partition) → IsSplitting (length self.old.of.items) first self.old parts.old.keys moved.old.items
            → IsPutInPlace (length self.old.of.items) first self.old self.new parts.new.keys moved.new.items state) }
    {
        let class = self.of.as_slice()[state as usize];
        let sign = self.signs.as_slice()[state as usize];
        if sign == self.kept.as_slice()[class as usize] {
            return Ok(());
        }
        let class = self.class_for(alloc, parts, class, sign)?;
        self.of[state as usize] = class;
        self.members[class as usize].push(state)?;
        moved.push(state)?;
        Ok(())
    }

    /// Splits the classes by the signs; the states that have moved.
    pub fn split(&mut self, alloc: Global, listed: &[u32]) -> Result<Vec<u32>, Memory>
        requires laid { IsLaidOut (length self.old.of.items) self.old }
        requires below { AreBelow (length self.old.of.items) listed.now }
        requires kept { AreListed (length self.old.of.items) self.old listed.now }
        ensures { IfOk result (λ v. IsSplit (length self.old.of.items) self.old self.new v.items) }
    {
        let mut parts = IndexSet::new(alloc);
        let mut moved = Vec::new(alloc);
        for i in 0..listed.len() {
            self.move_state(alloc, &mut parts, listed[i], &mut moved)?;
        }
        Ok(moved)
    }
}
