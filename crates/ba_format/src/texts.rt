//! Byte texts, numbered in the order in which they came.

ghost use Rattle.std.specs.Prelude.{◌≡◌, ◌+◌, ◌-◌, ◌^◌, ◌<◌, [], ◌∷◌, ◌++◌, length, slice_index_or, Contains, OnOk, OnErr, MatchOption, true, false};
ghost use Rattle.std.specs.List.{list_any};
ghost use Rattle.ba_format.specs.Sight.{AreDifferent, same_text, place_in};

use auto_core::Memory;
use indexmap::IndexSet;
use std::alloc::Global;
use std::marker::Model;

/// A list of byte texts, all different, seen by contracts as the list. A text is found in the time
/// that its length takes.
#[derive(Debug, Drop)]
pub struct Texts {
    texts: IndexSet<Vec<u8>>,
}

impl Model for Texts {
    ghost use Rattle.std.specs.Prelude.{ℕ, List, map};
    ghost use Rattle.ba_format.specs.Sight.{AreTexts};

    ghost Value = { List (List ℕ) };

    ghost view = { λ t. map (λ text. text.items) t.texts.keys };

    ghost invariant = { λ t. AreTexts (map (λ text. text.items) t.texts.keys) };
}

impl Texts {
    /// No text yet. It takes no memory.
    pub fn new(alloc: Global) -> Texts
        ensures { result ≡ [] }
    {
        Texts {
            texts: IndexSet::new(alloc),
        }
    }

    /// Appends a text that is not there yet. Refused, it changes nothing.
    pub fn add(&mut self, text: &[u8]) -> Result<(), Memory>
        requires new { Contains self.old text.now → ⊥ }
        requires room { length self.old < 2 ^ 32 - 1 }
        ensures ok { OnOk result (self.new ≡ self.old ++ text.now ∷ []) }
        ensures err { OnErr result (self.new ≡ self.old) }
    {
        let text = text.to_vec(*self.texts.allocator())?;
        self.texts.insert(text)?;
        Ok(())
    }

    /// The number of texts.
    pub fn count(&self) -> u32
        ensures count { result ≡ length self.now }
        ensures different { AreDifferent self.now }
    {
        self.texts.len() as u32
    }

    /// The text with this number.
    pub fn get(&self, at: u32) -> &[u8]
        requires { at < length self.now }
        ensures { result.now ≡ slice_index_or self.now at [] }
    {
        self.texts.as_slice()[at as usize].as_slice()
    }

    /// Whether a text is there.
    pub(crate) fn has(&self, text: &[u8]) -> bool
        ensures { result ≡ list_any (same_text text.now) self.now }
    {
        self.texts.contains(text)
    }

    /// The number of a text, if it is there.
    pub(crate) fn find(&self, text: &[u8]) -> Option<u32>
        ensures { MatchOption result
            (list_any (same_text text.now) self.now ≡ false) (λ at.
            (list_any (same_text text.now) self.now ≡ true)
            × (at ≡ place_in same_text self.now text.now)) }
    {
        let at = self.texts.get_index_of(text)?;
        Some(at as u32)
    }
}
