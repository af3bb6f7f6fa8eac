//! What a decision is asked for beside the two automata.

use auto_core::Mode;

/// The terms of a decision.
#[derive(Clone, Copy, Debug)]
pub struct Terms {
    /// Whether lassos or finite words are compared.
    pub mode: Mode,
    /// The lookahead of the reductions, from 1 to 6.
    pub look: u32,
    /// How many letters are asked for in their delayed games, from 1 to 4, in version 1 one.
    pub letters: u32,
    /// The version of the certificate, 1 or 2.
    pub version: u32,
    /// How many elements may enter the search, dropped ones among them.
    pub limit: u32,
}
