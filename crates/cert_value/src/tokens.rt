//! A line cut at its spaces.

ghost use Rattle.std.specs.Prelude.{◌≡◌, ◌∷◌, [], ◌==◌, drop, position, MatchOption};
ghost use Rattle.cert_value.specs.Tokens.{tokens_of, tokens_left};

use std::marker::Model;

/// The tokens of a line that are left, seen by contracts as their list.
#[derive(Drop)]
pub struct Tokens<'a> {
    rest: Option<&'a [u8]>,
}

impl<'a> Model for Tokens<'a> {
    ghost use Rattle.std.specs.Prelude.{List, ℕ, option_map};
    ghost use Rattle.cert_value.specs.Tokens.{tokens_left};

    ghost Value = { List (List ℕ) };

    ghost view = { λ t. tokens_left (option_map (λ r. r.now) t.rest) };
}

/// Where the first space stands.
fn space_at(line: &[u8]) -> Option<usize>
    ensures { result ≡ position (λ b. b == 32) line.now }
{
    line.iter().position(|byte| *byte == b' ')
}

impl<'a> Tokens<'a> {
    /// All tokens of the line.
    pub fn of(line: &'a [u8]) -> Tokens<'a>
        ensures { result ≡ tokens_of line.now }
    {
        Tokens { rest: Some(line) }
    }

    /// The next token.
    pub fn next(&mut self) -> Option<&'a [u8]>
        ensures token { MatchOption result
            (self.old ≡ []) (λ token. self.old ≡ token.now ∷ self.new) }
        ensures rest { self.new ≡ drop 1 self.old }
    {
        let line = self.rest?;
        match space_at(line) {
            None => {
                self.rest = None;
                Some(line)
            }
            Some(at) => {
                self.rest = Some(&line[at + 1..]);
                Some(&line[..at])
            }
        }
    }

    /// The tokens of the line behind the first so many.
    pub fn behind(line: &'a [u8], count: usize) -> Tokens<'a>
        ensures { result ≡ drop count (tokens_of line.now) }
    {
        let mut tokens = Tokens::of(line);
        for _token in 0..count {
            tokens.next();
        }
        tokens
    }
}
