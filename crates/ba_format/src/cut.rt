//! Where the first line of a text ends.

ghost use Rattle.std.specs.Prelude.{◌≡◌, ◌<◌, length, position, IfSome, MatchOption};
ghost use Rattle.std.specs.List.{before_first, after_first};
ghost use Rattle.ba_format.specs.Cut.{is_newline, HasNewline, IsUnfinished, IsLineCut};

/// Where the first LF of the text stands.
fn place_of_newline(text: &[u8]) -> Option<usize>
    ensures { result ≡ position is_newline text.now }
{
    text.iter().position(|byte| *byte == b'\n')
}

/// The first line of a text, without its LF, if it ends, and what stands after the LF.
pub fn split_line(text: &[u8]) -> Option<(&[u8], &[u8])>
    ensures cut { MatchOption result
        (IsUnfinished text.now) (λ parts. IsLineCut text.now parts.0.now parts.1.now) }
    ensures first { IfSome
        result (λ parts.
        HasNewline text.now × (parts.0.now ≡ before_first is_newline text.now)
        × (parts.1.now ≡ after_first is_newline text.now)) }
    ensures shorter { IfSome result (λ parts. length parts.1.now < length text.now) }
{
    match place_of_newline(text) {
        None => None,
        Some(at) => Some((&text[..at], &text[at + 1..])),
    }
}
