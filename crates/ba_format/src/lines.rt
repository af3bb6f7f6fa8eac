//! What a line of a text says, and what is wrong with it by itself.

ghost use Rattle.std.specs.Prelude.{◌≡◌, ◌+◌, true, false, nat_lt, position, None, Some, MatchOption, MatchResult};
ghost use Rattle.std.specs.List.{list_any, before_first, after_first};
ghost use Rattle.ba_format.specs.Grammar.{is_bad, is_comma, is_shaped, arrows, before_arrow, after_arrow, own_fault, token_fault};
ghost use Rattle.ba_format.specs.Grammar.{content_of as entry_value, trimmed as trimmed_text, without_leading as text_without_leading};
ghost use Rattle.ba_format.specs.Seen.{entry_seen, is_cut_shaped, transition_entry};

use crate::parts::BaKind;

/// The most bytes of a token.
pub const TOKEN_LIMIT: usize = 255;

/// What a line says. Its tokens are lent from the text.
#[derive(Clone, Copy)]
pub(crate) enum Said<'a> {
    /// A state line with its one token.
    State(&'a [u8]),
    /// A transition line with its label, source and target.
    Transition(&'a [u8], &'a [u8], &'a [u8]),
}

/// The text without the blanks in front.
fn without_leading(text: &[u8]) -> &[u8]
    ensures { result.now ≡ text_without_leading text.now }
{
    let mut rest = text;
    while let [b' ' | b'\t' | b'\r', tail @ ..] = rest {
        rest = tail;
    }
    rest
}

/// The text without the blanks at its two ends.
pub(crate) fn trimmed(text: &[u8]) -> &[u8]
    ensures { result.now ≡ trimmed_text text.now }
{
    let mut rest = without_leading(text);
    while let [head @ .., b' ' | b'\t' | b'\r'] = rest {
        rest = head;
    }
    rest
}

/// Whether the text has a byte that no line may have.
fn has_bad_byte(text: &[u8]) -> bool
    ensures { result ≡ list_any is_bad text.now }
{
    text.iter()
        .any(|byte| *byte == 0x7F || (*byte < 0x20 && *byte != b'\t'))
}

/// Where the first comma of the text stands.
fn place_of_comma(text: &[u8]) -> Option<usize>
    ensures { result ≡ position is_comma text.now }
{
    text.iter().position(|byte| *byte == b',')
}

/// The parts of the text before and after its first comma, if it has one.
fn split_at_comma(text: &[u8]) -> Option<(&[u8], &[u8])>
    ensures { MatchOption result
        (list_any is_comma text.now ≡ false) (λ parts.
        (list_any is_comma text.now ≡ true) × (parts.0.now ≡ before_first is_comma text.now)
        × (parts.1.now ≡ after_first is_comma text.now)) }
{
    match place_of_comma(text) {
        None => None,
        Some(at) => Some((&text[..at], &text[at + 1..])),
    }
}

/// The parts of the text before and after its first `->`, if it has one.
fn split_at_arrow(text: &[u8]) -> Option<(&[u8], &[u8])>
    ensures { MatchOption result
        (arrows text.now ≡ 0) (λ parts.
        (arrows text.now ≡ arrows parts.1.now + 1) × (parts.0.now ≡ before_arrow text.now)
        × (parts.1.now ≡ after_arrow text.now)) }
{
    for at in 1..text.len() {
        if text[at - 1] == b'-' && text[at] == b'>' {
            return Some((&text[..at - 1], &text[at + 1..]));
        }
    }
    None
}

/// Whether the text has a comma.
fn has_comma(text: &[u8]) -> bool
    ensures { result ≡ list_any is_comma text.now }
{
    text.iter().any(|byte| *byte == b',')
}

/// Whether the text has a `->`.
fn has_arrow(text: &[u8]) -> bool
    ensures { result ≡ nat_lt 0 (arrows text.now) }
{
    match split_at_arrow(text) {
        None => false,
        Some(_) => true,
    }
}

/// What a line with a comma says, if it has the shape of one: `label` stands before its first
/// comma, `rest` after it.
fn transition_line<'a>(label: &'a [u8], rest: &'a [u8]) -> Option<Said<'a>>
    ensures { MatchOption result
        (is_cut_shaped label.now rest.now ≡ false) (λ said.
        (is_cut_shaped label.now rest.now ≡ true)
        × (entry_seen said ≡ transition_entry label.now rest.now)) }
{
    if has_comma(rest) {
        return None;
    }
    if has_arrow(label) {
        return None;
    }
    match split_at_arrow(rest) {
        None => None,
        Some((source, target)) => {
            if has_arrow(target) {
                None
            } else {
                Some(Said::Transition(trimmed(label), trimmed(source), trimmed(target)))
            }
        }
    }
}

/// What a line says, if it has the shape of one.
fn shaped(line: &[u8]) -> Option<Said<'_>>
    ensures { MatchOption result
        (is_shaped line.now ≡ false) (λ said.
        (is_shaped line.now ≡ true) × (entry_seen said ≡ entry_value line.now)) }
{
    match split_at_comma(line) {
        Some((label, rest)) => transition_line(label, rest),
        None => {
            if has_arrow(line) {
                None
            } else {
                Some(Said::State(line))
            }
        }
    }
}

/// What is wrong with the tokens of a line.
fn fault_of_tokens(said: Said<'_>) -> Option<BaKind>
    ensures { result ≡ token_fault (entry_seen said.entry) }
{
    match said {
        Said::State(name) => {
            if name.is_empty() {
                Some(BaKind::EmptyToken)
            } else if name.len() > TOKEN_LIMIT {
                Some(BaKind::TokenLong)
            } else {
                None
            }
        }
        Said::Transition(label, source, target) => {
            if label.is_empty() || source.is_empty() || target.is_empty() {
                Some(BaKind::EmptyToken)
            } else if label.len() > TOKEN_LIMIT
                || source.len() > TOKEN_LIMIT
                || target.len() > TOKEN_LIMIT
            {
                Some(BaKind::TokenLong)
            } else {
                None
            }
        }
    }
}

/// What a trimmed line says, or what is wrong with it by itself.
pub(crate) fn said_by(line: &[u8]) -> Result<Said<'_>, BaKind>
    ensures { MatchResult
        result (λ said.
        (own_fault line.now ≡ None) × (entry_seen said ≡ entry_value line.now)) (λ kind.
        own_fault line.now ≡ Some kind) }
{
    if has_bad_byte(line) {
        return Err(BaKind::BadByte);
    }
    let Some(said) = shaped(line) else {
        return Err(BaKind::Shape);
    };
    match fault_of_tokens(said) {
        None => Ok(said),
        Some(kind) => Err(kind),
    }
}
