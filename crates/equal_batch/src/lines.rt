//! The lines of a list of questions, and their words.

ghost use Rattle.std.specs.Prelude.{◌≡◌, ◌+◌, ◌<◌, ◌==◌, ◌⊎◌, ◌++◌, ◌∷◌, [], length, position, true, false, nat_lt, MatchOption};
ghost use Rattle.std.specs.List.{list_all};
ghost use Rattle.cert_value.specs.Tokens.{tokens_of};
ghost use Rattle.equal_batch.specs.Questions.{is_character, is_word, is_question, cut_lines};

use cert_value::Tokens;

/// Where the first LF stands.
fn newline_at(bytes: &[u8]) -> Option<usize>
    ensures { result ≡ position (λ b. b == 10) bytes.now }
{
    bytes.iter().position(|byte| *byte == b'\n')
}

/// The first line, without its LF, and what follows it.
pub(crate) fn first_line(bytes: &[u8]) -> (&[u8], &[u8])
    requires { 0 < length bytes.now }
    ensures lines { cut_lines bytes.now ≡ tokens_of result.0.now ∷ cut_lines result.1.now }
    ensures whole { (bytes.now ≡ result.0.now ++ 10 ∷ result.1.now)
        ⊎ ((bytes.now ≡ result.0.now) × (result.1.now ≡ [])) }
    ensures shorter { length result.1.now < length bytes.now }
{
    match newline_at(bytes) {
        None => (bytes, &[]),
        Some(at) => (&bytes[..at], &bytes[at + 1..]),
    }
}

/// Whether every byte may stand in a word.
fn are_characters(bytes: &[u8]) -> bool
    ensures { result ≡ list_all is_character bytes.now }
{
    bytes.iter().all(|byte| *byte > 0x20 && *byte < 0x7F)
}

/// Whether the token is a word.
fn is_word(token: &[u8]) -> bool
    ensures { result ≡ is_word token.now }
{
    !token.is_empty() && are_characters(token)
}

/// The three tokens of the line, if it has just three.
fn three_tokens(line: &[u8]) -> Option<(&[u8], &[u8], &[u8])>
    ensures { MatchOption result
        ((length (tokens_of line.now) == 3) ≡ false)
        (λ words. tokens_of line.now ≡ words.0.now ∷ words.1.now ∷ words.2.now ∷ []) }
{
    let mut tokens = Tokens::of(line);
    let first = tokens.next()?;
    let second = tokens.next()?;
    let cert = tokens.next()?;
    match tokens.next() {
        None => Some((first, second, cert)),
        Some(_) => None,
    }
}

/// The three words of the line, if it is a question.
pub(crate) fn words_of(line: &[u8]) -> Option<(&[u8], &[u8], &[u8])>
    ensures { MatchOption result
        (is_question (tokens_of line.now) ≡ false)
        (λ words. (is_question (tokens_of line.now) ≡ true) × (tokens_of line.now ≡ words.0.now ∷ words.1.now ∷ words.2.now ∷ [])) }
{
    let (first, second, cert) = three_tokens(line)?;
    if is_word(first) && is_word(second) && is_word(cert) {
        Some((first, second, cert))
    } else {
        None
    }
}
