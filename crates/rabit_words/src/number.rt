//! Numbers as they are spelled in words.

ghost use Rattle.std.specs.Prelude.{◌≡◌, option_map};
ghost use Rattle.std.specs.List.{list_all};
ghost use Rattle.auto_core.specs.Digits.{is_digit};
ghost use Rattle.rabit_words.specs.Number.{starts_well, is_spelled, number_between, number_or, number_if_named};

/// Whether the byte is a decimal digit.
fn is_digit(byte: u8) -> bool
    ensures { result ≡ is_digit byte }
{
    b'0' <= byte && byte <= b'9'
}

/// Whether all bytes are decimal digits.
fn all_digits(text: &[u8]) -> bool
    ensures { result ≡ list_all is_digit text.now }
{
    text.iter().all(|byte| is_digit(*byte))
}

/// Whether there is a first byte, and it is no zero before others.
fn starts_well(text: &[u8]) -> bool
    ensures { result ≡ starts_well text.now }
{
    match text {
        [] => false,
        [_only] => true,
        [first, ..] => *first != b'0',
    }
}

/// Whether the bytes are decimal digits, one or more, without a zero before others.
fn is_spelled(text: &[u8]) -> bool
    ensures { result ≡ is_spelled text.now }
{
    starts_well(text) && all_digits(text)
}

/// The number that is spelled so, if it lies from `low` to `high`.
pub fn number_between(text: &str, low: u32, high: u32) -> Option<u32>
    ensures { result ≡ number_between low high text.now }
{
    if !is_spelled(text.as_bytes()) {
        return None;
    }
    match text.parse::<u32>() {
        Ok(number) => {
            if low <= number && number <= high {
                Some(number)
            } else {
                None
            }
        },
        Err(_too_large) => None,
    }
}

/// The number of an option's word, or the usual one where there is none.
pub fn number_or(text: Option<&str>, usual: u32, low: u32, high: u32) -> Option<u32>
    ensures { result ≡ number_or usual low high (option_map (λ t. t.now) text.entry) }
{
    match text {
        None => Some(usual),
        Some(text) => number_between(text, low, high),
    }
}

/// The number of an option's word, and that there is none where the option does not stand.
pub fn number_if_named(text: Option<&str>, low: u32, high: u32) -> Option<Option<u32>>
    ensures { result ≡ number_if_named low high (option_map (λ t. t.now) text.entry) }
{
    match text {
        None => Some(None),
        Some(text) => number_between(text, low, high).map(Some),
    }
}
