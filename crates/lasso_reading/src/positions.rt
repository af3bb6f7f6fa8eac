//! The positions of a lasso of classes: the places of its prefix, and behind them those of its
//! loop.

ghost use Rattle.std.specs.Prelude.{◌≡◌, ◌<◌, ◌^◌, ◌++◌, length, slice_index};
ghost use Rattle.lasso_reading.specs.Reading.{next_position};

/// The class that stands at the position.
pub(crate) fn class_at(prefix: &[u32], turn: &[u32], position: u32) -> u32
    requires { position < length (prefix.now ++ turn.now) }
    ensures { result ≡ slice_index (prefix.now ++ turn.now) position }
{
    let place = position as usize;
    if place < prefix.len() {
        return prefix[place];
    }
    turn[place - prefix.len()]
}

/// The position behind this one.
pub(crate) fn behind(prefix: &[u32], turn: &[u32], position: u32) -> u32
    requires within { position < length (prefix.now ++ turn.now) }
    requires few { length (prefix.now ++ turn.now) < 2 ^ 32 }
    ensures { result ≡ next_position prefix.now turn.now position }
{
    if position as usize + 1 == prefix.len() + turn.len() {
        return prefix.len() as u32;
    }
    position + 1
}
