//! Words of triples as numbers.

ghost use Rattle.std.specs.Prelude.{◌≡◌, ◌+◌, ◌-◌, ◌*◌, ◌^◌, ◌<◌, ◌≤◌, take};
ghost use Rattle.delayed_sim.specs.Words.{digits};

/// The number of words of so many letters.
pub fn word_count(labels: u32, letters: u32) -> u32
    requires { labels ^ letters < 2 ^ 32 }
    ensures { result ≡ labels ^ letters }
{
    let mut count = 1;
    for _ in 0..letters {
        count *= labels;
    }
    count
}

/// The word of so many letters with this number: the first ones of the three.
pub fn letters_of(labels: u32, letters: u32, number: u32) -> [u32; 3]
    requires few { letters ≤ 3 }
    requires fits { labels ^ letters < 2 ^ 32 }
    requires below { number < labels ^ letters }
    ensures { take letters result ≡ digits labels letters number }
{
    let mut word = [0; 3];
    let mut rest = number;
    for at in 0..letters {
        let unit = word_count(labels, letters - 1 - at);
        word[at as usize] = rest / unit;
        rest %= unit;
    }
    word
}
