//! The words of the texts of certificates, of cross relations and of proofs.

ghost use Rattle.std.specs.Prelude.{◌≡◌};
ghost use Rattle.cert_value.specs.Text.{spelled};

/// A word that a line of a certificate, of a cross relation or of a proof may hold.
#[derive(Clone, Copy, Debug, PartialEq, Eq)]
pub enum Keyword {
    Backward,
    Base,
    Classes,
    Cover,
    Cut,
    Delayed,
    Elements,
    End,
    Forward,
    Gone,
    Limit,
    Live,
    Log1,
    Log2,
    Look,
    Loop,
    Merge,
    Next,
    Prefix,
    Rel,
    Row,
    Sizes,
    Start,
    Step,
    Trim,
    Under,
    Buchi,
    Finite,
    List,
    No,
    One,
    RabitCert,
    RabitCross,
    Two,
    Yes,
    Word,
    Accepting,
    Closed,
    Letters,
    Map,
    Product,
    RabitProof,
}

impl Keyword {
    /// How the word is written.
    #[tactic(auto, unfolding(crate::specs::Text::spelled))]
    pub fn text(self) -> &'static [u8]
        ensures { result.now ≡ spelled self }
    {
        match self {
            Keyword::Backward => b"backward",
            Keyword::Base => b"base",
            Keyword::Classes => b"classes",
            Keyword::Cover => b"cover",
            Keyword::Cut => b"cut",
            Keyword::Delayed => b"delayed",
            Keyword::Elements => b"elements",
            Keyword::End => b"end",
            Keyword::Forward => b"forward",
            Keyword::Gone => b"gone",
            Keyword::Limit => b"limit",
            Keyword::Live => b"live",
            Keyword::Log1 => b"log1",
            Keyword::Log2 => b"log2",
            Keyword::Look => b"look",
            Keyword::Loop => b"loop",
            Keyword::Merge => b"merge",
            Keyword::Next => b"next",
            Keyword::Prefix => b"prefix",
            Keyword::Rel => b"rel",
            Keyword::Row => b"row",
            Keyword::Sizes => b"sizes",
            Keyword::Start => b"start",
            Keyword::Step => b"step",
            Keyword::Trim => b"trim",
            Keyword::Under => b"under",
            Keyword::Buchi => b"buchi",
            Keyword::Finite => b"finite",
            Keyword::List => b"list",
            Keyword::No => b"no",
            Keyword::One => b"1",
            Keyword::RabitCert => b"rabit-cert",
            Keyword::RabitCross => b"rabit-cross",
            Keyword::Two => b"2",
            Keyword::Yes => b"yes",
            Keyword::Word => b"word",
            Keyword::Accepting => b"accepting",
            Keyword::Closed => b"closed",
            Keyword::Letters => b"letters",
            Keyword::Map => b"map",
            Keyword::Product => b"product",
            Keyword::RabitProof => b"rabit-proof",
        }
    }
}
