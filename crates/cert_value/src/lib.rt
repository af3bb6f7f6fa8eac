//! Certificates: the value, which values have a text, and how the lines of a text are spelled and
//! written, in both versions.
#![tactic(auto)]

mod checks;
mod keywords;
mod printed_parts;
mod printing;
mod tokens;
mod types;
mod versions;

pub use checks::{
    are_letters, are_rows, ascend, blocks_due, exceeds_last, gone_ascend, is_live, is_short,
    is_short_count, rights_ascend, runs_ascend, well_formed,
};
pub use keywords::Keyword;
pub use printing::{Print, print_all, print_count, print_keyword, print_line};
pub use tokens::Tokens;
pub use types::{
    Body, Cert, Element, FirstStep, Form, GoneBy, Grounds, ListBody, Mark, RankBlock, RankRow,
    Ranked, RelBlock, Row, Run, SecondStep, StepLine, YesBody,
};
pub use versions::upgrade;
