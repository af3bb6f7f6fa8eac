//! What two answers say together.

ghost use Rattle.std.specs.Prelude.{◌≡◌};
ghost use Rattle.cert_value.specs.Text.{form_of};
ghost use Rattle.equal_batch.specs.Equality.{said_by_both};

use crate::outcome::Both;
use cert_value::{Body, Cert};

/// What the two certificates' answers say together. It takes no memory.
pub fn both(first: &Cert, second: &Cert) -> Both
    ensures table { result ≡ said_by_both (form_of first.now.body) (form_of second.now.body) }
{
    match (&first.body, &second.body) {
        (Body::NoLasso(_) | Body::NoWord(_), _) => Both::FirstApart,
        (_, Body::NoLasso(_) | Body::NoWord(_)) => Both::SecondApart,
        (Body::Yes(_), Body::Yes(_)) => Both::Equal,
        (_, _) => Both::Limit,
    }
}
