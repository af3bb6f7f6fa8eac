//! A certificate of version 1 as one of version 2.

ghost use Rattle.std.specs.Prelude.{◌≡◌};
ghost use Rattle.cert_value.specs.WellFormed.{WellFormed, upgraded};

use crate::types::Cert;

/// The certificate in version 2. It takes no memory.
pub fn upgrade(cert: Cert) -> Cert
    ensures value { result ≡ upgraded cert }
    ensures formed { WellFormed cert → WellFormed result }
{
    Cert {
        version: 2,
        mode: cert.mode,
        first_states: cert.first_states,
        second_states: cert.second_states,
        labels: cert.labels,
        body: cert.body,
    }
}
