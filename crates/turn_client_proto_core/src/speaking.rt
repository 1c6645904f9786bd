//! How a client introduces itself in its requests: its next credentials, SOFTWARE and FINGERPRINT.

ghost use Rattle.std.specs.Prelude.{◌≡◌, ◌≤◌, length};
ghost use Rattle.stun_types_wire.specs.Registry.{longest_username};
ghost use Rattle.turn_client_proto_core.specs.Speaking.{with_fingerprint, with_next_credentials, with_software};

use crate::protocol::Protocol;
use stun_types_auth_attributes::software::Software;
use stun_types_integrity::credentials::LongTermCredentials;
use turn_types_attributes::credentials::TurnCredentials;

impl Protocol {
    /// Sets the credentials that replace the present ones as soon as a challenge is accepted (RFC
    /// 8489, section 9.2.5). Until then requests are signed, and responses validated, as before.
    pub fn set_credentials(&mut self, credentials: TurnCredentials)
        requires { length credentials.username ≤ longest_username }
        ensures { self.new ≡ with_next_credentials credentials self.old }
    {
        self.auth
            .set_next_credentials(LongTermCredentials::from(credentials));
    }

    /// Sets the SOFTWARE that requests carry from now on (RFC 8489, section 14.14), or none.
    pub fn set_software(&mut self, software: Option<Software>)
        ensures { self.new ≡ with_software software self.old }
    {
        self.auth.set_software(software);
    }

    /// Sets whether requests end with FINGERPRINT from now on (RFC 8489, section 14.7).
    pub fn set_fingerprint(&mut self, fingerprint: bool)
        ensures { self.new ≡ with_fingerprint fingerprint self.old }
    {
        self.auth.set_fingerprint(fingerprint);
    }
}
