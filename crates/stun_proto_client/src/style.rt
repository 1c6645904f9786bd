//! What a client's requests carry besides what they ask for and what authenticates them: SOFTWARE
//! and FINGERPRINT.

ghost use Rattle.std.specs.Prelude.{◌≡◌};
ghost use Rattle.std.specs.Option.{option_copied};

use crate::long_term::LongTermClientAuth;
use crate::stun_types_auth_attributes::software::Software;

impl LongTermClientAuth {
    /// Returns the SOFTWARE of the client's requests, if one is set.
    pub fn software(&self) -> Option<&Software>
        ensures { option_copied result ≡ self.now.style.software }
    {
        self.software.as_ref()
    }

    /// Sets the SOFTWARE that the client's requests carry (RFC 8489, section 14.14), or none. It
    /// stands before the attributes that authenticate a request. Signing doesn't add it, since a
    /// request may be sent unsigned: who writes the requests does.
    pub fn set_software(&mut self, software: Option<Software>)
        ensures { self.new ≡ record self.old {
          style = record self.old.style { software = software };
        } }
    {
        self.software = software;
    }

    /// Returns whether the client's requests end with FINGERPRINT.
    pub fn has_fingerprint(&self) -> bool
        ensures { result ≡ self.now.style.fingerprint }
    {
        self.fingerprint
    }

    /// Sets whether the client's requests end with FINGERPRINT (RFC 8489, section 14.7), by which a
    /// receiver tells them from other protocols on the same socket. It stands behind the integrity
    /// attribute. Signing doesn't add it: who writes the requests does.
    pub fn set_fingerprint(&mut self, fingerprint: bool)
        ensures { self.new ≡ record self.old {
          style = record self.old.style { fingerprint = fingerprint };
        } }
    {
        self.fingerprint = fingerprint;
    }
}
