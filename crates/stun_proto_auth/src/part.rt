//! An attribute that is added before the integrity attribute.

ghost use Rattle.std.specs.Prelude.{◌≡◌, ◌≤◌, length, None, OnOk};
ghost use Rattle.stun_types_message.specs.Base.Refusals.{RefusesFor};
ghost use Rattle.stun_types_message.specs.Wire.Registry.{longest_text, userhash_length};
ghost use Rattle.stun_types_message.specs.Write.Adding.{IsStarted};
ghost use Rattle.stun_types_message.specs.Write.Outcomes.{TakesNoMemory, IsAdded};
ghost use Rattle.stun_types_message.specs.Wire.Shape.{rank};
ghost use Rattle.stun_proto_auth.specs.Addition.{algorithm_of, algorithms_of, attr_of_part};
ghost use Rattle.stun_proto_auth.specs.Addition.{hash_of, nonce_of, one_refusal, realm_of};
ghost use Rattle.stun_proto_auth.specs.Addition.{username_of};

use crate::stun_types_add::ext::add_as;
use crate::stun_types_auth_attributes::nonce::Nonce;
use crate::stun_types_auth_attributes::password_algorithm::PasswordAlgorithm;
use crate::stun_types_auth_attributes::password_algorithms::PasswordAlgorithms;
use crate::stun_types_auth_attributes::realm::Realm;
use crate::stun_types_auth_attributes::userhash::Userhash;
use crate::stun_types_auth_attributes::username::Username;
use crate::stun_types_wire::attribute::{AttributeType, RawAttribute};
use crate::stun_types_wire::error::StunWriteError;
use crate::stun_types_wire::registry::{MAX_PASSWORD_ALGORITHMS, USERHASH_LENGTH};
use crate::stun_types_write::attribute::AttributeStaticType;
use crate::stun_types_write::writer::MessageWrite;
use std::marker::Model;

/// The size of one entry in PASSWORD-ALGORITHM and PASSWORD-ALGORITHMS: two bytes for the
/// algorithm's number and two for the length of its parameters (RFC 8489, sections 14.11 and
/// 14.12).
pub const PASSWORD_ENTRY_LENGTH: usize = 4;

/// An attribute to be added to a message: its type, the maximum length of its value, and the value,
/// which is borrowed. Creating one allocates nothing and accepts every value; a value over its
/// limit is refused when the attribute is added. Contracts see the record `PartOf`.
#[derive(Debug, Drop)]
pub struct Part<'a> {
    atype: AttributeType,
    most: usize,
    value: &'a [u8],
}

impl<'a> Model for Part<'a> {
    ghost use Rattle.std.specs.Prelude.{◌≡◌, ◌≤◌};
    ghost use Rattle.stun_types_message.specs.Wire.Registry.{longest_text};
    ghost use Rattle.stun_types_message.specs.Wire.Shape.{rank};
    ghost use Rattle.stun_proto_auth.specs.Addition.{PartOf};

    ghost Value = { PartOf };

    ghost view = { λ p. record { kind = p.atype.0; most = p.most; value = p.value.now } };

    ghost invariant = { λ p. (p.most ≤ longest_text) × (rank p.atype.0 ≡ 0) };
}

impl<'a> Part<'a> {
    /// Creates a USERNAME of at most 513 bytes (RFC 8489, section 14.3).
    pub fn username(name: &'a str) -> Part<'a>
        ensures { result ≡ username_of name.now }
    {
        Part {
            atype: Username::TYPE,
            most: Username::MAX_LEN,
            value: name.as_bytes(),
        }
    }

    /// Creates a USERHASH, which identifies a user without the name (RFC 8489, section 14.4).
    pub fn userhash(hash: &'a [u8; 32]) -> Part<'a>
        ensures { result ≡ hash_of hash.now }
    {
        Part {
            atype: Userhash::TYPE,
            most: USERHASH_LENGTH,
            value: hash,
        }
    }

    /// Creates a REALM of at most 763 bytes (RFC 8489, section 14.9).
    pub fn realm(realm: &'a str) -> Part<'a>
        ensures { result ≡ realm_of realm.now }
    {
        Part {
            atype: Realm::TYPE,
            most: Realm::MAX_LEN,
            value: realm.as_bytes(),
        }
    }

    /// Creates a NONCE of at most 763 bytes (RFC 8489, section 14.10).
    pub fn nonce(nonce: &'a str) -> Part<'a>
        ensures { result ≡ nonce_of nonce.now }
    {
        Part {
            atype: Nonce::TYPE,
            most: Nonce::MAX_LEN,
            value: nonce.as_bytes(),
        }
    }

    /// Creates a PASSWORD-ALGORITHMS with this value, of at most 32 bytes (RFC 8489, section
    /// 14.11). A server lists what it supports, and a client echoes the server's list. Whether the
    /// value consists of entries is not checked.
    pub fn algorithms(entries: &'a [u8]) -> Part<'a>
        ensures { result ≡ algorithms_of entries.now }
    {
        Part {
            atype: PasswordAlgorithms::TYPE,
            most: PASSWORD_ENTRY_LENGTH * MAX_PASSWORD_ALGORITHMS,
            value: entries,
        }
    }

    /// Creates a PASSWORD-ALGORITHM with this value, of at most 4 bytes (RFC 8489, section 14.12):
    /// the number of the algorithm that a client chose, and the length of its parameters. Whether
    /// the value is one entry is not checked.
    pub fn algorithm(entry: &'a [u8]) -> Part<'a>
        ensures { result ≡ algorithm_of entry.now }
    {
        Part {
            atype: PasswordAlgorithm::TYPE,
            most: PASSWORD_ENTRY_LENGTH,
            value: entry,
        }
    }

    /// Returns the maximum length of the value, in bytes. The attribute is never one that ends a
    /// message.
    pub(crate) fn most(&self) -> usize
        ensures value { result ≡ self.now.most }
        ensures short { result ≤ longest_text }
        ensures plain { rank self.now.kind ≡ 0 }
    {
        self.most
    }

    /// Returns the length of the value in bytes.
    pub(crate) fn len(&self) -> usize
        ensures { result ≡ length self.now.value }
    {
        self.value.len()
    }

    /// Adds the attribute, which is known to fit. Fails only with `NoMemory`.
    pub(crate) fn add_to<W: MessageWrite>(&self, writer: &mut W) -> Result<(), StunWriteError>
        requires started { IsStarted (W.draft writer.old).bytes }
        requires accepted { one_refusal (W.draft writer.old) self.now ≡ None }
        ensures ok { OnOk result (IsAdded (attr_of_part self.now)
            (W.draft writer.old) (W.draft writer.new)) }
        ensures memory { RefusesFor StunWriteError.NoMemory None result }
        ensures lent { TakesNoMemory (W.draft writer.old) result }
    {
        let raw = RawAttribute::new(self.atype, self.value);
        add_as(writer, &raw, &raw)
    }
}
