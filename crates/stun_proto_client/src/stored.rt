//! The challenge that a client stores.

ghost use Rattle.std.specs.Prelude.{◌≡◌, IfOk};
ghost use Rattle.std.specs.Option.{option_copied, option_map};
ghost use Rattle.stun_proto_client.specs.Challenges.{list_for_choice};
ghost use Rattle.stun_proto_client.specs.Client.{key_by, standing_key};

use crate::challenge::ChallengeFields;
use crate::stun_types_base::memory::NoMemory;
use crate::stun_types_integrity::credentials::LongTermCredentials;
use crate::stun_types_integrity::key::IntegrityKey;
use crate::stun_types_wire::algorithm::IntegrityAlgorithm;
use std::alloc::Global;
use std::marker::Model;

/// A stored challenge: its realm and nonce, the chosen algorithm and, if the choice was made from a
/// list, the PASSWORD-ALGORITHMS value. Contracts see the record `Challenge`.
#[derive(Debug, Drop)]
pub(crate) struct StoredChallenge {
    realm: String,
    nonce: String,
    offered: Option<Vec<u8>>,
    choice: IntegrityAlgorithm,
}

impl Model for StoredChallenge {
    ghost use Rattle.std.specs.Option.{option_map};
    ghost use Rattle.std.specs.String.{string_bytes};
    ghost use Rattle.stun_proto_client.specs.Client.{Challenge};

    ghost Value = { Challenge };

    ghost view = { λ c. record {
      realm = string_bytes c.realm;
      nonce = string_bytes c.nonce;
      offered = option_map (λ list. list.items) c.offered;
      choice = c.choice;
    } };
}

impl StoredChallenge {
    /// Copies a challenge, with the list from which a client chose that is hardened or isn't, and
    /// the chosen algorithm. Fails with `NoMemory` if an allocation fails.
    pub(crate) fn of(
        alloc: Global,
        decoded: &ChallengeFields<'_>,
        hardened: bool,
        choice: IntegrityAlgorithm,
    ) -> Result<StoredChallenge, NoMemory>
        ensures { IfOk result (λ stored. stored ≡ record {
          realm = decoded.now.realm;
          nonce = decoded.now.nonce;
          offered = list_for_choice hardened decoded.now;
          choice = choice;
        }) }
    {
        let realm = String::from_str(alloc, decoded.realm())?;
        let nonce = String::from_str(alloc, decoded.nonce())?;
        let offered = copy_of(alloc, decoded.list_for_choice(hardened))?;
        Ok(StoredChallenge {
            realm,
            nonce,
            offered,
            choice,
        })
    }

    /// Returns the realm.
    pub(crate) fn realm(&self) -> &str
        ensures { result.now ≡ self.now.realm }
    {
        self.realm.as_str()
    }

    /// Returns the nonce.
    pub(crate) fn nonce(&self) -> &str
        ensures { result.now ≡ self.now.nonce }
    {
        self.nonce.as_str()
    }

    /// Returns the PASSWORD-ALGORITHMS value from which the choice was made, if there was one.
    pub(crate) fn offered(&self) -> Option<&[u8]>
        ensures { option_copied result ≡ self.now.offered }
    {
        match &self.offered {
            Some(list) => Some(list.as_slice()),
            None => None,
        }
    }

    /// Returns the chosen algorithm.
    pub(crate) fn choice(&self) -> IntegrityAlgorithm
        ensures { result ≡ self.now.choice }
    {
        self.choice
    }

    /// Derives the key of the credentials in the realm, for the chosen algorithm. The key borrows
    /// nothing.
    pub(crate) fn key_of<'key>(&self, account: &LongTermCredentials) -> IntegrityKey<'key>
        ensures { result
            ≡ standing_key (record { account = account.now; challenge = self.now }) }
    {
        IntegrityKey::long_term(
            account.username(),
            self.realm(),
            account.password(),
            self.choice,
        )
    }
}

/// Derives the key of the credentials in the challenge's realm, if both exist.
pub(crate) fn key_of_both(
    account: &Option<LongTermCredentials>,
    stored: &Option<StoredChallenge>,
) -> Option<IntegrityKey<'static>>
    ensures { result ≡ key_by account.now stored.now }
{
    match (account, stored) {
        (Some(account), Some(stored)) => Some(stored.key_of(account)),
        _ => None,
    }
}

/// Copies the bytes, if there are any. Fails with `NoMemory` if an allocation fails.
fn copy_of(alloc: Global, bytes: Option<&[u8]>) -> Result<Option<Vec<u8>>, NoMemory>
    ensures { IfOk result (λ copy. option_map (λ list. list.items) copy ≡ option_copied bytes.entry) }
{
    match bytes {
        Some(bytes) => {
            let mut copy = Vec::new(alloc);
            copy.extend_from_slice(bytes)?;
            Ok(Some(copy))
        }
        None => Ok(None),
    }
}
