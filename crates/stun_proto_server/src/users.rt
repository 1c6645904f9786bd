//! The users of a server, and how a message names one.

ghost use Rattle.std.specs.Prelude.{◌≡◌, ℕ, nat_eq, ◌||◌, not, List, All, Some, MatchOption, OnOk};
ghost use Rattle.std.specs.Prelude.{OnErr};
ghost use Rattle.std.specs.BTreeMap as tree;
ghost use Rattle.std.specs.Cmp.Lexicographic.{pointwise};
ghost use Rattle.std.specs.List.{find};
ghost use Rattle.std.specs.Option.{option_copied, option_map};
ghost use Rattle.std.specs.String.{string_bytes, string_cmp};
ghost use Rattle.stun_proto_server.specs.StoredKeys.{IsHashed, UpdatesUser};
ghost use Rattle.stun_proto_server.specs.StoredUsers.{IsSound};
ghost use Rattle.stun_proto_server.specs.View.{pair_of};
ghost use Rattle.stun_proto_server.specs.declared.users.KeyedUser.{KeyedUser as Keyed};

use crate::stun_types_auth_attributes::userhash::Userhash;
use crate::stun_types_base::memory::NoMemory;
use crate::stun_types_integrity::credentials::LongTermCredentials;
use std::alloc::Global;
use std::collections::BTreeMap;
use std::convert::TryFrom;
use stun_proto_verify::keys::UserKeys;

/// A user, with its keys and the hash of its name in the server's realm. The keys are in a box of
/// their own, so that the map does not move them.
#[derive(Debug, Drop)]
pub(crate) struct KeyedUser {
    pub(crate) credentials: LongTermCredentials,
    pub(crate) keys: Box<UserKeys>,
    pub(crate) hash: Userhash,
}

/// The users of a server. A user is found by name or by hash with one search, and no digest.
/// Each function leaves them sound.
#[derive(Debug, Drop)]
pub(crate) struct Users {
    by_name: BTreeMap<String, KeyedUser>,
    // The name of the user that has a hash.
    by_hash: BTreeMap<[u8; 32], String>,
    // Whether two users had the same hash once. `by_hash` then counts for nothing.
    is_shared: bool,
}

impl Users {
    /// Creates a collection without users, which has allocated nothing yet.
    pub(crate) fn new(alloc: Global) -> Users
        ensures empty { tree.IsEmpty result.by_name }
        ensures sound { IsSound result }
    {
        Users {
            by_name: BTreeMap::new(alloc),
            by_hash: BTreeMap::new(alloc),
            is_shared: false,
        }
    }

    /// Finds the user with this name.
    pub(crate) fn get(&self, name: &str) -> Option<&KeyedUser>
        ensures { option_copied result ≡ tree.get_by_text self.now.by_name name.now }
    {
        self.by_name.get(name)
    }

    /// Stores a user under a name, replacing any user of that name. On `NoMemory` nothing changes.
    pub(crate) fn insert(
        &mut self,
        alloc: Global,
        name: String,
        user: KeyedUser,
    ) -> Result<(), NoMemory>
        requires { IsSound self.old }
        ensures sound { IsSound self.new }
        ensures ok { OnOk result
            (UpdatesUser (string_bytes name) self.old.by_name self.new.by_name (Some user)) }
        ensures err { OnErr result (tree.IsUnchanged self.old.by_name self.new.by_name) }
    {
        let hash = *user.hash.hash();
        let copy = String::from_str(alloc, name.as_str())?;
        let former = self.by_hash.insert(hash, copy)?;
        self.is_shared = is_shared(self.is_shared, former, name.as_str());
        match self.by_name.insert(name, user) {
            Ok(_) => Ok(()),
            Err(_) => {
                self.by_hash.remove(&hash);
                Err(NoMemory)
            }
        }
    }

    /// Removes the user of this name, if there is one.
    pub(crate) fn remove(&mut self, name: &str)
        requires { IsSound self.old }
        ensures sound { IsSound self.new }
        ensures removed { UpdatesUser name.now self.old.by_name self.new.by_name None }
    {
        if let Some(user) = self.by_name.remove(name) {
            self.by_hash.remove(user.hash.hash());
        }
    }

    /// Finds a user with this hash, and returns it with its name: the first by name, if several
    /// have it (RFC 8489, section 14.4). If two users had the same hash once, it compares the
    /// stored hash of each user; otherwise it searches for the hash.
    pub(crate) fn with_hash(&self, hash: &[u8]) -> Option<(&str, &KeyedUser)>
        requires { IsSound self.now }
        ensures { IsHashed self.now.by_name hash.now
            (option_map {U = List ℕ × Keyed} (λ user. (user.0.now, user.1.now)) result) }
    {
        if self.is_shared {
            return first_hashed(&self.by_name, hash);
        }
        let Ok(key) = <&[u8; 32]>::try_from(hash) else {
            return None;
        };
        let Some(name) = self.by_hash.get(key) else {
            return None;
        };
        let Some(user) = self.by_name.get(name.as_str()) else {
            return None;
        };
        if has_hash(user, hash) {
            Some((name.as_str(), user))
        } else {
            None
        }
    }
}

/// Returns whether two users had the same hash once: they had before, or the name that was
/// registered under this one's hash is another one.
fn is_shared(before: bool, former: Option<String>, name: &str) -> bool
    ensures { MatchOption former (result ≡ before)
        (λ other. result ≡ (before || not (pointwise nat_eq (string_bytes other) name.now))) }
{
    match former {
        Some(other) => before || other.as_str() != name,
        None => before,
    }
}

/// Finds the first user in the map that has this hash, and returns it with its name.
fn first_hashed<'a>(
    users: &'a BTreeMap<String, KeyedUser>,
    hash: &[u8],
) -> Option<(&'a str, &'a KeyedUser)>
    ensures first { option_map {U = List ℕ × Keyed} (λ user. (user.0.now, user.1.now)) result
        ≡ option_map pair_of
        (find (λ user. pointwise nat_eq hash.now user.1.hash) users.now.entries) }
    ensures stored { All (λ user. tree.get string_cmp users.now user.0 ≡ Some user.1)
        users.now.entries }
{
    for (name, user) in users {
        if has_hash(user, hash) {
            return Some((name.as_str(), user));
        }
    }
    None
}

/// Returns whether a hash is the stored one of a user.
fn has_hash(user: &KeyedUser, hash: &[u8]) -> bool
    ensures { result ≡ pointwise nat_eq hash.now user.now.hash }
{
    hash == user.hash.hash().as_slice()
}
