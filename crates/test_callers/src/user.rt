//! The user `user` with the password `pass`, and a server with the realm `realm` that knows the
//! user.

ghost use Rattle.std.specs.Prelude.{◌≡◌, List, ℕ, IfOk, OnOk};
ghost use Rattle.std.specs.FinMap as map;

use std::alloc::Global;
use stun_proto::auth::LongTermServerAuth;
use stun_types::NoMemory;
use stun_types::message::{LongTermCredentials, LongTermKeyCredentials};

/// Returns a server that knows the user, and no other.
pub(crate) fn server(alloc: Global) -> Result<LongTermServerAuth, NoMemory>
    ensures { IfOk result (λ server. (name password : List ℕ)
        × (server.users ≡ map.insert map.empty name password)) }
{
    match String::from_str(alloc, "realm") {
        Ok(realm) => {
            let mut server = LongTermServerAuth::new(alloc, realm);
            match add_user(alloc, &mut server) {
                Ok(()) => Ok(server),
                Err(error) => {
                    drop(server);
                    Err(error)
                }
            }
        }
        Err(_) => Err(NoMemory),
    }
}

/// Adds the user to a server.
fn add_user(alloc: Global, server: &mut LongTermServerAuth) -> Result<(), NoMemory>
    ensures { OnOk result ((name password : List ℕ)
        × (server.new ≡ record server.old {
          users = map.insert server.old.users name password;
        })) }
{
    match user(alloc) {
        Ok(user) => server.add_user(user),
        Err(error) => Err(error),
    }
}

/// Returns the user's key in the realm.
pub(crate) fn key_of_user(alloc: Global) -> Result<LongTermKeyCredentials, NoMemory> {
    match user(alloc) {
        Ok(user) => {
            let key = match String::from_str(alloc, "realm") {
                Ok(realm) => user.to_key(alloc, realm),
                Err(_) => Err(NoMemory),
            };
            drop(user);
            key
        }
        Err(error) => Err(error),
    }
}

/// Returns the user's credentials.
fn user(alloc: Global) -> Result<LongTermCredentials, NoMemory> {
    match String::from_str(alloc, "user") {
        Ok(name) => match String::from_str(alloc, "pass") {
            Ok(password) => Ok(LongTermCredentials::new(name, password)),
            Err(_) => {
                drop(name);
                Err(NoMemory)
            }
        },
        Err(_) => Err(NoMemory),
    }
}
