//! The credentials of a user of a TURN server.

ghost use Rattle.std.specs.Prelude.{◌≡◌, IfOk};

use crate::stun_types_base::memory::NoMemory;
use std::alloc::Global;
use std::fmt;
use std::marker::Model;
use stun_types_integrity::credentials::LongTermCredentials;

/// The name and the password of a user of a TURN server. Contracts see the two texts.
#[derive(Drop)]
pub struct TurnCredentials {
    username: String,
    password: String,
}

impl Model for TurnCredentials {
    ghost use Rattle.std.specs.String.{string_bytes};
    ghost use Rattle.stun_types_integrity.specs.Credentials.{NameAndPassword};

    ghost Value = { NameAndPassword };

    ghost view = { λ c.
        record { username = string_bytes c.username; password = string_bytes c.password } };
}

impl TurnCredentials {
    /// Creates the credentials of copies of this name and password.
    ///
    /// # Errors
    ///
    /// - `NoMemory`: an allocation failed.
    pub fn new(alloc: Global, username: &str, password: &str) -> Result<TurnCredentials, NoMemory>
        ensures { IfOk result (λ made. made
            ≡ record { username = username.now; password = password.now }) }
    {
        Ok(TurnCredentials {
            username: String::from_str(alloc, username)?,
            password: String::from_str(alloc, password)?,
        })
    }

    /// The user's name.
    pub fn username(&self) -> &str
        ensures { result.now ≡ self.now.username }
    {
        self.username.as_str()
    }

    /// The user's password.
    pub fn password(&self) -> &str
        ensures { result.now ≡ self.now.password }
    {
        self.password.as_str()
    }
}

impl fmt::Debug for TurnCredentials {
    /// Prints the name and hides the password.
    fn fmt<W: fmt::Write>(&self, f: &mut fmt::Formatter<W>) -> fmt::Result {
        write!(
            f,
            "TurnCredentials {{ username: {:?}, password: .. }}",
            self.username
        )
    }
}

/// Keeps the name and the password.
impl From<TurnCredentials> for LongTermCredentials {
    ghost use Rattle.std.specs.Prelude.{◌≡◌};

    ghost from_gives = { λ credentials made. made ≡ credentials };

    fn from(value: TurnCredentials) -> LongTermCredentials {
        let TurnCredentials { username, password } = value;
        LongTermCredentials::new(username, password)
    }
}
