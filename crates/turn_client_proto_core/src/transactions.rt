//! The transactions of a client's requests: which are outstanding, how a response ends one, and how
//! many challenges in a row are answered (RFC 8489, sections 6.3 and 9.2.5).

ghost use Rattle.std.specs.Prelude.{◌≡◌, OnOk, OnErr, false};
ghost use Rattle.stun_proto_agent.specs.Handling.{is_awaited};
ghost use Rattle.turn_client_proto_core.specs.Responding.{accepted, answered, challenged, is_tired};

use crate::protocol::Protocol;
use stun_types_base::memory::NoMemory;
use stun_types_message::parsed::Message;

/// A client that has answered more challenges in a row than this, with no accepted response between
/// them, answers no more: it answers nine, and the tenth ends it. Before the server has allocated,
/// the tenth counts only if its request is outstanding; afterwards it counts either way.
const MOST_RESENDS: u32 = 8;

impl Protocol {
    /// Returns whether a request with the message's transaction ID is outstanding.
    pub fn is_awaited(&self, message: &Message<'_>) -> bool
        ensures { result ≡ is_awaited self.now.agent message.now }
    {
        self.agent
            .request_transaction(message.transaction_id())
            .is_some()
    }

    /// Returns whether the client has answered too many challenges in a row to answer another.
    pub(crate) fn is_tired(&self) -> bool
        ensures { result ≡ is_tired self.now }
    {
        self.resends > MOST_RESENDS
    }

    /// Ends the transaction that a response belongs to. With `NoMemory`, nothing has changed.
    pub fn answer(&mut self, message: &Message<'_>) -> Result<(), NoMemory>
        ensures ok { OnOk result (self.new ≡ answered message.now self.old) }
        ensures err { OnErr result (self.new ≡ self.old) }
    {
        let _ = self.agent.handle_stun_message(message, self.server)?;
        Ok(())
    }

    /// Accepts a response: ends its transaction and resets the count of challenges. With
    /// `NoMemory`, nothing has changed.
    pub fn accept(&mut self, message: &Message<'_>) -> Result<(), NoMemory>
        ensures ok { OnOk result (self.new ≡ accepted message.now self.old) }
        ensures err { OnErr result (self.new ≡ self.old) }
    {
        self.answer(message)?;
        self.resends = 0;
        Ok(())
    }

    /// Ends the transaction of an answered challenge and counts the challenge. With `NoMemory`,
    /// nothing has changed.
    pub(crate) fn count_challenge(&mut self, message: &Message<'_>) -> Result<(), NoMemory>
        requires { is_tired self.old ≡ false }
        ensures ok { OnOk result (self.new ≡ challenged message.now self.old) }
        ensures err { OnErr result (self.new ≡ self.old) }
    {
        self.answer(message)?;
        self.resends += 1;
        Ok(())
    }
}
