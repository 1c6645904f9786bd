//! Handling of received messages.

ghost use Rattle.std.specs.Prelude.{◌≡◌, IfOk, OnErr, OnOk, true};
ghost use Rattle.stun_proto_agent.specs.Handling.{after_message, ends_one, is_taken};

use crate::agent::StunAgent;
use crate::stun_types_base::instant::Instant;
use crate::stun_types_base::memory::NoMemory;
use crate::stun_types_message::parsed::Message;
use std::net::SocketAddr;

impl StunAgent {
    /// Handles a received message, and returns whether the caller should process it (RFC 8489,
    /// sections 6.3.1 to 6.3.4):
    ///
    /// - A response to an outstanding request: `true`, whatever address it came from. The
    ///   transaction ends, and the address is validated from then on.
    /// - Any other response: `false`, and nothing changes. So a response that is received twice is
    ///   accepted once.
    /// - A request or an indication: `true`, and nothing changes.
    ///
    /// The agent checks only the class and the transaction ID. Authentication is left to the
    /// caller.
    ///
    /// # Errors
    ///
    /// - `NoMemory`: an allocation failed. It occurs only for a response to an outstanding request.
    ///   Nothing changes.
    pub fn handle_stun_message(
        &mut self,
        msg: &Message<'_>,
        from: SocketAddr,
    ) -> Result<bool, NoMemory>
        ensures answer { IfOk result (λ is_taken_up. is_taken_up ≡ is_taken self.old msg.now) }
        ensures state { OnOk result (self.new ≡ after_message self.old msg.now from) }
        ensures memory { OnErr result
            ((ends_one self.old msg.now ≡ true) × (self.new ≡ self.old)) }
    {
        if !msg.is_response() {
            return Ok(true);
        }
        let number = msg.transaction_id();
        if !self.is_outstanding(number) {
            return Ok(false);
        }
        self.validated_peer(from)?;
        self.take_out(number);
        Ok(true)
    }

    /// Handles a received message exactly as `handle_stun_message` does. The time is ignored.
    pub fn handle_stun_message_with_time(
        &mut self,
        msg: &Message<'_>,
        from: SocketAddr,
        _now: Instant,
    ) -> Result<bool, NoMemory>
        ensures answer { IfOk result (λ is_taken_up. is_taken_up ≡ is_taken self.old msg.now) }
        ensures state { OnOk result (self.new ≡ after_message self.old msg.now from) }
        ensures memory { OnErr result
            ((ends_one self.old msg.now ≡ true) × (self.new ≡ self.old)) }
    {
        self.handle_stun_message(msg, from)
    }
}
