//! Handling of messages from the server.

ghost use Rattle.std.specs.Prelude.{◌≡◌, IfOk, OnErr};
ghost use Rattle.turn_client_proto_core.specs.Ending.{HasFailed, IsUnderWay};
ghost use Rattle.turn_client_proto_core.specs.Receiving.{IsProcessed, IsProcessedIn, MayGrow, MayGrowIn, is_unawaited};

use crate::protocol::{Phase, Protocol};
use stun_types_base::instant::Instant;
use stun_types_base::memory::NoMemory;
use stun_types_message::parsed::Message;
use stun_types_wire::class::MessageClass;
use turn_client_proto_allocation::numbers::has_number;

impl Protocol {
    /// Handles a message from the server, and returns whether it was for the client. A hardened
    /// client ignores a response whose transaction ID isn't outstanding, and is unchanged.
    ///
    /// # Errors
    ///
    /// - `NoMemory`: a memory allocation failed. The client has then ended: it has no allocations,
    ///   awaits no response and sends nothing more. Events that were queued before the call stay
    ///   queued.
    ///
    /// Memory is needed only if there is something to store or report:
    ///
    /// - for a challenge that can be answered, whatever request it answers;
    /// - for a response that is accepted, or that ends the client;
    /// - for a validated CONNECTION_ATTEMPT request;
    /// - for a CONNECTION_ATTEMPT indication, if the settings accept such.
    ///
    /// It is never needed by a client that has sent nothing or has ended, or for another indication.
    /// For a response whose transaction ID isn't outstanding, a hardened client never needs it, and any
    /// other only in three cases: the response is such a challenge; its integrity check fails, which
    /// ends a client in `Authenticating`; or it validates before an ALLOCATE was signed.
    pub fn handle_message(&mut self, message: &Message<'_>, now: Instant) -> Result<bool, NoMemory>
        ensures ok { IfOk result (λ handled. IsProcessed self.old message.now now handled self.new) }
        ensures err { OnErr result (HasFailed self.old self.new) }
        ensures memory { OnErr result (MayGrow self.old message.now) }
    {
        let events = self.events.len();
        if self.is_unawaited(message) {
            return Ok(false);
        }
        match self.process(message, now) {
            Ok(is_handled) => Ok(is_handled),
            Err(e) => {
                self.fail(events);
                Err(e)
            }
        }
    }

    /// Returns whether a message is a response that a hardened client ignores: no request with its
    /// transaction ID is outstanding.
    #[tactic(auto, unfolding(crate::specs::Receiving::is_unawaited))]
    fn is_unawaited(&self, message: &Message<'_>) -> bool
        ensures { result ≡ is_unawaited self.now message.now }
    {
        self.auth.is_hardened() && message.is_response() && !self.is_awaited(message)
    }

    /// Handles a message for `handle_message`. If a memory allocation fails, the client is left in
    /// an intermediate state (`IsUnderWay`).
    fn process(&mut self, message: &Message<'_>, now: Instant) -> Result<bool, NoMemory>
        ensures ok { IfOk result (λ handled.
            IsProcessedIn self.old.phase self.old message.now now handled self.new) }
        ensures err { OnErr result (IsUnderWay self.old self.new) }
        ensures memory { OnErr result (MayGrowIn self.old.phase self.old message.now) }
    {
        match &self.phase {
            Phase::Initial | Phase::Ended => Ok(false),
            Phase::InitialSent(_) => {
                if !message.is_response() {
                    return Ok(false);
                }
                self.process_first(message, now)
            }
            Phase::Authenticating(numbers) => {
                let number = message.transaction_id();
                if !(message.is_response() && has_number(numbers.as_slice(), number)) {
                    return Ok(false);
                }
                self.process_signed(message, now)
            }
            Phase::Authenticated => {
                if message.class() == MessageClass::Indication {
                    return self.take_indication(message);
                }
                self.process_standing(message, now)
            }
        }
    }
}
