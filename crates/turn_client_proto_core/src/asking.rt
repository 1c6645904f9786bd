//! Building, signing and queueing of requests (RFC 8489, section 6.2).

ghost use Rattle.std.specs.Prelude.{◌≡◌, OnOk, OnErr};
ghost use Rattle.turn_client_proto_core.specs.Asking.{requested, requested_from};
ghost use Rattle.turn_client_proto_core.specs.Numbering.{IsUnused};

use crate::protocol::Protocol;
use std::net::SocketAddr;
use stun_proto_agent::error::StunError;
use stun_types_base::instant::Instant;
use stun_types_base::memory::NoMemory;
use stun_types_wire::transaction::TransactionId;
use turn_client_proto_messages::queued::Queued;
use turn_client_proto_messages::request::TurnRequest;

impl Protocol {
    /// Queues a signed request with transaction ID `number`, to be sent from the client's own
    /// address. The request is outstanding from now on.
    ///
    /// # Errors
    ///
    /// - `NoMemory`: a memory allocation failed; nothing changed.
    pub fn ask(
        &mut self,
        transaction_id: TransactionId,
        request: TurnRequest<'_>,
        now: Instant,
    ) -> Result<(), NoMemory>
        requires unused { IsUnused self.old.agent transaction_id }
        ensures ok { OnOk result (self.new ≡ requested self.old request.entry transaction_id now) }
        ensures err { OnErr result (self.new ≡ self.old) }
    {
        let here = self.agent.local_addr();
        self.ask_from(here, transaction_id, request, now)
    }

    /// Queues a request as `ask` does, but to be sent from another local address: that of a data
    /// connection.
    pub fn ask_from(
        &mut self,
        from: SocketAddr,
        transaction_id: TransactionId,
        request: TurnRequest<'_>,
        now: Instant,
    ) -> Result<(), NoMemory>
        requires unused { IsUnused self.old.agent transaction_id }
        ensures ok { OnOk result (self.new ≡ requested_from from self.old request.entry
            transaction_id now) }
        ensures err { OnErr result (self.new ≡ self.old) }
    {
        let bytes = self
            .auth
            .write_request(self.alloc, transaction_id, request)?;
        let queued = Queued::new(bytes, from, true);
        self.queue.push_back(queued)?;
        // It was pushed just now.
        let Some(last) = self.queue.back() else {
            unreachable!()
        };
        match self.agent.send_request(last.bytes(), self.server, now) {
            Ok(_) => Ok(()),
            Err(e) => match e {
                StunError::NoMemory => {
                    self.queue.pop_back();
                    Err(NoMemory)
                }
                // The bytes are a request, and its transaction ID isn't outstanding (`unused`).
                _ => unreachable!(),
            },
        }
    }
}
