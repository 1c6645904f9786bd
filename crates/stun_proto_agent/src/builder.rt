//! The builder of an agent.

ghost use Rattle.std.specs.Prelude.{◌≡◌, None, Some};
ghost use Rattle.std.specs.Duration.{as_nanos};
ghost use Rattle.std.specs.FinMap as finite;
ghost use Rattle.stun_proto_agent.specs.State.{default_waits};

use crate::agent::StunAgent;
use crate::stun_types_base::transport::TransportType;
use std::alloc::Global;
use std::collections::BTreeMap;
use std::marker::Model;
use std::net::SocketAddr;
use std::time::Duration;
use stun_proto_transaction::waits::Waits;

/// The settings from which an agent is built, created by `StunAgent::builder`. Contracts see the
/// record `Agent`, with nothing outstanding and no validated address.
#[derive(Debug, Drop)]
pub struct StunAgentBuilder {
    alloc: Global,
    transport: TransportType,
    local: SocketAddr,
    remote: Option<SocketAddr>,
    waits: Waits,
}

impl Model for StunAgentBuilder {
    ghost use Rattle.std.specs.FinMap as finite;
    ghost use Rattle.stun_proto_agent.specs.Codes.{agent_code};
    ghost use Rattle.stun_proto_agent.specs.State.{Agent};

    ghost Value = { Agent };

    ghost coded = { agent_code };

    ghost view = { λ b. record {
      transport = b.transport;
      here = b.local;
      remote = b.remote;
      waits = b.waits;
      outstanding = finite.empty;
      validated = finite.empty;
    } };
}

impl StunAgent {
    /// Starts building an agent with a transport and the agent's own address. It stores the
    /// allocator.
    ///
    /// The default waits are (RFC 8489, sections 6.2.1 and 6.2.2):
    ///
    /// - Over UDP a request is sent seven times. The first wait is 500 ms, each next one is twice
    ///   as long without an upper limit, and the wait after the last transmission is eight seconds.
    /// - Over TCP a request is sent once, and is given up at the same time as over UDP.
    pub fn builder(alloc: Global, transport: TransportType, local: SocketAddr) -> StunAgentBuilder
        ensures { result ≡ record {
          transport = transport;
          here = local;
          remote = None;
          waits = default_waits;
          outstanding = finite.empty;
          validated = finite.empty;
        } }
    {
        let waits = Waits::new(Duration::from_millis(500), None, 7, Duration::from_secs(8));
        StunAgentBuilder {
            alloc,
            transport,
            local,
            remote: None,
            waits,
        }
    }
}

impl StunAgentBuilder {
    /// Sets the address of the other side, which `StunAgent::remote_addr` then returns.
    pub fn remote_addr(self, addr: SocketAddr) -> StunAgentBuilder
        ensures { result ≡ record self { remote = Some addr } }
    {
        StunAgentBuilder {
            remote: Some(addr),
            ..self
        }
    }

    /// Sets the waits of each new request:
    ///
    /// - `initial` is the wait after the first transmission. Each next wait is twice as long, but
    ///   none is longer than `max`.
    /// - `retransmits` is how many times a request is sent in all; it is sent at least once.
    /// - `final_retransmit_timeout` is the wait after the last transmission. It may be longer than
    ///   `max`.
    ///
    /// Over TCP a request is sent once, and is given up at the same time as over UDP.
    pub fn request_retransmits(
        self,
        initial: Duration,
        max: Duration,
        retransmits: u32,
        final_retransmit_timeout: Duration,
    ) -> StunAgentBuilder
        ensures { result ≡ record self {
          waits = record {
            initial = as_nanos initial;
            most = Some (as_nanos max);
            retransmits = retransmits;
            final = as_nanos final_retransmit_timeout;
          };
        } }
    {
        StunAgentBuilder {
            waits: Waits::new(initial, Some(max), retransmits, final_retransmit_timeout),
            ..self
        }
    }

    /// Builds the agent, with no outstanding request and no validated address. It allocates nothing
    /// yet.
    pub fn build(self) -> StunAgent
        ensures { result ≡ self }
    {
        StunAgent::new(
            self.alloc,
            self.transport,
            self.local,
            self.remote,
            self.waits,
        )
    }
}
