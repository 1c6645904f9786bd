//! The state of a TURN client.

ghost use Rattle.std.specs.Prelude.{◌≡◌};
ghost use Rattle.turn_client_proto_allocation.specs.Awaited.{has_number};
ghost use Rattle.turn_client_proto_core.specs.Numbering.{awaits};

use rand_chacha::ChaCha20Rng;
use std::alloc::Global;
use std::net::SocketAddr;
use std::time::Duration;
use stun_proto_agent::agent::StunAgent;
use stun_types_base::instant::Instant;
use stun_types_base::list::ListOf;
use stun_types_base::transport::TransportType;
use stun_types_wire::transaction::TransactionId;
use turn_client_proto_allocation::listed::Allocations;
use turn_client_proto_allocation::numbers::has_number;
use turn_client_proto_api::event::TurnEvent;
use turn_client_proto_api::families::RequestedFamilies;
use turn_client_proto_api::options::AllocateOptions;
use turn_client_proto_api::queue::QueueOf;
use turn_client_proto_messages::queued::Queued;
use turn_client_proto_messages::signer::Signer;

/// The phase of a client.
#[derive(Debug, Drop)]
pub enum Phase {
    /// Nothing has been sent.
    Initial,
    /// An ALLOCATE was sent without credentials, with one of these transaction IDs.
    InitialSent(ListOf<TransactionId>),
    /// An ALLOCATE was sent with credentials. The list has the transaction IDs of all ALLOCATEs so
    /// far, the unsigned one included; after a 440 error was accepted, of those since then only.
    Authenticating(ListOf<TransactionId>),
    /// The server has allocated.
    Authenticated,
    /// The client has ended.
    Ended,
}

impl Phase {
    /// Returns whether an ALLOCATE with this transaction ID was sent and the client is still
    /// allocating.
    #[tactic(auto, unfolding(crate::specs::Numbering::awaits))]
    pub fn awaits(&self, transaction_id: TransactionId) -> bool
        ensures { result ≡ awaits transaction_id self.now }
    {
        match self {
            Phase::InitialSent(numbers) | Phase::Authenticating(numbers) => {
                has_number(numbers.as_slice(), transaction_id)
            }
            Phase::Initial | Phase::Authenticated | Phase::Ended => false,
        }
    }
}

/// A TURN client without the framing of its transport.
#[derive(Debug, Drop)]
pub struct Protocol {
    /// The allocator.
    pub alloc: Global,
    /// The server's address.
    pub server: SocketAddr,
    /// The requested transport between the server and the peers.
    pub allocates: TransportType,
    /// The requested address families.
    pub families: RequestedFamilies,
    /// Signs outgoing messages and validates incoming ones.
    pub auth: Signer,
    /// The outstanding requests.
    pub agent: StunAgent,
    /// The phase.
    pub phase: Phase,
    /// The allocations that the server granted.
    pub allocations: Allocations,
    /// The messages that are queued for sending.
    pub queue: QueueOf<Queued>,
    /// The time at which a message was last sent.
    pub last_send: Option<Instant>,
    /// The queued events.
    pub events: QueueOf<TurnEvent>,
    /// The local addresses of the data connections that the caller has to close.
    pub closing: QueueOf<SocketAddr>,
    /// The limit on connections of peers (`TurnConfig::set_max_connection_attempts`).
    pub max_connection_attempts: Option<usize>,
    /// Whether a REFRESH may shorten an allocation (`TurnConfig::set_short_lifetimes`).
    pub short_lifetimes: bool,
    /// Whether an indication may announce a connection of a peer
    /// (`TurnConfig::set_attempt_indications`).
    pub attempt_indications: bool,
    /// What an ALLOCATE asks for besides transport and families.
    pub options: AllocateOptions,
    /// The least time between two messages that the client sends (`TurnConfig::set_pace`).
    pub pace: Duration,
    /// The count of challenges answered since a response was last accepted.
    pub resends: u32,
    /// The generator of the transaction IDs.
    pub rng: ChaCha20Rng,
}
