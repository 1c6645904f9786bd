//! The agent of requests (RFC 8489, section 6): when each is retransmitted, when it is given up,
//! and which responses are awaited.

pub use stun_proto_agent::agent::{StunAgent, StunAgentPollRet};
pub use stun_proto_agent::builder::StunAgentBuilder;
pub use stun_proto_agent::error::StunError;
pub use stun_proto_agent::request::{StunRequest, StunRequestMut};
pub use stun_types_base::transmit::Transmit;
