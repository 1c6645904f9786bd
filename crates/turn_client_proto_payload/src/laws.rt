//! What a client delivers from peers, for the crates above. The function does nothing; its contract
//! is a theorem.
#![tactic(auto, using(turn_client_proto_core::proofs::Usual::usual), unfolding(turn_client_proto_core::proofs::Usual::opened))]

ghost use Rattle.std.specs.Prelude.{◌≡◌, ℕ, List, Some};
ghost use Rattle.turn_client_proto_payload.specs.OfPeers.{IsGiven};
ghost use Rattle.turn_client_proto_payload.specs.Payloads.{payload_of};
ghost use Rattle.turn_client_proto_payload.specs.declared.payload.Payload.{Payload};
ghost use Rattle.turn_client_proto_core.specs.declared.protocol.Protocol.{Protocol};

/// If a client delivers a payload of received bytes, the payload is from a peer that the client
/// permits, and lies within the bytes.
///
/// - Of a DATA indication, it is the value of the last DATA attribute, or if there is none the
///   report of the last ICMP attribute. The peer is the one that the indication names, and an
///   allocation has a permission for its address.
/// - Of a channel frame, it is all of its data. The peer is the one to which a channel with the
///   frame's number is bound.
pub fn payloads_are_of_peers()
    ensures { (p : Protocol) (bytes : List ℕ) (payload : Payload)
        → payload_of p bytes ≡ Some payload → IsGiven p bytes payload }
{}
