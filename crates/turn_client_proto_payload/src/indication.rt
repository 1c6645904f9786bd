//! Reading of what an indication says of a peer (RFC 8656, sections 11.3, 18.3, 18.4 and 18.13).
#![tactic(auto, using(turn_client_proto_core::proofs::Usual::usual), unfolding(turn_client_proto_core::proofs::Usual::opened))]

ghost use Rattle.std.specs.Prelude.{◌≡◌, ◌+◌, ◌≤◌, length, option_map, true, false, MatchOption};
ghost use Rattle.turn_types_attributes.specs.TurnRegistry.{data_kind, xor_peer_address_kind};
ghost use Rattle.turn_types_peer.specs.TurnShows.{address_in};
ghost use Rattle.turn_client_proto_core.specs.TurnRuns.Indications.{last_listed, peer_reported, report_in, report_decoded, shows_unexpected};

use std::convert::TryFrom;
use std::net::SocketAddr;
use stun_types_message::parsed::Message;
use stun_types_wire::attribute::RawAttribute;
use stun_types_wire::transaction::TransactionId;
use stun_types_write::attribute::AttributeStaticType;
use turn_types_peer::data::Data;
use turn_types_peer::icmp::Icmp;
use turn_types_peer::xor_peer_address::XorPeerAddress;

/// The attributes of a DATA indication: of each type, the last visible one. A field is `None` if
/// there is none, or if the last one is malformed.
#[derive(Drop)]
pub struct IndicationFields {
    /// The address in XOR-PEER-ADDRESS.
    pub peer: Option<SocketAddr>,
    /// The offset of DATA, and the length of its value.
    pub value: Option<(usize, usize)>,
    /// The report in ICMP.
    pub report: Option<Icmp>,
}

/// Reads the visible attributes of a message in one pass. Returns `None` if one of another type is
/// comprehension-required.
#[tactic(auto, using(crate::proofs::Last::last_reported, crate::proofs::Last::last_mapped))]
pub fn reported_in(message: &Message<'_>) -> Option<IndicationFields>
    ensures { MatchOption result (shows_unexpected message.now ≡ true) (λ reported.
        (shows_unexpected message.now ≡ false)
        × (reported.peer ≡ peer_reported message.now)
        × (reported.value
        ≡ option_map (λ e. (e.0, length e.1.value)) (last_listed data_kind message.now))
        × (reported.report ≡ report_decoded message.now)) }
{
    let (mut peer, mut value, mut report) = (None, None, None);
    for (offset, raw) in message.iter_attributes() {
        let atype = raw.get_type();
        if atype == XorPeerAddress::TYPE {
            peer = peer_in(&raw, message.transaction_id());
        } else if atype == Data::TYPE {
            value = Some((offset, raw.value().len()));
        } else if atype == Icmp::TYPE {
            report = report_in(&raw);
        } else if atype.comprehension_required() {
            return None;
        }
    }
    Some(IndicationFields {
        peer,
        value,
        report,
    })
}

/// Returns the address in an XOR-PEER-ADDRESS of a message with this transaction ID, if the
/// attribute is well formed.
fn peer_in(raw: &RawAttribute<'_>, transaction_id: TransactionId) -> Option<SocketAddr>
    requires { raw.now.kind ≡ xor_peer_address_kind }
    ensures { result ≡ address_in transaction_id raw.now }
{
    match XorPeerAddress::try_from(raw) {
        Ok(peer) => Some(peer.addr(transaction_id)),
        Err(_) => None,
    }
}

/// Returns the report in an ICMP attribute, if it is well formed.
fn report_in(raw: &RawAttribute<'_>) -> Option<Icmp>
    ensures { result ≡ report_in raw.now }
{
    match Icmp::try_from(raw) {
        Ok(report) => Some(report),
        Err(_) => None,
    }
}

/// Returns the start and the end of an attribute's value with this length. `offset` is that of the
/// attribute, whose header has 4 bytes.
pub fn index(bytes: &[u8], offset: usize, len: usize) -> (usize, usize)
    requires { offset + 4 + len ≤ length bytes.now }
    ensures { result ≡ (offset + 4, offset + 4 + len) }
{
    (offset + 4, offset + 4 + len)
}
