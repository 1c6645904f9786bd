//! The attributes of TURN (RFC 8656, section 18; RFC 6062, section 6.2).

pub use turn_types_attributes::additional_address_family::AdditionalAddressFamily;
pub use turn_types_attributes::address_error_code::AddressErrorCode;
pub use turn_types_attributes::dont_fragment::DontFragment;
pub use turn_types_attributes::even_port::EvenPort;
pub use turn_types_attributes::lifetime::Lifetime;
pub use turn_types_attributes::requested_address_family::RequestedAddressFamily;
pub use turn_types_attributes::requested_transport::RequestedTransport;
pub use turn_types_attributes::reservation_token::ReservationToken;
pub use turn_types_attributes::xor_relayed_address::XorRelayedAddress;
pub use turn_types_peer::channel_number::ChannelNumber;
pub use turn_types_peer::connection_id::ConnectionId;
pub use turn_types_peer::data::Data;
pub use turn_types_peer::icmp::Icmp;
pub use turn_types_peer::xor_peer_address::XorPeerAddress;
