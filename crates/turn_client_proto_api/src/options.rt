//! What a client asks of the server for its allocation, besides transport and families.

ghost use Rattle.std.specs.Prelude.{◌≡◌};
ghost use Rattle.turn_client_proto_api.specs.Options.{default_options};

/// The lifetime, in seconds, that a client requests for an allocation and for its refresh unless it
/// is set otherwise.
pub const ALLOCATION_LIFETIME: u32 = 1800;

/// The port that a client requests for the relayed address (RFC 8656, section 7.1).
#[derive(Clone, Copy, Debug, PartialEq, Eq)]
pub enum RelayedPort {
    /// Any port.
    Any,
    /// An even port, by EVEN-PORT (RFC 8656, section 18.7).
    Even,
    /// An even port, and that the server reserve the next one on the same IP address for another
    /// allocation: EVEN-PORT with the bit R (RFC 8656, section 18.7). Servers refuse it beside two
    /// families.
    EvenAndNextReserved,
    /// The port that the server reserved under this token, most significant byte first:
    /// RESERVATION-TOKEN (RFC 8656, section 18.10). The families are not sent then, since the server
    /// has chosen the address already; the client takes it if its family is requested.
    Reserved(u64),
}

/// What an ALLOCATE asks of the server besides transport and families (RFC 8656, section 7.1).
#[derive(Clone, Copy, Debug, PartialEq, Eq)]
pub struct AllocateOptions {
    /// The lifetime in seconds, also of each REFRESH that renews the allocation (RFC 8656, sections
    /// 7.1 and 8.1).
    pub lifetime: u32,
    /// The port of the relayed address.
    pub port: RelayedPort,
}

impl AllocateOptions {
    /// Returns the options of new settings: half an hour, and any port.
    pub fn new() -> AllocateOptions
        ensures { result ≡ default_options }
    {
        AllocateOptions {
            lifetime: ALLOCATION_LIFETIME,
            port: RelayedPort::Any,
        }
    }
}
