//! Transports of messages.

use std::fmt;
use std::str::FromStr;
use thiserror::Error;

/// The transport of a message or of an allocation.
#[derive(Clone, Copy, Debug, PartialEq, Eq)]
pub enum TransportType {
    /// UDP.
    Udp,
    /// TCP.
    Tcp,
}

/// The error of parsing a text that names no transport.
#[derive(Clone, Copy, Debug, PartialEq, Eq, Error)]
pub enum ParseTransportTypeError {
    /// The text is neither `UDP` nor `TCP`.
    #[error("Unknown transport value was provided")]
    UnknownTransport,
}

/// Prints `UDP` or `TCP`.
impl fmt::Display for TransportType {
    ghost use Rattle.std.specs.Prelude.{Some};
    ghost use Rattle.stun_types_base.specs.Transport.{name_of_transport};

    ghost output = { λ transport. Some (name_of_transport transport) };

    fn fmt<W: fmt::Write>(&self, f: &mut fmt::Formatter<W>) -> fmt::Result {
        match self {
            TransportType::Udp => write!(f, "UDP"),
            TransportType::Tcp => write!(f, "TCP"),
        }
    }
}

/// Parses what `Display` prints, in upper case only.
impl FromStr for TransportType {
    ghost use Rattle.stun_types_base.specs.Transport.{ReadsTransport};

    type Err = ParseTransportTypeError;

    ghost from_str_gives = { ReadsTransport };

    fn from_str(s: &str) -> Result<Self, ParseTransportTypeError> {
        match s {
            "UDP" => Ok(TransportType::Udp),
            "TCP" => Ok(TransportType::Tcp),
            _ => Err(ParseTransportTypeError::UnknownTransport),
        }
    }
}
