//! The errors of a client's calls. Unless a call says otherwise, a call that fails changes nothing.

use stun_types_base::instant::Instant;
use stun_types_base::memory::NoMemory;
use thiserror::Error;

/// A lifetime of 0 can't be requested: a REFRESH with it deletes the allocation (RFC 8656, section
/// 8.1).
#[derive(Clone, Copy, Debug, PartialEq, Eq, Error)]
#[error("a lifetime of 0 deletes the allocation")]
pub struct ZeroLifetime;

/// Why no channel is requested (RFC 8656, section 12.1).
#[derive(Clone, Copy, Debug, PartialEq, Eq, Error)]
#[non_exhaustive]
pub enum BindChannelError {
    /// There is a channel to the peer.
    #[error("The channel identifier already exists and cannot be recreated.")]
    AlreadyExists,
    /// A channel to the peer expired. No new one is bound to that peer up to and including this
    /// time. At this time the number of the expired channel is free for another peer.
    #[error("The channel for requested peer address has expired and cannot be recreated until {}.", .0.as_nanos())]
    ExpiredChannelExists(Instant),
    /// There is no allocation of that transport and family, or the client has ended.
    #[error("There is no connection to the TURN server that can handle this channel.")]
    NoAllocation,
    /// Every channel number is bound, requested, or reserved.
    #[error("no channel number is free")]
    NoChannel,
    /// An allocation failed, and no other error applies.
    #[error("no memory")]
    NoMemory,
}

/// Why no permission is requested (RFC 8656, section 10.1).
#[derive(Clone, Copy, Debug, PartialEq, Eq, Error)]
#[non_exhaustive]
pub enum CreatePermissionError {
    /// There is a permission for the address, or one is requested.
    #[error("The permission already exists and cannot be recreated.")]
    AlreadyExists,
    /// There is no allocation of that transport and family, or the client has ended.
    #[error("There is no connection to the TURN server that can handle this permission")]
    NoAllocation,
    /// An allocation failed, and no other error applies.
    #[error("no memory")]
    NoMemory,
}

/// Why no permissions are requested for several addresses (RFC 8656, section 10.1).
#[derive(Clone, Copy, Debug, PartialEq, Eq, Error)]
#[non_exhaustive]
pub enum CreatePermissionsError {
    /// There is no address, there are more than `MOST_PEER_IPS`, 32, or they are of two families.
    #[error("there is no address, there are too many, or they are of two families")]
    InvalidAddresses,
    /// The call is refused as `create_permission` is.
    #[error("{}", .0)]
    Refused(CreatePermissionError),
}

/// Why the end of the allocations is not requested (RFC 8656, section 8.1).
#[derive(Clone, Copy, Debug, PartialEq, Eq, Error)]
#[non_exhaustive]
pub enum DeleteError {
    /// The server has allocated nothing, or the client has ended.
    #[error("There is no connection to the TURN server")]
    NoAllocation,
    /// An allocation failed, and no other error applies.
    #[error("no memory")]
    NoMemory,
}

/// Why bytes are not sent to a peer (RFC 8656, sections 11.1 and 12.5).
#[derive(Clone, Copy, Debug, PartialEq, Eq, Error)]
#[non_exhaustive]
pub enum SendError {
    /// No call returns this.
    #[error("There is no connection to the TURN server")]
    NoAllocation,
    /// There is no permission for the peer's address. Without an allocation there is none.
    #[error("There is no permission installed for the requested peer")]
    NoPermission,
    /// No connection to the peer is bound (RFC 6062, section 4.3).
    #[error("There is no local TCP socket for the requested peer")]
    NoTcpSocket,
    /// There are more than `MAX_PAYLOAD` bytes, 65,504, which is too many for an allocation over
    /// UDP.
    #[error("payload too large")]
    TooLarge,
    /// An allocation failed, and no other error applies.
    #[error("no memory")]
    NoMemory,
}

/// Why no connection to a peer is requested (RFC 6062, section 4.3).
#[derive(Clone, Copy, Debug, PartialEq, Eq, Error)]
#[non_exhaustive]
pub enum TcpConnectError {
    /// There is a connection to the peer, or one is requested, or one waits for its socket.
    #[error("The TCP connection already exists and cannot be recreated.")]
    AlreadyExists,
    /// There is no allocation over TCP of that family, or the client has ended.
    #[error("There is no connection to the TURN server that can handle this TCP socket.")]
    NoAllocation,
    /// There is no permission for the peer's address.
    #[error("There is no permission installed for the requested peer")]
    NoPermission,
    /// An allocation failed, and no other error applies.
    #[error("no memory")]
    NoMemory,
}

/// Why the socket of a connection to a peer is not accepted (RFC 6062, sections 4.3 and 4.4).
#[derive(Clone, Copy, Debug, PartialEq, Eq, Error)]
#[non_exhaustive]
pub enum TcpAllocateError {
    /// Another connection has that own address.
    #[error("The TCP connection already exists and cannot be recreated.")]
    AlreadyExists,
    /// No connection with that ID and to that peer waits for a socket, the five-tuple is not the
    /// client's own connection to the server, or the client has not allocated over TCP or has
    /// ended.
    #[error("There is no connection to the TURN server that can handle this TCP socket.")]
    NoAllocation,
    /// An allocation failed, and no other error applies.
    #[error("no memory")]
    NoMemory,
}

impl From<NoMemory> for BindChannelError {
    ghost use Rattle.std.specs.Prelude.{◌≡◌};
    ghost use Rattle.turn_client_proto_api.specs.declared.error.BindChannelError.TheVariants.{NoMemory};

    ghost from_gives = { λ _ error. error ≡ NoMemory };

    fn from(_error: NoMemory) -> BindChannelError {
        BindChannelError::NoMemory
    }
}

impl From<NoMemory> for CreatePermissionError {
    ghost use Rattle.std.specs.Prelude.{◌≡◌};
    ghost use Rattle.turn_client_proto_api.specs.declared.error.CreatePermissionError.TheVariants.{NoMemory};

    ghost from_gives = { λ _ error. error ≡ NoMemory };

    fn from(_error: NoMemory) -> CreatePermissionError {
        CreatePermissionError::NoMemory
    }
}

impl From<NoMemory> for CreatePermissionsError {
    ghost use Rattle.std.specs.Prelude.{◌≡◌};
    ghost use Rattle.turn_client_proto_api.specs.declared.error.CreatePermissionError.TheVariants.{NoMemory};
    ghost use Rattle.turn_client_proto_api.specs.declared.error.CreatePermissionsError.TheVariants.{Refused};

    ghost from_gives = { λ _ error. error ≡ Refused NoMemory };

    fn from(_error: NoMemory) -> CreatePermissionsError {
        CreatePermissionsError::Refused(CreatePermissionError::NoMemory)
    }
}

impl From<NoMemory> for DeleteError {
    ghost use Rattle.std.specs.Prelude.{◌≡◌};
    ghost use Rattle.turn_client_proto_api.specs.declared.error.DeleteError.TheVariants.{NoMemory};

    ghost from_gives = { λ _ error. error ≡ NoMemory };

    fn from(_error: NoMemory) -> DeleteError {
        DeleteError::NoMemory
    }
}

impl From<NoMemory> for SendError {
    ghost use Rattle.std.specs.Prelude.{◌≡◌};
    ghost use Rattle.turn_client_proto_api.specs.declared.error.SendError.TheVariants.{NoMemory};

    ghost from_gives = { λ _ error. error ≡ NoMemory };

    fn from(_error: NoMemory) -> SendError {
        SendError::NoMemory
    }
}

impl From<NoMemory> for TcpConnectError {
    ghost use Rattle.std.specs.Prelude.{◌≡◌};
    ghost use Rattle.turn_client_proto_api.specs.declared.error.TcpConnectError.TheVariants.{NoMemory};

    ghost from_gives = { λ _ error. error ≡ NoMemory };

    fn from(_error: NoMemory) -> TcpConnectError {
        TcpConnectError::NoMemory
    }
}

impl From<NoMemory> for TcpAllocateError {
    ghost use Rattle.std.specs.Prelude.{◌≡◌};
    ghost use Rattle.turn_client_proto_api.specs.declared.error.TcpAllocateError.TheVariants.{NoMemory};

    ghost from_gives = { λ _ error. error ≡ NoMemory };

    fn from(_error: NoMemory) -> TcpAllocateError {
        TcpAllocateError::NoMemory
    }
}
