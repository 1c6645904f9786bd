//! The texts of errors.

use crate::line::Line;
use std::fmt::Display;
use stun_types_base::instant::Instant;
use stun_types_base::memory::NoMemory;
use turn_client_proto_api::error::{
    BindChannelError, CreatePermissionError, CreatePermissionsError, DeleteError, SendError,
    TcpAllocateError, TcpConnectError,
};

/// `error KIND VARIANT`: prints the text of an error. The variant `memory` is the error converted
/// from `NoMemory`.
pub(crate) fn error(line: &mut Line<'_>) {
    let (kind, variant) = (line.word(), line.word());
    match kind {
        "bind" => bind(line, variant),
        "permission" => permission(line, variant),
        "permissions" => permissions(line, variant),
        "delete" => delete(line, variant),
        "send" => send(line, variant),
        "connect" => connect(line, variant),
        "socket" => socket(line, variant),
        _ => line.is_bad = true,
    }
}

/// Prints an error. The line is bad if there is none.
fn report<E: Display + Drop>(line: &mut Line<'_>, error: Option<E>) {
    match error {
        Some(error) => line.say(&error),
        None => line.is_bad = true,
    }
}

/// The errors of binding a channel. A time in nanoseconds follows `expired`.
fn bind(line: &mut Line<'_>, variant: &str) {
    let error = match variant {
        "already-exists" => Some(BindChannelError::AlreadyExists),
        "expired" => {
            let time = Instant::from_nanos(line.value(0u64));
            Some(BindChannelError::ExpiredChannelExists(time))
        }
        "no-allocation" => Some(BindChannelError::NoAllocation),
        "no-channel" => Some(BindChannelError::NoChannel),
        "no-memory" => Some(BindChannelError::NoMemory),
        "memory" => Some(BindChannelError::from(NoMemory)),
        _ => None,
    };
    report(line, error);
}

/// The errors of creating a permission.
fn permission(line: &mut Line<'_>, variant: &str) {
    let error = match variant {
        "already-exists" => Some(CreatePermissionError::AlreadyExists),
        "no-allocation" => Some(CreatePermissionError::NoAllocation),
        "no-memory" => Some(CreatePermissionError::NoMemory),
        "memory" => Some(CreatePermissionError::from(NoMemory)),
        _ => None,
    };
    report(line, error);
}

/// The errors of creating permissions for several addresses.
fn permissions(line: &mut Line<'_>, variant: &str) {
    let refused = |error| Some(CreatePermissionsError::Refused(error));
    let error = match variant {
        "invalid-addresses" => Some(CreatePermissionsError::InvalidAddresses),
        "already-exists" => refused(CreatePermissionError::AlreadyExists),
        "no-allocation" => refused(CreatePermissionError::NoAllocation),
        "no-memory" => refused(CreatePermissionError::NoMemory),
        "memory" => Some(CreatePermissionsError::from(NoMemory)),
        _ => None,
    };
    report(line, error);
}

/// The errors of deleting the allocations.
fn delete(line: &mut Line<'_>, variant: &str) {
    let error = match variant {
        "no-allocation" => Some(DeleteError::NoAllocation),
        "no-memory" => Some(DeleteError::NoMemory),
        "memory" => Some(DeleteError::from(NoMemory)),
        _ => None,
    };
    report(line, error);
}

/// The errors of sending to a peer.
fn send(line: &mut Line<'_>, variant: &str) {
    let error = match variant {
        "no-allocation" => Some(SendError::NoAllocation),
        "no-permission" => Some(SendError::NoPermission),
        "no-tcp-socket" => Some(SendError::NoTcpSocket),
        "too-large" => Some(SendError::TooLarge),
        "no-memory" => Some(SendError::NoMemory),
        "memory" => Some(SendError::from(NoMemory)),
        _ => None,
    };
    report(line, error);
}

/// The errors of requesting a connection to a peer.
fn connect(line: &mut Line<'_>, variant: &str) {
    let error = match variant {
        "already-exists" => Some(TcpConnectError::AlreadyExists),
        "no-allocation" => Some(TcpConnectError::NoAllocation),
        "no-permission" => Some(TcpConnectError::NoPermission),
        "no-memory" => Some(TcpConnectError::NoMemory),
        "memory" => Some(TcpConnectError::from(NoMemory)),
        _ => None,
    };
    report(line, error);
}

/// The errors of reporting a socket for a connection to a peer.
fn socket(line: &mut Line<'_>, variant: &str) {
    let error = match variant {
        "already-exists" => Some(TcpAllocateError::AlreadyExists),
        "no-allocation" => Some(TcpAllocateError::NoAllocation),
        "no-memory" => Some(TcpAllocateError::NoMemory),
        "memory" => Some(TcpAllocateError::from(NoMemory)),
        _ => None,
    };
    report(line, error);
}
