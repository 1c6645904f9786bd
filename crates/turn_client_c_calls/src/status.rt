//! The results of calls, by the numbers of `enum turn_status`.

/// The call did what it says.
pub(crate) const OK: i32 = 0;

/// There is no message, event, payload or joined bytes to return.
pub(crate) const NOTHING: i32 = 1;

/// The bytes are not for the client.
pub(crate) const IGNORED: i32 = 2;

/// The bytes carry data of a peer.
pub(crate) const PAYLOAD: i32 = 3;

/// The bytes carry an ICMP report.
pub(crate) const ICMP: i32 = 4;

/// The client has ended, or has no allocation left.
pub(crate) const CLOSED: i32 = 5;

/// A connection to the server is to be opened.
pub(crate) const OPEN_SOCKET: i32 = 6;

/// A connection to the server is to be closed.
pub(crate) const CLOSE_SOCKET: i32 = 7;

/// The handle is not open.
pub(crate) const NO_CLIENT: i32 = -1;

/// The handle is open already.
pub(crate) const ALREADY_OPEN: i32 = -2;

/// The family of an address is not one that the call takes.
pub(crate) const BAD_FAMILY: i32 = -3;

/// The name or the password is not UTF-8.
pub(crate) const BAD_TEXT: i32 = -4;

/// The name is too long.
pub(crate) const LONG_NAME: i32 = -5;

/// A number is not a valid transport, family, algorithm or choice.
pub(crate) const BAD_SETTING: i32 = -6;

/// The buffer is smaller than the size that the call states.
pub(crate) const SMALL_BUFFER: i32 = -7;

/// Joined bytes are buffered and have to be read first.
pub(crate) const UNREAD: i32 = -8;

/// No allocation can serve the call.
pub(crate) const NO_ALLOCATION: i32 = -9;

/// It exists already, or was requested.
pub(crate) const ALREADY_EXISTS: i32 = -10;

/// There is no permission for the peer's address.
pub(crate) const NO_PERMISSION: i32 = -11;

/// No channel number is free.
pub(crate) const NO_CHANNEL: i32 = -12;

/// A channel to the peer expired a short while ago.
pub(crate) const EXPIRED_CHANNEL: i32 = -13;

/// No connection to the peer is bound.
pub(crate) const NO_SOCKET: i32 = -14;

/// More bytes than a message can carry.
pub(crate) const TOO_LARGE: i32 = -15;

/// An allocation failed.
pub(crate) const NO_MEMORY: i32 = -16;

/// All bytes of the seed are zero.
pub(crate) const ZERO_SEED: i32 = -17;

/// A length is more than the size of any object.
pub(crate) const BAD_LENGTH: i32 = -18;

/// There is no address, there are too many, or they are of two families.
pub(crate) const BAD_ADDRESSES: i32 = -19;
