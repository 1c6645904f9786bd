//! A TURN client is deterministic (RFC 8489, RFC 8656): one state and one call, time or message
//! give one result and one new state, unless memory runs out.
//!
//! The functions here do nothing; each contract is a theorem on a relation that a client's
//! contracts use: two outcomes of the relation from one state are equal. Each theorem is named
//! after its relation. The getters, `poll_event` and `protocol_error` need none, since their
//! contracts are equations.

ghost use Rattle.std.specs.Prelude.{◌≡◌, ◌≢◌, ℕ, List, Bool, Option, Result, Err};
ghost use Rattle.std.specs.declared.net.ip_addr.IpAddr.{IpAddr};
ghost use Rattle.std.specs.declared.net.socket_addr.SocketAddr.{SocketAddr};
ghost use Rattle.turn_client_proto_timers.specs.StunTypesBase.declared.transport.TransportType.{TransportType};
ghost use Rattle.turn_client_proto_timers.specs.Api.declared.answer.TurnPollRet.{TurnPollRet};
ghost use Rattle.turn_client_proto_timers.specs.Api.declared.answer.TurnPollRet.TheVariants as poll;
ghost use Rattle.turn_client_proto_timers.specs.Api.declared.error.BindChannelError.{BindChannelError};
ghost use Rattle.turn_client_proto_timers.specs.Api.declared.error.BindChannelError.TheVariants as channel;
ghost use Rattle.turn_client_proto_timers.specs.Api.declared.error.CreatePermissionError.{CreatePermissionError};
ghost use Rattle.turn_client_proto_timers.specs.Api.declared.error.CreatePermissionError.TheVariants as permission;
ghost use Rattle.turn_client_proto_timers.specs.Api.declared.error.CreatePermissionsError.{CreatePermissionsError};
ghost use Rattle.turn_client_proto_timers.specs.Api.declared.error.CreatePermissionsError.TheVariants as several;
ghost use Rattle.turn_client_proto_timers.specs.Api.declared.error.DeleteError.{DeleteError};
ghost use Rattle.turn_client_proto_timers.specs.Api.declared.error.DeleteError.TheVariants as deletion;
ghost use Rattle.turn_client_proto_timers.specs.Api.declared.error.SendError.{SendError};
ghost use Rattle.turn_client_proto_timers.specs.Api.declared.answer.Socket5Tuple.{Socket5Tuple};
ghost use Rattle.turn_client_proto_timers.specs.Api.declared.error.TcpAllocateError.{TcpAllocateError};
ghost use Rattle.turn_client_proto_timers.specs.Api.declared.error.TcpAllocateError.TheVariants as socket;
ghost use Rattle.turn_client_proto_timers.specs.Api.declared.error.TcpConnectError.{TcpConnectError};
ghost use Rattle.turn_client_proto_timers.specs.Api.declared.error.TcpConnectError.TheVariants as connection;
ghost use Rattle.turn_client_proto_recv.specs.Connecting.{IsConnectAnswered};
ghost use Rattle.turn_client_proto_timers.specs.Core.Binding.{IsBindAnswered};
ghost use Rattle.turn_client_proto_timers.specs.Core.Deleting.{IsDeleteAnswered};
ghost use Rattle.turn_client_proto_timers.specs.Core.Permitting.{ArePermissionsAnswered, IsPermissionAnswered};
ghost use Rattle.turn_client_proto_timers.specs.Core.Receiving.{IsProcessed};
ghost use Rattle.turn_client_proto_timers.specs.Core.declared.protocol.Protocol.{Protocol};
ghost use Rattle.turn_client_proto_timers.specs.Drawing.{IsTransmitted};
ghost use Rattle.turn_client_proto_timers.specs.Api.Sent.{Sent};
ghost use Rattle.turn_client_proto_recv.specs.Processing.{IsProcessedAt};
ghost use Rattle.turn_client_proto_timers.specs.Polling.{IsPolled};
ghost use Rattle.turn_client_proto_recv.specs.Payload.Sending.{IsSendAnswered};
ghost use Rattle.turn_client_proto_recv.specs.Sockets.{IsSocketAnswered};

/// A message that is received at a given time determines whether it was for the client, and the
/// client's new state. The relation has no outcome in which memory runs out.
pub fn processing_is_definite()
    ensures { (old one other : Protocol) (bytes : List ℕ) (now : ℕ) (handled again : Bool)
        → IsProcessed old bytes now handled one
        → IsProcessed old bytes now again other
        → (handled ≡ again) × (one ≡ other) }
{}

/// A message that is received at a given time over the socket with a given local address determines
/// the client's new state. The relation has no outcome in which memory runs out.
pub fn processing_at_is_definite()
    ensures { (old one other : Protocol) (here : SocketAddr) (bytes : List ℕ) (now : ℕ)
        → IsProcessedAt here old bytes now one
        → IsProcessedAt here old bytes now other
        → one ≡ other }
{}

/// The time determines what `poll` returns and the client's new state, unless it returns
/// `NoMemory`.
pub fn polling_is_definite()
    ensures { (old one other : Protocol) (now : ℕ) (answer again : TurnPollRet)
        → answer ≢ poll.NoMemory
        → again ≢ poll.NoMemory
        → IsPolled old now answer one
        → IsPolled old now again other
        → (answer ≡ again) × (one ≡ other) }
{}

/// The time determines what `poll_transmit` returns and the client's new state.
pub fn drawing_is_definite()
    ensures { (old one other : Protocol) (now : ℕ) (answer again : Option Sent)
        → IsTransmitted old now answer one
        → IsTransmitted old now again other
        → (answer ≡ again) × (one ≡ other) }
{}

/// The time determines what `delete` returns and the client's new state, unless it fails with
/// `NoMemory`.
pub fn deleting_is_definite()
    ensures { (old one other : Protocol) (now : ℕ) (answer again : Result (Unit {0}) DeleteError)
        → answer ≢ Err deletion.NoMemory
        → again ≢ Err deletion.NoMemory
        → IsDeleteAnswered old now answer one
        → IsDeleteAnswered old now again other
        → (answer ≡ again) × (one ≡ other) }
{}

/// Transport, address and time determine what `create_permission` returns and the client's new
/// state, unless it fails with `NoMemory`.
pub fn permitting_is_definite()
    ensures { (old one other : Protocol) (transport : TransportType) (ip : IpAddr) (now : ℕ)
        (answer again : Result (Unit {0}) CreatePermissionError)
        → answer ≢ Err permission.NoMemory
        → again ≢ Err permission.NoMemory
        → IsPermissionAnswered old transport ip now answer one
        → IsPermissionAnswered old transport ip now again other
        → (answer ≡ again) × (one ≡ other) }
{}

/// Transport, addresses and time determine what `create_permissions` returns and the client's new
/// state, unless it is refused with `NoMemory`.
pub fn permitting_several_is_definite()
    ensures { (old one other : Protocol) (transport : TransportType) (ips : List IpAddr) (now : ℕ)
        (answer again : Result (Unit {0}) CreatePermissionsError)
        → answer ≢ Err (several.Refused permission.NoMemory)
        → again ≢ Err (several.Refused permission.NoMemory)
        → ArePermissionsAnswered old transport ips now answer one
        → ArePermissionsAnswered old transport ips now again other
        → (answer ≡ again) × (one ≡ other) }
{}

/// Transport, peer, bytes and time determine what `send_to` returns, taken as bytes, and the
/// client's new state.
pub fn sending_is_definite()
    ensures { (old one other : Protocol) (transport : TransportType) (to : SocketAddr)
        (bytes : List ℕ) (now : ℕ) (answer again : Result (Option Sent) SendError)
        → IsSendAnswered old transport to bytes now answer one
        → IsSendAnswered old transport to bytes now again other
        → (answer ≡ again) × (one ≡ other) }
{}

/// Transport, peer and time determine what `bind_channel` returns and the client's new state,
/// unless it fails with `NoMemory`.
pub fn binding_is_definite()
    ensures { (old one other : Protocol) (transport : TransportType) (peer : SocketAddr) (now : ℕ)
        (answer again : Result (Unit {0}) BindChannelError)
        → answer ≢ Err channel.NoMemory
        → again ≢ Err channel.NoMemory
        → IsBindAnswered old transport peer now answer one
        → IsBindAnswered old transport peer now again other
        → (answer ≡ again) × (one ≡ other) }
{}

/// Peer and time determine what `tcp_connect` returns and the client's new state, unless it fails
/// with `NoMemory`.
pub fn connecting_is_definite()
    ensures { (old one other : Protocol) (peer : SocketAddr) (now : ℕ)
        (answer again : Result (Unit {0}) TcpConnectError)
        → answer ≢ Err connection.NoMemory
        → again ≢ Err connection.NoMemory
        → IsConnectAnswered old peer now answer one
        → IsConnectAnswered old peer now again other
        → (answer ≡ again) × (one ≡ other) }
{}

/// The arguments and the time determine what `allocated_tcp_socket` returns and the client's new
/// state, unless it fails with `NoMemory`.
pub fn socketing_is_definite()
    ensures { (old one other : Protocol) (number : ℕ) (s : Socket5Tuple) (peer : SocketAddr)
        (here : Option SocketAddr) (now : ℕ) (answer again : Result (Unit {0}) TcpAllocateError)
        → answer ≢ Err socket.NoMemory
        → again ≢ Err socket.NoMemory
        → IsSocketAnswered old number s peer here now answer one
        → IsSocketAnswered old number s peer here now again other
        → (answer ≡ again) × (one ≡ other) }
{}
