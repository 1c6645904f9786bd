//! Which messages the server core serves.

ghost use Rattle.std.specs.Prelude.{◌≡◌, ◌↔◌, IsTrue, None};
ghost use Rattle.stun_types_wire.specs.Grammar.{refusal};
ghost use Rattle.turn_desk_core.specs.Requests.{IsOfAllocation, IsOfConnection, IsOfPeer, IsServed};

use stun_types_message::parsed::Message;
use stun_types_wire::class::{MessageClass, Method};
use turn_types_attributes::registry::{
    ALLOCATE, CHANNEL_BIND, CONNECT, CONNECTION_BIND, CREATE_PERMISSION, REFRESH,
};

/// Returns whether a message is a request that the server core serves: an ALLOCATE, a REFRESH, a
/// CREATE_PERMISSION, a CHANNEL_BIND, a CONNECT or a CONNECTION_BIND (RFC 8656, section 17; RFC
/// 6062, section 6.1).
pub fn is_served(message: &Message) -> bool
    requires { refusal message.now ≡ None }
    ensures { IsTrue result ↔ IsServed message.now }
{
    let method = message.method();
    message.has_class(MessageClass::Request)
        && (is_of_allocation(method) || is_of_peer(method) || is_of_connection(method))
}

/// Returns whether a method is ALLOCATE or REFRESH.
fn is_of_allocation(method: Method) -> bool
    ensures { IsTrue result ↔ IsOfAllocation method.0 }
{
    method == ALLOCATE || method == REFRESH
}

/// Returns whether a method is CREATE_PERMISSION or CHANNEL_BIND.
fn is_of_peer(method: Method) -> bool
    ensures { IsTrue result ↔ IsOfPeer method.0 }
{
    method == CREATE_PERMISSION || method == CHANNEL_BIND
}

/// Returns whether a method is CONNECT or CONNECTION_BIND.
fn is_of_connection(method: Method) -> bool
    ensures { IsTrue result ↔ IsOfConnection method.0 }
{
    method == CONNECT || method == CONNECTION_BIND
}
