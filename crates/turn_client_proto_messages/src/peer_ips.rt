//! The addresses that a CREATE_PERMISSION names (RFC 8656, section 10.1).

ghost use Rattle.std.specs.Prelude.{◌≡◌, [], ◌∷◌, None, IfSome};
ghost use Rattle.turn_client_proto_messages.specs.Peers.{ArePeerIps};

use std::marker::Model;
use std::net::IpAddr;
use std::slice;
use turn_client_proto_api::limits::MOST_PEER_IPS;

/// The addresses for which one CREATE_PERMISSION requests permissions, borrowed: at least one, and
/// at most `MOST_PEER_IPS`, 32 (RFC 8656, section 10.1). In contracts it is the list of them.
#[derive(Debug, Drop)]
pub struct PeerIps<'a> {
    ips: &'a [IpAddr],
}

impl<'a> Model for PeerIps<'a> {
    ghost use Rattle.std.specs.Prelude.{List};
    ghost use Rattle.std.specs.declared.net.ip_addr.IpAddr.{IpAddr};
    ghost use Rattle.turn_client_proto_messages.specs.Peers.{ArePeerIps};

    ghost Value = { List IpAddr };

    ghost view = { λ peers. peers.ips.now };

    ghost invariant = { λ peers. ArePeerIps peers.ips.now };
}

impl<'a> PeerIps<'a> {
    /// Returns these addresses, or `None` if there are none or more than `MOST_PEER_IPS`.
    pub fn new(ips: &'a [IpAddr]) -> Option<PeerIps<'a>>
        ensures some { IfSome result (λ peers. (peers ≡ ips.now) × ArePeerIps ips.now) }
        ensures none { result ≡ None → ¬ (ArePeerIps ips.now) }
    {
        if ips.is_empty() || ips.len() > MOST_PEER_IPS {
            None
        } else {
            Some(PeerIps { ips })
        }
    }

    /// Returns this address alone.
    pub fn one(ip: &'a IpAddr) -> PeerIps<'a>
        ensures { result ≡ ip.now ∷ [] }
    {
        PeerIps {
            ips: slice::from_ref(ip),
        }
    }

    /// Returns the addresses in order.
    pub fn as_slice(&self) -> &'a [IpAddr]
        ensures value { result.now ≡ self.now }
        ensures count { ArePeerIps self.now }
    {
        self.ips
    }
}
