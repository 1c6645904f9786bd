//! The iterators that a client's getters return. Each knows how many elements are left.

ghost use Rattle.std.specs.Prelude.{◌≡◌, ◌<◌, ◌^◌, length};
ghost use Rattle.turn_client_proto_allocation.specs.Listed.{relayed_listed};
ghost use Rattle.turn_client_proto_peers.specs.Channel.Visible.{channels_listed};
ghost use Rattle.turn_client_proto_connection.specs.Visible.{connections_listed};
ghost use Rattle.turn_client_proto_peers.specs.Permission.Visible.{addresses_of};

use std::marker::Model;
use std::net::{IpAddr, SocketAddr};
use stun_types_base::transport::TransportType;
use turn_client_proto_allocation::allocation::Allocation;
use turn_client_proto_allocation::channel::Channel;
use turn_client_proto_allocation::connection::Connection;
use turn_client_proto_allocation::listed::Allocations;
use turn_client_proto_allocation::permission::Permission;
use turn_client_proto_connection::visible::{connections_count, connections_of};
use turn_client_proto_peers::channel::visible::{channels_count, channels_of};

/// Iterates over a client's relayed addresses with their transports, in the order in which they
/// were granted. Allocations that are marked as expired are left out. In contracts it is the list
/// of what is left.
#[derive(Debug, Drop)]
pub struct RelayedAddressesIter<'a> {
    left: &'a [Allocation],
}

impl<'a> Model for RelayedAddressesIter<'a> {
    ghost use Rattle.std.specs.Prelude.{List};
    ghost use Rattle.std.specs.declared.net.socket_addr.SocketAddr.{SocketAddr};
    ghost use Rattle.stun_types_base.specs.declared.transport.TransportType.{TransportType};
    ghost use Rattle.turn_client_proto_allocation.specs.Listed.{relayed_listed};

    ghost Value = { List (TransportType × SocketAddr) };

    ghost view = { λ it. relayed_listed it.left.now };
}

impl<'a> RelayedAddressesIter<'a> {
    /// Iterates over the relayed addresses of these allocations.
    pub fn new(allocations: &'a [Allocation]) -> RelayedAddressesIter<'a>
        ensures value { result ≡ relayed_listed allocations.now }
        ensures few { length result < 2 ^ 64 }
    {
        RelayedAddressesIter { left: allocations }
    }
}

impl<'a> Iterator for RelayedAddressesIter<'a> {
    ghost use Rattle.std.specs.Iterator.{YieldsFirst, item_count};

    type Item = (TransportType, SocketAddr);

    ghost next_gives = { YieldsFirst (λ left. left) };

    ghost remaining = { item_count (λ left. left) };

    fn next(&mut self) -> Option<(TransportType, SocketAddr)> {
        let mut left = self.left;
        while let Some((first, others)) = left.split_first() {
            left = others;
            if !first.is_expired {
                self.left = others;
                return Some((first.transport, first.address));
            }
        }
        self.left = left;
        None
    }

    fn size_hint(&self) -> (usize, Option<usize>) {
        let count = self.len();
        (count, Some(count))
    }
}

impl<'a> ExactSizeIterator for RelayedAddressesIter<'a> {
    fn len(&self) -> usize {
        let mut count = 0;
        for allocation in self.left {
            if !allocation.is_expired {
                count += 1;
            }
        }
        count
    }
}

/// Iterates over the IP addresses of permissions, in the order in which they were granted. In
/// contracts it is the list of what is left.
#[derive(Debug, Drop)]
pub struct PermissionAddressesIter<'a> {
    left: &'a [Permission],
}

impl<'a> Model for PermissionAddressesIter<'a> {
    ghost use Rattle.std.specs.Prelude.{List};
    ghost use Rattle.std.specs.declared.net.ip_addr.IpAddr.{IpAddr};
    ghost use Rattle.turn_client_proto_peers.specs.Permission.Visible.{addresses_of};

    ghost Value = { List IpAddr };

    ghost view = { λ it. addresses_of it.left.now };
}

impl<'a> PermissionAddressesIter<'a> {
    /// Iterates over the IP addresses of these permissions.
    pub fn new(permissions: &'a [Permission]) -> PermissionAddressesIter<'a>
        ensures value { result ≡ addresses_of permissions.now }
        ensures few { length result < 2 ^ 64 }
    {
        PermissionAddressesIter { left: permissions }
    }
}

impl<'a> Iterator for PermissionAddressesIter<'a> {
    ghost use Rattle.std.specs.Iterator.{YieldsFirst, item_count};

    type Item = IpAddr;

    ghost next_gives = { YieldsFirst (λ left. left) };

    ghost remaining = { item_count (λ left. left) };

    fn next(&mut self) -> Option<IpAddr> {
        let (first, others) = self.left.split_first()?;
        self.left = others;
        Some(first.ip)
    }

    fn size_hint(&self) -> (usize, Option<usize>) {
        (self.left.len(), Some(self.left.len()))
    }
}

impl<'a> ExactSizeIterator for PermissionAddressesIter<'a> {
    fn len(&self) -> usize {
        self.left.len()
    }
}

/// Iterates over a client's channels, each with its number and its peer, in the order in which they
/// were granted, one allocation after another. Allocations that are marked as expired are left out.
/// In contracts it is the list of what is left.
#[derive(Debug, Drop)]
pub struct ChannelsIter<'a> {
    here: &'a [Channel],
    left: &'a [Allocation],
    count: usize,
}

impl<'a> Model for ChannelsIter<'a> {
    ghost use Rattle.std.specs.Prelude.{ℕ, List, ◌++◌, ◌≡◌, length};
    ghost use Rattle.std.specs.declared.net.socket_addr.SocketAddr.{SocketAddr};
    ghost use Rattle.turn_client_proto_peers.specs.Channel.Visible.{channels_listed, pairs_of};

    ghost Value = { List (ℕ × SocketAddr) };

    ghost view = { λ it. pairs_of it.here.now ++ channels_listed it.left.now };

    ghost invariant = { λ it. it.count ≡ length (pairs_of it.here.now ++ channels_listed
        it.left.now) };
}

impl<'a> ChannelsIter<'a> {
    /// Iterates over the channels of these allocations.
    pub fn new(allocations: &'a Allocations) -> ChannelsIter<'a>
        ensures value { result ≡ channels_listed allocations.now }
        ensures few { length result < 2 ^ 64 }
    {
        ChannelsIter {
            here: &[],
            left: allocations.as_slice(),
            count: channels_count(allocations),
        }
    }
}

impl<'a> Iterator for ChannelsIter<'a> {
    ghost use Rattle.std.specs.Iterator.{YieldsFirst, item_count};

    type Item = (u16, SocketAddr);

    ghost next_gives = { YieldsFirst (λ left. left) };

    ghost remaining = { item_count (λ left. left) };

    fn next(&mut self) -> Option<(u16, SocketAddr)> {
        let mut here = self.here;
        let mut left = self.left;
        while here.is_empty() {
            let (first, others) = left.split_first()?;
            here = channels_of(first);
            left = others;
        }
        let (first, others) = here.split_first()?;
        self.here = others;
        self.left = left;
        self.count -= 1;
        Some((first.number.number(), first.peer))
    }

    fn size_hint(&self) -> (usize, Option<usize>) {
        (self.count, Some(self.count))
    }
}

impl<'a> ExactSizeIterator for ChannelsIter<'a> {
    fn len(&self) -> usize {
        self.count
    }
}

/// Iterates over a client's data connections, one allocation after another, in the order in which
/// their sockets were reported. Each has its own address, its peer's, the ID by which the server
/// knows it, and whether it is bound. Allocations that are marked as expired are left out. In
/// contracts it is the list of what is left.
#[derive(Debug, Drop)]
pub struct ConnectionsIter<'a> {
    here: &'a [Connection],
    left: &'a [Allocation],
    count: usize,
}

impl<'a> Model for ConnectionsIter<'a> {
    ghost use Rattle.std.specs.Prelude.{ℕ, Bool, List, ◌++◌, ◌≡◌, length};
    ghost use Rattle.std.specs.declared.net.socket_addr.SocketAddr.{SocketAddr};
    ghost use Rattle.turn_client_proto_connection.specs.Visible.{connections_listed, rows_of};

    ghost Value = { List (SocketAddr × SocketAddr × ℕ × Bool) };

    ghost view = { λ it. rows_of it.here.now ++ connections_listed it.left.now };

    ghost invariant = { λ it. it.count ≡ length (rows_of it.here.now ++ connections_listed
        it.left.now) };
}

impl<'a> ConnectionsIter<'a> {
    /// Iterates over the connections of these allocations.
    pub fn new(allocations: &'a Allocations) -> ConnectionsIter<'a>
        ensures value { result ≡ connections_listed allocations.now }
        ensures few { length result < 2 ^ 64 }
    {
        ConnectionsIter {
            here: &[],
            left: allocations.as_slice(),
            count: connections_count(allocations),
        }
    }
}

impl<'a> Iterator for ConnectionsIter<'a> {
    ghost use Rattle.std.specs.Iterator.{YieldsFirst, item_count};

    type Item = (SocketAddr, SocketAddr, u32, bool);

    ghost next_gives = { YieldsFirst (λ left. left) };

    ghost remaining = { item_count (λ left. left) };

    fn next(&mut self) -> Option<(SocketAddr, SocketAddr, u32, bool)> {
        let mut here = self.here;
        let mut left = self.left;
        while here.is_empty() {
            let (first, others) = left.split_first()?;
            here = connections_of(first);
            left = others;
        }
        let (first, others) = here.split_first()?;
        self.here = others;
        self.left = left;
        self.count -= 1;
        Some((
            first.here,
            first.peer,
            first.connection,
            first.awaited.is_none(),
        ))
    }

    fn size_hint(&self) -> (usize, Option<usize>) {
        (self.count, Some(self.count))
    }
}

impl<'a> ExactSizeIterator for ConnectionsIter<'a> {
    fn len(&self) -> usize {
        self.count
    }
}
