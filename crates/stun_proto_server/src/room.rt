//! What is stored for addresses, within a limit on their number.

ghost use Rattle.std.specs.Prelude.{◌≡◌, OnOk, OnErr};
ghost use Rattle.std.specs.BTreeMap as tree;
ghost use Rattle.std.specs.FinMap as map;
ghost use Rattle.stun_proto_server.specs.Rooms.{beside, room_by, room_due};
ghost use Rattle.stun_proto_server.specs.Server.{room_for};
ghost use Rattle.stun_proto_server.specs.View.{client_of, clients_of, stays};

use crate::long_term::ClientRecord;
use crate::stun_types_base::memory::NoMemory;
use std::cmp::Ordering;
use std::collections::BTreeMap;
use std::net::SocketAddr;

/// Stores a record for an address. If nothing was stored for it, and the limit was reached, it then
/// removes the other records whose last message was not validated and, if more than half of the
/// limit are left, all others. On `NoMemory` nothing changes.
pub(crate) fn put_within(
    clients: &mut BTreeMap<SocketAddr, ClientRecord>,
    most: Option<usize>,
    own: SocketAddr,
    stored: ClientRecord,
) -> Result<(), NoMemory>
    ensures ok { OnOk result (clients_of clients.new
        ≡ map.insert (room_for most (clients_of clients.old) own) own (client_of stored)) }
    ensures err { OnErr result (tree.IsUnchanged clients.old clients.new) }
{
    let due = room_due(clients, most, own);
    clients.insert(own, stored)?;
    make_room(clients, due, own);
    Ok(())
}

/// Returns the limit, if nothing is stored for the address and the limit is reached.
fn room_due(
    clients: &BTreeMap<SocketAddr, ClientRecord>,
    most: Option<usize>,
    own: SocketAddr,
) -> Option<usize>
    ensures { result ≡ room_due most (clients_of clients.now) own }
{
    match most {
        Some(most) if !is_stored(clients, own) && count(clients) >= most => Some(most),
        _ => None,
    }
}

/// Returns whether anything is stored for an address.
fn is_stored(clients: &BTreeMap<SocketAddr, ClientRecord>, own: SocketAddr) -> bool
    ensures { result ≡ map.contains_key (clients_of clients.now) own }
{
    clients.contains_key(&own)
}

/// Returns for how many addresses something is stored.
fn count(clients: &BTreeMap<SocketAddr, ClientRecord>) -> usize
    ensures { result ≡ map.len (clients_of clients.now) }
{
    clients.len()
}

/// Makes room beside the record of an address, if it is due under a limit.
fn make_room(clients: &mut BTreeMap<SocketAddr, ClientRecord>, due: Option<usize>, own: SocketAddr)
    ensures { clients_of clients.new ≡ room_by own due (clients_of clients.old) }
{
    if let Some(most) = due {
        keep(clients, true, own);
        if count(clients) > most / 2 + 1 {
            keep(clients, false, own);
        }
    }
}

/// Removes all records but that of `own` and, if `others` is true, those whose last message was
/// validated.
fn keep(clients: &mut BTreeMap<SocketAddr, ClientRecord>, others: bool, own: SocketAddr)
    ensures { clients_of clients.new ≡ beside others own (clients_of clients.old) }
{
    clients.retain(|address, stored| stays(others, own, address, stored));
}

/// Returns whether a record stays when `keep` removes others.
fn stays(others: bool, own: SocketAddr, address: &SocketAddr, stored: &ClientRecord) -> bool
    ensures { result ≡ stays others own address.now stored.now }
{
    match own.cmp(address) {
        Ordering::Equal => true,
        Ordering::Less | Ordering::Greater => others && stored.outcome.is_some(),
    }
}
