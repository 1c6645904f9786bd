//! The addresses of a trace, in the notation of `std`, and their transports.

ghost use Rattle.std.specs.Prelude.{◌≡◌, ◌≢◌, [], ◌∷◌, List, Err, IfOk, MatchOption, ◌==◌, map};
ghost use Rattle.std.specs.List.{slice_split};
ghost use Rattle.std.specs.Net.Grammar.{IsIpText, IsSocketText};
ghost use Rattle.std.specs.declared.net.ip_addr.IpAddr.{IpAddr};
ghost use Rattle.std.specs.declared.net.socket_addr.SocketAddr.{SocketAddr};
ghost use Rattle.stun_types_base.specs.declared.transport.TransportType.{TransportType};
ghost use Rattle.turn_desk_trace.specs.Address.{AreAddresses, AreIps};
ghost use Rattle.turn_desk_event.specs.Printed.{transport_word};

use line_io::refusal::LineError;
use line_io::word::chunks;
use std::alloc::Global;
use std::net::{IpAddr, SocketAddr};
use stun_types_base::list::ListOf;
use stun_types_base::memory::NoMemory;
use stun_types_base::transport::TransportType;

/// Reads a transport address, such as `192.0.2.1:3478` or `[2001:db8::1]:3478`. Returns `None` for
/// any other word.
pub fn read_address(word: &str) -> Option<SocketAddr>
    ensures { MatchOption result ((a : SocketAddr) → ¬ (IsSocketText word.now a))
        (IsSocketText word.now) }
{
    word.parse::<SocketAddr>().ok()
}

/// Reads an IP address, such as `192.0.2.1` or `2001:db8::1`. Returns `None` for any other word.
pub fn read_ip(word: &str) -> Option<IpAddr>
    ensures { MatchOption result ((a : IpAddr) → ¬ (IsIpText word.now a)) (IsIpText word.now) }
{
    word.parse::<IpAddr>().ok()
}

/// Reads one or more IP addresses, separated by commas.
///
/// # Errors
///
/// - `Bad`: a part of the word is not an IP address.
/// - `NoMemory`: an allocation failed.
pub fn read_ips(alloc: Global, word: &str) -> Result<Vec<IpAddr>, LineError>
    ensures ok { IfOk result (λ ips. AreIps (slice_split (λ b. b == 44) word.now) ips.items) }
    ensures bad { result ≡ Err LineError.Bad → (ips : List IpAddr)
        → ¬ (AreIps (slice_split (λ b. b == 44) word.now) ips) }
{
    let words = chunks(alloc, word, ',')?;
    listed_ips(alloc, words.as_slice())
}

/// Reads a list of words, each an IP address.
fn listed_ips(alloc: Global, words: &[&str]) -> Result<Vec<IpAddr>, LineError>
    ensures ok { IfOk result (λ ips. AreIps (map (λ x. x.now) words.now) ips.items) }
    ensures bad { result ≡ Err LineError.Bad → (ips : List IpAddr)
        → ¬ (AreIps (map (λ x. x.now) words.now) ips) }
{
    let mut ips = Vec::new(alloc);
    for word in words {
        let Some(ip) = read_ip(word) else {
            return Err(LineError::Bad);
        };
        ips.push(ip)?;
    }
    Ok(ips)
}

/// Reads the name of a transport. Returns `None` for any other word.
pub fn read_transport(word: &str) -> Option<TransportType>
    ensures { MatchOption result ((t : TransportType) → word.now ≢ transport_word t)
        (λ t. word.now ≡ transport_word t) }
{
    match word {
        "udp" => Some(TransportType::Udp),
        "tcp" => Some(TransportType::Tcp),
        _ => None,
    }
}

/// Reads one transport address, or two separated by a comma. It accepts two addresses of one
/// family; the server core decides whether they fit a request.
///
/// # Errors
///
/// - `Bad`: the word is neither.
/// - `NoMemory`: an allocation failed.
pub fn read_addresses(alloc: Global, word: &str) -> Result<ListOf<SocketAddr>, LineError>
    ensures ok { IfOk result (AreAddresses (slice_split (λ b. b == 44) word.now)) }
    ensures bad { result ≡ Err LineError.Bad → (addresses : List SocketAddr)
        → ¬ (AreAddresses (slice_split (λ b. b == 44) word.now) addresses) }
{
    let words = chunks(alloc, word, ',')?;
    listed_addresses(alloc, words.as_slice())
}

/// Reads a list of one or two words, each an address.
fn listed_addresses(alloc: Global, words: &[&str]) -> Result<ListOf<SocketAddr>, LineError>
    ensures ok { IfOk result (AreAddresses (map (λ x. x.now) words.now)) }
    ensures bad { result ≡ Err LineError.Bad → (addresses : List SocketAddr)
        → ¬ (AreAddresses (map (λ x. x.now) words.now) addresses) }
{
    match words {
        [only] => match read_address(only) {
            Some(address) => Ok(list_of_one(alloc, address)?),
            None => Err(LineError::Bad),
        },
        [first, second] => match (read_address(first), read_address(second)) {
            (Some(first), Some(second)) => Ok(list_of_two(alloc, first, second)?),
            _ => Err(LineError::Bad),
        },
        _ => Err(LineError::Bad),
    }
}

fn list_of_one(alloc: Global, address: SocketAddr) -> Result<ListOf<SocketAddr>, NoMemory>
    ensures { IfOk result (λ addresses. addresses ≡ address ∷ []) }
{
    let mut addresses = ListOf::new(alloc);
    addresses.push(address)?;
    Ok(addresses)
}

fn list_of_two(
    alloc: Global,
    first: SocketAddr,
    second: SocketAddr,
) -> Result<ListOf<SocketAddr>, NoMemory>
    ensures { IfOk result (λ addresses. addresses ≡ first ∷ second ∷ []) }
{
    let mut addresses = list_of_one(alloc, first)?;
    addresses.push(second)?;
    Ok(addresses)
}
