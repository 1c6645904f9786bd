//! Prints what a client transmitted.

use crate::network::Seen;
use stun_proto_auth::claim::Claim;
use stun_types_message::parsed::Message;

/// Prints when each request was transmitted, and whether its transaction ID and nonce differ from
/// those of the request before it.
pub fn show_seen(rt: &impl Print, seen: &[Seen]) -> anyhow::Result<()> {
    let mut last: &[u8] = &[];
    for one in seen {
        let bytes = one.bytes.as_slice();
        if bytes == last {
            print!(rt; " {}", one.at)?;
        } else {
            if !last.is_empty() {
                let (id, nonce) = differ(last, bytes);
                print!(rt; "; other ID {id}, other nonce {nonce}")?;
            }
            print!(rt; "; sent at {}", one.at)?;
        }
        last = bytes;
    }
    Ok(())
}

/// Returns whether two requests have different transaction IDs, and whether they have different
/// nonces.
fn differ(one: &[u8], other: &[u8]) -> (bool, bool) {
    match (Message::from_bytes(one), Message::from_bytes(other)) {
        (Ok(one), Ok(other)) => (
            one.transaction_id() != other.transaction_id(),
            Claim::of(&one).nonce() != Claim::of(&other).nonce(),
        ),
        _ => (false, false),
    }
}
