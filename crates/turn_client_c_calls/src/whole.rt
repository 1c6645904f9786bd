//! What a handle owns.

use turn_client_proto::client::TurnClient;

/// A client, and the joined bytes of the last reported payload, while they are unread.
#[derive(Drop)]
pub struct HandleState {
    /// The client.
    pub(crate) client: TurnClient,
    /// The joined bytes; empty if there are none to read.
    pub(crate) joined: Vec<u8>,
}
