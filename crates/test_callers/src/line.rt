//! A replacement for a client's sockets: a server in memory, and a peer that sends all data back.

use crate::served::decision;
use crate::user::server;
use rand_chacha::ChaCha20Rng;
use rand_core::SeedableRng;
use std::alloc::Global;
use std::collections::VecDeque;
use std::net::SocketAddr;
use stun_proto::Instant;
use stun_types::NoMemory;
use stun_types::message::Message;
use turn_desk::{Decision, Desk};
use turn_types::message::{ALLOCATE, REFRESH};

/// A server in memory, and what it has sent and the client has not read yet, oldest first.
#[derive(Drop)]
pub(crate) struct Line {
    alloc: Global,
    desk: Desk,
    came: VecDeque<Vec<u8>>,
}

impl Line {
    /// Returns a line to a server that knows the user.
    pub(crate) fn new(alloc: Global) -> Result<Line, NoMemory> {
        match server(alloc) {
            Ok(server) => Ok(Line {
                alloc,
                desk: Desk::new(alloc, server),
                came: VecDeque::new(alloc),
            }),
            Err(error) => Err(error),
        }
    }

    /// Passes on what a client sends from an address, and buffers what comes back.
    pub(crate) fn write(
        &mut self,
        bytes: &[u8],
        from: SocketAddr,
        now: Instant,
    ) -> Result<(), NoMemory> {
        match self.answer(bytes, from, now) {
            Ok(answer) => Ok(self.came.push_back(answer)?),
            Err(error) => Err(error),
        }
    }

    /// Removes and returns the oldest bytes that have not been read yet.
    pub(crate) fn read(&mut self) -> Option<Vec<u8>> {
        self.came.pop_front()
    }

    /// Returns whether everything received has been read.
    pub(crate) fn is_empty(&self) -> bool {
        self.came.is_empty()
    }

    /// Returns what comes back: the server's reply to a request. Anything else is taken for a
    /// channel frame to the peer, which sends the data back, so that the server relays it in an
    /// identical frame.
    fn answer(
        &mut self,
        bytes: &[u8],
        from: SocketAddr,
        now: Instant,
    ) -> Result<Vec<u8>, NoMemory> {
        match self.reply(bytes, from, now) {
            Ok(Some(reply)) => Ok(reply),
            Ok(None) => Ok(Vec::from_slice(self.alloc, bytes)?),
            Err(error) => Err(error),
        }
    }

    /// Returns the server's reply if the bytes are a request. The decision takes effect only for a
    /// request that the server validates; one that opens sockets to peers takes effect if the reply
    /// is a success.
    fn reply(
        &mut self,
        bytes: &[u8],
        from: SocketAddr,
        now: Instant,
    ) -> Result<Option<Vec<u8>>, NoMemory> {
        let mut words = ChaCha20Rng::from_seed([0; 32]);
        match decide(self.alloc, bytes) {
            Ok(decision) => {
                let reply = self.desk.handle(bytes, from, now, &decision, &mut words);
                drop(decision);
                reply
            }
            Err(error) => Err(error),
        }
    }
}

/// Returns the decision on bytes before they are validated: an address for ten minutes for an
/// ALLOCATE, deletion for a REFRESH, and a grant for anything else.
fn decide(alloc: Global, bytes: &[u8]) -> Result<Decision, NoMemory> {
    let Ok(request) = Message::from_bytes(bytes) else {
        return Ok(Decision::Grant);
    };
    if request.has_method(ALLOCATE) {
        decision(alloc)
    } else if request.has_method(REFRESH) {
        Ok(Decision::Refresh { lifetime: 0 })
    } else {
        Ok(Decision::Grant)
    }
}
