//! The state of the exchange, and its steps.

use crate::step::{Request, Step};
use rand_chacha::ChaCha20Rng;
use rand_core::SeedableRng;
use std::alloc::Global;
use std::net::{IpAddr, Ipv4Addr, SocketAddr};
use std::{fmt, io};
use stun_proto_server::long_term::LongTermServerAuth;
use stun_types_base::instant::Instant;
use stun_types_base::list::ListOf;
use stun_types_base::memory::NoMemory;
use stun_types_integrity::credentials::LongTermCredentials;
use stun_types_wire::algorithm::IntegrityAlgorithm;
use turn_desk_core::decision::Decision;
use turn_desk_core::desk::Desk;

/// The state of an exchange: what it has made so far.
#[derive(Drop)]
pub(crate) struct Exchange {
    alloc: Global,
    desk: Option<Desk>,
    decision: Option<Decision>,
}

impl Exchange {
    pub(crate) fn new(alloc: Global) -> Exchange {
        Exchange {
            alloc,
            desk: None,
            decision: None,
        }
    }

    /// Runs a step, and prints its line. Returns whether there was enough memory.
    pub(crate) fn take(&mut self, rt: &impl Print, step: &Step) -> io::Result<bool> {
        let (name, made) = match step {
            Step::Desk => ("desk", self.make_desk()),
            Step::User => ("user", self.add_user()),
            Step::Decision => ("decision", self.decide()),
            Step::Request(request) => return self.ask(rt, request),
        };
        match made {
            Ok(()) => println!(rt; "{name}: made")?,
            Err(NoMemory) => println!(rt; "{name}: no memory")?,
        }
        Ok(made.is_ok())
    }

    fn make_desk(&mut self) -> Result<(), NoMemory> {
        match String::from_str(self.alloc, "realm") {
            Ok(realm) => {
                let mut auth = LongTermServerAuth::new(self.alloc, realm);
                auth.add_supported_integrity(IntegrityAlgorithm::Sha256);
                self.desk = Some(Desk::new(self.alloc, auth));
                Ok(())
            }
            Err(_) => Err(NoMemory),
        }
    }

    fn add_user(&mut self) -> Result<(), NoMemory> {
        let Some(desk) = &mut self.desk else {
            return Err(NoMemory);
        };
        match user(self.alloc) {
            Ok(user) => desk.auth_mut().add_user(user),
            Err(NoMemory) => Err(NoMemory),
        }
    }

    fn decide(&mut self) -> Result<(), NoMemory> {
        match relayed(self.alloc) {
            Ok(addresses) => {
                self.decision = Some(Decision::Allocate {
                    addresses,
                    lifetime: 600,
                });
                Ok(())
            }
            Err(NoMemory) => Err(NoMemory),
        }
    }

    /// Passes a request to the server.
    fn ask(&mut self, rt: &impl Print, request: &Request) -> io::Result<bool> {
        let (Some(desk), Some(decision)) = (&mut self.desk, &self.decision) else {
            return Ok(false);
        };
        let from = request.sender.address();
        let now = Instant::from_nanos(50_000_000);
        let mut words = ChaCha20Rng::from_seed([request.seed; 32]);
        let answer = desk.handle(request.bytes, from, now, decision, &mut words);
        let reported = report(rt, desk, request, &answer);
        drop(answer);
        reported
    }
}

/// Returns the credentials of the user `user`.
fn user(alloc: Global) -> Result<LongTermCredentials, NoMemory> {
    match String::from_str(alloc, "user") {
        Ok(name) => match String::from_str(alloc, "pass") {
            Ok(password) => Ok(LongTermCredentials::new(name, password)),
            Err(_) => {
                drop(name);
                Err(NoMemory)
            }
        },
        Err(_) => Err(NoMemory),
    }
}

/// Returns the relayed address, as a list.
fn relayed(alloc: Global) -> Result<ListOf<SocketAddr>, NoMemory> {
    let relayed = SocketAddr::new(IpAddr::V4(Ipv4Addr::new(203, 0, 113, 5)), 50_000);
    let mut addresses = ListOf::new(alloc);
    match addresses.push(relayed) {
        Ok(()) => Ok(addresses),
        Err(NoMemory) => {
            drop(addresses);
            Err(NoMemory)
        }
    }
}

/// Prints the state after a request: the nonce that the server stores for the sender, the count of
/// grants, and the reply. Returns whether there was enough memory for the reply.
fn report(
    rt: &impl Print,
    desk: &mut Desk,
    request: &Request,
    answer: &Result<Option<Vec<u8>>, NoMemory>,
) -> io::Result<bool> {
    let from = request.sender.address();
    let nonce = desk.auth_mut().nonce_for_client(from).unwrap_or("none");
    print!(rt; "{} from {from}: nonce {nonce}, ", request.name)?;
    print!(rt; "grants {}, ", desk.grants().len())?;
    match answer {
        Ok(Some(reply)) => print_reply(rt, reply.as_slice())?,
        Ok(None) => println!(rt; "no reply")?,
        Err(NoMemory) => println!(rt; "no memory")?,
    }
    Ok(answer.is_ok())
}

/// Prints a reply in lower case hex, and ends the line.
fn print_reply(rt: &impl Print, reply: &[u8]) -> io::Result<()> {
    print!(rt; "reply ")?;
    for byte in reply {
        print!(rt; "{byte:02x}")?;
    }
    println!(rt)
}
