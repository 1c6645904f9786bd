//! Callers of the libraries, each with a contract of its own. The program calls each of them, and
//! prints a line or two of what it returns. Then it makes the calls that lines of standard input
//! name: which peers are forbidden, and replays by readers and writers that fail.
#![tactic(auto)]

mod answers;
mod client;
mod driven;
mod line;
mod message;
mod payloads;
mod replaying;
mod rows;
mod samples;
mod served;
mod streams;
mod user;
mod validating;

use crate::answers::{redirect, reject};
use crate::client::{begin, process};
use crate::driven::drive_both;
use crate::message::{Looked, lifetime, look, sign};
use crate::payloads::{reach, send, take};
use crate::rows::take_rows;
use crate::samples::{PASSWORD, SAMPLE, UNSIGNED};
use crate::served::{allocate, serve};
use crate::streams::ask_in_chunks;
use crate::user::{key_of_user, server};
use crate::validating::validate;
use rand_chacha::ChaCha20Rng;
use rand_core::SeedableRng;
use std::alloc::Global;
use std::io;
use std::net::{IpAddr, Ipv4Addr, Ipv6Addr, SocketAddr};
use stun_proto::Instant;
use stun_proto::auth::LongTermServerAuth;
use stun_types::Transmit;
use stun_types::attribute::ErrorCode;
use stun_types::data::Data;
use stun_types::message::{
    IntegrityAlgorithm, LongTermKeyCredentials, Message, MessageClass, MessageIntegrityCredentials,
    MessageWriteMutSlice, ShortTermCredentials, TransactionId,
};
use stun_types::prelude::{MessageWrite, MessageWriteExt};
use turn_client_proto::api::TurnConfig;
use turn_client_proto::prelude::TurnClientApi;
use turn_client_proto::tcp::TurnClientTcp;
use turn_client_proto::udp::TurnClientUdp;
use turn_desk::Desk;
use turn_types::TurnCredentials;
use turn_types::prelude::DelayedTransmitBuild;
use turn_types::transmit::DelayedMessage;

fn main(rt: HostRuntime) -> anyhow::Result<()> {
    look_at_samples(&rt)?;
    read_lifetimes(&rt, rt.alloc())?;
    validate_sample(&rt, rt.alloc())?;
    answer_sample(&rt, rt.alloc())?;
    serve_user(&rt, rt.alloc())?;
    challenge_client(&rt, rt.alloc())?;
    begin_client(&rt, rt.alloc())?;
    talk_to_peer(&rt, rt.alloc())?;
    allocate_by_stream(&rt, rt.alloc())?;
    drive_both(&rt, rt.alloc())?;
    take_rows(&rt, rt.alloc())
}

/// Decodes the sample, and bytes that are no message.
fn look_at_samples(rt: &impl Print) -> anyhow::Result<()> {
    for bytes in [SAMPLE, PASSWORD.as_bytes()] {
        match look(bytes) {
            Ok(reported) => print_looked(rt, &reported)?,
            Err(error) => println!(rt; "look: no message: {error}")?,
        }
    }
    Ok(())
}

/// Prints what was decoded from a message.
fn print_looked(rt: &impl Print, reported: &Looked<'_>) -> io::Result<()> {
    let class = match reported.class {
        MessageClass::Request => "request",
        MessageClass::Indication => "indication",
        MessageClass::Success => "success response",
        MessageClass::Error => "error response",
    };
    let signed = if reported.is_signed {
        "signed"
    } else {
        "unsigned"
    };
    println!(rt;
        "look: a {signed} {class} of method {}, number {}",
        reported.method.0, reported.number
    )?;
    match &reported.user {
        Some(user) => print_hex(rt, "look: user", user.value()),
        None => println!(rt; "look: no user"),
    }
}

/// Reads the LIFETIME of a request that has one, and of one that has none.
fn read_lifetimes(rt: &impl Print, alloc: Global) -> anyhow::Result<()> {
    for bytes in [UNSIGNED, SAMPLE] {
        match lifetime(alloc, &Message::from_bytes(bytes)?)? {
            Some(seconds) => println!(rt; "lifetime: {seconds} seconds")?,
            None => println!(rt; "lifetime: none is shown")?,
        }
    }
    Ok(())
}

/// Validates the sample with its password, and with another one.
fn validate_sample(rt: &impl Print, alloc: Global) -> anyhow::Result<()> {
    for password in [PASSWORD, "pass"] {
        let secret = ShortTermCredentials::new(String::from_str(alloc, password)?);
        match validate(SAMPLE, &MessageIntegrityCredentials::from(secret)) {
            Ok(IntegrityAlgorithm::Sha1) => println!(rt; "validate: signed by HMAC-SHA1")?,
            Ok(IntegrityAlgorithm::Sha256) => println!(rt; "validate: signed by HMAC-SHA256")?,
            Ok(IntegrityAlgorithm::Sha512) => println!(rt; "validate: signed by HMAC-SHA512")?,
            Err(error) => println!(rt; "validate: refused: {error}")?,
        }
    }
    Ok(())
}

/// Responds to the sample with an error, and redirects its client to other servers, by a response
/// in borrowed bytes.
fn answer_sample(rt: &impl Print, alloc: Global) -> anyhow::Result<()> {
    let request = Message::from_bytes(SAMPLE)?;
    if !request.has_class(MessageClass::Request) {
        return Ok(());
    }
    let rejected = reject(alloc, &request, ErrorCode::FORBIDDEN)?;
    print_hex(rt, "reject", rejected.as_slice())?;
    let servers = [
        SocketAddr::new(IpAddr::V4(Ipv4Addr::new(192, 0, 2, 1)), 3478),
        SocketAddr::new(
            IpAddr::V6(Ipv6Addr::new(0x2001, 0xdb8, 0, 0, 0, 0, 0, 1)),
            3479,
        ),
    ];
    let mut bytes = [0; 128];
    let writer = MessageWriteMutSlice::new(&mut bytes);
    let mut writer = Message::builder_error(&request, writer)?;
    writer.add_attribute(&ErrorCode::builder(ErrorCode::TRY_ALTERNATE).build(alloc)?)?;
    redirect(&mut writer, &servers)?;
    print_hex(rt, "redirect", writer.data())?;
    Ok(())
}

/// Signs a request with a nonce that was never generated, and with the one that the server then
/// stores for the client, and prints the server's response to both.
fn serve_user(rt: &impl Print, alloc: Global) -> anyhow::Result<()> {
    match server(alloc) {
        Ok(mut server) => {
            let done = serve_key(rt, alloc, &mut server);
            drop(server);
            done
        }
        Err(error) => Err(error.into()),
    }
}

/// Prints a server's response to both requests of the user.
fn serve_key(
    rt: &impl Print,
    alloc: Global,
    server: &mut LongTermServerAuth,
) -> anyhow::Result<()> {
    match key_of_user(alloc) {
        Ok(user) => {
            let done = serve_twice(rt, alloc, server, &user);
            drop(user);
            done
        }
        Err(error) => Err(error.into()),
    }
}

/// Prints a server's response to both requests of a user.
fn serve_twice(
    rt: &impl Print,
    alloc: Global,
    server: &mut LongTermServerAuth,
    user: &LongTermKeyCredentials,
) -> anyhow::Result<()> {
    let from = SocketAddr::new(IpAddr::V4(Ipv4Addr::new(192, 0, 2, 9)), 50_000);
    let mut words = ChaCha20Rng::from_seed([0; 32]);
    for _ in 0..2 {
        let nonce = server.nonce_for_client(from).unwrap_or("none");
        match sign(alloc, TransactionId::from(7u128), user, nonce) {
            Ok(signed) => {
                let done = serve_signed(rt, alloc, server, signed.as_slice(), from, &mut words);
                drop(signed);
                done?;
            }
            Err(error) => return Err(error.into()),
        }
    }
    Ok(())
}

/// Prints a signed request, and a server's response to it.
fn serve_signed(
    rt: &impl Print,
    alloc: Global,
    server: &mut LongTermServerAuth,
    signed: &[u8],
    from: SocketAddr,
    words: &mut ChaCha20Rng,
) -> anyhow::Result<()> {
    print_hex(rt, "sign", signed)?;
    let request = Message::from_bytes(signed)?;
    if !request.has_class(MessageClass::Request) {
        return Ok(());
    }
    match serve(alloc, server, &request, from, Instant::ZERO, words) {
        Ok(reply) => {
            let printed = print_hex(rt, "serve", reply.as_slice());
            drop(reply);
            printed?;
        }
        Err(error) => println!(rt; "serve: refused: {error}")?,
    }
    Ok(())
}

/// Passes an unsigned request to a server core, and then bytes that are no ALLOCATE request.
fn challenge_client(rt: &impl Print, alloc: Global) -> anyhow::Result<()> {
    let from = SocketAddr::new(IpAddr::V4(Ipv4Addr::new(192, 0, 2, 9)), 50_000);
    for bytes in [UNSIGNED, SAMPLE] {
        let mut words = ChaCha20Rng::from_seed([0; 32]);
        match allocate(alloc, bytes, from, &mut words) {
            Ok(Some(reply)) => {
                let printed = print_hex(rt, "allocate", reply.as_slice());
                drop(reply);
                printed?;
            }
            Ok(None) => println!(rt; "allocate: no reply")?,
            Err(error) => return Err(error.into()),
        }
    }
    Ok(())
}

/// Makes a client, passes it a datagram that isn't from the server, and examines its `Debug` text.
fn begin_client(rt: &impl Print, alloc: Global) -> anyhow::Result<()> {
    let local = SocketAddr::new(IpAddr::V4(Ipv4Addr::new(192, 168, 0, 1)), 1000);
    let server = SocketAddr::new(IpAddr::V4(Ipv4Addr::new(10, 0, 0, 2)), 2000);
    match begin(alloc, local, server, "somebody", "secret", [0; 32]) {
        Ok((mut client, first)) => {
            let done = report_client(rt, alloc, &mut client, first.as_ref(), local);
            drop(first);
            drop(client);
            done
        }
        Err(error) => Err(error.into()),
    }
}

/// Prints what a client sends first, passes it a datagram from an address, and prints which of its
/// credentials its `Debug` text shows.
fn report_client(
    rt: &impl Print,
    alloc: Global,
    client: &mut TurnClientUdp,
    first: Option<&Transmit<Data<'static>>>,
    from: SocketAddr,
) -> anyhow::Result<()> {
    match first {
        Some(sent) => print_hex(rt, "begin", sent.bytes.as_slice())?,
        None => println!(rt; "begin: nothing is sent")?,
    }
    let is_processed = process(client, UNSIGNED, from, Instant::ZERO)?;
    println!(rt; "hear: {is_processed}")?;
    let text = format!(in alloc; "{client:?}")?;
    let (name, password) = (text.contains("somebody"), text.contains("secret"));
    drop(text);
    println!(rt; "debug: the name is shown: {name}, the password: {password}")?;
    Ok(())
}

/// Lets a client reach a peer through a server core.
fn talk_to_peer(rt: &impl Print, alloc: Global) -> anyhow::Result<()> {
    match server(alloc) {
        Ok(server) => {
            let mut desk = Desk::new(alloc, server);
            let done = talk_by_desk(rt, alloc, &mut desk);
            drop(desk);
            done
        }
        Err(error) => Err(error.into()),
    }
}

/// Makes a client that reaches a peer through a server core.
fn talk_by_desk(rt: &impl Print, alloc: Global, desk: &mut Desk) -> anyhow::Result<()> {
    let local = SocketAddr::new(IpAddr::V4(Ipv4Addr::new(192, 168, 0, 1)), 1000);
    let server = SocketAddr::new(IpAddr::V4(Ipv4Addr::new(10, 0, 0, 2)), 2000);
    match begin(alloc, local, server, "user", "pass", [0; 32]) {
        Ok((mut client, first)) => {
            let peer = SocketAddr::new(IpAddr::V4(Ipv4Addr::new(10, 0, 0, 1)), 5);
            let reached = reach(alloc, &mut client, desk, first.as_ref(), peer);
            drop(first);
            let talked = talk(rt, alloc, &mut client, peer);
            drop(client);
            reached?;
            talked
        }
        Err(error) => Err(error.into()),
    }
}

/// Prints what is sent to a peer, and data from the peer.
fn talk(
    rt: &impl Print,
    alloc: Global,
    client: &mut TurnClientUdp,
    peer: SocketAddr,
) -> anyhow::Result<()> {
    let now = Instant::from_nanos(100_000_000);
    match send(alloc, client, peer, b"hi", now)? {
        Some(sent) => {
            let printed = print_hex(rt, "send", sent.bytes.as_slice());
            drop(sent);
            printed?;
        }
        None => println!(rt; "send: nothing is sent")?,
    }
    let reported = DelayedMessage::for_client(peer, TransactionId::from(7u128), "hello".as_bytes());
    match reported.build(alloc) {
        Ok(reported) => {
            let taken = take(alloc, client, reported.as_slice(), now);
            drop(reported);
            print_taken(rt, taken?)
        }
        Err(error) => Err(error.into()),
    }
}

/// Prints data from a peer.
fn print_taken(rt: &impl Print, taken: Option<(SocketAddr, Vec<u8>)>) -> anyhow::Result<()> {
    match taken {
        Some((peer, data)) => {
            println!(rt; "take: of {peer}")?;
            let printed = print_hex(rt, "take", data.as_slice());
            drop(data);
            printed?;
        }
        None => println!(rt; "take: nothing is given")?,
    }
    Ok(())
}

/// Prints a name, and bytes in lower case hex.
fn print_hex(rt: &impl Print, name: &str, bytes: &[u8]) -> io::Result<()> {
    print!(rt; "{name}: ")?;
    for byte in bytes {
        print!(rt; "{byte:02x}")?;
    }
    println!(rt)
}

/// Lets a client over TCP request an allocation from a server core.
fn allocate_by_stream(rt: &impl Print, alloc: Global) -> anyhow::Result<()> {
    match server(alloc) {
        Ok(server) => {
            let mut desk = Desk::new(alloc, server);
            let done = ask_by_stream(rt, alloc, &mut desk);
            drop(desk);
            done
        }
        Err(error) => Err(error.into()),
    }
}

/// Makes the client, with a server core as its server.
fn ask_by_stream(rt: &impl Print, alloc: Global, desk: &mut Desk) -> anyhow::Result<()> {
    let local = SocketAddr::new(IpAddr::V4(Ipv4Addr::new(192, 168, 0, 1)), 1000);
    let server = SocketAddr::new(IpAddr::V4(Ipv4Addr::new(10, 0, 0, 2)), 2000);
    let config = TurnConfig::new(TurnCredentials::new(alloc, "user", "pass")?);
    match TurnClientTcp::allocate(alloc, local, server, config, [0; 32]) {
        Ok(mut client) => {
            let done = report_stream(rt, alloc, &mut client, desk);
            drop(client);
            done
        }
        Err(error) => Err(error.into()),
    }
}

/// Passes a server core's replies to a client twice, each in two chunks of a stream, and prints the
/// relayed addresses that the client then has.
fn report_stream(
    rt: &impl Print,
    alloc: Global,
    client: &mut TurnClientTcp,
    desk: &mut Desk,
) -> anyhow::Result<()> {
    for now in [0, 50_000_000] {
        ask_in_chunks(alloc, client, desk, Instant::from_nanos(now))?;
    }
    for (_, relayed) in client.relayed_addresses() {
        println!(rt; "stream: relayed at {relayed}")?;
    }
    Ok(())
}
