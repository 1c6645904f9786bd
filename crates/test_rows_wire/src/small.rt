//! Message types, headers, transaction IDs, transports and address families.

use crate::line::Line;
use crate::made;
use rand_chacha::ChaCha20Rng;
use rand_core::SeedableRng;
use std::net::{IpAddr, SocketAddr};
use stun_types_base::family::AddressFamily;
use stun_types_base::memory::NoMemory;
use stun_types_base::transport::TransportType;
use stun_types_message::parsed::Message;
use stun_types_wire::attribute::AttributeType;
use stun_types_wire::class::{MessageClass, MessageType, Method};
use stun_types_wire::error::{StunParseError, StunWriteError};
use stun_types_wire::header::MessageHeader;
use stun_types_wire::transaction::TransactionId;
use stun_types_write::vec::MessageWriteVec;

/// Prints small values:
///
/// - `number NUMBER`: a transaction ID as `Display` prints it, and its bytes;
/// - `transport NAME`: the transport with this name;
/// - `causes`: the errors that no line can cause.
pub(crate) fn ask(line: &mut Line<'_>, kind: &str) {
    match kind {
        "type" => message_type(line),
        "header" => header(line),
        "family" => family(line),
        "draw" => draw(line),
        "number" => {
            let number = line.transaction();
            line.say(&number);
            line.hex(&u128::from(number).to_be_bytes());
        }
        "transport" => {
            let transport = line.word().parse::<TransportType>();
            line.gave(transport);
        }
        "causes" => {
            line.say(&StunParseError::AttributeAfterIntegrity(AttributeType(0x8022)));
            line.say(&StunParseError::NoMemory);
            line.say(&StunWriteError::NoMemory);
            line.say(&NoMemory);
        }
        _ => made::ask(line, kind),
    }
}

/// `type CLASS METHOD`: prints the bytes of a message type, then three bytes of 09 into which it
/// was written, and the type that is read back from them.
fn message_type(line: &mut Line<'_>) {
    let class = match line.word() {
        "request" => MessageClass::Request,
        "indication" => MessageClass::Indication,
        "success" => MessageClass::Success,
        _ => MessageClass::Error,
    };
    let method = line.number().min(0x0FFF);
    let mtype = MessageType::from_class_method(class, Method::new(method));
    if let Ok(bytes) = mtype.to_bytes(line.alloc) {
        line.hex(bytes.as_slice());
    }
    let mut written = [9; 3];
    mtype.write_into(&mut written);
    line.hex(&written);
    reported(line, MessageType::from_bytes(&written));
}

/// Prints what a message type says: its class, whether it is a response, and its method.
fn reported(line: &mut Line<'_>, read: Result<MessageType, StunParseError>) {
    match read {
        Ok(mtype) => {
            line.say(match mtype.class() {
                MessageClass::Request => &"request",
                MessageClass::Indication => &"indication",
                MessageClass::Success => &"success",
                MessageClass::Error => &"error",
            });
            line.say(&mtype.is_response());
            line.hex(&mtype.method().value().to_be_bytes());
        }
        Err(error) => line.say(&error),
    }
}

/// `header BYTES`: prints the message type at the start, and the header: its length field, its
/// transaction ID and its bytes.
fn header(line: &mut Line<'_>) {
    let bytes = line.bytes();
    reported(line, MessageType::from_bytes(bytes.as_slice()));
    line.say(&"|");
    match MessageHeader::from_bytes(bytes.as_slice()) {
        Ok(header) => {
            line.say(&header.data_length());
            line.say(&header.transaction_id());
            line.hex(&header.to_bytes());
        }
        Err(error) => line.say(&error),
    }
}

/// `family ADDRESS`: prints the family of an address with its port and without it, first from the
/// general types and then from the types for IPv4 or IPv6.
fn family(line: &mut Line<'_>) {
    let addr = line.address();
    line.say(&AddressFamily::from(&addr));
    line.say(&AddressFamily::from(&addr.ip()));
    match addr {
        SocketAddr::V4(addr) => line.say(&AddressFamily::from(&addr)),
        SocketAddr::V6(addr) => line.say(&AddressFamily::from(&addr)),
    }
    match addr.ip() {
        IpAddr::V4(ip) => line.say(&AddressFamily::from(&ip)),
        IpAddr::V6(ip) => line.say(&AddressFamily::from(&ip)),
    }
}

/// `draw SEED METHOD`: prints a transaction ID from a generator with this seed, and a request and
/// an indication that are started with the next ones.
fn draw(line: &mut Line<'_>) {
    let (seed, method) = (line.bytes(), Method::new(line.number().min(0x0FFF)));
    let mut key = [0; 32];
    for (byte, given) in key.iter_mut().zip(seed.as_slice()) {
        *byte = *given;
    }
    let mut rng = ChaCha20Rng::from_seed(key);
    line.say(&TransactionId::generate(&mut rng));
    let request = Message::builder_request(method, &mut rng, MessageWriteVec::new(line.alloc));
    if let Ok(request) = request {
        line.hex(request.as_slice());
    }
    let reported = Message::builder_indication(method, &mut rng, MessageWriteVec::new(line.alloc));
    if let Ok(reported) = reported {
        line.hex(reported.as_slice());
    }
}
