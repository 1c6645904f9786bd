//! Adds attributes to a message, in any writer.

ghost use Rattle.std.specs.Prelude.{◌<◌, ◌^◌, IfSome, length};
ghost use Rattle.stun_types_write.specs.Adding.{IsStarted};
ghost use Rattle.stun_types_write.specs.Outcomes.{CanBegin};

use crate::line::Line;
use crate::messages::credentials;
use stun_types_add::ext::{MessageWriteExt, add_as};
use stun_types_attributes::error_code::ErrorCode;
use stun_types_attributes::xor_mapped_address::XorMappedAddress;
use stun_types_auth_attributes::algorithm::PasswordAlgorithmValue;
use stun_types_auth_attributes::nonce::Nonce;
use stun_types_auth_attributes::password_algorithm::PasswordAlgorithm;
use stun_types_auth_attributes::realm::Realm;
use stun_types_auth_attributes::software::Software;
use stun_types_auth_attributes::username::Username;
use stun_types_message::parsed::Message;
use stun_types_wire::algorithm::IntegrityAlgorithm;
use stun_types_wire::attribute::{AttributeType, RawAttribute};
use stun_types_wire::class::MessageClass;
use stun_types_wire::error::StunWriteError;
use stun_types_wire::header::MessageHeader;
use stun_types_wire::registry::BINDING;
use stun_types_write::writer::MessageWrite;
use turn_types_attributes::lifetime::Lifetime;
use turn_types_attributes::requested_transport::RequestedTransport;

/// Starts a message in an empty writer. `begin` takes the header at the start of the bytes;
/// `success` and `error` start the success or the error response to the request in the bytes.
pub(crate) fn begin<W: MessageWrite + Drop>(how: &str, bytes: &[u8], writer: W) -> Option<W>
    requires empty { CanBegin (W.draft writer) }
    ensures { IfSome result (λ started. IsStarted (W.draft started).bytes) }
{
    if how == "begin" {
        return match MessageHeader::from_bytes(bytes) {
            Ok(header) => Message::builder(header.get_type(), header.transaction_id(), writer).ok(),
            Err(_) => None,
        };
    }
    match Message::from_bytes(bytes) {
        Ok(request) if request.class() == MessageClass::Request => {
            if how == "success" {
                Message::builder_success(&request, writer).ok()
            } else {
                Message::builder_error(&request, writer).ok()
            }
        }
        _ => None,
    }
}

/// Makes the adds that the words name. After each add prints the length of the message, and `fine`
/// or the error. Then prints the writer's properties:
///
/// 1. whether the message is a request, of the method BINDING, and a response;
/// 2. its transaction ID, and the maximum length if there is one;
/// 3. whether USERNAME is visible, and which of USERNAME, REALM and LIFETIME is visible first.
pub(crate) fn add_all<W: MessageWrite>(line: &mut Line<'_>, writer: &mut W)
    requires { IsStarted (W.draft writer.old).bytes }
{
    for _ in 0..line.left() {
        if line.left() > 0 {
            let added = add(line, writer);
            line.say(&writer.len());
            match added {
                Ok(()) => line.say(&"fine"),
                Err(error) => line.say(&error),
            }
        }
    }
    line.say(&writer.has_class(MessageClass::Request));
    line.say(&writer.has_method(BINDING));
    line.say(&writer.is_response());
    line.say(&writer.transaction_id());
    if let Some(most) = writer.max_size() {
        line.say(&most);
    }
    let (user, realm) = (AttributeType(0x0006), AttributeType(0x0014));
    line.say(&writer.has_attribute(user));
    if let Some(first) = writer.has_any_attribute(&[user, realm, AttributeType(0x000D)]) {
        line.hex(&first.value().to_be_bytes());
    }
}

/// Makes one add and returns its result.
fn add<W: MessageWrite>(line: &mut Line<'_>, writer: &mut W) -> Result<(), StunWriteError>
    requires { IsStarted (W.draft writer.old).bytes }
    ensures { IsStarted (W.draft writer.new).bytes }
{
    let kind = line.word();
    match kind {
        "fingerprint" => writer.add_fingerprint(),
        "sign" => {
            let credentials = credentials(line.alloc, "user", "realm", "pass");
            writer.add_message_integrity(&credentials, algorithm(line))
        }
        "sign-short" => {
            let credentials = credentials(line.alloc, "-", "-", line.word());
            writer.add_message_integrity(&credentials, IntegrityAlgorithm::Sha1)
        }
        "key" => {
            let credentials = credentials(line.alloc, "user", "realm", "pass");
            let key = credentials.make_key(algorithm(line));
            writer.add_message_integrity_with_key(&key, algorithm(line))
        }
        "zeros" => {
            let zeros = line.bytes();
            let (head, _) = zeros.as_slice().split_at(zeros.len().min(65_535));
            add_raw(writer, head)
        }
        _ => add_attribute(line, writer, kind),
    }
}

/// Parses the next word as an integrity algorithm.
fn algorithm(line: &mut Line<'_>) -> IntegrityAlgorithm {
    match line.word() {
        "sha1" => IntegrityAlgorithm::Sha1,
        "sha512" => IntegrityAlgorithm::Sha512,
        _ => IntegrityAlgorithm::Sha256,
    }
}

/// Adds an attribute of an unassigned type.
fn add_raw<W: MessageWrite>(writer: &mut W, value: &[u8]) -> Result<(), StunWriteError>
    requires started { IsStarted (W.draft writer.old).bytes }
    requires short { length value.now < 2 ^ 16 }
    ensures { IsStarted (W.draft writer.new).bytes }
{
    let raw = RawAttribute::new(AttributeType(0x0022), value);
    add_as(writer, &raw, &raw)
}

/// Adds an attribute that is neither an integrity attribute nor FINGERPRINT.
fn add_attribute<W: MessageWrite>(
    line: &mut Line<'_>,
    writer: &mut W,
    kind: &str,
) -> Result<(), StunWriteError>
    requires { IsStarted (W.draft writer.old).bytes }
    ensures { IsStarted (W.draft writer.new).bytes }
{
    let alloc = line.alloc;
    match kind {
        "lifetime" => writer.add_attribute(&Lifetime::new(600)),
        "transport" => writer.add_attribute(&RequestedTransport::new(RequestedTransport::UDP)),
        "algorithm" => writer.add_attribute(&PasswordAlgorithm::new(
            PasswordAlgorithmValue::SHA256,
        )),
        "software" => writer.add_attribute(&Software::new(alloc, "test vector")?),
        "user" => writer.add_attribute(&Username::new(alloc, line.word())?),
        "realm" => writer.add_attribute(&Realm::new(alloc, line.word())?),
        "nonce" => writer.add_attribute(&Nonce::new(alloc, line.word())?),
        "code" => writer.add_attribute(&ErrorCode::builder(line.value(0)).build(alloc)?),
        _ => {
            let (addr, number) = (line.address(), writer.transaction_id());
            writer.add_attribute(&XorMappedAddress::new(addr, number))
        }
    }
}
