//! Theorems on the grammar of messages: what the definitions of `stun_types_wire` mean in the words
//! of RFC 8489. The functions do nothing; each contract is a theorem.

ghost use Rattle.std.specs.Prelude.{◌≡◌, ◌↔◌, ◌<◌, ◌^◌, List, ℕ, drop, length, Some, None};
ghost use Rattle.stun_types_wire.specs.declared.error.StunParseError.TheVariants.{NotStun};
ghost use Rattle.stun_types_wire.specs.declared.error.StunParseError.TheVariants.{Truncated};
ghost use Rattle.stun_types_wire.specs.Attributes.{Attr, attributes, kind_at, numbered};
ghost use Rattle.stun_types_wire.specs.Shape.{IsLongestPrefix, IsShape, kinds_of};
ghost use Rattle.stun_types_wire.specs.Grammar.{visible, refusal, fingerprint_refusal};
ghost use Rattle.stun_types_wire.specs.Grammar.{header_refusal, number_at};
ghost use Rattle.stun_types_wire.specs.Text.{IsTextOf, FitsAttribute, body_text, message_text};
ghost use Rattle.std.specs.List.{AllByRecursion};
ghost use Rattle.stun_types_wire.specs.Fingerprinted.{AreRightFingerprints, HasOwnFingerprint};
ghost use Rattle.stun_types_wire.specs.Headers.{AreBytes, BeginsWithHeader, MayBecomeHeader};
ghost use Rattle.stun_types_wire.specs.MessageReading.{IsReadAs};
ghost use Rattle.stun_types_wire.specs.Registry.{header_size};

/// The visible attributes of a message are the longest prefix in the shape, of the list of complete
/// attributes after its header. That prefix is itself in the shape (RFC 8489, sections 14.5 to
/// 14.7).
pub fn visible_is_longest_prefix()
    ensures { (bytes : List ℕ)
        → IsLongestPrefix (visible bytes) (attributes (drop header_size bytes)) }
{}

/// For any bytes, the decoding of a header (RFC 8489, section 5):
///
/// - fails with `NotStun` if and only if the bytes can't be extended to begin with a header;
/// - fails with `Truncated` if and only if they can, and there are fewer than twenty;
/// - succeeds if and only if they begin with a header.
pub fn header_refusals()
    ensures not_stun { (bytes : List ℕ) → AreBytes bytes → (header_refusal bytes ≡ Some NotStun)
        ↔ (¬ MayBecomeHeader bytes) }
    ensures truncated { (bytes : List ℕ) → AreBytes bytes
        → (header_refusal bytes ≡ Some (Truncated header_size (length bytes)))
        ↔ ((length bytes < header_size) × MayBecomeHeader bytes) }
    ensures accepted { (bytes : List ℕ) → AreBytes bytes → (header_refusal bytes ≡ None)
        ↔ BeginsWithHeader bytes }
{}

/// No FINGERPRINT among some attributes is refused if and only if each FINGERPRINT has four bytes,
/// and these are the CRC-32, xored with `STUN`, of the message before it, whose length field then
/// includes the FINGERPRINT (RFC 8489, section 14.7).
pub fn fingerprint_refusals()
    ensures { (bytes : List ℕ) (entries : List (ℕ × Attr))
        → (fingerprint_refusal bytes entries ≡ None) ↔ AreRightFingerprints bytes entries }
{}

/// If some bytes are the text of a message whose FINGERPRINTs are right, they are decoded as that
/// message. Its padding, and what follows the point where the shape ends, may be anything (RFC
/// 8489, sections 5 and 14).
pub fn text_is_read()
    ensures { (kind number : ℕ) (all : List Attr) (bytes : List ℕ) → IsTextOf kind number all bytes
        → AreRightFingerprints bytes (numbered header_size all) → IsReadAs kind number all bytes }
{}

/// Bytes that are accepted as a message consist of:
///
/// 1. the header that is decoded from them;
/// 2. each visible attribute, with some padding;
/// 3. nothing more, or four bytes or more that begin with a type that breaks the shape.
///
/// Each visible FINGERPRINT is right. Together with `text_is_read` this says which bytes are a
/// message.
pub fn message_is_text()
    ensures text { (bytes : List ℕ) → AreBytes bytes → refusal bytes ≡ None
        → IsTextOf (kind_at bytes) (number_at bytes) (visible bytes) bytes }
    ensures fingerprint { (bytes : List ℕ) → refusal bytes ≡ None
        → AreRightFingerprints bytes (numbered header_size (visible bytes)) }
{}

/// A message as a writer encodes it, without a FINGERPRINT or with the right one at its end, is
/// accepted, and is decoded as its type, its transaction ID and the attributes that were added.
pub fn written_is_read()
    ensures { (kind number : ℕ) (all : List Attr)
        → kind < 2 ^ 14
        → number < 2 ^ 96
        → AllByRecursion FitsAttribute all
        → IsShape (kinds_of all)
        → length (body_text all) < 2 ^ 16
        → HasOwnFingerprint kind number all
        → IsReadAs kind number all (message_text kind number all) }
{}
