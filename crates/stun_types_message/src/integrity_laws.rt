//! Theorems on message integrity: what a covered text determines, and that what is signed
//! validates. The functions do nothing; each contract is a theorem.

ghost use Rattle.std.specs.Prelude.{◌≡◌, ◌<◌, ◌^◌, ◌++◌, ◌∷◌, List, ℕ, None, length};
ghost use Rattle.std.specs.List.{AllByRecursion};
ghost use Rattle.stun_types_attributes.specs.Wire.declared.algorithm.IntegrityAlgorithm.{IntegrityAlgorithm as Algorithm};
ghost use Rattle.stun_types_attributes.specs.Wire.Attributes.{Attr};
ghost use Rattle.stun_types_attributes.specs.Wire.Shape.{IsShape, kinds_of};
ghost use Rattle.stun_types_attributes.specs.Wire.Text.{FitsAttribute, body_text, message_text};
ghost use Rattle.stun_types_attributes.specs.Wire.Fingerprinted.{HasOwnFingerprint};
ghost use Rattle.stun_types_attributes.specs.Wire.Headers.{AreBytes};
ghost use Rattle.stun_types_add.specs.Integrity.Integrity.{IsSigned, Validates, algorithm_of};
ghost use Rattle.stun_types_add.specs.Integrity.Signing.{signature, text_to_sign};
ghost use Rattle.stun_types_attributes.specs.Wire.MessageReading.{IsReadAs};
ghost use Rattle.stun_types_add.specs.Write.Drafts.{Draft};
ghost use Rattle.stun_types_add.specs.Calls.{Add, Integrity, IsLawful, IsWritten, attributes_of};
ghost use Rattle.stun_types_message.specs.UnsignedCalls.{IsNoIntegrity};
ghost use Rattle.stun_types_message.specs.Same.{ShowSame};

/// If two messages validate under one key, by one algorithm and with the same covered text, they
/// have the same type, the same transaction ID and the same visible attributes, except for a
/// FINGERPRINT (RFC 8489, sections 14.5 and 14.6).
pub fn covered_text_fixes_message()
    ensures { (first second key : List ℕ) (algorithm : Algorithm) (text : List ℕ)
        → AreBytes first
        → AreBytes second
        → Validates first key algorithm text
        → Validates second key algorithm text
        → ShowSame first second }
{}

/// Take a well-formed message as a writer encodes it, in which FINGERPRINT is right if it is there
/// (RFC 8489, sections 14.5 and 14.6).
///
/// - If one of its attributes is the signature, under a key, of what precedes it, the message is
///   signed under that key.
/// - If also no integrity attribute follows that one, the message validates under that key.
pub fn signed_validates()
    ensures signed { (kind number : ℕ) (adds : List Attr) (key : List ℕ) (algorithm : Algorithm)
        (following all : List Attr)
        → all ≡ adds ++ signature algorithm key (message_text kind number adds) ∷ following
        → kind < 2 ^ 14
        → number < 2 ^ 96
        → AllByRecursion FitsAttribute adds
        → AllByRecursion FitsAttribute following
        → IsShape (kinds_of all)
        → length (body_text all) < 2 ^ 16
        → HasOwnFingerprint kind number all
        → IsSigned (message_text kind number all) key algorithm
        (text_to_sign algorithm (message_text kind number adds)) }
    ensures validates { (kind number : ℕ) (adds : List Attr) (key : List ℕ) (algorithm : Algorithm)
        (following all : List Attr)
        → all ≡ adds ++ signature algorithm key (message_text kind number adds) ∷ following
        → kind < 2 ^ 14
        → number < 2 ^ 96
        → AllByRecursion FitsAttribute adds
        → AllByRecursion FitsAttribute following
        → IsShape (kinds_of all)
        → length (body_text all) < 2 ^ 16
        → HasOwnFingerprint kind number all
        → AllByRecursion (λ a. algorithm_of a.kind ≡ None) following
        → Validates (message_text kind number all) key algorithm
        (text_to_sign algorithm (message_text kind number adds)) }
{}

/// Take a writer in which a message was started and to which attributes, integrity attributes and a
/// FINGERPRINT were added by accepted calls (RFC 8489, sections 5 and 14).
///
/// - Its bytes are the encoding of the attributes that the calls added, in order.
/// - They parse as a message with exactly these attributes.
/// - The message validates under the key of the last integrity attribute.
pub fn calls_compose()
    ensures text { (mtype number : ℕ) (calls : List Add) (draft : Draft)
        → IsWritten mtype number calls draft
        → draft.bytes ≡ message_text mtype number (attributes_of mtype number calls) }
    ensures read { (mtype number : ℕ) (calls : List Add) (draft : Draft)
        → mtype < 2 ^ 14
        → number < 2 ^ 96
        → AllByRecursion IsLawful calls
        → IsWritten mtype number calls draft
        → IsReadAs mtype number (attributes_of mtype number calls) draft.bytes }
    ensures validates { (mtype number : ℕ) (earlier following : List Add) (algorithm : Algorithm)
        (key : List ℕ) (draft : Draft)
        → mtype < 2 ^ 14
        → number < 2 ^ 96
        → AllByRecursion IsLawful (earlier ++ Integrity algorithm key ∷ following)
        → IsWritten mtype number (earlier ++ Integrity algorithm key ∷ following) draft
        → AllByRecursion IsNoIntegrity following
        → Validates draft.bytes key algorithm
        (text_to_sign algorithm (message_text mtype number
        (attributes_of mtype number earlier))) }
{}

/// If messages of one type and transaction ID were started in two writers of any kinds, and both
/// took the same calls, the writers hold the same bytes.
pub fn same_adds_same_bytes()
    ensures { (mtype number : ℕ) (calls : List Add) (one other : Draft)
        → IsWritten mtype number calls one
        → IsWritten mtype number calls other
        → one.bytes ≡ other.bytes }
{}
