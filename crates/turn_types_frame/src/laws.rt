//! Theorems on what the definitions of streams mean. The functions do nothing; each contract is a
//! theorem.

ghost use Rattle.std.specs.Prelude.{◌≡◌, ◌++◌, List, ℕ};
ghost use Rattle.turn_types_frame.specs.declared.head.FrameHead.TheVariants.{Invalid};
ghost use Rattle.turn_types_frame.specs.Frames.{AreFrames, Frames, IsHopeless};
ghost use Rattle.turn_types_frame.specs.StreamHeads.{head};
ghost use Rattle.turn_types_frame.specs.Streams.{fed, fed_by, feeding, left_by};

/// A stream returns exactly the complete frames at the head of its bytes (RFC 8656, section 12.5).
///
/// - There is only one way to split bytes into frames and a rest at whose head no frame is
///   complete.
/// - If the head is invalid, no frame begins there, whatever bytes follow.
pub fn streams_are_frames()
    ensures given { (bytes : List ℕ) → AreFrames bytes (fed bytes) }
    ensures unique { (bytes : List ℕ) (one other : List (List ℕ)) (rest left : List ℕ)
        → Frames bytes one rest → Frames bytes other left → (one ≡ other) × (rest ≡ left) }
    ensures invalid { (bytes : List ℕ) → head bytes ≡ Invalid → IsHopeless bytes }
{}

/// The frames that a stream returns, and the bytes that it buffers, do not depend on how the bytes
/// are split into chunks.
///
/// - Feeding more bytes to a stream has the effect of feeding all bytes at once. A dead stream
///   stays dead.
/// - A stream returns the frame at its head, and then the frames of what is left after that one is
///   removed.
pub fn cuts_do_not_matter()
    ensures cut { (bytes more : List ℕ) → feeding more (fed bytes) ≡ fed (bytes ++ more) }
    ensures step { (bytes : List ℕ)
        → fed bytes ≡ fed_by (head bytes) bytes (fed (left_by (head bytes) bytes).stored) }
{}
