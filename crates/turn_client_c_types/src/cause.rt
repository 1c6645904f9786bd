//! Why an event happened, as C gets it.

ghost use Rattle.std.specs.Prelude.{◌≡◌};
ghost use Rattle.std.specs.Option.{option_copied};
ghost use Rattle.turn_client_c_types.specs.Causes.{code_of, is_signed_of, kind_of, reason_of, reported_cause, size_of_text};

use crate::address::TurnAddress;
use std::net::SocketAddr;
use turn_client_proto_api::cause::TurnCause;

/// The event reports success, or there was none yet.
const NONE: u32 = 0;

/// The server rejected the request.
const REJECTED: u32 = 1;

/// No response came in time.
const UNANSWERED: u32 = 2;

/// The response did not validate.
const INTEGRITY: u32 = 3;

/// The server has no algorithm that the client supports.
const NO_ALGORITHM: u32 = 4;

/// The server allocated addresses of other families only.
const OTHER_FAMILY: u32 = 5;

/// The cause was not stored, because memory ran out.
const CAUSE_MEMORY: u32 = 6;

/// The client's user ended it.
const DELETED: u32 = 7;

/// Its time was over.
const EXPIRED: u32 = 8;

/// A layer above ended the client.
const SOCKET_CLOSED: u32 = 9;

/// The response lacked what the client needs of it, or was malformed.
const UNUSABLE: u32 = 10;

/// Why an event happened.
#[repr(C)]
#[derive(Clone, Copy)]
pub struct TurnClientCause {
    /// What it was, by the numbers of `enum turn_cause_kind`.
    pub kind: u32,
    /// The code of the error response; 0 if the server rejected nothing.
    pub code: u32,
    /// Whether the error response was validated.
    pub is_signed: bool,
    /// The number of bytes of its reason phrase.
    pub reason_size: usize,
    /// The server that a response 300 named which ended the client; family 0 if there is none.
    pub alternate: TurnAddress,
    /// The number of bytes of the name of that server's domain.
    pub domain_size: usize,
}

impl TurnClientCause {
    /// Writes a cause, and the server and the size of the domain's name that a response 300 named.
    pub fn report(
        &mut self,
        cause: Option<&TurnCause>,
        alternate: Option<SocketAddr>,
        domain: Option<&str>,
    )
        ensures { self.new
            ≡ reported_cause (option_copied cause.entry) alternate (option_copied domain.entry) }
    {
        self.kind = kind_of(cause);
        self.report_rejection(cause);
        match alternate {
            Some(server) => self.alternate.report(&server),
            None => self.alternate.report_none(0),
        }
        self.domain_size = match domain {
            Some(text) => text.len(),
            None => 0,
        };
    }

    /// Writes the code of the error response, whether it was validated, and the size of its reason
    /// phrase; zeros if the server rejected nothing.
    fn report_rejection(&mut self, cause: Option<&TurnCause>)
        ensures { self.new ≡ record self.old {
          code = code_of (option_copied cause.entry);
          is_signed = is_signed_of (option_copied cause.entry);
          reason_size = size_of_text (reason_of (option_copied cause.entry));
        } }
    {
        match cause {
            Some(
                TurnCause::Rejected {
                    code,
                    reason,
                    is_signed,
                },
            ) => {
                self.code = u32::from(*code);
                self.is_signed = *is_signed;
                self.reason_size = reason.as_str().len();
            }
            _ => {
                self.code = 0;
                self.is_signed = false;
                self.reason_size = 0;
            }
        }
    }
}

/// Returns the number of a cause; 0 if there is none.
fn kind_of(cause: Option<&TurnCause>) -> u32
    ensures { result ≡ kind_of (option_copied cause.entry) }
{
    match cause {
        None => NONE,
        Some(TurnCause::Rejected { .. }) => REJECTED,
        Some(TurnCause::Unanswered) => UNANSWERED,
        Some(TurnCause::Integrity) => INTEGRITY,
        Some(TurnCause::NoCommonAlgorithm) => NO_ALGORITHM,
        Some(TurnCause::OtherFamily) => OTHER_FAMILY,
        Some(TurnCause::OutOfMemory) => CAUSE_MEMORY,
        Some(TurnCause::Deleted) => DELETED,
        Some(TurnCause::Expired) => EXPIRED,
        Some(TurnCause::SocketClosed) => SOCKET_CLOSED,
        Some(_) => UNUSABLE,
    }
}

/// Returns the reason phrase of the error response by which the server rejected the request, or
/// `None` if it rejected nothing.
pub fn reason_of(cause: Option<&TurnCause>) -> Option<&str>
    ensures { option_copied result ≡ reason_of (option_copied cause.entry) }
{
    match cause {
        Some(TurnCause::Rejected { reason, .. }) => Some(reason.as_str()),
        _ => None,
    }
}
