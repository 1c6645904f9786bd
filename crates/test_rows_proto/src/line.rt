//! The contents of an input line.

use line_io::refusal::LineError;
use std::net::{IpAddr, Ipv4Addr, SocketAddr};
use std::str::FromStr;
use std::time::Duration;
use stun_proto_auth::feature::Feature;
use stun_proto_auth::supported::SupportedIntegrity;
use stun_types_base::instant::Instant;
use stun_types_base::transport::TransportType;
use stun_types_wire::algorithm::IntegrityAlgorithm;
use stun_types_wire::class::MessageClass;
use stun_types_wire::transaction::TransactionId;

/// The contents of a line: the operation and its arguments. An argument that the line does not name
/// is zero or the first of its kind, `None`, or `-`.
#[derive(Clone, Copy)]
pub(crate) struct Line<'a> {
    pub(crate) what: &'a str,
    pub(crate) transport: TransportType,
    pub(crate) address: SocketAddr,
    pub(crate) remote: Option<SocketAddr>,
    pub(crate) now: Instant,
    pub(crate) last: Instant,
    pub(crate) number: TransactionId,
    pub(crate) initial: Duration,
    pub(crate) most: Option<Duration>,
    pub(crate) times: u32,
    pub(crate) following: Duration,
    pub(crate) class: MessageClass,
    pub(crate) algorithm: IntegrityAlgorithm,
    pub(crate) supported: SupportedIntegrity,
    pub(crate) anonymity: Feature,
    pub(crate) seed: u8,
    pub(crate) length: u16,
    pub(crate) name: &'a str,
    pub(crate) realm: &'a str,
    pub(crate) password: &'a str,
    pub(crate) nonce: &'a str,
    pub(crate) words: &'a str,
    pub(crate) value: &'a str,
    pub(crate) bytes: &'a str,
}

impl<'a> Line<'a> {
    /// Parses the words of a line: the first is the operation, and each other word is a name, `=`
    /// and a value.
    pub(crate) fn read(words: &[&'a str]) -> Result<Line<'a>, LineError> {
        let [what, rest @ ..] = words else {
            return Err(LineError::Bad);
        };
        let mut line = Line::new(what);
        for word in rest {
            match word.split_once('=') {
                Some((name, value)) => line.take(name, value)?,
                None => return Err(LineError::Bad),
            }
        }
        Ok(line)
    }

    /// Returns the line with this one word.
    fn new(what: &'a str) -> Line<'a> {
        Line {
            what,
            transport: TransportType::Udp,
            address: SocketAddr::new(IpAddr::V4(Ipv4Addr::UNSPECIFIED), 0),
            remote: None,
            now: Instant::ZERO,
            last: Instant::ZERO,
            number: TransactionId::from(0u128),
            initial: Duration::ZERO,
            most: None,
            times: 0,
            following: Duration::ZERO,
            class: MessageClass::Request,
            algorithm: IntegrityAlgorithm::Sha1,
            supported: SupportedIntegrity::only(IntegrityAlgorithm::Sha1),
            anonymity: Feature::Auto,
            seed: 0,
            length: 0,
            name: "-",
            realm: "-",
            password: "-",
            nonce: "-",
            words: "-",
            value: "-",
            bytes: "-",
        }
    }

    /// Sets the argument with this name.
    fn take(&mut self, name: &str, value: &'a str) -> Result<(), LineError> {
        match name {
            "name" => self.name = value,
            "realm" => self.realm = value,
            "password" => self.password = value,
            "nonce" => self.nonce = value,
            "words" => self.words = value,
            "value" => self.value = value,
            "bytes" => self.bytes = value,
            "class" => self.class = read_class(value)?,
            "algorithm" => self.algorithm = read_algorithm(value)?,
            "supported" => self.supported = read_supported(value)?,
            "anonymity" => self.anonymity = read_feature(value)?,
            _ => return self.take_number(name, value),
        }
        Ok(())
    }

    /// Sets the argument with this name, which is a number or an address.
    fn take_number(&mut self, name: &str, value: &str) -> Result<(), LineError> {
        match name {
            "transport" => self.transport = read(value)?,
            "from" | "to" | "local" => self.address = read(value)?,
            "remote" => self.remote = Some(read(value)?),
            "now" => self.now = Instant::from_nanos(read(value)?),
            "last" => self.last = Instant::from_nanos(read(value)?),
            "number" => self.number = TransactionId::from(read::<u128>(value)?),
            "initial" => self.initial = read_duration(value)?,
            "most" => self.most = Some(read_duration(value)?),
            "times" => self.times = read(value)?,
            "behind" => self.following = read_duration(value)?,
            "seed" => self.seed = read(value)?,
            "length" => self.length = read(value)?,
            _ => return Err(LineError::Bad),
        }
        Ok(())
    }
}

/// Parses a word: a number, an address or a transport.
pub(crate) fn read<T: FromStr>(word: &str) -> Result<T, LineError>
where
    T::Err: Drop,
{
    match word.parse::<T>() {
        Ok(value) => Ok(value),
        Err(_) => Err(LineError::Bad),
    }
}

/// Parses a duration: nanoseconds, or seconds and nanoseconds separated by a point.
fn read_duration(word: &str) -> Result<Duration, LineError> {
    match word.split_once('.') {
        Some((seconds, nanos)) => {
            let seconds = Duration::from_secs(read(seconds)?);
            Ok(seconds.saturating_add(Duration::from_nanos(read(nanos)?)))
        }
        None => Ok(Duration::from_nanos(read(word)?)),
    }
}

/// Parses an integrity algorithm.
fn read_algorithm(word: &str) -> Result<IntegrityAlgorithm, LineError> {
    match word {
        "sha1" => Ok(IntegrityAlgorithm::Sha1),
        "sha256" => Ok(IntegrityAlgorithm::Sha256),
        "sha512" => Ok(IntegrityAlgorithm::Sha512),
        _ => Err(LineError::Bad),
    }
}

/// Parses the algorithms that a side supports: one, or several separated by commas.
fn read_supported(word: &str) -> Result<SupportedIntegrity, LineError> {
    let mut words = word.split(',');
    let Some(first) = words.next() else {
        return Err(LineError::Bad);
    };
    let mut supported = SupportedIntegrity::only(read_algorithm(first)?);
    for other in words {
        supported = supported.with(read_algorithm(other)?);
    }
    Ok(supported)
}

/// Parses whether usernames are hashed.
fn read_feature(word: &str) -> Result<Feature, LineError> {
    match word {
        "auto" => Ok(Feature::Auto),
        "required" => Ok(Feature::Required),
        "disabled" => Ok(Feature::Disabled),
        _ => Err(LineError::Bad),
    }
}

/// Parses a message class.
fn read_class(word: &str) -> Result<MessageClass, LineError> {
    match word {
        "request" => Ok(MessageClass::Request),
        "indication" => Ok(MessageClass::Indication),
        "success" => Ok(MessageClass::Success),
        "error" => Ok(MessageClass::Error),
        _ => Err(LineError::Bad),
    }
}
