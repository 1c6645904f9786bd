//! Settings: the changes to them, and which settings are equal. Also how credentials are printed.

use crate::line::Line;
use crate::requests::port;
use std::time::Duration;
use stun_proto_auth::feature::Feature;
use stun_types_base::family::AddressFamily;
use stun_types_base::transport::TransportType;
use stun_types_integrity::credentials::{LongTermCredentials, ShortTermCredentials};
use stun_types_wire::algorithm::IntegrityAlgorithm;
use turn_client_proto_api::config::TurnConfig;
use turn_client_proto_api::options::AllocateOptions;
use turn_types_attributes::credentials::TurnCredentials;

/// `settings NAME PASSWORD CHANGE..`: makes the settings of an account, applies the changes in
/// order, prints the settings and stores them. Then prints which of the stored settings a copy of
/// them equals, and which equal the copy; the new settings are the last stored.
pub(crate) fn settings(line: &mut Line<'_>, stored: &mut Vec<TurnConfig>) {
    let (username, password) = (line.text(), line.text());
    let Ok(credentials) = TurnCredentials::new(line.alloc, username, password) else {
        line.is_bad = true;
        return;
    };
    let mut config = TurnConfig::new(credentials);
    for _ in 0..line.left() {
        if line.left() > 0 {
            change(line, &mut config);
        }
    }
    if !line.is_bad {
        keep(line, config, stored);
    }
}

/// Prints settings, stores them and compares them.
fn keep(line: &mut Line<'_>, config: TurnConfig, stored: &mut Vec<TurnConfig>) {
    show(line, &config);
    let copy = config.clone(line.alloc);
    let is_stored = stored.push(config).is_ok();
    line.is_bad = line.is_bad || !is_stored;
    match copy {
        Ok(copy) => compare(line, &copy, stored.as_slice()),
        Err(_) => line.is_bad = true,
    }
}

/// Makes the change that the next word names.
fn change(line: &mut Line<'_>, config: &mut TurnConfig) {
    match line.word() {
        "transport=udp" => config.set_allocation_transport(TransportType::Udp),
        "transport=tcp" => config.set_allocation_transport(TransportType::Tcp),
        "family=v4" => config.set_address_family(AddressFamily::IPV4),
        "family=v6" => config.set_address_family(AddressFamily::IPV6),
        "family+v4" => config.add_address_family(AddressFamily::IPV4),
        "family+v6" => config.add_address_family(AddressFamily::IPV6),
        "hardened" => config.set_hardened(true),
        "softened" => config.set_hardened(false),
        "attempts" => config.set_max_connection_attempts(Some(line.value(0usize))),
        "unlimited" => config.set_max_connection_attempts(None),
        "short" => config.set_short_lifetimes(true),
        "long" => config.set_short_lifetimes(false),
        "indications" => config.set_attempt_indications(true),
        "requests" => config.set_attempt_indications(false),
        "lifetime" => ask_lifetime(line, config),
        "port" => config.set_relayed_port(port(line)),
        "pace" => config.set_pace(line.duration()),
        "waits" => wait(line, config),
        word => sign(line, config, word),
    }
}

/// Sets the lifetime that is asked for, or prints why that can't be.
fn ask_lifetime(line: &mut Line<'_>, config: &mut TurnConfig) {
    if let Err(error) = config.set_requested_lifetime(line.value(0u32)) {
        line.say(&error);
    }
}

/// Sets the waits: the initial and the maximum wait, the number of transmissions, and the last
/// wait.
fn wait(line: &mut Line<'_>, config: &mut TurnConfig) {
    let (initial, most) = (line.duration(), line.duration());
    let (times, last) = (line.value(0u32), line.duration());
    config.set_request_retransmits(initial, most, times, last);
}

/// Changes the supported algorithms, or whether the username is hashed.
fn sign(line: &mut Line<'_>, config: &mut TurnConfig, word: &str) {
    match word {
        "algorithm=sha1" => config.set_supported_integrity(IntegrityAlgorithm::Sha1),
        "algorithm=sha256" => config.set_supported_integrity(IntegrityAlgorithm::Sha256),
        "algorithm=sha512" => config.set_supported_integrity(IntegrityAlgorithm::Sha512),
        "algorithm+sha1" => config.add_supported_integrity(IntegrityAlgorithm::Sha1),
        "algorithm+sha256" => config.add_supported_integrity(IntegrityAlgorithm::Sha256),
        "algorithm+sha512" => config.add_supported_integrity(IntegrityAlgorithm::Sha512),
        "anonymity=auto" => config.set_anonymous_username(Feature::Auto),
        "anonymity=required" => config.set_anonymous_username(Feature::Required),
        "anonymity=disabled" => config.set_anonymous_username(Feature::Disabled),
        _ => line.is_bad = true,
    }
}

/// Prints settings, `indications` if these announce connections of peers, `hardened` if the client
/// is, `short` if a REFRESH may shorten an allocation, `attempts` with the limit if they have one,
/// and what differs of what an ALLOCATE asks for and of the pace.
fn show(line: &mut Line<'_>, config: &TurnConfig) {
    line.say_text(config.credentials().username());
    line.say_text(config.credentials().password());
    line.say(&config.allocation_transport());
    for family in config.address_families() {
        line.say(family);
    }
    for algorithm in config.supported_integrity() {
        let _ = write!(line.answer, " {algorithm:?}");
    }
    let anonymity = config.anonymous_username();
    let _ = write!(line.answer, " {anonymity:?}");
    show_kinds(line, config);
    if let Some(limit) = config.max_connection_attempts() {
        line.say(&"attempts");
        line.say(&limit);
    }
    show_options(line, config);
}

/// Prints `indications`, `hardened` and `short`, each if it is set.
fn show_kinds(line: &mut Line<'_>, config: &TurnConfig) {
    if config.attempt_indications() {
        line.say(&"indications");
    }
    if config.is_hardened() {
        line.say(&"hardened");
    }
    if config.short_lifetimes() {
        line.say(&"short");
    }
}

/// Prints `lifetime`, `port` and `pace` (in nanoseconds), each if it isn't that of new settings.
fn show_options(line: &mut Line<'_>, config: &TurnConfig) {
    let (options, usual) = (config.allocate_options(), AllocateOptions::new());
    if options.lifetime != usual.lifetime {
        line.say(&"lifetime");
        line.say(&options.lifetime);
    }
    if options.port != usual.port {
        let _ = write!(line.answer, " port {:?}", options.port);
    }
    if config.pace() != Duration::from_millis(50) {
        line.say(&"pace");
        line.say(&config.pace().as_nanos());
    }
}

/// Prints the indexes of the settings that `one` equals, and of those that equal `one`.
fn compare(line: &mut Line<'_>, one: &TurnConfig, stored: &[TurnConfig]) {
    line.say(&"equals");
    for (index, other) in stored.iter().enumerate() {
        if *one == *other {
            line.say(&index);
        }
    }
    line.say(&"is equalled by");
    for (index, other) in stored.iter().enumerate() {
        if *other == *one {
            line.say(&index);
        }
    }
}

/// `debug NAME PASSWORD REALM`: prints what `Debug` prints of credentials, in this order:
///
/// 1. the credentials of a TURN user;
/// 2. long-term credentials without a realm;
/// 3. long-term credentials in this realm;
/// 4. short-term credentials.
pub(crate) fn debug(line: &mut Line<'_>) {
    let (username, password, realm) = (line.text(), line.text(), line.text());
    match TurnCredentials::new(line.alloc, username, password) {
        Ok(credentials) => {
            let _ = write!(line.answer, " {credentials:?}");
            debug_user(line, LongTermCredentials::from(credentials), realm);
        }
        Err(_) => line.is_bad = true,
    }
    match String::from_str(line.alloc, password) {
        Ok(password) => {
            let _ = write!(line.answer, " {:?}", ShortTermCredentials::new(password));
        }
        Err(_) => line.is_bad = true,
    }
}

/// Prints what `Debug` prints of credentials without a realm and in a realm.
fn debug_user(line: &mut Line<'_>, credentials: LongTermCredentials, realm: &str) {
    let _ = write!(line.answer, " {credentials:?}");
    match String::from_str(line.alloc, realm) {
        Ok(realm) => match credentials.to_key(line.alloc, realm) {
            Ok(key) => {
                let _ = write!(line.answer, " {key:?}");
            }
            Err(_) => line.is_bad = true,
        },
        Err(_) => line.is_bad = true,
    }
}
