//! The events for the permissions that a request asked for (RFC 8656, section 10.3).

ghost use Rattle.std.specs.Prelude.{◌≡◌, ◌++◌, OnErr, OnOk, length, map, take};
ghost use Rattle.turn_client_proto_api.specs.declared.event.TurnEvent.TheVariants.{PermissionCreated, PermissionCreateFailed};

use std::net::IpAddr;
use stun_types_base::memory::NoMemory;
use stun_types_base::transport::TransportType;
use turn_client_proto_api::event::TurnEvent;
use turn_client_proto_api::queue::QueueOf;

/// Queues a `PermissionCreated` for each address. With `NoMemory`, the events queued before are
/// still the first ones.
pub(crate) fn report_created(
    events: &mut QueueOf<TurnEvent>,
    transport: TransportType,
    ips: &[IpAddr],
) -> Result<(), NoMemory>
    ensures ok { OnOk result (events.new
        ≡ events.old ++ map (PermissionCreated transport) ips.now) }
    ensures err { OnErr result (take (length events.old) events.new ≡ events.old) }
{
    for ip in ips {
        events.push_back(TurnEvent::PermissionCreated(transport, *ip))?;
    }
    Ok(())
}

/// Queues a `PermissionCreateFailed` for each address. With `NoMemory`, the events queued before are
/// still the first ones.
pub(crate) fn report_failed(
    events: &mut QueueOf<TurnEvent>,
    transport: TransportType,
    ips: &[IpAddr],
) -> Result<(), NoMemory>
    ensures ok { OnOk result (events.new
        ≡ events.old ++ map (PermissionCreateFailed transport) ips.now) }
    ensures err { OnErr result (take (length events.old) events.new ≡ events.old) }
{
    for ip in ips {
        events.push_back(TurnEvent::PermissionCreateFailed(transport, *ip))?;
    }
    Ok(())
}
