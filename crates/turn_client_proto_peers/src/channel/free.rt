//! Free and used channel numbers (RFC 8656, section 12).

ghost use Rattle.std.specs.Prelude.{◌≡◌, ◌<◌, ◌+◌, length};
ghost use Rattle.std.specs.List.{list_any};
ghost use Rattle.turn_types_attributes.specs.TurnRegistry.{greatest_channel, least_channel};
ghost use Rattle.turn_client_proto_peers.specs.Channel.Numbers.{AreMarked, IsLeastFree, IsLeastUntaken, is_requested_as, is_marked, is_numbered, is_taken_in, protects};

use stun_types_base::instant::Instant;
use turn_client_proto_allocation::allocation::Allocation;
use turn_client_proto_allocation::channel::{Channel, ChannelId, ExpiredChannel, PendingChannel};
use turn_client_proto_allocation::channel_of::protected_until;
use turn_types_attributes::registry::{GREATEST_CHANNEL, LEAST_CHANNEL};

/// The count of channel numbers.
const NUMBERS: usize = (GREATEST_CHANNEL - LEAST_CHANNEL) as usize + 1;

/// Marks the numbers of the active channels.
fn mark_standing(marks: &mut [bool], channels: &[Channel])
    requires { greatest_channel < least_channel + length marks.old }
    ensures { AreMarked (λ n. list_any (is_numbered n) channels.now) marks.old marks.new }
{
    for channel in channels {
        marks[usize::from(channel.number.number() - LEAST_CHANNEL)] = true;
    }
}

/// Marks the numbers of the pending channels.
fn mark_requested(marks: &mut [bool], pending: &[PendingChannel])
    requires { greatest_channel < least_channel + length marks.old }
    ensures { AreMarked (λ n. list_any (is_requested_as n) pending.now) marks.old marks.new }
{
    for channel in pending {
        marks[usize::from(channel.channel.number() - LEAST_CHANNEL)] = true;
    }
}

/// Marks the numbers of the expired channels that are still protected at `now`.
fn mark_protected(marks: &mut [bool], expired: &[ExpiredChannel], now: Instant)
    requires { greatest_channel < least_channel + length marks.old }
    ensures { AreMarked (λ n. list_any (protects n now) expired.now) marks.old marks.new }
{
    for channel in expired {
        if now < protected_until(channel) {
            marks[usize::from(channel.number.number() - LEAST_CHANNEL)] = true;
        }
    }
}

/// Marks the numbers that the allocation's channels use at `now`.
fn mark_taken(marks: &mut [bool], a: &Allocation, now: Instant)
    requires { greatest_channel < least_channel + length marks.old }
    ensures { AreMarked (λ n. is_taken_in n now a.now) marks.old marks.new }
{
    mark_standing(marks, a.channels.as_slice());
    mark_requested(marks, a.pending_channels.as_slice());
    mark_protected(marks, a.expired_channels.as_slice(), now);
}

/// Returns the least number that is not marked, or `None` if all are.
fn least_unmarked(marks: &[bool]) -> Option<ChannelId>
    requires { greatest_channel < least_channel + length marks.now }
    ensures { IsLeastUntaken (is_marked marks.now) result }
{
    for number in LEAST_CHANNEL..=GREATEST_CHANNEL {
        if !marks[usize::from(number - LEAST_CHANNEL)] {
            return Some(ChannelId::new(number));
        }
    }
    None
}

/// Returns the least channel number that is free at `now`, or `None` if all 16,384 are used.
///
/// A number is used if, in any of the allocations, it belongs to an active channel, a pending
/// channel, or an expired channel that is still protected. The call looks at each channel once.
pub fn free_number(allocations: &[Allocation], now: Instant) -> Option<ChannelId>
    ensures { IsLeastFree allocations.now now result }
{
    let mut marks = [false; NUMBERS];
    for allocation in allocations {
        mark_taken(&mut marks, allocation, now);
    }
    least_unmarked(&marks)
}
