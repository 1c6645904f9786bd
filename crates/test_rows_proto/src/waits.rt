//! Lines for times, and for how long an agent waits for a response.

use crate::line::Line;
use line_io::refusal::LineError;
use stun_proto_transaction::waits::Waits;

/// Adds a duration to a time. Appends the sum, or that there is none; then the saturated sum; then
/// the time from the first time to it, and the time from it to the first time.
pub(crate) fn time(line: &Line<'_>, text: &mut String) -> Result<(), LineError> {
    match line.now.checked_add(line.initial) {
        Some(sum) => write!(text, "sum {}", sum.as_nanos())?,
        None => text.push_str("no sum")?,
    }
    let later = line.now.saturating_add(line.initial);
    let since = later.duration_since(line.now).as_nanos();
    let before = line.now.duration_since(later).as_nanos();
    let reached = later.as_nanos();
    Ok(write!(text, " reached {reached} since {since} before {before}")?)
}

/// The indexes of the transmissions whose times are appended.
const INDEXES: [u32; 8] = [0, 1, 2, 3, 6, 63, 64, u32::MAX];

/// Appends the schedule of a request that is sent at this time with these waits:
///
/// 1. the times of the transmissions with these indexes, even if it transmits fewer times;
/// 2. the end, twice: the second time from a copy;
/// 3. the number of transmissions over UDP and over TCP.
pub(crate) fn waits(line: &Line<'_>, text: &mut String) -> Result<(), LineError> {
    let waits = Waits::new(line.initial, line.most, line.times, line.following);
    text.push_str("at")?;
    for index in INDEXES {
        write!(text, " {}", waits.slot(line.now, index).as_nanos())?;
    }
    let (end, again) = (waits.end(line.now), waits.copied().end(line.now));
    write!(text, " end {} {}", end.as_nanos(), again.as_nanos())?;
    let (over_udp, over_tcp) = (waits.transmissions(false), waits.transmissions(true));
    Ok(write!(text, " sent {over_udp} {over_tcp}")?)
}
