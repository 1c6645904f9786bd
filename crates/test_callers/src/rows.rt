//! Calls of the server core's crate that lines of standard input name.

use crate::replaying::{replay_chunks, replay_remark, replay_to};
use std::alloc::Global;
use std::io::Read;
use std::net::IpAddr;
use turn_desk::is_forbidden_peer;

/// Makes the call of each line, and prints its name and the results. An empty line and a line that
/// begins with `#` are skipped. `tests/oracle/rows_callers.py` generates the lines and the expected
/// output.
pub(crate) fn take_rows(rt: &HostRuntime, alloc: Global) -> anyhow::Result<()> {
    let mut input = Vec::new(alloc);
    rt.reader().read_to_end(&mut input)?;
    let text = str::from_utf8(input.as_slice())?;
    for line in text.split('\n') {
        if !line.is_empty() && !line.starts_with('#') {
            take_row(rt, alloc, line)?;
        }
    }
    Ok(())
}

/// Makes the call of a line.
fn take_row(rt: &impl Print, alloc: Global, line: &str) -> anyhow::Result<()> {
    let words: Vec<&str> = line.split(' ').collect(alloc)?;
    match words.as_slice() {
        ["forbidden", peer] => forbidden(rt, peer),
        ["remark", left, fails] => replay_remark(rt, alloc, left.parse()?, fails),
        ["chunks", size, reads, fails] => {
            replay_chunks(rt, alloc, size.parse()?, reads.parse()?, fails)
        }
        ["writer", size, room, flushes] => {
            replay_to(rt, alloc, size.parse()?, room.parse()?, *flushes == "true")
        }
        _ => {
            println!(rt; "bad line")?;
            Ok(())
        }
    }
}

/// `forbidden PEER`: prints whether a relay should refuse this peer by default.
fn forbidden(rt: &impl Print, peer: &str) -> anyhow::Result<()> {
    let peer: IpAddr = peer.parse()?;
    println!(rt; "forbidden {}", is_forbidden_peer(&peer))?;
    Ok(())
}
