//! One exchange between a client and a server core that supports HMAC-SHA1 and HMAC-SHA256, through
//! the library's own calls. The client is challenged. Its request is granted with HMAC-SHA256, and
//! again, with the hash of its user name, with HMAC-SHA1. Then its first signed request comes from
//! another address. Each step prints a line: what was made, or the server's reply, with the nonce
//! that the server then stores for the address and the count of grants.
//!
//! A step in which a memory allocation fails prints `no memory` in place of the reply, and is
//! repeated once. The exit status is
//!
//! - 0 if no step ran out of memory;
//! - 2 if one did;
//! - 3 if one did twice, which ends the exchange.
#![tactic(auto)]

mod requests;
mod step;
mod steps;

use crate::step::STEPS;
use crate::steps::Exchange;
use std::io;
use std::process::ExitCode;

fn main(rt: HostRuntime) -> io::Result<ExitCode> {
    let mut exchange = Exchange::new(rt.alloc());
    let status = take_all(&rt, &mut exchange);
    drop(exchange);
    status
}

/// Runs all steps of an exchange, and returns the exit status.
fn take_all(rt: &impl Print, exchange: &mut Exchange) -> io::Result<ExitCode> {
    let mut status = 0;
    for step in &STEPS {
        if exchange.take(rt, step)? {
            continue;
        }
        status = 2;
        if !exchange.take(rt, step)? {
            return Ok(ExitCode::from(3));
        }
    }
    Ok(ExitCode::from(status))
}
