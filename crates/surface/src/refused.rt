//! Refusals.

use cam_base::{Fault, Refused};
use std::io;

/// Prints why a call refused.
pub fn show_refused(rt: &HostRuntime, call: &str, why: &Refused<Fault>) -> io::Result<()> {
    match why {
        Refused::Fault(fault) => {
            let code = fault.code.number();
            let first = fault.place.first;
            let end = fault.place.end;
            println!(rt; "{call}: E{code} at {first}-{end}")
        }
        Refused::NoMemory => println!(rt; "{call}: no memory"),
    }
}
