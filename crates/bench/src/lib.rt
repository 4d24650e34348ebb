// Loops over a relay, a table and a log, which the program in the folder bench/ counts beside hand-written ones. This crate
// measures, and promises nothing: its functions are proved to be safe and to return, and no more.
#![tactic(auto)]

mod relay_loops;
mod store_loops;
mod tally;

use relay_loops::run_relay;
use store_loops::{run_log, run_table};

// So many operations on a relay. What was done is written into the report, as `Tally` says.
#[unsafe(no_mangle)]
pub extern "C" fn bench_relay(kind: u32, operations: u64, report: &mut [u8]) {
    run_relay(kind, operations).write(report);
}

// A loop over a table that holds so many keys. Answers a sum of what its calls answered.
#[unsafe(no_mangle)]
pub extern "C" fn bench_table(call: u32, held: u32, at: u32, times: u64, zero: u32) -> u64 {
    run_table(call, held, at, times, zero)
}

// The same over a log in these bytes.
#[unsafe(no_mangle)]
pub extern "C" fn bench_log(
    bytes: &mut [u8],
    call: u32,
    held: u32,
    at: u32,
    times: u64,
    zero: u32,
) -> u64 {
    run_log(bytes, call, held, at, times, zero)
}
