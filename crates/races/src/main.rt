// Plays three stories of an office with two seats and three providers, and tells each step: races that cost other
// registers a secret, and what the reads show here.
#![tactic(auto)]

mod step;
mod stories;
mod tell;

use banks::one::One;
use banks::two::Two;
use records::call::Exchange;
use records::line::Line;
use records::seat::Seat;
use runs::run::run;
use std::alloc::{AllocError, Global};
use std::io;
use step::Step;
use stories::{LATE_PUT, LOST_PROVIDER, REMOVED_KEY};
use table::entry::Entry;
use table::table::Table;
use tell::tell;
use values::kind::Kind;
use values::secret::Secret;

// The calls of a story, in their order.
fn calls_of(heap: Global, steps: &[Step]) -> Result<Vec<Exchange<Secret>>, AllocError> {
    let mut calls = Vec::new(heap);
    for step in steps {
        step.push_calls(&mut calls)?;
    }
    Ok(calls)
}

// Makes the calls on a relay of two seats over three empty tables, and writes each answer beside its call. (The script program
// has one like it: each lends memory of its own to its own makes of provider.)
fn play(exchanges: &mut [Exchange<Secret>]) {
    let mut first = [Entry::blank(); 4];
    let mut second = [Entry::blank(); 4];
    let mut third = [Entry::blank(); 4];
    let mut first = Table::new(&mut first);
    let mut second = Table::new(&mut second);
    let mut third = Table::new(&mut third);
    let bank = Two {
        left: One(&mut first),
        right: Two {
            left: One(&mut second),
            right: One(&mut third),
        },
    };
    let mut seats = [Seat::blank(); 2];
    let mut lines = [Line::blank(); 6];
    let (relay, _) = run(bank, 2, &mut seats, &mut lines, exchanges);
    let _ = relay.shut();
}

// Plays a story, and tells it.
fn tell_story(rt: &HostRuntime, title: &str, steps: &[Step]) -> io::Result<()> {
    let mut calls = calls_of(rt.alloc(), steps)?;
    play(calls.as_mut_slice());
    println!(rt; "{title}\n")?;
    let mut untold = calls.as_slice();
    for step in steps {
        let (own, later) = untold.split_at(step.call_count().min(untold.len()));
        tell(rt, *step, own)?;
        untold = later;
    }
    println!(rt; "")
}

fn main(rt: HostRuntime) -> io::Result<()> {
    tell_story(&rt, "1. A put that arrives late", LATE_PUT)?;
    tell_story(
        &rt,
        "2. A key removed between a list and its get",
        REMOVED_KEY,
    )?;
    tell_story(&rt, "3. A provider lost in the middle", LOST_PROVIDER)
}
