// Reads secrets from standard input into a table, copies the table into a log, and the log back into a second table, and
// says what it did.
#![tactic(auto)]

mod parse;

use journal::journal::Journal;
use parse::{Request, parse};
use std::io::{BufRead, BufReader};
use std::{fmt, io};
use stores::copying::copy;
use stores::store::Store;
use table::entry::Entry;
use table::table::Table;
use values::kind::Kind;
use values::refusal::Refusal;
use values::secret::Secret;
use values::version::Key;

// the most keys that a provider holds
const CAPACITY: usize = 32;

// the bytes of a log that holds so many secrets: 62 for the longest record of each, and 62 to append one
const LOG_BYTES: usize = 2046;

// A refusal as it is told: by its number, and in words.
#[derive(Drop)]
struct Told(Refusal);

impl fmt::Display for Told {
    fn fmt<W: fmt::Write>(&self, f: &mut fmt::Formatter<W>) -> fmt::Result {
        write!(f, "refused by {}: {}", self.0.number(), self.0)
    }
}

// What becomes of a request.
#[derive(Clone, Copy)]
enum Outcome {
    Added,
    Replaced,
}

// Stores the secret of a request under its key, with the key for its version.
fn keep<S: Store<Secret>>(store: &mut S, request: Request) -> Result<Outcome, Refusal> {
    let secret = Secret::new(request.text.as_bytes())?;
    let outcome = if store.get(request.key).is_some() {
        Outcome::Replaced
    } else {
        Outcome::Added
    };
    store.put(request.key, request.key, secret)?;
    Ok(outcome)
}

// Stores the request in a line, and says what became of it unless it is a new key. Whether a secret was read.
fn load_line<S: Store<Secret>>(
    rt: &HostRuntime,
    store: &mut S,
    number: usize,
    line: &[u8],
) -> io::Result<bool> {
    let Some(request) = parse(line) else {
        println!(rt; "line {number}: skipped: not of the form NUMBER SEAT TEXT")?;
        return Ok(false);
    };
    // (A key is told by its parts, here and in `compare`: a version has no `Display`, and a pattern is as short.)
    let Key { number: n, seat } = request.key;
    match keep(store, request) {
        Ok(Outcome::Added) => Ok(true),
        Ok(Outcome::Replaced) => {
            println!(rt; "line {number}: replaced the secret of key {n} {seat}")?;
            Ok(true)
        }
        Err(refusal) => {
            println!(rt; "line {number}: {}", Told(refusal))?;
            Ok(false)
        }
    }
}

// Stores the secrets of standard input, and answers how many were read.
fn load<S: Store<Secret>>(rt: &HostRuntime, store: &mut S) -> io::Result<usize> {
    let mut secrets = 0usize;
    let lines = BufReader::new(rt.alloc(), rt.stdin())?.split(rt.alloc(), b'\n');
    for (i, line) in lines.enumerate() {
        if load_line(rt, store, i.saturating_add(1), line?.as_slice())? {
            secrets = secrets.saturating_add(1);
        }
    }
    Ok(secrets)
}

// Compares a table, the log and the table that it was copied back into at each of these keys, and prints each key.
fn compare<S: Store<Secret>, L: Store<Secret>, T: Store<Secret>>(
    rt: &HostRuntime,
    first: &S,
    log: &L,
    second: &T,
    keys: &[Key],
) -> io::Result<()> {
    let mut different = 0usize;
    for key in keys {
        let Key { number, seat } = *key;
        let held = first.get(*key);
        if log.get(*key) == held && second.get(*key) == held {
            println!(rt; "key {number} {seat}: the same in all three")?;
        } else {
            different = different.saturating_add(1);
            println!(rt; "key {number} {seat}: DIFFERENT")?;
        }
    }
    let (a, b, c) = (first.count(), log.count(), second.count());
    if different == 0 && a == b && a == c {
        println!(rt; "the copies agree")
    } else {
        println!(rt; "THE COPIES DIFFER: {different} keys; {a}, {b} and {c} keys are held")
    }
}

// Copies one provider into another, and says how many keys were copied.
fn copy_to<S: Store<Secret>, T: Store<Secret>>(
    rt: &HostRuntime,
    from: &S,
    to: &mut T,
    name: &str,
) -> io::Result<()> {
    let mut keys = [Key::STANDING; CAPACITY];
    let count = from.count();
    match copy(from, to, &mut keys) {
        Ok(copied) => println!(rt; "{copied} of {count} keys copied to {name}"),
        Err(refusal) => println!(rt; "nothing copied to {name}: {}", Told(refusal)),
    }
}

// Puts what a provider holds under these keys into the log. Answers how often the log was packed to make room: a put that
// needs no packing makes the log longer, and one that packs it leaves it shorter. (Before such a put fewer than 56 bytes are
// free, and after it there are at most 33 records, of at most 56 bytes each, since every version is its key.)
fn put_again<S: Store<Secret>>(
    from: &S,
    log: &mut Journal,
    keys: &[Key],
) -> Result<usize, Refusal> {
    let mut packings = 0usize;
    for key in keys {
        let before = log.used();
        if let Some(stored) = from.get(*key) {
            log.put(*key, stored.version, stored.value)?;
        }
        if log.used() < before {
            packings = packings.saturating_add(1);
        }
    }
    Ok(packings)
}

// Puts all keys into the log once more, as a migration that is run again does, then packs the log; says how many bytes of
// it are used.
fn refresh<S: Store<Secret>>(
    rt: &HostRuntime,
    from: &S,
    log: &mut Journal,
    keys: &[Key],
) -> io::Result<()> {
    let used = log.used();
    println!(rt; "the log uses {used} of {LOG_BYTES} bytes")?;
    match put_again(from, log, keys) {
        Ok(packings) => println!(rt;
            "all keys put into the log again: it was packed {packings} times to make room"
        )?,
        Err(refusal) => { println!(rt; "not all keys put into the log again: {}", Told(refusal))? }
    }
    let before = log.used();
    log.pack();
    let after = log.used();
    println!(rt; "the log packed: {before} bytes used before, {after} after")
}

fn main(rt: HostRuntime) -> io::Result<()> {
    let mut entries = [Entry::blank(); CAPACITY];
    let mut bytes = [0; LOG_BYTES];
    let mut more_entries = [Entry::blank(); CAPACITY];
    let mut first = Table::new(&mut entries);
    let mut log = Journal::new::<Secret>(&mut bytes);
    let mut second = Table::new(&mut more_entries);
    let secrets = load(&rt, &mut first)?;
    let count = first.count();
    println!(rt; "{secrets} secrets read; {count} keys in the first table")?;
    let mut sheet = [Key::STANDING; CAPACITY];
    let Ok(listed) = first.list(&mut sheet) else {
        return println!(rt; "the keys do not fit a sheet of {CAPACITY} places");
    };
    let keys = &sheet[..listed];
    copy_to(&rt, &first, &mut log, "the log")?;
    refresh(&rt, &first, &mut log, keys)?;
    copy_to(&rt, &log, &mut second, "the second table")?;
    compare(&rt, &first, &log, &second, keys)
}
