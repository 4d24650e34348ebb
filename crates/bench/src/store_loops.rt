// Loops over one store, the same for the table and the log. Which key a call names depends on what the calls before it
// answered, by `zero`, which is 0 and which the compiler does not know; so no call is moved out of its loop.
use journal::journal::Journal;
use stores::store::Store;
use stores::stored::Stored;
use table::entry::Entry;
use table::table::Table;
use values::kind::Kind;
use values::refusal::Refusal;
use values::secret::Secret;
use values::version::{Key, Version};

#[inline(never)]
fn call_get<S: Store<Secret>>(store: &S, key: Key) -> Option<Stored<Secret>> {
    store.get(key)
}

#[inline(never)]
fn call_put<S: Store<Secret>>(store: &mut S, key: Key, value: Secret) -> Result<(), Refusal> {
    store.put(key, key, value)
}

#[inline(never)]
fn call_remove<S: Store<Secret>>(store: &mut S, key: Key) {
    store.remove(key);
}

#[inline(never)]
fn call_list<S: Store<Secret>>(store: &S, sheet: &mut [Key]) -> Result<usize, Refusal> {
    store.list(sheet)
}

fn key_of(number: u32) -> Key {
    Version { number, seat: 1 }
}

fn secret() -> Secret {
    Secret {
        len: 9,
        bytes: [115; 48],
    }
}

// Puts keys 10, 20, .. up to ten times `held`.
fn fill<S: Store<Secret>>(store: &mut S, held: u32) {
    for i in 0..held {
        let _ = call_put(store, key_of((i + 1).wrapping_mul(10)), secret());
    }
}

fn gets<S: Store<Secret>>(store: &S, at: u32, times: u64, zero: u32) -> u32 {
    let mut sum: u32 = 0;
    for _ in 0..times {
        match call_get(store, key_of(at ^ (sum & zero))) {
            Some(stored) => {
                sum = sum.wrapping_add(stored.version.number);
                sum = sum.wrapping_add(stored.value.bytes[3] as u32);
            }
            None => sum = sum.wrapping_add(1),
        }
    }
    sum
}

fn puts<S: Store<Secret>>(store: &mut S, at: u32, times: u64, zero: u32) -> u32 {
    let value = secret();
    let mut sum: u32 = 0;
    for _ in 0..times {
        if call_put(store, key_of(at ^ (sum & zero)), value).is_ok() {
            sum = sum.wrapping_add(3);
        }
    }
    sum
}

fn puts_and_removes<S: Store<Secret>>(store: &mut S, at: u32, times: u64, zero: u32) -> u32 {
    let value = secret();
    let mut sum: u32 = 0;
    for _ in 0..times {
        if call_put(store, key_of(at ^ (sum & zero)), value).is_ok() {
            sum = sum.wrapping_add(3);
        }
        call_remove(store, key_of(at ^ (sum & zero)));
    }
    sum
}

fn lists<S: Store<Secret>>(store: &S, times: u64, zero: u32) -> u32 {
    let mut sum: u32 = 0;
    let mut sheet = [Key::STANDING; 32];
    for _ in 0..times {
        if call_list(store, &mut sheet).is_ok() {
            sum = sum.wrapping_add(sheet[(zero & 31) as usize].number);
        }
    }
    sum
}

fn removes<S: Store<Secret>>(store: &mut S, at: u32, times: u64, zero: u32) -> u32 {
    let mut sum: u32 = 0;
    for _ in 0..times {
        call_remove(store, key_of(at ^ (sum & zero)));
        sum = sum.wrapping_add(1);
    }
    sum
}

// The store holds so many keys; then key (at, 1) is got (call 0), put (1), put and removed (2) or removed (4), or all keys are
// listed (3), so many times.
fn run<S: Store<Secret>>(
    store: &mut S,
    call: u32,
    held: u32,
    at: u32,
    times: u64,
    zero: u32,
) -> u64 {
    fill(store, held);
    let sum = match call {
        0 => gets(store, at, times, zero),
        1 => puts(store, at, times, zero),
        2 => puts_and_removes(store, at, times, zero),
        3 => lists(store, times, zero),
        _ => removes(store, at, times, zero),
    };
    sum as u64
}

pub(crate) fn run_table(call: u32, held: u32, at: u32, times: u64, zero: u32) -> u64 {
    let mut entries = [Entry::blank(); 32];
    let mut table = Table::new(&mut entries);
    run(&mut table, call, held, at, times, zero)
}

pub(crate) fn run_log(
    bytes: &mut [u8],
    call: u32,
    held: u32,
    at: u32,
    times: u64,
    zero: u32,
) -> u64 {
    let mut journal = Journal::new::<Secret>(bytes);
    run(&mut journal, call, held, at, times, zero)
}
