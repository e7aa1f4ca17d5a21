// One terminal of each length from loading to exhaustion, each key compared with the host's: source document 002's derivation key and serial
// number for single length, ANS X9.24-1's for double length.
#![tactic(auto)]

mod seen;

use console::{Standard, Told};
use doublehost::DoubleKey;
use lent::Refusal;
use seen::{Seen, Shown};
use std::convert::AsSlice;
use terminal::Terminal;

// The terminal that is loaded with the host's initial key for a serial number.
fn loaded<K: Shown>(derivation_key: &[u8], serial_number: &[u8]) -> Result<Terminal<K>, Refusal> {
    let key: K = host::initial_key(derivation_key, serial_number)?;
    Terminal::load(key.bytes().as_slice(), serial_number)
}

// Whether a key is the host's for a serial number.
fn is_the_hosts<K: Shown>(key: K, derivation_key: &[u8], serial_number: &[u8]) -> bool {
    host::host_key::<K>(derivation_key, serial_number).is_ok_and(|host| key == host)
}

// Takes every key of a terminal, at most 1,048,576 calls, and writes its report.
fn drained<K: Shown>(
    console: &mut Standard<'_>,
    derivation_key: &[u8],
    first: Terminal<K>,
) -> Result<(), Told> {
    let mut terminal = first;
    let mut seen = Seen::nothing();
    for _ in 0..1048576u32 {
        let mut buffer = [0u8; 16];
        let next = terminal.next_key(&mut buffer);
        let given = match next.given {
            Ok(given) => given,
            Err(why) => return seen.report(console, why),
        };
        let key = K::read(&buffer);
        let same = is_the_hosts(key, derivation_key, &given.serial);
        seen = seen.with_key(key, same, given.counter);
        terminal = next.terminal;
    }
    console.write(b"the terminal does not end\n")
}

// Loads a terminal, takes every key, and writes its report.
fn drain<K: Shown>(
    console: &mut Standard<'_>,
    derivation_key: &[u8],
    serial_number: &[u8],
) -> Result<(), Told> {
    match loaded::<K>(derivation_key, serial_number) {
        Ok(terminal) => drained(console, derivation_key, terminal),
        Err(_) => console.write(b"not loaded\n"),
    }
}

// Takes every key of both terminals, up to the first write that fails.
fn drain_both(console: &mut Standard<'_>) -> Result<(), Told> {
    drain::<u64>(
        console,
        b"\x51\x52\x54\x57\x58\x5B\x5D\x5E\x61\x62\x64\x67\x68\x6B\x6D\x6E",
        b"\x01\x23\x45\x67\x89\xAB\xCD\xF0\x00\x01",
    )?;
    drain::<DoubleKey>(
        console,
        b"\x01\x23\x45\x67\x89\xAB\xCD\xEF\xFE\xDC\xBA\x98\x76\x54\x32\x10",
        b"\xFF\xFF\x98\x76\x54\x32\x10\xE0\x00\x00",
    )
}

fn main(rt: HostRuntime) {
    let mut console = Standard {
        who: b"drain",
        input: rt.stdin(),
        out: rt.stdout(),
        errors: rt.stderr(),
    };
    let asked = console.asked(
        &rt,
        b"usage: drain   (drain --help says more)\n",
        b"usage: drain
Reads nothing. Loads one terminal of each length, takes every key it has and compares each with the host's; this takes some seconds.
Writes for each length how many keys there were and how many differed, the first and the last key with their counters, a checksum
of all, and the number with which the call after the last key was refused.
",
    );
    if !asked {
        // A write that fails was told.
        let _told = drain_both(&mut console);
    }
}
