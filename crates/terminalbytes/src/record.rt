// The record of a terminal as bytes.
ghost use Rattle.std.specs.Prelude.{◌≡◌, ◌*◌, length, MatchOption};
ghost use Rattle.lent.specs.Private.{Appends};
ghost use Rattle.terminal.specs.View.{view};
ghost use Rattle.recordbytes.specs.RecordBytes.{record_size, record_bytes, register_bytes, registers_of, state_of};

use host::RegisterKey;
use recordbytes::Rest;
use std::convert::AsSlice;
use terminal::Terminal;

// How many bytes a record has.
pub(crate) fn record_size<K: RegisterKey>() -> usize
    ensures { result ≡ record_size K.device }
{
    21 * K::size() + 19
}

// ---- writing

// Writes the registers.
fn put_registers<K: RegisterKey>(keys: &[K], bytes: &mut [u8]) -> usize
    ensures { Appends (register_bytes K.device keys.now) bytes.old bytes.new 0 result }
{
    let mut n = 0;
    for key in keys {
        n = recordbytes::put(bytes, n, key.bytes().as_slice());
    }
    n
}

// Writes a record.
pub(crate) fn put_record<K: RegisterKey>(t: Terminal<K>, bytes: &mut [u8])
    requires { length bytes.old ≡ record_size K.device }
    ensures { bytes.new ≡ record_bytes K.device (view t) }
{
    let after_keys = put_registers(&t.keys, bytes);
    let rest = Rest {
        serial: t.serial,
        position: t.position,
    };
    recordbytes::put_rest(bytes, after_keys, rest);
}

// ---- reading

// The registers.
fn registers_of<K: RegisterKey>(bytes: &[u8]) -> [K; 21]
    requires { length bytes.now ≡ 21 * K.device.size }
    ensures { result ≡ registers_of K.device 21 bytes.now }
{
    let mut keys = [K::empty(); 21];
    for i in 0..21 {
        keys[i] = K::read(&bytes[K::size() * i..]);
    }
    keys
}

// Reads a record. Bytes of another size are none.
pub(crate) fn terminal_of<K: RegisterKey>(bytes: &[u8]) -> Option<Terminal<K>>
    ensures { MatchOption result (¬ (length bytes.now ≡ record_size K.device)) (λ t. (length bytes.now ≡ record_size K.device) × (view t ≡ state_of K.device bytes.now)) }
{
    if bytes.len() != record_size::<K>() {
        return None;
    }
    let at = 21 * K::size();
    let rest = recordbytes::rest_of(&bytes[at..]);
    let keys = registers_of(&bytes[..at]);
    Some(Terminal::new(keys, rest.serial, rest.position))
}
