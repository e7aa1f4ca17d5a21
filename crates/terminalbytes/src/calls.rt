// A terminal's loading, and the call for its next key.
ghost use Rattle.lent.specs.Result.{Writes, number, of_done};
ghost use Rattle.recordbytes.specs.Calls.{loaded_bytes, Next};

use crate::record::{put_record, record_size, terminal_of};
use host::RegisterKey;
use lent::Refusal;
use std::convert::AsSlice;
use terminal::Terminal;

// Loads a terminal, and writes its record. Refuses with 6 if the initial key does not have the device's size or the serial number 10 bytes, 13 if
// the buffer is shorter than the record.
pub fn load<K: RegisterKey>(
    initial_key: &[u8],
    serial_number: &[u8],
    out: &mut [u8],
) -> Result<usize, Refusal>
    ensures { Writes (loaded_bytes K.device initial_key.now serial_number.now) out.old result out.new }
{
    let terminal: Terminal<K> = Terminal::load(initial_key, serial_number)?;
    let length = record_size::<K>();
    if out.len() < length {
        return Err(Refusal::ShortBuffer);
    }
    put_record(terminal, &mut out[..length]);
    Ok(length)
}

// Gives out the terminal's next key, with the serial number that has its counter, and writes the record after it. Refuses with 6 if the record
// does not have its size, 11 if its bytes are no valid record, 12 if it is exhausted, 13 if the key buffer is shorter than a key or the serial
// buffer shorter than 10. A refusal leaves all three as they were.
pub fn next_key<K: RegisterKey>(
    record: &mut [u8],
    key: &mut [u8],
    serial_number: &mut [u8],
) -> Result<usize, Refusal>
    ensures { Next K.device «record».old (record { key_before = key.old; serial_before = serial_number.old; number = number result; length = of_done (λ n. n) 0 result; record_after = «record».new; key_after = key.new; serial_after = serial_number.new }) }
{
    let Some(terminal) = terminal_of::<K>(record) else {
        return Err(Refusal::Size);
    };
    if 1 < record[record.len() - 1] {
        return Err(Refusal::BadRecord);
    }
    let counter = terminal.next_counter()?;
    let size = K::size();
    if !recordbytes::enough(size, key, serial_number) {
        return Err(Refusal::ShortBuffer);
    }
    key[..size].copy_from_slice(terminal.given_key(counter).bytes().as_slice());
    serial_number[..10].copy_from_slice(&registers::with_counter(&terminal.serial, counter.value));
    put_record(terminal.after_key(counter), record);
    Ok(size)
}
