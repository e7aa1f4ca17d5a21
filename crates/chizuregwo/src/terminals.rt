// Terminals of single and of double length: their loading, and the call for their next key. A record is 187 or 355 lent bytes.
ghost use Rattle.lent.specs.Result.{Writes, number, of_done};
ghost use Rattle.host.specs.SingleLength.{single_length};
ghost use Rattle.doublehost.specs.DoubleLength.{double_length};
ghost use Rattle.recordbytes.specs.Calls.{loaded_bytes, Next};

use doublehost::DoubleKey;

// Loads a terminal, and writes its record of 187 bytes. Refuses with 6, 13.
pub fn czg_terminal_load(
    initial_key: &[u8],
    serial_number: &[u8],
    out: &mut [u8],
) -> Result<usize, lent::Refusal>
    ensures { Writes (loaded_bytes single_length initial_key.now serial_number.now) out.old result out.new }
{
    terminalbytes::load::<u64>(initial_key, serial_number, out)
}

// Gives out the terminal's next key, 8 bytes, with the serial number that has its counter, and writes the record after it. Refuses with
// 6, 11, 12, 13; a refusal leaves all three as they were.
pub fn czg_terminal_next_key(
    record: &mut [u8],
    key: &mut [u8],
    serial_number: &mut [u8],
) -> Result<usize, lent::Refusal>
    ensures { Next single_length «record».old (record { key_before = key.old; serial_before = serial_number.old; number = number result; length = of_done (λ n. n) 0 result; record_after = «record».new; key_after = key.new; serial_after = serial_number.new }) }
{
    terminalbytes::next_key::<u64>(record, key, serial_number)
}

// Loads a terminal of double length, and writes its record of 355 bytes. Refuses with 6, 13.
pub fn czg_double_terminal_load(
    initial_key: &[u8],
    serial_number: &[u8],
    out: &mut [u8],
) -> Result<usize, lent::Refusal>
    ensures { Writes (loaded_bytes double_length initial_key.now serial_number.now) out.old result out.new }
{
    terminalbytes::load::<DoubleKey>(initial_key, serial_number, out)
}

// Gives out the terminal's next key, 16 bytes, with the serial number that has its counter, and writes the record after it. Refuses with
// 6, 11, 12, 13; a refusal leaves all three as they were.
pub fn czg_double_terminal_next_key(
    record: &mut [u8],
    key: &mut [u8],
    serial_number: &mut [u8],
) -> Result<usize, lent::Refusal>
    ensures { Next double_length «record».old (record { key_before = key.old; serial_before = serial_number.old; number = number result; length = of_done (λ n. n) 0 result; record_after = «record».new; key_after = key.new; serial_after = serial_number.new }) }
{
    terminalbytes::next_key::<DoubleKey>(record, key, serial_number)
}
