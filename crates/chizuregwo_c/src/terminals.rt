// Terminals of single and of double length: their loading, and the call for their next key. A record is 187 or 355 lent bytes.
ghost use Rattle.lent.specs.Result.{Written};
ghost use Rattle.host.specs.SingleLength.{single_length};
ghost use Rattle.doublehost.specs.DoubleLength.{double_length};
ghost use Rattle.recordbytes.specs.Calls.{loaded_bytes, Next};

// Loads a terminal, and writes its record of 187 bytes. Refuses with 6, 13.
#[unsafe(no_mangle)]
pub extern "C" fn czg_terminal_load(
    initial_key: &[u8],
    serial_number: &[u8],
    out: &mut [u8],
) -> lent::Answer
    ensures { Written (loaded_bytes single_length initial_key.now serial_number.now) out.old result.number result.length out.new }
{
    lent::Answer::from(chizuregwo::terminals::czg_terminal_load(initial_key, serial_number, out))
}

// Gives out the terminal's next key, 8 bytes, with the serial number that has its counter, and writes the record after it. Refuses with
// 6, 11, 12, 13; a refusal leaves all three as they were.
#[unsafe(no_mangle)]
pub extern "C" fn czg_terminal_next_key(
    record: &mut [u8],
    key: &mut [u8],
    serial_number: &mut [u8],
) -> lent::Answer
    ensures { Next single_length «record».old (record { key_before = key.old; serial_before = serial_number.old; number = result.number; length = result.length; record_after = «record».new; key_after = key.new; serial_after = serial_number.new }) }
{
    lent::Answer::from(chizuregwo::terminals::czg_terminal_next_key(record, key, serial_number))
}

// Loads a terminal of double length, and writes its record of 355 bytes. Refuses with 6, 13.
#[unsafe(no_mangle)]
pub extern "C" fn czg_double_terminal_load(
    initial_key: &[u8],
    serial_number: &[u8],
    out: &mut [u8],
) -> lent::Answer
    ensures { Written (loaded_bytes double_length initial_key.now serial_number.now) out.old result.number result.length out.new }
{
    lent::Answer::from(chizuregwo::terminals::czg_double_terminal_load(
        initial_key,
        serial_number,
        out,
    ))
}

// Gives out the terminal's next key, 16 bytes, with the serial number that has its counter, and writes the record after it. Refuses with
// 6, 11, 12, 13; a refusal leaves all three as they were.
#[unsafe(no_mangle)]
pub extern "C" fn czg_double_terminal_next_key(
    record: &mut [u8],
    key: &mut [u8],
    serial_number: &mut [u8],
) -> lent::Answer
    ensures { Next double_length «record».old (record { key_before = key.old; serial_before = serial_number.old; number = result.number; length = result.length; record_after = «record».new; key_after = key.new; serial_after = serial_number.new }) }
{
    lent::Answer::from(chizuregwo::terminals::czg_double_terminal_next_key(
        record,
        key,
        serial_number,
    ))
}
