// The parts of a record's bytes that every device has.
ghost use Rattle.std.specs.Prelude.{◌≡◌, length};
ghost use Rattle.lent.specs.Private.{Appends};
ghost use Rattle.recordbytes.specs.Parts.{joined, cut};
ghost use Rattle.recordbytes.specs.RecordBytes.{number_bytes, rest_sizes, rest_parts, serial_in, position_in};

use registers::Position;

// What stands after the registers: the serial number, and where the terminal stands.
#[derive(Clone, Copy)]
pub struct Rest {
    pub serial: [u8; 10],
    pub position: Position,
}

// ---- writing, into the caller's fixed memory, from its start to its end

// Writes a part after the first n bytes, and gives how many there are then. Without room for it nothing is written: every caller has a record's room.
pub fn put(bytes: &mut [u8], n: usize, part: &[u8]) -> usize
    ensures { Appends part.now bytes.old bytes.new n result }
{
    match lent::append(bytes, n, part) {
        Ok(end) => end,
        Err(_) => n,
    }
}

// Writes a number of 32 bits, 4 bytes, after the first n bytes.
fn put_number(bytes: &mut [u8], n: usize, x: u32) -> usize
    ensures { Appends (number_bytes x) bytes.old bytes.new n result }
{
    put(bytes, n, &x.to_be_bytes())
}

// Writes what stands after the registers, after the first n bytes.
pub fn put_rest(bytes: &mut [u8], n: usize, rest: Rest) -> usize
    ensures { Appends (joined (rest_parts rest.serial rest.position)) bytes.old bytes.new n result }
{
    let position = rest.position;
    let after_filled = put_number(bytes, n, position.filled);
    let after_serial = put(bytes, after_filled, &rest.serial);
    let after_counter = put_number(bytes, after_serial, position.counter);
    // `as`: with `from` the proof did not close
    put(bytes, after_counter, &[position.exhausted as u8])
}

// ---- reading

// What 19 bytes after the registers say; other bytes say zeros.
pub fn rest_of(bytes: &[u8]) -> Rest
    ensures { length bytes.now ≡ 19 → (result.serial ≡ serial_in (cut rest_sizes bytes.now)) × (result.position ≡ position_in (cut rest_sizes bytes.now)) }
{
    let mut serial = [0u8; 10];
    if bytes.len() != 19 {
        return Rest {
            serial,
            position: Position {
                counter: 0,
                filled: 0,
                exhausted: false,
            },
        };
    }
    serial.copy_from_slice(&bytes[4..14]);
    Rest {
        serial,
        position: Position {
            counter: lent::number_of(&bytes[14..18]),
            filled: lent::number_of(&bytes[..4]),
            exhausted: bytes[18] == 1,
        },
    }
}
