// The host's derivations of a terminal's keys, of single and of double length.
ghost use Rattle.lent.specs.Result.{Writes};
ghost use Rattle.registers.specs.Host.{initial_key, host_key, key_bytes};
ghost use Rattle.host.specs.SingleLength.{single_length};
ghost use Rattle.doublehost.specs.DoubleLength.{double_length};

use doublehost::DoubleKey;
use host::RegisterKey;
use lent::Refusal;
use std::convert::AsSlice;

// Writes the bytes of a key that was derived: its own refusal, then 13.
fn written<K: RegisterKey>(key: Result<K, Refusal>, out: &mut [u8]) -> Result<usize, Refusal>
    ensures { Writes (key_bytes K.device key) out.old result out.new }
{
    lent::lend(key?.bytes().as_slice(), out)
}

// The initial key of the terminal with that serial number, 8 bytes. Refuses with 6, 9, 13.
pub fn czg_initial_key(
    derivation_key: &[u8],
    serial_number: &[u8],
    out: &mut [u8],
) -> Result<usize, lent::Refusal>
    ensures { Writes (initial_key single_length derivation_key.now serial_number.now) out.old result out.new }
{
    let key = host::initial_key::<u64>(derivation_key, serial_number);
    written(key, out)
}

// The host's key for the counter in the serial number, 8 bytes. Refuses with 6, 9, 10, 13.
pub fn czg_host_key(
    derivation_key: &[u8],
    serial_number: &[u8],
    out: &mut [u8],
) -> Result<usize, lent::Refusal>
    ensures { Writes (host_key single_length derivation_key.now serial_number.now) out.old result out.new }
{
    let key = host::host_key::<u64>(derivation_key, serial_number);
    written(key, out)
}

// The initial key of the double-length terminal with that serial number, 16 bytes. Refuses with 6, 9, 13.
pub fn czg_double_initial_key(
    derivation_key: &[u8],
    serial_number: &[u8],
    out: &mut [u8],
) -> Result<usize, lent::Refusal>
    ensures { Writes (initial_key double_length derivation_key.now serial_number.now) out.old result out.new }
{
    let key = host::initial_key::<DoubleKey>(derivation_key, serial_number);
    written(key, out)
}

// The host's double-length key for the counter in the serial number, 16 bytes. Refuses with 6, 9, 10, 13.
pub fn czg_double_host_key(
    derivation_key: &[u8],
    serial_number: &[u8],
    out: &mut [u8],
) -> Result<usize, lent::Refusal>
    ensures { Writes (host_key double_length derivation_key.now serial_number.now) out.old result out.new }
{
    let key = host::host_key::<DoubleKey>(derivation_key, serial_number);
    written(key, out)
}
