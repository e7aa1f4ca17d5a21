// The host's two derivations: the initial key of a terminal, and its key for the counter in a serial number.
ghost use Rattle.std.specs.Prelude.{◌≡◌};
ghost use Rattle.registers.specs.Host.{initial_of, initial_key, host_key, key_bytes};

use crate::derivation::register_key;
use crate::keys::RegisterKey;
use lent::Refusal;
use registers::Counter;

// The initial key of the terminal with that serial number, where one can be derived.
fn initial_of<K: RegisterKey>(derivation_key: &[u8], serial_number: &[u8]) -> K
    ensures { result ≡ initial_of K.device derivation_key.now serial_number.now }
{
    K::initial(derivation_key, registers::cleared_head(serial_number))
}

// The initial key of the terminal with that serial number. Refuses with 6 if the derivation key does not have 16 bytes or the serial number 10,
// 9 if the halves of the derivation key agree without the low bit of each byte.
pub fn initial_key<K: RegisterKey>(
    derivation_key: &[u8],
    serial_number: &[u8],
) -> Result<K, Refusal>
    ensures { key_bytes K.device result ≡ initial_key K.device derivation_key.now serial_number.now }
{
    registers::derivable(derivation_key, serial_number)?;
    Ok(initial_of(derivation_key, serial_number))
}

// The key that the terminal gives out with the counter in the serial number. Refuses with 6 and 9 as for the initial key, 10 if the counter is 0
// or has more than ten one bits.
pub fn host_key<K: RegisterKey>(derivation_key: &[u8], serial_number: &[u8]) -> Result<K, Refusal>
    ensures { key_bytes K.device result ≡ host_key K.device derivation_key.now serial_number.now }
{
    registers::derivable(derivation_key, serial_number)?;
    let Some(counter) = Counter::new(registers::counter_of(serial_number)) else {
        return Err(Refusal::BadCounter);
    };
    let initial: K = initial_of(derivation_key, serial_number);
    let key = register_key(initial, registers::cleared_tail(serial_number), counter);
    Ok(key.given_out())
}
