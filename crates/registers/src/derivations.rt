// What the host looks at before it derives a key.
ghost use Rattle.std.specs.Prelude.{◌≡◌};
ghost use Rattle.lent.specs.Result.{done};
ghost use Rattle.registers.specs.Host as Host;

use lent::Refusal;

// Whether a key can be derived from a derivation key and a serial number. Refuses with 6 if the derivation key does not have 16 bytes or the serial
// number 10, 9 if the halves of the derivation key agree without the low bit of each byte.
pub fn derivable(derivation_key: &[u8], serial_number: &[u8]) -> Result<(), Refusal>
    ensures { result ≡ Host.derivable derivation_key.now serial_number.now (done tt) }
{
    if derivation_key.len() != 16 || serial_number.len() != 10 {
        return Err(Refusal::Size);
    }
    if cipher::same_key(
        lent::word_of(derivation_key),
        lent::right_half(derivation_key),
    ) {
        return Err(Refusal::EqualHalves);
    }
    Ok(())
}
