// PINs and their blocks (01, PIN blocks; source document 000, figure 2).
ghost use Rattle.std.specs.Prelude.{◌≡◌};
ghost use Rattle.lent.specs.Characters.{digit};
ghost use Rattle.lent.specs.Choice.{all};
ghost use Rattle.lent.specs.Refusals.{size, character};
ghost use Rattle.lent.specs.Result.{done, require};
ghost use Rattle.pinblock.specs.Pin.{pin_size, pin_block};

use lent::Refusal;

// The block of a PIN: half-bytes 0, the length, the digits, then F up to sixteen. Refuses with 6 if the PIN does not have 4 to 12 characters, 7 if
// one is not a digit.
pub(crate) fn pin_block(pin: &[u8]) -> Result<u64, Refusal>
    ensures { result ≡ require (pin_size pin.now) size (require (all digit pin.now) character (done (pin_block pin.now))) }
{
    if !lent::sized(4, 12, pin) {
        return Err(Refusal::Size);
    }
    if !lent::all_digits(pin) {
        return Err(Refusal::Character);
    }
    // u64 has no From<usize>.
    let start = lent::with_half_bytes(pin.len() as u64, pin);
    let fill = [15u8; 10];
    let rest = 14 - pin.len();
    Ok(lent::with_half_bytes(start, &fill[..rest]))
}
