// Odd parity of keys (02, M-103).
#![tactic(auto)]

ghost use Rattle.std.specs.Prelude.{◌≡◌};
ghost use Rattle.parity.specs.Parity.{adjusted_byte, adjusted};

// A byte with an odd number of ones: its low bit is turned if it has an even number.
#[tactic(auto, unfolding(crate::specs::Parity::adjusted_byte))]
fn adjusted_byte(b: u8) -> u8
    ensures { result ≡ adjusted_byte b }
{
    if b.count_ones() % 2 == 1 { b } else { b ^ 1 }
}

// Gives each byte of a key an odd number of ones, by changing low bits alone.
pub fn adjust(key: &mut [u8])
    ensures { key.new ≡ adjusted key.old }
{
    for b in key.iter_mut() {
        *b = adjusted_byte(*b);
    }
}
