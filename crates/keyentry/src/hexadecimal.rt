// Hexadecimal digits, with letters of either case.
ghost use Rattle.std.specs.Prelude.{◌≡◌, true, [], ◌∷◌, ◌<◌};
ghost use Rattle.lent.specs.Characters.{hexadecimal};
ghost use Rattle.keyentry.specs.Hexadecimal.{value_of, hexadecimal_digit, text_of};

// The value of a hexadecimal digit.
pub(crate) fn value_of(x: u8) -> u8
    requires { hexadecimal x ≡ true }
    ensures value { result ≡ value_of x }
    ensures bound { result < 16 }
{
    if lent::is_digit(x) {
        x - b'0'
    } else {
        lent::capitalized(x) - b'A' + 10
    }
}

// The digit of a value below 16, in capitals.
fn digit_of(n: u8) -> u8
    requires { n < 16 }
    ensures { result ≡ hexadecimal_digit 65 n }
{
    if n < 10 { b'0' + n } else { b'A' + (n - 10) }
}

// The hexadecimal text of a byte, in capitals.
pub(crate) fn byte_text(b: u8) -> [u8; 2]
    ensures { result ≡ text_of 65 (b ∷ []) }
{
    [digit_of(b / 16), digit_of(b % 16)]
}
