// The characters of a text.
ghost use Rattle.std.specs.Prelude.{◌≡◌, ◌%◌};
ghost use Rattle.lent.specs.Choice;
ghost use Rattle.lent.specs.Characters;
ghost use Rattle.lent.specs.Characters.{digit, digit_of, of_kind, two_digits};

// Kinds of characters.
#[derive(Clone, Copy)]
pub enum Kind {
    Digits,
    // With letters of either case.
    HexadecimalDigits,
    // Letters of either case.
    LettersOrDigits,
    // 20 to 7E hex.
    Printable,
    // 21 to 7E hex.
    Graphic,
}

impl Kind {
    // Whether a character is of the kind.
    fn has(self, x: u8) -> bool
        ensures { result ≡ of_kind self x }
    {
        match self {
            Kind::Digits => is_digit(x),
            Kind::HexadecimalDigits => x.is_ascii_hexdigit(),
            Kind::LettersOrDigits => x.is_ascii_alphanumeric(),
            Kind::Printable => between(b' ', b'~', x),
            Kind::Graphic => x.is_ascii_graphic(),
        }
    }
}

// Whether x is from lo to hi.
pub fn between(lo: u8, hi: u8, x: u8) -> bool
    ensures { result ≡ Choice.between lo hi x }
{
    (lo..=hi).contains(&x)
}

// A small letter's capital; any other character is its own.
pub fn capitalized(x: u8) -> u8
    ensures { result ≡ Characters.capitalized x }
{
    x.to_ascii_uppercase()
}

// Whether a character is a digit.
pub fn is_digit(x: u8) -> bool
    ensures { result ≡ digit x }
{
    x.is_ascii_digit()
}

// Whether every character is of a kind.
pub fn all_of_kind(kind: Kind, s: &[u8]) -> bool
    ensures { result ≡ Choice.all (of_kind kind) s.now }
{
    s.iter().all(|x| kind.has(*x))
}

// Whether every character is a digit.
pub fn all_digits(s: &[u8]) -> bool
    ensures { result ≡ Choice.all digit s.now }
{
    all_of_kind(Kind::Digits, s)
}

// The last decimal digit of a number, as a character.
fn last_digit(n: usize) -> u8
    ensures { result ≡ digit_of (n % 10) }
{
    b'0' + (n % 10) as u8
}

// The last two decimal digits of a number.
pub fn two_digits(n: usize) -> [u8; 2]
    ensures { result ≡ two_digits n }
{
    [last_digit(n / 10), last_digit(n)]
}
