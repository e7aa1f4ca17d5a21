// A text between its length and a fill.
ghost use Rattle.std.specs.Prelude.{◌≡◌, ◌+◌, ◌*◌, ◌<◌, ◌≤◌, length, replicate};
ghost use Rattle.lent.specs.Frames.{framed, framed_text};
ghost use Rattle.lent.specs.HalfBytes.{low_half};

use crate::characters::two_digits;

// The text after its length, as two decimal digits, and before a fill up to N characters; the fill alone where the text does not fit.
pub fn framed<const N: usize>(fill: u8, text: &[u8]) -> [u8; N]
    ensures fits { 2 + length text.now ≤ N → result ≡ framed N fill text.now }
    ensures too_long { N < 2 + length text.now → result ≡ replicate N fill }
{
    let mut frame = [fill; N];
    if N < 2 || N - 2 < text.len() {
        return frame;
    }
    let (said, rest) = frame.split_at_mut(2);
    said.copy_from_slice(&two_digits(text.len()));
    rest[..text.len()].copy_from_slice(text);
    frame
}

// The number of two decimal digits, by their low half-bytes.
fn two_digit_number(tens: u8, ones: u8) -> usize
    ensures value { result ≡ low_half tens * 10 + low_half ones }
    ensures bound { result ≤ 165 }
{
    usize::from(tens % 16) * 10 + usize::from(ones % 16)
}

// What stands after the length, as many characters as it says, or up to the end.
pub fn framed_text(s: &[u8]) -> &[u8]
    ensures { result.now ≡ framed_text s.now }
{
    match s {
        [tens, ones, text @ ..] => &text[..two_digit_number(*tens, *ones).min(text.len())],
        _ => &[],
    }
}
