// Decimal numbers in a request.
ghost use Rattle.std.specs.Prelude.{◌≤◌, IfSome};

use std::str;

// The number of a decimal text, if it is from 0 to `most`.
pub(crate) fn number_of(text: &[u8], most: u64) -> Option<u64>
    ensures { IfSome result (λ n. n ≤ most) }
{
    if !text.iter().all(|x| x.is_ascii_digit()) {
        return None;
    }
    let n = str::from_utf8(text).ok()?.parse::<u64>().ok()?;
    (n <= most).then_some(n)
}
