// The parts of a line.
ghost use Rattle.std.specs.Prelude.{◌≤◌, ◌<◌, length, IfSome};

// The longest line.
pub(crate) const MOST_LINE: usize = 16384;

// What stands before the first separator, and what stands after it, where there is one.
pub(crate) fn cut(text: &[u8], separator: u8) -> (&[u8], Option<&[u8]>)
    ensures { IfSome result.1 (λ rest. length rest.now < length text.now) }
{
    match text.iter().position(|x| *x == separator) {
        Some(at) => (&text[..at], Some(&text[at + 1..])),
        None => (text, None),
    }
}
