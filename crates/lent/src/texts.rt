// Texts held to one another.
ghost use Rattle.std.specs.Prelude.{◌≡◌};
ghost use Rattle.lent.specs.Texts;

// Whether s starts with a text.
pub fn starts_with(s: &[u8], text: &[u8]) -> bool
    ensures { result ≡ Texts.starts_with text.now s.now }
{
    s.starts_with(text)
}

// Whether s is a text.
pub fn same(s: &[u8], text: &[u8]) -> bool
    ensures { result ≡ Texts.same text.now s.now }
{
    s == text
}
