// The sizes of keys, texts and card numbers.
ghost use Rattle.std.specs.Prelude.{◌≡◌, length};
ghost use Rattle.lent.specs.CardNumbers.{card_size};
ghost use Rattle.lent.specs.Choice.{between};
ghost use Rattle.lent.specs.Keys.{key_sizes};

// Whether a key has that many bytes: 8 or 16.
pub fn key_size(bytes: usize) -> bool
    ensures { result ≡ key_sizes bytes }
{
    matches!(bytes, 8 | 16)
}

// Whether s has from `least` to `most` bytes.
pub fn sized(least: usize, most: usize, s: &[u8]) -> bool
    ensures { result ≡ between least most (length s.now) }
{
    (least..=most).contains(&s.len())
}

// Whether a card number has 13 to 19 characters.
pub fn card_sized(card: &[u8]) -> bool
    ensures { result ≡ card_size card.now }
{
    sized(13, 19, card)
}
