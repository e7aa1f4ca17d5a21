// The room for what a call for the next key gives out.
ghost use Rattle.std.specs.Prelude.{◌≡◌, leb, length};
ghost use Rattle.lent.specs.Choice.{both};

// Whether there is room for a key of so many bytes and for a serial number.
pub fn enough(key_size: usize, key: &[u8], serial_number: &[u8]) -> bool
    ensures { result ≡ both (leb key_size (length key.now)) (leb 10 (length serial_number.now)) }
{
    key_size <= key.len() && 10 <= serial_number.len()
}
