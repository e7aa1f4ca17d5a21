// PIN blocks, clear and encrypted.
ghost use Rattle.lent.specs.Result.{Written};
ghost use Rattle.pinblock.specs.Entries;

// The block of a PIN, 8 bytes. Refuses with 6, 7, 13.
#[unsafe(no_mangle)]
pub extern "C" fn czg_pin_make(pin: &[u8], out: &mut [u8]) -> lent::Answer
    ensures { Written (Entries.make pin.now) out.old result.number result.length out.new }
{
    lent::Answer::from(chizuregwo::pins::czg_pin_make(pin, out))
}

// The block of a PIN with a card number, 8 bytes. Refuses with 6, 7, 13.
#[unsafe(no_mangle)]
pub extern "C" fn czg_pin_make_with_card(pin: &[u8], card: &[u8], out: &mut [u8]) -> lent::Answer
    ensures { Written (Entries.make_with_card pin.now card.now) out.old result.number result.length out.new }
{
    lent::Answer::from(chizuregwo::pins::czg_pin_make_with_card(pin, card, out))
}

// The PIN of a block, its digits. Refuses with 6, 8, 13.
#[unsafe(no_mangle)]
pub extern "C" fn czg_pin_read(block: &[u8], out: &mut [u8]) -> lent::Answer
    ensures { Written (Entries.read block.now) out.old result.number result.length out.new }
{
    lent::Answer::from(chizuregwo::pins::czg_pin_read(block, out))
}

// The PIN of a block with a card number, its digits. Refuses with 6, 7, 8, 13.
#[unsafe(no_mangle)]
pub extern "C" fn czg_pin_read_with_card(block: &[u8], card: &[u8], out: &mut [u8]) -> lent::Answer
    ensures { Written (Entries.read_with_card block.now card.now) out.old result.number result.length out.new }
{
    lent::Answer::from(chizuregwo::pins::czg_pin_read_with_card(block, card, out))
}

// The encrypted block of a PIN, 8 bytes. Refuses with 6, 7, 13.
#[unsafe(no_mangle)]
pub extern "C" fn czg_pin_encrypt(key: &[u8], pin: &[u8], out: &mut [u8]) -> lent::Answer
    ensures { Written (Entries.encrypt key.now pin.now) out.old result.number result.length out.new }
{
    lent::Answer::from(chizuregwo::pins::czg_pin_encrypt(key, pin, out))
}

// The encrypted block of a PIN with a card number, 8 bytes. Refuses with 6, 7, 13.
#[unsafe(no_mangle)]
pub extern "C" fn czg_pin_encrypt_with_card(
    key: &[u8],
    pin: &[u8],
    card: &[u8],
    out: &mut [u8],
) -> lent::Answer
    ensures { Written (Entries.encrypt_with_card key.now pin.now card.now) out.old result.number result.length out.new }
{
    lent::Answer::from(chizuregwo::pins::czg_pin_encrypt_with_card(key, pin, card, out))
}

// The PIN of an encrypted block, its digits. Refuses with 6, 8, 13.
#[unsafe(no_mangle)]
pub extern "C" fn czg_pin_decrypt(key: &[u8], block: &[u8], out: &mut [u8]) -> lent::Answer
    ensures { Written (Entries.decrypt key.now block.now) out.old result.number result.length out.new }
{
    lent::Answer::from(chizuregwo::pins::czg_pin_decrypt(key, block, out))
}

// The PIN of an encrypted block with a card number, its digits. Refuses with 6, 7, 8, 13.
#[unsafe(no_mangle)]
pub extern "C" fn czg_pin_decrypt_with_card(
    key: &[u8],
    block: &[u8],
    card: &[u8],
    out: &mut [u8],
) -> lent::Answer
    ensures { Written (Entries.decrypt_with_card key.now block.now card.now) out.old result.number result.length out.new }
{
    lent::Answer::from(chizuregwo::pins::czg_pin_decrypt_with_card(key, block, card, out))
}
