// Meanings, key entry, cleaning, a message's text, and MACs.
ghost use Rattle.lent.specs.Result.{Written, done};
ghost use Rattle.meanings.specs.Meanings;
ghost use Rattle.keyentry.specs.KeyEntry.{key_entry};
ghost use Rattle.cleaning.specs.Cleaning.{clean_text};
ghost use Rattle.cleaning.specs.Counts.{WrittenText};
ghost use Rattle.message.specs.Text.{joined_text, message_text};
ghost use Rattle.mac.specs.Mac.{text_mac, message_mac};

// Enters a key of `wanted` bytes from hexadecimal text. Refuses with 6, 7, 13.
#[unsafe(no_mangle)]
pub extern "C" fn czg_key_entry(text: &[u8], wanted: usize, out: &mut [u8]) -> lent::Answer
    ensures { Written (key_entry text.now (record { 0 = wanted })) out.old result.number result.length out.new }
{
    lent::Answer::from(chizuregwo::messages::czg_key_entry(text, wanted, out))
}

// Cleans a text. Refuses with 6, 13.
#[unsafe(no_mangle)]
pub extern "C" fn czg_clean(text: &[u8], out: &mut [u8]) -> cleaning::TextAnswer
    ensures { WrittenText (clean_text text.now) (done text.now) out.old result out.new }
{
    cleaning::TextAnswer::from(chizuregwo::messages::czg_clean(text, out))
}

// Writes a message's MAC text. Refuses with 6, then record by record with 1, 2, 4, 3, then with 13.
#[unsafe(no_mangle)]
pub extern "C" fn czg_message_text(message: &[u8], out: &mut [u8]) -> cleaning::TextAnswer
    ensures { WrittenText (message_text message.now) (joined_text message.now) out.old result out.new }
{
    cleaning::TextAnswer::from(chizuregwo::messages::czg_message_text(message, out))
}

// The MAC of free text, 8 bytes. Refuses with 6, 5, 13.
#[unsafe(no_mangle)]
pub extern "C" fn czg_text_mac(key: &[u8], text: &[u8], out: &mut [u8]) -> cleaning::TextAnswer
    ensures { WrittenText (text_mac key.now text.now) (done text.now) out.old result out.new }
{
    cleaning::TextAnswer::from(chizuregwo::messages::czg_text_mac(key, text, out))
}

// The MAC of a message, 8 bytes. Refuses with 6, then record by record with 1, 2, 4, 3, then with 13.
#[unsafe(no_mangle)]
pub extern "C" fn czg_message_mac(
    key: &[u8],
    message: &[u8],
    out: &mut [u8],
) -> cleaning::TextAnswer
    ensures { WrittenText (message_mac key.now message.now) (joined_text message.now) out.old result out.new }
{
    cleaning::TextAnswer::from(chizuregwo::messages::czg_message_mac(key, message, out))
}

// Writes what a number means, as text. Refuses with 6, 13.
#[unsafe(no_mangle)]
pub extern "C" fn czg_meaning(number: u32, out: &mut [u8]) -> lent::Answer
    ensures { Written (Meanings.meaning number) out.old result.number result.length out.new }
{
    lent::Answer::from(chizuregwo::messages::czg_meaning(number, out))
}
