// Meanings, key entry, cleaning, a message's text, and MACs.
ghost use Rattle.lent.specs.Result.{Writes, done};
ghost use Rattle.meanings.specs.Meanings;
ghost use Rattle.keyentry.specs.KeyEntry.{key_entry};
ghost use Rattle.cleaning.specs.Cleaning.{clean_text};
ghost use Rattle.cleaning.specs.Counts.{WritesText};
ghost use Rattle.message.specs.Text.{joined_text, message_text};
ghost use Rattle.mac.specs.Mac.{text_mac, message_mac};
ghost use Rattle.chizuregwo.specs.Lent.{WritesMac};

use cleaning::Cleaned;
use lent::Refusal;
use mac::Mac;

// Enters a key of `wanted` bytes from hexadecimal text. Refuses with 6, 7, 13.
pub fn czg_key_entry(text: &[u8], wanted: usize, out: &mut [u8]) -> Result<usize, Refusal>
    ensures { Writes (key_entry text.now (record { 0 = wanted })) out.old result out.new }
{
    let entered = keyentry::key_entry(text, keyentry::Bytes(wanted), out);
    entered.map(|size| size.0)
}

// Cleans a text. Refuses with 6, 13.
pub fn czg_clean(text: &[u8], out: &mut [u8]) -> Result<Cleaned, Refusal>
    ensures { WritesText (clean_text text.now) (done text.now) out.old result out.new }
{
    cleaning::clean(text, out)
}

// Writes a message's MAC text. Refuses with 6, then record by record with 1, 2, 4, 3, then with 13.
pub fn czg_message_text(message: &[u8], out: &mut [u8]) -> Result<Cleaned, Refusal>
    ensures { WritesText (message_text message.now) (joined_text message.now) out.old result out.new }
{
    message::message_text(message, out)
}

// Writes the MAC of a cleaned text into lent memory, with what cleaning threw away: its own refusal, then 13.
fn lend_mac(mac: Result<Mac, Refusal>, out: &mut [u8]) -> Result<Cleaned, Refusal>
    ensures { WritesMac mac out.old result out.new }
{
    let Mac { value, counts } = mac?;
    let length = lent::lend(&value, out)?;
    Ok(Cleaned { length, counts })
}

// The MAC of free text, 8 bytes. Refuses with 6, 5, 13.
pub fn czg_text_mac(key: &[u8], text: &[u8], out: &mut [u8]) -> Result<Cleaned, Refusal>
    ensures { WritesText (text_mac key.now text.now) (done text.now) out.old result out.new }
{
    lend_mac(mac::text_mac(key, text), out)
}

// The MAC of a message, 8 bytes. Refuses with 6, then record by record with 1, 2, 4, 3, then with 13.
pub fn czg_message_mac(key: &[u8], message: &[u8], out: &mut [u8]) -> Result<Cleaned, Refusal>
    ensures { WritesText (message_mac key.now message.now) (joined_text message.now) out.old result out.new }
{
    lend_mac(mac::message_mac(key, message), out)
}

// Writes what a number means, as text. Refuses with 6, 13.
pub fn czg_meaning(number: u32, out: &mut [u8]) -> Result<usize, Refusal>
    ensures { Writes (Meanings.meaning number) out.old result out.new }
{
    meanings::meaning(number, out)
}
