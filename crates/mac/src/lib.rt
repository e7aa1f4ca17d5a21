// The MAC of free text and of a message (01, The message and its MAC text).
#![tactic(auto)]

ghost use Rattle.std.specs.Prelude.{◌≡◌};
ghost use Rattle.lent.specs.Result.{done};
ghost use Rattle.message.specs.Text.{joined_text};
ghost use Rattle.mac.specs.Mac.{mac_of, text_mac, message_mac, message_text_and_mac, counted_mac, TextAndMac};

use cleaning::{Cleaned, Counts};
use lent::Refusal;

// The MAC of a cleaned text, and what cleaning threw away.
#[derive(Clone, Copy, Debug, PartialEq, Eq)]
pub struct Mac {
    pub value: [u8; 8],
    pub counts: Counts,
}

// A message's text was written: its length, what cleaning threw away, and its MAC.
#[derive(Clone, Copy, Debug, PartialEq, Eq)]
pub struct TextMac {
    pub text: Cleaned,
    pub mac: [u8; 8],
}

// The MAC of a text under a key.
fn mac_of(key: &[u8], text: &[u8]) -> [u8; 8]
    ensures { result ≡ mac_of key.now text.now }
{
    lent::bytes_of(chaining::chained(lent::word_of(key), text))
}

// The MAC of free text, cleaned: refuses with 6 if the key does not have 8 bytes or the text has more than 1,024, with 5 if nothing is left of
// the text.
pub fn text_mac(key: &[u8], text: &[u8]) -> Result<Mac, Refusal>
    ensures { result ≡ counted_mac (text_mac key.now text.now) (done text.now) }
{
    if key.len() != 8 {
        return Err(Refusal::Size);
    }
    // fixed memory, lent to what writes the text
    let mut room = [0u8; 1024];
    let Cleaned { length, counts } = cleaning::clean(text, &mut room)?;
    if length == 0 {
        return Err(Refusal::EmptyText);
    }
    let value = mac_of(key, &room[..length]);
    Ok(Mac { value, counts })
}

// Writes a message's text into lent memory and answers its MAC: refuses with 6 if the key does not have 8 bytes, then as the message's text is
// refused, which is never empty.
pub fn message_text_and_mac(key: &[u8], message: &[u8], out: &mut [u8]) -> Result<TextMac, Refusal>
    ensures { TextAndMac (message_text_and_mac key.now message.now) (joined_text message.now) out.old result out.new }
{
    if key.len() != 8 {
        return Err(Refusal::Size);
    }
    let text = message::message_text(message, out)?;
    let mac = mac_of(key, &out[..text.length]);
    Ok(TextMac { text, mac })
}

// The MAC of a message: refuses with 6 if the key does not have 8 bytes, then as the message's text is refused.
pub fn message_mac(key: &[u8], message: &[u8]) -> Result<Mac, Refusal>
    ensures { result ≡ counted_mac (message_mac key.now message.now) (joined_text message.now) }
{
    let mut room = [0u8; 166];
    let TextMac { text, mac } = message_text_and_mac(key, message, &mut room)?;
    Ok(Mac {
        value: mac,
        counts: text.counts,
    })
}
