// What the program writes, at most 226 bytes: a text of at most 166 characters, sixteen digits, two numbers of at most 20, a space and three line
// feeds.
ghost use Rattle.std.specs.Prelude.{◌≡◌, ◌+◌, ◌≤◌, ◌∷◌, ◌++◌, length, drop};
ghost use Rattle.arrayvec.specs.ArrayVec.{array_vec_len};
ghost use Rattle.lent.specs.Refusals.{number_of};
ghost use Rattle.keyentry.specs.Hexadecimal.{text_of};
ghost use Rattle.cleaning.specs.Cleaning.{space};
ghost use Rattle.message.specs.Text.{joined_text};
ghost use Rattle.mac.specs.Mac.{TextAndMac};
ghost use Rattle.messagemac.specs.Output;
ghost use Rattle.messagemac.specs.Output.{line, decimal, refused_word};

use arrayvec::ArrayVec;
use cleaning::Counts;
use lent::Refusal;
use mac::TextMac;

// Appends a number in decimal.
fn append_decimal(out: &mut ArrayVec<u8, 226>, number: u64)
    requires { array_vec_len out.old + 20 ≤ 226 }
    ensures appended { out.new.items ≡ out.old.items ++ decimal number }
    ensures short { array_vec_len out.new ≤ array_vec_len out.old + 20 }
{
    let mut digits = [0u8; 20];
    let count = console::decimal(number, &mut digits);
    lent::extend(out, &digits[..count]);
}

// The hexadecimal digits of a MAC, in capitals.
fn digits_of(mac: [u8; 8]) -> [u8; 16]
    ensures { result ≡ text_of 65 mac }
{
    let mut digits = [0u8; 16];
    let _ = keyentry::append_text(&mut digits, 0, &mac);
    digits
}

// The line of a refusal.
fn refusal(why: Refusal) -> ArrayVec<u8, 226>
    ensures { result.items ≡ line (refused_word ++ decimal (number_of why)) }
{
    let mut out = ArrayVec::new();
    lent::extend(&mut out, b"refused ");
    append_decimal(&mut out, u64::from(why.number()));
    out.push(b'\n');
    out
}

// The line of a text, the line of its MAC, and the line of what cleaning threw away, with a space between the two numbers.
fn lines(text: &[u8], mac: [u8; 8], counts: Counts) -> ArrayVec<u8, 226>
    requires { length text.now ≤ 166 }
    ensures { result.items ≡ line text.now ++ line (text_of 65 mac) ++ line (decimal counts.dropped ++ space ∷ decimal counts.spaces) }
{
    let mut out = ArrayVec::new();
    lent::extend(&mut out, text);
    out.push(b'\n');
    lent::extend(&mut out, &digits_of(mac));
    out.push(b'\n');
    append_decimal(&mut out, counts.dropped as u64);
    out.push(b' ');
    append_decimal(&mut out, counts.spaces as u64);
    out.push(b'\n');
    out
}

// The MAC text and the MAC of the message after the key: 6 if there are fewer than eight bytes.
fn answer(input: &[u8], room: &mut [u8]) -> Result<TextMac, Refusal>
    ensures { TextAndMac (Output.answer input.now) (joined_text (drop 8 input.now)) room.old result room.new }
{
    if input.len() < 8 {
        return Err(Refusal::Size);
    }
    mac::message_text_and_mac(&input[..8], &input[8..], room)
}

// What is written for the bytes that were read.
pub(crate) fn output(input: &[u8]) -> ArrayVec<u8, 226>
    ensures { result.items ≡ Output.output input.now }
{
    let mut room = [0u8; 166];
    match answer(input, &mut room) {
        Ok(made) => {
            let mac = made.mac;
            lines(&room[..made.text.length], mac, made.text.counts)
        }
        Err(why) => refusal(why),
    }
}
