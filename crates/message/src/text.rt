// The text of a message's listed fields.
ghost use Rattle.std.specs.Prelude.{◌≡◌, ◌+◌, ◌≤◌, ◌++◌, length};
ghost use Rattle.arrayvec.specs.ArrayVec.{array_vec_len};
ghost use Rattle.cleaning.specs.Counts.{WritesText};
ghost use Rattle.message.specs.Fields.{rule};
ghost use Rattle.message.specs.Gathered;
ghost use Rattle.message.specs.Text;

use crate::{fields, records};
use arrayvec::ArrayVec;
use cleaning::Cleaned;
use lent::Refusal;

// Appends a listed field with a space before it; any other leaves nothing.
#[tactic(auto, unfolding(crate::specs::Gathered::spaced_field))]
fn append_field(text: &mut ArrayVec<u8, 167>, field: usize, body: &[u8])
    requires { array_vec_len text.old + length (Gathered.spaced_field (rule field) body.now) ≤ 167 }
    ensures { text.new.items ≡ text.old.items ++ Gathered.spaced_field (rule field) body.now }
{
    if let Some(listed) = fields::rule_of(field) {
        text.push(b' ');
        listed.entry.append(text, body);
    }
}

// Gathers the listed fields of a message, each with a space before it: refuses with 6 if the message has more than 4,096 bytes, with 1 if it
// is empty, then as its records are refused.
fn gather(message: &[u8]) -> Result<ArrayVec<u8, 167>, Refusal>
    ensures { Gathered.items_of result ≡ Gathered.gathered message.now }
{
    if message.len() > 4096 {
        return Err(Refusal::Size);
    }
    if message.is_empty() {
        return Err(Refusal::CutShort);
    }
    let mut text = ArrayVec::new();
    let mut before = None;
    let mut rest = message;
    // where the next record starts is known once this one is read
    while !rest.is_empty() {
        let record = records::read_record(before, rest)?;
        append_field(&mut text, record.field, &rest[4..record.end]);
        before = Some(record.field);
        rest = &rest[record.end..];
    }
    Ok(text)
}

// Writes a message's MAC text into lent memory: refuses with 6 if the message has more than 4,096 bytes, with 1 if it is empty, then record by
// record with 1, 2, 4, 3, then with 13 if the memory is shorter than the text. The text before cleaning has no space before its first field.
pub fn message_text(message: &[u8], out: &mut [u8]) -> Result<Cleaned, Refusal>
    ensures { WritesText (Text.message_text message.now) (Text.joined_text message.now) out.old result out.new }
{
    let text = gather(message)?;
    cleaning::clean(&text.as_slice()[1..], out)
}
