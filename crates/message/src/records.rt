// The records of a message (01, Numbers an operator sees).
ghost use Rattle.std.specs.Prelude.{◌≡◌, ◌<◌, ◌≤◌};
ghost use Rattle.message.specs.Fields;
ghost use Rattle.message.specs.Gathered;
ghost use Rattle.message.specs.Records;

use crate::fields;
use lent::Refusal;

// The highest field number.
const HIGHEST_FIELD: usize = 192;

// A record as it is read: its field number, and where it ends.
#[derive(Clone, Copy)]
pub(crate) struct Record {
    pub(crate) field: usize,
    pub(crate) end: usize,
}

// The number of two bytes at i, the low one first; past the end stand zeros.
#[tactic(auto, unfolding(crate::specs::Records::little_endian))]
fn little_endian(s: &[u8], i: usize) -> usize
    requires { i < 4 }
    ensures { (result ≡ Records.little_endian s.now i) × (result ≤ 65535) }
{
    usize::from(u16::from_le_bytes([lent::byte_at(s, i), lent::byte_at(s, i + 1)]))
}

// Whether a field may come after the field before it: the first is 0, any other is above the one before and at most 192.
fn in_order(before: Option<usize>, field: usize) -> bool
    ensures { result ≡ Records.in_order before field }
{
    match before {
        None => field == 0,
        Some(before) => before < field && field <= HIGHEST_FIELD,
    }
}

// Whether a body has the length and the characters that are asked of its field, if it is listed.
#[tactic(auto, unfolding(crate::specs::Fields::formed))]
fn formed(field: usize, body: &[u8]) -> bool
    ensures { result ≡ Fields.formed (Fields.rule field) body.now }
{
    match fields::rule_of(field) {
        Some(listed) => listed.formed(body),
        None => true,
    }
}

// Whether a field is not the message type, or starts with 01, 02, 04 or 05.
#[tactic(auto, using(crate::proofs::Types::type_is))]
fn known_type(field: usize, body: &[u8]) -> bool
    ensures { result ≡ Records.known_type field body.now }
{
    field != 0 || matches!(body, [b'0', b'1' | b'2' | b'4' | b'5', ..])
}

// Reads the record at the start of `rest`: refuses with 1 if it is cut short, then with 2, 4, 3.
#[tactic(auto, unfolding(crate::specs::Records::record_field, crate::specs::Records::checked_field, crate::specs::Records::field_of))]
pub(crate) fn read_record(before: Option<usize>, rest: &[u8]) -> Result<Record, Refusal>
    ensures { result ≡ Gathered.read_of rest.now (Records.record_field before rest.now) }
{
    let end = 4 + little_endian(rest, 0);
    if rest.len() < end {
        return Err(Refusal::CutShort);
    }
    let field = little_endian(rest, 2);
    let body = &rest[4..end];
    if !in_order(before, field) {
        return Err(Refusal::FieldOrder);
    }
    if !formed(field, body) {
        return Err(Refusal::FieldForm);
    }
    if !known_type(field, body) {
        return Err(Refusal::MessageType);
    }
    Ok(Record { field, end })
}
