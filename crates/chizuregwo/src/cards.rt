// A card's keys and cryptograms.
ghost use Rattle.lent.specs.Result.{Writes};
ghost use Rattle.card.specs.Entries;

use crate::answers::lend;

// Y of a card number and sequence, 8 bytes. Refuses with 6, 7, 13.
pub fn czg_derivation_data(
    card: &[u8],
    sequence: u32,
    out: &mut [u8],
) -> Result<usize, lent::Refusal>
    ensures { Writes (Entries.derivation_data card.now sequence) out.old result out.new }
{
    lend(card::derivation_data(card, sequence), out)
}

// The card key, 16 bytes, with an odd number of ones in each. Refuses with 6, 7, 13.
pub fn czg_card_key(
    master_key: &[u8],
    card: &[u8],
    sequence: u32,
    out: &mut [u8],
) -> Result<usize, lent::Refusal>
    ensures { Writes (Entries.card_key master_key.now card.now sequence) out.old result out.new }
{
    lend(card::card_key(master_key, card, sequence), out)
}

// The card key before its parity is set, 16 bytes. Refuses with 6, 7, 13.
pub fn czg_card_key_unadjusted(
    master_key: &[u8],
    card: &[u8],
    sequence: u32,
    out: &mut [u8],
) -> Result<usize, lent::Refusal>
    ensures { Writes (Entries.unadjusted_card_key master_key.now card.now sequence) out.old result out.new }
{
    lend(card::unadjusted_card_key(master_key, card, sequence), out)
}

// The session key of a transaction counter, 16 bytes. Refuses with 6, 13.
pub fn czg_session_key(
    card_key: &[u8],
    counter: u16,
    out: &mut [u8],
) -> Result<usize, lent::Refusal>
    ensures { Writes (Entries.session_key card_key.now counter) out.old result out.new }
{
    lend(card::session_key(card_key, counter), out)
}

// The ARQC of card data, 8 bytes. Refuses with 6, 13.
pub fn czg_arqc(session_key: &[u8], data: &[u8], out: &mut [u8]) -> Result<usize, lent::Refusal>
    ensures { Writes (Entries.arqc session_key.now «data».now) out.old result out.new }
{
    lend(card::arqc(session_key, data), out)
}

// The ARPC of an ARQC and a code, 8 bytes. Refuses with 6, 13.
pub fn czg_arpc(
    session_key: &[u8],
    arqc: &[u8],
    code: &[u8],
    out: &mut [u8],
) -> Result<usize, lent::Refusal>
    ensures { Writes (Entries.arpc session_key.now arqc.now code.now) out.old result out.new }
{
    lend(card::arpc(session_key, arqc, code), out)
}
