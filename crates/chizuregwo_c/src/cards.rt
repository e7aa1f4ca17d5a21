// A card's keys and cryptograms.
ghost use Rattle.lent.specs.Result.{Written};
ghost use Rattle.card.specs.Entries;

// Y of a card number and sequence, 8 bytes. Refuses with 6, 7, 13.
#[unsafe(no_mangle)]
pub extern "C" fn czg_derivation_data(card: &[u8], sequence: u32, out: &mut [u8]) -> lent::Answer
    ensures { Written (Entries.derivation_data card.now sequence) out.old result.number result.length out.new }
{
    lent::Answer::from(chizuregwo::cards::czg_derivation_data(card, sequence, out))
}

// The card key, 16 bytes, with an odd number of ones in each. Refuses with 6, 7, 13.
#[unsafe(no_mangle)]
pub extern "C" fn czg_card_key(
    master_key: &[u8],
    card: &[u8],
    sequence: u32,
    out: &mut [u8],
) -> lent::Answer
    ensures { Written (Entries.card_key master_key.now card.now sequence) out.old result.number result.length out.new }
{
    lent::Answer::from(chizuregwo::cards::czg_card_key(master_key, card, sequence, out))
}

// The card key before its parity is set, 16 bytes. Refuses with 6, 7, 13.
#[unsafe(no_mangle)]
pub extern "C" fn czg_card_key_unadjusted(
    master_key: &[u8],
    card: &[u8],
    sequence: u32,
    out: &mut [u8],
) -> lent::Answer
    ensures { Written (Entries.unadjusted_card_key master_key.now card.now sequence) out.old result.number result.length out.new }
{
    lent::Answer::from(chizuregwo::cards::czg_card_key_unadjusted(master_key, card, sequence, out))
}

// The session key of a transaction counter, 16 bytes. Refuses with 6, 13.
#[unsafe(no_mangle)]
pub extern "C" fn czg_session_key(card_key: &[u8], counter: u16, out: &mut [u8]) -> lent::Answer
    ensures { Written (Entries.session_key card_key.now counter) out.old result.number result.length out.new }
{
    lent::Answer::from(chizuregwo::cards::czg_session_key(card_key, counter, out))
}

// The ARQC of card data, 8 bytes. Refuses with 6, 13.
#[unsafe(no_mangle)]
pub extern "C" fn czg_arqc(session_key: &[u8], data: &[u8], out: &mut [u8]) -> lent::Answer
    ensures { Written (Entries.arqc session_key.now «data».now) out.old result.number result.length out.new }
{
    lent::Answer::from(chizuregwo::cards::czg_arqc(session_key, data, out))
}

// The ARPC of an ARQC and a code, 8 bytes. Refuses with 6, 13.
#[unsafe(no_mangle)]
pub extern "C" fn czg_arpc(
    session_key: &[u8],
    arqc: &[u8],
    code: &[u8],
    out: &mut [u8],
) -> lent::Answer
    ensures { Written (Entries.arpc session_key.now arqc.now code.now) out.old result.number result.length out.new }
{
    lent::Answer::from(chizuregwo::cards::czg_arpc(session_key, arqc, code, out))
}
