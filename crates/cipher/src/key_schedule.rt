// The key schedule: sixteen round keys from a key. Rotated by any number of places, C and D have the same
// 28 windows of seven bits each; a round key is put together from four of them.
ghost use Rattle.std.specs.Prelude.{◌≡◌, ◌^◌, ◌<◌, ◌≤◌};
ghost use Rattle.cipher.specs.Bits.{permuted};
ghost use Rattle.cipher.specs.Private.{Windows, from_windows};
ghost use Rattle.cipher.specs.Schedule.{round_keys};
ghost use Rattle.cipher.specs.Tables.{permuted_choice1};

use crate::exchange::exchange;

// How many places C and D are rotated before each round, all in all.
const PLACES: [u8; 16] = [1, 2, 4, 6, 8, 10, 12, 14, 15, 17, 19, 21, 23, 25, 27, 28];

// PC-1: the bits of C, then those of D. After the exchanges the key's columns stand as bytes.
pub(crate) fn permuted_choice_1(key: u64) -> u64
    ensures { result ≡ permuted 64 permuted_choice1 key }
{
    let a = exchange(36, 0x0000_0000_0F0F_0F0F, key);
    let b = exchange(18, 0x0000_3333_0000_3333, a);
    let columns = exchange(9, 0x0055_0055_0055_0055, b);
    ((columns % 0x100) << 48)
        ^ (((columns >> 8) % 0x100) << 40)
        ^ (((columns >> 16) % 0x100) << 32)
        ^ (((columns >> 28) % 0x10) << 28)
        ^ (((columns >> 32) % 0x100_0000) << 4)
        ^ ((columns >> 24) % 0x10)
}

// What PC-2 gives for the 28 windows of C and D, each standing four times in its half; then the same again. C and D stand
// twice in a row from the first bit of a word on, and move a place to the left for each window.
pub(crate) fn windows(halves: u64) -> [u64; 56]
    requires { halves < 2 ^ 56 }
    ensures { Windows halves result }
{
    let mut c = (halves >> 28) * 0x10_0000_0100;
    let mut d = (halves % 0x1000_0000) * 0x10_0000_0100;
    let mut words = [0u64; 56];
    for p in 0..28 {
        let word = merged::choice(c >> 57, d >> 57);
        words[p] = word;
        words[p + 28] = word;
        c <<= 1;
        d <<= 1;
    }
    words
}

// The round key of C and D rotated n places: of each of its four windows the bits that PC-2 takes there.
fn round_key(words: &[u64; 56], n: usize) -> u64
    requires { n ≤ 28 }
    ensures { result ≡ from_windows words.now n }
{
    (words[n] & 0x0E41_1122_2083)
        ^ (words[n + 7] & 0xA012_4291_0214)
        ^ (words[n + 14] & 0x40A4_2408_5C20)
        ^ (words[n + 21] & 0x1108_8844_8148)
}

// The round keys of a key.
pub(crate) fn round_keys(key: u64) -> [u64; 16]
    ensures { result ≡ round_keys key }
{
    let words = windows(permuted_choice_1(key));
    let mut keys = [0u64; 16];
    for (i, n) in PLACES.iter().enumerate() {
        // widened by `as`: with `from` the proof did not close
        keys[i] = round_key(&words, *n as usize);
    }
    keys
}
