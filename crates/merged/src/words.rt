// What the tables give together.
ghost use Rattle.std.specs.Prelude.{◌≡◌, ◌<◌, ◌%◌, get_or};
ghost use Rattle.merged.specs.Words;

use crate::choice_words::{CHOICE_C, CHOICE_D};
use crate::round_words::{BOX_1, BOX_2, BOX_3, BOX_4, BOX_5, BOX_6, BOX_7, BOX_8};

// The table's word for the last bits of x.
fn word<const N: usize>(table: &[u64; N], x: u64) -> u64
    requires { 0 < N }
    ensures { result ≡ get_or table.now (x % N) 0 }
{
    table[(x % N as u64) as usize]
}

// The words of the eight S-boxes for the eight six bits of x, the last six first: so it is quickest.
pub fn substituted(x: u64) -> u64
    ensures { result ≡ Words.substituted x }
{
    word(&BOX_8, x)
        ^ word(&BOX_7, x >> 6)
        ^ word(&BOX_6, x >> 12)
        ^ word(&BOX_5, x >> 18)
        ^ word(&BOX_4, x >> 24)
        ^ word(&BOX_3, x >> 30)
        ^ word(&BOX_2, x >> 36)
        ^ word(&BOX_1, x >> 42)
}

// The words of PC-2 for the last seven bits of c, of C, and of d, of D.
pub fn choice(c: u64, d: u64) -> u64
    ensures { result ≡ Words.choice c d }
{
    word(&CHOICE_C, c) ^ word(&CHOICE_D, d)
}
