// The parts of DES by the tables as FIPS 46-3 prints them, one bit at a time: what the self-test compares with.
ghost use Rattle.std.specs.Prelude.{◌≡◌, ◌+◌, ◌*◌, ◌/◌, ◌%◌, ◌^◌, ◌<◌, ◌≤◌};
ghost use Rattle.cipher.specs.Bits.{permuted};
ghost use Rattle.cipher.specs.Private.{SBox};
ghost use Rattle.cipher.specs.Rounds;
ghost use Rattle.cipher.specs.Schedule.{round_keys, rotated_left};
ghost use Rattle.cipher.specs.Tables;

use crate::bits::permute;
use crate::tables::{
    EXPANSION, FINAL_PERMUTATION, INITIAL_PERMUTATION, LEFT_SHIFTS, PERMUTED_CHOICE_1,
    PERMUTED_CHOICE_2, ROUND_PERMUTATION, S_BOXES,
};

// The initial permutation IP.
pub(crate) fn initial_permutation(block: u64) -> u64
    ensures { result ≡ permuted 64 Tables.initial_permutation block }
{
    permute(64, &INITIAL_PERMUTATION, block)
}

// IP⁻¹, the inverse of the initial permutation.
pub(crate) fn final_permutation(block: u64) -> u64
    ensures { result ≡ permuted 64 Tables.final_permutation block }
{
    permute(64, &FINAL_PERMUTATION, block)
}

// The expansion E.
pub(crate) fn expand(x: u64) -> u64
    ensures { result ≡ permuted 32 Tables.expansion x }
{
    permute(32, &EXPANSION, x)
}

// The entry of an S-box at the row and the column of six bits.
fn s_box(table: &[u8; 64], six: u64) -> u64
    requires { (six < 64) × SBox table.now }
    ensures { (result ≡ Rounds.s_box table.now six) × (result < 16) }
{
    let row = six / 32 * 2 + six % 2;
    let column = six / 2 % 16;
    // widened by `as`, as the shifts below: with `from` the proof did not close
    table[(row * 16 + column) as usize] as u64
}

// The eight S-boxes: 48 bits to 32.
fn substitute(x: u64) -> u64
    ensures { result ≡ Rounds.substituted x }
{
    let mut y = 0;
    for (i, table) in S_BOXES.iter().enumerate() {
        y = y * 16 + s_box(table, (x >> (42 - 6 * i)) % 64);
    }
    y
}

// The permutation P.
fn round_permutation(x: u64) -> u64
    ensures { result ≡ permuted 32 Tables.round_permutation x }
{
    permute(32, &ROUND_PERMUTATION, x)
}

// The cipher function f of the right half and a round key.
pub(crate) fn round_function(right: u64, key: u64) -> u64
    ensures { result ≡ Rounds.round_function right key }
{
    round_permutation(substitute(expand(right) ^ key))
}

// PC-1: the bits of C, then those of D.
fn permuted_choice_1(key: u64) -> u64
    ensures { result ≡ permuted 64 Tables.permuted_choice1 key }
{
    permute(64, &PERMUTED_CHOICE_1, key)
}

// PC-2: the round key that C and D give.
pub(crate) fn permuted_choice_2(halves: u64) -> u64
    ensures { result ≡ permuted 56 Tables.permuted_choice2 halves }
{
    permute(56, &PERMUTED_CHOICE_2, halves)
}

// 28 bits rotated n places to the left.
fn rotate_left(n: u64, half: u64) -> u64
    requires { (n ≤ 2) × (half < 2 ^ 28) }
    ensures { (result ≡ rotated_left n half) × (result < 2 ^ 28) }
{
    ((half << n) + (half >> (28 - n))) % 0x1000_0000
}

// The round keys of a key.
pub(crate) fn round_keys(key: u64) -> [u64; 16]
    ensures { result ≡ round_keys key }
{
    let halves = permuted_choice_1(key);
    let mut c = halves >> 28;
    let mut d = halves % 0x1000_0000;
    let mut keys = [0u64; 16];
    for (i, n) in LEFT_SHIFTS.iter().enumerate() {
        c = rotate_left(*n as u64, c);
        d = rotate_left(*n as u64, d);
        keys[i] = permuted_choice_2(c * 0x1000_0000 + d);
    }
    keys
}
