// The self-test: the fast parts of DES against the tables as FIPS 46-3 prints them, and published examples.
ghost use Rattle.std.specs.Prelude.{true, Ok, ℕ, ◌≡◌, ◌<◌};
ghost use Rattle.cipher.specs.Check.{number};
ghost use Rattle.cipher.specs.Private.{Passes};

use crate::triple::triple_encrypt;
use crate::{des, key_schedule, printed, rounds};

// What the self-test checks, in its order.
#[derive(Clone, Copy, Debug, PartialEq, Eq)]
pub enum Check {
    MergedWords,
    ChoiceWords,
    InitialPermutation,
    FinalPermutation,
    Expansion,
    RoundKeys,
    Examples,
}

impl Check {
    // The number of a check, from 1.
    pub fn number(self) -> u32
        ensures { result ≡ number self }
    {
        match self {
            Check::MergedWords => 1,
            Check::ChoiceWords => 2,
            Check::InitialPermutation => 3,
            Check::FinalPermutation => 4,
            Check::Expansion => 5,
            Check::RoundKeys => 6,
            Check::Examples => 7,
        }
    }
}

// Six bits for each of the eight S-boxes, for which it gives 0.
const ZEROS: u64 = 0x0530_884D_00D9;

// The merged words of S-box n / 64, P and E for six bits beside seven words that are zero, through two rounds.
fn merged_words_agree(n: u64) -> bool
    requires { n < 512 }
    ensures { result ≡ true }
{
    let x = ZEROS ^ ((n % 64) << (6 * (n / 64)));
    let left = printed::round_function(0, x);
    let right = printed::round_function(left, 0);
    rounds::two_rounds(x) == right * 0x1_0000_0000 + left
}

// What the schedule's tables give for the first seven bits c of C and d of D, each four times in its half.
fn choice_agrees(c: u64, d: u64) -> bool
    requires { (c < 128) × (d < 128) }
    ensures { result ≡ true }
{
    let words = key_schedule::windows(c * 0x2_0000_0000_0000 + d * 0x20_0000);
    words[0] == printed::permuted_choice_2(c * 0x20_4081 * 0x1000_0000 + d * 0x20_4081)
}

// E, and what undoes it: the right half with the single bit n.
fn expansion_agrees(n: u64) -> bool
    requires { n < 32 }
    ensures { result ≡ true }
{
    let x = 1u64 << n;
    let word = rounds::expand(x);
    word == printed::expand(x) && rounds::pack(word) == x
}

// The examples of J. Orlin Grabbe, The DES Algorithm Illustrated, and the initial key of those of ANSI X9.24-1.
fn examples_agree() -> bool
    ensures { result ≡ true }
{
    let found = [
        des::encrypt(0x1334_5779_9BBC_DFF1, 0x0123_4567_89AB_CDEF),
        des::decrypt(0x0E32_9232_EA6D_0D73, 0),
        triple_encrypt(
            0x0123_4567_89AB_CDEF,
            0xFEDC_BA98_7654_3210,
            0xFFFF_9876_5432_10E0,
        ),
    ];
    found
        == [
            0x85E8_1354_0F0A_B405,
            0x8787_8787_8787_8787,
            0x6AC2_92FA_A131_5B4D,
        ]
}

// Tries each case below n: an error is the check.
fn passes<F: Fn(u64) -> bool>(check: Check, n: u64, agrees: F) -> Result<(), Check>
    requires { Passes n (F.pre agrees) (F.post agrees) }
    ensures { result ≡ Ok tt }
{
    for k in 0..n {
        if !agrees(k) {
            return Err(check);
        }
    }
    Ok(())
}

// Every merged word and every fast permutation is what the tables of FIPS 46-3 give, and the published examples come out;
// else the first check that differs. Permutations and the key schedule are tried on each single bit, the words of PC-2 on
// each seven, in C beside a D of zeros and in D beside a C of zeros.
pub fn self_test() -> Result<(), Check>
    ensures { result ≡ Ok tt }
{
    passes(Check::MergedWords, 512, merged_words_agree)?;
    passes(
        Check::ChoiceWords,
        128,
        |n| choice_agrees(n, 0) && choice_agrees(0, n),
    )?;
    passes(Check::InitialPermutation, 64, |n| {
        des::initial_permutation(1 << n) == printed::initial_permutation(1 << n)
    })?;
    passes(Check::FinalPermutation, 64, |n| {
        des::final_permutation(1 << n) == printed::final_permutation(1 << n)
    })?;
    passes(Check::Expansion, 32, expansion_agrees)?;
    passes(Check::RoundKeys, 64, |n| {
        key_schedule::round_keys(1 << n) == printed::round_keys(1 << n)
    })?;
    passes(Check::Examples, 1, |_| examples_agree())
}
