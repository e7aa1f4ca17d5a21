// Permutation by a table. Bits are numbered from 1 at the left.
ghost use Rattle.std.specs.Prelude.{◌≡◌, ◌≤◌, ◌<◌};
ghost use Rattle.cipher.specs.Bits;
ghost use Rattle.cipher.specs.Private.{Selection};

// Bit i of the `width` bits of x.
fn bit(width: u64, x: u64, i: u8) -> u64
    requires { (1 ≤ i) × (i ≤ width) × (width ≤ 64) }
    ensures { (result ≡ Bits.bit width x i) × (result < 2) }
{
    (x >> (width - u64::from(i))) % 2
}

// The bits of x that the table names, in the table's order.
pub(crate) fn permute(width: u64, table: &[u8], x: u64) -> u64
    requires { Selection width table.now }
    ensures { result ≡ Bits.permuted width table.now x }
{
    let mut r: u64 = 0;
    for i in table {
        r = r * 2 + bit(width, x, *i);
    }
    r
}
