// How a value goes into lent memory.
ghost use Rattle.lent.specs.Result.{Writes};

// Writes a value of N bytes into lent memory: its own refusal, then 13.
pub(crate) fn lend<const N: usize>(
    value: Result<[u8; N], lent::Refusal>,
    out: &mut [u8],
) -> Result<usize, lent::Refusal>
    ensures { Writes value.entry out.old result out.new }
{
    lent::lend(&value?, out)
}
