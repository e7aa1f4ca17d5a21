// The host's derivations of a terminal's keys, of single and of double length.
ghost use Rattle.lent.specs.Result.{Written};
ghost use Rattle.registers.specs.Host.{initial_key, host_key};
ghost use Rattle.host.specs.SingleLength.{single_length};
ghost use Rattle.doublehost.specs.DoubleLength.{double_length};

// The initial key of the terminal with that serial number, 8 bytes. Refuses with 6, 9, 13.
#[unsafe(no_mangle)]
pub extern "C" fn czg_initial_key(
    derivation_key: &[u8],
    serial_number: &[u8],
    out: &mut [u8],
) -> lent::Answer
    ensures { Written (initial_key single_length derivation_key.now serial_number.now) out.old result.number result.length out.new }
{
    lent::Answer::from(chizuregwo::hosts::czg_initial_key(derivation_key, serial_number, out))
}

// The host's key for the counter in the serial number, 8 bytes. Refuses with 6, 9, 10, 13.
#[unsafe(no_mangle)]
pub extern "C" fn czg_host_key(
    derivation_key: &[u8],
    serial_number: &[u8],
    out: &mut [u8],
) -> lent::Answer
    ensures { Written (host_key single_length derivation_key.now serial_number.now) out.old result.number result.length out.new }
{
    lent::Answer::from(chizuregwo::hosts::czg_host_key(derivation_key, serial_number, out))
}

// The initial key of the double-length terminal with that serial number, 16 bytes. Refuses with 6, 9, 13.
#[unsafe(no_mangle)]
pub extern "C" fn czg_double_initial_key(
    derivation_key: &[u8],
    serial_number: &[u8],
    out: &mut [u8],
) -> lent::Answer
    ensures { Written (initial_key double_length derivation_key.now serial_number.now) out.old result.number result.length out.new }
{
    lent::Answer::from(chizuregwo::hosts::czg_double_initial_key(
        derivation_key,
        serial_number,
        out,
    ))
}

// The host's double-length key for the counter in the serial number, 16 bytes. Refuses with 6, 9, 10, 13.
#[unsafe(no_mangle)]
pub extern "C" fn czg_double_host_key(
    derivation_key: &[u8],
    serial_number: &[u8],
    out: &mut [u8],
) -> lent::Answer
    ensures { Written (host_key double_length derivation_key.now serial_number.now) out.old result.number result.length out.new }
{
    lent::Answer::from(chizuregwo::hosts::czg_double_host_key(derivation_key, serial_number, out))
}
