// Reads eight bytes of MAC key and then one message from standard input, and writes the message's MAC text on one line, its MAC as sixteen
// capital hexadecimal digits on the next, and on a third how many bytes cleaning dropped and how many spaces went out; or `refused` and the number
// (01, The job and its edge; 02, M-106).
#![tactic(auto)]

mod output;

use console::Standard;

fn main(rt: HostRuntime) {
    let mut console = Standard {
        who: b"messagemac",
        input: rt.stdin(),
        out: rt.stdout(),
        errors: rt.stderr(),
    };
    if console.asked(
        &rt,
        b"usage: messagemac <FILE   (messagemac --help says more)\n",
        b"usage: messagemac <FILE
Reads eight bytes of MAC key and then one message from standard input.
Writes the message's MAC text on one line, its MAC, sixteen hexadecimal digits, on the next,
and on a third two numbers: how many bytes cleaning dropped, and how many spaces went out;
or `refused` and a number, whose meaning stands in include/chizuregwo.h.
example: messagemac <examples/sale.bin
",
    ) {
        return;
    }
    // one byte more than a key and the longest message
    let mut input = [0u8; 4105];
    let Ok(n) = console.read_full(&mut input) else {
        return;
    };
    let out = output::output(&input[..n]);
    let _ = console.write(out.as_slice());
}
