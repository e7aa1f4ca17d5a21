// Reads requests from standard input, one a line, and writes an answer for each on a line of its own, until the input ends. A request is an entry's
// name and its inputs, or the self-test; `help` lists them.
#![tactic(auto)]

mod answers;
mod calls;
mod faults;
mod inputs;
mod lines;
mod numbers;
mod reading;
mod requests;
mod rooms;
mod serving;
mod usages;

use console::Standard;
use serving::Service;

fn main(rt: HostRuntime) {
    let help = usages::help();
    let mut console = Standard {
        who: b"czg",
        input: rt.stdin(),
        out: rt.stdout(),
        errors: rt.stderr(),
    };
    if console.asked(
        &rt,
        b"usage: czg <FILE   (czg --help lists the requests)\n",
        help.as_slice(),
    ) {
        return;
    }
    let _ = Service::new(console, help.as_slice()).run();
}
