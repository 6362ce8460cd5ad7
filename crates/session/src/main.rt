// Operation lines on standard input, one answer line for each on standard output.
#![tactic(auto)]

mod failure;
mod host;
mod input;

use host::Host;
use input::Input;

fn main(rt: HostRuntime) {
    let mut host = Host::new();
    if let Err(failure) = Input::new().run(&rt, &mut rt.stdin(), &mut host) {
        let _ = eprintln!(rt; "session: {failure}");
    }
}
