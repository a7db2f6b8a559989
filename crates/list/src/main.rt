// Reads a session from standard input and writes its listing, or tells on standard error why there is none. A read or a write that fails
// is told on standard error.
#![tactic(auto)]

use diagnostics::Source;

fn run(rt: &HostRuntime, out: &mut [u8; 25748]) {
    diagnostics::with_input(rt, b"list: cannot read standard input", |input| {
        let answer = assembly::list(input, out);
        diagnostics::report(
            rt,
            Source::Session,
            answer,
            input,
            out,
            b"list: cannot write standard output",
        );
    });
}

fn main(rt: HostRuntime) {
    let mut out = [0; 25748];
    run(&rt, &mut out);
}
