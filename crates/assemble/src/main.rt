// Reads a .s file from standard input and writes its session, or tells on standard error why there is none. A read or a write that fails
// is told on standard error.
#![tactic(auto)]

use diagnostics::Source;

fn run(rt: &HostRuntime, out: &mut [u8; 3732]) {
    diagnostics::with_input(rt, b"assemble: cannot read standard input", |input| {
        let answer = assembly::assemble(input, out);
        diagnostics::report(
            rt,
            Source::Listing,
            answer,
            input,
            out,
            b"assemble: cannot write standard output",
        );
    });
}

fn main(rt: HostRuntime) {
    let mut out = [0; 3732];
    run(&rt, &mut out);
}
