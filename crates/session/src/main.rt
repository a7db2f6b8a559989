// Reads a session from standard input and writes what it comes to. A read or a write that fails is told on standard error.
#![tactic(auto)]

fn main(rt: HostRuntime) {
    let mut room = [0u8; 3733];
    let n = stdio::read(&rt, &mut room, b"session: cannot read standard input");
    let mut out = [0u8; 1134];
    let printed = session_text::answer(&room, n, &mut out);
    stdio::write(
        &stdio::open(&rt),
        &out[..printed],
        b"session: cannot write standard output",
    );
}
