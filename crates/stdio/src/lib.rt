// Standard input and output for a program. A read or a write that fails is told on standard error.
#![tactic(auto)]

ghost use Rattle.std.specs.Prelude.{◌≡◌, ◌≤◌, length, take};

use std::cell::Cell;
use std::io;
use std::io::{ErrorKind, Print, Read};

// Tells a failure on standard error, in a line: failed, and the system's reason. If that fails too, there is no place left to tell it.
fn fail(rt: &HostRuntime, failed: &[u8], reason: io::Error) {
    tell(rt, failed);
    let _ = eprintln!(rt; ": {reason}");
}

// One read. If it fails, a line on standard error says so.
fn read_some(rt: &HostRuntime, room: &mut [u8], failed: &[u8]) -> usize
    ensures { result ≤ length room.old }
{
    match rt.stdin().read(room) {
        Ok(n) => n,
        Err(reason) => {
            fail(rt, failed, reason);
            0
        },
    }
}

// Reads until room is full or the input ends, and answers how many bytes it put at the start of room. A read that fails counts as
// the end, and is told.
pub fn read(rt: &HostRuntime, room: &mut [u8], failed: &[u8]) -> usize
    ensures in_bounds { result ≤ length room.new }
    ensures part { result ≡ length (take result room.new) }
{
    let mut done = 0;
    while done < room.len() {
        let more = read_some(rt, &mut room[done..], failed);
        if more == 0 {
            break;
        }
        done += more;
    }
    done
}

// Standard output, until a write fails.
#[derive(Drop)]
pub struct Output<'a> {
    rt: &'a HostRuntime,
    has_failed: Cell<bool>,
}

pub fn open(rt: &HostRuntime) -> Output<'_> {
    Output {
        rt,
        has_failed: Cell::new(false),
    }
}

// Writes bytes to standard output. A write that fails is told on standard error, by failed and the system's reason, and is the last: what
// is written stays the beginning of the answer, without a gap, and the failure is told once; a reader that left early is told nothing.
// That bytes are written no contract can say.
pub fn write(to: &Output<'_>, bytes: &[u8], failed: &[u8]) {
    if to.has_failed.get() {
        return;
    }
    if let Err(reason) = to.rt.write_all(bytes) {
        to.has_failed.set(true);
        if reason.kind() != ErrorKind::BrokenPipe {
            fail(to.rt, failed, reason);
        }
    }
}

// Writes bytes to standard error, for a program that tells there why it refuses its input. A failure is passed over: there is no
// place left to tell it, and nothing more to do.
pub fn tell(rt: &HostRuntime, bytes: &[u8]) {
    let _ = rt.stderr().write_all(bytes);
}
