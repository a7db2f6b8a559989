// Writes lines to standard output, by way of a buffer.
ghost use Rattle.std.specs.Prelude.{◌≡◌, ◌+◌, ◌≤◌, length, min};

use super::kinds::Kind;
use stdio::Output;

const ROOM: usize = 65536;

// The most bytes that are put at once: a separator and 16 digits.
const MOST_PUT: usize = 17;

#[derive(Drop)]
pub(crate) struct Writer<'a> {
    to: Output<'a>,
    buffer: [u8; ROOM],
    filled: usize,
    ghost in_bounds: { filled ≤ length buffer },
}

impl<'a> Writer<'a> {
    pub(crate) fn new(rt: &'a HostRuntime) -> Writer<'a> {
        Writer {
            to: stdio::open(rt),
            buffer: [0; ROOM],
            filled: 0,
        }
    }

    // Writes what the buffer holds.
    pub(crate) fn flush(&mut self)
        ensures { self.new.filled ≡ 0 }
    {
        stdio::write(
            &self.to,
            &self.buffer[..self.filled],
            b"replay: cannot write standard output",
        );
        self.filled = 0;
    }

    // Sees to room for so many bytes, at most MOST_PUT.
    fn make_room(&mut self, bytes: usize)
        ensures { self.new.filled + min bytes MOST_PUT ≤ ROOM }
    {
        if ROOM - self.filled < bytes.min(MOST_PUT) {
            self.flush();
        }
    }

    // Puts a key or a line feed. No key in the table is longer than MOST_PUT; without `min` that would have to be proved, and in
    // `put_number` the like of a width.
    fn put_text(&mut self, bytes: &[u8]) {
        let bytes = &bytes[..bytes.len().min(MOST_PUT)];
        self.make_room(bytes.len());
        text::put_bytes(&mut self.buffer, self.filled, bytes);
        self.filled += bytes.len();
    }

    // Puts the last digits of a number, with its separator before it.
    fn put_number(&mut self, separator: u8, width: usize, number: u64) {
        let width = width.min(16);
        self.make_room(width + 1);
        self.buffer[self.filled] = separator;
        text::put_hex(&mut self.buffer, self.filled + 1, width, number);
        self.filled += width + 1;
    }

    // Puts a line: the key and the numbers of a kind of line.
    pub(crate) fn put(&mut self, kind: impl Kind, numbers: &[u64]) {
        let shape = kind.shape();
        self.put_text(shape.key);
        let mut separator = b'=';
        for (width, number) in shape.widths.iter().zip(numbers) {
            self.put_number(separator, *width, *number);
            separator = b' ';
        }
        self.put_text(b"\n");
    }
}
