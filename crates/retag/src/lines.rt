// The lines that the program writes to standard output.
use stdio::Output;

fn write(to: &Output<'_>, bytes: &[u8]) {
    stdio::write(to, bytes, b"retag: cannot write standard output");
}

// The end of a line: how many bytes a part of the data has, and the bytes.
fn write_part(to: &Output<'_>, part: &[u8]) {
    let mut out = *b"0x00 bytes: \"";
    text::put_hex(&mut out, 2, 2, part.len() as u64);
    write(to, &out);
    write(to, part);
    write(to, b"\"\n");
}

// What a pointer reaches.
pub(crate) fn write_reached(to: &Output<'_>, pointer: u64, part: &[u8]) {
    let mut out = *b"0000000000000000 reaches ";
    text::put_hex(&mut out, 0, 16, pointer);
    write(to, &out);
    write_part(to, part);
}

// What is held of the block once its granules have the new tag.
pub(crate) fn write_held(to: &Output<'_>, part: &[u8]) {
    write(to, b"retagged while held: ");
    write_part(to, part);
}
