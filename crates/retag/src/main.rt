// A block is freed: its granules get a new tag, so that a stale pointer reaches nothing. The block's part of the data is held all
// the while: it is tied to the data alone, so the tags may be written.
#![tactic(auto)]

mod lines;

const BASE: u64 = 0x1000;

// Pointers to the block with its old tag and with its new one.
const STALE: u64 = 0x0500_0000_0000_1010;

const RENEWED: u64 = 0x0600_0000_0000_1010;

// Four granules. The block is the second and the third.
fn main(rt: HostRuntime) {
    let to = stdio::open(&rt);
    let data = *b"the first block;a block of two granules to free;the other block.";
    let mut tags = [3u8, 5, 5, 9];
    let block = reach::reachable(STALE, BASE, &data, &tags);
    lines::write_reached(&to, STALE, block);
    tags[1..3].fill(6);
    lines::write_held(&to, block);
    lines::write_reached(&to, STALE, reach::reachable(STALE, BASE, &data, &tags));
    lines::write_reached(&to, RENEWED, reach::reachable(RENEWED, BASE, &data, &tags));
}
