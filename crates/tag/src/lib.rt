// Tags: that of a pointer, tag choice, and the random bits of IRG.
#![tactic(auto)]

ghost use Rattle.std.specs.Prelude.{◌≡◌, ◌<◌};
ghost use Rattle.tag.specs.PointerTags.{tag_of, with_tag};
ghost use Rattle.tag.specs.RandomBits.{drawn};
ghost use Rattle.tag.specs.TagChoice.{chosen, masked, next};

// A tag: four bits.
#[derive(Clone, Copy, Debug, PartialEq, Eq)]
pub struct Tag {
    pub value: u8,
    pub ghost four_bits: { value < 16 },
}

impl Tag {
    // A pointer's tag.
    pub fn of(pointer: u64) -> Tag
        ensures { result.value ≡ tag_of pointer }
    {
        Tag {
            value: bits::field(pointer, 56, 4) as u8,
        }
    }

    // A pointer with its tag replaced by this one.
    pub fn put_in(self, pointer: u64) -> u64
        ensures { result ≡ with_tag pointer self.value }
    {
        bits::put(pointer, 56, 4, u64::from(self.value))
    }

    // The tag after it, mod 16.
    fn next(self) -> Tag
        ensures { result.value ≡ next self.value }
    {
        Tag {
            value: (self.value + 1) % 16,
        }
    }

    // Whether the mask has the tag's bit.
    fn is_masked(self, mask: u16) -> bool
        ensures { result ≡ masked mask self.value }
    {
        bits::field(u64::from(mask), u64::from(self.value), 1) == 1
    }
}

// The chosen tag. A turn of the outer loop moves on by one, unless the offset is 0; the inner loop goes on past masked tags.
pub fn choose(start: Tag, offset: u8, mask: u16) -> Tag
    ensures { result.value ≡ chosen start.value offset mask }
{
    let mut tag = start;
    let mut left = offset;
    let all_masked = mask == 0xffff;
    'walk: loop {
        if 0 < left {
            tag = tag.next();
            left -= 1;
        }
        while tag.is_masked(mask) {
            if all_masked {
                break 'walk Tag { value: 0 };
            }
            tag = tag.next();
        }
        if left == 0 {
            break tag;
        }
    }
}

// Four random bits, and the seed after them.
#[derive(Clone, Copy, Debug, PartialEq, Eq)]
pub struct Drawn {
    pub bits: u8,
    pub seed: u16,
}

// Draws four random bits, lowest first, all at once: none of them has come down yet to the seed bits that are added.
pub fn draw(seed: u16) -> Drawn
    ensures { result ≡ drawn seed }
{
    let s = u64::from(seed);
    let four = bits::field((s >> 5) ^ (s >> 3) ^ (s >> 2) ^ s, 0, 4);
    Drawn {
        bits: four as u8,
        seed: bits::put(s >> 4, 12, 4, four) as u16,
    }
}
