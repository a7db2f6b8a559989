// LDG: a tag loaded.
ghost use Rattle.std.specs.Prelude.{◌≡◌, ◌<◌, length};
ghost use Rattle.instructions.specs.MemoryWords.{loaded_tag};

use machine::Settings;
use tag::Tag;

// The tag of granule i.
pub fn load(settings: Settings, tags: &[u8], i: usize) -> Tag
    requires { i < length tags.now }
    ensures { result.value ≡ loaded_tag settings tags.now i }
{
    Tag {
        value: if settings.access { tags[i] % 16 } else { 0 },
    }
}
