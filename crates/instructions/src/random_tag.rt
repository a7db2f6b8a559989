// IRG: a random tag.
ghost use Rattle.std.specs.Prelude.{◌≡◌, ◌<◌};
ghost use Rattle.instructions.specs.RegisterWords.{after_draw, mask_of};

use machine::{Settings, Status};

// The exclude mask with the low 16 bits of what Rm holds.
pub fn mask_of(settings: Settings, rm: u64) -> u16
    ensures { result ≡ mask_of settings rm }
{
    settings.exclude | bits::field(rm, 0, 16) as u16
}

// The status once a tag is chosen by four random bits, from RGSR's tag on: the tag is RGSR's then.
#[tactic(auto, using(tag::proofs::TagChoice::chosen_lt))]
pub fn choose(status: Status, mask: u16) -> Status
    requires { status.rgsr < 16 }
    ensures value { result ≡ after_draw status mask }
    ensures upper_bound { result.rgsr < 16 }
{
    let drawn = tag::draw(status.seed);
    Status {
        rgsr: tag::choose(status.rgsr, drawn.bits, mask),
        seed: drawn.seed,
        ..status
    }
}
