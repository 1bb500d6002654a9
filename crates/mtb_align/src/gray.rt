// Grey from interleaved RGB.
ghost use Rattle.std.specs.Prelude.{◌≡◌, ◌+◌, ◌*◌, ◌/◌, ◌≤◌, length};
ghost use Rattle.definitions.specs.Gray.{grey, from_rgb};
ghost use Rattle.definitions.specs.Refusals.{answer, after, from_rgb_checks};
ghost use Rattle.mtb_align.specs.Answers.{answered};

use super::error::{Error, side_over};
use super::sides::Sides;

fn grey_of(red: u8, green: u8, blue: u8) -> u8
    ensures { result ≡ grey red green blue }
{
    ((54 * red as u32 + 183 * green as u32 + 19 * blue as u32) / 256) as u8
}

fn flatten(rgb: &[u8], sides: Sides, gray: &mut [u8])
    requires { (length rgb.now ≡ 3 * (sides.width * sides.height)) × (length gray.old ≡ sides.width * sides.height) }
    ensures { gray.new ≡ from_rgb sides.width sides.height rgb.now }
{
    // By number, since a pixel's three bytes stand at three times its number.
    for i in 0..gray.len() {
        gray[i] = grey_of(rgb[3 * i], rgb[3 * i + 1], rgb[3 * i + 2]);
    }
}

/// Three bytes a pixel, row by row, with Ward's weights. Refused: `Side`, `Length`.
pub fn from_rgb(rgb: &[u8], width: usize, height: usize, gray: &mut [u8]) -> Result<(), Error>
    ensures answer { answered (λ done. done) result ≡ answer (from_rgb_checks width height (length rgb.now) (length gray.old)) tt }
    ensures gray { gray.new
        ≡ after (from_rgb_checks width height (length rgb.now) (length gray.old))
        (from_rgb width height rgb.now)
        gray.old }
{
    if side_over(width, height) {
        return Err(Error::Side);
    }
    if rgb.len() != 3 * (width * height) {
        return Err(Error::Length);
    }
    if gray.len() != width * height {
        return Err(Error::Length);
    }
    let sides = Sides { width, height };
    flatten(rgb, sides, gray);
    Ok(())
}
