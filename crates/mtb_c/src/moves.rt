// Shifts, moved frames and crops.
ghost use Rattle.std.specs.Prelude.{◌≡◌, length};
ghost use Rattle.definitions.specs.Align.{shift};
ghost use Rattle.definitions.specs.Geometry.{offset, doubled, shifted, shifts_of, common_crop};
ghost use Rattle.definitions.specs.Refusals.{answer, after, shift_checks, shifted_checks, crop_checks};
ghost use Rattle.mtb_c.specs.Status.{status_of};

use super::frames::status;
use mtb_align::geometry::Shift;

#[unsafe(no_mangle)]
pub extern "C" fn mtb_doubled(x: i32, y: i32, new_x: &mut i32, new_y: &mut i32) -> u32
    ensures status { result ≡ status_of (answer (shift_checks (doubled (shift x y))) (tt {0})) }
    ensures across { new_x.new ≡ after (shift_checks (doubled (shift x y))) (doubled (shift x y)).x new_x.old }
    ensures down { new_y.new ≡ after (shift_checks (doubled (shift x y))) (doubled (shift x y)).y new_y.old }
{
    let s = Shift { x, y };
    match s.doubled() {
        Ok(m) => {
            let across = m.x;
            let down = m.y;
            *new_x = across;
            *new_y = down;
            0
        }
        Err(e) => e.number(),
    }
}

#[unsafe(no_mangle)]
pub extern "C" fn mtb_offset(
    x: i32,
    y: i32,
    by_x: i32,
    by_y: i32,
    new_x: &mut i32,
    new_y: &mut i32,
) -> u32
    ensures status { result ≡ status_of (answer (shift_checks (offset (shift x y) (shift by_x by_y))) (tt {0})) }
    ensures across { new_x.new ≡ after (shift_checks (offset (shift x y) (shift by_x by_y))) (offset (shift x y) (shift by_x by_y)).x new_x.old }
    ensures down { new_y.new ≡ after (shift_checks (offset (shift x y) (shift by_x by_y))) (offset (shift x y) (shift by_x by_y)).y new_y.old }
{
    let s = Shift { x, y };
    match s.offset(by_x, by_y) {
        Ok(m) => {
            let across = m.x;
            let down = m.y;
            *new_x = across;
            *new_y = down;
            0
        }
        Err(e) => e.number(),
    }
}

#[unsafe(no_mangle)]
pub extern "C" fn mtb_shifted(
    samples: &[u8],
    width: usize,
    height: usize,
    x: i32,
    y: i32,
    moved: &mut [u8],
) -> u32
    ensures status { result ≡ status_of (answer (shifted_checks width height (length samples.now) (length moved.old)) (tt {0})) }
    ensures moved { moved.new ≡ after (shifted_checks width height (length samples.now) (length moved.old))
        (shifted width height samples.now (shift x y)) moved.old }
{
    status(mtb_align::geometry::shifted(samples, width, height, Shift { x, y }, moved))
}

/// The crop's left, top, width and height.
#[unsafe(no_mangle)]
pub extern "C" fn mtb_common_crop(
    shifts: &[i32],
    width: usize,
    height: usize,
    left: &mut usize,
    top: &mut usize,
    wide: &mut usize,
    high: &mut usize,
) -> u32
    ensures status { result ≡ status_of (answer (crop_checks width height (length shifts.now)) (tt {0})) }
    ensures left { left.new ≡ after (crop_checks width height (length shifts.now)) (common_crop (shifts_of shifts.now) width height).x left.old }
    ensures top { top.new ≡ after (crop_checks width height (length shifts.now)) (common_crop (shifts_of shifts.now) width height).y top.old }
    ensures wide { wide.new ≡ after (crop_checks width height (length shifts.now)) (common_crop (shifts_of shifts.now) width height).width wide.old }
    ensures high { high.new ≡ after (crop_checks width height (length shifts.now)) (common_crop (shifts_of shifts.now) width height).height high.old }
{
    match mtb_align::geometry::common_crop(shifts, width, height) {
        Ok(r) => {
            *left = r.x;
            *top = r.y;
            *wide = r.width;
            *high = r.height;
            0
        }
        Err(e) => e.number(),
    }
}
