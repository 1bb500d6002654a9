// How often a frame is halved, its pyramid, and a level of it. The original has these at the end of align.rs.
ghost use Rattle.std.specs.Prelude.{◌≡◌, [], ◌++◌, ◌+◌, ◌*◌, ◌≤◌, length, drop};
ghost use Rattle.std.proofs.lemmas.List.Edits.{sets};
ghost use Rattle.definitions.specs.Shrink.{side_at, halved_samples, pyramid, level_part, nowhere, place_of};
ghost use Rattle.definitions.specs.Align.{levels};
ghost use Rattle.definitions.specs.Refusals.{answer, after, pyramid_checks};
ghost use Rattle.mtb_align.specs.Answers.{answered, mode_of, level_place_in};

use super::checks::pyramid_fits;
use super::error::Error;
use super::frame::Gray;
use super::numbers::ilog2;
use super::shrink::{Shrink, halve};
use super::sides::Sides;

// How many times a frame is halved.
pub(crate) fn shrinks(sides: Sides, bits: u32) -> usize
    ensures { result ≡ levels sides.width sides.height bits }
{
    if sides.width == 0 || sides.height == 0 {
        return 0;
    }
    let longest = ilog2(sides.width.max(sides.height)).saturating_sub(1);
    let shortest = ilog2(sides.width.min(sides.height));
    (bits as usize).saturating_sub(1).min(longest).min(shortest)
}

// The samples of the halved levels 1 to `count`.
pub(crate) fn halved_samples(sides: Sides, count: usize) -> usize
    requires { count ≤ 12 }
    ensures { result ≡ halved_samples sides.width sides.height count }
{
    // Halved as it goes: a shift for each level took 15 ns more at each pyramid, a tenth where the frame is small.
    let mut w = sides.width;
    let mut h = sides.height;
    let mut total: usize = 0;
    for _k in 0..count {
        w /= 2;
        h /= 2;
        total += w * h;
    }
    total
}

// The halved levels 1 to `count`, one after another, from `at` on.
pub(crate) fn fill(frame: &Gray<'_>, count: usize, shrink: Shrink, scratch: &mut [u8], at: usize)
    requires { (count ≤ 12) × (at + halved_samples frame.now.width frame.now.height count ≤ length scratch.old) }
    ensures { scratch.new ≡ sets scratch.old at (pyramid (mode_of shrink) frame.now.width frame.now.height frame.now.samples.now count) }
{
    if count == 0 {
        return;
    }
    halve(frame, shrink, &mut scratch[at..]);
    // Where the last level that is written starts: the next one is made of it, right behind it.
    let mut from = at;
    for k in 1..count {
        // By shifts here: halved as the loop goes, small subsampled pyramids took a tenth more.
        let width = side_at(frame.width, k);
        let height = side_at(frame.height, k);
        let next = from + width * height;
        let (before, rest) = scratch.split_at_mut(next);
        let level = Gray {
            samples: &before[from..],
            width,
            height,
        };
        halve(&level, shrink, rest);
        from = next;
    }
}

/// The halved levels of a frame, one after another from the scratch's start; bits gives how many. Refused: `Side`, `Length`, `Scratch`.
pub fn pyramid(
    samples: &[u8],
    width: usize,
    height: usize,
    bits: u32,
    shrink: Shrink,
    scratch: &mut [u8],
) -> Result<(), Error>
    ensures answer { answered (λ done. done) result ≡ answer (pyramid_checks width height (length samples.now) bits (length scratch.old)) tt }
    ensures scratch { scratch.new ≡ after (pyramid_checks width height (length samples.now) bits (length scratch.old))
        (pyramid (mode_of shrink) width height samples.now (levels width height bits)
        ++ drop (halved_samples width height (levels width height bits)) scratch.old)
        scratch.old }
{
    pyramid_fits(width, height, samples.len(), bits, scratch.len())?;
    let sides = Sides { width, height };
    let count = shrinks(sides, bits);
    let frame = Gray {
        samples,
        width,
        height,
    };
    fill(&frame, count, shrink, scratch, 0);
    Ok(())
}

/// A part of a frame or of the scratch of its levels: which of the two, where it starts, and how many samples it has.
// A flag with a place and no enum: mtb_level, in C, stores all three, of the empty part too.
#[derive(Clone, Copy, Debug, PartialEq, Eq)]
pub struct LevelPlace {
    pub in_scratch: bool,
    pub start: usize,
    pub samples: usize,
}

/// Where level k stands, by the lengths of the two lists; the empty part past the last level and where `pyramid` would be refused.
pub fn level_place(
    samples: usize,
    width: usize,
    height: usize,
    bits: u32,
    scratch: usize,
    k: usize,
) -> LevelPlace
    ensures { level_place_in result ≡ after (pyramid_checks width height samples bits scratch) (place_of width height (levels width height bits) k) nowhere }
{
    let Ok(()) = pyramid_fits(width, height, samples, bits, scratch) else {
        return LevelPlace {
            in_scratch: false,
            start: 0,
            samples: 0,
        };
    };
    if k == 0 {
        return LevelPlace {
            in_scratch: false,
            start: 0,
            samples,
        };
    }
    let sides = Sides { width, height };
    if k > shrinks(sides, bits) {
        return LevelPlace {
            in_scratch: false,
            start: 0,
            samples: 0,
        };
    }
    LevelPlace {
        in_scratch: true,
        start: halved_samples(sides, k - 1),
        samples: side_at(width, k) * side_at(height, k),
    }
}

/// Level k as the caller's frame or as a part of the scratch; the empty part past the last level and where `pyramid` would be refused.
pub fn level<'a>(
    frame: &'a [u8],
    width: usize,
    height: usize,
    bits: u32,
    scratch: &'a [u8],
    k: usize,
) -> &'a [u8]
    ensures { result.now ≡ after (pyramid_checks width height (length frame.now) bits (length scratch.now))
        (level_part width height (levels width height bits) frame.now scratch.now k) [] }
{
    let place = level_place(frame.len(), width, height, bits, scratch.len(), k);
    let start = place.start;
    let end = start + place.samples;
    if place.in_scratch {
        return &scratch[start..end];
    }
    &frame[start..end]
}

// A side at a level.
pub(crate) fn side_at(side: usize, level: usize) -> usize
    requires { level ≤ 12 }
    ensures { result ≡ side_at level side }
{
    side >> level
}
