// The checks of a pyramid, a step, a stack and a report, each in document 01's order, and the scratch that they ask for.
// Lists as the calls are lent them: nothing is known of them yet that a type could keep.
ghost use Rattle.std.specs.Prelude.{◌≡◌, cond, [], ◌∷◌, map, ◌≤◌, ◌<◌, length, get_or};
ghost use Rattle.definitions.specs.Align.{walk, step_bytes, step_words, step_need};
ghost use Rattle.definitions.specs.Refusals.{accepted, refused, answer, side_over, percentile_over, unequal, pair_differs, pyramid_checks, need_checks, step_checks};
ghost use Rattle.definitions.specs.Refusals.{frames_checks, stack_scratch_checks, stack_checks, survey_checks};
ghost use Rattle.mtb_align.specs.Answers.{answered, need_in};

use super::bitmap::words_per_row;
use super::error::{Error, HIGHEST_PERCENTILE, LONGEST_SIDE, Size, side_over};
use super::levels::{halved_samples, shrinks};
use super::sides::Sides;
use super::walk::{neighbour_of, walked};

const MOST_FRAMES: usize = 16;

const FARTHEST_REACH: u32 = 64;

// Whether a frame is in order, and its halved levels fit the scratch, by their lengths.
#[tactic(auto, using(crate::proofs::Checked::pyramid_checked))]
pub(crate) fn pyramid_fits(
    width: usize,
    height: usize,
    samples: usize,
    bits: u32,
    scratch: usize,
) -> Result<(), Error>
    ensures { answered (λ done. done) result ≡ answer (pyramid_checks width height samples bits scratch) tt }
{
    if side_over(width, height) {
        return Err(Error::Side);
    }
    if samples != width * height {
        return Err(Error::Length);
    }
    let sides = Sides { width, height };
    if scratch < halved_samples(sides, shrinks(sides, bits)) {
        return Err(Error::Scratch);
    }
    Ok(())
}

// Whether two sizes differ.
fn sizes_differ(width: usize, height: usize, other_width: usize, other_height: usize) -> bool
    ensures { result ≡ unequal width height other_width other_height }
{
    width != other_width || height != other_height
}

// Whether a reference, a target and the scratch are in order for a step, by their sizes and lengths.
#[tactic(auto, using(crate::proofs::Checked::step_checked))]
pub(crate) fn step_fits(
    width: usize,
    height: usize,
    percentile: u8,
    target_width: usize,
    target_height: usize,
    target_percentile: u8,
    bits: u32,
    reference: usize,
    target: usize,
    bytes: usize,
    words: usize,
) -> Result<(), Error>
    ensures { answered (λ done. done) result ≡ answer
        (step_checks width height percentile target_width target_height target_percentile bits reference target bytes words) tt }
{
    if side_over(width, height) {
        return Err(Error::Side);
    }
    if side_over(target_width, target_height) {
        return Err(Error::Side);
    }
    if percentile > HIGHEST_PERCENTILE {
        return Err(Error::Percentile);
    }
    if target_percentile > HIGHEST_PERCENTILE {
        return Err(Error::Percentile);
    }
    if sizes_differ(width, height, target_width, target_height) {
        return Err(Error::SizeMismatch(
            Size { width, height },
            Size {
                width: target_width,
                height: target_height,
            },
        ));
    }
    if reference != width * height {
        return Err(Error::Length);
    }
    if target != width * height {
        return Err(Error::Length);
    }
    let sides = Sides { width, height };
    scratch_fits(2, sides, bits, bytes, words)
}

// The bytes of scratch that a step needs.
#[tactic(auto, using(crate::proofs::Checked::needed))]
fn bytes_needed(sides: Sides, bits: u32) -> usize
    ensures { result ≡ step_bytes sides.width sides.height bits }
{
    2 * halved_samples(sides, shrinks(sides, bits))
}

// The words of scratch that a step needs.
#[tactic(auto, using(crate::proofs::Checked::needed))]
fn words_needed(sides: Sides) -> usize
    ensures { result ≡ step_words sides.width sides.height }
{
    4 * (sides.height * words_per_row(sides.width))
}

/// The scratch that a step needs.
#[derive(Clone, Copy, Debug, PartialEq, Eq)]
pub struct Need {
    /// How many bytes, for the halved levels of both frames.
    pub bytes: usize,
    /// How many words, for the four bitmaps of a level.
    pub words: usize,
}

/// The scratch that a step of two frames of `width` by `height` pixels needs under `bits`, in bytes and in words; a stack of two frames
/// or more, and its report, need as much. `Side` if a side is over 8,192.
#[tactic(auto, using(crate::proofs::Checked::scratch_checked))]
pub fn scratch_needed(width: usize, height: usize, bits: u32) -> Result<Need, Error>
    ensures { answered need_in result ≡ answer (need_checks width height) (step_need width height bits) }
{
    if side_over(width, height) {
        return Err(Error::Side);
    }
    let sides = Sides { width, height };
    Ok(Need {
        bytes: bytes_needed(sides, bits),
        words: words_needed(sides),
    })
}

// Whether the scratch is long enough for the steps of n frames, by its lengths: with one frame there is none.
#[tactic(auto, using(crate::proofs::Checked::scratch_checked))]
fn scratch_fits(n: usize, sides: Sides, bits: u32, bytes: usize, words: usize) -> Result<(), Error>
    ensures { answered (λ done. done) result ≡ answer (stack_scratch_checks n sides.width sides.height bits bytes words) tt }
{
    if n <= 1 {
        return Ok(());
    }
    if bytes < bytes_needed(sides, bits) {
        return Err(Error::Scratch);
    }
    if words < words_needed(sides) {
        return Err(Error::Scratch);
    }
    Ok(())
}

// The refusal of a frame that is not of its neighbour's size.
fn mismatch(
    widths: &[usize],
    heights: &[usize],
    neighbour: usize,
    frame: usize,
) -> Result<(), Error>
    requires { (neighbour < length widths.now) × (frame < length widths.now) × (length heights.now ≡ length widths.now) }
    ensures { answered (λ done. done) result ≡ refused 4
        (get_or widths.now neighbour 0 ∷ get_or heights.now neighbour 0
        ∷ get_or widths.now frame 0 ∷ get_or heights.now frame 0 ∷ frame ∷ []) }
{
    Err(Error::FrameMismatch(
        Size {
            width: widths[neighbour],
            height: heights[neighbour],
        },
        Size {
            width: widths[frame],
            height: heights[frame],
        },
        frame,
    ))
}

// Whether each frame is of its neighbour's size, in the order of the walk.
fn pairs_fit(widths: &[usize], heights: &[usize], reference: usize) -> Result<(), Error>
    requires { (reference < length widths.now) × (length heights.now ≡ length widths.now) × (length widths.now ≤ 16) }
    ensures { answered (λ done. done) result ≡ answer (map (pair_differs widths.now heights.now reference) (walk reference (length widths.now))) tt }
{
    let n = widths.len();
    for i in 0..n - 1 {
        let k = walked(reference, n, i);
        let neighbour = neighbour_of(reference, k);
        if sizes_differ(widths[neighbour], heights[neighbour], widths[k], heights[k]) {
            return mismatch(widths, heights, neighbour, k);
        }
    }
    Ok(())
}

// Whether the frames of a stack are in order, by their sizes, their percentiles and the reference.
fn frames_fit(
    widths: &[usize],
    heights: &[usize],
    percentiles: &[u8],
    reference: usize,
) -> Result<(), Error>
    ensures { answered (λ done. done) result ≡ answer (frames_checks widths.now heights.now percentiles.now reference) tt }
{
    if widths.len() > MOST_FRAMES {
        return Err(Error::Frames);
    }
    if heights.len() > MOST_FRAMES {
        return Err(Error::Frames);
    }
    if heights.len() != widths.len() {
        return Err(Error::Length);
    }
    if percentiles.len() != widths.len() {
        return Err(Error::Length);
    }
    if widths.iter().any(|&side| side > LONGEST_SIDE) {
        return Err(Error::Side);
    }
    if heights.iter().any(|&side| side > LONGEST_SIDE) {
        return Err(Error::Side);
    }
    if percentiles.iter().any(|&p| p > HIGHEST_PERCENTILE) {
        return Err(Error::Percentile);
    }
    if reference >= widths.len() {
        return Err(Error::NoSuchReference(reference, widths.len()));
    }
    pairs_fit(widths, heights, reference)
}

// Whether a stack is in order, by its frames and the lengths of its buffers.
#[tactic(auto, using(crate::proofs::Checked::stack_checked))]
pub(crate) fn stack_fits(
    widths: &[usize],
    heights: &[usize],
    percentiles: &[u8],
    reference: usize,
    bits: u32,
    samples: usize,
    shifts: usize,
    bytes: usize,
    words: usize,
) -> Result<(), Error>
    ensures { answered (λ done. done) result ≡ answer
        (stack_checks widths.now heights.now percentiles.now reference bits samples shifts bytes words) tt }
{
    frames_fit(widths, heights, percentiles, reference)?;
    let n = widths.len();
    let width = widths[0];
    let height = heights[0];
    if samples != n * (width * height) {
        return Err(Error::Length);
    }
    if shifts != 2 * n {
        return Err(Error::Length);
    }
    let sides = Sides { width, height };
    scratch_fits(n, sides, bits, bytes, words)
}

// Whether a report is in order up to its scratch, by its frames, its reach and the lengths of its buffers. Beside `stack_fits`: its two
// checks stand before the scratch, in 01's order.
#[tactic(auto, using(crate::proofs::Checked::stack_checked))]
pub(crate) fn report_fits(
    widths: &[usize],
    heights: &[usize],
    percentiles: &[u8],
    reference: usize,
    bits: u32,
    samples: usize,
    shifts: usize,
    verdicts: usize,
    reach: u32,
    bytes: usize,
    words: usize,
) -> Result<(), Error>
    ensures { answered (λ done. done) result ≡ answer
        (survey_checks widths.now heights.now percentiles.now reference bits samples shifts verdicts reach
        bytes words) tt }
{
    frames_fit(widths, heights, percentiles, reference)?;
    let n = widths.len();
    let width = widths[0];
    let height = heights[0];
    if samples != n * (width * height) {
        return Err(Error::Length);
    }
    if shifts != 2 * n {
        return Err(Error::Length);
    }
    if verdicts != n {
        return Err(Error::Length);
    }
    if reach > FARTHEST_REACH {
        return Err(Error::Reach);
    }
    let sides = Sides { width, height };
    scratch_fits(n, sides, bits, bytes, words)
}
