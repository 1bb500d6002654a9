// The search over the nine, the step of two frames, and the stack. What the original has beside these in align.rs stands in levels.rt
// (levels and pyramids) and walk.rt (the walk over a stack); the checks of all calls are in checks.rt.
ghost use Rattle.std.specs.Prelude.{◌≡◌, cond, ◌-◌, ◌≤◌, ltb, length, ◌<◌, get_or};
ghost use Rattle.definitions.specs.Geometry.{offset, doubled, origin};
ghost use Rattle.definitions.specs.Align.{candidates, refined, stepped_at, step_bytes, step_words};
ghost use Rattle.definitions.specs.Refusals.{FreeUpTo};
ghost use Rattle.laws.specs.search.StepBounds.{Within};
ghost use Rattle.mtb_align.specs.Answers.{answered, shift_in, stepped_in};
ghost use Rattle.mtb_align.specs.Asked.{itself, StepPromise, StackPromise};
ghost use Rattle.mtb_align.specs.declared.shrink.Shrink.TheVariants.{Average, Subsample};
ghost use Rattle.mtb_align.specs.Levelled.{Levelled};
ghost use Rattle.mtb_align.specs.Packed.{cost_of};
ghost use Rattle.mtb_align.specs.Search.{options_in, costs_in, stepped_of};

use super::bitmap::words_per_row;
use super::checks::{stack_fits, step_fits};
use super::error::Error;
use super::geometry::Shift;
use super::levels::{fill, halved_samples, shrinks, side_at};
use super::packed::Packed;
use super::pair::Pair;
use super::pairs::pack_both;
use super::shrink::Shrink;
use super::sides::Sides;
use super::stack::Stack;
use super::walk::walk;

/// How the search is run, for all frames alike.
#[derive(Clone, Copy, Debug, PartialEq, Eq)]
pub struct Options {
    /// A frame is halved at most `bits` - 1 times, and not at all with 0.
    pub bits: u32,
    /// A sample is compared if it lies further than this from its frame's cut.
    pub tolerance: u8,
    /// How a level is halved.
    pub shrink: Shrink,
}

/// A step, in pixels of the frames, and how many comparisons it took.
#[derive(Clone, Copy, Debug, PartialEq, Eq)]
pub struct Step {
    pub shift: Shift,
    pub comparisons: u64,
}

impl Default for Options {
    ghost is_default = { λ o. (o.bits ≡ 6) × (o.tolerance ≡ 4) × (o.shrink ≡ Average) };

    /// Six bits, Ward's figure for frames of three megapixels, a tolerance of 4, and the mean of each block.
    fn default() -> Options {
        Options {
            bits: 6,
            tolerance: 4,
            shrink: Shrink::Average,
        }
    }
}

impl Options {
    /// The conventions that OpenCV's `AlignMTB` uses, for comparing against it: the default's with the upper left sample of each block.
    pub fn opencv() -> Options
        ensures { (result.bits ≡ 6) × (result.tolerance ≡ 4) × (result.shrink ≡ Subsample) }
    {
        Options {
            shrink: Shrink::Subsample,
            ..Self::default()
        }
    }
}

// Ward's nine, centre first, so that a tie stays at the centre.
const CANDIDATES: [(i32, i32); 9] = [
    (0, 0),
    (-1, -1),
    (-1, 0),
    (-1, 1),
    (0, -1),
    (0, 1),
    (1, -1),
    (1, 0),
    (1, 1),
];

// Offset i of the nine.
fn offset_of(i: usize) -> Shift
    requires { i < 9 }
    ensures { shift_in result ≡ get_or candidates i origin }
{
    let (x, y) = CANDIDATES[i];
    Shift { x, y }
}

// The sum of two shifts that are far from the limits of i32. `Within 1048576` is no type: the sums are of other shifts at each call.
pub(crate) fn summed(a: Shift, b: Shift) -> Shift
    requires { Within 1048576 (shift_in a) × Within 1048576 (shift_in b) }
    ensures { shift_in result ≡ offset (shift_in a) (shift_in b) }
{
    a.offset(b.x, b.y).unwrap()
}

// Twice a shift that is far from them.
fn twice(s: Shift) -> Shift
    requires { Within 1048576 (shift_in s) }
    ensures { shift_in result ≡ doubled (shift_in s) }
{
    s.doubled().unwrap()
}

// A shift with its disagreement.
#[derive(Clone, Copy)]
struct Candidate {
    shift: Shift,
    error: u64,
}

// The best so far, or a later shift that disagrees in fewer pixels.
fn better(best: Candidate, shift: Shift, error: u64) -> Candidate
    ensures { result ≡ cond (ltb error best.error) (record { shift = shift; error = error }) best }
{
    if error < best.error {
        return Candidate { shift, error };
    }
    best
}

// The best of the nine offsets within a pixel of `around`, over two pairs of bitmaps, and how many were tried: no more after a clean
// match, which disagrees in no pixel, since none can beat it.
// `Within 65536` stays a requires: a shift with its bound as a type would be built at each call and taken apart at once.
fn refine(packed: &Packed<'_>, around: Shift) -> Step
    requires { Within 65536 (shift_in around) }
    ensures { stepped_in result ≡ refined (cost_of packed.now) (shift_in around) }
{
    let mut best = Candidate {
        shift: around,
        error: u64::MAX, // more than any count; no Option: from a price that none reaches the clean match is tested once, as in the original
    };
    // Indexed in order, as 01 has the nine; the count is 01's counter in the result.
    let mut made: u64 = 0;
    for i in 0..9 {
        let candidate = summed(around, offset_of(i));
        let counts = packed.counts_at(candidate);
        best = better(best, candidate, counts.disagreeing);
        made += 1;
        if counts.disagreeing == 0 {
            break;
        }
    }
    let shift = best.shift;
    Step {
        shift,
        comparisons: made,
    }
}

// One level: both frames cut and packed, and the best of the nine around a shift.
// Here and below `words` and `bytes` are lent to be written: their room stays a requires, since a struct of `&mut` owes a clause on its loan in each contract.
fn level_step(pair: &Pair<'_>, words: &mut [u64], around: Shift) -> Step
    requires { (step_words pair.now.width pair.now.height ≤ length words.old) × Within 65536 (shift_in around) }
    ensures result_value { stepped_in result ≡ refined (costs_in pair.now 0) (shift_in around) }
    ensures free_up_to { FreeUpTo (step_words pair.now.width pair.now.height) words.old words.new }
{
    let width = pair.width;
    let height = pair.height;
    let n = height * words_per_row(width);
    pack_both(pair, words);
    let packed = Packed {
        words: &words[0..4 * n],
        width,
        height,
    };
    refine(&packed, around)
}

// The best of the nine around a shift at a level of a walk, whose two images are the frames or stand in `bytes`.
fn step_around(
    pair: &Pair<'_>,
    bytes: &[u8],
    words: &mut [u64],
    level: usize,
    last: usize,
    around: Shift,
) -> Step
    requires levelled { Levelled pair.now last bytes.now (length words.old) }
    requires level_le_last { (level ≤ last) × Within 65536 (shift_in around) }
    ensures result_value { stepped_in result ≡ refined (costs_in pair.now level) (shift_in around) }
    ensures free_up_to { FreeUpTo (step_words pair.now.width pair.now.height) words.old words.new }
{
    if level == 0 {
        return level_step(pair, words, around);
    }
    let width = pair.width;
    let height = pair.height;
    let sides = Sides { width, height };
    let start = halved_samples(sides, level - 1);
    let end = halved_samples(sides, level);
    let half = halved_samples(sides, last);
    let behind = half + start;
    let behind_end = half + end;
    let halved = Pair {
        reference: &bytes[start..end],
        target: &bytes[behind..behind_end],
        width: side_at(width, level),
        height: side_at(height, level),
        first: pair.first,
        second: pair.second,
        options: pair.options,
    };
    level_step(&halved, words, around)
}

// The step at a level, and the comparisons made from the last level to it: the best of the nine around twice the step at the next
// coarser level. The reference's halved levels stand in `bytes` from its start, the target's behind them.
fn step_at(pair: &Pair<'_>, bytes: &[u8], words: &mut [u64], level: usize, last: usize) -> Step
    requires levelled { Levelled pair.now last bytes.now (length words.old) }
    requires level_le_last { level ≤ last }
    ensures result_value { stepped_in result ≡ stepped_at (costs_in pair.now) level (last - level) }
    ensures free_up_to { FreeUpTo (step_words pair.now.width pair.now.height) words.old words.new }
{
    if level == last {
        let around = Shift::ZERO;
        return step_around(pair, bytes, words, level, last, around);
    }
    let coarser = step_at(pair, bytes, words, level + 1, last);
    let coarser_shift = coarser.shift;
    let around = twice(coarser_shift);
    let found = step_around(pair, bytes, words, level, last, around);
    let best = found.shift;
    Step {
        shift: best,
        comparisons: coarser.comparisons + found.comparisons,
    }
}

// The step of a target against a reference, in scratch that is long enough.
pub(crate) fn step_of(pair: &Pair<'_>, bytes: &mut [u8], words: &mut [u64]) -> Step
    requires { (step_bytes pair.now.width pair.now.height pair.now.options.bits ≤ length bytes.old)
        × (step_words pair.now.width pair.now.height ≤ length words.old) }
    ensures result_value { stepped_in result ≡ stepped_of pair.now }
    ensures free_up_to { FreeUpTo (step_bytes pair.now.width pair.now.height pair.now.options.bits) bytes.old bytes.new }
    ensures free_up_to_2 { FreeUpTo (step_words pair.now.width pair.now.height) words.old words.new }
{
    let width = pair.width;
    let height = pair.height;
    let options = pair.options;
    let shrink = options.shrink;
    let sides = Sides { width, height };
    let last = shrinks(sides, options.bits);
    let half = halved_samples(sides, last);
    let reference = pair.reference_frame();
    let target = pair.target_frame();
    fill(&reference, last, shrink, bytes, 0);
    fill(&target, last, shrink, bytes, half);
    step_at(pair, bytes, words, 0, last)
}

/// How far the target has to move to sit on the reference, each cut at its own percentile, and how many comparisons that took. Frames
/// are gray, row by row, a byte for each pixel; `bytes` and `words` are scratch, as much as `scratch_needed` says. Refused, with the
/// scratch as it was: `Side` if a side is over 8,192, `Percentile` if one is over 100, `SizeMismatch` with both sizes, `Length` if a
/// frame has not width times height bytes, `Scratch` if a scratch is too short.
pub fn shift(
    reference: &[u8],
    width: usize,
    height: usize,
    percentile: u8,
    target: &[u8],
    target_width: usize,
    target_height: usize,
    target_percentile: u8,
    options: Options,
    bytes: &mut [u8],
    words: &mut [u64],
) -> Result<Step, Error>
    ensures { StepPromise itself
        (record {
          width = width;
          height = height;
          percentile = percentile;
          target_width = target_width;
          target_height = target_height;
          target_percentile = target_percentile;
          reference = reference.now;
          target = target.now;
          options = options_in options;
          bytes = length bytes.old;
          words = length words.old;
        })
        (answered stepped_in result)
        (record { bytes = bytes.old; words = words.old })
        (record { bytes = bytes.new; words = words.new }) }
{
    step_fits(
        width,
        height,
        percentile,
        target_width,
        target_height,
        target_percentile,
        options.bits,
        reference.len(),
        target.len(),
        bytes.len(),
        words.len(),
    )?;
    let pair = Pair {
        reference,
        target,
        width,
        height,
        first: percentile,
        second: target_percentile,
        options,
    };
    Ok(step_of(&pair, bytes, words))
}

// ---- the stack

/// How far each frame has to move to sit on the reference, measured between neighbours, each cut at its own percentile, and added up:
/// `shifts` takes x then y for each frame. The frames stand one behind another in `samples`; `bytes` and `words` are scratch, as much
/// as `scratch_needed` says, and none for one frame. Refused, with all that is lent as it was: `Frames` if there are more than 16
/// widths or heights, `Length` if there are not as many heights and percentiles as widths, `Side` if a side is over 8,192,
/// `Percentile` if one is over 100, `NoSuchReference` with the reference and the number of frames, `FrameMismatch` with both sizes and
/// the frame that is not of its neighbour's, `Length` for `samples` and `shifts`, `Scratch` if a scratch is too short.
pub fn align_stack(
    widths: &[usize],
    heights: &[usize],
    percentiles: &[u8],
    samples: &[u8],
    reference: usize,
    options: Options,
    shifts: &mut [i32],
    bytes: &mut [u8],
    words: &mut [u64],
) -> Result<(), Error>
    ensures { StackPromise itself
        (record {
          widths = widths.now;
          heights = heights.now;
          percentiles = percentiles.now;
          samples = samples.now;
          reference = reference;
          options = options_in options;
          shifts = length shifts.old;
          bytes = length bytes.old;
          words = length words.old;
        })
        (answered (λ done. done) result)
        (record { shifts = shifts.old; bytes = bytes.old; words = words.old })
        (record { shifts = shifts.new; bytes = bytes.new; words = words.new }) }
{
    stack_fits(
        widths,
        heights,
        percentiles,
        reference,
        options.bits,
        samples.len(),
        shifts.len(),
        bytes.len(),
        words.len(),
    )?;
    let stack = Stack {
        percentiles,
        samples,
        width: widths[0],
        height: heights[0],
        reference,
        options,
    };
    walk(&stack, shifts, bytes, words);
    Ok(())
}
