// The step of two frames and the stack.
ghost use Rattle.std.specs.Prelude.{◌≡◌, length};
ghost use Rattle.definitions.specs.Refusals.{answer, after};
ghost use Rattle.mtb_align.specs.Asked.{StepAsked, StackAsked, checks_of_step, step_asked, checks_of_stack, StepPromise, StackPromise};
ghost use Rattle.mtb_c.specs.Status.{status_of, values_after, options_of};

use super::frames::mode;
use super::refusals::{put_values, status_with};
use mtb_align::align::Options;

/// The step and its comparisons. Refusal 4 gives both sizes.
#[unsafe(no_mangle)]
pub extern "C" fn mtb_shift(
    reference: &[u8],
    width: usize,
    height: usize,
    percentile: u8,
    target: &[u8],
    target_width: usize,
    target_height: usize,
    target_percentile: u8,
    bits: u32,
    tolerance: u8,
    subsampled: bool,
    bytes: &mut [u8],
    words: &mut [u64],
    x: &mut i32,
    y: &mut i32,
    comparisons: &mut u64,
    values: &mut [usize; 5],
) -> u32
    ensures { (let a : StepAsked = record {
      width = width;
      height = height;
      percentile = percentile;
      target_width = target_width;
      target_height = target_height;
      target_percentile = target_percentile;
      reference = reference.now;
      target = target.now;
      options = options_of bits tolerance subsampled;
      bytes = length bytes.old;
      words = length words.old;
    } in
        StepPromise status_of a result
        (record { bytes = bytes.old; words = words.old })
        (record { bytes = bytes.new; words = words.new })
        × (x.new ≡ after (checks_of_step a) (step_asked a).shift.x x.old)
        × (y.new ≡ after (checks_of_step a) (step_asked a).shift.y y.old)
        × (comparisons.new ≡ after (checks_of_step a) (step_asked a).comparisons comparisons.old)
        × (values.new ≡ values_after (answer (checks_of_step a) (tt {0})) values.old)) }
{
    let options = Options {
        bits,
        tolerance,
        shrink: mode(subsampled),
    };
    match mtb_align::align::shift(
        reference,
        width,
        height,
        percentile,
        target,
        target_width,
        target_height,
        target_percentile,
        options,
        bytes,
        words,
    ) {
        Ok(s) => {
            let across = s.shift.x;
            let down = s.shift.y;
            *x = across;
            *y = down;
            *comparisons = s.comparisons;
            0
        }
        Err(e) => {
            put_values(e, values);
            e.number()
        }
    }
}

#[unsafe(no_mangle)]
pub extern "C" fn mtb_align_stack(
    widths: &[usize],
    heights: &[usize],
    percentiles: &[u8],
    samples: &[u8],
    reference: usize,
    bits: u32,
    tolerance: u8,
    subsampled: bool,
    shifts: &mut [i32],
    bytes: &mut [u8],
    words: &mut [u64],
    values: &mut [usize; 5],
) -> u32
    ensures { (let a : StackAsked = record {
      widths = widths.now;
      heights = heights.now;
      percentiles = percentiles.now;
      samples = samples.now;
      reference = reference;
      options = options_of bits tolerance subsampled;
      shifts = length shifts.old;
      bytes = length bytes.old;
      words = length words.old;
    } in
        StackPromise status_of a result
        (record { shifts = shifts.old; bytes = bytes.old; words = words.old })
        (record { shifts = shifts.new; bytes = bytes.new; words = words.new })
        × (values.new ≡ values_after (answer (checks_of_stack a) (tt {0})) values.old)) }
{
    let options = Options {
        bits,
        tolerance,
        shrink: mode(subsampled),
    };
    status_with(
        mtb_align::align::align_stack(
            widths,
            heights,
            percentiles,
            samples,
            reference,
            options,
            shifts,
            bytes,
            words,
        ),
        values,
    )
}
