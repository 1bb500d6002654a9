// The images of a file as a stack: widths, heights and joined samples, as the aligner takes them.
ghost use Rattle.std.specs.Prelude.{◌≡◌, List, ℕ, ◌≤◌, length};
ghost use Rattle.definitions.specs.Refusals.{Check, accepted, answer, after};
ghost use Rattle.pgm_format.specs.Pgm as format;
ghost use Rattle.pgm_format.specs.Pgm.{read_checks, image_read};
ghost use Rattle.pgm_format.specs.Stack.{images_from, next_from, images_checks, widths_of, heights_of, joined_samples, read_stack_checks, read_stack};
ghost use Rattle.pgm.specs.Answers.{image_in, run_in, answered};

use super::{Image, PgmError, put_samples, read};

// What a stack has no more of.
const MOST_FRAMES: usize = 16;

// How many samples the images of a run have, and the place behind them.
#[derive(Clone, Copy)]
pub(crate) struct Extent {
    samples: usize,
    next: usize,
}

// Reads n images from a place on, and keeps none.
fn read_run(file: &[u8], at: usize, n: usize) -> Result<Extent, PgmError>
    requires { n ≤ 16 }
    ensures { answered run_in result ≡ answer (images_checks file.now at n)
        (record { samples = length (joined_samples file.now (images_from file.now at n)); next = next_from file.now at n }) }
{
    let mut samples = 0;
    let mut next = at;
    for _ in 0..n {
        let image = read(file, next)?;
        samples += image.next - image.start;
        next = image.next;
    }
    if next > file.len() {
        return Err(PgmError::Header);
    }
    Ok(Extent { samples, next })
}

// The image at a place where one was read before.
fn image_at(file: &[u8], at: usize) -> Image
    requires { answer (read_checks file.now at) (tt {0}) ≡ accepted tt }
    ensures { image_in result ≡ image_read file.now at }
{
    read(file, at).unwrap()
}

// Lays out the images of a run that was read before.
// By number: of two lists written side by side, by `zip` of their `iter_mut`s, a proof knows no element after.
fn lay(file: &[u8], at: usize, widths: &mut [usize], heights: &mut [usize], samples: &mut [u8])
    requires { (length heights.old ≡ length widths.old)
        × (answer (images_checks file.now at (length widths.old)) (tt {0}) ≡ accepted tt)
        × (length samples.old ≡ length (joined_samples file.now (images_from file.now at (length widths.old)))) }
    ensures widths { widths.new ≡ widths_of (images_from file.now at (length widths.old)) }
    ensures heights { heights.new ≡ heights_of (images_from file.now at (length widths.old)) }
    ensures samples { samples.new ≡ joined_samples file.now (images_from file.now at (length widths.old)) }
{
    let mut place = at;
    let mut from = 0;
    for k in 0..widths.len() {
        let image = image_at(file, place);
        widths[k] = image.width;
        heights[k] = image.height;
        let part = image.samples(file);
        put_samples(samples, from, part);
        from += part.len();
        place = image.next;
    }
}

/// Lays the images from a place on out as a stack, as many as there are widths; answers the place behind the last one.
/// `Frames` if there are more than 16 widths or heights; `Length` if there are not as many heights as widths; then as the first image that
/// `read` refuses, or `Header` if the place is past the end of the file; then `Length` if the images have not as many samples as there is
/// room for.
pub fn read_stack(
    file: &[u8],
    at: usize,
    widths: &mut [usize],
    heights: &mut [usize],
    samples: &mut [u8],
) -> Result<usize, PgmError>
    ensures { (let n : ℕ = length widths.old in
        let checks : List Check = read_stack_checks file.now at n (length heights.old) (length samples.old) in
        let images : List format.Image = images_from file.now at n in
        (answered (λ next. next) result ≡ read_stack file.now at n (length heights.old) (length samples.old))
        × (widths.new ≡ after checks (widths_of images) widths.old)
        × (heights.new ≡ after checks (heights_of images) heights.old)
        × (samples.new ≡ after checks (joined_samples file.now images) samples.old)) }
{
    let n = widths.len();
    if n > MOST_FRAMES || heights.len() > MOST_FRAMES {
        return Err(PgmError::Frames);
    }
    if heights.len() != n {
        return Err(PgmError::Length);
    }
    let run = read_run(file, at, n)?;
    if samples.len() != run.samples {
        return Err(PgmError::Length);
    }
    lay(file, at, widths, heights, samples);
    Ok(run.next)
}
