// Halving: the mean of each block of four, or its upper left sample.
ghost use Rattle.std.specs.Prelude.{◌≡◌, ℕ, ◌+◌, ◌*◌, ◌/◌, ◌%◌, ◌≤◌, ◌<◌, length, get_or};
ghost use Rattle.std.proofs.lemmas.List.Edits.{sets};
ghost use Rattle.definitions.specs.Build.{build};
ghost use Rattle.definitions.specs.Shrink as halving;
ghost use Rattle.definitions.specs.Shrink.{average, subsample, halved_sample, shrink2};
ghost use Rattle.definitions.specs.Refusals.{answer, after, shrink_checks};
ghost use Rattle.mtb_align.specs.Answers.{answered, mode_of};
ghost use Rattle.mtb_align.specs.Blocks.{block_sample};

use super::error::{Error, side_over};
use super::frame::Gray;

/// How a level of the pyramid is halved.
#[derive(Clone, Copy, Debug, PartialEq, Eq)]
pub enum Shrink {
    Average,
    Subsample,
}

// What a mode makes of a block, by its two rows, each two samples side by side in one number. A type for each mode, so that each
// has a loop of its own: a test at each row took 1.23 of the time.
trait Halving {
    ghost mode: { halving.Shrink };

    fn sample(top: u16, bottom: u16) -> u8
        ensures { result ≡ block_sample mode top bottom };
}

// The mean of the four samples, taken apart by `% 256` and `/ 256` as the clause of `side_by_side` has them.
struct Mean;

impl Halving for Mean {
    ghost mode = { average };

    #[tactic(auto, unfolding(crate::specs::Blocks::block_sample, definitions::specs::Shrink::mean))]
    fn sample(top: u16, bottom: u16) -> u8 {
        ((top % 256 + top / 256 + bottom % 256 + bottom / 256 + 2) / 4) as u8
    }
}

// The upper left sample.
struct UpperLeft;

impl Halving for UpperLeft {
    ghost mode = { subsample };

    #[tactic(auto, unfolding(crate::specs::Blocks::block_sample))]
    fn sample(top: u16, _bottom: u16) -> u8 {
        (top % 256) as u8
    }
}

// Two samples side by side in one number, the left one below. LLVM makes one load of it before it sees the callers, and a row of
// such loads is read by vectors; single samples at every second place are not.
fn side_by_side(samples: &[u8], at: usize) -> u16
    requires { at + 2 ≤ length samples.now }
    ensures { (result % 256 ≡ get_or samples.now at 0) × (result / 256 ≡ get_or samples.now (at + 1) 0) }
{
    samples[at] as u16 + 256 * samples[at + 1] as u16
}

// Row y of the halved frame, written at `at`.
fn halve_row<H: Halving>(samples: &[u8], width: usize, y: usize, out: &mut [u8], at: usize)
    requires { (width ≤ 8192) × (y ≤ 8192) × ((2 * y + 2) * width ≤ length samples.now) × (at + width / 2 ≤ length out.old) }
    ensures { out.new ≡ sets out.old at (build (width / 2) (λ (x : ℕ). halved_sample H.mode samples.now width x y)) }
{
    let top = 2 * y * width;
    let bottom = top + width;
    for x in 0..width / 2 {
        let left = 2 * x;
        out[at + x] = H::sample(
            side_by_side(samples, top + left),
            side_by_side(samples, bottom + left),
        );
    }
}

// The halved frame, written at the start of `out`.
#[tactic(auto, using(crate::proofs::Halves::rows))]
fn halve_rows<H: Halving>(frame: &Gray<'_>, out: &mut [u8])
    requires { frame.now.width / 2 * (frame.now.height / 2) ≤ length out.old }
    ensures { out.new ≡ sets out.old 0 (shrink2 H.mode frame.now.width frame.now.height frame.now.samples.now) }
{
    let samples = frame.samples;
    let width = frame.width;
    let n = width / 2;
    for y in 0..frame.height / 2 {
        halve_row::<H>(samples, width, y, out, y * n);
    }
}

// The halved frame, written at the start of `out`. Here alone the mode is asked for.
pub(crate) fn halve(frame: &Gray<'_>, shrink: Shrink, out: &mut [u8])
    requires { frame.now.width / 2 * (frame.now.height / 2) ≤ length out.old }
    ensures { out.new ≡ sets out.old 0 (shrink2 (mode_of shrink) frame.now.width frame.now.height frame.now.samples.now) }
{
    match shrink {
        Shrink::Average => halve_rows::<Mean>(frame, out),
        Shrink::Subsample => halve_rows::<UpperLeft>(frame, out),
    }
}

/// Both sides halved and rounded down. Refused: `Side`, `Length`.
pub fn shrink2(
    samples: &[u8],
    width: usize,
    height: usize,
    shrink: Shrink,
    shrunk: &mut [u8],
) -> Result<(), Error>
    ensures answer { answered (λ done. done) result ≡ answer (shrink_checks width height (length samples.now) (length shrunk.old)) tt }
    ensures shrunk { shrunk.new
        ≡ after (shrink_checks width height (length samples.now) (length shrunk.old))
        (shrink2 (mode_of shrink) width height samples.now)
        shrunk.old }
{
    if side_over(width, height) {
        return Err(Error::Side);
    }
    if samples.len() != width * height {
        return Err(Error::Length);
    }
    if shrunk.len() != width / 2 * (height / 2) {
        return Err(Error::Length);
    }
    let frame = Gray {
        samples,
        width,
        height,
    };
    halve(&frame, shrink, shrunk);
    Ok(())
}
