// The levels of a frame, and the scratch of a step.
ghost use Rattle.std.specs.Prelude.{◌≡◌, cond, List, [], ◌++◌, ℕ, length, take, drop};
ghost use Rattle.definitions.specs.Shrink.{average, subsample, halved_samples, pyramid, level_part, LevelPlace, nowhere, place_of};
ghost use Rattle.definitions.specs.Align.{levels as levels_of, step_bytes, step_words};
ghost use Rattle.definitions.specs.Refusals.{Check, answer, after, pyramid_checks, need_checks};
ghost use Rattle.mtb_c.specs.Status.{status_of};

use super::frames::{mode, status};

/// The halved levels of a frame, one after another from the scratch's start.
#[unsafe(no_mangle)]
pub extern "C" fn mtb_pyramid(
    samples: &[u8],
    width: usize,
    height: usize,
    bits: u32,
    subsampled: bool,
    scratch: &mut [u8],
) -> u32
    ensures { (let n : ℕ = levels_of width height bits in
        let halved : List ℕ = pyramid (cond subsampled subsample average) width height samples.now n in
        let checks : List Check = pyramid_checks width height (length samples.now) bits (length scratch.old) in
        (result ≡ status_of (answer checks (tt {0})))
        × (scratch.new ≡ after checks (halved ++ drop (halved_samples width height n) scratch.old) scratch.old)) }
{
    status(mtb_align::levels::pyramid(samples, width, height, bits, mode(subsampled), scratch))
}

/// Level k as a part of the frame or of the scratch: how many samples it has, and into the slots which of the two and where it starts.
/// It has none past the last level and where 1, 2 or 7 holds.
#[unsafe(no_mangle)]
pub extern "C" fn mtb_level(
    frame: &[u8],
    width: usize,
    height: usize,
    bits: u32,
    scratch: &[u8],
    k: usize,
    in_scratch: &mut bool,
    start: &mut usize,
) -> usize
    ensures { (let n : ℕ = levels_of width height bits in
        let checks : List Check = pyramid_checks width height (length frame.now) bits (length scratch.now) in
        let place : LevelPlace = after checks (place_of width height n k) nowhere in
        let list : List ℕ = cond in_scratch.new scratch.now frame.now in
        (result ≡ place.samples)
        × (in_scratch.new ≡ place.in_scratch)
        × (start.new ≡ place.start)
        × (after checks (level_part width height n frame.now scratch.now k) [] ≡ take result (drop start.new list))) }
{
    let place = mtb_align::levels::level_place(frame.len(), width, height, bits, scratch.len(), k);
    *in_scratch = place.in_scratch;
    *start = place.start;
    place.samples
}

/// The bytes and the words of scratch that a step needs.
#[unsafe(no_mangle)]
pub extern "C" fn mtb_scratch(
    width: usize,
    height: usize,
    bits: u32,
    bytes: &mut usize,
    words: &mut usize,
) -> u32
    ensures status { result ≡ status_of (answer (need_checks width height) (tt {0})) }
    ensures bytes { bytes.new ≡ after (need_checks width height) (step_bytes width height bits) bytes.old }
    ensures words { words.new ≡ after (need_checks width height) (step_words width height) words.old }
{
    match mtb_align::checks::scratch_needed(width, height, bits) {
        Ok(n) => {
            *bytes = n.bytes;
            *words = n.words;
            0
        }
        Err(e) => e.number(),
    }
}
