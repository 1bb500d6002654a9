// pyramid, level, shift, align_stack. The samples, of a step the reference's, are loaded; of one frame the numbers go on with the width.
use super::{FRAMES, SAMPLES, SCRATCH, SCRATCH_WORDS, Stack};
use mtb_align::align::Step;
use mtb_align::error::Error;
use replay::answers::{
    bits32, byte, bytes_agree, listed, mode, options, past_marked, refusal_agrees,
};
use replay::{
    MARK, MARK_COORDINATE, MARK_WORD, at, load, marked, part, rest, same, same_coordinates,
};

fn built(numbers: &[u64], samples: &[u8], scratch: &mut [u8]) -> Result<(), Error> {
    mtb_align::levels::pyramid(
        samples,
        at(numbers, 0),
        at(numbers, 1),
        bits32(at(numbers, 2)),
        mode(at(numbers, 3)),
        scratch,
    )
}

// The scratch begins with what the line lists, and is as before where the call is refused.
pub(crate) fn pyramid(numbers: &[u64], samples: &[u8], scratch: &mut [u8]) -> bool {
    let len = at(numbers, 4);
    if len > scratch.len() {
        return false;
    }
    let listed = at(numbers, 6);
    if listed > scratch.len() {
        return false;
    }
    let answer = built(numbers, samples, &mut scratch[..len]);
    bytes_agree(rest(numbers, 5), answer, &scratch[..listed]) && marked(&scratch[listed..])
}

// The scratch is loaded; the numbers go on with the width.
fn level_in<'a>(
    numbers: &[u64],
    frame: &'a [u8],
    scratch: &'a [u8],
    k: usize,
    answer: &[u64],
) -> bool {
    let found = mtb_align::levels::level(
        frame,
        at(numbers, 0),
        at(numbers, 1),
        bits32(at(numbers, 2)),
        scratch,
        k,
    );
    listed(answer, found)
}

pub(crate) fn level(numbers: &[u64], frame: &[u8]) -> bool {
    let len = at(numbers, 3);
    if len > SAMPLES {
        return false;
    }
    let mut scratch = [0; SAMPLES];
    load(part(numbers, 4, len), &mut scratch);
    level_in(
        numbers,
        frame,
        &scratch[..len],
        at(numbers, 4 + len),
        rest(numbers, 5 + len),
    )
}

fn step_agrees(numbers: &[u64], answer: Result<Step, Error>) -> bool {
    match answer {
        Ok(s) => {
            same(part(numbers, 0, 1), &[0u64])
                && same_coordinates(part(numbers, 1, 2), &[s.shift.x, s.shift.y])
                && same(rest(numbers, 3), &[s.comparisons])
        }
        Err(e) => refusal_agrees(numbers, e),
    }
}

// A frame as a step is lent it.
#[derive(Clone, Copy)]
struct Frame<'a> {
    samples: &'a [u8],
    width: usize,
    height: usize,
    percentile: u8,
}

// A frame of these samples, whose size and percentile the numbers begin with.
fn frame_of<'a>(numbers: &[u64], samples: &'a [u8]) -> Frame<'a> {
    Frame {
        samples,
        width: at(numbers, 0),
        height: at(numbers, 1),
        percentile: byte(at(numbers, 2)),
    }
}

// The numbers go on with the options. The scratch is cut as the line says, and stays two parameters: it is lent to be written.
fn stepped(
    numbers: &[u64],
    reference: Frame<'_>,
    target: Frame<'_>,
    scratch: &mut [u8],
    words: &mut [u64],
) -> bool {
    let answer = mtb_align::align::shift(
        reference.samples,
        reference.width,
        reference.height,
        reference.percentile,
        target.samples,
        target.width,
        target.height,
        target.percentile,
        options(numbers),
        scratch,
        words,
    );
    step_agrees(rest(numbers, 7), answer) && past_marked(part(numbers, 5, 2), scratch, words)
}

fn step_in(numbers: &[u64], reference: Frame<'_>, target: Frame<'_>) -> bool {
    let len = at(numbers, 3);
    if len > SCRATCH {
        return false;
    }
    let count = at(numbers, 4);
    if count > SCRATCH_WORDS {
        return false;
    }
    let mut scratch = [MARK; SCRATCH];
    let mut words = [MARK_WORD; SCRATCH_WORDS];
    stepped(
        numbers,
        reference,
        target,
        &mut scratch[..len],
        &mut words[..count],
    )
}

// The reference's samples are loaded; the numbers go on with its width, and then with the target's samples.
pub(crate) fn shift(numbers: &[u64], reference: &[u8]) -> bool {
    let len = at(numbers, 3);
    if len > SAMPLES {
        return false;
    }
    let mut target = [0; SAMPLES];
    load(part(numbers, 4, len), &mut target);
    let last = rest(numbers, 4 + len);
    step_in(
        rest(last, 3),
        frame_of(numbers, reference),
        frame_of(last, &target[..len]),
    )
}

// The answer is the shifts, or a refusal, after which the shift list still has the mark.
fn shifts_agree(numbers: &[u64], answer: Result<(), Error>, shifts: &[i32]) -> bool {
    match answer {
        Ok(()) => {
            same(part(numbers, 0, 2), &[0, shifts.len()])
                && same_coordinates(rest(numbers, 2), shifts)
        }
        Err(e) => refusal_agrees(numbers, e) && marked(shifts),
    }
}

// The numbers go on with the reference. The shift list and the scratch are cut as the line says, and stay parameters: they are lent to be written.
fn aligned(
    numbers: &[u64],
    stack: Stack<'_>,
    shifts: &mut [i32],
    scratch: &mut [u8],
    words: &mut [u64],
) -> bool {
    let answer = mtb_align::align::align_stack(
        stack.widths,
        stack.heights,
        stack.percentiles,
        stack.samples,
        at(numbers, 0),
        options(rest(numbers, 1)),
        shifts,
        scratch,
        words,
    );
    shifts_agree(rest(numbers, 9), answer, shifts)
        && past_marked(part(numbers, 7, 2), scratch, words)
}

pub(crate) fn align_stack(numbers: &[u64], stack: Stack<'_>) -> bool {
    let n = at(numbers, 4);
    if n > 2 * FRAMES {
        return false;
    }
    let len = at(numbers, 5);
    if len > SCRATCH {
        return false;
    }
    let count = at(numbers, 6);
    if count > SCRATCH_WORDS {
        return false;
    }
    let mut shifts = [MARK_COORDINATE; 2 * FRAMES];
    let mut scratch = [MARK; SCRATCH];
    let mut words = [MARK_WORD; SCRATCH_WORDS];
    aligned(
        numbers,
        stack,
        &mut shifts[..n],
        &mut scratch[..len],
        &mut words[..count],
    )
}
