// threshold, compute_bitmaps. The samples are loaded; the numbers go on with the width.
use super::{BITMAP, numbers_agree};
use mtb_align::error::Error;
use replay::answers::{byte, listed, refusal_agrees};
use replay::{MARK_WORD, at, marked, part, rest, same};

pub(crate) fn threshold(numbers: &[u64], samples: &[u8]) -> bool {
    let answer = mtb_align::threshold::threshold(
        samples,
        at(numbers, 0),
        at(numbers, 1),
        byte(at(numbers, 2)),
    );
    numbers_agree(rest(numbers, 3), answer.map(|cut| [0, u64::from(cut)]))
}

// The answer is both bitmaps, or a refusal, after which both still have the mark.
fn bitmaps_agree(
    numbers: &[u64],
    answer: Result<(), Error>,
    threshold: &[u64],
    exclusion: &[u64],
) -> bool {
    let first = threshold.len();
    if first > BITMAP {
        return false;
    }
    match answer {
        Ok(()) => {
            listed(part(numbers, 0, 2 + first), threshold)
                && same(part(numbers, 2 + first, 1), &[exclusion.len()])
                && same(rest(numbers, 3 + first), exclusion)
        }
        Err(e) => { refusal_agrees(numbers, e) && marked(threshold) && marked(exclusion) }
    }
}

fn computed(numbers: &[u64], samples: &[u8], threshold: &mut [u64], exclusion: &mut [u64]) -> bool {
    let answer = mtb_align::threshold::compute_bitmaps(
        samples,
        at(numbers, 0),
        at(numbers, 1),
        byte(at(numbers, 2)),
        byte(at(numbers, 3)),
        threshold,
        exclusion,
    );
    bitmaps_agree(rest(numbers, 6), answer, threshold, exclusion)
}

// The lists are longer than the bitmaps, and marked.
fn bitmaps_in(
    numbers: &[u64],
    samples: &[u8],
    threshold: &mut [u64],
    exclusion: &mut [u64],
) -> bool {
    let first = at(numbers, 4);
    if first > threshold.len().min(BITMAP) {
        return false;
    }
    let second = at(numbers, 5);
    if second > exclusion.len().min(BITMAP) {
        return false;
    }
    computed(
        numbers,
        samples,
        &mut threshold[..first],
        &mut exclusion[..second],
    ) && marked(&threshold[first..])
        && marked(&exclusion[second..])
}

pub(crate) fn compute_bitmaps(numbers: &[u64], samples: &[u8]) -> bool {
    let mut threshold = [MARK_WORD; BITMAP];
    let mut exclusion = [MARK_WORD; BITMAP];
    bitmaps_in(numbers, samples, &mut threshold, &mut exclusion)
}
