// disagreement
use super::geometry::shift_at;
use super::{BITMAP, numbers_agree};
use replay::{at, part, rest};

// The reference's bitmaps come first, then its width and height, the target's bitmaps, its width and height, and the shift.
pub(crate) fn disagreement(numbers: &[u64]) -> bool {
    let m = at(numbers, 0);
    if m > BITMAP {
        return false;
    }
    let n = at(numbers, 1 + m);
    if n > BITMAP {
        return false;
    }
    target_counted(
        rest(numbers, 2 + m + n),
        part(numbers, 1, m),
        part(numbers, 2 + m, n),
    )
}

// The numbers go on with the reference's width.
fn target_counted(numbers: &[u64], rt: &[u64], re: &[u64]) -> bool {
    let m = at(numbers, 2);
    if m > BITMAP {
        return false;
    }
    let n = at(numbers, 3 + m);
    if n > BITMAP {
        return false;
    }
    let last = rest(numbers, 4 + m + n);
    let answer = mtb_align::difference::disagreement(
        rt,
        re,
        at(numbers, 0),
        at(numbers, 1),
        part(numbers, 3, m),
        part(numbers, 4 + m, n),
        at(last, 0),
        at(last, 1),
        shift_at(rest(last, 2)),
    );
    numbers_agree(
        rest(last, 4),
        answer.map(|counts| [0, counts.disagreeing, counts.compared]),
    )
}
