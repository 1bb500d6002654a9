// doubled, offset, shifted, common_crop.
use super::{FRAMES, numbers_agree};
use mtb_align::error::Error;
use mtb_align::geometry::Shift;
use replay::answers::{bytes_agree, refusal_agrees};
use replay::{at, coordinate, load, marked, part, rest, same, same_coordinates};

fn shift_agrees(numbers: &[u64], answer: Result<Shift, Error>) -> bool {
    match answer {
        Ok(s) => {
            same(part(numbers, 0, 1), &[0u64]) && same_coordinates(rest(numbers, 1), &[s.x, s.y])
        }
        Err(e) => refusal_agrees(numbers, e),
    }
}

// The shift that the numbers begin with.
pub(crate) fn shift_at(numbers: &[u64]) -> Shift {
    Shift {
        x: coordinate(numbers, 0),
        y: coordinate(numbers, 1),
    }
}

pub(crate) fn doubled(numbers: &[u64]) -> bool {
    let s = shift_at(numbers);
    shift_agrees(rest(numbers, 2), s.doubled())
}

pub(crate) fn offset(numbers: &[u64]) -> bool {
    let s = shift_at(numbers);
    let x = coordinate(numbers, 2);
    let y = coordinate(numbers, 3);
    shift_agrees(rest(numbers, 4), s.offset(x, y))
}

// The samples are loaded; the numbers go on with the width.
pub(crate) fn shifted(numbers: &[u64], samples: &[u8], moved: &mut [u8]) -> bool {
    let out = at(numbers, 4);
    if out > moved.len() {
        return false;
    }
    let answer = mtb_align::geometry::shifted(
        samples,
        at(numbers, 0),
        at(numbers, 1),
        shift_at(rest(numbers, 2)),
        &mut moved[..out],
    );
    bytes_agree(rest(numbers, 5), answer, &moved[..out]) && marked(&moved[out..])
}

pub(crate) fn common_crop(numbers: &[u64]) -> bool {
    let len = at(numbers, 0);
    if len > 2 * FRAMES {
        return false;
    }
    let mut shifts = [0; 2 * FRAMES];
    load(part(numbers, 1, len), &mut shifts);
    let answer = mtb_align::geometry::common_crop(
        &shifts[..len],
        at(numbers, 1 + len),
        at(numbers, 2 + len),
    );
    numbers_agree(
        rest(numbers, 3 + len),
        answer.map(|crop| [0, crop.x, crop.y, crop.width, crop.height]),
    )
}
