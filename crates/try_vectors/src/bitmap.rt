// get, set, count_ones, row. The words stand before; the numbers go on with the width.
use super::{BITMAP, numbers_agree};
use mtb_align::error::Error;
use replay::answers::{listed, refusal_agrees};
use replay::{MARK_WORD, at, load, marked, rest, same};

pub(crate) fn get(numbers: &[u64], map: &[u64]) -> bool {
    let answer = mtb_align::bitmap::get(
        map,
        at(numbers, 0),
        at(numbers, 1),
        at(numbers, 2),
        at(numbers, 3),
    );
    numbers_agree(rest(numbers, 4), answer.map(|set| [0, u64::from(set)]))
}

// The answer is all words of the map as they then are, or a refusal, after which they are as before.
fn map_agrees(numbers: &[u64], answer: Result<(), Error>, before: &[u64], map: &[u64]) -> bool {
    match answer {
        Ok(()) => listed(numbers, map),
        Err(e) => refusal_agrees(numbers, e) && same(before, map),
    }
}

// The map is changed in a longer list, which has the mark past it.
pub(crate) fn set(numbers: &[u64], before: &[u64]) -> bool {
    let len = before.len();
    if len > BITMAP {
        return false;
    }
    let mut map = [MARK_WORD; 2 * BITMAP];
    load(before, &mut map);
    let answer = mtb_align::bitmap::set(
        &mut map[..len],
        at(numbers, 0),
        at(numbers, 1),
        at(numbers, 2),
        at(numbers, 3),
        at(numbers, 4) == 1,
    );
    map_agrees(rest(numbers, 5), answer, before, &map[..len]) && marked(&map[len..])
}

pub(crate) fn count_ones(numbers: &[u64], map: &[u64]) -> bool {
    let answer = mtb_align::bitmap::count_ones(map, at(numbers, 0), at(numbers, 1));
    numbers_agree(rest(numbers, 2), answer.map(|total| [0, total]))
}

pub(crate) fn row(numbers: &[u64], map: &[u64]) -> bool {
    let found = mtb_align::bitmap::row(map, at(numbers, 0), at(numbers, 1), at(numbers, 2));
    listed(rest(numbers, 3), found)
}
