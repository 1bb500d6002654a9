// shrink2. The samples are loaded; the numbers go on with the width.
use replay::answers::{bytes_agree, mode};
use replay::{at, marked, rest};

pub(crate) fn shrink2(numbers: &[u64], samples: &[u8], halved: &mut [u8]) -> bool {
    let out = at(numbers, 3);
    if out > halved.len() {
        return false;
    }
    let answer = mtb_align::shrink::shrink2(
        samples,
        at(numbers, 0),
        at(numbers, 1),
        mode(at(numbers, 2)),
        &mut halved[..out],
    );
    bytes_agree(rest(numbers, 4), answer, &halved[..out]) && marked(&halved[out..])
}
