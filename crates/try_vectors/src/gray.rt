// from_rgb. The RGB bytes are loaded; the numbers go on with the width.
use replay::answers::bytes_agree;
use replay::{at, marked, rest};

pub(crate) fn from_rgb(numbers: &[u64], rgb: &[u8], gray: &mut [u8]) -> bool {
    let out = at(numbers, 2);
    if out > gray.len() {
        return false;
    }
    let answer = mtb_align::gray::from_rgb(rgb, at(numbers, 0), at(numbers, 1), &mut gray[..out]);
    bytes_agree(rest(numbers, 3), answer, &gray[..out]) && marked(&gray[out..])
}
