// take_apart, put_together, planes. The mosaic or the planes are loaded; the numbers go on with the size.
use super::number_agrees;
use mosaic::{MosaicError, Planes};
use replay::answers::listed;
use replay::{at, marked, rest, same};

// The buffer as the call left it, of which it was lent `len` bytes: the others still have the mark, and all where it is refused.
fn buffer_agrees(
    numbers: &[u64],
    answer: Result<(), MosaicError>,
    buffer: &[u8],
    len: usize,
) -> bool {
    if len > buffer.len() {
        return false;
    }
    match answer {
        Ok(()) => { listed(numbers, &buffer[..len]) && marked(&buffer[len..]) }
        Err(e) => number_agrees(numbers, e.number()) && marked(buffer),
    }
}

// A call that moves samples, whose buffer is cut as the line says.
fn moved<F: Fn(&[u8], usize, usize, &mut [u8]) -> Result<(), MosaicError>>(
    numbers: &[u64],
    samples: &[u8],
    buffer: &mut [u8],
    call: F,
) -> bool
    requires { F.IsAlwaysCallable call }
{
    let len = at(numbers, 2);
    if len > buffer.len() {
        return false;
    }
    let answer = call(samples, at(numbers, 0), at(numbers, 1), &mut buffer[..len]);
    buffer_agrees(rest(numbers, 3), answer, buffer, len)
}

pub(crate) fn take_apart(numbers: &[u64], mosaic: &[u8], planes: &mut [u8]) -> bool {
    moved(numbers, mosaic, planes, mosaic::take_apart)
}

pub(crate) fn put_together(numbers: &[u64], planes: &[u8], mosaic: &mut [u8]) -> bool {
    moved(numbers, planes, mosaic, mosaic::put_together)
}

// The numbers are 0 and three lists of four behind their lengths: starts, widths and heights.
fn planes_agree(numbers: &[u64], planes: Planes) -> bool {
    let list = [
        0,
        4,
        planes.even_even.start,
        planes.even_odd.start,
        planes.odd_even.start,
        planes.odd_odd.start,
        4,
        planes.even_even.width,
        planes.even_odd.width,
        planes.odd_even.width,
        planes.odd_odd.width,
        4,
        planes.even_even.height,
        planes.even_odd.height,
        planes.odd_even.height,
        planes.odd_odd.height,
    ];
    same(numbers, &list)
}

pub(crate) fn planes(numbers: &[u64]) -> bool {
    match mosaic::layout(at(numbers, 0), at(numbers, 1)) {
        Ok(planes) => planes_agree(rest(numbers, 2), planes),
        Err(e) => number_agrees(rest(numbers, 2), e.number()),
    }
}
