// read_pgm, read_stack, write_pgm. The file or the samples are loaded; the numbers go on with the place or the size.
use super::{FRAMES, SAMPLES, number_agrees};
use pgm::{Image, PgmError};
use replay::answers::listed;
use replay::{at, marked, part, rest, same};

// What untouched sizes hold: what untouched words do.
const MARK_SIZE: usize = 11936128518282651045;

fn image_agrees(numbers: &[u64], image: Image) -> bool {
    same(
        numbers,
        &[0, image.width, image.height, image.start, image.next],
    )
}

pub(crate) fn read_pgm(numbers: &[u64], file: &[u8]) -> bool {
    match pgm::read(file, at(numbers, 0)) {
        Ok(image) => image_agrees(rest(numbers, 1), image),
        Err(e) => number_agrees(rest(numbers, 1), e.number()),
    }
}

// The numbers are 0, the three lists behind their lengths, and the place.
fn stack_agrees(
    numbers: &[u64],
    widths: &[usize],
    heights: &[usize],
    samples: &[u8],
    next: usize,
) -> bool {
    let n = widths.len();
    let m = samples.len();
    if n > FRAMES || m > SAMPLES {
        return false;
    }
    listed(part(numbers, 0, 2 + n), widths)
        && same(part(numbers, 2 + n, 1), &[n])
        && same(part(numbers, 3 + n, n), heights)
        && same(part(numbers, 3 + 2 * n, 1), &[m])
        && same(part(numbers, 4 + 2 * n, m), samples)
        && same(rest(numbers, 4 + 2 * n + m), &[next])
}

// The lists as the call left them, of which it was lent n, m and `len` entries: the others still have the mark, and all where it is refused.
fn lists_agree(
    numbers: &[u64],
    answer: Result<usize, PgmError>,
    widths: &[usize; FRAMES],
    n: usize,
    heights: &[usize; FRAMES],
    m: usize,
    samples: &[u8],
    len: usize,
) -> bool {
    if n > FRAMES || m > FRAMES || len > samples.len() {
        return false;
    }
    match answer {
        Ok(next) => {
            stack_agrees(numbers, &widths[..n], &heights[..m], &samples[..len], next)
                && marked(&widths[n..])
                && marked(&heights[m..])
                && marked(&samples[len..])
        }
        Err(e) => {
            number_agrees(numbers, e.number())
                && marked(widths)
                && marked(heights)
                && marked(samples)
        }
    }
}

// The lists are lent marked, and longer than the line says.
pub(crate) fn read_stack(numbers: &[u64], file: &[u8], samples: &mut [u8]) -> bool {
    let n = at(numbers, 1);
    let m = at(numbers, 2);
    let len = at(numbers, 3);
    if n > FRAMES || m > FRAMES || len > samples.len() {
        return false;
    }
    let mut widths = [MARK_SIZE; FRAMES];
    let mut heights = [MARK_SIZE; FRAMES];
    let answer = pgm::stack::read_stack(
        file,
        at(numbers, 0),
        &mut widths[..n],
        &mut heights[..m],
        &mut samples[..len],
    );
    lists_agree(
        rest(numbers, 4),
        answer,
        &widths,
        n,
        &heights,
        m,
        samples,
        len,
    )
}

// The numbers are those of the file, which the answer says the length of.
fn file_agrees(numbers: &[u64], answer: Result<usize, PgmError>, file: &[u8]) -> bool {
    match answer {
        Ok(length) => {
            if length > file.len() {
                return false;
            }
            listed(numbers, &file[..length]) && marked(&file[length..])
        }
        Err(e) => number_agrees(numbers, e.number()) && marked(file),
    }
}

// The buffer is lent marked, and longer than the line says: past the file it still has the mark, and all of it where the call is refused.
pub(crate) fn write_pgm(numbers: &[u64], samples: &[u8], file: &mut [u8]) -> bool {
    let room = at(numbers, 2);
    if room > file.len() {
        return false;
    }
    let answer = pgm::write(samples, at(numbers, 0), at(numbers, 1), &mut file[..room]);
    file_agrees(rest(numbers, 3), answer, file)
}
