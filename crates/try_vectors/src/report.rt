// report. The stack is loaded; the numbers go on with the reference.
use super::{FRAMES, SCRATCH, SCRATCH_WORDS, Stack};
use mtb_align::error::Error;
use mtb_align::geometry::Rect;
use mtb_align::report::{Summary, Terms};
use replay::answers::{bits32, options, past_marked, refusal_agrees};
use replay::{
    MARK, MARK_COORDINATE, MARK_WORD, at, marked, part, rest, same, same_coordinates, same_fields,
};

// A record is five fields of four bytes.
const RECORD_FIELDS: usize = 5;

const RECORD_BYTES: usize = 20;

// More than the report of 3,277 records needs.
const RECORD_SPACE: usize = 73728;

// The terms that the numbers begin with.
fn terms(numbers: &[u64]) -> Terms {
    Terms {
        reach: bits32(at(numbers, 0)),
        floor: bits32(at(numbers, 1)),
        margin: bits32(at(numbers, 2)),
    }
}

// The crop, the number of records and that of their fields, and the fields; what lies past them is marked.
fn records_agree(numbers: &[u64], crop: Rect, count: usize, records: &[u8]) -> bool {
    if count > records.len() / RECORD_BYTES {
        return false;
    }
    let end = RECORD_BYTES * count;
    let head = [
        crop.x,
        crop.y,
        crop.width,
        crop.height,
        count,
        RECORD_FIELDS * count,
    ];
    same(part(numbers, 0, 6), &head)
        && same_fields(rest(numbers, 6), &records[..end])
        && marked(&records[end..])
}

// An accepted report: 0, the list of shifts, the list of verdicts, and what follows them.
fn summary_agrees(
    numbers: &[u64],
    summary: Summary,
    shifts: &[i32],
    verdicts: &[u8],
    records: &[u8],
) -> bool {
    let m = shifts.len();
    if m > 2 * FRAMES {
        return false;
    }
    let n = verdicts.len();
    if n > FRAMES {
        return false;
    }
    same(part(numbers, 0, 2), &[0, m])
        && same_coordinates(part(numbers, 2, m), shifts)
        && same(part(numbers, 2 + m, 1), &[n])
        && same(part(numbers, 3 + m, n), verdicts)
        && records_agree(
            rest(numbers, 3 + m + n),
            summary.crop,
            summary.records,
            records,
        )
}

// The answer is a report, or a refusal, after which all lists still have the mark.
fn answer_agrees(
    numbers: &[u64],
    answer: Result<Summary, Error>,
    shifts: &[i32],
    verdicts: &[u8],
    records: &[u8],
) -> bool {
    match answer {
        Ok(summary) => { summary_agrees(numbers, summary, shifts, verdicts, records) }
        Err(e) => {
            refusal_agrees(numbers, e) && marked(shifts) && marked(verdicts) && marked(records)
        }
    }
}

// The lists and the scratch are cut as the line says, and stay parameters: they are lent to be written.
fn reported(
    numbers: &[u64],
    stack: Stack<'_>,
    shifts: &mut [i32],
    verdicts: &mut [u8],
    records: &mut [u8],
    scratch: &mut [u8],
    words: &mut [u64],
) -> bool {
    let answer = mtb_align::report::report(
        stack.widths,
        stack.heights,
        stack.percentiles,
        stack.samples,
        at(numbers, 0),
        options(rest(numbers, 1)),
        terms(rest(numbers, 4)),
        shifts,
        verdicts,
        records,
        scratch,
        words,
    );
    answer_agrees(rest(numbers, 14), answer, shifts, verdicts, records)
        && past_marked(part(numbers, 11, 2), scratch, words)
}

pub(crate) fn report(numbers: &[u64], stack: Stack<'_>) -> bool {
    let m = at(numbers, 7);
    if m > 2 * FRAMES {
        return false;
    }
    let n = at(numbers, 8);
    if n > FRAMES {
        return false;
    }
    let len = at(numbers, 9);
    if len > SCRATCH {
        return false;
    }
    let count = at(numbers, 10);
    if count > SCRATCH_WORDS {
        return false;
    }
    let space = at(numbers, 13);
    if space > RECORD_SPACE {
        return false;
    }
    let mut shifts = [MARK_COORDINATE; 2 * FRAMES];
    let mut verdicts = [MARK; FRAMES];
    let mut records = [MARK; RECORD_SPACE];
    let mut scratch = [MARK; SCRATCH];
    let mut words = [MARK_WORD; SCRATCH_WORDS];
    reported(
        numbers,
        stack,
        &mut shifts[..m],
        &mut verdicts[..n],
        &mut records[..space],
        &mut scratch[..len],
        &mut words[..count],
    )
}
