// Aligns a bracket from a PGM file and reports on it, and does the same with the frames lent directly. The input is the file, four images
// of 64 by 64, and behind it the samples of these frames without headers. Prints the report of the file's frames, and whether both ways
// have the same shifts and the same report. Then writes the frames one behind another, and prints whether what is read of that is the
// bracket, and how many bytes both files have.
#![tactic(auto)]

use mtb_align::align::Options;
use mtb_align::report::Terms;
use std::io;
use std::io::Read;

const SIDE: usize = 64;

const FRAMES: usize = 4;

const SHIFTS: usize = 2 * FRAMES;

const FRAME: usize = SIDE * SIDE;

const SAMPLES: usize = FRAMES * FRAME;

// Room for a file with long headers, and the frames.
const INPUT: usize = 3 * SAMPLES;

// Each frame is cut at its median.
const PERCENTILES: [u8; FRAMES] = [50; FRAMES];

// The halved levels of two frames, and the bitmaps of both.
const SCRATCH: usize = 2 * (32 * 32 + 16 * 16 + 8 * 8 + 4 * 4 + 2 * 2);

const SCRATCH_WORDS: usize = 4 * SIDE;

// Room for every shift within a reach of 8 of each frame but the reference.
const RECORDS: usize = 20 * 3 * 17 * 17;

fn terms() -> Terms {
    Terms {
        reach: 8,
        floor: 1,
        margin: 0,
    }
}

// Frames as a call is lent them.
#[derive(Clone, Copy)]
struct Stack<'a> {
    widths: &'a [usize],
    heights: &'a [usize],
    samples: &'a [u8],
}

// The frames are aligned.
fn aligned(stack: Stack<'_>, shifts: &mut [i32]) -> bool {
    let mut bytes = [0u8; SCRATCH];
    let mut words = [0u64; SCRATCH_WORDS];
    mtb_align::align::align_stack(
        stack.widths,
        stack.heights,
        &PERCENTILES,
        stack.samples,
        0,
        Options::default(),
        shifts,
        &mut bytes,
        &mut words,
    )
    .is_ok()
}

// The frames of the file have the shifts of the frames that are lent.
fn aligned_alike(of_file: Stack<'_>, lent: Stack<'_>) -> bool {
    let mut shifts = [0i32; SHIFTS];
    let mut lent_shifts = [0i32; SHIFTS];
    aligned(of_file, &mut shifts) && aligned(lent, &mut lent_shifts) && shifts == lent_shifts
}

// There is a report on the frames.
fn reported(stack: Stack<'_>, shifts: &mut [i32], verdicts: &mut [u8], records: &mut [u8]) -> bool {
    let mut bytes = [0u8; SCRATCH];
    let mut words = [0u64; SCRATCH_WORDS];
    mtb_align::report::report(
        stack.widths,
        stack.heights,
        &PERCENTILES,
        stack.samples,
        0,
        Options::default(),
        terms(),
        shifts,
        verdicts,
        records,
        &mut bytes,
        &mut words,
    )
    .is_ok_and(|summary| summary.records > 0)
}

// They have its report too: shifts, verdicts and records.
fn reported_alike(of_file: Stack<'_>, lent: Stack<'_>) -> bool {
    let mut shifts = [0i32; SHIFTS];
    let mut verdicts = [0u8; FRAMES];
    let mut records = [0u8; RECORDS];
    let mut lent_shifts = [0i32; SHIFTS];
    let mut lent_verdicts = [0u8; FRAMES];
    let mut lent_records = [0u8; RECORDS];
    reported(of_file, &mut shifts, &mut verdicts, &mut records)
        && reported(
            lent,
            &mut lent_shifts,
            &mut lent_verdicts,
            &mut lent_records,
        )
        && shifts == lent_shifts
        && verdicts == lent_verdicts
        && records == lent_records
}

// Writes frame k behind what is written already; where it ends, or None where it does not fit.
fn one_written(samples: &[u8], k: usize, file: &mut [u8], at: usize) -> Option<usize> {
    if k >= FRAMES || samples.len() != SAMPLES || at > file.len() {
        return None;
    }
    let start = k * FRAME;
    let frame = &samples[start..start + FRAME];
    let length = pgm::write(frame, SIDE, SIDE, &mut file[at..]).ok()?;
    at.checked_add(length)
}

// Writes the four frames one behind another; where the last one ends.
fn all_written(samples: &[u8], file: &mut [u8]) -> Option<usize> {
    let mut end = 0;
    for k in 0..FRAMES {
        end = one_written(samples, k, file, end)?;
    }
    Some(end)
}

// What is read of a file is this bracket, up to the file's end.
fn is_bracket(file: &[u8], bracket: &[u8]) -> bool {
    let mut widths = [0usize; FRAMES];
    let mut heights = [0usize; FRAMES];
    let mut samples = [0u8; SAMPLES];
    let answer = pgm::stack::read_stack(file, 0, &mut widths, &mut heights, &mut samples);
    answer.is_ok_and(|next| next == file.len() && samples.as_slice() == bracket)
}

// Writes the bracket of a file of so many bytes, and says whether it is read back.
fn say_written(rt: &impl Print, samples: &[u8], length: usize) -> io::Result<()> {
    let mut file = [0u8; INPUT];
    let Some(end) = all_written(samples, &mut file) else {
        return Ok(());
    };
    if end > INPUT {
        return Ok(());
    }
    if !is_bracket(&file[..end], samples) {
        print!(rt; "not ")?;
    }
    println!(rt; "read back from {end} bytes, of {length}")
}

fn print_report(rt: &impl Print, samples: &[u8]) -> io::Result<()> {
    let mut text = [0u8; 8192];
    let end = steps::put_text(samples, &mut text);
    rt.write_all(&text[0..end])
}

fn say(rt: &impl Print, what: &str, alike: bool) -> io::Result<()> {
    if alike {
        return println!(rt; "{what} as of the frames lent directly");
    }
    println!(rt; "{what} not as of the frames lent directly")
}

fn run(rt: &impl Print, input: &[u8]) -> io::Result<()> {
    let mut widths = [0usize; FRAMES];
    let mut heights = [0usize; FRAMES];
    let mut samples = [0u8; SAMPLES];
    match pgm::stack::read_stack(input, 0, &mut widths, &mut heights, &mut samples) {
        Ok(next) => {
            print_report(rt, &samples)?;
            if next <= input.len() {
                let of_file = Stack {
                    widths: &widths,
                    heights: &heights,
                    samples: &samples,
                };
                let lent = Stack {
                    widths: &[SIDE; FRAMES],
                    heights: &[SIDE; FRAMES],
                    samples: &input[next..],
                };
                say(rt, "shifts", aligned_alike(of_file, lent))?;
                say(rt, "report", reported_alike(of_file, lent))?;
                say_written(rt, &samples, next)?;
            }
            Ok(())
        }
        Err(e) => {
            let number = e.number();
            println!(rt; "refused {number}")
        }
    }
}

// Read into an array of this program's own size: a function for all would be generic in it and stand in a crate that all five need.
fn main(rt: HostRuntime) -> io::Result<()> {
    let mut input = [0u8; INPUT];
    let n = io::copy(
        &mut rt.reader().take(INPUT as u64),
        &mut input.as_mut_slice(),
    )?;
    run(&rt, &input[..n.min(INPUT as u64) as usize])
}
