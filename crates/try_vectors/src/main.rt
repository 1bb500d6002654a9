// Replays the vectors of every call. Each line of the input is a call's number, its inputs and its answer; the fields are those of
// compare/vectors, the cases stand by the file of the port that has the call. A refused call must leave its marked buffers alone, and
// an accepted one what lies past its outputs.
#![tactic(auto)]

mod align;
mod bitmap;
mod difference;
mod files;
mod geometry;
mod gray;
mod mosaics;
mod report;
mod shrink;
mod threshold;

use mtb_align::error::Error;
use replay::answers::refusal_agrees;
use replay::{MARK, Number, at, conclude, load, part, read_line, rest, same};
use std::io;
use std::io::{Input, Read};

// The longest that is read.
const TEXT: usize = 3145728;

// The most numbers of a line.
const NUMBERS: usize = 20480;

// The most samples of a case, and bytes of an output.
const SAMPLES: usize = 16640;

// The most words of a bitmap.
const BITMAP: usize = 512;

// The most bytes and words of a step's scratch.
const SCRATCH: usize = 2048;

const SCRATCH_WORDS: usize = 1024;

// More frames than a stack may have.
const FRAMES: usize = 32;

// Whether the numbers are an answer that is shown as numbers itself, or its refusal.
fn numbers_agree<T: Number, const N: usize>(
    numbers: &[u64],
    answer: Result<[T; N], Error>,
) -> bool {
    match answer {
        Ok(shown) => same(numbers, &shown),
        Err(e) => refusal_agrees(numbers, e),
    }
}

// Whether the numbers are a refusal that has no values. By its number alone: the enums of pgm and of mosaic both have one.
fn number_agrees(numbers: &[u64], number: u32) -> bool {
    same(numbers, &[u64::from(number), 0])
}

// The calls, in the order of the table in compare/vectors/src/main.rs.
#[derive(Clone, Copy)]
enum Call {
    FromRgb,
    Shrink2,
    Shifted,
    Threshold,
    ComputeBitmaps,
    Pyramid,
    Level,
    Get,
    Set,
    CountOnes,
    Row,
    Disagreement,
    Doubled,
    Offset,
    CommonCrop,
    Shift,
    AlignStack,
    Report,
    ReadPgm,
    ReadStack,
    WritePgm,
    TakeApart,
    PutTogether,
    Planes,
}

// A number that is no call's.
#[derive(Clone, Copy)]
struct NoCall;

// The calls have their numbers by that table.
impl TryFrom<usize> for Call {
    type Error = NoCall;

    fn try_from(number: usize) -> Result<Call, NoCall> {
        match number {
            1 => Ok(Call::FromRgb),
            2 => Ok(Call::Shrink2),
            3 => Ok(Call::Shifted),
            4 => Ok(Call::Threshold),
            5 => Ok(Call::ComputeBitmaps),
            6 => Ok(Call::Pyramid),
            7 => Ok(Call::Level),
            8 => Ok(Call::Get),
            9 => Ok(Call::Set),
            10 => Ok(Call::CountOnes),
            11 => Ok(Call::Row),
            12 => Ok(Call::Disagreement),
            13 => Ok(Call::Doubled),
            14 => Ok(Call::Offset),
            15 => Ok(Call::CommonCrop),
            16 => Ok(Call::Shift),
            17 => Ok(Call::AlignStack),
            18 => Ok(Call::Report),
            19 => Ok(Call::ReadPgm),
            20 => Ok(Call::ReadStack),
            21 => Ok(Call::WritePgm),
            22 => Ok(Call::TakeApart),
            23 => Ok(Call::PutTogether),
            24 => Ok(Call::Planes),
            _ => Err(NoCall),
        }
    }
}

// A stack of frames as a call is lent it.
#[derive(Clone, Copy)]
struct Stack<'a> {
    widths: &'a [usize],
    heights: &'a [usize],
    percentiles: &'a [u8],
    samples: &'a [u8],
}

// A call on a stack. Its samples are loaded; the numbers go on with its widths, heights and percentiles.
fn on_stack<F: Fn(&[u64], Stack<'_>) -> bool>(numbers: &[u64], samples: &[u8], agrees: F) -> bool
    requires { F.IsAlwaysCallable agrees }
{
    let n = at(numbers, 0);
    if n > FRAMES {
        return false;
    }
    let m = at(numbers, 1 + n);
    if m > FRAMES {
        return false;
    }
    let p = at(numbers, 2 + n + m);
    if p > FRAMES {
        return false;
    }
    let mut widths = [0; FRAMES];
    let mut heights = [0; FRAMES];
    let mut percentiles = [0; FRAMES];
    load(part(numbers, 1, n), &mut widths);
    load(part(numbers, 2 + n, m), &mut heights);
    load(part(numbers, 3 + n + m, p), &mut percentiles);
    let stack = Stack {
        widths: &widths[..n],
        heights: &heights[..m],
        percentiles: &percentiles[..p],
        samples,
    };
    agrees(rest(numbers, 3 + n + m + p), stack)
}

// A call on samples, a mosaic or a file, whose list comes first. A frame that a call writes is lent marked, and longer than it may need; the case cuts it as
// the line says.
fn on_samples<F: Fn(&[u64], &[u8], &mut [u8]) -> bool>(numbers: &[u64], agrees: F) -> bool
    requires { F.IsAlwaysCallable agrees }
{
    let len = at(numbers, 0);
    if len > SAMPLES {
        return false;
    }
    let mut samples = [0; SAMPLES];
    load(part(numbers, 1, len), &mut samples);
    let mut out = [MARK; SAMPLES];
    agrees(rest(numbers, 1 + len), &samples[..len], &mut out)
}

// A call on a bitmap, whose words come first.
fn on_bitmap<F: Fn(&[u64], &[u64]) -> bool>(numbers: &[u64], agrees: F) -> bool
    requires { F.IsAlwaysCallable agrees }
{
    let len = at(numbers, 0);
    if len > BITMAP {
        return false;
    }
    agrees(rest(numbers, 1 + len), part(numbers, 1, len))
}

// A line is a call's number, and what the call is asked and answers.
fn agrees(numbers: &[u64]) -> bool {
    let Ok(call) = Call::try_from(at(numbers, 0)) else {
        return false;
    };
    let asked = rest(numbers, 1);
    match call {
        Call::FromRgb => on_samples(asked, gray::from_rgb),
        Call::Shrink2 => on_samples(asked, shrink::shrink2),
        Call::Shifted => on_samples(asked, geometry::shifted),
        Call::Threshold => on_samples(
            asked,
            |asked, samples, _| threshold::threshold(asked, samples),
        ),
        Call::ComputeBitmaps => on_samples(
            asked,
            |asked, samples, _| threshold::compute_bitmaps(asked, samples),
        ),
        Call::Pyramid => on_samples(asked, align::pyramid),
        Call::Level => on_samples(asked, |asked, samples, _| align::level(asked, samples)),
        Call::Get => on_bitmap(asked, bitmap::get),
        Call::Set => on_bitmap(asked, bitmap::set),
        Call::CountOnes => on_bitmap(asked, bitmap::count_ones),
        Call::Row => on_bitmap(asked, bitmap::row),
        Call::Disagreement => difference::disagreement(asked),
        Call::Doubled => geometry::doubled(asked),
        Call::Offset => geometry::offset(asked),
        Call::CommonCrop => geometry::common_crop(asked),
        Call::Shift => on_samples(asked, |asked, samples, _| align::shift(asked, samples)),
        Call::AlignStack => on_samples(
            asked,
            |asked, samples, _| on_stack(asked, samples, align::align_stack),
        ),
        Call::Report => on_samples(
            asked,
            |asked, samples, _| on_stack(asked, samples, report::report),
        ),
        Call::ReadPgm => on_samples(asked, |asked, file, _| files::read_pgm(asked, file)),
        Call::ReadStack => on_samples(asked, files::read_stack),
        Call::WritePgm => on_samples(asked, files::write_pgm),
        Call::TakeApart => on_samples(asked, mosaics::take_apart),
        Call::PutTogether => on_samples(asked, mosaics::put_together),
        Call::Planes => mosaics::planes(asked),
    }
}

fn replayed(rt: &impl Print, text: &[u8]) -> io::Result<()> {
    let mut numbers = [0; NUMBERS];
    let mut next: usize = 0;
    for cases in 0..100000 {
        if next >= text.len() {
            return conclude(rt, None, cases);
        }
        let found = read_line(text, next, &mut numbers);
        // a line has no more numbers than there is room for
        if !numbers.get(..found.count).is_some_and(agrees) {
            return conclude(rt, Some(at(&numbers, 0)), cases);
        }
        next = found.next;
    }
    Ok(())
}

// Replays what standard input has, as far as there is room for it. The room is lent whole, as an array: at a slice of one so long the prover runs out of stack.
fn replayed_from(rt: &(impl Input + Print), room: &mut [u8; TEXT]) -> io::Result<()> {
    let n = io::copy(
        &mut rt.reader().take(room.len() as u64),
        &mut room.as_mut_slice(),
    )?;
    replayed(rt, &room[..n.min(room.len() as u64) as usize])
}

// Read into an array of this program's own size: a function for all would be generic in it and stand in a crate that all five need.
fn main(rt: HostRuntime) -> io::Result<()> {
    let mut text = [0u8; TEXT];
    replayed_from(&rt, &mut text)
}
