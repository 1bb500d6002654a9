// What the test programs share: cases read from lines of decimal numbers, and buffers held against them.
// What is missing, too large or no coordinate is 0 and no `None`: the clauses of `at` and `coordinate`, specs/Lines and specs/Lists say so.
#![tactic(auto)]

pub mod answers;

ghost use Rattle.std.specs.Prelude.{ℕ, ◌≡◌, ◌||◌, map, ◌+◌, ◌*◌, ◌≤◌, ◌<◌, eqb, negsuc, length, get_or, take, drop, set};
ghost use Rattle.std.specs.Bool.{Decides};
ghost use Rattle.std.proofs.lemmas.List.Edits.{sets};
ghost use Rattle.replay.specs.Lines as lines;
ghost use Rattle.definitions.specs.Report.{field_of};
ghost use Rattle.replay.specs.Lists.{Marked, Fields, byte_of, coordinate_of};

use std::io;

/// How many numbers a line has, and where the next line begins.
#[derive(Clone, Copy, Debug, PartialEq, Eq)]
pub struct Line {
    pub count: usize,
    pub next: usize,
}

/// What untouched bytes hold.
pub const MARK: u8 = 165;

/// What untouched words and sizes hold.
pub const MARK_WORD: u64 = 11936128518282651045;

/// What untouched coordinates hold.
pub const MARK_COORDINATE: i32 = -1515870811;

// What is added to the magnitude of a negative number of a line.
const NEGATIVE: u64 = 9223372036854775808;

// Bytes of a record's field.
const FIELD_BYTES: usize = 4;

// ---- lines

// One digit more, or 0 where that passes 64 bits.
#[tactic(auto, using(std::proofs::lemmas::Bool::Decides::nat_tests), unfolding(crate::specs::Lines::with_digit))]
fn with_digit(value: u64, digit: u64) -> u64
    requires { digit < 10 }
    ensures { result ≡ lines.with_digit value digit }
{
    match value.checked_mul(10) {
        Some(tens) => tens.checked_add(digit).unwrap_or(0),
        None => 0,
    }
}

// A number as a character carries it on.
#[tactic(auto, using(std::proofs::lemmas::Bool::Decides::nat_tests), unfolding(crate::specs::Lines::grown, definitions::specs::Decimal::is_digit))]
fn grown(value: u64, byte: u8) -> u64
    ensures { result ≡ lines.grown value byte }
{
    if byte.is_ascii_digit() {
        return with_digit(value, u64::from(byte - b'0'));
    }
    value
}

// A number of either sign as 64 bits. A sign beside a magnitude and no i64: words take all 64 bits.
#[tactic(auto, unfolding(crate::specs::Lines::number))]
fn signed(negative: bool, value: u64) -> u64
    ensures { result ≡ lines.number negative value }
{
    if negative {
        return value % NEGATIVE + NEGATIVE;
    }
    value
}

// Past the end nothing is stored. By `if` and no `get_mut`, after which a proof knows no element.
fn store(numbers: &mut [u64], at: usize, value: u64)
    ensures { numbers.new ≡ set numbers.old at value }
{
    if at < numbers.len() {
        numbers[at] = value;
    }
}

/// The numbers of the line at `at`, stored as far as there is room.
pub fn read_line(text: &[u8], at: usize, numbers: &mut [u64]) -> Line
    ensures numbers_after { numbers.new ≡ sets numbers.old 0 (lines.numbers_of (drop at text.now)) }
    ensures count_value { result.count ≡ length (lines.numbers_of (drop at text.now)) }
    ensures next_value { result.next ≡ at + lines.line_length (drop at text.now) }
{
    let mut count: usize = 0;
    let mut negative = false;
    let mut value: u64 = 0;
    for next in at..text.len() {
        match text[next] {
            b'\n' => {
                store(numbers, count, signed(negative, value));
                return Line {
                    count: count + 1,
                    next: next + 1,
                };
            }
            b' ' => {
                store(numbers, count, signed(negative, value));
                count += 1;
                negative = false;
                value = 0;
            }
            byte => {
                negative |= byte == b'-';
                value = grown(value, byte);
            }
        }
    }
    Line {
        count,
        next: at.max(text.len()),
    }
}

// ---- the numbers of a line

/// Number i of a line, and 0 past its end.
pub fn at(numbers: &[u64], i: usize) -> usize
    ensures { result ≡ get_or numbers.now i 0 }
{
    numbers.get(i).map_or(0, |n| *n as usize)
}

/// The numbers from `from` on.
pub fn rest(numbers: &[u64], from: usize) -> &[u64]
    ensures { result.now ≡ drop from numbers.now }
{
    numbers.get(from..).unwrap_or(&[])
}

/// The n numbers from `from` on, or those that there are.
pub fn part(numbers: &[u64], from: usize, n: usize) -> &[u64]
    ensures { result.now ≡ take n (drop from numbers.now) }
{
    let rest = rest(numbers, from);
    let n = n.min(rest.len());
    &rest[..n]
}

// A number as a coordinate, 0 where it is none.
#[tactic(auto, using(std::proofs::lemmas::Bool::Decides::nat_tests, std::proofs::lemmas::Int::ints), unfolding(crate::specs::Lists::coordinate_of))]
fn coordinate_of(value: u64) -> i32
    ensures { result ≡ coordinate_of value }
{
    match value.checked_sub(NEGATIVE) {
        Some(magnitude) => i32::try_from(-(magnitude as i64)).unwrap_or(0),
        None => i32::try_from(value).unwrap_or(0),
    }
}

/// Number i of a line as a coordinate.
pub fn coordinate(numbers: &[u64], i: usize) -> i32
    ensures { result ≡ coordinate_of (get_or numbers.now i 0) }
{
    coordinate_of(numbers.get(i).copied().unwrap_or(0))
}

// ---- lists of calls

/// What a list of a call holds: how a number of a line is read as one, and what untouched ones are.
pub trait Entry: Copy {
    ghost of: { ℕ → Self };

    ghost mark: { Self };

    /// A number of a line as an entry.
    fn of(n: u64) -> Self
        ensures { result ≡ of n };

    /// Whether it has the mark.
    fn is_mark(self) -> bool
        ensures { Decides result (self ≡ mark) };
}

// An impl for each: `rt ci` refuses those that a macro of the repository writes.
impl Entry for u8 {
    ghost of = { byte_of };

    ghost mark = { 165 };

    fn of(n: u64) -> u8 {
        (n % 256) as u8
    }

    fn is_mark(self) -> bool {
        self == MARK
    }
}

impl Entry for u64 {
    ghost of = { λ n. n };

    ghost mark = { 11936128518282651045 };

    fn of(n: u64) -> u64 {
        n
    }

    fn is_mark(self) -> bool {
        self == MARK_WORD
    }
}

impl Entry for usize {
    ghost of = { λ n. n };

    ghost mark = { 11936128518282651045 };

    fn of(n: u64) -> usize {
        n as usize
    }

    fn is_mark(self) -> bool {
        self == MARK_WORD as usize
    }
}

impl Entry for i32 {
    ghost of = { coordinate_of };

    ghost mark = { negsuc 1515870810 };

    fn of(n: u64) -> i32 {
        coordinate_of(n)
    }

    fn is_mark(self) -> bool {
        self == MARK_COORDINATE
    }
}

/// The numbers as a list of a call, stored as far as both reach.
// By number: of what a `zip` of `iter_mut` writes a proof knows no element after.
pub fn load<T: Entry>(numbers: &[u64], out: &mut [T])
    ensures { out.new ≡ sets out.old 0 (map T.of numbers.now) }
{
    for i in 0..out.len().min(numbers.len()) {
        out[i] = T::of(numbers[i]);
    }
}

/// Whether every entry has the mark.
pub fn marked<T: Entry>(got: &[T]) -> bool
    ensures { Decides result (Marked T.mark got.now) }
{
    got.iter().all(|x| x.is_mark())
}

/// An entry that lines have as it is: a byte, a word or a size.
pub trait Number: Entry {
    ghost number: { Self → ℕ };

    /// The number that a line has for it.
    fn number(self) -> u64
        ensures { result ≡ number self };
}

impl Number for u8 {
    ghost number = { λ n. n };

    fn number(self) -> u64 {
        u64::from(self)
    }
}

impl Number for u64 {
    ghost number = { λ n. n };

    fn number(self) -> u64 {
        self
    }
}

impl Number for usize {
    ghost number = { λ n. n };

    fn number(self) -> u64 {
        self as u64
    }
}

/// Whether the numbers are those of these entries.
pub fn same<T: Number>(numbers: &[u64], got: &[T]) -> bool
    ensures { Decides result (numbers.now ≡ map T.number got.now) }
{
    numbers.len() == got.len() && numbers.iter().zip(got).all(|(n, x)| *n == x.number())
}

/// Whether the numbers are these coordinates. It reads the numbers, where `same` writes the entries: several numbers are coordinate 0.
pub fn same_coordinates(numbers: &[u64], got: &[i32]) -> bool
    ensures { Decides result (map coordinate_of numbers.now ≡ got.now) }
{
    if numbers.len() != got.len() {
        return false;
    }
    // a `for`: by `zip` and `all` the proof did not close
    for i in 0..got.len() {
        if coordinate_of(numbers[i]) != got[i] {
            return false;
        }
    }
    true
}

// Field i, counted through from the first record on: 32 bits, low byte first. steps has the like: one for both would be public with a `requires`.
#[tactic(auto, unfolding(definitions::specs::Report::field_of))]
fn field(bytes: &[u8], i: usize) -> u64
    requires { 4 * i + 4 ≤ length bytes.now }
    ensures { result ≡ field_of bytes.now 0 i }
{
    let at = FIELD_BYTES * i;
    u64::from(u32::from_le_bytes([bytes[at], bytes[at + 1], bytes[at + 2], bytes[at + 3]]))
}

/// Whether the numbers are the fields of the records that the bytes hold.
// By number: there are four bytes for each.
pub fn same_fields(numbers: &[u64], got: &[u8]) -> bool
    ensures { Decides result (Fields numbers.now got.now) }
{
    if got.len() % FIELD_BYTES != 0 {
        return false;
    }
    if got.len() / FIELD_BYTES != numbers.len() {
        return false;
    }
    for i in 0..numbers.len() {
        if numbers[i] != field(got, i) {
            return false;
        }
    }
    true
}

// ---- what a run found

/// Says what a run over all lines found: every case agreed, or, behind as many that did, one of this call did not.
pub fn conclude(rt: &impl Print, differs: Option<usize>, cases: u64) -> io::Result<()> {
    match differs {
        None => println!(rt; "{cases} cases agree"),
        Some(call) => println!(rt; "call {call} case {cases} differs"),
    }
}
