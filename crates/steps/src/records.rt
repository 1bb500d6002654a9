// The records of a report read back from their bytes, and their lines. `out` and `at` stay two parameters: see text.rt.
ghost use Rattle.std.specs.Prelude.{◌≡◌, cond, [], ◌∷◌, ◌++◌, ◌+◌, ◌*◌, ◌/◌, ◌≤◌, ◌<◌, eqb, length, count_by};
ghost use Rattle.std.specs.List.{range_with_len};
ghost use Rattle.definitions.specs.Report.{field_of, record_at};
ghost use Rattle.steps.specs.Text.{record_line, lines_of_records};
ghost use Rattle.steps.specs.Inner.{Put, record_in, records_of};

use super::text::{put_byte, put_coordinate, put_next, put_number};

// A record is five fields of four bytes.
const FIELD_BYTES: usize = 4;

pub(crate) const RECORD_BYTES: usize = 20;

#[derive(Clone, Copy)]
pub(crate) struct Record {
    frame: u32,
    x: i32,
    y: i32,
    disagreeing: u32,
    compared: u32,
}

// Field f of record i: 32 bits, low byte first.
fn field(records: &[u8], i: usize, f: usize) -> u32
    requires { (20 * i + 20 ≤ length records.now) × (f < 5) }
    ensures { result ≡ field_of records.now i f }
{
    let at = RECORD_BYTES * i + FIELD_BYTES * f;
    u32::from_le_bytes([
        records[at],
        records[at + 1],
        records[at + 2],
        records[at + 3],
    ])
}

fn record_at(records: &[u8], i: usize) -> Record
    requires { 20 * i + 20 ≤ length records.now }
    ensures { record_in result ≡ record_at records.now i }
{
    Record {
        frame: field(records, i, 0),
        x: field(records, i, 1).cast_signed(),
        y: field(records, i, 2).cast_signed(),
        disagreeing: field(records, i, 3),
        compared: field(records, i, 4),
    }
}

// A record's line.
fn put_record(out: &mut [u8], at: usize, e: Record) -> usize
    requires { at ≤ length out.old }
    ensures { Put out.old at (record_line (record_in e)) out.new result }
{
    let mut next = put_number(out, at, u64::from(e.frame));
    next = put_coordinate(out, next, e.x);
    next = put_coordinate(out, next, e.y);
    next = put_next(out, next, u64::from(e.disagreeing));
    next = put_next(out, next, u64::from(e.compared));
    put_byte(out, next, b'\n')
}

// A record is one of frame k.
fn is_of(e: Record, k: usize) -> bool
    ensures { result ≡ eqb e.frame k }
{
    e.frame as usize == k
}

// Its line if it is one of frame k.
fn put_record_of(out: &mut [u8], at: usize, e: Record, k: usize) -> usize
    requires { at ≤ length out.old }
    ensures { Put out.old at (lines_of_records (cond (eqb e.frame k) (record_in e ∷ []) [])) out.new result }
{
    if is_of(e, k) {
        return put_record(out, at, e);
    }
    at
}

// The lines of frame k's records.
pub(crate) fn put_records(out: &mut [u8], at: usize, records: &[u8], k: usize) -> usize
    requires { at ≤ length out.old }
    ensures { Put out.old at (lines_of_records (records_of records.now (length records.now / 20) k)) out.new result }
{
    let mut next = at;
    for i in 0..records.len() / RECORD_BYTES {
        next = put_record_of(out, next, record_at(records, i), k);
    }
    next
}

// How many records are of frame k.
pub(crate) fn number_of(records: &[u8], k: usize) -> usize
    ensures { result ≡ count_by (λ i. eqb (record_at records.now i).frame k) (range_with_len 0 (length records.now / 20)) }
{
    (0..records.len() / RECORD_BYTES)
        .filter(|&i| is_of(record_at(records, i), k))
        .count()
}
