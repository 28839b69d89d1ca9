// Records: the limits of document 01, the record of a plan file with its kinds, and records and their bytes, both ways. An inner
// room: `plan` hands on what callers need of it, and what reads or writes bytes asks that there are enough of them.

#![tactic(auto)]

ghost use Rattle.std.specs.Prelude.{◌≡◌, ◌++◌, ◌+◌, ◌*◌, ◌≤◌, length, take, drop, replicate};
ghost use Rattle.std.proofs.Math.Seq.{paste};
ghost use Rattle.records.specs.Limits.{most_records, record_bytes};
ghost use Rattle.records.specs.Records.{one, blank};
ghost use Rattle.records.specs.Bytes.{record_in, bytes_of, all_bytes};

use numbers::{bits, signed, word_at};

// The limits of document 01.
pub const MOST_POINTS: u32 = 32;

pub const MOST_LINKS: u32 = 8;

pub const MOST_ORDINARY: u32 = 1_024;

pub const MOST_WAITS: u32 = 64;

pub const MOST_RECORDS: usize = (MOST_POINTS + MOST_LINKS + MOST_ORDINARY + MOST_WAITS) as usize;

pub const FARTHEST: i32 = 100_000;

pub const RECORD_BYTES: usize = 16;

// The kinds of record.
pub const POINT: u8 = 1;

pub const LINK: u8 = 2;

pub const ORDINARY: u8 = 3;

pub const WAIT: u8 = 4;

// A record of a plan file, of any of the four kinds: byte 0, bytes 1 and 2, the two numbers, the pond code.
// A record of any bytes has a kind, which the rules match as a number: so no enum.
#[derive(Clone, Copy)]
pub struct Record {
    pub kind: u8,
    pub a: u8,
    pub b: u8,
    pub first: i32,
    pub second: i32,
    pub code: u32,
}

// One where `so`, to count records by.
pub fn one_if(so: bool) -> u32
    ensures { (result ≡ one so) × (result ≤ 1) }
{
    if so { 1 } else { 0 }
}

// The record that sixteen bytes stand for. Byte 3 belongs to no record.
pub fn record_in(bytes: &[u8]) -> Record
    requires { record_bytes ≤ length bytes.now }
    ensures { result ≡ record_in bytes.now }
{
    Record {
        kind: bytes[0],
        a: bytes[1],
        b: bytes[2],
        first: signed(word_at(bytes, 4)),
        second: signed(word_at(bytes, 8)),
        code: word_at(bytes, 12),
    }
}

// The sixteen bytes of a record.
pub fn bytes_of(r: Record) -> [u8; RECORD_BYTES]
    ensures { result ≡ bytes_of r }
{
    let [f0, f1, f2, f3] = bits(r.first).to_le_bytes();
    let [s0, s1, s2, s3] = bits(r.second).to_le_bytes();
    let [c0, c1, c2, c3] = r.code.to_le_bytes();
    [
        r.kind, r.a, r.b, 0, f0, f1, f2, f3, s0, s1, s2, s3, c0, c1, c2, c3,
    ]
}

// The sixteen bytes into the buffer, from `at` on.
pub fn put(out: &mut [u8], at: usize, e: [u8; RECORD_BYTES])
    requires { at + record_bytes ≤ length out.old }
    ensures { out.new ≡ paste out.old at e record_bytes }
{
    out[at..at + RECORD_BYTES].copy_from_slice(&e);
}

// Room for the records of a plan, all of it zero, whatever number is handed in. A record whose fields the compiler knows is written
// field by field into each place; one of two, it cannot know which, is copied at once, in a quarter of the time.
pub fn blanks(any: usize) -> [Record; MOST_RECORDS]
    ensures { result ≡ replicate most_records blank }
{
    let zeros = Record {
        kind: 0,
        a: 0,
        b: 0,
        first: 0,
        second: 0,
        code: 0,
    };
    let two = [zeros; 2];
    let one = two[any % 2];
    [one; MOST_RECORDS]
}

// The same, where no number is at hand.
pub fn no_records() -> [Record; MOST_RECORDS]
    ensures { result ≡ replicate most_records blank }
{
    blanks(0)
}

// The first `count` records into the front of the buffer.
pub fn put_records(records: [Record; MOST_RECORDS], count: usize, out: &mut [u8])
    requires { (count ≤ most_records) × (record_bytes * count ≤ length out.old) }
    ensures { out.new ≡ all_bytes (take count records) ++ drop (record_bytes * count) out.old }
{
    for i in 0..count {
        let r = records[i];
        put(out, RECORD_BYTES * i, bytes_of(r));
    }
}
