// Numbers and rows in lent bytes, by the layouts of the meaning: read by value, written, copied, cleared.
#![tactic(auto)]

pub mod forms;
pub mod kinds;
pub mod views;

ghost use Rattle.std.specs.Prelude.{Bool, List, ℕ, ◌≡◌, ◌++◌, ◌+◌, ◌*◌, ◌-◌, ◌/◌, ◌≤◌, ◌<◌, length, get_or, take, drop, replicate, [], ◌∷◌};
ghost use Rattle.std.proofs.lemmas.List.Edits.{sets};
ghost use Rattle.meaning.specs.Bytes.{number, spell, read, write, type_row, term_row, record_head, calls_at, rows_at, record_bytes};
ghost use Rattle.meaning.specs.Records.{record_mark, first_not};
ghost use Rattle.meaning.specs.Types.{form_no, parts_no, result_no};
ghost use Rattle.layout.specs.Rows.{numbers, row_table, Tells, board};

// The edition of files, records and rows that is read and written.
pub const EDITION: u16 = 1;

// Bytes of each header and row.
pub const FILE_HEAD: usize = 10;

pub const RECORD_HEAD: usize = 20;

pub const REPLY_HEAD: usize = 8;

pub const CALL_HEAD: usize = 12;

pub const TYPE_ROW: usize = 36;

pub const TERM_ROW: usize = 8;

pub const ENTRY_ROW: usize = 8;

// Where the fields of a header stand behind its mark: a file's as far as the row count, a record's all of them.
pub const VERSION_AT: usize = 3;

pub const ZERO_AT: usize = 5;

pub const TYPE_COUNT_AT: usize = 6;

pub const ROW_COUNT_AT: usize = 8;

pub const OPEN_COUNT_AT: usize = 10;

pub const NEXT_AT: usize = 12;

pub const PROGRAM_AT: usize = 16;

pub const ZEROS_AT: usize = 18;

// Where the fields of a term row stand behind its kind and n.
pub const ROW_TYPE_AT: usize = 2;

pub const ROW_WORD_AT: usize = 4;

// Where the fields of an entry of the open list stand behind its number.
pub const ENTRY_TYPE_AT: usize = 4;

pub const ENTRY_ZEROS_AT: usize = 6;

// Where the fields of a reply's header stand behind its number.
pub const REPLY_COUNT_AT: usize = 4;

pub const REPLY_ZEROS_AT: usize = 6;

// Where the fields of a call's header stand behind its number.
pub const CALL_TOOL_AT: usize = 4;

pub const CALL_COUNT_AT: usize = 8;

pub const CALL_TYPE_AT: usize = 10;

// A term row.
#[derive(Clone, Copy)]
pub struct Row {
    pub kind: u8,
    pub n: u8,
    pub ty: u16,
    pub word: u32,
}

// What a board has room for: one value for all limits, handed down from an entry.
#[derive(Clone, Copy)]
pub struct Limits {
    pub types: u16,
    pub rows: u16,
    pub calls: u16,
    pub last: u32,
    pub program: u16,
    pub reply: u16,
    pub work: u32,
}

// Where the calls and the rows of a record begin, and its length.
#[tactic(auto, unfolding(meaning::specs::Bytes::calls_at, meaning::specs::Bytes::width))]
pub fn calls_at(m: Limits) -> usize
    ensures { result ≡ calls_at (board m) }
{
    RECORD_HEAD + TYPE_ROW * m.types as usize
}

#[tactic(auto, unfolding(meaning::specs::Bytes::rows_at, meaning::specs::Bytes::calls_at, meaning::specs::Bytes::width))]
pub fn rows_at(m: Limits) -> usize
    ensures { result ≡ rows_at (board m) }
{
    calls_at(m) + ENTRY_ROW * m.calls as usize
}

#[tactic(auto, unfolding(meaning::specs::Bytes::record_bytes, meaning::specs::Bytes::rows_at, meaning::specs::Bytes::calls_at, meaning::specs::Bytes::width))]
pub fn record_bytes(m: Limits) -> usize
    ensures { result ≡ record_bytes (board m) }
{
    rows_at(m) + TERM_ROW * m.rows as usize
}

#[tactic(auto, using(crate::proofs::Laws::places))]
pub fn u16_at(s: &[u8], at: usize) -> u16
    requires { at + 2 ≤ length s.now }
    ensures { result ≡ number 2 (drop at s.now) }
{
    u16::from_le_bytes([s[at], s[at + 1]])
}

#[tactic(auto, using(crate::proofs::Laws::places))]
pub fn u32_at(s: &[u8], at: usize) -> u32
    requires { at + 4 ≤ length s.now }
    ensures { result ≡ number 4 (drop at s.now) }
{
    u32::from_le_bytes([s[at], s[at + 1], s[at + 2], s[at + 3]])
}

// How many rows a table of types and a table of terms has.
pub fn type_rows(types: &[u8]) -> usize
    ensures { result ≡ length types.now / 36 }
{
    types.len() / TYPE_ROW
}

pub fn term_rows(rows: &[u8]) -> usize
    ensures { result ≡ length rows.now / 8 }
{
    rows.len() / TERM_ROW
}

// Row i of a table of terms.
pub fn row_at(rows: &[u8], i: usize) -> Row
    requires { 8 * i + 8 ≤ length rows.now }
    ensures { numbers result ≡ read term_row (drop (8 * i) rows.now) }
{
    let at = TERM_ROW * i;
    Row {
        kind: rows[at],
        n: rows[at + 1],
        ty: u16_at(rows, at + ROW_TYPE_AT),
        word: u32_at(rows, at + ROW_WORD_AT),
    }
}

// The first row for which a test fails.
#[tactic(auto, using(crate::proofs::FirstNot::by_rows))]
pub fn first_failing<F: Fn(Row) -> bool>(rows: &[u8], test: F) -> Option<u32>
    requires few { length rows.now ≤ 32768 }
    requires callable { F.IsAlwaysCallable test }
    ensures { (p : List ℕ → Bool) → Tells (F.post test) p → result ≡ first_not p (row_table rows.now) }
{
    for i in 0..term_rows(rows) {
        if !test(row_at(rows, i)) {
            return Some(i as u32);
        }
    }
    None
}

// The fields of row t of a table of types.
#[tactic(auto, using(crate::proofs::Laws::places))]
pub fn form_no(types: &[u8], t: usize) -> u8
    requires { 36 * t + 36 ≤ length types.now }
    ensures { result ≡ form_no (read type_row (drop (36 * t) types.now)) }
{
    types[TYPE_ROW * t]
}

#[tactic(auto, using(crate::proofs::Laws::places))]
pub fn parts_no(types: &[u8], t: usize) -> u8
    requires { 36 * t + 36 ≤ length types.now }
    ensures { result ≡ parts_no (read type_row (drop (36 * t) types.now)) }
{
    types[TYPE_ROW * t + 1]
}

#[tactic(auto, using(crate::proofs::Laws::places))]
pub fn result_no(types: &[u8], t: usize) -> u16
    requires { 36 * t + 36 ≤ length types.now }
    ensures { result ≡ result_no (read type_row (drop (36 * t) types.now)) }
{
    u16_at(types, TYPE_ROW * t + 2)
}

// The k-th pair's name and type, counted from 0.
#[tactic(auto, using(crate::proofs::Laws::places))]
pub fn name_no(types: &[u8], t: usize, k: usize) -> u16
    requires { (36 * t + 36 ≤ length types.now) × (k < 8) }
    ensures { result ≡ get_or (read type_row (drop (36 * t) types.now)) (3 + 2 * k) 0 }
{
    u16_at(types, TYPE_ROW * t + 4 + 4 * k)
}

#[tactic(auto, using(crate::proofs::Laws::places))]
pub fn type_no(types: &[u8], t: usize, k: usize) -> u16
    requires { (36 * t + 36 ≤ length types.now) × (k < 8) }
    ensures { result ≡ get_or (read type_row (drop (36 * t) types.now)) (4 + 2 * k) 0 }
{
    u16_at(types, TYPE_ROW * t + 6 + 4 * k)
}

// A number of two bytes as a place, and as a word.
pub fn wide(x: u16) -> usize
    ensures { result ≡ x }
{
    x as usize
}

pub fn word_of(x: u16) -> u32
    ensures { result ≡ x }
{
    x as u32
}

// One less, and never below 0.
pub fn less_one(n: usize) -> usize
    ensures { result ≡ n - 1 }
{
    n.saturating_sub(1)
}

#[tactic(auto, unfolding(meaning::specs::Bytes::spell))]
pub fn put16_at(buf: &mut [u8], at: usize, x: u16)
    requires { at + 2 ≤ length buf.old }
    ensures { buf.new ≡ sets buf.old at (spell 2 x) }
{
    let [low, high] = x.to_le_bytes();
    buf[at] = low;
    buf[at + 1] = high;
}

#[tactic(auto, unfolding(meaning::specs::Bytes::spell))]
pub fn put32_at(buf: &mut [u8], at: usize, x: u32)
    requires { at + 4 ≤ length buf.old }
    ensures { buf.new ≡ sets buf.old at (spell 4 x) }
{
    let [first, second, third, fourth] = x.to_le_bytes();
    buf[at] = first;
    buf[at + 1] = second;
    buf[at + 2] = third;
    buf[at + 3] = fourth;
}

// n bytes of src, from place `from` on, go to dst from place `at` on. A for: `copy_from_slice` is slower where the bytes are few.
pub fn copy_to(dst: &mut [u8], at: usize, src: &[u8], from: usize, n: usize)
    requires { (at + n ≤ length dst.old) × (from + n ≤ length src.now) }
    ensures { dst.new ≡ take at dst.old ++ (take n (drop from src.now) ++ drop (at + n) dst.old) }
{
    for i in 0..n {
        dst[at + i] = src[from + i];
    }
}

// The same of one row: all of it is read before it is written, so that it goes at once. Eight stores: `copy_from_slice` of eight bytes is slower.
pub fn copy_row(dst: &mut [u8], at: usize, src: &[u8], from: usize)
    requires { (at + 8 ≤ length dst.old) × (from + 8 ≤ length src.now) }
    ensures { dst.new ≡ take at dst.old ++ (take 8 (drop from src.now) ++ drop (at + 8) dst.old) }
{
    let a = src[from];
    let b = src[from + 1];
    let c = src[from + 2];
    let d = src[from + 3];
    let e = src[from + 4];
    let f = src[from + 5];
    let g = src[from + 6];
    let h = src[from + 7];
    dst[at] = a;
    dst[at + 1] = b;
    dst[at + 2] = c;
    dst[at + 3] = d;
    dst[at + 4] = e;
    dst[at + 5] = f;
    dst[at + 6] = g;
    dst[at + 7] = h;
}

// Zeros from place `from` up to place `to`.
pub fn clear(dst: &mut [u8], from: usize, to: usize)
    requires { (from ≤ to) × (to ≤ length dst.old) }
    ensures { dst.new ≡ take from dst.old ++ (replicate (to - from) 0 ++ drop to dst.old) }
{
    dst[from..to].fill(0);
}

// The record's first six bytes: mark, version, a zero byte.
fn write_mark(kept: &mut [u8])
    requires { 6 ≤ length kept.old }
    ensures { kept.new ≡ sets kept.old 0 (84 ∷ 67 ∷ 82 ∷ 1 ∷ 0 ∷ 0 ∷ []) }
{
    kept[..6].copy_from_slice(b"TCR\x01\0\0");
}

// The counts of types, rows and open calls.
fn write_counts(kept: &mut [u8], types: u16, rows: u16, calls: u16)
    requires { 12 ≤ length kept.old }
    ensures { kept.new ≡ sets kept.old 6 (spell 2 types ++ (spell 2 rows ++ spell 2 calls)) }
{
    put16_at(kept, TYPE_COUNT_AT, types);
    put16_at(kept, ROW_COUNT_AT, rows);
    put16_at(kept, OPEN_COUNT_AT, calls);
}

// The next number, the program's type, two zeros.
fn write_next(kept: &mut [u8], next: u32, program: u16)
    requires { 20 ≤ length kept.old }
    ensures { kept.new ≡ sets kept.old 12 (spell 4 next ++ (spell 2 program ++ spell 2 0)) }
{
    put32_at(kept, NEXT_AT, next);
    put16_at(kept, PROGRAM_AT, program);
    put16_at(kept, ZEROS_AT, 0);
}

// A record's header; the bytes behind it stand.
pub fn write_head(kept: &mut [u8], types: u16, rows: u16, calls: u16, next: u32, program: u16)
    requires { 20 ≤ length kept.old }
    ensures { kept.new ≡ write record_head (record_mark ++ (types ∷ rows ∷ calls ∷ next ∷ program ∷ 0 ∷ [])) ++ drop 20 kept.old }
{
    write_mark(kept);
    write_counts(kept, types, rows, calls);
    write_next(kept, next, program);
}
