// A reply taken: its rows for each future of its number, its entry out of the open list, the record written anew from the changed row on.
#![tactic(auto)]

use layout::kinds::Kind;
use layout::{Limits, Row};

pub mod verdict;

ghost use Rattle.std.specs.Prelude.{◌≡◌, ◌++◌, ◌+◌, ◌*◌, ◌/◌, ◌≤◌, length, drop, replicate};
ghost use Rattle.meaning.specs.Bytes.{writes, term_row};
ghost use Rattle.meaning.specs.Records.{record_of, state_of};
ghost use Rattle.meaning.specs.Entries.{stepped, replied_state};
ghost use Rattle.layout.specs.Rows.{board, numbers, row_table};
ghost use Rattle.settle.specs.Settled.{is_due, settled, Stands, Taken, Fitting, Settles};

// A row is a future of the number.
#[tactic(auto, using(crate::proofs::Rules::is_due_laws))]
fn is_due(r: Row, number: u32) -> bool
    ensures { result ≡ is_due number (numbers r) }
{
    r.is(Kind::Future) && r.word == number
}

// How many rows there are once the reply's rows stand for each future of the number, counted. Apart from the two walks below: one writes all rows, one
// the futures' places only, and a closure for what each does would be as long as its loop.
#[tactic(auto, using(crate::proofs::Rules::count_after_laws))]
fn count_after(rows: &[u8], value: &[u8], number: u32) -> usize
    requires { (length rows.now ≤ 16384) × (length value.now ≤ 2048) }
    ensures { result ≡ length (settled number (row_table value.now) (row_table rows.now)) }
{
    let more = layout::term_rows(value);
    let mut total = 0;
    for i in 0..layout::term_rows(rows) {
        if is_due(layout::row_at(rows, i), number) {
            total += more;
        } else {
            total += 1;
        }
    }
    total
}

// The same. A reply of one row changes no count.
#[tactic(auto, using(crate::proofs::Rules::rows_after_laws))]
pub fn rows_after(rows: &[u8], value: &[u8], number: u32) -> usize
    requires { (length rows.now ≤ 16384) × (length value.now ≤ 2048) }
    ensures { result ≡ length (settled number (row_table value.now) (row_table rows.now)) }
{
    if layout::term_rows(value) == 1 {
        return layout::term_rows(rows);
    }
    count_after(rows, value, number)
}

// The first row that is a future of the number, or how many rows there are.
fn first_due(rows: &[u8], number: u32) -> usize
    requires { length rows.now ≤ 32768 }
    ensures { Stands number (row_table rows.now) result }
{
    match layout::first_failing(rows, |r| !is_due(r, number)) {
        Some(i) => i as usize,
        None => layout::term_rows(rows),
    }
}

// The rows go to the work buffer, with the reply's rows for each future of the number; how many bytes they are.
#[tactic(auto, using(crate::proofs::Rules::settle_rows_laws))]
fn settle_rows(work: &mut [u8], rows: &[u8], value: &[u8], number: u32) -> usize
    requires { (8 * length (settled number (row_table value.now) (row_table rows.now)) ≤ length work.old) × (length value.now ≡ 8 * (length value.now / 8)) }
    ensures { (result ≡ 8 * length (settled number (row_table value.now) (row_table rows.now))) × (work.new ≡ writes term_row (settled number (row_table value.now) (row_table rows.now)) ++ drop result work.old) }
{
    let mut out = 0;
    for i in 0..layout::term_rows(rows) {
        if is_due(layout::row_at(rows, i), number) {
            layout::copy_to(work, out, value, 0, value.len());
            out += value.len();
        } else {
            layout::copy_row(work, out, rows, layout::TERM_ROW * i);
            out += layout::TERM_ROW;
        }
    }
    out
}

// A reply of one row comes to stand in the place of each future of the number.
#[tactic(auto, using(crate::proofs::Rules::settle_each_laws))]
fn settle_each(rows: &mut [u8], value: &[u8], number: u32)
    requires { (length rows.old ≡ 8 * (length rows.old / 8)) × (length value.now ≡ 8) }
    ensures { rows.new ≡ writes term_row (settled number (row_table value.now) (row_table rows.old)) }
{
    for i in 0..layout::term_rows(rows) {
        if is_due(layout::row_at(rows, i), number) {
            layout::copy_row(rows, layout::TERM_ROW * i, value, 0);
        }
    }
}

// The term in a record's row space, `used` bytes of it, settled by way of the work buffer, which is cleared: the tail from the first
// future on is lent to the copying function. How many rows the term has.
#[tactic(auto, using(crate::proofs::Rules::settle_term_laws))]
fn settle_term(space: &mut [u8], used: usize, work: &mut [u8], value: &[u8], number: u32) -> usize
    requires fitting { Fitting space.old used work.old value.now number }
    requires few { used ≤ 32768 }
    ensures { Settles space.old used work.old value.now number result space.new work.new }
{
    let first = first_due(&space[..used], number);
    let from = layout::TERM_ROW * first;
    let n = settle_rows(work, &space[from..used], value, number);
    layout::copy_to(&mut space[from..], 0, work, 0, n);
    let end = work.len();
    layout::clear(work, 0, end);
    first + n / layout::TERM_ROW
}

// The term of an accepted reply's record, and a work buffer of zeros. A reply of one row goes to its places at once: it changes no count, and
// nothing behind the rows.
#[tactic(auto, using(crate::proofs::Rules::replace_term_laws))]
fn replace_term(kept: &mut [u8], work: &mut [u8], answer: &[u8], m: Limits)
    requires { (Taken m kept.old answer.now) × (8 * m.rows ≤ length work.old) }
    ensures { (kept.new ≡ record_of (board m) (stepped (state_of (board m) kept.old) (replied_state (state_of (board m) kept.old) answer.now).tree)) × (work.new ≡ replicate (length work.old) 0) }
{
    let number = layout::u32_at(answer, 0);
    let at = layout::rows_at(m);
    let used = layout::TERM_ROW * sound::head::row_count(kept) as usize;
    let value = &answer[layout::REPLY_HEAD..];
    if value.len() == layout::TERM_ROW {
        settle_each(&mut kept[at..at + used], value, number);
        let all = work.len();
        layout::clear(work, 0, all);
        return;
    }
    let rows = settle_term(&mut kept[at..], used, work, value, number);
    keep::renew_rows(kept, m, rows);
}

// An accepted reply's record, and a work buffer of zeros.
#[tactic(auto, using(crate::proofs::Rules::settle_laws))]
pub fn settle(kept: &mut [u8], work: &mut [u8], answer: &[u8], m: Limits)
    requires { (Taken m kept.old answer.now) × (8 * m.rows ≤ length work.old) }
    ensures { (kept.new ≡ record_of (board m) (replied_state (state_of (board m) kept.old) answer.now)) × (work.new ≡ replicate (length work.old) 0) }
{
    let number = layout::u32_at(answer, 0);
    let calls = sound::open_list(kept, m);
    let left = calls.without(number);
    let next = sound::head::next_number(kept);
    replace_term(kept, work, answer, m);
    keep::renew_calls(kept, m, left, next);
}
