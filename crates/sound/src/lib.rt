// When a run record is sound: a named test for each thing that is asked of it.
#![tactic(auto)]

use layout::kinds::Kind;
use layout::views::Types;
use layout::{Limits, Row};
use open::OpenList;
use quick::Seen;

pub mod head;

ghost use Rattle.std.specs.Prelude.{◌≡◌, true, false, ◌++◌, ◌+◌, ◌*◌, ◌≤◌, max, length};
ghost use Rattle.meaning.specs.Bytes.{zeros, record_bytes};
ghost use Rattle.meaning.specs.Types.{form_of};
ghost use Rattle.meaning.specs.Records.{type_count, row_count, types_in, entries_in, rows_in, nothing, first_not, rises, future_listed, entry_sound, state_of, space_sound, types_sound, shape_sound, term_sound, calls_sound, futures_sound, program_sound, sound};
ghost use Rattle.layout.specs.Rows.{board, numbers, type_table, row_table};
ghost use Rattle.open.specs.Open.{Lists};
ghost use Rattle.sound.specs.Ready.{Roomy, Ready, ShowsRows, entry_table, call_table, others_sound, rest_sound};

// The greater of two bytes.
fn greater(a: u8, b: u8) -> u8
    ensures { result ≡ max a b }
{
    if a < b {
        return b;
    }
    a
}

// Each byte is zero: the greatest is, so that the loop has no other end and takes many bytes at a time.
#[tactic(auto, using(crate::proofs::Rules::few_zero_laws))]
fn few_zero(bytes: &[u8]) -> bool
    ensures { result ≡ zeros bytes.now }
{
    let mut most: u8 = 0;
    for b in bytes {
        most = greater(most, *b);
    }
    most == 0
}

// The same of four parts of one length: four bytes a turn, so that the loop waits less for the greatest so far.
#[tactic(auto, using(crate::proofs::Rules::four_zero_laws))]
fn four_zero(a: &[u8], b: &[u8], c: &[u8], d: &[u8]) -> bool
    requires { (length b.now ≡ length a.now) × (length c.now ≡ length a.now) × (length d.now ≡ length a.now) }
    ensures { result ≡ zeros (a.now ++ b.now ++ c.now ++ d.now) }
{
    let mut most: u8 = 0;
    for i in 0..a.len() {
        most = greater(most, greater(greater(a[i], b[i]), greater(c[i], d[i])));
    }
    most == 0
}

// Each byte is zero: those of four parts of one length, and the few behind them.
fn all_zero(bytes: &[u8]) -> bool
    ensures { result ≡ zeros bytes.now }
{
    let h = bytes.len() / 4;
    if !few_zero(&bytes[4 * h..]) {
        return false;
    }
    four_zero(
        &bytes[..h],
        &bytes[h..2 * h],
        &bytes[2 * h..3 * h],
        &bytes[3 * h..4 * h],
    )
}

// Each open number is above the one before it, the first above 0.
#[tactic(auto, using(crate::proofs::Rules::rising_laws))]
fn rising(calls: &[u8]) -> bool
    ensures { result ≡ rises 0 (call_table calls.now) }
{
    let all = calls.len() / layout::ENTRY_ROW;
    let mut low: u32 = 0;
    for i in 0..all {
        let number = layout::u32_at(calls, layout::ENTRY_ROW * i);
        if number <= low {
            return false;
        }
        low = number;
    }
    true
}

// A row is no future, or its number is open under the type that it states.
#[tactic(auto, using(crate::proofs::Rules::is_listed_laws))]
fn is_listed(calls: &[u8], r: Row) -> bool
    ensures { result ≡ future_listed (call_table calls.now) (numbers r) }
{
    if !r.is(Kind::Future) {
        return true;
    }
    let all = calls.len() / layout::ENTRY_ROW;
    for i in 0..all {
        let at = layout::ENTRY_ROW * i;
        if layout::u32_at(calls, at) == r.word {
            return layout::u16_at(calls, at + layout::ENTRY_TYPE_AT) == r.ty;
        }
    }
    false
}

// Each future among the rows is listed with its type.
fn futures_listed(rows: &[u8], calls: &[u8]) -> bool
    requires { length rows.now ≤ 32768 }
    ensures { result ≡ nothing (first_not (future_listed (call_table calls.now)) (row_table rows.now)) }
{
    layout::first_failing(rows, |r| is_listed(calls, r)).is_none()
}

// Each entry's number is below the next one, its type is ground, its last field is zero.
#[tactic(auto, using(crate::proofs::Rules::entries_sound_laws))]
fn entries_sound(types: &[u8], calls: &[u8], next: u32) -> bool
    requires { length types.now ≤ 9216 }
    ensures { result ≡ nothing (first_not (entry_sound (form_of (type_table types.now)) next) (entry_table calls.now)) }
{
    let all = calls.len() / layout::ENTRY_ROW;
    let mut known = [0u8; 256];
    for i in 0..all {
        let at = layout::ENTRY_ROW * i;
        if next <= layout::u32_at(calls, at) {
            return false;
        }
        let ty = layout::u16_at(calls, at + layout::ENTRY_TYPE_AT);
        if !types::ground_at(types, &mut known, ty as usize) {
            return false;
        }
        if layout::u16_at(calls, at + layout::ENTRY_ZEROS_AT) != 0 {
            return false;
        }
    }
    true
}

// The bytes of a record's types.
#[tactic(auto, using(crate::proofs::Rules::types_of_laws))]
fn type_bytes(kept: &[u8]) -> &[u8]
    requires { 20 + 36 * type_count kept.now ≤ length kept.now }
    ensures table { type_table result.now ≡ types_in kept.now }
    ensures long { length result.now ≡ 36 * type_count kept.now }
{
    let end = layout::RECORD_HEAD + layout::TYPE_ROW * head::type_count(kept) as usize;
    &kept[layout::RECORD_HEAD..end]
}

// The types of a record.
pub fn types_of(kept: &[u8]) -> Types<'_>
    requires { 20 + 36 * type_count kept.now ≤ length kept.now }
    ensures { result ≡ types_in kept.now }
{
    Types::new(type_bytes(kept))
}

// The entries of its open list.
#[tactic(auto, using(crate::proofs::Rules::entries_of_laws))]
fn entries_of(kept: &[u8], m: Limits) -> &[u8]
    requires { Ready m kept.now }
    ensures { entry_table result.now ≡ entries_in (board m) kept.now }
{
    let at = layout::calls_at(m);
    let end = at + layout::ENTRY_ROW * head::open_count(kept) as usize;
    &kept[at..end]
}

// The rows of its term.
#[tactic(auto, using(crate::proofs::Rules::rows_of_laws))]
pub fn rows_of(kept: &[u8], m: Limits) -> &[u8]
    requires { Ready m kept.now }
    ensures table { row_table result.now ≡ rows_in (board m) kept.now }
    ensures long { length result.now ≡ 8 * row_count kept.now }
    ensures some { 8 ≤ length result.now }
    ensures few { length result.now ≤ 16384 }
{
    let at = layout::rows_at(m);
    let end = at + layout::TERM_ROW * head::row_count(kept) as usize;
    &kept[at..end]
}

// "Unused space is zero": behind the rows in use of each part.
#[tactic(auto, using(crate::proofs::Rules::space_sound_laws))]
fn space_sound(kept: &[u8], m: Limits) -> bool
    requires { Ready m kept.now }
    ensures { result ≡ space_sound (board m) kept.now }
{
    let calls = layout::calls_at(m);
    let rows = layout::rows_at(m);
    let types_end = layout::RECORD_HEAD + layout::TYPE_ROW * head::type_count(kept) as usize;
    if !all_zero(&kept[types_end..calls]) {
        return false;
    }
    let calls_end = calls + layout::ENTRY_ROW * head::open_count(kept) as usize;
    if !all_zero(&kept[calls_end..rows]) {
        return false;
    }
    let rows_end = rows + layout::TERM_ROW * head::row_count(kept) as usize;
    all_zero(&kept[rows_end..])
}

// "its types .. pass what [refusal 6 tests]"
#[tactic(auto, using(crate::proofs::Rules::parts_laws), unfolding(meaning::specs::Records::types_sound))]
fn types_sound(kept: &[u8], m: Limits) -> bool
    requires { Ready m kept.now }
    ensures { result ≡ types_sound kept.now }
{
    types::bad_type(type_bytes(kept), head::edition(kept)).is_none()
}

// "and term pass what refusals .. 7 .. test"
#[tactic(auto, using(crate::proofs::Rules::parts_laws), unfolding(meaning::specs::Records::shape_sound))]
fn shape_sound(kept: &[u8], m: Limits) -> bool
    requires { Ready m kept.now }
    ensures { result ≡ shape_sound (board m) kept.now }
{
    let rows = rows_of(kept, m);
    terms::check_shape(rows, head::type_count(kept), head::edition(kept)).is_ok()
}

// "and 9 test"
#[tactic(auto, using(crate::proofs::Rules::parts_laws), unfolding(meaning::specs::Records::term_sound, meaning::specs::Records::state_of))]
fn term_sound(kept: &[u8], m: Limits) -> bool
    requires { (Ready m kept.now) × (shape_sound (board m) kept.now ≡ true) }
    ensures { result ≡ term_sound (board m) kept.now }
{
    typing::first_bad(&types_of(kept), rows_of(kept, m)).is_none()
}

// A row that fails by itself: then the record is not sound, whether its shape is whole or not.
#[tactic(auto, using(crate::proofs::Rules::parts_laws))]
fn row_fails(kept: &[u8], m: Limits, row: usize) -> bool
    requires { Ready m kept.now }
    ensures { result ≡ true → rest_sound (board m) kept.now ≡ false }
{
    typing::leaf_fails(&types_of(kept), rows_of(kept, m), row)
}

// What is seen of the rows at once.
#[tactic(auto, using(crate::proofs::Rules::parts_laws))]
fn quick_sound(kept: &[u8], m: Limits) -> Seen
    requires { Ready m kept.now }
    ensures { ShowsRows (board m) kept.now result }
{
    quick::all_good(&types_of(kept), rows_of(kept, m), head::edition(kept))
}

// The open calls of a record.
#[tactic(auto, using(crate::proofs::Rules::open_list_laws))]
pub fn open_list(kept: &[u8], m: Limits) -> OpenList
    requires { Ready m kept.now }
    ensures { Lists result (state_of (board m) kept.now).calls }
{
    let at = layout::calls_at(m);
    let end = layout::rows_at(m);
    open::load(&kept[at..end], head::open_count(kept) as usize)
}

// "kept in rising order of number", "every open number is at least 1 and below the next and its type ground"
#[tactic(auto, using(crate::proofs::Rules::parts_laws), unfolding(meaning::specs::Records::calls_sound, meaning::specs::Records::state_of))]
fn calls_sound(kept: &[u8], m: Limits) -> bool
    requires { Ready m kept.now }
    ensures { result ≡ calls_sound (board m) kept.now }
{
    let calls = entries_of(kept, m);
    if !rising(calls) {
        return false;
    }
    entries_sound(type_bytes(kept), calls, head::next_number(kept))
}

// "each future in the term is listed with its type", where there may be one
#[tactic(auto, using(crate::proofs::Rules::parts_laws), unfolding(meaning::specs::Records::futures_sound, meaning::specs::Records::state_of))]
fn futures_sound(kept: &[u8], m: Limits, future: bool) -> bool
    requires { Ready m kept.now × (future ≡ false → futures_sound (board m) kept.now ≡ true) }
    ensures { result ≡ futures_sound (board m) kept.now }
{
    if !future {
        return true;
    }
    futures_listed(rows_of(kept, m), entries_of(kept, m))
}

// "the first row has the program type"
#[tactic(auto, using(crate::proofs::Rules::parts_laws), unfolding(meaning::specs::Records::program_sound))]
fn program_sound(kept: &[u8], m: Limits) -> bool
    requires { Ready m kept.now }
    ensures { result ≡ program_sound (board m) kept.now }
{
    layout::u16_at(rows_of(kept, m), layout::ROW_TYPE_AT) == head::program_type(kept)
}

// The tests behind those of the rows: the open list, the futures, where there may be one, the program's type.
#[tactic(auto, using(crate::proofs::Rules::others_sound_laws))]
fn others_sound(kept: &[u8], m: Limits, future: bool) -> bool
    requires { Ready m kept.now × (future ≡ false → futures_sound (board m) kept.now ≡ true) }
    ensures { result ≡ others_sound (board m) kept.now }
{
    if !calls_sound(kept, m) {
        return false;
    }
    if !futures_sound(kept, m, future) {
        return false;
    }
    program_sound(kept, m)
}

// The tests behind that of the types, each of the rows' by a pass of its own. A row that may fail by itself is asked before them.
#[tactic(auto, using(crate::proofs::Rules::rest_sound_laws))]
fn rest_sound(kept: &[u8], m: Limits, row: usize) -> bool
    requires { Ready m kept.now }
    ensures { result ≡ rest_sound (board m) kept.now }
{
    if row_fails(kept, m, row) {
        return false;
    }
    if !shape_sound(kept, m) {
        return false;
    }
    if !term_sound(kept, m) {
        return false;
    }
    others_sound(kept, m, true)
}

// A record of the right length is sound. Rows that are seen to be good at once need no passes of their own.
#[tactic(auto, using(crate::proofs::Rules::is_sound_laws))]
pub fn is_sound(kept: &[u8], m: Limits) -> bool
    requires { (Roomy m) × (length kept.now ≡ record_bytes (board m)) }
    ensures { result ≡ sound (board m) kept.now }
{
    if !head::head_sound(kept, m) {
        return false;
    }
    if !space_sound(kept, m) {
        return false;
    }
    if !types_sound(kept, m) {
        return false;
    }
    match quick_sound(kept, m) {
        Ok(future) => others_sound(kept, m, future),
        Err(row) => rest_sound(kept, m, row),
    }
}
