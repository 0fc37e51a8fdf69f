// A run: the steps of a sound record's term, made in the record's row space and the work buffer.
#![tactic(auto)]

ghost use Rattle.std.specs.Prelude.{◌≡◌, ℕ, ◌+◌, ◌*◌, ◌-◌, ◌≤◌, ◌<◌, true, false, List, [], ◌∷◌, ◌++◌, length, take, drop, replicate};
ghost use Rattle.meaning.specs.Bytes.{number, write, term_row, record_bytes, arm};
ghost use Rattle.meaning.specs.Records.{row_count as term_count, type_count, types_in};
ghost use Rattle.layout.specs.Rows.{board};
ghost use Rattle.search.specs.Kept.{row_count};
ghost use Rattle.meaning.specs.Types.{Form, form_of};
ghost use Rattle.meaning.specs.Terms.{Tree};
ghost use Rattle.meaning.proofs.Trees.EachRow.{Every};
ghost use Rattle.meaning.proofs.Bytes.RowTables.{legal};
ghost use Rattle.search.specs.Search.{Room};
ghost use Rattle.runs.specs.Sites.{Whole, Passing, Halts, GoesOn, InRecord, CallsOut, Calling};
ghost use Rattle.runs.specs.Tries.{Trying, Tries, Turning, Going, Makes, Steps, Stands, Found, at_root, call_by};
ghost use Rattle.runs.specs.declared.Tried.TheVariants as Tried;
ghost use Rattle.runs.specs.declared.Tried.TheVariants.{Goes, Sends, Uncounted};
ghost use Rattle.runs.specs.Going.{space, Begins, PutBack, letter_from};
ghost use Rattle.runs.specs.Loops.{TellsValue, SentOff, Ready, GoneSays, said_later, steps_said};
ghost use Rattle.meaning.specs.Records.{head_sound, open_count};
ghost use Rattle.meaning.specs.Entries.{RunSays};
ghost use Rattle.meaning.specs.Answers.{ended_by};
ghost use Rattle.runs.specs.Sites.{Halted, own};
ghost use Rattle.meaning.specs.Steps.{stay};

use layout::Limits;
use layout::kinds::Kind;
use layout::views::Types;
use meaning::{Answer, Ran, Run};
use search::Stand;

// Of a call's rows: the tool's number in the second, and where the arguments begin.
const TOOL_WORD: usize = layout::TERM_ROW + layout::ROW_WORD_AT;

const ARGUMENTS: usize = 2 * layout::TERM_ROW;

// A letter has so many bytes less than the rows of its call.
const LETTER_LESS: usize = ARGUMENTS - layout::CALL_HEAD;

// What a rule that is tried tells: it stays; it goes, with the rows that give way and the new rows; it sends, with the rows of its tree; it goes, and
// its rows are counted when they are made. A tree that stands already, behind some rows of the one that reduces, has no new rows.
#[derive(Clone, Copy)]
pub enum Tried {
    Stays,
    Goes(usize, usize),
    Sends(usize),
    Uncounted,
}

// The record's rows go to the end of the work buffer: all of them are to come.
fn begin(kept: &[u8], work: &mut [u8], m: Limits) -> Stand
    requires { (length kept.now ≡ record_bytes (board m)) × (term_count kept.now ≤ m.rows) × (8 * m.rows ≤ length work.old) }
    ensures { Begins (board m) kept.now work.old work.new result }
{
    let n = layout::wide(sound::head::row_count(kept));
    let e = layout::term_rows(work);
    let r = e - n;
    let from = layout::rows_at(m);
    layout::copy_to(work, layout::TERM_ROW * r, kept, from, layout::TERM_ROW * n);
    Stand {
        l: 0,
        r,
        d: 0,
        here: false,
    }
}

// The rows to come go behind the rows passed, and the record counts them.
fn put_back(kept: &mut [u8], work: &[u8], m: Limits, s: Stand)
    requires { (length kept.old ≡ record_bytes (board m)) × (s.r ≤ row_count work.now) × (s.l + (row_count work.now - s.r) ≤ m.rows) × (length work.now ≤ 32768) }
    ensures { PutBack (board m) kept.old kept.new work.now s }
{
    let l = s.l;
    let r = s.r;
    let n = layout::term_rows(work) - r;
    let at = layout::rows_at(m) + layout::TERM_ROW * l;
    layout::copy_to(kept, at, work, layout::TERM_ROW * r, layout::TERM_ROW * n);
    keep::renew_rows(kept, m, l + n);
}

// The run ends here: the record holds the whole, the work buffer zeros.
fn finish(kept: &mut [u8], work: &mut [u8], m: Limits, s: Stand)
    requires { (length kept.old ≡ record_bytes (board m)) × (s.r ≤ row_count work.old) × (s.l + (row_count work.old - s.r) ≤ m.rows) × (length work.old ≤ 32768) }
    ensures { PutBack (board m) kept.old kept.new work.old s × (work.new ≡ replicate (length work.old) 0) }
{
    put_back(kept, work, m, s);
    let end = work.len();
    layout::clear(work, 0, end);
}

// A call's letter goes to the front of the work buffer: number, tool, row count and result type, then the rows of the arguments.
fn write_letter(call: &[u8], work: &mut [u8], next: u32)
    requires { (16 ≤ length call.now) × (length call.now ≤ 16384) × (length call.now ≤ length work.old) }
    ensures { work.new ≡ letter_from next call.now ++ drop (length call.now - 4) work.old }
{
    let n = call.len();
    layout::put32_at(work, 0, next);
    layout::put32_at(work, layout::CALL_TOOL_AT, layout::u32_at(call, TOOL_WORD));
    layout::put16_at(
        work,
        layout::CALL_COUNT_AT,
        (n / layout::TERM_ROW - 2) as u16,
    );
    layout::put16_at(
        work,
        layout::CALL_TYPE_AT,
        layout::u16_at(call, layout::ROW_TYPE_AT),
    );
    layout::copy_to(work, layout::CALL_HEAD, call, ARGUMENTS, n - ARGUMENTS);
}

// The future of a call comes to stand before row r, in the place of the call.
fn put_future(work: &mut [u8], r: usize, ty: u16, next: u32)
    requires { (0 < r) × (8 * r ≤ length work.old) }
    ensures { work.new ≡ take (8 * (r - 1)) work.old ++ (write term_row (9 ∷ 0 ∷ ty ∷ next ∷ []) ++ drop (8 * (r - 1) + 8) work.old) }
{
    let at = layout::TERM_ROW * (r - 1);
    work[at] = Kind::Future as u8;
    work[at + 1] = 0;
    layout::put16_at(work, at + layout::ROW_TYPE_AT, ty);
    layout::put32_at(work, at + layout::ROW_WORD_AT, next);
}

// The search goes on in the record's row space until it stops.
fn seek_in(kept: &mut [u8], work: &[u8], frames: &mut [u32], m: Limits, s: Stand) -> Stand
    requires { (length kept.old ≡ record_bytes (board m)) × Room (space (board m) kept.old) work.now frames.old s × ((form : ℕ → Form) × (k : ℕ) × (t : Tree) × Whole form k (space (board m) kept.old) work.now frames.old s t) }
    ensures { InRecord (board m) kept.old kept.new × Halts (space (board m) kept.old) (space (board m) kept.new) work.now frames.old frames.new s result }
{
    let at = layout::rows_at(m);
    search::seek(&mut kept[at..], work, frames, s)
}

// A tree whose own rule stays is passed.
fn stay_here(kept: &mut [u8], work: &[u8], frames: &mut [u32], m: Limits, s: Stand) -> Stand
    requires { (length kept.old ≡ record_bytes (board m)) × Room (space (board m) kept.old) work.now frames.old s × (s.here ≡ true) × ((form : ℕ → Form) × (k : ℕ) × (t : Tree) × Passing form k (space (board m) kept.old) work.now frames.old s t) }
    ensures { InRecord (board m) kept.old kept.new × GoesOn (space (board m) kept.old) (space (board m) kept.new) work.now frames.old frames.new s result }
{
    let at = layout::rows_at(m);
    search::pass_by(&mut kept[at..], work, frames, s)
}

// A frame whose own rule stays is left.
fn stay_end(kept: &[u8], frames: &mut [u32], m: Limits, s: Stand) -> Stand
    requires { (length kept.now ≡ record_bytes (board m)) × ((form : ℕ → Form) × (k : ℕ) × (t : Tree) × (work : List ℕ) × Room (space (board m) kept.now) work frames.old s × (s.here ≡ false) × Passing form k (space (board m) kept.now) work frames.old s t) }
    ensures { (work : List ℕ) → Room (space (board m) kept.now) work frames.old s → s.here ≡ false → GoesOn (space (board m) kept.now) (space (board m) kept.now) work frames.old frames.new s result }
{
    let at = layout::rows_at(m);
    search::leave(&kept[at..], frames, s)
}

// A call that goes out: the rows of its tree, and its number.
#[derive(Clone, Copy)]
pub struct Outgoing {
    pub old: usize,
    pub next: u32,
}

// The result type of the call at the end of the rows passed.
fn call_type(kept: &[u8], m: Limits, s: Stand, old: usize) -> u16
    requires { (length kept.now ≡ record_bytes (board m)) × (old ≤ s.l) × (s.l ≤ m.rows) × (2 ≤ old) }
    ensures { result ≡ number 2 (drop 2 (take (8 * old) (drop (8 * (s.l - old)) (space (board m) kept.now)))) }
{
    let l = s.l;
    let at = layout::rows_at(m);
    let p = at + layout::TERM_ROW * (l - old);
    let q = p + layout::TERM_ROW * old;
    layout::u16_at(&kept[p..q], layout::ROW_TYPE_AT)
}

// The call at the end of the rows passed goes out: its future comes to stand in its place, its letter at the front of the work buffer.
fn call_out(kept: &[u8], work: &mut [u8], frames: &[u32], m: Limits, s: Stand, o: Outgoing) -> Stand
    requires { (length kept.now ≡ record_bytes (board m)) × Room (space (board m) kept.now) work.old frames.now s × (s.here ≡ false) × (m.rows ≤ 2048) × (s.l + (row_count work.old - s.r) ≤ m.rows) × (s.l + 2 ≤ s.r) × Calling (space (board m) kept.now) work.old frames.now s o.old o.next × (o.next < 4294967296) }
    ensures { CallsOut (space (board m) kept.now) work.old work.new frames.now s result o.old o.next }
{
    let l = s.l;
    let r = s.r;
    let old = o.old;
    let next = o.next;
    let at = layout::rows_at(m);
    put_future(work, r, call_type(kept, m, s, old), next);
    let e = search::back_up(
        &kept[at..],
        work,
        frames,
        Stand {
            l: l - old,
            r: r - 1,
            d: s.d - 1,
            here: false,
        },
    );
    let p = at + layout::TERM_ROW * (l - old);
    let q = p + layout::TERM_ROW * old;
    write_letter(&kept[p..q], work, next);
    e
}

// Where the record's types end.
fn types_end(kept: &[u8]) -> usize
    requires { 20 ≤ length kept.now }
    ensures { result ≡ 20 + 36 * type_count kept.now }
{
    layout::RECORD_HEAD + layout::TYPE_ROW * layout::wide(sound::head::type_count(kept))
}

// The rule of the tree at the search is tried on all its rows.
fn try_whole(kept: &[u8], work: &[u8], s: Stand) -> Tried
    requires { (20 + 36 * type_count kept.now ≤ length kept.now) × (row_count work.now ≤ 4096) × (s.here ≡ true) × ((left : List ℕ) × (frames : List ℕ) × Trying (form_of (types_in kept.now)) left work.now frames s × Room left work.now frames s × (row_count work.now - s.r ≤ 2048)) }
    ensures { ((left : List ℕ) (frames : List ℕ) → Tries (form_of (types_in kept.now)) left work.now frames s result) × (result ≡ Uncounted → ⊥) }
{
    let r = s.r;
    let n = terms::end_of(&work[layout::TERM_ROW * r..], 0);
    let e = types_end(kept);
    let a = layout::TERM_ROW * r;
    let b = a + layout::TERM_ROW * n;
    match reduce::count(&Types::new(&kept[layout::RECORD_HEAD..e]), &work[a..b]) {
        None => Tried::Stays,
        Some(new) => Tried::Goes(n, new),
    }
}

// The rule of the tree at the search is tried: that of a value stays, and another may make the end of its tree, which stands already.
fn try_here(kept: &[u8], work: &[u8], s: Stand) -> Tried
    requires { (20 + 36 * type_count kept.now ≤ length kept.now) × (row_count work.now ≤ 4096) × (s.here ≡ true) × ((left : List ℕ) × (frames : List ℕ) × Trying (form_of (types_in kept.now)) left work.now frames s × Room left work.now frames s × (row_count work.now - s.r ≤ 2048)) }
    ensures { (left : List ℕ) (frames : List ℕ) → Tries (form_of (types_in kept.now)) left work.now frames s result }
{
    let r = s.r;
    if search::plain(work[layout::TERM_ROW * r]) {
        return Tried::Stays;
    }
    if let Some(k) = reduce::behind::rows_before(&work[layout::TERM_ROW * r..]) {
        return Tried::Goes(k, 0);
    }
    let e = types_end(kept);
    if reduce::once::goes(
        &Types::new(&kept[layout::RECORD_HEAD..e]),
        &work[layout::TERM_ROW * r..],
    ) {
        return Tried::Uncounted;
    }
    if reduce::once::calls_zip(&work[layout::TERM_ROW * r..]) {
        return Tried::Uncounted;
    }
    try_whole(kept, work, s)
}

// A tree of old rows at the search becomes one of new rows, which ends where it ended: its rows are copied behind the rows passed, to be read there.
fn make_here(kept: &mut [u8], work: &mut [u8], m: Limits, s: Stand, old: usize, new: usize) -> Stand
    requires { (length kept.old ≡ record_bytes (board m)) × (type_count kept.old ≤ m.types) × (s.here ≡ true) × (m.rows ≤ 2048) × ((frames : List ℕ) × Room (space (board m) kept.old) work.old frames s × (s.l + (row_count work.old - s.r) ≤ m.rows) × (new ≤ s.r + old) × Going (form_of (types_in kept.old)) (space (board m) kept.old) work.old frames s old new) }
    ensures { InRecord (board m) kept.old kept.new × Makes (form_of (types_in kept.old)) (space (board m) kept.old) (space (board m) kept.new) work.old work.new s result old new }
{
    let l = s.l;
    let r = s.r;
    let e = types_end(kept);
    let p = layout::rows_at(m) + layout::TERM_ROW * l;
    let q = p + layout::TERM_ROW * old;
    layout::copy_to(kept, p, work, layout::TERM_ROW * r, layout::TERM_ROW * old);
    let a = layout::TERM_ROW * (r + old - new);
    let b = a + layout::TERM_ROW * new;
    reduce::reduce(
        &Types::new(&kept[layout::RECORD_HEAD..e]),
        &kept[p..q],
        &mut work[a..b],
    );
    Stand {
        l,
        r: r + old - new,
        d: s.d,
        here: false,
    }
}

// Whether rows begin with an application of a foreign function.
#[tactic(auto, using(search::proofs::Ors::ors), unfolding(crate::specs::Tries::call_by))]
fn is_call(rows: &[u8]) -> bool
    requires { 8 ≤ length rows.now }
    ensures { result ≡ call_by rows.now }
{
    rows[0] == Kind::Apply.number()
        && layout::TERM_ROW < rows.len()
        && rows[layout::TERM_ROW] == Kind::Foreign.number()
}

// The rule of the frame whose trees are passed is tried on all its rows: it comes last. A call is sent if all its arguments are values, as the frame's
// flag tells.
fn try_last(kept: &[u8], frames: &[u32], m: Limits, s: Stand) -> Tried
    requires { (length kept.now ≡ record_bytes (board m)) × (type_count kept.now ≤ m.types) × (s.here ≡ false) × (m.rows ≤ 2048) × (s.l ≤ m.rows) × ((work : List ℕ) × Trying (form_of (types_in kept.now)) (space (board m) kept.now) work frames.now s × Room (space (board m) kept.now) work frames.now s) }
    ensures { (work : List ℕ) → Tries (form_of (types_in kept.now)) (space (board m) kept.now) work frames.now s result }
{
    let l = s.l;
    let d = s.d;
    let f = frames[d - 1];
    let i = search::row_in(f);
    let n = l - i;
    let p = layout::rows_at(m) + layout::TERM_ROW * i;
    let q = p + layout::TERM_ROW * n;
    if is_call(&kept[p..q]) {
        if search::flag_in(f) {
            return Tried::Sends(n);
        }
        return Tried::Stays;
    }
    let e = types_end(kept);
    match reduce::count(&Types::new(&kept[layout::RECORD_HEAD..e]), &kept[p..q]) {
        None => Tried::Stays,
        Some(new) => Tried::Goes(n, new),
    }
}

// The rule of the frame whose trees are passed is tried: that of one that is made of values stays.
fn try_end(kept: &[u8], frames: &[u32], m: Limits, s: Stand) -> Tried
    requires { (length kept.now ≡ record_bytes (board m)) × (type_count kept.now ≤ m.types) × (s.here ≡ false) × (m.rows ≤ 2048) × (s.l ≤ m.rows) × ((work : List ℕ) × Trying (form_of (types_in kept.now)) (space (board m) kept.now) work frames.now s × Room (space (board m) kept.now) work frames.now s) }
    ensures { (work : List ℕ) → Tries (form_of (types_in kept.now)) (space (board m) kept.now) work frames.now s result }
{
    let d = s.d;
    let at = layout::rows_at(m);
    if search::builds(&kept[at..], frames, d - 1) {
        return Tried::Stays;
    }
    try_last(kept, frames, m, s)
}

// A tree of old rows at the end of the rows passed becomes one of new rows, before the rows to come. Apart from make_here: its rows are read where
// they stand in the record, which stays, so neither loan nor facts are the same.
fn make_end(kept: &[u8], work: &mut [u8], m: Limits, s: Stand, old: usize, new: usize) -> Stand
    requires { (length kept.now ≡ record_bytes (board m)) × (type_count kept.now ≤ m.types) × (s.here ≡ false) × (m.rows ≤ 2048) × (s.l ≤ m.rows) × ((frames : List ℕ) × Room (space (board m) kept.now) work.old frames s × (new ≤ s.r) × Going (form_of (types_in kept.now)) (space (board m) kept.now) work.old frames s old new) }
    ensures { Makes (form_of (types_in kept.now)) (space (board m) kept.now) (space (board m) kept.now) work.old work.new s result old new }
{
    let l = s.l;
    let r = s.r;
    let e = types_end(kept);
    let p = layout::rows_at(m) + layout::TERM_ROW * (l - old);
    let q = p + layout::TERM_ROW * old;
    let a = layout::TERM_ROW * (r - new);
    let b = a + layout::TERM_ROW * new;
    reduce::reduce(
        &Types::new(&kept[layout::RECORD_HEAD..e]),
        &kept[p..q],
        &mut work[a..b],
    );
    Stand {
        l: l - old,
        r: r - new,
        d: s.d - 1,
        here: false,
    }
}

// The rule where the search has stopped is tried.
fn try_rule(kept: &[u8], work: &[u8], frames: &[u32], m: Limits, s: Stand) -> Tried
    requires { (length kept.now ≡ record_bytes (board m)) × (type_count kept.now ≤ m.types) × (m.rows ≤ 2048) × (s.l + (row_count work.now - s.r) ≤ m.rows) × Trying (form_of (types_in kept.now)) (space (board m) kept.now) work.now frames.now s × Room (space (board m) kept.now) work.now frames.now s }
    ensures { Tries (form_of (types_in kept.now)) (space (board m) kept.now) work.now frames.now s result }
{
    let here = s.here;
    if here {
        return try_here(kept, work, s);
    }
    try_end(kept, frames, m, s)
}

// The rule where the search has stopped stays, and the search goes on.
fn stay_on(kept: &mut [u8], work: &[u8], frames: &mut [u32], m: Limits, s: Stand) -> Stand
    requires { (length kept.old ≡ record_bytes (board m)) × Room (space (board m) kept.old) work.now frames.old s × ((form : ℕ → Form) × (k : ℕ) × (t : Tree) × Passing form k (space (board m) kept.old) work.now frames.old s t) }
    ensures { InRecord (board m) kept.old kept.new × GoesOn (space (board m) kept.old) (space (board m) kept.new) work.now frames.old frames.new s result }
{
    let here = s.here;
    if here {
        return stay_here(kept, work, frames, m, s);
    }
    stay_end(kept, frames, m, s)
}

// The rows that give way, and how many come in their place.
#[derive(Clone, Copy)]
pub struct Change {
    pub old: usize,
    pub new: usize,
}

// The rule where the search has stopped is carried out.
fn make_rule(kept: &mut [u8], work: &mut [u8], m: Limits, s: Stand, c: Change) -> Stand
    requires { (length kept.old ≡ record_bytes (board m)) × (type_count kept.old ≤ m.types) × (m.rows ≤ 2048) × (s.l + (row_count work.old - s.r) ≤ m.rows) × (m.rows + 2 ≤ row_count work.old) × (s.l + (row_count work.old - s.r) + c.new ≤ m.rows + c.old) × ((frames : List ℕ) × Room (space (board m) kept.old) work.old frames s × Turning (form_of (types_in kept.old)) (space (board m) kept.old) work.old frames s c.old c.new) }
    ensures { InRecord (board m) kept.old kept.new × Makes (form_of (types_in kept.old)) (space (board m) kept.old) (space (board m) kept.new) work.old work.new s result c.old c.new }
{
    let new = c.new;
    if new == 0 {
        return Stand {
            l: s.l,
            r: s.r + c.old,
            d: s.d,
            here: false,
        };
    }
    let here = s.here;
    if here {
        return make_here(kept, work, m, s, c.old, new);
    }
    make_end(kept, work, m, s, c.old, new)
}

// The rule where the search has stopped is carried out, and the search goes on at the new tree, or at the row around it if nothing else of that was passed.
fn step_anew(
    kept: &mut [u8],
    work: &mut [u8],
    frames: &[u32],
    m: Limits,
    s: Stand,
    c: Change,
) -> Stand
    requires { (length kept.old ≡ record_bytes (board m)) × (type_count kept.old ≤ m.types) × (m.rows ≤ 2048) × (s.l + (row_count work.old - s.r) ≤ m.rows) × (m.rows + 2 ≤ row_count work.old) × (s.l + (row_count work.old - s.r) + c.new ≤ m.rows + c.old) × (s.l + (row_count work.old - s.r) + c.new ≤ length frames.now + c.old) × Room (space (board m) kept.old) work.old frames.now s × Turning (form_of (types_in kept.old)) (space (board m) kept.old) work.old frames.now s c.old c.new }
    ensures { InRecord (board m) kept.old kept.new × Steps (form_of (types_in kept.old)) (space (board m) kept.old) (space (board m) kept.new) work.old work.new frames.now s result c.old c.new }
{
    let e = make_rule(kept, work, m, s, c);
    let at = layout::rows_at(m);
    search::back_up(&kept[at..], work, frames, e)
}

// The rows that give way, how many come in their place, and whether those are made already. A flag and no Option: both numbers count either way.
#[derive(Clone, Copy)]
pub struct Fresh {
    pub old: usize,
    pub new: usize,
    pub made: bool,
}

// The rule at the search makes its rows at once, into a table of their own; where it cannot, they are counted.
fn make_fresh(kept: &[u8], work: &[u8], fresh: &mut [u8], s: Stand) -> Fresh
    requires { (20 + 36 * type_count kept.now ≤ length kept.now) × (row_count work.now ≤ 4096) × (s.here ≡ true) × (length fresh.old ≤ 32768) × ((left : List ℕ) × (frames : List ℕ) × Trying (form_of (types_in kept.now)) left work.now frames s × Room left work.now frames s × (row_count work.now - s.r ≤ 2048) × Tries (form_of (types_in kept.now)) left work.now frames s Uncounted) }
    ensures { ((left : List ℕ) (frames : List ℕ) → Tries (form_of (types_in kept.now)) left work.now frames s (Goes result.old result.new)) × (result.made ≡ true → (0 < result.new) × Stands (form_of (types_in kept.now)) work.now fresh.new s result.new) }
{
    let r = s.r;
    let e = types_end(kept);
    let p = reduce::once::make(
        &Types::new(&kept[layout::RECORD_HEAD..e]),
        &work[layout::TERM_ROW * r..],
        fresh,
    );
    match p {
        Some(m) => Fresh {
            old: m.end,
            new: m.rows,
            made: true,
        },
        None => {
            let x = try_whole(kept, work, s);
            match x {
                Tried::Goes(old, new) => Fresh {
                    old,
                    new,
                    made: false,
                },
                Tried::Stays => Fresh {
                    old: 0,
                    new: 0,
                    made: false,
                },
                Tried::Sends(n) => Fresh {
                    old: 0,
                    new: 0,
                    made: false,
                },
                Tried::Uncounted => Fresh {
                    old: 0,
                    new: 0,
                    made: false,
                },
            }
        }
    }
}

// The rows that the rule where the search has stopped makes: those that are counted already are made by the step.
fn make_rows(kept: &[u8], work: &[u8], fresh: &mut [u8], s: Stand, tried: Tried) -> Fresh
    requires types { 20 + 36 * type_count kept.now ≤ length kept.now }
    requires rows { row_count work.now ≤ 4096 }
    requires room { length fresh.old ≤ 32768 }
    requires goes { tried ≡ Tried.Stays → ⊥ }
    requires sends_nothing { (n : ℕ) → tried ≡ Sends n → ⊥ }
    requires trying { (left : List ℕ) × (frames : List ℕ) × Trying (form_of (types_in kept.now)) left work.now frames s × Room left work.now frames s × (row_count work.now - s.r ≤ 2048) × Tries (form_of (types_in kept.now)) left work.now frames s tried }
    ensures counted { (left : List ℕ) (frames : List ℕ) → Tries (form_of (types_in kept.now)) left work.now frames s tried → Tries (form_of (types_in kept.now)) left work.now frames s (Goes result.old result.new) }
    ensures made { result.made ≡ true → (s.here ≡ true) × (0 < result.new) × Stands (form_of (types_in kept.now)) work.now fresh.new s result.new }
{
    if let Tried::Goes(old, new) = tried {
        return Fresh {
            old,
            new,
            made: false,
        };
    }
    make_fresh(kept, work, fresh, s)
}

// Rows that are made already come to stand where the tree at the search ended.
fn move_fresh(work: &mut [u8], fresh: &[u8], s: Stand, x: Fresh) -> Stand
    requires { (s.here ≡ true) × (0 < x.new) × (s.r + x.old ≤ row_count work.old) × (row_count work.old ≤ 4096) × (x.new ≤ s.r + x.old) × (x.new ≤ row_count fresh.now) }
    ensures { (form : ℕ → Form) (left : List ℕ) → Stands form work.old fresh.now s x.new → Makes form left left work.old work.new s result x.old x.new }
{
    let new = x.new;
    let a = s.r + x.old - new;
    layout::copy_to(work, layout::TERM_ROW * a, fresh, 0, layout::TERM_ROW * new);
    Stand {
        l: s.l,
        r: a,
        d: s.d,
        here: false,
    }
}

// Where the search has stopped, and what the rule there makes.
#[derive(Clone, Copy)]
pub struct Place {
    pub s: Stand,
    pub x: Fresh,
}

// A step.
fn step(
    kept: &mut [u8],
    work: &mut [u8],
    frames: &[u32],
    fresh: &[u8],
    m: Limits,
    p: Place,
) -> Stand
    requires { (length kept.old ≡ record_bytes (board m)) × (type_count kept.old ≤ m.types) × (m.rows ≤ 2048) × (p.s.l + (row_count work.old - p.s.r) ≤ m.rows) × (m.rows + 2 ≤ row_count work.old) × (p.s.l + (row_count work.old - p.s.r) + p.x.new ≤ m.rows + p.x.old) × (p.s.l + (row_count work.old - p.s.r) + p.x.new ≤ length frames.now + p.x.old) × Room (space (board m) kept.old) work.old frames.now p.s × Turning (form_of (types_in kept.old)) (space (board m) kept.old) work.old frames.now p.s p.x.old p.x.new × (p.x.made ≡ true → (p.s.here ≡ true) × (0 < p.x.new) × Stands (form_of (types_in kept.old)) work.old fresh.now p.s p.x.new) }
    ensures { InRecord (board m) kept.old kept.new × Steps (form_of (types_in kept.old)) (space (board m) kept.old) (space (board m) kept.new) work.old work.new frames.now p.s result p.x.old p.x.new }
{
    let s = p.s;
    let x = p.x;
    let made = x.made;
    if made {
        let e = move_fresh(work, fresh, s, x);
        let at = layout::rows_at(m);
        return search::back_up(&kept[at..], work, frames, e);
    }
    step_anew(
        kept,
        work,
        frames,
        m,
        s,
        Change {
            old: x.old,
            new: x.new,
        },
    )
}

// Where a search has come to, and what the rule there does.
#[derive(Clone, Copy)]
pub struct Next {
    pub s: Stand,
    pub tried: Tried,
}

// Whether no frame is around the tree where the search has stopped.
#[tactic(auto, unfolding(crate::specs::Tries::at_root))]
fn at_root(s: Stand) -> bool
    ensures { result ≡ at_root s }
{
    if s.here { s.d == 0 } else { s.d == 1 }
}

// The search goes on until a rule goes or sends, or everything is passed.
fn next_step(kept: &mut [u8], work: &[u8], frames: &mut [u32], m: Limits, start: Stand) -> Next
    requires { (length kept.old ≡ record_bytes (board m)) × (type_count kept.old ≤ m.types) × (m.rows ≤ 2048) × (start.l + (row_count work.now - start.r) ≤ m.rows) × Room (space (board m) kept.old) work.now frames.old start × ((k : ℕ) × (t : Tree) × (count : ℕ) × Whole (form_of (types_in kept.old)) k (space (board m) kept.old) work.now frames.old start t × Every (legal count) t) }
    ensures { InRecord (board m) kept.old kept.new × Found (form_of (types_in kept.old)) (space (board m) kept.old) (space (board m) kept.new) work.now frames.old frames.new start result }
{
    let mut s = start;
    loop {
        let e = seek_in(kept, work, frames, m, s);
        let tried = try_rule(kept, work, frames, m, e);
        match tried {
            Tried::Stays => {
                if at_root(e) {
                    return Next { s: e, tried };
                }
                s = stay_on(kept, work, frames, m, e);
            }
            _ => return Next { s: e, tried },
        }
    }
}

// Whether the whole is a value, where everything is passed and the rule at the root stays.
fn value_at(kept: &[u8], work: &[u8], frames: &[u32], m: Limits, s: Stand) -> bool
    requires { (length kept.now ≡ record_bytes (board m)) × Room (space (board m) kept.now) work.now frames.now s × ((form : ℕ → Form) × (k : ℕ) × (t : Tree) × Halted form k (space (board m) kept.now) work.now frames.now s t) }
    ensures { TellsValue (space (board m) kept.now) work.now frames.now s result }
{
    let here = s.here;
    if here {
        let r = s.r;
        return search::plain(work[layout::TERM_ROW * r]);
    }
    let at = layout::rows_at(m);
    let d = s.d;
    search::value_end(&kept[at..], frames, d - 1)
}

// The run ends here with an answer.
fn halt(kept: &mut [u8], work: &mut [u8], m: Limits, s: Stand, a: Answer, made: u32) -> Run
    requires { (length kept.old ≡ record_bytes (board m)) × (s.r ≤ row_count work.old) × (s.l + (row_count work.old - s.r) ≤ m.rows) × (length work.old ≤ 32768) }
    ensures { (result ≡ ended_by a made) × PutBack (board m) kept.old kept.new work.old s × (work.new ≡ replicate (length work.old) 0) }
{
    finish(kept, work, m, s);
    Ok(Ran {
        answer: a,
        steps: made,
    })
}

// The call where the search has stopped is sent: its letter in the work buffer, its future in the record, its entry in the list.
fn send(kept: &mut [u8], work: &mut [u8], frames: &[u32], m: Limits, s: Stand, o: Outgoing)
    requires { (length kept.old ≡ record_bytes (board m)) × (head_sound (board m) kept.old ≡ true) × (open_count kept.old < m.calls) × (m.types ≤ 256) × (m.calls ≤ 64) × Room (space (board m) kept.old) work.old frames.now s × (s.here ≡ false) × (m.rows ≤ 2048) × (s.l + (row_count work.old - s.r) ≤ m.rows) × (s.l + 2 ≤ s.r) × Calling (space (board m) kept.old) work.old frames.now s o.old o.next × (o.next < 65536) × (length work.old ≤ 32768) }
    ensures { SentOff (board m) kept.old kept.new work.old work.new frames.now s o.old o.next }
{
    let old = o.old;
    let next = o.next;
    let ty = call_type(kept, m, s, old);
    let list = sound::open_list(kept, m);
    let e = call_out(kept, work, frames, m, s, o);
    put_back(kept, work, m, e);
    keep::renew_calls(kept, m, list.with(next, ty), next + 1);
    let end = work.len();
    layout::clear(work, layout::TERM_ROW * old - LETTER_LESS, end);
}

// How many rows there is room for in the place of a tree of old rows.
fn spare(work: &[u8], m: Limits, s: Stand, old: usize) -> usize
    requires { (s.r ≤ row_count work.now) × (s.l + (row_count work.now - s.r) ≤ m.rows) × (old ≤ 4096) }
    ensures { result + (s.l + (row_count work.now - s.r)) ≡ m.rows + old }
{
    let all = s.l + (layout::term_rows(work) - s.r);
    m.rows as usize + old - all
}

// Whether a term has more rows than there are frames, once old rows of it have given way to new ones.
fn outgrows(frames: &[u32], work: &[u8], s: Stand, old: usize, new: usize) -> bool
    requires { (s.r ≤ row_count work.now) × (row_count work.now ≤ 4096) × (s.l ≤ 4096) × (length frames.now ≤ 4096) × (old ≤ 4096) × (new ≤ 8192) }
    ensures { (result ≡ false → s.l + (row_count work.now - s.r) + new ≤ length frames.now + old) × (result ≡ true → length frames.now + old < s.l + (row_count work.now - s.r) + new) }
{
    frames.len() + old < s.l + (layout::term_rows(work) - s.r) + new
}

// How a run on some frames ends: with an answer, or where its term outgrows them, after some steps. Neither is a failure, so no Result.
#[derive(Clone, Copy)]
pub enum Gone {
    Ended(Run),
    Left(u32),
}

// A run on a sound record, as long as there is a frame for each row; rows are made in `fresh`.
fn go(
    kept: &mut [u8],
    work: &mut [u8],
    frames: &mut [u32],
    fresh: &mut [u8],
    m: Limits,
    budget: u32,
) -> Gone
    requires { Ready (board m) kept.old work.old frames.old × (length fresh.old ≤ 32768) }
    ensures { GoneSays (board m) kept.old work.old frames.old budget result kept.new work.new }
{
    let mut s = begin(kept, work, m);
    let mut made: u32 = 0;
    loop {
        let n = next_step(kept, work, frames, m, s);
        let at = n.s;
        match n.tried {
            Tried::Stays => {
                if value_at(kept, work, frames, m, at) {
                    return Gone::Ended(halt(kept, work, m, at, Answer::Value, made));
                }
                return Gone::Ended(halt(kept, work, m, at, Answer::Waiting, made));
            }
            Tried::Sends(old) => {
                if m.calls <= sound::head::open_count(kept) {
                    return Gone::Ended(halt(kept, work, m, at, Answer::Held, made));
                }
                let next = sound::head::next_number(kept);
                if m.last < next {
                    return Gone::Ended(halt(kept, work, m, at, Answer::Numbers, made));
                }
                if made == budget {
                    return Gone::Ended(halt(kept, work, m, at, Answer::Budget, made));
                }
                send(kept, work, frames, m, at, Outgoing { old, next });
                return Gone::Ended(Ok(Ran {
                    answer: Answer::Sent(next),
                    steps: made + 1,
                }));
            }
            _ => {
                let f = make_rows(kept, work, fresh, at, n.tried);
                if spare(work, m, at, f.old) < f.new {
                    return Gone::Ended(halt(kept, work, m, at, Answer::Room, made));
                }
                if made == budget {
                    return Gone::Ended(halt(kept, work, m, at, Answer::Budget, made));
                }
                if outgrows(frames, work, at, f.old, f.new) {
                    put_back(kept, work, m, at);
                    return Gone::Left(made);
                }
                s = step(kept, work, frames, fresh, m, Place { s: at, x: f });
                made += 1;
            }
        }
    }
}

// The limits of the attachment arm.
pub fn arm_limits() -> Limits
    ensures { board result ≡ arm }
{
    Limits {
        types: 256,
        rows: 2048,
        calls: 64,
        last: 65535,
        program: 1024,
        reply: 256,
        work: 16400,
    }
}

// The same on the arm: its limits are known where the loop is compiled.
fn ride(kept: &mut [u8], work: &mut [u8], frames: &mut [u32], fresh: &mut [u8], budget: u32) -> Gone
    requires { Ready arm kept.old work.old frames.old × (length fresh.old ≤ 32768) }
    ensures { GoneSays arm kept.old work.old frames.old budget result kept.new work.new }
{
    go(kept, work, frames, fresh, arm_limits(), budget)
}

// The same with room for so many frames and so many bytes of new rows.
fn ride_within<const FRAMES: usize, const FRESH: usize>(
    kept: &mut [u8],
    work: &mut [u8],
    budget: u32,
) -> Gone
    requires ready { Ready arm kept.old work.old (replicate FRAMES 0) }
    requires fresh { FRESH ≤ 32768 }
    ensures { GoneSays arm kept.old work.old (replicate FRAMES 0) budget result kept.new work.new }
{
    let mut frames = [0u32; FRAMES];
    let mut fresh = [0u8; FRESH];
    ride(kept, work, &mut frames, &mut fresh, budget)
}

// A run with room for any term.
fn run_far(kept: &mut [u8], work: &mut [u8], budget: u32) -> Run
    requires { Ready arm kept.old work.old (replicate 2048 0) }
    ensures { RunSays arm kept.old work.old budget result kept.new work.new }
{
    let g = ride_within::<2048, 16384>(kept, work, budget);
    match g {
        Gone::Ended(r) => r,
        // never: there is a frame for each row that a term may have
        Gone::Left(n) => Ok(Ran {
            answer: Answer::Budget,
            steps: n,
        }),
    }
}

// What a run says, said n steps later.
#[tactic(auto, unfolding(crate::specs::Loops::said_later, crate::specs::Loops::steps_said))]
fn said_later(n: u32, r: Run) -> Run
    requires { n + steps_said r < 4294967296 }
    ensures { result ≡ said_later n r }
{
    let ran = r?;
    Ok(Ran {
        steps: n + ran.steps,
        ..ran
    })
}

// Terms of up to so many rows begin on few frames.
const FEW: u16 = 256;

// A run on a sound record and a work buffer of the arm's length. A small term has few frames and little room for new rows, since both are cleared.
pub fn run(kept: &mut [u8], work: &mut [u8], budget: u32) -> Run
    requires { Ready arm kept.old work.old (replicate 2048 0) }
    ensures { RunSays arm kept.old work.old budget result kept.new work.new }
{
    if FEW < sound::head::row_count(kept) {
        return run_far(kept, work, budget);
    }
    let g = ride_within::<256, 2048>(kept, work, budget);
    match g {
        Gone::Ended(r) => r,
        Gone::Left(n) => {
            let r = run_far(kept, work, budget - n);
            said_later(n, r)
        }
    }
}
