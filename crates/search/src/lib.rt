// The search for the next step, in two lent buffers: the rows passed, the rows to come. It goes on where it stands: what was passed cannot step.
#![tactic(auto)]

ghost use Rattle.std.specs.Prelude.{◌≡◌, ◌+◌, ◌*◌, ◌-◌, ◌/◌, ◌≤◌, ◌<◌, true, eqb, ltb, length, get_or, drop};
ghost use Rattle.layout.specs.Rows.{term_rows};
ghost use Rattle.meaning.specs.Bytes.{◌∧ᵇ◌, read, term_row};
ghost use Rattle.meaning.specs.Types.{member};
ghost use Rattle.meaning.specs.Terms.{size, arity, row_of, tree_at};
ghost use Rattle.meaning.specs.Steps.{◌∨ᵇ◌, value_kinds, made_of_values};
ghost use Rattle.search.specs.Kinds.{waits_by, looks_by, part_kinds, parts_below};
ghost use Rattle.search.specs.Kept.{row_count, kind_at, row_in, owed_in, flag_in, entered_number, passed_number, copied, tree_here, first_kind, wants, wants_here, fits_here, value_end, fits_end, Enters, Passes, Leaves};
ghost use Rattle.search.specs.Search.{next_kind, looked_by, Into, Room, Somewhere, Sees, Stops, Spans, SpansHere, Nested, Delves, Resumes};
ghost use Rattle.search.specs.declared.Sight.TheVariants.{Enter};

use layout::kinds::Kind;

// What a search sees where it stands.
#[derive(Clone, Copy)]
pub enum Sight {
    // all trees of the innermost frame are passed
    Done,
    // a tree that is not looked at
    Skip,
    // a row that is looked into before its own rule is tried
    Enter,
    // a row whose own rule is tried
    Here,
}

// Where a search stands: the rows passed, the first row to come, the frames; and where it stopped, whether at a row or at a frame's end.
#[derive(Clone, Copy)]
pub struct Stand {
    pub l: usize,
    pub r: usize,
    pub d: usize,
    pub here: bool,
}

// A frame is kept as one number: its row among the rows passed, its trees still to come, its flag.
pub fn row_in(x: u32) -> usize
    ensures { result ≡ row_in x }
{
    (x / 1024) as usize
}

fn owed_in(x: u32) -> usize
    ensures { result ≡ owed_in x }
{
    (x % 1024 / 2) as usize
}

pub fn flag_in(x: u32) -> bool
    ensures { result ≡ flag_in x }
{
    x % 2 == 1
}

// The number of a frame that is entered at row l, with n trees.
fn entered_number(l: usize, n: usize) -> u32
    requires { (l ≤ 4096) × (n ≤ 256) }
    ensures { result ≡ entered_number l n }
{
    (1024 * l + 2 * n + 1) as u32
}

// A frame's number when a tree of it is passed that is as its rule wants it or not.
fn passed_number(x: u32, fine: bool) -> u32
    requires { 0 < owed_in x }
    ensures { result ≡ passed_number x fine }
{
    if fine {
        return x - 2;
    }
    x - 2 - x % 2
}

#[tactic(auto, using(crate::proofs::Ors::ors))]
fn is_list(k: u8) -> bool
    ensures { result ≡ (eqb k 12 ∨ᵇ eqb k 13) }
{
    matches!(Kind::of(k), Some(Kind::Nil | Kind::Cons))
}

// Whether a row of kind k is looked into before its own rule is tried, where its first tree is of kind c.
#[tactic(auto, using(crate::proofs::Ors::ors), unfolding(crate::specs::Kinds::waits_by))]
fn waits(k: u8, c: u8) -> bool
    ensures { result ≡ waits_by k c }
{
    match Kind::of(k) {
        Some(Kind::Apply) => c != Kind::Native.number(),
        Some(Kind::If) => c != Kind::True.number() && c != Kind::False.number(),
        Some(Kind::Cons | Kind::Tuple) => true,
        Some(Kind::IsNil | Kind::ListProject) => !is_list(c),
        Some(Kind::Project) => c != Kind::Tuple.number(),
        _ => false,
    }
}

// Whether a row of kind k that waits looks at its place j, where a tree of kind t stands: its first tree is of kind c with mask m.
#[tactic(auto, using(crate::proofs::Ors::ors), unfolding(crate::specs::Kinds::looks_by))]
fn looks(k: u8, j: usize, c: u8, m: u8, t: u8) -> bool
    ensures { result ≡ looks_by k j c m t }
{
    match Kind::of(k) {
        Some(Kind::Apply) => match Kind::of(c) {
            Some(Kind::Foreign) => j != 0,
            Some(Kind::Zip) => j != 0 && terms::masks::mask_bit(m, j - 1) && !is_list(t),
            _ => j == 0,
        },
        Some(Kind::Cons | Kind::Tuple) => true,
        _ => j == 0,
    }
}

// The row at the search goes to the rows passed and becomes a frame: all its trees are to come.
fn enter(left: &mut [u8], right: &[u8], frames: &mut [u32], s: Stand) -> Stand
    requires { Room left.old right.now frames.old s × (s.r < row_count right.now) × (s.d ≤ s.l) }
    ensures { Enters left.old left.new right.now frames.old frames.new s result }
{
    let l = s.l;
    let r = s.r;
    let d = s.d;
    let n = terms::children(layout::row_at(right, r));
    layout::copy_row(left, layout::TERM_ROW * l, right, layout::TERM_ROW * r);
    frames[d] = entered_number(l, n);
    Stand {
        l: l + 1,
        r: r + 1,
        d: d + 1,
        here: false,
    }
}

// n rows from row r on go to row l: one row at once.
fn copy_rows(left: &mut [u8], l: usize, right: &[u8], r: usize, n: usize)
    requires { (l ≤ 4096) × (r ≤ 4096) × (n ≤ 4096) × (8 * l + 8 * n ≤ length left.old) × (8 * r + 8 * n ≤ length right.now) }
    ensures { left.new ≡ copied left.old l right.now r n }
{
    if n == 1 {
        layout::copy_row(left, layout::TERM_ROW * l, right, layout::TERM_ROW * r);
        return;
    }
    layout::copy_to(
        left,
        layout::TERM_ROW * l,
        right,
        layout::TERM_ROW * r,
        layout::TERM_ROW * n,
    );
}

// The tree at the search, one of the innermost frame's, goes to the rows passed: it has n rows.
fn pass_rows(
    left: &mut [u8],
    right: &[u8],
    frames: &mut [u32],
    s: Stand,
    fine: bool,
    n: usize,
) -> Stand
    requires { Room left.old right.now frames.old s × (size (tree_here right.now s.r) ≡ n) × (n ≤ row_count right.now - s.r) × (0 < s.d) × (s.d ≤ s.l) × (0 < owed_in (get_or frames.old (s.d - 1) 0)) }
    ensures { Passes left.old left.new right.now frames.old frames.new s fine result }
{
    let l = s.l;
    let r = s.r;
    let d = s.d;
    copy_rows(left, l, right, r, n);
    let i = d - 1;
    frames[i] = passed_number(frames[i], fine);
    Stand {
        l: l + n,
        r: r + n,
        d,
        here: false,
    }
}

// The same, where its rows are still to be counted.
fn pass(left: &mut [u8], right: &[u8], frames: &mut [u32], s: Stand, fine: bool) -> Stand
    requires { Room left.old right.now frames.old s × (size (tree_here right.now s.r) ≤ row_count right.now - s.r) × (0 < s.d) × (s.d ≤ s.l) × (0 < owed_in (get_or frames.old (s.d - 1) 0)) }
    ensures { Passes left.old left.new right.now frames.old frames.new s fine result }
{
    let r = s.r;
    if terms::children(layout::row_at(right, r)) == 0 {
        return pass_rows(left, right, frames, s, fine, 1);
    }
    let n = terms::end_of(&right[layout::TERM_ROW * r..], 0);
    pass_rows(left, right, frames, s, fine, n)
}

// Whether the row at the search is looked into before its own rule is tried.
fn waits_at(right: &[u8], r: usize) -> bool
    requires { (r < row_count right.now) × (row_count right.now ≤ 4096) }
    ensures { result ≡ waits_by (get_or right.now (8 * r) 0) (next_kind right.now r) }
{
    let k = right[layout::TERM_ROW * r];
    if r + 1 < right.len() / layout::TERM_ROW {
        return waits(k, right[layout::TERM_ROW * r + layout::TERM_ROW]);
    }
    waits(k, 0)
}

// The longest table of rows.
const LONGEST: usize = 32768;

// The same, but of a zip whose lists are there: its own rule is tried at once, where the rows are few enough to be asked.
fn goes_into(right: &[u8], r: usize) -> bool
    requires { (r < row_count right.now) × (row_count right.now ≤ 4096) × (size (tree_here right.now r) ≤ row_count right.now - r) }
    ensures { Into result right.now r }
{
    if waits_at(right, r) {
        let from = layout::TERM_ROW * r;
        if LONGEST < right.len() - from {
            return true;
        }
        return !reduce::zips::zips_lists(&right[from..]);
    }
    false
}

// Whether the frame whose row is row `at` of the rows passed, with o trees to come, looks at the tree at the search: by its place.
fn looked_in(left: &[u8], at: usize, right: &[u8], r: usize, o: usize) -> bool
    requires { (8 * at + 8 ≤ length left.now) × (at ≤ 4096) × (8 * r + 8 ≤ length right.now) × (o ≤ arity (row_of (read term_row (drop (8 * at) left.now))).head) × ((arity (row_of (read term_row (drop (8 * at) left.now))).head ≡ o → ⊥) → 8 * at + 16 ≤ length left.now) }
    ensures { result ≡ looked_by left.now at right.now r o }
{
    let f = layout::row_at(left, at);
    let k = f.kind;
    let a = terms::children(f);
    let t = right[layout::TERM_ROW * r];
    if a == o {
        return looks(k, 0, t, right[layout::TERM_ROW * r + 1], t);
    }
    looks(
        k,
        a - o,
        left[layout::TERM_ROW * at + layout::TERM_ROW],
        left[layout::TERM_ROW * at + 9],
        t,
    )
}

// The same, at once of a frame that is made of values: it looks at all its trees.
#[tactic(auto, using(crate::proofs::Calls::looked))]
fn looked_at(left: &[u8], at: usize, right: &[u8], r: usize, o: usize) -> bool
    requires { (8 * at + 8 ≤ length left.now) × (at ≤ 4096) × (8 * r + 8 ≤ length right.now) × (o ≤ arity (row_of (read term_row (drop (8 * at) left.now))).head) × ((arity (row_of (read term_row (drop (8 * at) left.now))).head ≡ o → ⊥) → 8 * at + 16 ≤ length left.now) }
    ensures { result ≡ looked_by left.now at right.now r o }
{
    made_of_values(left[layout::TERM_ROW * at]) || looked_in(left, at, right, r, o)
}

// What is in sight of a search.
fn look_ahead(left: &[u8], right: &[u8], frames: &[u32], s: Stand) -> Sight
    requires { Room left.now right.now frames.now s × Somewhere left.now right.now frames.now s }
    ensures { Sees result left.now right.now frames.now s }
{
    let r = s.r;
    let d = s.d;
    if d == 0 {
        if goes_into(right, r) {
            return Sight::Enter;
        }
        return Sight::Here;
    }
    let x = frames[d - 1];
    let o = owed_in(x);
    if o == 0 {
        return Sight::Done;
    }
    if looked_at(left, row_in(x), right, r, o) {
        if goes_into(right, r) {
            return Sight::Enter;
        }
        return Sight::Here;
    }
    Sight::Skip
}

// Whether a row of kind k is a value, whatever is below it; and whether it is one if the trees below it are.
#[tactic(auto, unfolding(meaning::specs::Types::member))]
pub fn plain(k: u8) -> bool
    ensures { result ≡ member k value_kinds }
{
    matches!(
        Kind::of(k),
        Some(
            Kind::Text
                | Kind::File
                | Kind::True
                | Kind::False
                | Kind::Native
                | Kind::Foreign
                | Kind::Nil
                | Kind::Zip
        )
    )
}

#[tactic(auto, unfolding(meaning::specs::Types::member))]
fn made_of_values(k: u8) -> bool
    ensures { result ≡ member k made_of_values }
{
    matches!(Kind::of(k), Some(Kind::Cons | Kind::Tuple))
}

// Whether a frame of kind k with a first tree of kind c wants values: all but a zip.
#[tactic(auto, using(crate::proofs::Ors::ors), unfolding(crate::specs::Kept::wants))]
fn wants_values(k: u8, c: u8) -> bool
    ensures { result ≡ wants k c }
{
    k != Kind::Apply.number() || c != Kind::Zip.number()
}

// The kind of the first tree of the frame at row `at`, where l rows are passed and a tree of kind k stands at the search.
fn first_kind(left: &[u8], l: usize, at: usize, k: u8) -> u8
    requires { (8 * l ≤ length left.now) × (l ≤ 4096) × (at < l) }
    ensures { result ≡ first_kind left.now l at k }
{
    if at + 1 < l {
        return left[layout::TERM_ROW * (at + 1)];
    }
    k
}

// Whether the innermost frame wants a value of the tree at the search.
fn wants_here(left: &[u8], right: &[u8], frames: &[u32], s: Stand) -> bool
    requires { (8 * s.l ≤ length left.now) × (s.l ≤ 4096) × (s.r < row_count right.now) × (0 < s.d) × (s.d ≤ length frames.now) × (row_in (get_or frames.now (s.d - 1) 0) < s.l) }
    ensures { result ≡ wants_here left.now right.now frames.now s }
{
    let r = s.r;
    let d = s.d;
    let at = row_in(frames[d - 1]);
    let k = right[layout::TERM_ROW * r];
    let c = first_kind(left, s.l, at, k);
    wants_values(left[layout::TERM_ROW * at], c)
}

// Whether the tree at the search, whose own rule stays, is as the innermost frame wants it.
#[tactic(auto, using(crate::proofs::Ors::ors), unfolding(crate::specs::Kept::fits_here))]
fn fits_here(left: &[u8], right: &[u8], frames: &[u32], s: Stand) -> bool
    requires { (8 * s.l ≤ length left.now) × (s.l ≤ 4096) × (s.r < row_count right.now) × (0 < s.d) × (s.d ≤ length frames.now) × (row_in (get_or frames.now (s.d - 1) 0) < s.l) }
    ensures { result ≡ fits_here left.now right.now frames.now s }
{
    wants_here(left, right, frames, s) && plain(right[layout::TERM_ROW * s.r])
}

// The tree at the search, whose own rule stays, is passed.
pub fn pass_by(left: &mut [u8], right: &[u8], frames: &mut [u32], s: Stand) -> Stand
    requires { Room left.old right.now frames.old s × (size (tree_here right.now s.r) ≤ row_count right.now - s.r) × (0 < s.d) × (s.d ≤ s.l) × (0 < owed_in (get_or frames.old (s.d - 1) 0)) × (row_in (get_or frames.old (s.d - 1) 0) < s.l) }
    ensures { Passes left.old left.new right.now frames.old frames.new s (fits_here left.old right.now frames.old s) result }
{
    let fine = fits_here(left, right, frames, s);
    pass(left, right, frames, s, fine)
}

// Whether frame i is of a kind that is made of values: its own rule stays.
pub fn builds(left: &[u8], frames: &[u32], i: usize) -> bool
    requires { (i < length frames.now) × (i ≤ 4096) × (8 * row_in (get_or frames.now i 0) + 8 ≤ length left.now) }
    ensures { result ≡ member (kind_at left.now (row_in (get_or frames.now i 0))) made_of_values }
{
    let at = row_in(frames[i]);
    made_of_values(left[layout::TERM_ROW * at])
}

// Whether the tree of frame i, all of whose trees are passed, is a value where its own rule stays.
#[tactic(auto, using(crate::proofs::Ors::ors), unfolding(crate::specs::Kept::value_end))]
pub fn value_end(left: &[u8], frames: &[u32], i: usize) -> bool
    requires { (i < length frames.now) × (i ≤ 4096) × (8 * row_in (get_or frames.now i 0) + 8 ≤ length left.now) }
    ensures { result ≡ value_end left.now frames.now i }
{
    builds(left, frames, i) && flag_in(frames[i])
}

// The same, and the frame around it wants it so.
#[tactic(auto, using(crate::proofs::Ors::ors), unfolding(crate::specs::Kept::fits_end))]
fn fits_end(left: &[u8], frames: &[u32], s: Stand) -> bool
    requires { (2 ≤ s.d) × (s.d ≤ 4096) × (s.d ≤ length frames.now) × (8 * row_in (get_or frames.now (s.d - 1) 0) + 8 ≤ length left.now) × (8 * row_in (get_or frames.now (s.d - 2) 0) + 16 ≤ length left.now) }
    ensures { result ≡ fits_end left.now frames.now s }
{
    let at = row_in(frames[s.d - 2]);
    let wants = wants_values(
        left[layout::TERM_ROW * at],
        left[layout::TERM_ROW * (at + 1)],
    );
    wants && value_end(left, frames, s.d - 1)
}

// The innermost frame, whose own rule stays, is left: its tree is passed in the frame around it.
pub fn leave(left: &[u8], frames: &mut [u32], s: Stand) -> Stand
    requires { (2 ≤ s.d) × (s.d ≤ 4096) × (s.d ≤ length frames.old) × (8 * row_in (get_or frames.old (s.d - 1) 0) + 8 ≤ length left.now) × (8 * row_in (get_or frames.old (s.d - 2) 0) + 16 ≤ length left.now) × (0 < owed_in (get_or frames.old (s.d - 2) 0)) }
    ensures { Leaves frames.old frames.new s (fits_end left.now frames.old s) result }
{
    let fine = fits_end(left, frames, s);
    let d = s.d;
    let i = d - 2;
    frames[i] = passed_number(frames[i], fine);
    Stand {
        l: s.l,
        r: s.r,
        d: d - 1,
        here: false,
    }
}

// How far the rows of a tree are parts of values: all of them, so many; or only so many.
#[derive(Clone, Copy)]
pub enum Span {
    Whole(usize),
    Part(usize),
}

// Whether a row of kind k is part of a value by its kind alone: it is a value with no tree below it, or made of values.
#[tactic(auto, unfolding(meaning::specs::Types::member))]
fn is_part(k: u8) -> bool
    ensures { result ≡ member k part_kinds }
{
    match Kind::of(k) {
        Some(Kind::Text | Kind::File | Kind::True | Kind::False) => true,
        Some(Kind::Foreign | Kind::Nil | Kind::Cons | Kind::Tuple) => true,
        _ => false,
    }
}

// How many trees such a row has below it.
#[tactic(auto, unfolding(crate::specs::Kinds::parts_below))]
fn parts_below(k: u8, n: u8) -> usize
    ensures value { result ≡ parts_below k n }
    ensures few { result ≤ 255 }
{
    match Kind::of(k) {
        Some(Kind::Cons) => 2,
        Some(Kind::Tuple) => n as usize,
        _ => 0,
    }
}

// How far the rows of the first tree are parts of values.
fn value_rows(rows: &[u8]) -> Span
    requires { (length rows.now ≤ 32768) × (size (tree_at (term_rows rows.now) 0) ≤ length rows.now / 8) }
    ensures { Spans result (tree_at (term_rows rows.now) 0) }
{
    let mut owed: usize = 1;
    let mut i: usize = 0;
    // A while: how many rows there are shows as they are read.
    while 0 < owed {
        let row = layout::row_at(rows, i);
        if !is_part(row.kind) {
            return Span::Part(i);
        }
        owed = owed - 1 + parts_below(row.kind, row.n);
        i += 1;
    }
    Span::Whole(i)
}

// Whether the tree at the search is a value that can be passed at once; else the row up to which that need not be asked again, at first `far`.
fn value_here(right: &[u8], s: Stand, far: usize) -> Span
    requires { (s.r ≤ row_count right.now) × (row_count right.now ≤ 4096) × (s.d + (row_count right.now - s.r) ≤ 4096) × (size (tree_here right.now s.r) ≤ row_count right.now - s.r) }
    ensures { SpansHere result right.now s }
{
    let r = s.r;
    if s.d == 0 {
        return Span::Part(far);
    }
    if r < far {
        return Span::Part(far);
    }
    if made_of_values(right[layout::TERM_ROW * r]) {
        return match value_rows(&right[layout::TERM_ROW * r..]) {
            Span::Whole(n) => Span::Whole(n),
            Span::Part(n) => Span::Part(r + n),
        };
    }
    Span::Part(far)
}

// Whether the row at the search stands in a frame and is a value: its own rule stays.
#[tactic(auto, using(crate::proofs::Ors::ors))]
fn rests_here(right: &[u8], s: Stand) -> bool
    requires { (s.r < row_count right.now) × (row_count right.now ≤ 4096) }
    ensures { result ≡ (ltb 0 s.d ∧ᵇ member (kind_at right.now s.r) value_kinds) }
{
    0 < s.d && plain(right[layout::TERM_ROW * s.r])
}

// Whether the innermost frame stands in another one and is made of values: its own rule stays.
#[tactic(auto, using(crate::proofs::Ors::ors))]
fn rests_at_end(left: &[u8], frames: &[u32], s: Stand) -> bool
    requires { (s.d ≤ 4096) × (s.d ≤ length frames.now) × (8 * row_in (get_or frames.now (s.d - 1) 0) + 8 ≤ length left.now) }
    ensures { result ≡ (ltb 1 s.d ∧ᵇ member (kind_at left.now (row_in (get_or frames.now (s.d - 1) 0))) made_of_values) }
{
    1 < s.d && builds(left, frames, s.d - 1)
}

// Whether the row at row r calls a foreign function, and its first argument calls one too.
fn nested(right: &[u8], r: usize) -> bool
    requires { r ≤ 4096 }
    ensures { result ≡ true → Nested right.now r }
{
    if right.len() / layout::TERM_ROW <= r + 3 {
        return false;
    }
    if right[layout::TERM_ROW * r] != Kind::Apply.number() {
        return false;
    }
    if right[layout::TERM_ROW * r + 1] == 0 {
        return false;
    }
    if right[layout::TERM_ROW * (r + 1)] != Kind::Foreign.number() {
        return false;
    }
    if right[layout::TERM_ROW * (r + 2)] != Kind::Apply.number() {
        return false;
    }
    right[layout::TERM_ROW * (r + 3)] == Kind::Foreign.number()
}

// Calls, each the first argument of the one before, are entered but for the last, and their functions passed.
fn enter_calls(left: &mut [u8], right: &[u8], frames: &mut [u32], start: Stand) -> Stand
    requires { Room left.old right.now frames.old start × Somewhere left.old right.now frames.old start × Sees Enter left.old right.now frames.old start }
    ensures { Delves left.old left.new right.now frames.old frames.new start result }
{
    let mut s = start;
    // A while: each call is found where the one before it leads.
    while nested(right, s.r) {
        s = enter(left, right, frames, s);
        s = pass_rows(left, right, frames, s, true, 1);
    }
    s
}

// The search goes on until it stands at a row whose own rule is to be tried, or at the end of a frame whose own is: trees that are not looked at
// and values are passed, rows that wait are entered, frames that are made of values are left.
pub fn seek(left: &mut [u8], right: &[u8], frames: &mut [u32], start: Stand) -> Stand
    requires { Room left.old right.now frames.old start × Somewhere left.old right.now frames.old start }
    ensures { Stops left.old left.new right.now frames.old frames.new start result }
{
    let mut s = start;
    let mut far: usize = 0;
    loop {
        match look_ahead(left, right, frames, s) {
            Sight::Done => {
                if rests_at_end(left, frames, s) {
                    s = leave(left, frames, s);
                } else {
                    return Stand { here: false, ..s };
                }
            }
            Sight::Here => {
                if rests_here(right, s) {
                    s = pass_by(left, right, frames, s);
                } else {
                    return Stand { here: true, ..s };
                }
            }
            Sight::Skip => {
                s = pass(left, right, frames, s, true);
            }
            Sight::Enter => {
                s = enter_calls(left, right, frames, s);
                match value_here(right, s, far) {
                    Span::Whole(n) => {
                        let fine = wants_here(left, right, frames, s);
                        s = pass_rows(left, right, frames, s, fine, n);
                    }
                    Span::Part(e) => {
                        far = e;
                        s = enter(left, right, frames, s);
                    }
                }
            }
        }
    }
}

// Behind a step: where nothing of the innermost frame was passed its row may wait no more, so it is at the search again.
pub fn back_up(left: &[u8], right: &mut [u8], frames: &[u32], s: Stand) -> Stand
    requires { Room left.now right.old frames.now s × (0 < s.r) × (s.d ≤ s.l) }
    ensures { Resumes left.now right.old right.new frames.now s result }
{
    let l = s.l;
    let r = s.r;
    let d = s.d;
    if d == 0 {
        return s;
    }
    let at = row_in(frames[d - 1]);
    if at + 1 == l {
        layout::copy_row(
            right,
            layout::TERM_ROW * (r - 1),
            left,
            layout::TERM_ROW * (l - 1),
        );
        return Stand {
            l: l - 1,
            r: r - 1,
            d: d - 1,
            here: false,
        };
    }
    s
}
