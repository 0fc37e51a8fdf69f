// The type table: what a type row says, which types are ground, and the first bad row.
#![tactic(auto)]

ghost use Rattle.std.specs.Prelude.{◌≡◌, ◌+◌, ◌*◌, ◌≤◌, ◌<◌, max, length, drop, set};
ghost use Rattle.meaning.specs.Bytes.{zeros};
ghost use Rattle.meaning.specs.Types.{parts, every, below, member, same_numbers, form_of, ground, last_form, plain_ok, list_ok, tuple_ok, names_ok, function_ok, fields_ok, fresh, ground_call, bad_type};
ghost use Rattle.layout.specs.Rows.{type_table};
ghost use Rattle.types.specs.Table.{type_at, rows_before, first_names, first_types, HeadWord, PairWord, parts_ground, own_ok, mark, Truthful, Told};
ghost use Rattle.types.specs.Chains.{hash_at, last_of, Linked, Chained, Joined};

use layout::forms::Form;

// How many parts row t has: at most eight are there.
#[tactic(auto, using(crate::proofs::Rules::part_count_laws))]
pub fn part_count(types: &[u8], t: usize) -> usize
    requires { 36 * t + 36 ≤ length types.now }
    ensures { result ≡ length (parts (type_at types.now t)) }
{
    (layout::parts_no(types, t) as usize).min(8)
}

// The last form that an edition of the file knows.
#[tactic(auto, using(crate::proofs::Rules::last_form_laws), unfolding(meaning::specs::Types::last_form))]
fn last_form(edition: u16) -> u8
    ensures { result ≡ last_form edition }
{
    if edition == layout::EDITION { 7 } else { 0 }
}

// The form, the number of parts and the result of row t as one number, and its k-th pair as one.
fn head_word(types: &[u8], t: usize) -> u32
    requires { 36 * t + 36 ≤ length types.now }
    ensures { HeadWord (type_at types.now t) result }
{
    layout::form_no(types, t) as u32
        + 256 * layout::parts_no(types, t) as u32
        + 65536 * layout::result_no(types, t) as u32
}

fn pair_word(types: &[u8], t: usize, k: usize) -> u32
    requires { (36 * t + 36 ≤ length types.now) × (k < 8) }
    ensures { PairWord (type_at types.now t) k result }
{
    layout::name_no(types, t, k) as u32 + 65536 * layout::type_no(types, t, k) as u32
}

// The k-th pair as one number, if it stands behind the first n.
fn pair_behind(types: &[u8], t: usize, n: usize, k: usize) -> u32
    requires { (36 * t + 36 ≤ length types.now) × (k < 8) }
    ensures { (k < n → result ≡ 0) × (n ≤ k → PairWord (type_at types.now t) k result) }
{
    if n <= k { pair_word(types, t, k) } else { 0 }
}

// Behind the first n pairs of row t all is zero: the greatest is. All eight have a turn, since a loop that ends by n ends where the processor cannot
// foresee it.
#[tactic(auto, using(crate::proofs::Rules::rest_zero_laws))]
fn rest_zero(types: &[u8], t: usize, n: usize) -> bool
    requires { 36 * t + 36 ≤ length types.now }
    ensures { result ≡ zeros (drop (3 + 2 * n) (type_at types.now t)) }
{
    let mut most: u32 = 0;
    for k in 0..8 {
        most = most.max(pair_behind(types, t, n, k));
    }
    most == 0
}

// The first n names of row t are zero.
#[tactic(auto, using(crate::proofs::Checks::name_steps))]
fn names_zero(types: &[u8], t: usize, n: usize) -> bool
    requires { (36 * t + 36 ≤ length types.now) × (n ≤ 8) }
    ensures { result ≡ zeros (first_names n (type_at types.now t)) }
{
    for k in 0..n {
        if layout::name_no(types, t, k) != 0 {
            return false;
        }
    }
    true
}

// The first n types of row t have smaller numbers than t.
#[tactic(auto, using(crate::proofs::Checks::part_steps))]
fn parts_below(types: &[u8], t: usize, n: usize) -> bool
    requires { (36 * t + 36 ≤ length types.now) × (n ≤ 8) }
    ensures { result ≡ every (below t) (first_types n (type_at types.now t)) }
{
    for k in 0..n {
        if t <= layout::type_no(types, t, k) as usize {
            return false;
        }
    }
    true
}

// The name x stands among the first n of row t, from the k-th on.
#[tactic(auto, using(crate::proofs::Checks::name_steps))]
fn name_from(types: &[u8], t: usize, n: usize, k: usize, x: u16) -> bool
    requires { (36 * t + 36 ≤ length types.now) × (n ≤ 8) × (k ≤ n) }
    ensures { result ≡ member x (drop k (first_names n (type_at types.now t))) }
{
    for j in k..n {
        if layout::name_no(types, t, j) == x {
            return true;
        }
    }
    false
}

// The first n names of row t are nonzero and distinct.
#[tactic(auto, using(crate::proofs::Checks::name_steps))]
fn names_ok(types: &[u8], t: usize, n: usize) -> bool
    requires { (36 * t + 36 ≤ length types.now) × (n ≤ 8) }
    ensures { result ≡ names_ok (first_names n (type_at types.now t)) }
{
    for k in 0..n {
        let x = layout::name_no(types, t, k);
        if x == 0 {
            return false;
        }
        if name_from(types, t, n, k + 1, x) {
            return false;
        }
    }
    true
}

// The fields of row t by its form: plain, list, tuple, function.
#[tactic(auto, using(crate::proofs::Rules::plain_ok_laws))]
fn plain_ok(types: &[u8], t: usize) -> bool
    requires { 36 * t + 36 ≤ length types.now }
    ensures { result ≡ plain_ok (type_at types.now t) }
{
    layout::parts_no(types, t) == 0 && layout::result_no(types, t) == 0
}

#[tactic(auto, using(crate::proofs::Rules::list_ok_laws))]
fn list_ok(types: &[u8], t: usize) -> bool
    requires { 36 * t + 36 ≤ length types.now }
    ensures { result ≡ list_ok t (type_at types.now t) }
{
    layout::parts_no(types, t) == 0 && (layout::result_no(types, t) as usize) < t
}

#[tactic(auto, using(crate::proofs::Rules::tuple_ok_laws))]
fn tuple_ok(types: &[u8], t: usize) -> bool
    requires { 36 * t + 36 ≤ length types.now }
    ensures { result ≡ tuple_ok t (type_at types.now t) }
{
    let n = layout::parts_no(types, t) as usize;
    1 <= n
        && n <= 8
        && layout::result_no(types, t) == 0
        && names_zero(types, t, n)
        && parts_below(types, t, n)
}

#[tactic(auto, using(crate::proofs::Rules::function_ok_laws))]
fn function_ok(types: &[u8], t: usize) -> bool
    requires { 36 * t + 36 ≤ length types.now }
    ensures { result ≡ function_ok t (type_at types.now t) }
{
    let n = layout::parts_no(types, t) as usize;
    n <= 8
        && (layout::result_no(types, t) as usize) < t
        && names_ok(types, t, n)
        && parts_below(types, t, n)
}

#[tactic(auto, using(crate::proofs::Rules::fields_ok_laws))]
fn fields_ok(types: &[u8], t: usize) -> bool
    requires { 36 * t + 36 ≤ length types.now }
    ensures { result ≡ fields_ok t (type_at types.now t) }
{
    rest_zero(types, t, layout::parts_no(types, t) as usize)
        && match Form::of(layout::form_no(types, t)) {
            Some(Form::Str | Form::File | Form::Bool) => plain_ok(types, t),
            Some(Form::List) => list_ok(types, t),
            Some(Form::Tuple) => tuple_ok(types, t),
            Some(Form::Native | Form::Foreign) => function_ok(types, t),
            None => false,
        }
}

// Rows t and u have the same numbers.
#[tactic(auto, using(crate::proofs::Rules::same_row_laws))]
fn same_row(types: &[u8], t: usize, u: usize) -> bool
    requires { (36 * t + 36 ≤ length types.now) × (36 * u + 36 ≤ length types.now) }
    ensures { result ≡ same_numbers (type_at types.now t) (type_at types.now u) }
{
    if head_word(types, t) != head_word(types, u) {
        return false;
    }
    for k in 0..8 {
        if pair_word(types, t, k) != pair_word(types, u, k) {
            return false;
        }
    }
    true
}

// The hash of row t: below 256, and one for all equal rows. The weights are powers of 37; the last factor, 2^32 by the golden
// ratio, spreads sums that lie close together.
#[tactic(auto, using(crate::proofs::Rules::row_hash_laws))]
fn row_hash(types: &[u8], t: usize) -> usize
    requires { 36 * t + 36 ≤ length types.now }
    ensures { (result ≡ hash_at types.now t) × (result < 256) }
{
    let mut sum = head_word(types, t) as u64;
    let mut weight: u64 = 37;
    for k in 0..8 {
        sum += weight * pair_word(types, t, k) as u64;
        weight = weight * 37 % 65536;
    }
    (sum % 4294967296 * 2654435769 / 16777216 % 256) as usize
}

// No earlier row equals row t: one that does is on the chain of its hash, which begins at row `last`, counted from 1. A while: it goes from link to link.
#[tactic(auto, using(crate::proofs::Rules::is_fresh_laws))]
fn is_fresh(types: &[u8], links: &[u16; 256], t: usize, last: usize) -> bool
    requires { (36 * t + 36 ≤ length types.now) × (length types.now ≤ 9216) × (last ≡ last_of (hash_at types.now) t (hash_at types.now t)) × Linked types.now links.now t }
    ensures { result ≡ fresh (rows_before types.now t) (type_at types.now t) }
{
    let mut j = last;
    while 0 < j {
        if same_row(types, j - 1, t) {
            return false;
        }
        j = links[j - 1] as usize;
    }
    true
}

// If no earlier row equals row t, it joins the chain of its hash.
fn joins(types: &[u8], heads: &mut [u16; 256], links: &mut [u16; 256], t: usize) -> bool
    requires { (36 * t + 36 ≤ length types.now) × (length types.now ≤ 9216) × Chained types.now heads.old links.old t }
    ensures { Joined types.now heads.new links.new t result }
{
    let h = row_hash(types, t);
    let last = heads[h];
    if is_fresh(types, links, t, last as usize) {
        links[t] = last;
        heads[h] = (t + 1) as u16;
        return true;
    }
    false
}

// What is said of type t in the memo.
fn remember(known: &mut [u8; 256], t: usize, b: bool) -> bool
    requires { t < 256 }
    ensures { (result ≡ b) × (known.new ≡ set known.old t (mark b)) }
{
    known[t] = if b { 1 } else { 2 };
    b
}

// Whether type t is ground, told by going down through its parts; the memo tells of those that are known.
#[tactic(auto, using(crate::proofs::Rules::ground_laws))]
pub fn ground(types: &[u8], known: &mut [u8; 256], t: usize) -> bool
    requires { (36 * t + 36 ≤ length types.now) × (length types.now ≤ 9216) × Truthful known.old (form_of (type_table types.now)) }
    ensures { Told (form_of (type_table types.now)) known.new (ground (form_of (type_table types.now)) t) result }
{
    let said = known[t];
    if said != 0 {
        return said == 1;
    }
    match Form::of(layout::form_no(types, t)) {
        Some(Form::Str | Form::File | Form::Bool) => remember(known, t, true),
        Some(Form::List) => {
            let e = layout::result_no(types, t) as usize;
            if t <= e {
                return remember(known, t, false);
            }
            let told = ground(types, known, e);
            remember(known, t, told)
        }
        Some(Form::Tuple) => {
            for k in 0..part_count(types, t) {
                let p = layout::type_no(types, t, k) as usize;
                if t <= p {
                    return remember(known, t, false);
                }
                if known[p] == 1 {
                    continue;
                }
                if !ground(types, known, p) {
                    return remember(known, t, false);
                }
            }
            remember(known, t, true)
        }
        Some(Form::Native | Form::Foreign) | None => remember(known, t, false),
    }
}

// The same of any number: one beyond the table is no type.
#[tactic(auto, using(crate::proofs::Rules::ground_at_laws))]
pub fn ground_at(types: &[u8], known: &mut [u8; 256], t: usize) -> bool
    requires { (length types.now ≤ 9216) × Truthful known.old (form_of (type_table types.now)) }
    ensures { Told (form_of (type_table types.now)) known.new (ground (form_of (type_table types.now)) t) result }
{
    if layout::type_rows(types) <= t {
        return false;
    }
    if known[t] == 1 {
        return true;
    }
    ground(types, known, t)
}

// The arguments of row t are ground.
#[tactic(auto, using(crate::proofs::Rules::parts_ground_laws))]
fn parts_ground(types: &[u8], known: &mut [u8; 256], t: usize) -> bool
    requires { (36 * t + 36 ≤ length types.now) × (length types.now ≤ 9216) × Truthful known.old (form_of (type_table types.now)) }
    ensures { Told (form_of (type_table types.now)) known.new (parts_ground (form_of (type_table types.now)) (type_at types.now t)) result }
{
    let n = part_count(types, t);
    for k in 0..n {
        let p = layout::type_no(types, t, k) as usize;
        if !ground_at(types, known, p) {
            return false;
        }
    }
    true
}

// If row t is a foreign function, its arguments and its result are ground.
#[tactic(auto, using(crate::proofs::Rules::ground_call_laws))]
fn ground_call(types: &[u8], known: &mut [u8; 256], t: usize) -> bool
    requires { (36 * t + 36 ≤ length types.now) × (length types.now ≤ 9216) × Truthful known.old (form_of (type_table types.now)) }
    ensures { Told (form_of (type_table types.now)) known.new (ground_call (form_of (type_table types.now)) (type_at types.now t)) result }
{
    if layout::form_no(types, t) != 7 {
        return true;
    }
    let e = layout::result_no(types, t) as usize;
    ground_at(types, known, e) && parts_ground(types, known, t)
}

// Row t is good, but for rows before it that it may equal.
#[tactic(auto, using(crate::proofs::Rules::own_ok_laws))]
fn own_ok(types: &[u8], edition: u16, known: &mut [u8; 256], t: usize) -> bool
    requires { (36 * t + 36 ≤ length types.now) × (length types.now ≤ 9216) × Truthful known.old (form_of (type_table types.now)) }
    ensures { Told (form_of (type_table types.now)) known.new (own_ok edition (form_of (type_table types.now)) t (type_at types.now t)) result }
{
    let form = layout::form_no(types, t);
    1 <= form && form <= last_form(edition) && fields_ok(types, t) && ground_call(types, known, t)
}

// Refusal 6: the first bad row. Whether a row's type is ground is told before the next row, so that no walk goes deep.
#[tactic(auto, using(crate::proofs::Rules::bad_type_laws))]
pub fn bad_type(types: &[u8], edition: u16) -> Option<u32>
    requires { length types.now ≤ 9216 }
    ensures { result ≡ bad_type edition (type_table types.now) }
{
    let mut known = [0u8; 256];
    let mut heads = [0u16; 256];
    let mut links = [0u16; 256];
    for i in 0..layout::type_rows(types) {
        if !own_ok(types, edition, &mut known, i) {
            return Some(i as u32);
        }
        if !joins(types, &mut heads, &mut links, i) {
            return Some(i as u32);
        }
        ground(types, &mut known, i);
    }
    None
}
