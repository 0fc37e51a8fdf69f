// One row of a quick check: its fields, its own rule over the type that its first child states, and what it leaves due.
ghost use Rattle.std.specs.Prelude.{◌≡◌, true, false, List, ℕ, ◌+◌, ◌/◌, ◌≤◌, ◌<◌, length};
ghost use Rattle.layout.specs.Rows.{row_table};
ghost use Rattle.rules.specs.Forms.{forms};
ghost use Rattle.layout.specs.Forms.{form_byte};
ghost use Rattle.quick.specs.Names.{NamesChained};
ghost use Rattle.quick.specs.Kinds.{LeafKind, OneChild};
ghost use Rattle.quick.specs.Dues.{AtKind, Room, SeesDue, SeesRow, LeavesDue};

use crate::{Place, dues, names};
use layout::forms::Form;
use layout::kinds::Kind;
use layout::views::Types;
use rules::kinds;
use terms::fields;
use typing::stated;

// Nothing is known.
pub fn refused() -> Place
    ensures { result.ok ≡ false }
{
    Place {
        i: 0,
        s: 0,
        b: 0,
        ok: false,
        down: false,
        future: false,
    }
}

// The next row, with what is due at the top from place s on.
fn next(p: Place, s: usize) -> Place
    requires { p.i ≤ 4096 }
    ensures { result ≡ record { i = p.i + 1; s = s; b = p.b; ok = true; down = false; future = p.future } }
{
    Place {
        i: p.i + 1,
        s: s,
        b: p.b,
        ok: true,
        down: false,
        future: p.future,
    }
}

// The same, where the next row is due before that, whatever type it states.
fn first(p: Place, s: usize) -> Place
    requires { p.i ≤ 4096 }
    ensures { result ≡ record { i = p.i + 1; s = s; b = p.b; ok = true; down = true; future = p.future } }
{
    Place {
        i: p.i + 1,
        s: s,
        b: p.b,
        ok: true,
        down: true,
        future: p.future,
    }
}

// A row without children, whose rule asks only the form of its type. Its word lies from `least` to `most`.
fn leaf(types: &Types, rows: &[u8], form: Form, least: u32, most: u32, p: Place) -> Place
    requires { (k : ℕ) × AtKind rows.now k p × LeafKind k (form_byte form) least most }
    ensures { result.ok ≡ true → ((es : List ℕ) → p.s ≤ length es → LeavesDue (forms types.now) (row_table rows.now) es es p result) }
{
    let r = layout::row_at(rows, p.i);
    if !fields::within(r, 0, 0, least, most) {
        return refused();
    }
    if types.is(r.ty, form) {
        return next(p, p.s);
    }
    refused()
}

// A future: any type will do.
fn future(rows: &[u8], p: Place) -> Place
    requires { AtKind rows.now 9 p }
    ensures { result.ok ≡ true → ((types : List (List ℕ)) (es : List ℕ) → p.s ≤ length es → LeavesDue (forms types) (row_table rows.now) es es p result) }
{
    let r = layout::row_at(rows, p.i);
    if fields::numbered(r) {
        return Place {
            i: p.i + 1,
            s: p.s,
            b: p.b,
            ok: true,
            down: false,
            future: true,
        };
    }
    refused()
}

// A row over one child, whose rule asks only what that states. Its n lies from `low` to `high`.
fn single(types: &Types, rows: &[u8], low: u8, high: u8, p: Place) -> Place
    requires { (k : ℕ) × AtKind rows.now k p × OneChild k low high }
    ensures { result.ok ≡ true → ((es : List ℕ) → p.s ≤ length es → LeavesDue (forms types.now) (row_table rows.now) es es p result) }
{
    let r = layout::row_at(rows, p.i);
    if !fields::counted(r, low, high) {
        return refused();
    }
    let a = stated::type_at(rows, p.i + 1);
    if rules::fixed_ok(types, r, a, r.ty, r.ty) {
        return first(p, p.s);
    }
    refused()
}

// A projection: its child states a tuple type with such a part.
fn project(types: &Types, rows: &[u8], p: Place) -> Place
    requires { AtKind rows.now 17 p }
    ensures { result.ok ≡ true → ((es : List ℕ) → p.s ≤ length es → LeavesDue (forms types.now) (row_table rows.now) es es p result) }
{
    let r = layout::row_at(rows, p.i);
    if !fields::counted(r, 1, 8) {
        return refused();
    }
    if kinds::project_ok(types, r.n, r.ty, stated::type_at(rows, p.i + 1)) {
        return first(p, p.s);
    }
    refused()
}

// An if: its first child is a truth, the others state its type.
fn branch(types: &Types, rows: &[u8], stack: &mut [u32], p: Place) -> Place
    requires { AtKind rows.now 10 p × Room stack.old p }
    ensures { result.ok ≡ true → LeavesDue (forms types.now) (row_table rows.now) stack.old stack.new p result }
{
    let r = layout::row_at(rows, p.i);
    if !fields::unused(r) {
        return refused();
    }
    let a = stated::type_at(rows, p.i + 1);
    if types.is(a, Form::Bool) {
        let s = dues::want(stack, p.s, r.ty);
        return first(p, dues::want(stack, s, r.ty));
    }
    refused()
}

// A cons: a list of what its first child states, and such a list behind it.
fn cons(types: &Types, rows: &[u8], stack: &mut [u32], p: Place) -> Place
    requires { AtKind rows.now 13 p × Room stack.old p }
    ensures { result.ok ≡ true → LeavesDue (forms types.now) (row_table rows.now) stack.old stack.new p result }
{
    let r = layout::row_at(rows, p.i);
    if !fields::unused(r) {
        return refused();
    }
    let a = stated::type_at(rows, p.i + 1);
    if !types.is(r.ty, Form::List) {
        return refused();
    }
    if types.result_of(r.ty) == a {
        return first(p, dues::want(stack, p.s, r.ty));
    }
    refused()
}

// An application: a function type, and arguments of the types that it asks.
fn apply(types: &Types, rows: &[u8], stack: &mut [u32], p: Place) -> Place
    requires { AtKind rows.now 8 p × Room stack.old p }
    ensures { result.ok ≡ true → LeavesDue (forms types.now) (row_table rows.now) stack.old stack.new p result }
{
    let r = layout::row_at(rows, p.i);
    if !fields::counted(r, 0, 8) {
        return refused();
    }
    let a = stated::type_at(rows, p.i + 1);
    if !types.is_function(a) {
        return refused();
    }
    if types.result_of(a) != r.ty {
        return refused();
    }
    if types.parts_of(a) != r.n as usize {
        return refused();
    }
    first(p, dues::want_parts(types, a, stack, p.s))
}

// A tuple, by element.
fn tuple(types: &Types, rows: &[u8], stack: &mut [u32], p: Place) -> Place
    requires { AtKind rows.now 16 p × Room stack.old p }
    ensures { result.ok ≡ true → LeavesDue (forms types.now) (row_table rows.now) stack.old stack.new p result }
{
    let r = layout::row_at(rows, p.i);
    if !fields::counted(r, 1, 8) {
        return refused();
    }
    if !types.is(r.ty, Form::Tuple) {
        return refused();
    }
    if types.parts_of(r.ty) != r.n as usize {
        return refused();
    }
    next(p, dues::want_parts(types, r.ty, stack, p.s))
}

// A fix: its child is a native function of the type that fix asks.
fn fix(types: &Types, rows: &[u8], p: Place) -> Place
    requires { AtKind rows.now 11 p }
    ensures { result.ok ≡ true → ((es : List ℕ) → p.s ≤ length es → LeavesDue (forms types.now) (row_table rows.now) es es p result) }
{
    let r = layout::row_at(rows, p.i);
    if !fields::unused(r) {
        return refused();
    }
    if !stated::is_native(rows, p.i + 1) {
        return refused();
    }
    if kinds::fix_ok(types, r.ty, stated::type_at(rows, p.i + 1)) {
        return first(p, p.s);
    }
    refused()
}

// A let: its name comes into scope behind its first child.
fn binder(rows: &[u8], stack: &mut [u32], p: Place) -> Place
    requires { AtKind rows.now 19 p × Room stack.old p }
    ensures { result.ok ≡ true → ((types : List (List ℕ)) → LeavesDue (forms types) (row_table rows.now) stack.old stack.new p result) }
{
    let r = layout::row_at(rows, p.i);
    if !fields::numbered(r) {
        return refused();
    }
    let s = dues::end_scope(stack, p.s, 1);
    let t = dues::want(stack, s, r.ty);
    first(p, dues::begin_scope(stack, t, p.i))
}

// A variable has the type that its name means.
fn variable(rows: &[u8], bound: &[u64], heads: &[u16], p: Place) -> Place
    requires { AtKind rows.now 5 p × NamesChained bound.now heads.now p.b }
    ensures { result.ok ≡ true → ((types : List (List ℕ)) (es : List ℕ) → p.s ≤ length es → SeesRow (forms types) (row_table rows.now) es bound.now es bound.now heads.now p result) }
{
    let r = layout::row_at(rows, p.i);
    if !fields::numbered(r) {
        return refused();
    }
    if names::means(bound, heads, r.word, r.ty) {
        return next(p, p.s);
    }
    refused()
}

// A native function: the names of its type are in scope in its body.
fn native(
    types: &Types,
    rows: &[u8],
    stack: &mut [u32],
    bound: &mut [u64],
    heads: &mut [u16],
    p: Place,
) -> Place
    requires { AtKind rows.now 6 p × Room stack.old p × NamesChained bound.old heads.old p.b }
    ensures { result.ok ≡ true → SeesRow (forms types.now) (row_table rows.now) stack.old bound.old stack.new bound.new heads.new p result }
{
    let r = layout::row_at(rows, p.i);
    if !fields::unused(r) {
        return refused();
    }
    if p.b < 8 {
        return refused();
    }
    if kinds::lambda_ok(types, r.ty, stated::type_at(rows, p.i + 1)) {
        let s = dues::end_scope(stack, p.s, types.parts_of(r.ty));
        let b = names::bind_parts(types, r.ty, bound, heads, p.b);
        return Place {
            i: p.i + 1,
            s: s,
            b: b,
            ok: true,
            down: true,
            future: p.future,
        };
    }
    refused()
}

// The row at a place, by its kind.
pub fn see(
    types: &Types,
    rows: &[u8],
    stack: &mut [u32],
    bound: &mut [u64],
    heads: &mut [u16],
    p: Place,
) -> Place
    requires { (p.i < length rows.now / 8) × (length rows.now ≤ 16384) × Room stack.old p × NamesChained bound.old heads.old p.b }
    ensures { result.ok ≡ true → SeesDue (forms types.now) (row_table rows.now) (length types.now) stack.old bound.old stack.new bound.new heads.new p result }
{
    let r = layout::row_at(rows, p.i);
    if types.len() <= r.ty as usize {
        return refused();
    }
    match r.kind() {
        Some(Kind::Text) => leaf(types, rows, Form::Str, 0, fields::LAST_WORD, p),
        Some(Kind::File) => leaf(types, rows, Form::File, 0, fields::LAST_WORD, p),
        Some(Kind::True) => leaf(types, rows, Form::Bool, 0, 0, p),
        Some(Kind::False) => leaf(types, rows, Form::Bool, 0, 0, p),
        Some(Kind::Variable) => variable(rows, bound, heads, p),
        Some(Kind::Native) => native(types, rows, stack, bound, heads, p),
        Some(Kind::Foreign) => leaf(types, rows, Form::Foreign, 1, fields::LAST_NUMBER, p),
        Some(Kind::Apply) => apply(types, rows, stack, p),
        Some(Kind::Future) => future(rows, p),
        Some(Kind::If) => branch(types, rows, stack, p),
        Some(Kind::Fix) => fix(types, rows, p),
        Some(Kind::Nil) => leaf(types, rows, Form::List, 0, 0, p),
        Some(Kind::Cons) => cons(types, rows, stack, p),
        Some(Kind::IsNil) => single(types, rows, 0, 0, p),
        Some(Kind::Zip) => single(types, rows, 1, 255, p),
        Some(Kind::Tuple) => tuple(types, rows, stack, p),
        Some(Kind::Project) => project(types, rows, p),
        Some(Kind::ListProject) => single(types, rows, 1, 8, p),
        Some(Kind::Let) => binder(rows, stack, p),
        None => refused(),
    }
}
