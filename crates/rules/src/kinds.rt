// The rules of rows over the types that their children state; each answers as the meaning's rule does, whatever names are around it.
#![tactic(auto, using(crate::proofs::ByRule::rules_read))]

ghost use Rattle.std.specs.Prelude.{◌≡◌, eqb, drop};
ghost use Rattle.meaning.specs.Types.{parts, empty, place};
ghost use Rattle.meaning.specs.Terms.{lambda, ite, fix, cons, isnil, zip, project, lproject};
ghost use Rattle.meaning.specs.Typing.{⟨⟩, ◌▹◌, when_list, given, same_params, masked_ok, zipped_ok, rule_ok};
ghost use Rattle.rules.specs.Forms.{forms};
ghost use Rattle.layout.specs.Forms.{says, part_types, is_function};

use layout::forms::Form;
use layout::views::Types;

// Native or foreign function.
pub fn is_function(f: u8) -> bool
    ensures { result ≡ is_function f }
{
    f == Form::Native.number() || f == Form::Foreign.number()
}

// A list of e.
fn is_list_of(types: &Types, t: u16, e: u16) -> bool
    ensures { result ≡ when_list (forms types.now t) (λ x. eqb x e) }
{
    types.is(t, Form::List) && types.result_of(t) == e
}

// The n-th part of t, counted from 1, is of type u.
#[tactic(auto, using(crate::proofs::ByPart::parts_placed))]
fn part_is(types: &Types, t: u16, n: u8, u: u16) -> bool
    ensures { result ≡ given (place n (part_types (says types.now t))) u }
{
    let i = n as usize;
    0 < i && i <= types.parts_of(t) && types.type_of(t, i - 1) == u
}

// The parts of t are those of c but the first.
#[tactic(auto, using(crate::proofs::ByPart::params_alike))]
fn same_params(types: &Types, t: u16, c: u16) -> bool
    ensures { result ≡ same_params (parts (says types.now t)) (drop 1 (parts (says types.now c))) }
{
    let n = types.parts_of(t);
    if layout::less_one(types.parts_of(c)) != n {
        return false;
    }
    for k in 0..n {
        if types.name_of(t, k) != types.name_of(c, k + 1) {
            return false;
        }
        if types.type_of(t, k) != types.type_of(c, k + 1) {
            return false;
        }
    }
    true
}

// The type q of a zipped argument around p.
#[tactic(auto, unfolding(meaning::specs::Typing::masked_ok))]
fn masked_ok(types: &Types, zipped: bool, p: u16, q: u16) -> bool
    ensures { result ≡ masked_ok (forms types.now) zipped p q }
{
    if zipped {
        is_list_of(types, q, p)
    } else {
        q == p
    }
}

// The parts of t are those of c by the mask. A walk of its own: the mask moves along with the parts.
#[tactic(auto, using(crate::proofs::ByPart::zipped_alike))]
fn zipped_ok(types: &Types, mask: u8, c: u16, t: u16) -> bool
    ensures { result ≡ zipped_ok (forms types.now) mask (parts (says types.now c)) (parts (says types.now t)) }
{
    let n = types.parts_of(c);
    if types.parts_of(t) != n {
        return false;
    }
    let mut bits = mask;
    for k in 0..n {
        if types.name_of(t, k) != types.name_of(c, k) {
            return false;
        }
        let p = types.type_of(c, k);
        if !masked_ok(types, bits % 2 == 1, p, types.type_of(t, k)) {
            return false;
        }
        bits /= 2;
    }
    bits == 0
}

pub fn lambda_ok(types: &Types, ty: u16, b: u16) -> bool
    ensures { result ≡ rule_ok (forms types.now) empty lambda ty (b ▹ ⟨⟩) }
{
    types.is(ty, Form::Native) && types.result_of(ty) == b
}

pub fn if_ok(types: &Types, ty: u16, c: u16, a: u16, b: u16) -> bool
    ensures { result ≡ rule_ok (forms types.now) empty ite ty (c ▹ a ▹ b ▹ ⟨⟩) }
{
    types.is(c, Form::Bool) && a == ty && b == ty
}

pub fn fix_ok(types: &Types, ty: u16, c: u16) -> bool
    ensures { result ≡ rule_ok (forms types.now) empty fix ty (c ▹ ⟨⟩) }
{
    types.is(c, Form::Native)
        && part_is(types, c, 1, ty)
        && types.is(ty, Form::Native)
        && same_params(types, ty, c)
        && types.result_of(ty) == types.result_of(c)
}

pub fn cons_ok(types: &Types, ty: u16, a: u16, b: u16) -> bool
    ensures { result ≡ rule_ok (forms types.now) empty cons ty (a ▹ b ▹ ⟨⟩) }
{
    b == ty && is_list_of(types, ty, a)
}

pub fn isnil_ok(types: &Types, ty: u16, c: u16) -> bool
    ensures { result ≡ rule_ok (forms types.now) empty isnil ty (c ▹ ⟨⟩) }
{
    types.is(ty, Form::Bool) && types.is(c, Form::List)
}

pub fn zip_ok(types: &Types, mask: u8, ty: u16, c: u16) -> bool
    ensures { result ≡ rule_ok (forms types.now) empty (zip mask) ty (c ▹ ⟨⟩) }
{
    let form = types.form_of(c);
    is_function(form)
        && types.form_of(ty) == form
        && is_list_of(types, types.result_of(ty), types.result_of(c))
        && zipped_ok(types, mask, c, ty)
}

pub fn project_ok(types: &Types, n: u8, ty: u16, c: u16) -> bool
    ensures { result ≡ rule_ok (forms types.now) empty (project n) ty (c ▹ ⟨⟩) }
{
    types.is(c, Form::Tuple) && part_is(types, c, n, ty)
}

pub fn lproject_ok(types: &Types, n: u8, ty: u16, c: u16) -> bool
    ensures { result ≡ rule_ok (forms types.now) empty (lproject n) ty (c ▹ ⟨⟩) }
{
    let element = types.result_of(c);
    types.is(c, Form::List)
        && types.is(element, Form::Tuple)
        && types.is(ty, Form::List)
        && part_is(types, element, n, types.result_of(ty))
}
