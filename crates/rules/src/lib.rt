// The rules of rows over the types that their children state, on a lent table of types.
#![tactic(auto)]

pub mod kinds;
pub mod names;

ghost use Rattle.std.specs.Prelude.{◌≡◌};
ghost use Rattle.layout.specs.Rows.{numbers};
ghost use Rattle.meaning.specs.Terms.{row_of};
ghost use Rattle.rules.specs.Forms.{forms, fixed_rule, FixedKind};

use layout::Row;
use layout::forms::Form;
use layout::kinds::Kind;
use layout::views::Types;

// The rule of a row of a fixed number of children, over the types that they state.
#[tactic(auto, using(crate::proofs::Fixed::fixed_rules), unfolding(meaning::specs::Terms::row_of, meaning::specs::Typing::base_no, meaning::specs::Typing::lit_base))]
pub fn fixed_ok(types: &Types, r: Row, a: u16, b: u16, c: u16) -> bool
    requires { FixedKind r.kind }
    ensures { result ≡ fixed_rule (forms types.now) (row_of (numbers r)).head r.ty a b c }
{
    let ty = r.ty;
    match r.kind() {
        Some(Kind::File) => types.is(ty, Form::File),
        Some(Kind::True | Kind::False) => types.is(ty, Form::Bool),
        Some(Kind::Native) => kinds::lambda_ok(types, ty, a),
        Some(Kind::Foreign) => types.is(ty, Form::Foreign),
        Some(Kind::Future) => true,
        Some(Kind::If) => kinds::if_ok(types, ty, a, b, c),
        Some(Kind::Nil) => types.is(ty, Form::List),
        Some(Kind::Cons) => kinds::cons_ok(types, ty, a, b),
        Some(Kind::IsNil) => kinds::isnil_ok(types, ty, a),
        Some(Kind::Zip) => kinds::zip_ok(types, r.n, ty, a),
        Some(Kind::Project) => kinds::project_ok(types, r.n, ty, a),
        Some(Kind::ListProject) => kinds::lproject_ok(types, r.n, ty, a),
        Some(Kind::Let) => b == ty,
        _ => types.is(ty, Form::Str),
    }
}
