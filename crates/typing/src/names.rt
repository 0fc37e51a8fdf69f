// What a name means at a row: the binders around it, the innermost one first.
ghost use Rattle.std.specs.Prelude.{◌≡◌, ◌/◌, ◌≤◌, ◌<◌, length};
ghost use Rattle.layout.specs.Rows.{term_rows};
ghost use Rattle.meaning.specs.Types.{find};
ghost use Rattle.meaning.specs.Terms.{tree_at};
ghost use Rattle.rules.specs.Forms.{forms};
ghost use Rattle.typing.specs.Scope.{binds, chain, Binders};

use crate::stated;
use layout::kinds::Kind;
use layout::views::Types;
use rules::names;

// The type that the binder at row b gives to the name x in its body.
#[tactic(auto, using(crate::proofs::ByRow::rows_bind))]
fn bound_in(types: &Types, rows: &[u8], b: usize, x: u32) -> Option<u16>
    requires { b < length rows.now / 8 }
    ensures { result ≡ find (binds (forms types.now) (tree_at (term_rows rows.now) b)) x }
{
    let r = layout::row_at(rows, b);
    match r.kind() {
        Some(Kind::Native) => names::param_named(types, r.ty, x),
        Some(Kind::Let) if r.word == x => Some(stated::type_at(rows, b + 1)),
        _ => None,
    }
}

// The type of the name x below the binders that begin at entry v of the array.
#[tactic(auto, using(crate::proofs::ByRow::chains))]
pub fn lookup(types: &Types, rows: &[u8], scope: &[u16], v: usize, x: u32) -> Option<u16>
    requires { Binders rows.now scope.now (length rows.now / 8) × (v ≤ length rows.now / 8) }
    ensures { result ≡ chain (forms types.now) (term_rows rows.now) scope.now v v x }
{
    let mut e = v;
    // A while: each entry names the next one.
    while 0 < e {
        let b = e - 1;
        if let Some(t) = bound_in(types, rows, b, x) {
            return Some(t);
        }
        e = layout::wide(scope[b]);
    }
    None
}
