// Scopes that end and begin.
ghost use Rattle.std.specs.Prelude.{◌≡◌, true, ℕ, ◌≤◌, length};
ghost use Rattle.meaning.specs.Types.{Form};
ghost use Rattle.layout.specs.Rows.{term_rows};
ghost use Rattle.quick.specs.Names.{NamesChained};
ghost use Rattle.quick.specs.Dues.{Outside, Inside};

use crate::{Place, names, rows};
use layout::kinds::Kind;
use terms::fields;
use typing::stated;

// The scope of the n innermost names ends.
pub fn leave(bound: &[u64], heads: &mut [u16], p: Place, n: usize) -> Place
    requires { NamesChained bound.now heads.old p.b }
    ensures { result.ok ≡ true → Outside bound.now heads.new n p result }
{
    if bound.len() - p.b < n {
        return rows::refused();
    }
    Place {
        i: p.i,
        s: p.s,
        b: names::unbind(bound, heads, p.b, n),
        ok: true,
        down: false,
        future: p.future,
    }
}

// The scope of the name of a let, row j, begins.
pub fn enter(rows: &[u8], bound: &mut [u64], heads: &mut [u16], p: Place, j: usize) -> Place
    requires { NamesChained bound.old heads.old p.b × (length rows.now ≤ 16384) }
    ensures { result.ok ≡ true → ((form : ℕ → Form) → Inside form (term_rows rows.now) bound.old bound.new heads.new j p result) }
{
    if layout::term_rows(rows) <= j {
        return rows::refused();
    }
    let r = layout::row_at(rows, j);
    if !r.is(Kind::Let) {
        return rows::refused();
    }
    if fields::LAST_NUMBER < r.word {
        return rows::refused();
    }
    if p.b == 0 {
        return rows::refused();
    }
    let a = stated::type_at(rows, j + 1);
    Place {
        i: p.i,
        s: p.s,
        b: names::bind(bound, heads, p.b, r.word as u16, a),
        ok: true,
        down: false,
        future: p.future,
    }
}
