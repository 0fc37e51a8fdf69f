// Rows of a table, and where trees end.
ghost use Rattle.std.specs.Prelude.{◌≡◌, [], ◌∷◌, map, ◌+◌, ◌-◌, ◌≤◌, ◌<◌, length};
ghost use Rattle.layout.specs.Rows.{numbers, row_table};
ghost use Rattle.layout.specs.Kinds.{number_of, IsKind};
ghost use Rattle.meaning.specs.Terms.{row_of, kind_no, n_no, type_no, sizes, grove};
ghost use Rattle.reduce.specs.Plan.{row_no};

use layout::Row;
use layout::kinds::Kind;

// Row i of the rows.
pub fn row_of(rows: &[u8], i: usize) -> Row
    requires { i < length (row_table rows.now) }
    ensures row { row_no (row_table rows.now) i ≡ numbers result }
    ensures kind { kind_no (row_no (row_table rows.now) i) ≡ result.kind }
    ensures n { n_no (row_no (row_table rows.now) i) ≡ result.n }
    ensures ty { type_no (row_no (row_table rows.now) i) ≡ result.ty }
{
    layout::row_at(rows, i)
}

// The kind of row i, by name.
pub fn kind_at(rows: &[u8], i: usize) -> Option<Kind>
    requires { i < length (row_table rows.now) }
    ensures { IsKind result (kind_no (row_no (row_table rows.now) i)) }
{
    row_of(rows, i).kind()
}

// A row of a kind that holds no word.
pub(crate) fn made(kind: Kind, n: u8, ty: u16) -> Row
    ensures { numbers result ≡ number_of kind ∷ n ∷ ty ∷ 0 ∷ [] }
{
    Row {
        kind: kind.number(),
        n,
        ty,
        word: 0,
    }
}

// The row behind n trees from row `at` on.
pub fn past_trees(rows: &[u8], at: usize, n: usize) -> usize
    requires { (length rows.now ≤ 32768) × (at + sizes (grove (map row_of (row_table rows.now)) at n) ≤ length (row_table rows.now)) }
    ensures { result ≡ at + sizes (grove (map row_of (row_table rows.now)) at n) }
{
    let mut e = at;
    for _tree in 0..n {
        e = terms::end_of(rows, e);
    }
    e
}
