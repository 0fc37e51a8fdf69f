// The fields of a row against what its kind asks of them.
ghost use Rattle.std.specs.Prelude.{◌≡◌, get_or};
ghost use Rattle.layout.specs.Rows.{numbers};
ghost use Rattle.meaning.specs.Terms.{fits, words-from, none-used, any_word, a-number, an-n, kind_fields};

use layout::Row;
use layout::kinds::Kind;

// The greatest word, and the greatest name or number.
pub const LAST_WORD: u32 = 4294967295;

pub const LAST_NUMBER: u32 = 65535;

// n and word each lie in a range.
#[tactic(auto, using(crate::proofs::Rules::fields_within_laws))]
pub fn within(r: Row, low: u8, high: u8, least: u32, most: u32) -> bool
    ensures { result ≡ fits record { n_low = low; n_high = high; words = words-from least most } (numbers r) }
{
    low <= r.n && r.n <= high && least <= r.word && r.word <= most
}

// Neither n nor word is used.
pub fn unused(r: Row) -> bool
    ensures { result ≡ fits none-used (numbers r) }
{
    within(r, 0, 0, 0, 0)
}

// The word is of any value.
pub fn worded(r: Row) -> bool
    ensures { result ≡ fits any_word (numbers r) }
{
    within(r, 0, 0, 0, LAST_WORD)
}

// The word is a name or a number.
pub fn numbered(r: Row) -> bool
    ensures { result ≡ fits a-number (numbers r) }
{
    within(r, 0, 0, 1, LAST_NUMBER)
}

// n counts, from low to high.
pub fn counted(r: Row, low: u8, high: u8) -> bool
    ensures { result ≡ fits (an-n low high) (numbers r) }
{
    within(r, low, high, 0, 0)
}

// n and word are as the row's kind asks.
pub fn fit(r: Row) -> bool
    ensures { result ≡ fits (get_or kind_fields r.kind none-used) (numbers r) }
{
    match r.kind() {
        Some(Kind::Text | Kind::File) => worded(r),
        Some(Kind::Variable | Kind::Foreign | Kind::Future | Kind::Let) => numbered(r),
        Some(Kind::Apply) => counted(r, 0, 8),
        Some(Kind::Zip) => counted(r, 1, 255),
        Some(Kind::Tuple | Kind::Project | Kind::ListProject) => counted(r, 1, 8),
        _ => unused(r),
    }
}
