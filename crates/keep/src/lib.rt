// A record renewed in place: its rows, or its open list and next number.
#![tactic(auto)]

ghost use Rattle.std.specs.Prelude.{◌≡◌, ◌+◌, ◌*◌, ◌≤◌, length, List};
ghost use Rattle.meaning.specs.Bytes.{record_bytes};
ghost use Rattle.layout.specs.Rows.{board};
ghost use Rattle.meaning.specs.Records.{Entry};
ghost use Rattle.open.specs.Open.{Lists};
ghost use Rattle.keep.specs.Keep.{RowsRenewed, CallsRenewed};

use layout::Limits;
use open::OpenList;

// The rows of another term stand in the row space: they are counted, and the space behind them is cleared.
pub fn renew_rows(kept: &mut [u8], m: Limits, rows: usize)
    requires { (length kept.old ≡ record_bytes (board m)) × (rows ≤ m.rows) }
    ensures { RowsRenewed (board m) kept.old kept.new rows }
{
    let end = kept.len();
    let at = layout::rows_at(m) + layout::TERM_ROW * rows;
    layout::clear(kept, at, end);
    layout::put16_at(kept, layout::ROW_COUNT_AT, rows as u16);
}

// Another open list and next number.
pub fn renew_calls(kept: &mut [u8], m: Limits, calls: OpenList, next: u32)
    requires { (length kept.old ≡ record_bytes (board m)) × (calls.count ≤ m.calls) }
    ensures { (es : List Entry) → Lists calls es → CallsRenewed (board m) kept.old kept.new es next }
{
    let from = layout::calls_at(m);
    let to = layout::rows_at(m);
    calls.store(&mut kept[from..to]);
    layout::put16_at(kept, layout::OPEN_COUNT_AT, calls.count as u16);
    layout::put32_at(kept, layout::NEXT_AT, next);
}
