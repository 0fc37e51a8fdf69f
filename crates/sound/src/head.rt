// The header of a run record: its numbers, and the test of them.
ghost use Rattle.std.specs.Prelude.{◌≡◌, ◌≤◌, length, take};
ghost use Rattle.layout.specs.Rows.{board};
ghost use Rattle.meaning.specs.Bytes.{read, record_head};
ghost use Rattle.meaning.specs.Types.{same_numbers};
ghost use Rattle.meaning.specs.Records.{head_no, type_count, row_count, open_count, next_number, program_type, record_mark, head_sound};
ghost use Rattle.sound.specs.Ready.{counts_fit};

use layout::Limits;

#[tactic(auto, using(crate::proofs::Rules::head_edition_laws))]
pub fn edition(kept: &[u8]) -> u16
    requires { 20 ≤ length kept.now }
    ensures { result ≡ head_no 3 kept.now }
{
    layout::u16_at(kept, layout::VERSION_AT)
}

#[tactic(auto, using(crate::proofs::Rules::head_type_count_laws))]
pub fn type_count(kept: &[u8]) -> u16
    requires { 20 ≤ length kept.now }
    ensures { result ≡ type_count kept.now }
{
    layout::u16_at(kept, layout::TYPE_COUNT_AT)
}

#[tactic(auto, using(crate::proofs::Rules::head_row_count_laws))]
pub fn row_count(kept: &[u8]) -> u16
    requires { 20 ≤ length kept.now }
    ensures { result ≡ row_count kept.now }
{
    layout::u16_at(kept, layout::ROW_COUNT_AT)
}

#[tactic(auto, using(crate::proofs::Rules::head_open_count_laws))]
pub fn open_count(kept: &[u8]) -> u16
    requires { 20 ≤ length kept.now }
    ensures { result ≡ open_count kept.now }
{
    layout::u16_at(kept, layout::OPEN_COUNT_AT)
}

#[tactic(auto, using(crate::proofs::Rules::head_next_number_laws))]
pub fn next_number(kept: &[u8]) -> u32
    requires { 20 ≤ length kept.now }
    ensures { result ≡ next_number kept.now }
{
    layout::u32_at(kept, layout::NEXT_AT)
}

#[tactic(auto, using(crate::proofs::Rules::head_program_type_laws))]
pub fn program_type(kept: &[u8]) -> u16
    requires { 20 ≤ length kept.now }
    ensures { result ≡ program_type kept.now }
{
    layout::u16_at(kept, layout::PROGRAM_AT)
}

// The mark, the version and the zero byte behind it.
#[tactic(auto, using(crate::proofs::Rules::head_is_marked_laws))]
fn is_marked(kept: &[u8]) -> bool
    requires { 20 ≤ length kept.now }
    ensures { result ≡ same_numbers (take 5 (read record_head kept.now)) record_mark }
{
    if kept[0] != 84 {
        return false;
    }
    if kept[1] != 67 {
        return false;
    }
    if kept[2] != 82 {
        return false;
    }
    if edition(kept) != layout::EDITION {
        return false;
    }
    kept[layout::ZERO_AT] == 0
}

// Each count and the next number within its limits, and the last zeros.
#[tactic(auto, using(crate::proofs::Rules::head_counts_fit_laws))]
fn counts_fit(kept: &[u8], m: Limits) -> bool
    requires { 20 ≤ length kept.now }
    ensures { result ≡ counts_fit (board m) kept.now }
{
    let types = type_count(kept);
    if types == 0 {
        return false;
    }
    if m.types < types {
        return false;
    }
    let rows = row_count(kept);
    if rows == 0 {
        return false;
    }
    if m.rows < rows {
        return false;
    }
    if m.calls < open_count(kept) {
        return false;
    }
    let next = next_number(kept);
    if next == 0 {
        return false;
    }
    if m.last < next - 1 {
        return false;
    }
    layout::u16_at(kept, layout::ZEROS_AT) == 0
}

// The header's fixed numbers, and its counts within the board's limits.
#[tactic(auto, using(crate::proofs::Rules::head_head_sound_laws))]
pub fn head_sound(kept: &[u8], m: Limits) -> bool
    requires { 20 ≤ length kept.now }
    ensures { result ≡ head_sound (board m) kept.now }
{
    if !is_marked(kept) {
        return false;
    }
    counts_fit(kept, m)
}
