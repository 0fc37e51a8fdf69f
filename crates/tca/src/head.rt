// The header of a program file.
ghost use Rattle.std.specs.Prelude.{◌≡◌, ◌≤◌, length};
ghost use Rattle.layout.specs.Rows.{board};
ghost use Rattle.meaning.specs.Entries.{file_no, file_type_count, file_row_count};
ghost use Rattle.tca.specs.Loads.{marked, counts_ok};

use layout::Limits;

pub fn is_marked(file: &[u8]) -> bool
    requires { 10 ≤ length file.now }
    ensures { result ≡ marked file.now }
{
    if file[0] != 84 {
        return false;
    }
    if file[1] != 67 {
        return false;
    }
    if file[2] != 65 {
        return false;
    }
    true
}

pub fn version(file: &[u8]) -> u16
    requires { 10 ≤ length file.now }
    ensures { result ≡ file_no 3 file.now }
{
    layout::u16_at(file, layout::VERSION_AT)
}

pub fn type_count(file: &[u8]) -> u16
    requires { 10 ≤ length file.now }
    ensures { result ≡ file_type_count file.now }
{
    layout::u16_at(file, layout::TYPE_COUNT_AT)
}

pub fn row_count(file: &[u8]) -> u16
    requires { 10 ≤ length file.now }
    ensures { result ≡ file_row_count file.now }
{
    layout::u16_at(file, layout::ROW_COUNT_AT)
}

// The zero byte, and each count from 1 to its limit.
pub fn counts_ok(file: &[u8], m: Limits) -> bool
    requires { 10 ≤ length file.now }
    ensures { result ≡ counts_ok (board m) file.now }
{
    if file[layout::ZERO_AT] != 0 {
        return false;
    }
    let types = type_count(file);
    if types == 0 {
        return false;
    }
    if m.types < types {
        return false;
    }
    let rows = row_count(file);
    if rows == 0 {
        return false;
    }
    if m.program < rows {
        return false;
    }
    true
}
