// The fresh record of an accepted file.
ghost use Rattle.std.specs.Prelude.{◌≡◌, ◌≤◌, length, Ok};
ghost use Rattle.layout.specs.Rows.{board};
ghost use Rattle.meaning.specs.Records.{record_of};
ghost use Rattle.meaning.specs.Entries.{load_verdict, loaded_state};

use layout::Limits;

// All bytes zero, then the header, the file's types and the file's rows.
pub fn write_fresh(file: &[u8], kept: &mut [u8], m: Limits)
    requires { (load_verdict (board m) file.now (length kept.old) ≡ Ok tt) × (m.program ≤ m.rows) }
    ensures { kept.new ≡ record_of (board m) (loaded_state file.now) }
{
    let types = super::head::type_count(file);
    let rows = super::head::row_count(file);
    let at = layout::FILE_HEAD + layout::TYPE_ROW * types as usize;
    let behind = &file[at..];
    let first = layout::row_at(behind, 0);
    let room = kept.len();
    layout::clear(kept, 0, room);
    layout::write_head(kept, types, rows, 0, 1, first.ty);
    layout::copy_to(
        kept,
        layout::RECORD_HEAD,
        file,
        layout::FILE_HEAD,
        layout::TYPE_ROW * types as usize,
    );
    layout::copy_to(
        kept,
        layout::rows_at(m),
        file,
        at,
        layout::TERM_ROW * rows as usize,
    );
}
