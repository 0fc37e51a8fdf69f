// Load: a program file is judged and, if accepted, written as a fresh record.
#![tactic(auto)]

use layout::Limits;
use layout::kinds::Kind;
use layout::views::Types;
use meaning::{Refusal, require};

pub mod figures;
mod fresh;
mod head;
pub mod reply;
pub mod run;

ghost use Rattle.std.specs.Prelude.{◌≡◌, ◌+◌, ◌*◌, ◌≤◌, length};
ghost use Rattle.layout.specs.Rows.{board, row_table};
ghost use Rattle.meaning.specs.Answers.{verdict_number, verdict_place};
ghost use Rattle.meaning.specs.Bytes.{arm};
ghost use Rattle.meaning.specs.Records.{first_not};
ghost use Rattle.meaning.specs.Entries.{file_edition, file_type_count, file_row_count, no_future, program_verdict, load_verdict, LoadSays};
ghost use Rattle.tca.specs.Loads.{Tells, future_verdict, rows_verdict};

// A verdict in numbers, as C gets it: a struct of fixed layout.
#[repr(C)]
#[derive(Clone, Copy)]
pub struct Verdict {
    pub refusal: u32,
    pub place: u32,
}

// 0 and 0 where nothing is refused.
impl From<meaning::Verdict> for Verdict {
    ghost from_gives = { λ v c. (c.refusal ≡ verdict_number v) × (c.place ≡ verdict_place v) };

    fn from(v: meaning::Verdict) -> Verdict {
        match v {
            Ok(()) => Verdict {
                refusal: 0,
                place: 0,
            },
            Err(r) => Verdict {
                refusal: u32::from(r),
                place: r.place(),
            },
        }
    }
}

// Refusal 8: the first future.
fn first_future(rows: &[u8]) -> Option<u32>
    requires { length rows.now ≤ 32768 }
    ensures { result ≡ first_not no_future (row_table rows.now) }
{
    layout::first_failing(rows, |r| !r.is(Kind::Future))
}

// Refusal 8 alone.
#[tactic(auto, unfolding(crate::specs::Loads::future_verdict, meaning::specs::Entries::refuse))]
fn future_verdict(rows: &[u8]) -> Result<(), Refusal>
    requires { length rows.now ≤ 32768 }
    ensures { result ≡ future_verdict rows.now }
{
    match first_future(rows) {
        Some(i) => Err(Refusal::Future(i)),
        None => Ok(()),
    }
}

// Refusals 7 to 9, each by a pass of its own, which finds the row.
#[tactic(auto, using(crate::proofs::Rules::walked), unfolding(crate::specs::Loads::rows_verdict, crate::specs::Loads::future_verdict, meaning::specs::Entries::refuse, meaning::specs::Entries::refuse_shape))]
fn rows_verdict(types: &[u8], rows: &[u8], edition: u16, count: u16) -> Result<(), Refusal>
    requires { length rows.now ≤ 16384 }
    ensures { result ≡ rows_verdict edition count types.now rows.now }
{
    terms::check_shape(rows, count, edition).map_err(|(f, i)| Refusal::Row(f, i))?;
    future_verdict(rows)?;
    match typing::first_bad(&Types::new(types), rows) {
        Some(i) => Err(Refusal::Typing(i)),
        None => Ok(()),
    }
}

// Refusals 6 to 9 of a file of an edition that has the length its counts need, with `count` types. Rows that are seen to be good at once need no
// other pass than the one for futures.
fn program_verdict(file: &[u8], edition: u16, count: u16) -> Result<(), Refusal>
    requires { (length file.now ≡ 10 + 36 * file_type_count file.now + 8 * file_row_count file.now) × (count ≡ file_type_count file.now) × (edition ≡ file_edition file.now) × (count ≤ 256) × (file_row_count file.now ≤ 2048) }
    ensures { result ≡ program_verdict file.now }
{
    let at = layout::FILE_HEAD + layout::TYPE_ROW * count as usize;
    let types = &file[layout::FILE_HEAD..at];
    let rows = &file[at..];
    if let Some(i) = types::bad_type(types, edition) {
        return Err(Refusal::TypeRow(i));
    }
    match quick::all_good(&Types::new(types), rows, edition) {
        Ok(false) => Ok(()),
        Ok(true) => future_verdict(rows),
        Err(_) => rows_verdict(types, rows, edition, count),
    }
}

// The verdict alone: nothing is written.
#[tactic(auto, unfolding(meaning::specs::Entries::load_verdict, meaning::specs::Entries::require, meaning::specs::Bytes::width, crate::specs::Loads::marked, crate::specs::Loads::counts_ok))]
fn load_verdict(file: &[u8], room: usize, m: Limits) -> Result<(), Refusal>
    requires { (m.types ≤ 256) × (m.program ≤ 2048) }
    ensures { result ≡ load_verdict (board m) file.now room }
{
    require(room == layout::record_bytes(m), Refusal::Length)?;
    require(layout::FILE_HEAD <= file.len(), Refusal::Size)?;
    require(head::is_marked(file), Refusal::Mark)?;
    let edition = head::version(file);
    require(edition == layout::EDITION, Refusal::Version)?;
    require(head::counts_ok(file, m), Refusal::Count)?;
    let types = head::type_count(file);
    let rows = layout::FILE_HEAD + layout::TYPE_ROW * types as usize;
    let size = rows + layout::TERM_ROW * head::row_count(file) as usize;
    require(file.len() == size, Refusal::Size)?;
    program_verdict(file, edition, types)
}

pub fn load(file: &[u8], kept: &mut [u8]) -> Result<(), Refusal>
    ensures { LoadSays arm file.now kept.old result kept.new }
{
    let m = runs::arm_limits();
    load_verdict(file, kept.len(), m)?;
    fresh::write_fresh(file, kept, m);
    Ok(())
}

pub fn tca_load(file: &[u8], kept: &mut [u8]) -> Verdict
    ensures { Tells file.now kept.old kept.new result }
{
    Verdict::from(load(file, kept))
}
