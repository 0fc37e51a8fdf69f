// Refusals 11 to 16 of a reply to a sound record.
ghost use Rattle.std.specs.Prelude.{◌≡◌, true, ◌/◌, ◌*◌, ◌≤◌, length};
ghost use Rattle.layout.specs.Rows.{board, type_table, row_table, term_rows};
ghost use Rattle.meaning.specs.Types.{form_of, member};
ghost use Rattle.meaning.specs.Terms.{tree_of};
ghost use Rattle.meaning.specs.Records.{first_not, sound, state_of};
ghost use Rattle.meaning.specs.Entries.{reply_head_ok, reply_kinds, reply_kind, reply_bad, reply_verdict};
ghost use Rattle.terms.specs.Tables.{Closed};
ghost use Rattle.sound.specs.Ready.{Ready};
ghost use Rattle.settle.specs.Settled.{good_verdict, rows_verdict};

use layout::Limits;
use layout::kinds::Kind;
use layout::views::Types;
use meaning::{Refusal, require};

// Refusal 11: the header, and the length that its count needs.
#[tactic(auto, using(crate::proofs::Rules::verdict_head_ok_laws))]
fn head_ok(answer: &[u8], m: Limits) -> bool
    ensures { result ≡ reply_head_ok (board m) answer.now }
{
    if answer.len() < layout::REPLY_HEAD {
        return false;
    }
    let rows = layout::u16_at(answer, layout::REPLY_COUNT_AT);
    if rows == 0 {
        return false;
    }
    if m.reply < rows {
        return false;
    }
    if layout::u16_at(answer, layout::REPLY_ZEROS_AT) != 0 {
        return false;
    }
    answer.len() == layout::REPLY_HEAD + layout::TERM_ROW * rows as usize
}

// A kind that a reply may have.
#[tactic(auto, unfolding(meaning::specs::Types::member))]
fn kind_fits(k: u8) -> bool
    ensures { result ≡ member k reply_kinds }
{
    matches!(
        Kind::of(k),
        Some(
            Kind::Text
                | Kind::File
                | Kind::True
                | Kind::False
                | Kind::Nil
                | Kind::Cons
                | Kind::Tuple
        )
    )
}

// Refusal 14: the first row of another kind.
fn first_unfit(rows: &[u8]) -> Option<u32>
    requires { length rows.now ≤ 2048 }
    ensures { result ≡ first_not reply_kind (row_table rows.now) }
{
    layout::first_failing(rows, |r| kind_fits(r.kind))
}

// Refusal 15: the first row that fails typing; row 0 also by the listed type.
#[tactic(auto, using(crate::proofs::Rules::verdict_first_wrong_laws))]
fn first_wrong(types: &Types, rows: &[u8], ty: u16) -> Option<u32>
    requires { (8 ≤ length rows.now) × (length rows.now ≤ 16384) × Closed (term_rows rows.now) (length rows.now / 8) }
    ensures { result ≡ reply_bad (form_of types.now) ty (tree_of (term_rows rows.now)) }
{
    if layout::u16_at(rows, layout::ROW_TYPE_AT) != ty {
        return Some(0);
    }
    typing::first_bad(types, rows)
}

// Refusals 13 to 16, each by a pass of its own, which finds the row.
#[tactic(auto, unfolding(crate::specs::Settled::rows_verdict, meaning::specs::Entries::refuse, meaning::specs::Entries::refuse_shape, meaning::specs::Entries::require), using(crate::proofs::Rules::verdict_checked_verdict_laws))]
fn checked_verdict(
    types: &Types,
    rows: &[u8],
    value: &[u8],
    number: u32,
    ty: u16,
    room: u16,
) -> Result<(), Refusal>
    requires { (length types.now ≤ 256) × (length rows.now ≤ 16384) × (8 ≤ length value.now) × (length value.now ≤ 2048) }
    ensures { result ≡ rows_verdict types.now rows.now value.now number ty room }
{
    let count = types.len() as u16;
    terms::check_shape(value, count, layout::EDITION).map_err(|(f, i)| Refusal::ReplyRow(f, i))?;
    if let Some(i) = first_unfit(value) {
        return Err(Refusal::ReplyKind(i));
    }
    if let Some(i) = first_wrong(types, value, ty) {
        return Err(Refusal::ReplyTyping(i));
    }
    if (room as usize) < super::rows_after(rows, value, number) {
        return Err(Refusal::ReplyRoom);
    }
    Ok(())
}

// Refusals 14 to 16 of rows that are seen to be good: kinds, the listed type, room.
#[tactic(auto, unfolding(crate::specs::Settled::good_verdict, meaning::specs::Entries::refuse, meaning::specs::Entries::require), using(sound::proofs::Parts::first_type))]
fn good_verdict(rows: &[u8], value: &[u8], number: u32, ty: u16, room: u16) -> Result<(), Refusal>
    requires { (length rows.now ≤ 16384) × (8 ≤ length value.now) × (length value.now ≤ 2048) }
    ensures { result ≡ good_verdict rows.now value.now number ty room }
{
    if let Some(i) = first_unfit(value) {
        return Err(Refusal::ReplyKind(i));
    }
    require(
        layout::u16_at(value, layout::ROW_TYPE_AT) == ty,
        Refusal::ReplyTyping(0),
    )?;
    require(
        super::rows_after(rows, value, number) <= room as usize,
        Refusal::ReplyRoom,
    )
}

// Refusals 13 to 16. Rows that are seen to be good at once need no passes for their shape and typing.
#[tactic(auto, using(crate::proofs::Rules::verdict_rows_verdict_laws))]
fn rows_verdict(
    types: &Types,
    rows: &[u8],
    value: &[u8],
    number: u32,
    ty: u16,
    room: u16,
) -> Result<(), Refusal>
    requires { (length types.now ≤ 256) × (length rows.now ≤ 16384) × (8 ≤ length value.now) × (length value.now ≤ 2048) }
    ensures { result ≡ rows_verdict types.now rows.now value.now number ty room }
{
    if quick::few_good(types, value).is_ok() {
        return good_verdict(rows, value, number, ty, room);
    }
    checked_verdict(types, rows, value, number, ty, room)
}

// The verdict on a reply to a sound record: nothing is written.
#[tactic(auto, unfolding(meaning::specs::Entries::reply_verdict, meaning::specs::Entries::answer_verdict, meaning::specs::Entries::require), using(crate::proofs::Rules::verdict_reply_verdict_laws))]
pub fn reply_verdict(kept: &[u8], answer: &[u8], m: Limits) -> Result<(), Refusal>
    requires { (Ready m kept.now) × (sound (board m) kept.now ≡ true) × (m.reply ≤ 256) × (m.last ≤ 65535) }
    ensures { result ≡ reply_verdict (board m) (state_of (board m) kept.now) answer.now }
{
    require(head_ok(answer, m), Refusal::Header)?;
    let number = layout::u32_at(answer, 0);
    let ty = sound::open_list(kept, m)
        .find(number)
        .ok_or(Refusal::NotOpen)?;
    rows_verdict(
        &sound::types_of(kept),
        sound::rows_of(kept, m),
        &answer[layout::REPLY_HEAD..],
        number,
        ty,
        m.rows,
    )
}
