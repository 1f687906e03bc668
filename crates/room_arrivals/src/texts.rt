//! The texts of closes.
ghost use Rattle.std.specs.Prelude.{◌≡◌, ◌++◌, codes, decimal, IfOk};
ghost use Rattle.room_access.specs.View.{decision_of};
ghost use Rattle.room_model.specs.Access as access;
ghost use Rattle.room_model.specs.Server as model;

use room_access::Decision;
use room_ids::push_number;
use room_json::{Copied, NoMemory, Text};
use room_msg::Reason;
use std::alloc::Global;

fn reason_text(alloc: Global, reason: &Reason) -> Result<Text, NoMemory>
    ensures { IfOk result (λ t. t ≡ model.reason_text reason.now) }
{
    match reason {
        Reason::Size => Text::from_str(alloc, "size"),
        Reason::Json => Text::from_str(alloc, "json"),
        Reason::Depth => Text::from_str(alloc, "depth"),
        Reason::Number => Text::from_str(alloc, "number"),
        Reason::List => Text::from_str(alloc, "list"),
        Reason::Kind => Text::from_str(alloc, "type"),
        Reason::Field(name) => joined(alloc, "field ", name),
        Reason::Hello => Text::from_str(alloc, "hello"),
        Reason::Room => Text::from_str(alloc, "room"),
    }
}

fn joined(alloc: Global, front: &str, back: &Text) -> Result<Text, NoMemory>
    ensures { IfOk result (λ t. t ≡ front.now ++ back.now) }
{
    let mut text = Text::from_str(alloc, front)?;
    text.push_str(back.as_str())?;
    Ok(text)
}

/// Why a frame is bad.
pub fn bad_frame_text(alloc: Global, reason: &Reason) -> Result<Text, NoMemory>
    ensures { IfOk result (λ t. t ≡ codes "bad frame " ++ model.reason_text reason.now) }
{
    let reason = reason_text(alloc, reason)?;
    joined(alloc, "bad frame ", &reason)
}

/// A word, and a number.
pub fn counted_text(alloc: Global, what: &str, count: u64) -> Result<Text, NoMemory>
    ensures { IfOk result (λ t. t ≡ what.now ++ decimal count) }
{
    let mut text = Text::from_str(alloc, what)?;
    push_number(alloc, &mut text, count)?;
    Ok(text)
}

/// What was expected, and what came.
pub fn expected_text(alloc: Global, what: &str, expected: u64, got: u64) -> Result<Text, NoMemory>
    ensures { IfOk result (λ t. t ≡ model.expected_got what.now expected got) }
{
    let mut text = Text::from_str(alloc, what)?;
    text.push_str(" expected ")?;
    push_number(alloc, &mut text, expected)?;
    text.push_str(" got ")?;
    push_number(alloc, &mut text, got)?;
    Ok(text)
}

fn row_text(alloc: Global, row: Option<u64>) -> Result<Text, NoMemory>
    ensures { IfOk result (λ t. t ≡ access.row_text row) }
{
    match row {
        Some(row) => counted_text(alloc, "row ", row),
        None => Text::from_str(alloc, "no row"),
    }
}

/// Which rule bars a message.
pub fn refusal_text(alloc: Global, bar: &Decision) -> Result<Text, NoMemory>
    ensures { IfOk result (λ t. t ≡ access.refusal_text (decision_of bar.now)) }
{
    let row = row_text(alloc, bar.row)?;
    joined(alloc, "may not write ", &row)
}
