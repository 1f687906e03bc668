//! Lines of a client.
ghost use Rattle.std.specs.Prelude.{◌≡◌, ◌++◌, [], ◌∷◌, codes, decimal, option_map, IfOk};
ghost use Rattle.std.specs.Option.{option_copied};
ghost use Rattle.room_json.specs.View.{json_of};
ghost use Rattle.room_model.specs.Account.{Account, unacknowledged};
ghost use Rattle.room_model.specs.History.{undo_count, redo_count};
ghost use Rattle.room_model.specs.Presence.{others_value};
ghost use Rattle.room_notice.specs.Notices.{notices_in};
ghost use Rattle.room_model.specs.Lines.{words, not_loaded_line, show_at, brief_at, others_line, history_line};
ghost use Rattle.room_model.specs.Lines.{notices_line, event_line};
ghost use Rattle.room_report.specs.Words.{head};

use crate::words::{add, add_number, start_of};
use room_items::view;
use room_json::{Copied, Json, Members, NoMemory, Text, write};
use room_notice::{Notices, write_notices};
use room_tree::Tree;
use std::alloc::Global;

#[tactic(auto, using(crate::proofs::Marked::marked_is))]
fn not_loaded(alloc: Global, mark: Option<u64>) -> Result<Text, NoMemory>
    ensures { IfOk result (λ t. t ≡ not_loaded_line mark) }
{
    let mut line = start_of(alloc, "client", mark)?;
    add(&mut line, "not")?;
    add(&mut line, "loaded")?;
    Ok(line)
}

/// A client's line up to its last words.
fn loaded(alloc: Global, mark: Option<u64>, n: u64, pending: u64) -> Result<Text, NoMemory>
    ensures { IfOk result (λ t. t ≡ head (codes "client") mark ++ 32 ∷ words
        (codes "n" ∷ decimal n ∷ codes "pending" ∷ decimal pending ∷ [])) }
{
    let mut line = start_of(alloc, "client", mark)?;
    add(&mut line, "n")?;
    add_number(alloc, &mut line, n)?;
    add(&mut line, "pending")?;
    add_number(alloc, &mut line, pending)?;
    Ok(line)
}

fn with_tree<T: Tree>(
    alloc: Global,
    mark: Option<u64>,
    n: u64,
    pending: u64,
    tree: &T,
) -> Result<Text, NoMemory>
    ensures { (x : Account) → x.n ≡ n → unacknowledged x ≡ pending
        → IfOk result (λ t. t ≡ show_at mark x (Some (T.nodes tree.now))) }
{
    let mut line = loaded(alloc, mark, n, pending)?;
    let shown = view(alloc, tree)?;
    let text = write(alloc, &shown)?;
    add(&mut line, text.as_str())?;
    Ok(line)
}

ghost use Rattle.std.specs.Prelude.{Some};

fn with_count<T: Tree>(
    alloc: Global,
    mark: Option<u64>,
    n: u64,
    pending: u64,
    tree: &T,
) -> Result<Text, NoMemory>
    ensures { (x : Account) → x.n ≡ n → unacknowledged x ≡ pending
        → IfOk result (λ t. t ≡ brief_at mark x (Some (T.nodes tree.now))) }
{
    let mut line = loaded(alloc, mark, n, pending)?;
    add(&mut line, "nodes")?;
    add_number(alloc, &mut line, tree.count())?;
    Ok(line)
}

/// What a client shows: the updates that it took, its batches that aren't acknowledged, and the tree. The mark of a
/// client is its number in a schedule; in a script it has none. Fails only where memory runs out, as all calls here.
pub fn show_client<T: Tree>(
    alloc: Global,
    mark: Option<u64>,
    n: u64,
    pending: u64,
    tree: Option<&T>,
) -> Result<Text, NoMemory>
    ensures { (x : Account) → x.n ≡ n → unacknowledged x ≡ pending
        → IfOk result (λ t. t ≡ show_at mark x (option_map T.nodes (option_copied tree.entry))) }
{
    match tree {
        Some(tree) => with_tree(alloc, mark, n, pending, tree),
        None => not_loaded(alloc, mark),
    }
}

/// The same with the number of nodes in place of the tree.
pub fn brief_client<T: Tree>(
    alloc: Global,
    mark: Option<u64>,
    n: u64,
    pending: u64,
    tree: Option<&T>,
) -> Result<Text, NoMemory>
    ensures { (x : Account) → x.n ≡ n → unacknowledged x ≡ pending
        → IfOk result (λ t. t ≡ brief_at mark x (option_map T.nodes (option_copied tree.entry))) }
{
    match tree {
        Some(tree) => with_count(alloc, mark, n, pending, tree),
        None => not_loaded(alloc, mark),
    }
}

/// The own presence, and that of the others.
pub fn others(
    alloc: Global,
    mark: Option<u64>,
    me: &Members,
    others: &Json,
) -> Result<Text, NoMemory>
    ensures { (x : Account) → x.me ≡ me.now → others_value x.others ≡ json_of others.now
        → IfOk result (λ t. t ≡ others_line mark x) }
{
    let mut line = start_of(alloc, "others", mark)?;
    let own = write(alloc, &Json::Object(me.copy(alloc)?))?;
    add(&mut line, own.as_str())?;
    let shown = write(alloc, others)?;
    add(&mut line, shown.as_str())?;
    Ok(line)
}

/// How much can be undone and redone.
pub fn history(alloc: Global, mark: Option<u64>, undo: u64, redo: u64) -> Result<Text, NoMemory>
    ensures { (x : Account) → undo_count x.history ≡ undo → redo_count x.history ≡ redo
        → IfOk result (λ t. t ≡ history_line mark x) }
{
    let mut line = start_of(alloc, "history", mark)?;
    add(&mut line, "undo")?;
    add_number(alloc, &mut line, undo)?;
    add(&mut line, "redo")?;
    add_number(alloc, &mut line, redo)?;
    Ok(line)
}

/// The last notices that a client was told.
pub fn notices(alloc: Global, mark: Option<u64>, told: &Notices) -> Result<Text, NoMemory>
    ensures { IfOk result (λ t. t ≡ notices_line mark (notices_in told.now)) }
{
    let mut line = start_of(alloc, "notices", mark)?;
    let text = write_notices(alloc, told)?;
    add(&mut line, text.as_str())?;
    Ok(line)
}

/// An event of an actor, as a client takes it.
pub fn event(alloc: Global, mark: Option<u64>, actor: u32, event: &Json) -> Result<Text, NoMemory>
    ensures { IfOk result (λ t. t ≡ event_line mark (actor, event.now)) }
{
    let mut line = start_of(alloc, "event", mark)?;
    add_number(alloc, &mut line, u64::from(actor))?;
    let text = write(alloc, event)?;
    add(&mut line, text.as_str())?;
    Ok(line)
}
