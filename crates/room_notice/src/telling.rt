//! The notices of an operation.
ghost use Rattle.std.specs.Prelude.{◌≡◌, ◌≢◌, ◌∷◌, [], IfOk, false};
ghost use Rattle.std.specs.FinMap.{get};
ghost use Rattle.std.specs.Option.{option_copied};
ghost use Rattle.room_json.specs.View.{json_of};
ghost use Rattle.room_ids.specs.declared.ids.NodeId.TheVariants.{Root as TheRoot};
ghost use Rattle.room_model.specs.Notices.{alone as alone_of, body_notices, deleted_notices, holds_map};
ghost use Rattle.room_model.specs.Notices.{has_field_at as has_field_at_of};
ghost use Rattle.room_model.specs.Notices.{keyed as keyed_of, notices_of as notices_of_spec, path_of as path_of_spec};
ghost use Rattle.room_nodes.specs.Steps.{is_void};
ghost use Rattle.room_tree.specs.Skipped.{IsChildOf};
ghost use Rattle.room_nodes.specs.declared.nodes.Body.TheVariants.{DeleteKey as ADeleteKey};
ghost use Rattle.room_notice.specs.Notices.{notice_of, notices_in, places_of};
ghost use Rattle.room_notice.specs.Told.{created as created_of, moved as moved_of, out_of};
ghost use Rattle.room_notice.specs.Told.{taken as taken_of, told as told_of};

use crate::finding::{index_at, index_of, path_of, rank};
use crate::shapes::{Notice, Notices, Path};
use room_ids::NodeId;
use room_json::{Copied, Items, Json, Members, Names, NoMemory, Text};
use room_nodes::{Body, Kind, Op};
use room_tree::{Tree, is_child_of, is_list_at, live};
use std::alloc::Global;

fn is_map_at<T: Tree>(t: &T, id: &NodeId) -> bool
    ensures { result ≡ holds_map (get (T.nodes t.now) id.now) }
{
    match t.node(id) {
        Some(node) => match &node.kind {
            Kind::Map => true,
            _ => false,
        },
        None => false,
    }
}

/// The JSON of a new node, whose children come by notices of their own.
fn alone(alloc: Global, kind: Kind) -> Json
    ensures { json_of result ≡ alone_of kind }
{
    match kind {
        Kind::Object(fields) => Json::Object(fields),
        Kind::List => Json::List(Items::new(alloc)),
        Kind::Map => Json::Object(Members::new(alloc)),
        Kind::Register(value) => value,
    }
}

/// Names that are set and unset, of an object or of a map.
fn keyed<T: Tree>(
    alloc: Global,
    t: &T,
    id: &NodeId,
    set: Members,
    unset: Names,
) -> Result<Notices, NoMemory>
    ensures { IfOk result (λ ns. notices_in ns
        ≡ keyed_of (holds_map (get (T.nodes t.now) id.now)) (path_of_spec (T.nodes t.now) id.now) set unset ∷ []) }
{
    let path = path_of(alloc, t, id)?;
    let mut notices = Notices::new(alloc);
    if is_map_at(t, id) {
        notices.push(Notice::Keys { path, set, unset })?;
    } else {
        notices.push(Notice::Fields { path, set, unset })?;
    }
    Ok(notices)
}

/// The child of a list that a create takes out.
fn replaced<'a, T: Tree>(t: &T, list: &NodeId, replaces: &'a Option<NodeId>) -> Option<&'a NodeId>
    ensures { option_copied result ≡ out_of (T.nodes t.now) list.now replaces.now }
{
    match replaces {
        Some(x) => if is_child_of(t, list, x) {
            Some(x)
        } else {
            None
        },
        None => None,
    }
}

fn one_name(alloc: Global, key: Text) -> Result<Names, NoMemory>
    ensures { IfOk result (λ ks. ks ≡ key ∷ []) }
{
    let mut names = Names::new(alloc);
    names.push(key)?;
    Ok(names)
}

fn one_member(alloc: Global, key: Text, value: Json) -> Result<Members, NoMemory>
    ensures { IfOk result (λ ms. ms ≡ (key, json_of value) ∷ []) }
{
    let mut members = Members::new(alloc);
    drop(members.set(key, value)?);
    Ok(members)
}

fn one(alloc: Global, notice: Notice) -> Result<Notices, NoMemory>
    ensures { IfOk result (λ ns. notices_in ns ≡ notice_of notice ∷ []) }
{
    let mut notices = Notices::new(alloc);
    notices.push(notice)?;
    Ok(notices)
}

/// A child leaves the list at the end of a path.
fn taken<T: Tree>(
    alloc: Global,
    t: &T,
    list: &NodeId,
    path: &Path,
    gone: Option<&NodeId>,
) -> Result<Notices, NoMemory>
    requires { IsChildOf (T.nodes t.now) list.now (option_copied gone) }
    ensures { IfOk result (λ ns. notices_in ns
        ≡ taken_of (T.nodes t.now) list.now (places_of path.now) (option_copied gone.entry)) }
{
    match gone {
        Some(id) => one(
            alloc,
            Notice::Take {
                path: path.copy(alloc)?,
                index: index_at(t, list, id),
            },
        ),
        None => Ok(Notices::new(alloc)),
    }
}

fn created<T: Tree>(
    alloc: Global,
    t: &T,
    parent: &NodeId,
    key: Text,
    replaces: &Option<NodeId>,
    kind: Kind,
) -> Result<Notices, NoMemory>
    ensures { IfOk result (λ ns. notices_in ns ≡ created_of (T.nodes t.now) parent.now key replaces.now kind) }
{
    if !is_list_at(t, parent) {
        let set = one_member(alloc, key, alone(alloc, kind))?;
        return keyed(alloc, t, parent, set, Names::new(alloc));
    }
    let path = path_of(alloc, t, parent)?;
    let gone = replaced(t, parent, replaces);
    let mut notices = taken(alloc, t, parent, &path, gone)?;
    notices.push(Notice::Insert {
        path,
        index: rank(t, parent, &key, gone),
        value: alone(alloc, kind),
    })?;
    Ok(notices)
}

fn moved<T: Tree>(alloc: Global, t: &T, id: &NodeId, key: &Text) -> Result<Notices, NoMemory>
    requires { id.now ≢ TheRoot }
    ensures { IfOk result (λ ns. notices_in ns
        ≡ moved_of (T.nodes t.now) id.now key.now (get (T.nodes t.now) id.now)) }
{
    let Some(node) = t.node(id) else {
        return Ok(Notices::new(alloc));
    };
    one(
        alloc,
        Notice::Move {
            path: path_of(alloc, t, &node.parent)?,
            from: index_of(t, id, node),
            to: rank(t, &node.parent, key, Some(id)),
        },
    )
}

fn deleted<T: Tree>(alloc: Global, t: &T, id: &NodeId) -> Result<Notices, NoMemory>
    requires { id.now ≢ TheRoot }
    ensures { IfOk result (λ ns. notices_in ns
        ≡ deleted_notices (T.nodes t.now) id.now (get (T.nodes t.now) id.now)) }
{
    let Some(node) = t.node(id) else {
        return Ok(Notices::new(alloc));
    };
    if is_list_at(t, &node.parent) {
        one(
            alloc,
            Notice::Take {
                path: path_of(alloc, t, &node.parent)?,
                index: index_of(t, id, node),
            },
        )
    } else {
        let unset = one_name(alloc, node.key.copy(alloc)?)?;
        keyed(alloc, t, &node.parent, Members::new(alloc), unset)
    }
}

fn has_field_at<T: Tree>(t: &T, id: &NodeId, key: &Text) -> bool
    ensures { result ≡ has_field_at_of key.now (get (T.nodes t.now) id.now) }
{
    match t.node(id) {
        Some(node) => match &node.kind {
            Kind::Object(fields) => fields.find(key).is_some(),
            _ => false,
        },
        None => false,
    }
}

fn cleared<T: Tree>(alloc: Global, t: &T, id: &NodeId, key: Text) -> Result<Notices, NoMemory>
    ensures { IfOk result (λ ns. notices_in ns
        ≡ body_notices (T.nodes t.now) (T.nodes t.now) (ADeleteKey id.now key)) }
{
    if !has_field_at(t, id, &key) && t.child_at(id, &key).is_none() {
        return Ok(Notices::new(alloc));
    }
    one(
        alloc,
        Notice::Fields {
            path: path_of(alloc, t, id)?,
            set: Members::new(alloc),
            unset: one_name(alloc, key)?,
        },
    )
}

/// The notices of an operation that is settled and not void.
fn told<T: Tree>(alloc: Global, t: &T, body: Body) -> Result<Notices, NoMemory>
    requires { is_void (T.nodes t.now) body ≡ false }
    ensures { IfOk result (λ ns. notices_in ns ≡ told_of (T.nodes t.now) body) }
{
    match body {
        Body::SetKey { node, key } => moved(alloc, t, &node, &key),
        Body::Create {
            node: _,
            parent,
            key,
            replaces,
            kind,
        } => created(alloc, t, &parent, key, &replaces, kind),
        Body::Update { node, fields } => one(
            alloc,
            Notice::Fields {
                path: path_of(alloc, t, &node)?,
                set: fields,
                unset: Names::new(alloc),
            },
        ),
        Body::Delete { node } => deleted(alloc, t, &node),
        Body::DeleteKey { node, key } => cleared(alloc, t, &node, key),
    }
}

/// The notices of an operation on the tree before it: what changes in the view, in order; none of a void one. Walks to
/// the root once, and over a list's children up to an index.
pub fn notices_of<T: Tree>(alloc: Global, t: &T, op: &Op) -> Result<Notices, NoMemory>
    ensures { IfOk result (λ ns. notices_in ns ≡ notices_of_spec (T.nodes t.now) op.now.body) }
{
    match live(alloc, t, &op.body)? {
        Some(body) => told(alloc, t, body),
        None => Ok(Notices::new(alloc)),
    }
}
