//! The lines of a case.
use crate::args::{cut, limits, number, rows, way};
use crate::broken::Broken;
use crate::scene::Scene;
use crate::texts::held;
use room_access::read_access;
use room_json::Text;
use room_server::{Came, ServerFault};
use std::alloc::Global;

fn done(alloc: Global) -> Result<String, Broken> {
    Ok(format!(in alloc; "ok")?)
}

/// What comes of a line: of a connection, or else of the server.
pub(crate) fn outcome(alloc: Global, scene: &mut Scene, line: &str) -> Result<String, Broken> {
    let (verb, rest) = cut(line);
    match verb {
        "open" => open(alloc, scene, rest),
        "frame" => frame(alloc, scene, rest),
        "fill" => fill(alloc, scene, rest),
        "gone" => scene.take(alloc, Came::Gone(number(rest)?)),
        "turn" => {
            scene.begin(alloc);
            done(alloc)
        },
        "end" => scene.end(alloc),
        _ => of_server(alloc, scene, verb, rest),
    }
}

/// A line of the server, or else of the disk.
fn of_server(alloc: Global, scene: &mut Scene, verb: &str, rest: &str) -> Result<String, Broken> {
    match verb {
        "recover" => scene.recover(alloc, limits(rest)?),
        "limit" => {
            let limits = limits(rest)?;
            scene.server()?.set_limits(limits);
            done(alloc)
        },
        "access" => guard(alloc, scene, rest),
        "compact" => compact(alloc, scene),
        "show" => {
            let faults = scene.disk.faults();
            let held = held(alloc, &*scene.server()?)?;
            Ok(format!(in alloc; "{held}, faults {faults}")?)
        },
        _ => of_disk(alloc, scene, verb, rest),
    }
}

/// A line of the disk, or of what went out.
fn of_disk(alloc: Global, scene: &mut Scene, verb: &str, rest: &str) -> Result<String, Broken> {
    match verb {
        "disk" => scene.renew(alloc),
        "fail" => scene.disk.fail(number(rest)?),
        "lift" => scene.disk.lift(),
        "stop" => {
            let (count, how) = cut(rest);
            let number = number(count)?;
            scene.disk.stop(number, way(how)?);
        },
        "settle" => scene.disk.settle()?,
        "mark" => scene.mark(alloc),
        "compare" => return scene.compare(alloc),
        _ => return Err(Broken::Line),
    }
    done(alloc)
}

fn open(alloc: Global, scene: &mut Scene, rest: &str) -> Result<String, Broken> {
    let (conn, key) = cut(rest);
    scene.take(alloc, Came::Opened(number(conn)?, number(key)?))
}

fn frame(alloc: Global, scene: &mut Scene, rest: &str) -> Result<String, Broken> {
    let (conn, text) = cut(rest);
    scene.take(
        alloc,
        Came::Frame(number(conn)?, Text::from_str(alloc, text)?),
    )
}

/// A frame of a connection that makes maps under the root: its actor, the first clock, and how many.
fn fill(alloc: Global, scene: &mut Scene, rest: &str) -> Result<String, Broken> {
    let (conn, rest) = cut(rest);
    let (actor, rest) = cut(rest);
    let (first, count) = cut(rest);
    let first = number(first)?;
    let behind = first.saturating_add(number(count)?);
    let mut text = Text::from_str(alloc, "[{\"ops\":[")?;
    for clock in first..behind {
        if clock > first {
            text.push_str(",")?;
        }
        text.push_str(making(alloc, actor, clock)?.as_str())?;
    }
    text.push_str("],\"type\":201}]")?;
    scene.take(alloc, Came::Frame(number(conn)?, text))
}

/// An operation that makes a map under the root, at a key that spells its clock.
fn making(alloc: Global, actor: &str, clock: u64) -> Result<String, Broken> {
    let id = format!(in alloc; "\"{actor}:{clock}\"")?;
    let id = id.as_str();
    let ids = format!(in alloc; "\"id\":{id},\"opId\":{id}")?;
    let rest = format!(in alloc; "\"parentId\":\"root\",\"parentKey\":\"{clock}\",\"type\":7")?;
    Ok(format!(in alloc; "{{{},{}}}", ids.as_str(), rest.as_str())?)
}

/// Who may do what: rows between `;`, or nothing where all may do everything.
fn guard(alloc: Global, scene: &mut Scene, rest: &str) -> Result<String, Broken> {
    if rest.is_empty() {
        scene.server()?.set_access(None);
        return done(alloc);
    }
    let text = rows(alloc, rest)?;
    let access = read_access(alloc, text.as_bytes())?;
    scene.server()?.set_access(Some(access));
    done(alloc)
}

fn compact(alloc: Global, scene: &mut Scene) -> Result<String, Broken> {
    let Some(server) = &mut scene.server else {
        return Err(Broken::Server);
    };
    match server.compact(alloc, &mut scene.disk) {
        Ok(()) => done(alloc),
        Err(ServerFault::Memory) => Err(Broken::Memory),
        Err(fault) => Ok(format!(in alloc; "refused: {fault}")?),
    }
}
