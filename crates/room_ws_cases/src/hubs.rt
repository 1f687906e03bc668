//! Cases of `room_ws`: hubs over streams in memory, on both sides.
use crate::args::{bytes, cut, number, text};
use crate::broken::Broken;
use crate::heads;
use crate::scene::Scene;
use room_hub::{Event, Hub, HubFault, SendFault};
use room_ws::Side;
use std::alloc::Global;

/// What comes of a case of a hub.
pub(crate) fn outcome(
    alloc: Global,
    scene: &mut Scene,
    verb: &str,
    rest: &str,
) -> Result<String, Broken> {
    match verb {
        "keys" => begin(alloc, scene, rest),
        "peer" => add(alloc, scene, rest),
        "serves" => open(alloc, scene, Side::Server),
        "dials" => open(alloc, scene, Side::Client(text(alloc, rest)?)),
        "head" => heads::head(alloc, written(alloc, scene, rest)?.as_slice()),
        "wrote" => heads::behind(alloc, written(alloc, scene, rest)?.as_slice()),
        _ => act(alloc, scene, verb, rest),
    }
}

/// What comes of a call of the hub.
fn act(alloc: Global, scene: &mut Scene, verb: &str, rest: &str) -> Result<String, Broken> {
    match verb {
        "next" => events(alloc, scene.hub()?, number(rest)?),
        "send" => send(alloc, scene, rest),
        "close" => close(alloc, scene, rest),
        "dial" => dial(alloc, scene),
        _ => Err(Broken::Verb),
    }
}

/// Begins anew, with these random bytes.
fn begin(alloc: Global, scene: &mut Scene, rest: &str) -> Result<String, Broken> {
    *scene = Scene::new(alloc, bytes(alloc, rest)?);
    done(alloc)
}

fn done(alloc: Global) -> Result<String, Broken> {
    Ok(String::from_str(alloc, "ok")?)
}

/// Adds a stream: how many writes it takes, and its chunks.
fn add(alloc: Global, scene: &mut Scene, rest: &str) -> Result<String, Broken> {
    let (writes, chunks) = cut(rest);
    scene.add(alloc, number(writes)?, chunks)?;
    done(alloc)
}

fn open(alloc: Global, scene: &mut Scene, side: Side) -> Result<String, Broken> {
    scene.open(alloc, side)?;
    done(alloc)
}

/// What was written to a stream.
fn written(alloc: Global, scene: &Scene, rest: &str) -> Result<Vec<u8>, Broken> {
    let Ok(bytes) = scene.written(number(rest)?)?.try_borrow() else {
        return Err(Broken::Stream);
    };
    Ok(Vec::from_slice(alloc, bytes.as_slice())?)
}

/// What an event is.
fn event(alloc: Global, given: &Result<Event, HubFault>) -> Result<String, Broken> {
    Ok(match given {
        Ok(Event::Opened(conn, key)) => format!(in alloc; "opened {conn} {key}")?,
        Ok(Event::Frame(conn, text)) => format!(in alloc; "frame {} {}", conn, text.as_str())?,
        Ok(Event::Gone(conn)) => format!(in alloc; "gone {conn}")?,
        Ok(Event::Quiet) => format!(in alloc; "quiet")?,
        Ok(Event::End) => format!(in alloc; "end")?,
        Err(HubFault::Memory) => return Err(Broken::Memory),
        Err(HubFault::Failed) => format!(in alloc; "failed")?,
    })
}

/// What so many calls of `next` give.
pub(crate) fn events<H: Hub>(alloc: Global, hub: &mut H, calls: u64) -> Result<String, Broken> {
    let mut told = String::new(alloc);
    for _call in 0..calls {
        let given = hub.next();
        if !told.is_empty() {
            told.push_str(", ")?;
        }
        told.push_str(event(alloc, &given)?.as_str())?;
    }
    Ok(told)
}

/// What a send or a close answers.
fn sent(alloc: Global, answer: Result<(), SendFault>) -> Result<String, Broken> {
    match answer {
        Ok(()) => done(alloc),
        Err(SendFault::Memory) => Err(Broken::Memory),
        Err(SendFault::Lost) => Ok(String::from_str(alloc, "lost")?),
    }
}

fn send(alloc: Global, scene: &mut Scene, rest: &str) -> Result<String, Broken> {
    let (conn, words) = cut(rest);
    let conn = number(conn)?;
    let words = text(alloc, words)?;
    sent(alloc, scene.hub()?.send(conn, &words))
}

fn close(alloc: Global, scene: &mut Scene, rest: &str) -> Result<String, Broken> {
    let (conn, rest) = cut(rest);
    let (code, words) = cut(rest);
    let conn = number(conn)?;
    let Ok(code) = u16::try_from(number(code)?) else {
        return Err(Broken::Number);
    };
    let words = text(alloc, words)?;
    sent(alloc, scene.hub()?.close(conn, code, &words))
}

fn dial(alloc: Global, scene: &mut Scene) -> Result<String, Broken> {
    match scene.hub()?.dial() {
        Ok(conn) => Ok(format!(in alloc; "dialled {conn}")?),
        Err(HubFault::Memory) => Err(Broken::Memory),
        Err(HubFault::Failed) => Ok(String::from_str(alloc, "failed")?),
    }
}
