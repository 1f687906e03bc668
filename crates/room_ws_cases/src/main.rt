//! Runs cases: reads them from standard input, a line each, and writes each with what comes of it.
#![tactic(auto)]

mod args;
mod broken;
mod cuts;
mod folders;
mod heads;
mod hubs;
mod scene;
mod streams;
mod wire;

use args::cut;
use broken::Broken;
use folders::Place;
use scene::Scene;

/// What comes of a case.
fn outcome(
    rt: &HostRuntime,
    scene: &mut Scene,
    place: &mut Place<'_>,
    case: &str,
) -> Result<String, Broken> {
    let (subject, rest) = cut(case);
    let (verb, rest) = cut(rest);
    match subject {
        "hub" => hubs::outcome(rt.alloc(), scene, verb, rest),
        "cut" => cuts::outcome(rt.alloc(), verb, rest),
        "stream" => streams::outcome(rt, verb, rest),
        "folder" => place.outcome(verb, rest),
        _ => Err(Broken::Verb),
    }
}

/// The line that is written of a line: a case with what comes of it, and blank lines and comments as they are.
fn report(
    rt: &HostRuntime,
    scene: &mut Scene,
    place: &mut Place<'_>,
    line: &str,
) -> Result<String, Broken> {
    let alloc = rt.alloc();
    if line.is_empty() || line.starts_with('#') {
        return Ok(format!(in alloc; "{line}")?);
    }
    match outcome(rt, scene, place, line) {
        Ok(text) => Ok(format!(in alloc; "{line} => {text}")?),
        Err(Broken::Memory) => Err(Broken::Memory),
        Err(broken) => Ok(format!(in alloc; "{line} => {broken}")?),
    }
}

fn main(rt: HostRuntime) -> anyhow::Result<()> {
    let mut scene = Scene::new(rt.alloc(), Vec::new(rt.alloc()));
    let mut place = Place::new(&rt)?;
    for line in rt.lines(rt.alloc()) {
        let text = report(&rt, &mut scene, &mut place, line?.as_str())?;
        println!(rt; "{text}")?;
    }
    Ok(())
}
