//! Runs cases of a server: reads them from standard input, a line each, and writes each with what comes of it.
#![tactic(auto)]

mod args;
mod broken;
mod calls;
mod scene;
mod texts;

use args::{cut, expanded};
use broken::Broken;
use scene::Scene;
use std::alloc::Global;

/// What comes of a case.
fn outcome(alloc: Global, scene: &mut Scene, case: &str) -> Result<String, Broken> {
    let (name, rest) = cut(case);
    match name {
        "many" => calls::outcome(alloc, scene, expanded(alloc, rest)?.as_str()),
        _ => calls::outcome(alloc, scene, case),
    }
}

/// What comes of a case, and how many calls of the disk it took, where it took any.
fn counted(alloc: Global, scene: &mut Scene, case: &str) -> Result<String, Broken> {
    let before = scene.disk.changes();
    let text = outcome(alloc, scene, case)?;
    let calls = scene.disk.changes().saturating_sub(before);
    if calls == 0 {
        return Ok(text);
    }
    Ok(format!(in alloc; "{text} | calls {calls}")?)
}

/// The line that is written of a line: a case with what comes of it, and blank lines and comments as they are.
fn report(alloc: Global, scene: &mut Scene, line: &str) -> Result<String, Broken> {
    if line.is_empty() || line.starts_with('#') {
        return Ok(format!(in alloc; "{line}")?);
    }
    match counted(alloc, scene, line) {
        Ok(text) => Ok(format!(in alloc; "{line} => {text}")?),
        Err(Broken::Memory) => Err(Broken::Memory),
        Err(broken) => Ok(format!(in alloc; "{line} => {broken}")?),
    }
}

fn main(rt: HostRuntime) -> anyhow::Result<()> {
    let mut scene = Scene::new(rt.alloc());
    for line in rt.lines(rt.alloc()) {
        let text = report(rt.alloc(), &mut scene, line?.as_str())?;
        println!(rt; "{text}")?;
    }
    Ok(())
}
