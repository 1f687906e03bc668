//! Runs cases of the top call: reads them from standard input, and writes each with what comes of it.
#![tactic(auto)]

mod args;
mod broken;
mod calls;
mod edges;
mod faults;
mod files;
mod input;
mod runs;
mod scene;

use scene::Scene;

fn main(rt: HostRuntime) -> anyhow::Result<()> {
    let mut scene = Scene::new(rt.alloc());
    for line in rt.lines(rt.alloc()) {
        if let Some(text) = scene.line(rt.alloc(), line?.as_str())? {
            println!(rt; "{text}")?;
        }
    }
    Ok(())
}
