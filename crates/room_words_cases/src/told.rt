//! Commands as text.
use room_json::NoMemory;
use room_words::{Command, Deed, Hosted};
use std::alloc::Global;

/// A command with its values, and what it names.
pub(crate) fn told(alloc: Global, command: Command<'_>) -> Result<String, NoMemory> {
    let values = values(alloc, command)?;
    let folder = command.folder().unwrap_or("-");
    let address = command.address().unwrap_or("-");
    let file = command.file().unwrap_or("-");
    let serves = command.serves();
    Ok(format!(in alloc;
        "{values}; folder {folder}, address {address}, file {file}, serves {serves}"
    )?)
}

fn values(alloc: Global, command: Command<'_>) -> Result<String, NoMemory> {
    Ok(match command {
        Command::Replay { folder: None } => format!(in alloc; "replay in memory")?,
        Command::Replay {
            folder: Some(folder),
        } => format!(in alloc; "replay in {folder}")?,
        Command::Serve {
            folder,
            rooms,
            address,
            turns,
            guarded,
        } => format!(in alloc;
            "serve {} in {folder} at {address}, {turns} turns, guarded {guarded}",
            hosted(rooms)
        )?,
        Command::Client { address, room } => format!(in alloc; "client of {room} at {address}")?,
        Command::Show { folder } => format!(in alloc; "show {folder}")?,
        Command::Gen { number, count } => format!(in alloc; "gen {number} {count}")?,
        Command::Patch { folder } => format!(in alloc; "patch {folder}")?,
        Command::Rooms { file, deed } => rooms(alloc, file, deed)?,
    })
}

fn hosted(rooms: Hosted<'_>) -> &str {
    match rooms {
        Hosted::All => "all",
        Hosted::One(name) => name,
    }
}

fn rooms(alloc: Global, file: &str, deed: Deed<'_>) -> Result<String, NoMemory> {
    Ok(match deed {
        Deed::List => format!(in alloc; "list of {file}")?,
        Deed::Create(name) => format!(in alloc; "create {name} in {file}")?,
        Deed::Retire(name) => format!(in alloc; "retire {name} in {file}")?,
        Deed::Meta(name) => format!(in alloc; "meta of {name} in {file}")?,
    })
}
