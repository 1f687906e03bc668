//! What is read of clap's answer.
ghost use Rattle.std.specs.Prelude.{◌≡◌, Some, codes, option_map};
ghost use Rattle.clap.specs.Words.{first_of, found_of, rows_of};
ghost use Rattle.room_words.specs.Words.{Replay, Show, Patch, rooms_in};
ghost use Rattle.room_words.specs.Wording.{found, serve_found, client_found, gen_found, rooms_found, guard_from};
ghost use Rattle.room_words.specs.Wording.{deed_from};
ghost use Rattle.room_words.specs.Telling.{told, hosted_of, deed_of};

use crate::checks::{count_in, named, number_in, turns_in};
use crate::command::{Command, Deed, Hosted};
use clap::ArgMatches;

fn text<'a>(matches: &ArgMatches<'a>, id: &str) -> Option<&'a str>
    ensures { option_map (λ s. s.now) result ≡ first_of id.now (rows_of (found_of matches.now)) }
{
    matches.get_str(id)
}

fn hosted(room: &str) -> Option<Hosted<'_>>
    ensures { option_map hosted_of result ≡ rooms_in room.now }
{
    if room == "@all" {
        return Some(Hosted::All);
    }
    Some(Hosted::One(named(room)?))
}

fn guarded(word: Option<&str>) -> Option<bool>
    ensures { result ≡ guard_from (option_map (λ s. s.now) word.entry) }
{
    match word {
        None => Some(false),
        Some(word) => { if word == "guarded" { Some(true) } else { None } }
    }
}

fn deed<'a>(verb: &str, name: Option<&'a str>) -> Option<Deed<'a>>
    ensures { option_map deed_of result ≡ deed_from verb.now (option_map (λ s. s.now) name.entry) }
{
    match name {
        None => {
            if verb == "list" {
                Some(Deed::List)
            } else {
                None
            }
        }
        Some(name) => {
            if verb == "create" {
                Some(Deed::Create(named(name)?))
            } else if verb == "retire" {
                Some(Deed::Retire(named(name)?))
            } else if verb == "meta" {
                Some(Deed::Meta(named(name)?))
            } else {
                None
            }
        }
    }
}

fn serve<'a>(matches: &ArgMatches<'a>) -> Option<Command<'a>>
    ensures { option_map told result ≡ serve_found (rows_of (found_of matches.now)) }
{
    let folder = text(matches, "folder")?;
    let room = text(matches, "room")?;
    let address = text(matches, "address")?;
    let turns = text(matches, "turns")?;
    let rooms = hosted(room)?;
    let turns = turns_in(turns.as_bytes())?;
    let guarded = guarded(text(matches, "guarded"))?;
    Some(Command::Serve {
        folder,
        rooms,
        address,
        turns,
        guarded,
    })
}

fn client<'a>(matches: &ArgMatches<'a>) -> Option<Command<'a>>
    ensures { option_map told result ≡ client_found (rows_of (found_of matches.now)) }
{
    let address = text(matches, "address")?;
    let room = named(text(matches, "room")?)?;
    Some(Command::Client { address, room })
}

fn generate<'a>(matches: &ArgMatches<'a>) -> Option<Command<'a>>
    ensures { option_map told result ≡ gen_found (rows_of (found_of matches.now)) }
{
    let number = text(matches, "number")?;
    let count = text(matches, "count")?;
    let number = number_in(number.as_bytes())?;
    let count = count_in(count.as_bytes())?;
    Some(Command::Gen { number, count })
}

fn rooms<'a>(matches: &ArgMatches<'a>) -> Option<Command<'a>>
    ensures { option_map told result ≡ rooms_found (rows_of (found_of matches.now)) }
{
    let file = text(matches, "file")?;
    let verb = text(matches, "deed")?;
    let deed = deed(verb, text(matches, "name"))?;
    Some(Command::Rooms { file, deed })
}

fn replay<'a>(matches: &ArgMatches<'a>) -> Option<Command<'a>>
    ensures { option_map told result ≡ Some (Replay (first_of (codes "folder") (rows_of (found_of matches.now)))) }
{
    Some(Command::Replay {
        folder: text(matches, "folder"),
    })
}

fn show<'a>(matches: &ArgMatches<'a>) -> Option<Command<'a>>
    ensures { option_map told result ≡ option_map Show (first_of (codes "folder") (rows_of (found_of matches.now))) }
{
    let folder = text(matches, "folder")?;
    Some(Command::Show { folder })
}

fn patch<'a>(matches: &ArgMatches<'a>) -> Option<Command<'a>>
    ensures { option_map told result ≡ option_map Patch (first_of (codes "folder") (rows_of (found_of matches.now))) }
{
    let folder = text(matches, "folder")?;
    Some(Command::Patch { folder })
}

/// The command of this name, of the words that clap found for it.
pub(crate) fn found<'a>(name: &str, matches: &ArgMatches<'a>) -> Option<Command<'a>>
    ensures { option_map told result ≡ found name.now (rows_of (found_of matches.now)) }
{
    match name {
        "replay" => replay(matches),
        "serve" => serve(matches),
        "client" => client(matches),
        "show" => show(matches),
        "gen" => generate(matches),
        "patch" => patch(matches),
        "rooms" => rooms(matches),
        _ => None,
    }
}
