//! What clap is told of the words.
ghost use Rattle.std.specs.Prelude.{◌≡◌, IfOk, false};
ghost use Rattle.clap.specs.Words.{app_of, new_rule, rule_of, with_subcommand};
ghost use Rattle.room_words.specs.Wording.{needed, bare, program, replay_shape, serve_shape, client_shape};
ghost use Rattle.room_words.specs.Wording.{show_shape, gen_shape, patch_shape, rooms_shape};

use clap::{Arg, Command};
use std::alloc::{AllocError, Global};

fn needed<'a>(alloc: Global, id: &'a str) -> Arg<'a>
    ensures rule { rule_of result ≡ needed id.entry.now }
    ensures local { result.global ≡ false }
{
    Arg::new(alloc, id).required(true)
}

fn with_replay<'a>(alloc: Global, program: Command<'a>) -> Result<Command<'a>, AllocError>
    ensures { IfOk result (λ r. app_of r ≡ with_subcommand (app_of program.entry) replay_shape) }
{
    let command = Command::new(alloc, "replay").arg(Arg::new(alloc, "folder"))?;
    program.subcommand(command)
}

fn with_serve<'a>(alloc: Global, program: Command<'a>) -> Result<Command<'a>, AllocError>
    ensures { IfOk result (λ r. app_of r ≡ with_subcommand (app_of program.entry) serve_shape) }
{
    let command = Command::new(alloc, "serve")
        .arg(needed(alloc, "folder"))?
        .arg(needed(alloc, "room"))?
        .arg(needed(alloc, "address"))?
        .arg(needed(alloc, "turns"))?
        .arg(Arg::new(alloc, "guarded"))?;
    program.subcommand(command)
}

fn with_client<'a>(alloc: Global, program: Command<'a>) -> Result<Command<'a>, AllocError>
    ensures { IfOk result (λ r. app_of r ≡ with_subcommand (app_of program.entry) client_shape) }
{
    let command = Command::new(alloc, "client")
        .arg(needed(alloc, "address"))?
        .arg(needed(alloc, "room"))?;
    program.subcommand(command)
}

fn with_show<'a>(alloc: Global, program: Command<'a>) -> Result<Command<'a>, AllocError>
    ensures { IfOk result (λ r. app_of r ≡ with_subcommand (app_of program.entry) show_shape) }
{
    let command = Command::new(alloc, "show").arg(needed(alloc, "folder"))?;
    program.subcommand(command)
}

fn with_gen<'a>(alloc: Global, program: Command<'a>) -> Result<Command<'a>, AllocError>
    ensures { IfOk result (λ r. app_of r ≡ with_subcommand (app_of program.entry) gen_shape) }
{
    let command = Command::new(alloc, "gen")
        .arg(needed(alloc, "number"))?
        .arg(needed(alloc, "count"))?;
    program.subcommand(command)
}

fn with_patch<'a>(alloc: Global, program: Command<'a>) -> Result<Command<'a>, AllocError>
    ensures { IfOk result (λ r. app_of r ≡ with_subcommand (app_of program.entry) patch_shape) }
{
    let command = Command::new(alloc, "patch").arg(needed(alloc, "folder"))?;
    program.subcommand(command)
}

fn with_rooms<'a>(alloc: Global, program: Command<'a>) -> Result<Command<'a>, AllocError>
    ensures { IfOk result (λ r. app_of r ≡ with_subcommand (app_of program.entry) rooms_shape) }
{
    let command = Command::new(alloc, "rooms")
        .arg(needed(alloc, "file"))?
        .arg(needed(alloc, "deed"))?
        .arg(Arg::new(alloc, "name"))?;
    program.subcommand(command)
}

fn bare<'a>(alloc: Global) -> Command<'a>
    ensures { app_of result ≡ bare }
{
    Command::new(alloc, "room")
        .no_binary_name(true)
        .disable_help_flag(true)
        .disable_help_subcommand(true)
        .subcommand_required(true)
}

/// The program's commands and their words.
#[tactic(auto, unfolding(crate::specs::Wording::program))]
pub(crate) fn program<'a>(alloc: Global) -> Result<Command<'a>, AllocError>
    ensures { IfOk result (λ r. app_of r ≡ program) }
{
    let replay = with_replay(alloc, bare(alloc))?;
    let serve = with_serve(alloc, replay)?;
    let client = with_client(alloc, serve)?;
    let show = with_show(alloc, client)?;
    let generate = with_gen(alloc, show)?;
    let patch = with_patch(alloc, generate)?;
    with_rooms(alloc, patch)
}
