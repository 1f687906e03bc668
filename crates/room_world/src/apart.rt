//! Lines that leave the disk as it is.
ghost use Rattle.std.specs.Prelude.{◌≡◌, ◌≤◌, ◌+◌, ◌<◌, ◌^◌, Option, Some, true, IfOk};
ghost use Rattle.room_replay.specs.Files.{Files};
ghost use Rattle.room_host.specs.Rests.{SameFiles};
ghost use Rattle.room_model.specs.Lines as model;
ghost use Rattle.room_model.specs.World.{Fuse};
ghost use Rattle.room_moves.specs.Reading.{Reads};
ghost use Rattle.room_script.specs.Told.{line_of, told_of};
ghost use Rattle.room_world.specs.Did.{Does};
ghost use Rattle.room_world.specs.Kinds.{IsApart, IsOwn, IsAsked};
ghost use Rattle.room_world.specs.Lines.{IsRunnable};
ghost use Rattle.room_world.specs.Seen.{world_in};

use crate::world::World;
use room_fuse::Stopping;
use room_json::{Names, NoMemory, Seq};
use room_script::{Line, Spot};
use room_slots::Question;
use room_store::Limits;
use room_tree::Tree;
use std::alloc::Global;

impl<T: Tree, D: Stopping> World<T, D> {
    /// A line that leaves the disk as it is.
    pub(crate) fn apart(
        &mut self,
        alloc: Global,
        number: u64,
        line: &Line,
    ) -> Result<Names, NoMemory>
        requires apart { IsApart (told_of line.now) }
        requires line { IsRunnable line.now }
        requires room { self.old.opened + 1 < 2 ^ 64 }
        requires read { D.tells ≡ true → D.stops ≡ true → (l : model.Line) → line_of line.now ≡ Some l
            → (fs : Files) (fuse : Option Fuse) → Reads (world_in self.old fs fuse) number l }

        ensures does { D.tells ≡ true → D.stops ≡ true → (l : model.Line) → line_of line.now ≡ Some l
            → IfOk result (Does self.old self.new number l) }
        ensures opened { self.new.opened ≤ self.old.opened + 1 }
        ensures files { SameFiles self.old.hosting.server self.new.hosting.server }
    {
        match line {
            Line::Dial(c) => self.dial(alloc, number, u64::from(*c)),
            Line::Link => self.link(alloc, number),
            Line::Down(k) => self.down(alloc, number, *k),
            Line::Gone(k) => self.gone(alloc, number, *k),
            Line::Raw(k, text) => self.raw(alloc, number, *k, text),
            Line::Limit(n, m) => Ok(self.limit(
                alloc,
                number,
                Limits {
                    updates: *n,
                    sessions: *m,
                },
            )),
            Line::Show(Spot::Server) => self.show(alloc, number),
            Line::Brief(Spot::Server) => self.brief(alloc, number),
            _ => self.own(alloc, number, line),
        }
    }

    /// A line of a client that leaves the server as it is.
    fn own(&mut self, alloc: Global, number: u64, line: &Line) -> Result<Names, NoMemory>
        requires own { IsOwn (told_of line.now) }

        ensures does { (l : model.Line) → line_of line.now ≡ Some l
            → ((fs : Files) (fuse : Option Fuse) → Reads (world_in self.old fs fuse) number l)
            → IfOk result (Does self.old self.new number l) }
        ensures opened { self.new.opened ≡ self.old.opened }
        ensures hosting { self.new.hosting ≡ self.old.hosting }
    {
        match line {
            Line::Edit(c, e) => self.edit(alloc, number, u64::from(*c), e),
            Line::Begin(c) => self.begin(alloc, number, u64::from(*c)),
            Line::End(c) => self.end(alloc, number, u64::from(*c)),
            Line::Undo(c) => self.undo(alloc, number, u64::from(*c)),
            Line::Redo(c) => self.redo(alloc, number, u64::from(*c)),
            Line::Pause(c) => self.pause(alloc, number, u64::from(*c)),
            Line::Resume(c) => self.resume(alloc, number, u64::from(*c)),
            Line::Clear(c) => self.clear(alloc, number, u64::from(*c)),
            Line::Presence {
                client,
                patch,
                in_history,
            } => self.presence(alloc, number, u64::from(*client), patch, *in_history),
            Line::Event(c, e) => self.event(alloc, number, u64::from(*c), e),
            Line::Flush(c) => self.flush(alloc, number, u64::from(*c)),
            Line::Resend(c) => self.resend(alloc, number, u64::from(*c)),
            Line::Cut(c) => self.cut(alloc, number, u64::from(*c)),
            _ => self.asked(alloc, number, line),
        }
    }

    /// A question to a client. A line of a script alone does nothing.
    fn asked(&self, alloc: Global, number: u64, line: &Line) -> Result<Names, NoMemory>
        requires { IsAsked (told_of line.now) }
        ensures { (l : model.Line) → line_of line.now ≡ Some l → IfOk result (Does self.now self.now number l) }
    {
        match line {
            Line::Show(Spot::Client(c)) => self.ask(alloc, number, u64::from(*c), Question::Show),
            Line::Brief(Spot::Client(c)) => self.ask(alloc, number, u64::from(*c), Question::Brief),
            Line::Others(c) => self.ask(alloc, number, u64::from(*c), Question::Others),
            Line::History(c) => self.ask(alloc, number, u64::from(*c), Question::History),
            Line::Notices(c) => self.ask(alloc, number, u64::from(*c), Question::Notices),
            _ => Ok(Seq::new(alloc)),
        }
    }
}
