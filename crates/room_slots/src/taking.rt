//! What a client does with what came down on a connection.
ghost use Rattle.std.specs.Prelude.{◌≡◌, ◌++◌, Some, IfOk, OnOk};
ghost use Rattle.room_model.specs.Lines.{event_lines};
ghost use Rattle.room_queues.specs.Seen.{outbound_in, IsMail};
ghost use Rattle.room_queues.specs.declared.mail.Mail.TheVariants.{Frame, Close};
ghost use Rattle.room_slots.specs.Taking.{Hears};

use crate::refusals::of_frame;
use crate::slot::Slot;
use room_client::Outcome;
use room_json::{Json, Names, NoMemory, Seq, Text};
use room_queues::Mail;
use room_report::{closed, event};
use room_tree::Tree;
use std::alloc::Global;

/// What came of it.
#[derive(Drop)]
pub enum Taken {
    /// It was taken: a line for each event, and the texts of the frames that go up on the same connection.
    Heard { lines: Names, replies: Names },
    /// The frame was refused, or was a close: its line, and the connection that the client lost, if it had one.
    Lost { line: Text, cut: Option<u64> },
}

/// A line for each event that the client of that number took.
fn lines_of(alloc: Global, c: u64, events: &[(u32, Json)]) -> Result<Names, NoMemory>
    ensures { IfOk result (λ ls. ls ≡ event_lines (Some c) events.now) }
{
    let mut lines = Seq::new(alloc);
    for (actor, e) in events {
        lines.push(event(alloc, Some(c), *actor, e)?)?;
    }
    Ok(lines)
}

impl<T: Tree> Slot<T> {
    /// What came down on the connection k, for the client of that number.
    pub(crate) fn take(
        &mut self,
        alloc: Global,
        line: u64,
        c: u64,
        k: u64,
        mail: &Mail,
    ) -> Result<Taken, NoMemory>
        ensures { IsMail mail.now → IfOk result (Hears self.old self.new line c k (outbound_in mail.now)) }
    {
        match mail {
            Mail::Frame(text) => self.take_frame(alloc, line, c, k, text),
            Mail::Close(code, text) => self.take_close(alloc, line, c, k, *code, text),
        }
    }

    fn take_frame(
        &mut self,
        alloc: Global,
        line: u64,
        c: u64,
        k: u64,
        text: &Text,
    ) -> Result<Taken, NoMemory>
        ensures { IsMail (Frame text.now) → IfOk result
            (Hears self.old self.new line c k (outbound_in (Frame text.now))) }
    {
        match self.client.frame(alloc, text) {
            Ok(outcome) => {
                let Outcome {
                    replies,
                    events,
                    notices,
                } = outcome;
                self.noticed = notices;
                let lines = lines_of(alloc, c, events.as_slice())?;
                Ok(Taken::Heard { lines, replies })
            }
            Err(fault) => {
                let line = of_frame(alloc, line, fault)?;
                let cut = self.present;
                self.present = None;
                Ok(Taken::Lost { line, cut })
            }
        }
    }

    fn take_close(
        &mut self,
        alloc: Global,
        line: u64,
        c: u64,
        k: u64,
        code: u16,
        text: &Text,
    ) -> Result<Taken, NoMemory>
        ensures { IfOk result (Hears self.old self.new line c k (outbound_in (Close code text.now))) }
    {
        let said = closed(alloc, k, code, text)?;
        let cut = self.present;
        self.cut(alloc);
        Ok(Taken::Lost { line: said, cut })
    }
}
