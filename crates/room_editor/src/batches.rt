//! Batches.
ghost use Rattle.std.specs.Prelude.{◌≡◌, [], Ok, IfErr, OnOk, OnErr};
ghost use Rattle.room_model.specs.Calls.{batch_begin, batch_end};
ghost use Rattle.room_editor.specs.Editor.{done};
ghost use Rattle.room_editor.specs.Faults.{IsBatchFault};

use crate::editor::Editor;
use crate::faults::BatchFault;
use room_tree::Tree;

#[tactic(auto, using(crate::proofs::Patches::stands))]
impl<T: Tree> Editor<T> {
    /// Opens a batch: what is done until its end is one batch, and one entry of the history. Takes no memory.
    pub fn batch_begin(&mut self) -> Result<(), BatchFault>
        ensures ok { OnOk result (batch_begin self.old ≡ Ok self.new) }
        ensures fault { IfErr result (λ f. f ≡ BatchFault.InBatch × IsBatchFault (batch_begin self.old) f) }
        ensures err { OnErr result (self.new ≡ self.old) }
    {
        if self.gathering.is_open() {
            return Err(BatchFault::InBatch);
        }
        self.gathering.begin();
        Ok(())
    }

    /// Ends the open batch: it is issued, if it holds operations, and what takes it back is noted. Out of memory the
    /// batch stays open.
    pub fn batch_end(&mut self) -> Result<(), BatchFault>
        ensures ok { OnOk result (done (batch_end self.old) ≡ Ok (record { account = self.new; notices = [] })) }
        ensures fault { IfErr result (IsBatchFault (batch_end self.old)) }
        ensures err { OnErr result (self.new ≡ self.old) }
    {
        if !self.gathering.is_open() {
            return Err(BatchFault::NoBatch);
        }
        self.gathering.end(&mut self.past)?;
        if let Some(over) = &mut self.over {
            over.seal();
        }
        Ok(())
    }
}
