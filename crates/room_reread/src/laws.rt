//! What follows from the definitions alone.
ghost use Rattle.room_reread.specs.Fits.{KeepsFitting};
ghost use Rattle.room_reread.specs.Laws.{ValidIsRead, WaitingIsRead, FitsEverywhere, ReadsEverywhere, EachLineReads};

/// The text of a valid message of the server is read as that message, and so is, after every run, each text that waits
/// for a client or a link.
#[tactic(auto, using(crate::proofs::Waiting::waiting))]
pub fn waiting_is_read()
    ensures valid { ValidIsRead }
    ensures waiting { WaitingIsRead }
{}

/// What a client may send fits into a frame of 1,048,576 bytes: each batch that it issued and isn't acknowledged, what
/// is left of one, and the open one. Each call and each message keeps it so, and so it is after every run.
#[tactic(auto, using(crate::proofs::Kept::keeps_fitting, crate::proofs::Everywhere::everywhere))]
pub fn frames_fit()
    ensures keeps { KeepsFitting }
    ensures after_runs { FitsEverywhere }
{}

/// All that is sent in a run from a valid state, over lines that a schedule can spell, is read as it was meant: each
/// frame that a client sends, and each message that the server sends or that is taken.
#[tactic(auto, using(crate::proofs::Everywhere::everywhere))]
pub fn all_is_read()
    ensures all { ReadsEverywhere }
    ensures each { EachLineReads }
{}
