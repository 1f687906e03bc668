//! What follows from the definitions alone.
ghost use Rattle.room_queues.specs.Laws.{SentAreSeen, SeenAreMail, PongIsSent};

/// The text of a message that is no deeper than a frame can hold is read as that message, and the pong as the pong;
/// a text that is read so is seen as what it was sent for.
#[tactic(auto, using(crate::proofs::Sent::sent_seen, crate::proofs::Sent::seen_mail, crate::proofs::Sent::pong_sent))]
pub fn sent_texts_are_seen()
    ensures sent { SentAreSeen }
    ensures mail { SeenAreMail }
    ensures pong { PongIsSent }
{}
