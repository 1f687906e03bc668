//! What follows from the definitions alone.
ghost use Rattle.room_msg.specs.Laws.{ClientMsgsReadBack, ServerMsgsReadBack};
ghost use Rattle.room_msg.specs.Laws.{ClientFramesReadBack, ServerFramesReadBack};
ghost use Rattle.room_msg.specs.Sound.{ClientMsgsAreSound, ClientMsgsAreShallow};
ghost use Rattle.room_msg.specs.Sound.{ServerMsgsAreSound, ServerMsgsAreShallow};

/// What is read of a written message or frame of a client is that message or frame.
#[tactic(auto, using(crate::proofs::Framed::client_msgs, crate::proofs::Framed::client_frames))]
pub fn client_frames_read_back()
    ensures msgs { ClientMsgsReadBack }
    ensures frames { ClientFramesReadBack }
{}

/// What is read of a written message or frame of the server is that message or frame.
#[tactic(auto, using(crate::proofs::Framed::server_msgs, crate::proofs::Framed::server_frames))]
pub fn server_frames_read_back()
    ensures msgs { ServerMsgsReadBack }
    ensures frames { ServerFramesReadBack }
{}

/// Messages that stand in a value of the profile are sound, and no deeper than a frame makes them.
#[tactic(auto, using(crate::proofs::SoundClient::client_sound, crate::proofs::SoundClient::client_shallow))]
pub fn client_frames_are_sound()
    ensures sound { ClientMsgsAreSound }
    ensures shallow { ClientMsgsAreShallow }
{}

/// The same of the server's.
#[tactic(auto, using(crate::proofs::SoundServer::server_sound, crate::proofs::SoundServer::server_shallow))]
pub fn server_frames_are_sound()
    ensures sound { ServerMsgsAreSound }
    ensures shallow { ServerMsgsAreShallow }
{}
