//! Laws of what a client is told.
ghost use Rattle.room_told.specs.Accounts.{ScreensFollow, ScreensStay};

/// The notices of every call and every message of a client, and of a whole frame, applied to what it showed, answer
/// true and give what it shows. This holds of sound accounts, and each call and each message keeps an account sound.
/// Calls that give no notices leave what is shown.
pub fn screens_follow()
    ensures follow { ScreensFollow }
    ensures stay { ScreensStay }
{}
