//! The laws, each the contract of a function without a body.
ghost use Rattle.room_overlay.specs.Laws.{OverlaysArePartsOfAccounts};

/// An overlay is a part of a client's account: what it says of itself is what the account says, and its calls make of
/// that part what the account's calls and messages make of it.
pub fn overlays_are_parts_of_accounts()
    ensures { OverlaysArePartsOfAccounts }
{}
