//! How far a connection is.
ghost use Rattle.std.specs.Prelude.{◌≡◌};
ghost use Rattle.room_model.specs.Account as account;
ghost use Rattle.room_client.specs.Client.{is_dialled, stage_of};

/// How far a connection is.
#[derive(Clone, Copy, Debug, PartialEq, Eq)]
pub(crate) enum Stage {
    /// There is none.
    Idle,
    /// The hello is on its way.
    Dialled,
    /// The session is told.
    Connected,
    /// The state is told on this connection.
    Synced,
}

/// Whether the session is told.
pub(crate) fn is_on(stage: Stage) -> bool
    ensures { result ≡ account.is_on (stage_of stage) }
{
    match stage {
        Stage::Idle => false,
        Stage::Dialled => false,
        Stage::Connected => true,
        Stage::Synced => true,
    }
}

/// Whether the state is told.
pub(crate) fn is_synced(stage: Stage) -> bool
    ensures { result ≡ account.is_synced (stage_of stage) }
{
    match stage {
        Stage::Idle => false,
        Stage::Dialled => false,
        Stage::Connected => false,
        Stage::Synced => true,
    }
}

/// Whether the hello is on its way.
pub(crate) fn is_dialled(stage: Stage) -> bool
    ensures { result ≡ is_dialled (stage_of stage) }
{
    match stage {
        Stage::Idle => false,
        Stage::Dialled => true,
        Stage::Connected => false,
        Stage::Synced => false,
    }
}
