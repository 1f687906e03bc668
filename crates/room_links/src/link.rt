//! An attached connection.
ghost use Rattle.std.specs.Prelude.{◌≡◌, None, false, true, option_map};
ghost use Rattle.room_access.specs.View.{decision_of};
ghost use Rattle.room_model.specs.Server.{with_session};
ghost use Rattle.room_links.specs.Links.{holds_session};

use room_access::Decision;
use std::marker::Model;

/// An attached connection: its key, the actor of its session once it has one, whether it has fetched the state, and
/// what was decided at its hello where access was asked for. Contracts see the model's connection.
#[derive(Drop)]
pub struct Link {
    key: u64,
    actor: Option<u32>,
    fetched: bool,
    decision: Option<Decision>,
}

impl Model for Link {
    ghost use Rattle.std.specs.Coded.{codes};
    ghost use Rattle.room_model.specs.Server as model;
    ghost use Rattle.std.specs.Prelude.{option_map};
    ghost use Rattle.room_access.specs.View.{decision_of};
    ghost use Rattle.room_links.specs.Links.{link_code};

    ghost Value = { model.Link };

    ghost coded = { link_code };

    ghost view = { λ l. record {
      key = l.key;
      actor = l.actor;
      fetched = l.fetched;
      decision = option_map decision_of l.decision;
    } };
}

impl Link {
    /// A connection without a session.
    pub fn new(key: u64) -> Link
        ensures { result ≡ record { key = key; actor = None; fetched = false; decision = None } }
    {
        Link {
            key,
            actor: None,
            fetched: false,
            decision: None,
        }
    }

    /// The key of a session that begins on it.
    pub fn key(&self) -> u64
        ensures { result ≡ self.now.key }
    {
        self.key
    }

    /// The actor of its session, if it has one.
    pub fn actor(&self) -> Option<u32>
        ensures { result ≡ self.now.actor }
    {
        self.actor
    }

    /// Whether it has fetched the state since its session began.
    pub fn has_fetched(&self) -> bool
        ensures { result ≡ self.now.fetched }
    {
        self.fetched
    }

    /// What was decided at its hello, where access was asked for.
    pub fn decision(&self) -> Option<Decision>
        ensures { option_map decision_of result ≡ self.now.decision }
    {
        self.decision
    }

    /// The same connection with a session that begins or goes on, and has fetched nothing.
    pub fn with_session(&self, actor: u32, decision: Option<Decision>) -> Link
        ensures { result ≡ with_session self.now actor (option_map decision_of decision) }
    {
        Link {
            key: self.key,
            actor: Some(actor),
            fetched: false,
            decision,
        }
    }

    /// The same connection, which has fetched the state.
    pub fn after_fetch(&self) -> Link
        ensures { result ≡ record self.now { fetched = true } }
    {
        Link {
            key: self.key,
            actor: self.actor,
            fetched: true,
            decision: self.decision,
        }
    }

    /// The same connection.
    pub fn same(&self) -> Link
        ensures { result ≡ self.now }
    {
        Link {
            key: self.key,
            actor: self.actor,
            fetched: self.fetched,
            decision: self.decision,
        }
    }

    /// Whether its session is this actor's.
    pub fn is_of(&self, actor: u32) -> bool
        ensures { result ≡ holds_session actor self.now }
    {
        match self.actor {
            Some(own) => own == actor,
            None => false,
        }
    }
}
