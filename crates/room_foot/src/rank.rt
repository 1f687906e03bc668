//! An id in its order.
ghost use Rattle.std.specs.Prelude.{◌≡◌};

use room_ids::{NodeId, compare, same_id};
use std::cmp::Ordering;
use std::marker::Model;

/// An id that is ordered as ids are. Contracts see the id.
#[derive(Clone, Copy)]
pub(crate) struct Rank {
    id: NodeId,
}

impl Model for Rank {
    ghost use Rattle.room_ids.specs.declared.ids.NodeId.{NodeId as Id};

    ghost Value = { Id };

    ghost view = { λ r. r.id };

    ghost inverse = { λ x. record { id = x } };
}

impl Rank {
    pub(crate) fn new(id: NodeId) -> Rank
        ensures { result ≡ id }
    {
        Rank { id }
    }

    pub(crate) fn id(&self) -> NodeId
        ensures { result ≡ self.now }
    {
        self.id
    }
}

impl Ord for Rank {
    ghost use Rattle.std.specs.Prelude.{refl};
    ghost use Rattle.room_ids.specs.Order.{node_cmp};
    ghost use Rattle.room_ids.proofs.IdOrder.{node_cmp-total};

    ghost cmp = { node_cmp };

    ghost total = { node_cmp-total };

    ghost matches_partial_cmp = { λ x y. refl };

    ghost matches_eq = { λ x y. refl };

    fn cmp(&self, other: &Rank) -> Ordering {
        compare(&self.id, &other.id)
    }
}

impl PartialOrd for Rank {
    ghost use Rattle.std.specs.Cmp.{partial_order_from_total};
    ghost use Rattle.std.specs.Ordering.{as_partial_cmp};
    ghost use Rattle.room_ids.specs.Order.{node_cmp};
    ghost use Rattle.room_ids.proofs.IdOrder.{node_cmp-total};

    ghost partial_cmp = { as_partial_cmp node_cmp };

    ghost laws = { partial_order_from_total node_cmp-total };

    fn partial_cmp(&self, other: &Rank) -> Option<Ordering> {
        Some(self.cmp(other))
    }
}

impl PartialEq for Rank {
    ghost use Rattle.std.specs.Cmp.{partial_equiv_from_equiv, eq_by_cmp_equiv};
    ghost use Rattle.room_ids.specs.Order.{is_same};
    ghost use Rattle.room_ids.proofs.IdOrder.{node_cmp-total};

    ghost eq = { is_same };

    ghost laws = { partial_equiv_from_equiv (eq_by_cmp_equiv node_cmp-total) };

    fn eq(&self, other: &Rank) -> bool {
        same_id(&self.id, &other.id)
    }
}

impl Eq for Rank {
    ghost use Rattle.std.specs.Cmp.{eq_by_cmp_equiv};
    ghost use Rattle.room_ids.proofs.IdOrder.{node_cmp-total};

    ghost laws = { eq_by_cmp_equiv node_cmp-total };
}
