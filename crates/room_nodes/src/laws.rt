//! What follows from the definitions alone.
ghost use Rattle.std.specs.Prelude.{◌≡◌, List};
ghost use Rattle.room_nodes.specs.Shape.{Nodes, IsFormed};
ghost use Rattle.room_nodes.specs.Steps.{is_void, settled_body, step, fold};
ghost use Rattle.room_nodes.specs.declared.nodes.Body.{Body as Meaning};

/// A step of a well-formed tree is well-formed, and so is a fold.
pub fn steps_are_formed()
    ensures step { (t : Nodes) → IsFormed t → (b : Meaning) → IsFormed (step t b) }
    ensures fold { (t : Nodes) → IsFormed t → (bs : List Meaning) → IsFormed (fold t bs) }
{}

/// What is settled on a well-formed tree settles there to itself, and is void where it was.
pub fn settling_twice_is_once()
    ensures void { (t : Nodes) → IsFormed t → (b : Meaning) → is_void t (settled_body t b) ≡ is_void t b }
    ensures settled { (t : Nodes) → IsFormed t → (b : Meaning) → settled_body t (settled_body t b) ≡ settled_body t b }
{}
