use arrayvec::ArrayVec;
use model::Node;
use std::marker::Model;

// The nodes at the places 1, 2, 3 and on.
#[derive(Drop)]
pub struct Order {
    pub(crate) nodes: ArrayVec<Node, 256>,
}

impl Model for Order {
    ghost use Rattle.std.specs.Prelude.{List, ◌≤◌, length};
    ghost use Rattle.model.specs.declared.types.Node.{Node};

    ghost Value = { List Node };

    ghost view = { λ o. o.nodes.items };

    ghost invariant = { λ o. length o.nodes.items ≤ 256 };
}
