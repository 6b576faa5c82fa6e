ghost use Rattle.std.specs.Prelude.{◌≡◌, ◌<◌, true, [], ◌∷◌, ◌++◌, length, take, IfSome, if◌then◌else◌, Ok, Err, nat_lt};
ghost use Rattle.std.specs.List.{position};
ghost use Rattle.model.specs.Journal.{max_place};
ghost use Rattle.model.specs.declared.types.Refusal.TheVariants.{OrderFull};
ghost use Rattle.model.specs.Machine.{node_at, flag_at, set_flag, highest_flag, has_identity, place_of};

use super::types::Order;
use arrayvec::ArrayVec;
use model::{Identity, Node, Refusal};

fn is_of(node: &Node, sought: Identity) -> bool
    ensures { result ≡ has_identity node.now.update sought.run sought.station sought.call }
{
    node.update.identity() == sought
}

// The index of the first node that holds the update of this identity.
fn index_of(nodes: &[Node], sought: Identity) -> Option<usize>
    ensures value { result ≡ position (λ n. has_identity n.update sought.run sought.station sought.call) nodes.now }
    ensures within { IfSome result (λ i. i < length nodes.now) }
{
    nodes.iter().position(|node| is_of(node, sought))
}

impl Order {
    pub fn new() -> Self
        ensures { result ≡ [] }
    {
        Order {
            nodes: ArrayVec::new(),
        }
    }

    // How many places there are.
    pub fn len(&self) -> u64
        ensures { result ≡ length self.now }
    {
        self.nodes.len() as u64
    }

    // Adds a place at the end, if there is room.
    pub fn push(&mut self, node: Node) -> Result<(), Refusal>
        ensures answer { result ≡ (if nat_lt (length self.old) max_place then Ok tt else Err OrderFull) }
        ensures after { self.new ≡ (if nat_lt (length self.old) max_place then self.old ++ (node ∷ []) else self.old) }
    {
        self.nodes.try_push(node).map_err(|_| Refusal::OrderFull)
    }

    // The node at a place, a blank one where there is none.
    pub fn node(&self, place: u64) -> Node
        ensures { result ≡ node_at self.now place }
    {
        let at = place.saturating_sub(1) as usize;
        self.nodes.get(at).copied().unwrap_or_default()
    }

    // Whether a place is flagged; place 0 always is.
    pub fn is_flagged(&self, place: u64) -> bool
        ensures { result ≡ flag_at self.now place }
    {
        match place {
            0 => true,
            _ => self.node(place).flagged,
        }
    }

    // Flags a place, if it is there.
    pub fn set_flag(&mut self, place: u64)
        ensures { self.new ≡ set_flag self.old place }
    {
        let at = place.saturating_sub(1) as usize;
        if at < self.nodes.len() {
            self.nodes[at].flagged = true;
        }
    }

    // The first `count` nodes, or all if there are fewer.
    pub(crate) fn first(&self, count: u64) -> &[Node]
        ensures { result.now ≡ take count self.now }
    {
        let end = self.nodes.len().min(count as usize);
        &self.nodes[..end]
    }

    // The highest flagged place, or 0.
    #[tactic(auto, using(crate::proofs::Nodes::higher_more, crate::proofs::Nodes::higher_all))]
    pub fn highest_flag(&self) -> u64
        ensures { result ≡ highest_flag self.now }
    {
        let mut best = 0;
        for (at, node) in self.nodes.iter().enumerate() {
            if node.flagged {
                best = at as u64 + 1;
            }
        }
        best
    }

    // The lowest of the first `top` places that holds the update of this identity.
    #[tactic(auto, using(crate::proofs::Nodes::place_found))]
    fn find(&self, top: u64, sought: Identity) -> Option<u64>
        ensures { result ≡ place_of (take top self.now) 1 sought.run sought.station sought.call }
    {
        index_of(self.first(top), sought).map(|at| at as u64 + 1)
    }

    // The lowest place, up to the highest flagged one, that holds the update of this identity.
    pub fn place_of(&self, sought: Identity) -> Option<u64>
        ensures { result ≡ place_of (take (highest_flag self.now) self.now) 1 sought.run sought.station sought.call }
    {
        self.find(self.highest_flag(), sought)
    }
}
