// Links through cleared space (`link_path` of the Rust).
#![tactic(auto)]

ghost use Rattle.std.specs.Prelude.{◌≡◌, ◌<◌, length, set};
ghost use Rattle.links.specs.Node.{node_in};

pub mod heap;
mod lattice;
pub mod link;
mod path;
mod search;
pub mod straight;

// The number of a node of the search's lattice.
#[derive(Clone, Copy, PartialEq, Eq)]
pub struct NodeNo(pub u32);

// Stands for no node.
pub const NO_NODE: NodeNo = NodeNo(0xffff_ffff);

// Where a slice of a number for each node has v's.
impl From<NodeNo> for usize {
    ghost from_gives = { λ v i. i ≡ v.0 };

    fn from(v: NodeNo) -> usize {
        v.0 as usize
    }
}

pub fn node_in(nodes: &[u32], i: usize) -> NodeNo
    requires { i < length nodes.now }
    ensures { result ≡ node_in nodes.now i }
{
    NodeNo(nodes[i])
}

pub fn put_node(nodes: &mut [u32], i: usize, v: NodeNo)
    requires { i < length nodes.old }
    ensures { nodes.new ≡ set nodes.old i v.0 }
{
    nodes[i] = v.0;
}
