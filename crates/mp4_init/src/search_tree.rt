//! Seeking a track_ID among nodes by its bits.

ghost use Rattle.std.specs.Prelude.{◌≡◌, List, length, slice_get};
ghost use Rattle.mp4_init.specs.declared.search_tree.Node.{Node};
ghost use Rattle.mp4_init.specs.Implementation.SearchTrees.{ending, link_of, EndsWithin};

/// A track_ID, and where to go on from here for another: by the next bit of that, the lowest first. A node leads only
/// ahead: any other place is none.
#[derive(Clone, Copy)]
pub struct Node {
    pub id: u32,
    pub even: usize,
    pub odd: usize,
}

/// No place: to the first node none leads.
pub(crate) const NOWHERE: usize = 0;

/// One of the two links of a node.
#[derive(Clone, Copy)]
pub(crate) struct Link {
    pub(crate) at: usize,
    pub(crate) is_odd: bool,
}

/// Where a search ends.
#[derive(Clone, Copy)]
pub(crate) enum Ending {
    /// At the node of the track_ID.
    Found(usize),
    /// After the last node that was compared, by the link that leads to none.
    After(Link),
    /// No node was asked.
    Unasked,
}

/// What holds nodes. The search begins at the first.
pub trait Nodes {
    ghost nodes: { Self → List Node };

    /// The node at a place.
    fn node(&self, at: usize) -> Option<Node>
        ensures { result ≡ slice_get (nodes self.now) at };
}

/// Where a link of a node leads to.
fn next_of(node: Node, is_odd: bool) -> usize
    ensures { result ≡ link_of is_odd node }
{
    if is_odd { node.odd } else { node.even }
}

/// Where the search for a track_ID ends.
pub(crate) fn search<N: Nodes>(nodes: &N, id: u32) -> Ending
    ensures ending { result ≡ ending (N.nodes nodes.now) id }
    ensures within { EndsWithin (length (N.nodes nodes.now)) result }
{
    let mut ending = Ending::Unasked;
    let mut at = 0;
    let mut bits = id;
    loop {
        let Some(node) = nodes.node(at) else {
            return ending;
        };
        if node.id == id {
            return Ending::Found(at);
        }
        let is_odd = bits % 2 == 1;
        ending = Ending::After(Link { at, is_odd });
        let next = next_of(node, is_odd);
        if next <= at {
            return ending;
        }
        at = next;
        bits /= 2;
    }
}
