// Graphs of nodes named by index.
use sqlite_items::Items;

/// A call graph: node `i` leads to the nodes of `calls[i]`, in any order and as often as they stand there.
/// A number that isn't below `calls.len()` names no node, and no path leads there.
#[derive(Drop)]
pub struct Graph {
    /// For each node, the nodes that it leads to.
    pub calls: Items<Items<u16>>,
}
