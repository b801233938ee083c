//! The derivation tree of a frame, as a list of nodes in preorder with their depths.
#![tactic(auto)]

mod backward;
mod block;
mod block_starts;
mod blocks;
mod cutting;
mod hints;
mod links;
mod min_depths;
mod node_list;
mod nodes;
mod origins;
mod pair;
mod place_map;
mod position_cache;
mod replacing;
mod scans;
mod searching;
mod shifts;
mod tree;
mod tree_nodes;

pub use links::Links;
pub use nodes::Nodes;
pub use origins::NodeOrigins;
pub use place_map::PlaceMap;
pub use tree::Tree;
