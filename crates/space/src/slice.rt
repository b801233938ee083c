use crate::node::Node;

/// A part of a tree's list that was cut out.
#[derive(Drop)]
pub struct Slice {
    pub nodes: Vec<Node>,
}
