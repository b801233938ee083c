//! Trees, what is cut out of them, and what is put back: worked out by hand. None has two roots, since no call makes one:
//! a tree begins with one root, each other node is put below a node, and a node goes with all that derives from it.

use std::process::Abort;

/// A cut of a tree and what is put back: all by texts.
#[derive(Clone, Copy)]
pub struct Case<'a> {
    /// The tree at first.
    pub tree: &'a str,
    /// The places whose outermost runs are cut out.
    pub named: &'a str,
    /// These runs.
    pub runs: &'a str,
    /// How many nodes a part has at most.
    pub most: usize,
    /// The parts.
    pub parts: &'a str,
    /// The tree without them.
    pub left: &'a str,
    /// The places that are left out of the parts.
    pub gone: &'a str,
    /// The tree with the rest of the parts.
    pub whole: &'a str,
}

/// What stands behind a name in the lines of a case.
fn field<'a>(rt: &impl Abort, text: &'a str, name: &str) -> &'a str {
    for line in text.lines() {
        if let Some((first, rest)) = line.split_once(':') {
            if first == name {
                return rest.trim();
            }
        }
    }
    panic!(rt; "no {name} in {text}")
}

/// The names in the lines of a case, but for that of the number.
const NAMES: [&str; 7] = ["tree", "named", "runs", "parts", "left", "gone", "whole"];

/// The case that some lines of the table describe.
pub fn case_of<'a>(rt: &impl Abort, text: &'a str) -> Case<'a> {
    let Ok(most) = field(rt, text, "most").parse() else {
        panic!(rt; "no number in {text}");
    };
    let mut fields = [""; 7];
    for k in 0..7 {
        fields[k] = field(rt, text, NAMES[k]);
    }
    let [tree, named, runs, parts, left, gone, whole] = fields;
    Case {
        tree,
        named,
        runs,
        most,
        parts,
        left,
        gone,
        whole,
    }
}

/// What stands between two cases.
pub const BETWEEN: &str = "\n\n";

/// The tree of `sample`, cut at 1:0.
pub const SAMPLE: &str = "tree: 0:5/0 1:0/1 2:0/2 1:3/3 2:4/1
named: 1:0
runs: 1..4
most: 2
parts: 1:0/1 2:0/2 | 1:3/3
left: 0:5/0 2:4/1
gone: 2:0 1:3
whole: 0:5/0 1:0/1 2:4/1";

/// The other cases: trees of one node, chains, fans and what has both, each cut and put back in several ways.
pub const CASES: &str = "\
# A root that is kept, left out, and not named.
tree: 3:9/0
named: 3:9
runs: 0..1
most: 1
parts: 3:9/0
left:
gone:
whole: 3:9/0

tree: 3:9/0
named: 3:9
runs: 0..1
most: 65536
parts: 3:9/0
left:
gone: 3:9
whole:

tree: 3:9/0
named:
runs:
most: 1
parts:
left: 3:9/0
gone:
whole: 3:9/0

# Chains: the last node, a whole part, and every node that was cut out stays away.
tree: 0:1/0 1:1/1 2:1/2 3:1/3 4:1/4
named: 2:1
runs: 2..5
most: 2
parts: 2:1/2 3:1/3 | 4:1/4
left: 0:1/0 1:1/1
gone: 4:1
whole: 0:1/0 1:1/1 2:1/2 3:1/3

tree: 0:1/0 1:1/1 2:1/2 3:1/3 4:1/4
named: 1:1
runs: 1..5
most: 2
parts: 1:1/1 2:1/2 | 3:1/3 4:1/4
left: 0:1/0
gone: 2:1 3:1 4:1
whole: 0:1/0 1:1/1

tree: 0:1/0 1:1/1 2:1/2 3:1/3 4:1/4
named: 4:1 1:1 3:1
runs: 1..5
most: 4
parts: 1:1/1 2:1/2 3:1/3 4:1/4
left: 0:1/0
gone: 1:1 2:1 3:1 4:1
whole: 0:1/0

# Runs that touch: a part stays within one.
tree: 0:1/0 1:1/1 2:1/1 3:1/1 4:1/1
named: 3:1 1:1 4:1 2:1
runs: 1..2 2..3 3..4 4..5
most: 3
parts: 1:1/1 | 2:1/1 | 3:1/1 | 4:1/1
left: 0:1/0
gone: 1:1 3:1
whole: 0:1/0 2:1/1 4:1/1

tree: 0:1/0 1:1/1 2:1/1 3:1/1 4:1/1
named: 3:1 1:1
runs: 1..2 3..4
most: 3
parts: 1:1/1 | 3:1/1
left: 0:1/0 2:1/1 4:1/1
gone:
whole: 0:1/0 1:1/1 2:1/1 3:1/1 4:1/1

tree: 0:1/0 1:1/1 2:1/1 3:1/1 4:1/1
named: 3:1 1:1
runs: 1..2 3..4
most: 3
parts: 1:1/1 | 3:1/1
left: 0:1/0 2:1/1 4:1/1
gone: 1:1
whole: 0:1/0 2:1/1 3:1/1 4:1/1

tree: 0:1/0 1:1/1 2:1/1 3:1/1 4:1/1
named: 4:1
runs: 4..5
most: 1
parts: 4:1/1
left: 0:1/0 1:1/1 2:1/1 3:1/1
gone:
whole: 0:1/0 1:1/1 2:1/1 3:1/1 4:1/1

# Places that are not in the tree.
tree: 0:1/0 1:1/1 2:1/1 3:1/1 4:1/1
named: 9:9 0:2 1:0
runs:
most: 1
parts:
left: 0:1/0 1:1/1 2:1/1 3:1/1 4:1/1
gone:
whole: 0:1/0 1:1/1 2:1/1 3:1/1 4:1/1

tree: 0:0/0 1:0/1 2:0/2 3:0/2 4:0/1 5:0/2 6:0/1
named: 2:0 5:0 9:9
runs: 2..3 5..6
most: 5
parts: 2:0/2 | 5:0/2
left: 0:0/0 1:0/1 3:0/2 4:0/1 6:0/1
gone: 5:0
whole: 0:0/0 1:0/1 2:0/2 3:0/2 4:0/1 6:0/1

tree: 0:0/0 1:0/1 2:0/2 3:0/2 4:0/1 5:0/2 6:0/1
named: 4:0 3:0 2:0
runs: 2..3 3..4 4..6
most: 2
parts: 2:0/2 | 3:0/2 | 4:0/1 5:0/2
left: 0:0/0 1:0/1 6:0/1
gone: 3:0 5:0
whole: 0:0/0 1:0/1 2:0/2 4:0/1 6:0/1

# The whole list, in parts of one node, of three, and of all nodes.
tree: 0:0/0 1:0/1 2:0/2 3:0/2 4:0/1 5:0/2 6:0/1
named: 5:0 0:0 1:0
runs: 0..7
most: 1
parts: 0:0/0 | 1:0/1 | 2:0/2 | 3:0/2 | 4:0/1 | 5:0/2 | 6:0/1
left:
gone: 2:0 4:0 5:0
whole: 0:0/0 1:0/1 3:0/2 6:0/1

tree: 0:0/0 1:0/1 2:0/2 3:0/2 4:0/1 5:0/2 6:0/1
named: 0:0
runs: 0..7
most: 3
parts: 0:0/0 1:0/1 2:0/2 | 3:0/2 4:0/1 5:0/2 | 6:0/1
left:
gone:
whole: 0:0/0 1:0/1 2:0/2 3:0/2 4:0/1 5:0/2 6:0/1

tree: 0:0/0 1:0/1 2:0/2 3:0/2 4:0/1 5:0/2 6:0/1
named: 0:0
runs: 0..7
most: 7
parts: 0:0/0 1:0/1 2:0/2 3:0/2 4:0/1 5:0/2 6:0/1
left:
gone: 1:0 2:0 3:0
whole: 0:0/0 4:0/1 5:0/2 6:0/1

tree: 0:0/0 1:0/1 2:0/2 3:0/2 4:0/1 5:0/2 6:0/1
named: 0:0
runs: 0..7
most: 4
parts: 0:0/0 1:0/1 2:0/2 3:0/2 | 4:0/1 5:0/2 6:0/1
left:
gone: 0:0 1:0 2:0 3:0 4:0 5:0 6:0
whole:";
