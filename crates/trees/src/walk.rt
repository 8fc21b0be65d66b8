// The walk, for every tree: from a node to the next in listing order. Steps, and no iterator: how long an iterator goes on would rest
// on the laws of the tree, which its members cannot cite.
ghost use Rattle.std.specs.Prelude.{◌≤◌, IfSome, Some};
ghost use Rattle.trees.specs.Listings.{Due};
ghost use Rattle.trees.specs.Trees.{Node as IsNode};
ghost use Rattle.trees.specs.Walking.{After, FirstChild, FirstOf};

use crate::tree::Tree;
use item_sets::Item;

// Letters are items, and these are below 30.
const LETTERS: Item = 30;

// The first node one letter further, of those with a letter not below `least`.
fn first_child<T: Tree>(tree: &T, node: T::Node, least: Item) -> Option<T::Node>
    requires { T.sound tree.now }
    ensures { FirstChild (T.shape tree.now) node least result }
{
    // Not `find_map`: the proof that what it finds has the least letter did not close.
    for letter in least..LETTERS {
        if let Some(child) = tree.child(node, letter) {
            return Some(child);
        }
    }
    None
}

// The next node in listing order: the first child, or else a later child of a node on the way to the root.
fn next_node<T: Tree>(tree: &T, node: T::Node) -> Option<T::Node>
    requires sound { T.sound tree.now }
    requires node { IsNode (T.shape tree.now) node }
    ensures { FirstOf (T.shape tree.now) (After (T.shape tree.now) node) result }
{
    if let Some(child) = first_child(tree, node, 0) {
        return Some(child);
    }
    let mut done = node;
    while let Some((parent, letter)) = tree.parent(done) {
        if let Some(sibling) = first_child(tree, parent, letter + 1) {
            return Some(sibling);
        }
        done = parent;
    }
    None
}

// The next wanted node.
pub(crate) fn next_wanted<T: Tree>(tree: &T, node: T::Node) -> Option<T::Node>
    requires sound { T.sound tree.now }
    requires node { IsNode (T.shape tree.now) node }
    ensures { FirstOf (T.shape tree.now) (Due (T.shape tree.now) (Some node)) result }
{
    let mut last = node;
    while let Some(next) = next_node(tree, last) {
        if tree.is_wanted(next) {
            return Some(next);
        }
        last = next;
    }
    None
}

// The first node that is due: of all wanted nodes, or of those after a given one.
pub(crate) fn first_due<T: Tree>(tree: &T, after: Option<T::Node>) -> Option<T::Node>
    requires sound { T.sound tree.now }
    requires node { IfSome after (IsNode (T.shape tree.now)) }
    ensures { FirstOf (T.shape tree.now) (Due (T.shape tree.now) after) result }
{
    match after {
        Some(node) => next_wanted(tree, node),
        None => {
            let root = tree.root();
            if tree.is_wanted(root) {
                Some(root)
            } else {
                next_wanted(tree, root)
            }
        }
    }
}
