// The interface of a tree.
ghost use Rattle.std.specs.Prelude.{◌≡◌, ℕ, ◌↔◌, List, [], IsTrue};
ghost use Rattle.trees.specs.Trees.{Shape, Node as IsNode, Child, Parent, Laws};

use item_sets::Item;

// A tree is a finite set of words, with every beginning of each; the empty word is the root, and some words are wanted. Each kind of
// tree has its own kind of node. Every node stands for one word, no two for the same.
pub trait Tree {
    type Node: Copy;

    // What makes a value a tree, as that its fields fit each other. A type whose every value is one leaves it out.
    ghost sound: { Self → Type 0 } = { λ _. Unit {0} };

    // Which values are nodes, for which words they stand, and which of them are wanted.
    ghost shape: { Self → Shape Self.Node };

    // The number that a refusal of the node tells.
    ghost number: { Self.Node → ℕ };

    fn root(&self) -> Self::Node
        requires { sound self.now }
        ensures { (shape self.now).stands result [] };

    fn is_node(&self, node: Self::Node) -> bool
        requires { sound self.now }
        ensures { IsTrue result ↔ IsNode (shape self.now) node };

    // Whether the value is a node, and wanted.
    fn is_wanted(&self, node: Self::Node) -> bool
        requires { sound self.now }
        ensures { IsTrue result ↔ (shape self.now).wanted node };

    // The node one letter further, if there is one.
    fn child(&self, node: Self::Node, letter: Item) -> Option<Self::Node>
        requires { sound self.now }
        ensures { Child (shape self.now) node letter result };

    // The node one letter shorter, and the letter dropped; the root has none.
    fn parent(&self, node: Self::Node) -> Option<(Self::Node, Item)>
        requires { sound self.now }
        ensures { Parent (shape self.now) node result };

    fn number(node: Self::Node) -> u64
        ensures { result ≡ number node };

    ghost laws: { (t : Self) → Laws (shape t) };
}
