// How many nodes of a tree are wanted.
ghost use Rattle.std.specs.Prelude.{◌≡◌};
ghost use Rattle.trees.specs.Listings.{Counted};

use crate::tree::Tree;
use crate::walk;

// The number of wanted nodes, as far as 64 bits can hold it.
pub fn count<T: Tree>(tree: &T) -> u64
    requires { T.sound tree.now }
    ensures { Counted (T.shape tree.now) result }
{
    let mut count = 0u64;
    let mut next = walk::first_due(tree, None);
    while let Some(node) = next {
        count = count.saturating_add(1);
        next = walk::next_wanted(tree, node);
    }
    count
}
