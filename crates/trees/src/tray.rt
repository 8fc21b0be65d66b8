// The tray: places that are lent, into which a listing is written.
ghost use Rattle.std.specs.Prelude.{◌≡◌, length, IfSome, MatchResult};
ghost use Rattle.trees.specs.Listings.{ListedInto, NotWanted, RightSize, WrongSize, Written};
ghost use Rattle.trees.specs.Trees.{Node as IsNode};

use crate::listed::Listed;
use crate::tree::Tree;
use crate::walk;
use refusals::Refusal;

// The most places that a tray may have.
pub const MOST_PLACES: usize = 65_536;

// One tray serves every kind of entry.
#[derive(Drop)]
pub struct Tray<'a, E> {
    places: &'a mut [E],
}

impl<'a, E: Copy> Tray<'a, E> {
    pub fn over(places: &'a mut [E]) -> Tray<'a, E>
        ensures { result.places.now ≡ places.old }
    {
        Tray { places }
    }

    pub fn places(&self) -> &[E]
        ensures { result.now ≡ self.now.places.now }
    {
        self.places
    }

    // Refuses a tray of no places, or of too many.
    pub fn check_size(&self) -> Result<(), Refusal>
        ensures { MatchResult result (λ _. RightSize (length self.now.places.now)) (WrongSize (length self.now.places.now)) }
    {
        if self.places.is_empty() || self.places.len() > MOST_PLACES {
            return Err(Refusal::WrongTraySize);
        }
        Ok(())
    }

    // Writes the first wanted nodes of the tree, or the first ones after a given wanted node, until places or nodes end.
    pub fn list<T: Tree<Node = E>>(&mut self, tree: &T, after: Option<E>) -> Result<Listed, Refusal>
        requires { T.sound tree.now }
        ensures { ListedInto (T.shape tree.now) T.number after self.old.places.now result self.new.places.now }
    {
        self.check_size()?;
        check_after(tree, after)?;
        Ok(fill(tree, after, self.places))
    }
}

// Refuses to go on after what is not a wanted node.
fn check_after<T: Tree>(tree: &T, after: Option<T::Node>) -> Result<(), Refusal>
    requires { T.sound tree.now }
    ensures { MatchResult result (λ _. IfSome after (T.shape tree.now).wanted) (NotWanted (T.shape tree.now) T.number after) }
{
    match after {
        Some(node) if !tree.is_wanted(node) => Err(Refusal::NotWanted(T::number(node))),
        _ => Ok(()),
    }
}

// Writes the first nodes that are due into the places, until places or nodes end.
fn fill<T: Tree>(tree: &T, after: Option<T::Node>, places: &mut [T::Node]) -> Listed
    requires sound { T.sound tree.now }
    requires node { IfSome after (IsNode (T.shape tree.now)) }
    ensures { Written (T.shape tree.now) after places.old result places.new }
{
    let mut next = walk::first_due(tree, after);
    for (written, place) in places.iter_mut().enumerate() {
        let Some(node) = next else {
            return Listed {
                written,
                more: false,
            };
        };
        *place = node;
        next = walk::next_wanted(tree, node);
    }
    Listed {
        written: places.len(),
        more: next.is_some(),
    }
}
