// A space by the general bodies of its methods.
use item_sets::ItemSet;
use spaces::Space;

// Tells the items and the states as the space does. The other methods are those that the interface provides, also where
// the space has its own.
#[derive(Drop)]
pub struct General<'a, S>(pub &'a S);

impl<S: Space> Space for General<'_, S> {
    ghost ground_set = { λ t. S.Space.ground_set t.0.now };

    ghost state = { λ t. S.Space.state t.0.now };

    ghost laws = { λ t. S.Space.laws t.0.now };

    fn items(&self) -> ItemSet {
        self.0.items()
    }

    fn is_state(&self, set: ItemSet) -> bool {
        self.0.is_state(set)
    }
}
