// Why a full listing did not come to its end.
ghost use Rattle.std.specs.Prelude.{◌≡◌};
ghost use Rattle.trees.specs.declared.stopped.Stopped.TheVariants.{Refused};

use refusals::Refusal;

#[derive(Drop)]
pub enum Stopped<E> {
    Refused(Refusal),
    // There was no memory for a tray.
    Memory,
    // The sink did not take what it was handed.
    Sink(E),
}

impl<E> From<Refusal> for Stopped<E> {
    ghost from_gives = { λ refusal stopped. stopped ≡ Refused refusal };

    fn from(refusal: Refusal) -> Stopped<E> {
        Stopped::Refused(refusal)
    }
}
