// Full listings: tray after tray, until nothing is left.
ghost use Rattle.std.specs.Prelude.{length, IfSome, IfOk, IfErr, ⊤};
ghost use Rattle.trees.specs.declared.stopped.Stopped.TheVariants.{Refused, Memory, Sink as Kept};
ghost use Rattle.trees.specs.Full.{OneTray};
ghost use Rattle.trees.specs.Listings.{RightSize};

use crate::sink::Sink;
use crate::stopped::Stopped;
use crate::tray::Tray;
use crate::tree::Tree;

// Fills one tray, hands what was written to the sink, and tells the last entry where more are left.
fn one_tray<T: Tree, K: Sink<T::Node>>(
    tree: &T,
    after: Option<T::Node>,
    places: &mut [T::Node],
    sink: &mut K,
) -> Result<Option<T::Node>, Stopped<K::Error>>
    requires sound { T.sound tree.now }
    requires size { RightSize (length places.old) }
    requires node { IfSome after (T.shape tree.now).wanted }
    ensures ok { IfOk result (OneTray (T.shape tree.now) K.takes after sink.old sink.new) }
    ensures err { IfErr result (λ e. elim e [ Refused _ ↦ ⊥ | Memory ↦ ⊥ | Kept _ ↦ ⊤ ]) }
{
    let mut tray = Tray::over(places);
    let told = tray.list(tree, after)?;
    let entries = &tray.places()[..told.written];
    sink.take(entries).map_err(Stopped::Sink)?;
    if told.more {
        Ok(entries.last().copied())
    } else {
        Ok(None)
    }
}
