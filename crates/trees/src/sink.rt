// What takes the entries of a full listing.
ghost use Rattle.std.specs.Prelude.{List, OnOk};

// A full listing hands its entries over tray by tray, so that it needs no more memory than a tray. A trait, and no closure: what a
// sink makes of the entries is named by a member, which contracts of full listings speak through.
pub trait Sink<E> {
    type Error;

    // What taking some entries makes of the sink.
    ghost takes: { Self → List E → Self → Type 0 };

    fn take(&mut self, entries: &[E]) -> Result<(), Self::Error>
        ensures { OnOk result (takes self.old entries.now self.new) };
}
