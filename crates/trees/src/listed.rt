// What a listing tells.

// How many entries were written, and whether more are left. No `Option`, since every listing tells both.
#[derive(Clone, Copy, PartialEq, Eq, Debug)]
pub struct Listed {
    pub written: usize,
    pub more: bool,
}
