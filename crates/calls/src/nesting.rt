// Calls within calls: the names that are open.
ghost use Rattle.std.specs.Prelude.{◌≡◌, ◌<◌, [], ◌∷◌, ◌++◌, length, nat_le};
ghost use Rattle.run.specs.Performing.{is_among, spot_at};
ghost use Rattle.calls.specs.Tables.{open_of};

use crate::limits::MOST_OPEN_CALLS;
use arrayvec::ArrayVec;
use run::types::Spot;

// The names of the open calls, the outermost first: each is its entry's own.
#[derive(Drop)]
pub(crate) struct OpenNames<'t> {
    names: ArrayVec<&'t [u8], MOST_OPEN_CALLS>,
}

impl<'t> OpenNames<'t> {
    // No name.
    pub(crate) fn none() -> OpenNames<'t>
        ensures { open_of result ≡ [] }
    {
        OpenNames {
            names: ArrayVec::new(),
        }
    }

    // Whether a name is open.
    pub(crate) fn has(&self, name: &[u8]) -> bool
        ensures { result ≡ is_among name.now (open_of self.now) }
    {
        self.names.iter().any(|open| *open == name)
    }

    // The spot of a statement at an offset of the innermost body.
    pub(crate) fn spot(&self, offset: usize) -> Spot
        ensures { result ≡ spot_at (length (open_of self.now)) offset }
    {
        Spot {
            calls: self.names.len(),
            offset,
        }
    }

    // Whether no call more may be open.
    pub(crate) fn is_deepest(&self) -> bool
        ensures { result ≡ nat_le 8 (length (open_of self.now)) }
    {
        self.names.is_full()
    }

    // These names, and one more within them.
    pub(crate) fn with(&self, name: &'t [u8]) -> OpenNames<'t>
        requires { length (open_of self.now) < 8 }
        ensures { open_of result ≡ open_of self.now ++ (name.now ∷ []) }
    {
        let mut names = ArrayVec::new();
        names.try_extend_from_slice(&self.names).unwrap();
        names.push(name);
        OpenNames { names }
    }
}
