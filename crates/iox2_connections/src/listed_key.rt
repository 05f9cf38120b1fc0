//! An element of a list of keys.
ghost use Rattle.std.specs.Prelude.{◌≡◌, ℕ, Some};

/// An element of a list of connections' keys: a key, or an entry for a place, which may have no
/// key.
///
/// This library's own. A subscriber has two such lists: at each publisher's place there may be a key,
/// and each of the expired ones is a key. A walk over keys takes either.
pub trait ListedKey {
    ghost use Rattle.std.specs.declared.option.Option.{Option};

    ghost key_of: { Self → Option ℕ };

    /// The key, if there is one.
    fn key(&self) -> Option<usize>
        ensures { result ≡ key_of self.now };
}

impl ListedKey for usize {
    ghost key_of = { λ key. Some key };

    #[inline(always)]
    fn key(&self) -> Option<usize> {
        Some(*self)
    }
}

impl ListedKey for Option<usize> {
    ghost key_of = { λ key. key };

    #[inline(always)]
    fn key(&self) -> Option<usize> {
        *self
    }
}
