//! Books of publishers that are gone.

use crate::state::DomainState;

impl<T: Drop, U: Default + Drop> DomainState<T, U> {
    ghost use Rattle.std.specs.Prelude.{◌≡◌};
    ghost use Rattle.iox2_domain.specs.LeftBooks.{CanGo, CanLetGo, LetsGo, SettlesBook, with_book_gone};

    /// A slot of a publisher that is gone has one holder less. The book goes with its last holder.
    pub fn let_go(&mut self, key: usize, slot: usize)
        requires { CanLetGo self.old key slot }
        ensures { LetsGo self.old key slot self.new }
    {
        self.books[key].release(slot);
        self.settle_book(key);
    }

    /// The book at a key goes if no slot of it has a holder.
    pub fn settle_book(&mut self, key: usize)
        requires { CanGo self.old key }
        ensures { SettlesBook self.old key self.new }
    {
        if self.books[key].is_unused() {
            self.remove_book(key);
        }
    }

    /// The book at a key goes, with what was in its slots.
    pub fn remove_book(&mut self, key: usize)
        requires { CanGo self.old key }
        ensures { self.new ≡ with_book_gone self.old key }
    {
        let _ = self.books.remove(key);
        self.contents[key] = None;
    }
}
