//! A count of the visits that a call makes.
//!
//! Anybody may hold a count and lend it to a call that counts; a count that is idle counts nothing.
ghost use Rattle.std.specs.Prelude.{◌≡◌, ◌+◌, ◌<◌, Some, None};
ghost use Rattle.kanal_core.specs.Visits.{one_visit_more};

use std::marker::Model;
use std::sync::ledger::{Blank, Book, Ledger, Share};

/// So many tokens of a ledger as steps were taken.
#[derive(Drop)]
struct Tokens<L: Ledger> {
    book: Book<L>,
    share: Share<L>,
}

impl<L: Ledger> Model for Tokens<L> {
    ghost use Rattle.std.specs.Prelude.{ℕ, ◌<◌};

    ghost Value = { ℕ };

    ghost view = { λ t. t.book.total };

    ghost invariant = { λ t. 0 < t.share.parts };
}

impl<L: Ledger> Tokens<L> {
    fn tick(&mut self)
        ensures { self.new ≡ self.old + 1 }
    {
        self.book.add(&mut self.share, 1);
    }
}

/// How many steps were taken, or `None` where nobody counts.
#[derive(Drop)]
pub struct Steps<L: Ledger> {
    tokens: Option<Tokens<L>>,
}

impl<L: Ledger> Model for Steps<L> {
    ghost use Rattle.std.specs.Prelude.{ℕ, Option};

    ghost Value = { Option ℕ };

    ghost view = { λ s. s.tokens };
}

impl<L: Ledger> Steps<L> {
    /// A count that begins at 0.
    ///
    /// # Examples
    /// ```text
    /// let mut steps = Steps::<L>::start(blank);
    /// core.withdraw(ticket, &mut steps)   raises it by at most 4
    /// ```
    pub fn start(blank: Blank) -> Self
        requires name { blank.name ≡ L.name }
        requires parts { blank.parts ≡ L.parts }
        requires some { 0 < blank.parts }
        ensures { result ≡ Some 0 }
    {
        let (book, share) = blank.open::<L>();
        Steps {
            tokens: Some(Tokens { book, share }),
        }
    }

    /// An idle count, for a caller that counts nothing.
    ///
    /// # Examples
    /// ```text
    /// core.withdraw(ticket, &mut Steps::<Brand>::idle())   and nobody counts
    /// ```
    pub fn idle() -> Self
        ensures { result ≡ None }
    {
        Steps { tokens: None }
    }

    pub(crate) fn tick(&mut self)
        ensures { self.new ≡ one_visit_more self.old }
    {
        if let Some(tokens) = &mut self.tokens {
            tokens.tick();
        }
    }
}
