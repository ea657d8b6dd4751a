//! Lists that clauses alone see, of what came so far.
#![tactic(auto)]

ghost use Rattle.std.specs.Prelude.{◌≡◌, [], ◌∷◌, ◌++◌};

use std::marker::Model;
use std::snapshot::Snapshot;

/// The items that came so far. Contracts see their list; they take no memory.
#[derive(Drop)]
pub struct Past<T> {
    chain: Chain<T>,
}

#[derive(Drop)]
enum Chain<T> {
    Empty,
    Then {
        earlier: Snapshot<Chain<T>>,
        item: Snapshot<T>,
    },
}

impl<T> Model for Past<T> {
    ghost use Rattle.std.specs.Prelude.{List};
    ghost use Rattle.ghost_lists.specs.Chains.{items_in};

    ghost Value = { List T };

    ghost view = { λ past. items_in past.chain };
}

impl<T> Past<T> {
    #[inline(always)]
    pub fn none() -> Past<T>
        ensures { result ≡ [] }
    {
        Past {
            chain: Chain::Empty,
        }
    }

    #[inline(always)]
    pub fn push(&mut self, item: &T)
        ensures { self.new ≡ self.old ++ item.now ∷ [] }
    {
        self.chain = Chain::Then {
            earlier: Snapshot::of(&self.chain),
            item: Snapshot::of(item),
        };
    }
}
