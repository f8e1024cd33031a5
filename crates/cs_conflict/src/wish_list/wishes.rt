//! Wishes that are used one a clash.

ghost use Rattle.std.specs.Prelude.{◌≡◌};
ghost use Rattle.cs_conflict.specs.Wishes.{guarded};
ghost use Rattle.cs_conflict.specs.wish_list.Wished.{next_wish, wishes_left};

use crate::{Clash, Kind, Picker, Wish};
use std::marker::Model;

/// Wishes, used one a clash in their order: `Take` where they have run out, and each made lawful as a `Guard` does. Contracts see it as
/// the wishes that are left.
#[derive(Drop)]
pub struct Wishes<'w> {
    rest: &'w [Wish],
}

impl<'w> Model for Wishes<'w> {
    ghost use Rattle.std.specs.Prelude.{List};
    ghost use Rattle.cs_conflict.specs.declared.wish.Wish.{Wish as Wished};

    ghost Value = { List Wished };

    ghost view = { λ wishes. wishes.rest.now };
}

impl<'w> Wishes<'w> {
    /// The picker that wishes so. It takes no memory.
    pub fn new(rest: &'w [Wish]) -> Wishes<'w>
        ensures { result ≡ rest.now }
    {
        Wishes { rest }
    }

    /// The next wish.
    fn next(&mut self) -> Wish
        ensures wish { result ≡ next_wish self.old }
        ensures left { self.new ≡ wishes_left self.old }
    {
        let Some((wish, rest)) = self.rest.split_first() else {
            return Wish::Take;
        };
        self.rest = rest;
        *wish
    }
}

/// The wish, made a lawful answer to the clash.
#[tactic(auto, unfolding(crate::specs::Wishes::guarded))]
fn lawful(wish: Wish, clash: &Clash<'_>) -> Wish
    ensures { result ≡ guarded wish clash.now.conflict.kind clash.now.covers }
{
    match (wish, clash.conflict.kind, clash.covers) {
        (Wish::Keep, _, false) => Wish::Take,
        (Wish::Take, Kind::NotFound, _) => Wish::Keep,
        (wish, _, _) => wish,
    }
}

impl<'w> Picker for Wishes<'w> {
    ghost use Rattle.cs_conflict.specs.wish_list.Wished.{IsWished};

    ghost is_ready = { λ _. Unit {0} };

    ghost picks = { IsWished };

    fn pick(&mut self, clash: &Clash<'_>) -> Wish {
        crate::laws::guarded_is_lawful();
        let wish = self.next();
        lawful(wish, clash)
    }
}
