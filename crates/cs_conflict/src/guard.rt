//! A picker by any closure, whose answers are made lawful.

ghost use Rattle.std.specs.Prelude.{◌≡◌};
ghost use Rattle.cs_conflict.specs.Wishes.{guarded};

use crate::clash::Clash;
use crate::kind::Kind;
use crate::picker::Picker;
use crate::wish::Wish;
use std::marker::Model;

/// Answers each clash as its closure does, made lawful: `Keep` where the own change doesn't cover the other's becomes
/// `Take`, `Take` where there is no own row becomes `Keep`, and any other wish stands. Contracts see it as the closure.
#[derive(Drop)]
pub struct Guard<F> {
    closure: F,
}

impl<F> Model for Guard<F> {
    ghost Value = { F };

    ghost view = { λ here. here.closure };
}

/// The wish, made a lawful answer to the clash.
#[tactic(auto, unfolding(crate::specs::Wishes::guarded))]
fn guarded(wish: Wish, clash: &Clash<'_>) -> Wish
    ensures { result ≡ guarded wish clash.now.conflict.kind clash.now.covers }
{
    match (wish, clash.conflict.kind, clash.covers) {
        (Wish::Keep, _, false) => Wish::Take,
        (Wish::Take, Kind::NotFound, _) => Wish::Keep,
        (wish, _, _) => wish,
    }
}

impl<F: FnMut(&Clash<'_>) -> Wish> Guard<F> {
    /// The picker that asks this closure. It takes no memory.
    pub fn new(closure: F) -> Guard<F>
        // It may be called on every clash, now and in each state that calls lead to.
        requires callable { F.IsAlwaysCallable closure }
        ensures ready { ⟦<Guard<F> as Picker>⟧.is_ready result }
        ensures shown { result ≡ closure }
    {
        Guard { closure }
    }
}

impl<F: FnMut(&Clash<'_>) -> Wish> Picker for Guard<F> {
    ghost use Rattle.std.specs.Fn.{CalledAt};
    ghost use Rattle.cs_conflict.specs.Pickers.{IsGuarded};

    ghost is_ready = { λ closure. F.IsAlwaysCallable closure };

    ghost picks = { IsGuarded (CalledAt F.FnMut) };

    fn pick(&mut self, clash: &Clash<'_>) -> Wish {
        let asked = (self.closure)(clash);
        guarded(asked, clash)
    }
}
