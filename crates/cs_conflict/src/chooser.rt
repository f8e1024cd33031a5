//! A picker by a closure whose answers are lawful.

use crate::clash::Clash;
use crate::picker::Picker;
use crate::wish::Wish;
use std::marker::Model;

/// Answers each clash as its closure does. Contracts see it as the closure.
#[derive(Drop)]
pub struct Chooser<F> {
    closure: F,
}

impl<F> Model for Chooser<F> {
    ghost Value = { F };

    ghost view = { λ here. here.closure };
}

impl<F: FnMut(&Clash<'_>) -> Wish> Chooser<F> {
    ghost use Rattle.std.specs.Prelude.{◌≡◌};
    ghost use Rattle.cs_conflict.specs.Pickers.{WishesLawfully};

    /// The picker that asks this closure. It takes no memory.
    pub fn new(closure: F) -> Chooser<F>
        // It may be called on every clash, and answers each lawfully: now, and in each state that calls lead to.
        requires callable { F.IsAlwaysCallable closure }
        requires lawful { WishesLawfully F.FnMut closure }
        ensures ready { ⟦<Chooser<F> as Picker>⟧.is_ready result }
        ensures shown { result ≡ closure }
    {
        Chooser { closure }
    }
}

impl<F: FnMut(&Clash<'_>) -> Wish> Picker for Chooser<F> {
    ghost use Rattle.std.specs.Fn.{CalledAt};
    ghost use Rattle.cs_conflict.specs.Pickers.{WishesLawfully};

    ghost is_ready = { λ closure. F.IsAlwaysCallable closure × WishesLawfully F.FnMut closure };

    ghost picks = { CalledAt F.FnMut };

    fn pick(&mut self, clash: &Clash<'_>) -> Wish {
        (self.closure)(clash)
    }
}
