//! Who answers the clashes.

ghost use Rattle.std.specs.Prelude.{◌≡◌};

use crate::clash::Clash;
use crate::wish::Wish;

/// Answers clashes, each lawfully: so both sides converge.
pub trait Picker {
    ghost use Rattle.cs_conflict.specs.Wishes.{IsLawfulWish};
    ghost use Rattle.cs_conflict.specs.declared.clash.Clash.{Clash as Shown};
    ghost use Rattle.cs_conflict.specs.declared.wish.Wish.{Wish as Wished};

    /// It may be asked.
    ghost is_ready: { Self → Type 0 };

    /// At one state it is shown a clash, wishes, and is left in another.
    ghost picks: { Self → Shown → Wished → Self → Type 0 };

    /// What is wished at a clash. It takes no memory of its own.
    fn pick(&mut self, clash: &Clash<'_>) -> Wish
        requires { is_ready self.old }
        ensures ready { is_ready self.new }
        ensures lawful { IsLawfulWish result clash.now.conflict.kind clash.now.covers }
        ensures picked { picks self.old clash.now result self.new };
}
