//! Closures whose answers are lawful, each given to a `Chooser`. One changes what it captures, and one has lawful answers
//! because of what it captures.

ghost use Rattle.std.specs.Prelude.{◌≡◌};
ghost use Rattle.cs_conflict.specs.Pickers.{IsLawfulAt};
ghost use Rattle.cs_conflict.specs.declared.wish.Wish.TheVariants.{Stop};

use cs_conflict::{Chooser, Clash, Kind, Picker, Wish};

/// The own row wherever the own change covers the other's, else the other's change.
fn own_first(clash: &Clash<'_>) -> Wish
    ensures { IsLawfulAt clash.now result }
{
    cs_conflict::laws::not_found_is_covered();
    if clash.covers { Wish::Keep } else { Wish::Take }
}

/// The other's change wherever there is an own row, else neither.
fn other_first(clash: &Clash<'_>) -> Wish
    ensures { IsLawfulAt clash.now result }
{
    match clash.conflict.kind {
        Kind::NotFound => Wish::Stop,
        _ => Wish::Take,
    }
}

/// What the picker answers, asked through the trait's bound.
pub fn ask<P: Picker>(picker: &mut P, clash: &Clash<'_>) -> Wish
    requires { P.is_ready picker.old }
    ensures ready { P.is_ready picker.new }
    ensures lawful { IsLawfulAt clash.now result }
    ensures picked { P.picks picker.old clash.now result picker.new }
{
    picker.pick(clash)
}

/// Asked twice, by a closure that remembers that it was asked: the own row comes first, and then the other's.
pub fn choose_in_turn(clash: &Clash<'_>) -> (Wish, Wish)
    ensures first { IsLawfulAt clash.now result.0 }
    ensures second { IsLawfulAt clash.now result.1 }
{
    let mut asked = false;
    let mut chooser = Chooser::new(
        |clash: &Clash<'_>| -> Wish
            ensures { IsLawfulAt clash.now result }
        {
            let wish = if asked {
                other_first(clash)
            } else {
                own_first(clash)
            };
            asked = true;
            wish
        },
    );
    let first = ask(&mut chooser, clash);
    let second = ask(&mut chooser, clash);
    (first, second)
}

/// By a closure that gives the wish that it captured. That is lawful since it is `Stop`.
pub fn choose_captured(clash: &Clash<'_>, captured: Wish) -> Wish
    requires { captured ≡ Stop }
    ensures { result ≡ Stop }
{
    let mut chooser = Chooser::new(
        move |_clash: &Clash<'_>| -> Wish
            ensures { result ≡ captured }
        { captured },
    );
    chooser.pick(clash)
}
