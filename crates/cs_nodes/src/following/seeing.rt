//! Entries that are looked for.

ghost use Rattle.std.specs.Prelude.{◌≡◌};
ghost use Rattle.cs_nodes.specs.following.Standing.{Begins};

use cs_spine::{Pass, Spine};

/// Looks at one cell behind another, until one is not set. It takes no memory.
pub fn see_all<'s>(spine: &'s Spine, pass: &mut Pass<'s>)
    requires { pass.old.spine ≡ spine.now }
    ensures spine { pass.new.spine ≡ pass.old.spine }
    ensures begins { Begins pass.old.known pass.new.known }
{
    'cells: for _ in pass.len()..spine.cap() {
        if spine.see(pass).is_none() {
            break;
        }
    }
}
