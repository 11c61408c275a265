//! Roles and their parents.
ghost use Rattle.std.specs.Prelude.{◌≡◌, Decides};
ghost use Rattle.usage.specs.Roles.{parent, at_or_above, Above};

// The parents of roles 1 to 15; role 0 has none, and its place is not asked for.
const PARENTS: [u8; 16] = [0, 0, 0, 1, 1, 2, 2, 3, 3, 4, 5, 5, 6, 7, 9, 12];

// The parent of a role; 0 for what is no role.
fn parent_of(role: u8) -> u8
    ensures { result ≡ parent role }
{
    PARENTS.get(usize::from(role)).copied().unwrap_or(0)
}

/// Whether a role is at or above another: equal to it, or at or above its parent.
pub fn at_or_above(role: u8, other: u8) -> bool
    ensures value { result ≡ at_or_above role other }
    ensures meaning { Decides result (Above role other) }
{
    if role == other {
        return true;
    }
    if other == 0 {
        return false;
    }
    at_or_above(role, parent_of(other))
}
