// Laws of the definitions that the contracts cite. Each body is empty, and the contract is the law.
ghost use Rattle.std.specs.Prelude.{◌≡◌, ◌≤◌, ◌<◌, ◌+◌, ◌∷◌, ◌↔◌, ℕ, List, true};
ghost use Rattle.kern_model.specs.Name.{is_name};
ghost use Rattle.net_devices.specs.declared.levels.TheConstants.{MOST_LEVELS};
ghost use Rattle.net_devices.specs.declared.said.Said.{Said};
ghost use Rattle.net_devices.specs.Levels.{IsOnLevel, level};
ghost use Rattle.net_devices.specs.Names.{mentioned, implied, lower_of};

/// The level of a name that a row tells is the level that the name is on. It is one more than the
/// most levels exactly where the name is on no level up to these: it is higher, stands on itself,
/// or stands on such a name.
pub fn levels_are_exact()
    ensures found { (said : List Said) (name : List ℕ) (number : ℕ) →
        level said name ≡ number → number ≤ MOST_LEVELS → IsOnLevel said name number }
    ensures only { (said : List Said) (name : List ℕ) (number : ℕ) →
        IsOnLevel said name number → number ≤ MOST_LEVELS → level said name ≡ number }
    ensures too_high { (said : List Said) (name : List ℕ) →
        (level said name ≡ MOST_LEVELS + 1)
        ↔ ((number : ℕ) → IsOnLevel said name number → MOST_LEVELS < number) }
{}

/// Each lower that is implied is listed behind its VLAN, however many are implied one under
/// another.
pub fn lowers_are_all_listed()
    ensures { (said : List Said) (name : List ℕ) → is_name name ≡ true →
        mentioned said name ≡ name ∷ lower_of said (implied said name) }
{}
