// Laws of the definitions that the contracts cite. Each body is empty, and the contract is the law.
ghost use Rattle.std.specs.Prelude.{◌≡◌, ℕ, List, codes};
ghost use Rattle.uci_tree.specs.declared.package.Package.{Package};
ghost use Rattle.plane_main.specs.declared.command.Command.{Command};
ghost use Rattle.plane_io.specs.declared.input.TheConstants.{INPUT_LIMIT};
ghost use Rattle.kern_model.specs.declared.vlan_name.TheConstants.{LEAST_VLAN_ID, MOST_VLAN_ID};
ghost use Rattle.plane_main.specs.declared.command.TheConstants.{MOST_DEVICES, MOST_BRIDGES};
ghost use Rattle.plane_main.specs.declared.run_words.TheConstants.{STAGED_FOLDER, EMPTY_ACL};
ghost use Rattle.net_start.specs.declared.devices.TheConstants.{ETHERNET_MTU};
ghost use Rattle.plane_run.specs.declared.script.TheConstants.{SCRIPT_LIMIT};
ghost use Rattle.script_lines.specs.declared.arguments.TheConstants.{USUAL_MTU};
ghost use Rattle.plane_main.specs.Start.{IsNetwork};
ghost use Rattle.plane_main.specs.Command.{AskFor};

/// A text is at most one network.
pub fn one_network()
    ensures { (text : List ℕ) (network other : Package) →
        IsNetwork text network → IsNetwork text other → other ≡ network }
{}

/// Words ask for at most one command.
pub fn one_command()
    ensures { (words : List (List ℕ)) (command other : Command) →
        AskFor words command → AskFor words other → other ≡ command }
{}

/// The numbers that the definitions cite by name.
pub fn named_numbers()
    ensures devices { MOST_DEVICES ≡ 4096 }
    ensures bridges { MOST_BRIDGES ≡ 1000 }
    ensures input { INPUT_LIMIT ≡ 1048576 }
    ensures mtu { ETHERNET_MTU ≡ 1500 }
    ensures vlans { (LEAST_VLAN_ID ≡ 1) × (MOST_VLAN_ID ≡ 4094) }
    ensures script { SCRIPT_LIMIT ≡ 16777216 }
    ensures usual_mtu { USUAL_MTU ≡ 1500 }
{}

/// The words that stand for what the words of `run` do not name.
pub fn named_words()
    ensures staged { STAGED_FOLDER.now ≡ codes "/tmp/.uci" }
    ensures acl { EMPTY_ACL.now ≡ codes "[]" }
{}
