// Laws of the definitions. Each body is empty, and the contract is the law.
ghost use Rattle.std.specs.Prelude.{◌≡◌, ◌≤◌, List, Contains, length, None};
ghost use Rattle.uci_tree.specs.declared.package.Package.{Package};
ghost use Rattle.plane_words.specs.Distinct.{AreDistinct};
ghost use Rattle.net_rows.specs.declared.rows.Conf.{Conf};
ghost use Rattle.net_rows.specs.declared.rows.NameRow.{NameRow};
ghost use Rattle.net_devices.specs.BridgeVlans.{entry_count};
ghost use Rattle.net_rules.specs.Rows.{names_of, ports_of_kind};
ghost use Rattle.net_conf.specs.Conf.{conf};
ghost use Rattle.net_conf.specs.Limits.{passed_limit, wifi_count};

/// Whatever a `network` package and a `wireless` one say, of the rows that are read no two have one
/// name, and no port stands twice in the row of a bridge.
pub fn names_that_are_read_stand_once()
    ensures names { (network wireless : Package) → AreDistinct (names_of (conf network wireless)) }
    ensures ports { (network wireless : Package) (row : NameRow)
        → Contains (conf network wireless).names row → AreDistinct (ports_of_kind row.kind) }
{}

/// Rows that pass no limit are few.
pub fn rows_within_limits_are_few()
    ensures names { (rows : Conf) → passed_limit rows ≡ None → length rows.names ≤ 4096 }
    ensures interfaces { (rows : Conf) → passed_limit rows ≡ None
        → length rows.interfaces ≤ 1024 }
    ensures routes { (rows : Conf) → passed_limit rows ≡ None → length rows.routes ≤ 4096 }
    ensures radios { (rows : Conf) → passed_limit rows ≡ None
        → (length rows.radios ≤ 64) × (wifi_count rows.radios ≤ 256) }
    ensures vlans { (rows : Conf) → passed_limit rows ≡ None
        → (length rows.vlans ≤ 1024) × (entry_count rows.vlans ≤ 16384) }
{}
