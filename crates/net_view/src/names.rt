ghost use Rattle.std.specs.Prelude.{◌≡◌, bytes_eq, ◌&&◌, OnOk};
ghost use Rattle.std.specs.List.{list_any};
ghost use Rattle.net_rules.specs.Rows.{is_name};
ghost use Rattle.net_view.specs.Names.{Adds};

use kern_model::DevName;
use plane_io::Memory;
use std::collections::BTreeSet;

/// Adds a name.
pub fn add_name(names: &mut BTreeSet<DevName>, name: DevName) -> Result<(), Memory>
    ensures { OnOk result (Adds names.old names.new (λ q. bytes_eq name q)) }
{
    let _added = names.insert(name)?;
    Ok(())
}

/// Adds a name where there is one, when so told.
pub fn add_if(
    names: &mut BTreeSet<DevName>,
    name: Option<DevName>,
    when: bool,
) -> Result<(), Memory>
    ensures { OnOk result (Adds names.old names.new (λ q. when && is_name name q)) }
{
    if !when {
        return Ok(());
    }
    match name {
        Some(name) => add_name(names, name),
        None => Ok(()),
    }
}

/// Adds names.
pub fn add_all(names: &mut BTreeSet<DevName>, more: &[DevName]) -> Result<(), Memory>
    ensures { OnOk result (Adds names.old names.new (λ q. list_any (λ n. bytes_eq n q) more.now)) }
{
    for name in more {
        add_name(names, *name)?;
    }
    Ok(())
}
