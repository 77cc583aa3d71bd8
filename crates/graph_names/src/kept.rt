ghost use Rattle.std.specs.Prelude.{◌≡◌, ◌++◌, map, IfOk};
ghost use Rattle.plane_words.specs.Distinct.{AreDistinct};
ghost use Rattle.graph_rules.specs.State.{device_among, claims_among, name_list};
ghost use Rattle.graph_rules.specs.After as spec;

use crate::names::{Names, Told};
use kern_model::DevName;
use net_rows::NameRow;
use plane_io::Memory;
use std::alloc::Global;

impl Names {
    /// What is told of a name, if it is among them.
    pub fn told(&self, name: &DevName) -> Told
        ensures device { result.device ≡ device_among self.now name.now }
        ensures claims { result.claims ≡ claims_among self.now name.now }
    {
        match self.find(name) {
            Some(id) => Told {
                device: self.device(id),
                claims: self.claims(id),
            },
            None => Told {
                device: None,
                claims: 0,
            },
        }
    }
}

/// The names of rows, with the devices and the claims that they had.
fn names_of_rows(alloc: Global, old: &Names, rows: &[NameRow]) -> Result<Names, Memory>
    requires { AreDistinct (map (λ row. row.name) rows.now) }
    ensures { IfOk result (λ names. names
        ≡ spec.kept_names old.now (map (λ row. row.name) rows.now)) }
{
    let mut names = Names::new(alloc);
    for row in rows {
        names.add(row.name, old.told(&row.name))?;
    }
    Ok(names)
}

/// The names of rows and further ones, with the devices and the claims that they had.
pub fn kept_names(
    alloc: Global,
    old: &Names,
    rows: &[NameRow],
    plain: &[DevName],
) -> Result<Names, Memory>
    requires { AreDistinct (map (λ row. row.name) rows.now ++ plain.now) }
    ensures { IfOk result (λ names. names
        ≡ spec.kept_names old.now (map (λ row. row.name) rows.now ++ plain.now)) }
{
    let mut names = names_of_rows(alloc, old, rows)?;
    for name in plain {
        names.add(*name, old.told(name))?;
    }
    Ok(names)
}
