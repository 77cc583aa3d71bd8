//! The rows of names, and what the graph tells of names.
ghost use Rattle.std.specs.Prelude.{◌≡◌};
ghost use Rattle.std.specs.Option.{option_copied};
ghost use Rattle.net_rules.specs.Rows as rows;
ghost use Rattle.net_rules.specs.Available as spec;
ghost use Rattle.net_view.specs.Places.{named};
ghost use Rattle.net_looks.specs.Look.{IsLookOf, facts_at};

use crate::look::Look;
use kern_model::DevName;
use net_rows::{NameKind, NameRow, vlan_parts};

impl Look<'_> {
    /// The row of a name.
    fn row(&self, name: &DevName) -> Option<&NameRow>
        requires { IsLookOf self.now }
        ensures { option_copied result
            ≡ named (λ row. row.name) self.now.inputs.now.inputs.conf.names name.now }
    {
        match self.reach.row_place(name) {
            Some(place) => self.inputs.conf().names.as_slice().get(place),
            None => None,
        }
    }

    /// Whether the name is never made.
    pub(crate) fn is_plain(&self, name: &DevName) -> bool
        requires { IsLookOf self.now }
        ensures { result ≡ rows.is_plain self.now.inputs.now.inputs.conf name.now }
    {
        match self.row(name) {
            Some(row) => is_plain_kind(&row.kind),
            None => vlan_parts(name).is_none(),
        }
    }

    /// Whether the name is available. One that the graph does not know never is.
    pub fn is_available(&self, name: &DevName) -> bool
        requires { IsLookOf self.now }
        ensures { result ≡ spec.available (facts_at self.now) name.now }
    {
        match self.graph.find(name) {
            Some(id) => self.graph.available(id),
            None => false,
        }
    }

    /// Whether the name has link. One that the graph does not know never has.
    pub fn has_link(&self, name: &DevName) -> bool
        requires { IsLookOf self.now }
        ensures { result ≡ spec.link (facts_at self.now) name.now }
    {
        match self.graph.find(name) {
            Some(id) => self.graph.link(id),
            None => false,
        }
    }
}

fn is_plain_kind(kind: &NameKind) -> bool
    ensures { result ≡ rows.is_plain_kind kind.now }
{
    match kind {
        NameKind::Plain => true,
        NameKind::Bridge { .. } => false,
        NameKind::Vlan { .. } => false,
    }
}
