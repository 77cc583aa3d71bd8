ghost use Rattle.std.specs.Prelude.{◌≡◌};
ghost use Rattle.net_rules.specs.Rows as rows;
ghost use Rattle.net_rules.specs.Claims.{uses_by};

use kern_model::DevName;

/// What an interface is, as of the last look.
#[derive(Clone, Copy)]
pub struct InterfaceState {
    /// Whether its row is the first of its name. Another row is neither claimed nor up, and has no
    /// ask.
    pub is_first: bool,
    pub device: Option<DevName>,
    /// Its layer-3 device.
    pub l3_device: Option<DevName>,
    pub is_claimed: bool,
    pub is_up: bool,
    /// The number of its open request.
    pub number: Option<u64>,
}

impl InterfaceState {
    /// Whether the interface uses a name: it claims it as its device, or is up on it.
    pub fn uses(&self, name: &DevName) -> bool
        ensures { result ≡ uses_by name.now self.now }
    {
        let claims = self.is_claimed & is_name(&self.device, name);
        claims | (self.is_up & is_name(&self.l3_device, name))
    }
}

fn is_name(device: &Option<DevName>, name: &DevName) -> bool
    ensures { result ≡ rows.is_name device.now name.now }
{
    match device {
        Some(device) => device.text() == name.text(),
        None => false,
    }
}
