ghost use Rattle.std.specs.Prelude.{◌≡◌, Some, IfOk};
ghost use Rattle.serde_json.specs.View.{view};
ghost use Rattle.net_status.specs.Interfaces as of_interfaces;
ghost use Rattle.net_status.specs.Devices as of_devices;
ghost use Rattle.net_status.specs.Radios as of_radios;
ghost use Rattle.net_plane.specs.Status.{Shows, told_shown};
ghost use Rattle.net_plane.specs.declared.net_error.NetError.TheVariants as error;

use crate::net::Net;
use crate::net_error::NetError;
use kern_model::DevName;
use plane_io::{Memory, Text};
use serde_json::Value;
use std::alloc::Global;

impl Net {
    /// What is shown of an interface.
    ///
    /// # Errors
    ///
    /// `NoInterface` where the rows have none of that name, and `Memory`.
    pub fn interface_status(&self, alloc: Global, name: &Text) -> Result<Value, NetError>
        ensures { Shows view (of_interfaces.interface_status self.now.inputs name.now)
            error.NoInterface result }
    {
        let Ok(inputs) = self.follower.inputs.copy(alloc) else {
            return Err(NetError::Memory);
        };
        let shown = net_status::interface_status(alloc, &inputs, name);
        shown_or(shown, NetError::NoInterface)
    }

    /// What is shown of a device.
    ///
    /// # Errors
    ///
    /// `NoDevice` where none of that name is present and the rows do not speak of it, and `Memory`.
    pub fn device_status(&self, alloc: Global, name: &DevName) -> Result<Value, NetError>
        ensures { Shows view (of_devices.device_status self.now.inputs name.now)
            error.NoDevice result }
    {
        let Ok(inputs) = self.follower.inputs.copy(alloc) else {
            return Err(NetError::Memory);
        };
        let shown = net_status::device_status(alloc, &inputs, name);
        shown_or(shown, NetError::NoDevice)
    }

    /// What is shown of a radio.
    ///
    /// # Errors
    ///
    /// `NoRadio` where the rows have none of that name, and `Memory`.
    pub fn radio_status(&self, alloc: Global, name: &Text) -> Result<Value, NetError>
        ensures { Shows view (of_radios.radio_status self.now.inputs name.now)
            error.NoRadio result }
    {
        let Ok(inputs) = self.follower.inputs.copy(alloc) else {
            return Err(NetError::Memory);
        };
        let shown = net_status::radio_status(alloc, &inputs, name);
        shown_or(shown, NetError::NoRadio)
    }

    /// What is shown of all interfaces, in file order.
    ///
    /// # Errors
    ///
    /// `Memory`.
    pub fn dump(&self, alloc: Global) -> Result<Value, Memory>
        ensures { IfOk result (λ shown. view shown ≡ of_interfaces.dump self.now.inputs) }
    {
        let inputs = self.follower.inputs.copy(alloc)?;
        net_status::dump(alloc, &inputs)
    }
}

fn shown_or(shown: Result<Option<Value>, Memory>, absent: NetError) -> Result<Value, NetError>
    ensures { result ≡ told_shown absent shown }
{
    match shown {
        Ok(Some(value)) => Ok(value),
        Ok(None) => Err(absent),
        Err(Memory) => Err(NetError::Memory),
    }
}
