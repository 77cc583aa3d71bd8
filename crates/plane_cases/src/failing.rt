//! Calls of devices that fail.
use std::alloc::Global;

/// A device whose calls may fail.
#[derive(Clone, Copy, PartialEq, Eq)]
pub(crate) enum Device {
    Input,
    Out,
    Err,
    Files,
    Staged,
    Apply,
    Environment,
}

impl Device {
    /// The device of that name.
    pub(crate) fn read(word: &str) -> anyhow::Result<Device> {
        match word {
            "input" => Ok(Device::Input),
            "out" => Ok(Device::Out),
            "err" => Ok(Device::Err),
            "files" => Ok(Device::Files),
            "staged" => Ok(Device::Staged),
            "apply" => Ok(Device::Apply),
            "environment" => Ok(Device::Environment),
            _ => Err(anyhow::anyhow!("no such device")),
        }
    }
}

/// The calls that fail in a run.
#[derive(Drop)]
pub(crate) struct Failing {
    alloc: Global,
    calls: Vec<(Device, u64)>,
    /// How many calls the disk of packages does, if it fails behind them.
    pub(crate) passed: Option<u64>,
}

impl Failing {
    /// No call fails.
    pub(crate) fn new(alloc: Global) -> Failing {
        Failing {
            alloc,
            calls: Vec::new(alloc),
            passed: None,
        }
    }

    /// One call fails.
    pub(crate) fn one(alloc: Global, device: Device, number: u64) -> anyhow::Result<Failing> {
        let mut failing = Failing::new(alloc);
        failing.push(device, number)?;
        Ok(failing)
    }

    /// One more call fails.
    pub(crate) fn push(&mut self, device: Device, number: u64) -> anyhow::Result<()> {
        self.calls.push((device, number))?;
        Ok(())
    }

    /// The numbers of the calls of a device that fail.
    pub(crate) fn of(&self, device: Device) -> anyhow::Result<Vec<u64>> {
        let mut numbers = Vec::new(self.alloc);
        for (other, number) in &self.calls {
            if *other == device {
                numbers.push(*number)?;
            }
        }
        Ok(numbers)
    }
}
