use crate::devices::Devices;
use crate::disks::Disks;
use crate::hubs::Hubs;
use crate::snaps;
use crate::stores::Stores;
use case_files::Stage;
use std::alloc::Global;

/// A disk with a snapshot, a store, and the other devices.
#[derive(Drop)]
pub(crate) struct Bench {
    alloc: Global,
    disks: Disks,
    stores: Stores,
    hubs: Hubs,
    devices: Devices,
}

impl Stage for Bench {
    fn new(alloc: Global) -> anyhow::Result<Bench> {
        Ok(Bench {
            alloc,
            disks: Disks::new(alloc),
            stores: Stores::new(alloc),
            hubs: Hubs::new(alloc),
            devices: Devices::new(alloc),
        })
    }

    fn step(&mut self, words: &str, input: &[u8], out: &mut Vec<u8>) -> anyhow::Result<()> {
        let words = case_files::words(self.alloc, words)?;
        match words.as_slice() {
            ["disk", words @ ..] => self.disks.step(words, input, out),
            ["snap", words @ ..] => snaps::step(&mut self.disks, words, input, out),
            ["store", words @ ..] => {
                let disk = match words {
                    ["open", _] => self.disks.disk.take(),
                    _ => None,
                };
                self.stores.step(&self.disks.files, disk, words, input, out)
            }
            ["hub", words @ ..] => self.hubs.step(words, input, out),
            words => self.devices.step(words, input, out),
        }
    }
}
