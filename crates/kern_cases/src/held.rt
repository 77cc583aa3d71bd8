use crate::objects::{is_on, mac_of, name_of, object_of};
use crate::texts::put_line;
use kern_memory::MemKernel;
use kern_model::{
    Call, DevEvent, DevName, Device, Kernel, Mac, Object, own_mac, own_mtu, print_call,
};
use std::alloc::Global;

const NO_MAC: Mac = Mac([0; 6]);

/// A kernel in memory, and what its devices came with.
#[derive(Drop)]
pub(crate) struct KernelBench {
    alloc: Global,
    kernel: MemKernel,
    devices: Vec<(DevName, Device)>,
    failing_calls: Vec<u64>,
    failing_events: Vec<u64>,
    is_asked: bool,
}

impl KernelBench {
    pub(crate) fn new(alloc: Global) -> KernelBench {
        KernelBench {
            alloc,
            kernel: MemKernel::new(alloc, Vec::new(alloc), Vec::new(alloc)),
            devices: Vec::new(alloc),
            failing_calls: Vec::new(alloc),
            failing_events: Vec::new(alloc),
            is_asked: false,
        }
    }

    /// Carries a step of the kernel out. Gives whether it is one.
    pub(crate) fn step(&mut self, words: &[&str], out: &mut Vec<u8>) -> anyhow::Result<bool> {
        match words {
            ["fail", kind, number] => self.fail(kind, number.parse()?)?,
            ["device", words @ ..] => self.event(&event_of(words)?, out)?,
            ["put", words @ ..] => self.call(&Call::Put(object_of(words)?), out)?,
            ["take", words @ ..] => self.take(object_of(words)?, out)?,
            ["take-to", mtu, mac, words @ ..] => self.call(&take_of(mtu, mac, words)?, out)?,
            ["line", "put", words @ ..] => put_call(&Call::Put(object_of(words)?), out)?,
            ["line", "take", mtu, mac, words @ ..] => {
                put_call(&take_of(mtu, mac, words)?, out)?;
            }
            ["objects"] => self.objects(out)?,
            ["calls"] => self.calls(out)?,
            _ => return Ok(false),
        }
        Ok(true)
    }

    /// Has a call or an event of this number fail.
    fn fail(&mut self, kind: &str, number: u64) -> anyhow::Result<()> {
        if self.is_asked {
            return Err(anyhow::anyhow!("the kernel was asked already"));
        }
        match kind {
            "call" => self.failing_calls.push(number)?,
            "device" => self.failing_events.push(number)?,
            _ => return Err(anyhow::anyhow!("neither call nor device")),
        }
        self.kernel = MemKernel::new(
            self.alloc,
            Vec::from_slice(self.alloc, &self.failing_calls)?,
            Vec::from_slice(self.alloc, &self.failing_events)?,
        );
        Ok(())
    }

    fn event(&mut self, event: &DevEvent, out: &mut Vec<u8>) -> anyhow::Result<()> {
        self.is_asked = true;
        if !self.kernel.may_happen(event) {
            return put_line(b"refused", out);
        }
        let Ok(()) = self.kernel.environment(event) else {
            return put_line(b"failed", out);
        };
        self.note(event)?;
        put_line(b"ok", out)
    }

    /// Keeps what a device came with.
    fn note(&mut self, event: &DevEvent) -> anyhow::Result<()> {
        match *event {
            DevEvent::Add {
                name,
                carrier,
                mtu,
                mac,
            } => self.devices.push((name, Device { carrier, mtu, mac }))?,
            DevEvent::Remove { name } => self.devices.retain(|(own, _)| !own.same(&name)),
            DevEvent::Carrier { .. } => {}
        }
        Ok(())
    }

    fn take(&mut self, object: Object, out: &mut Vec<u8>) -> anyhow::Result<()> {
        let name = object.name();
        let call = Call::Take {
            object,
            mtu: own_mtu(&self.devices, &name),
            mac: own_mac(&self.devices, &name),
        };
        self.call(&call, out)
    }

    fn call(&mut self, call: &Call, out: &mut Vec<u8>) -> anyhow::Result<()> {
        self.is_asked = true;
        if !self.kernel.admits(call) {
            return put_line(b"refused", out);
        }
        let Ok(()) = self.kernel.apply(call) else {
            return put_line(b"failed", out);
        };
        put_call(call, out)
    }

    fn objects(&self, out: &mut Vec<u8>) -> anyhow::Result<()> {
        let mut lines = Vec::new(self.alloc);
        for object in self.kernel.objects() {
            let mut line = Vec::new(self.alloc);
            put_call(&Call::Put(*object), &mut line)?;
            lines.push(line)?;
        }
        lines.sort()?;
        for line in &lines {
            out.extend_from_slice(line)?;
        }
        Ok(())
    }

    fn calls(&self, out: &mut Vec<u8>) -> anyhow::Result<()> {
        for call in self.kernel.calls() {
            put_call(call, out)?;
        }
        Ok(())
    }
}

/// The take of an object with these own values.
fn take_of(mtu: &str, mac: &str, words: &[&str]) -> anyhow::Result<Call> {
    Ok(Call::Take {
        object: object_of(words)?,
        mtu: mtu.parse()?,
        mac: mac_of(mac)?,
    })
}

fn put_call(call: &Call, out: &mut Vec<u8>) -> anyhow::Result<()> {
    let mut line = [0u8; 256];
    let size = print_call(call, &mut line);
    put_line(&line[..size], out)
}

fn event_of(words: &[&str]) -> anyhow::Result<DevEvent> {
    match words {
        ["add", name, carrier, own @ ..] => {
            let (mtu, mac) = own_values(own)?;
            Ok(DevEvent::Add {
                name: name_of(name)?,
                carrier: is_on(carrier)?,
                mtu,
                mac,
            })
        }
        ["carrier", name, on] => Ok(DevEvent::Carrier {
            name: name_of(name)?,
            on: is_on(on)?,
        }),
        ["remove", name] => Ok(DevEvent::Remove {
            name: name_of(name)?,
        }),
        _ => Err(anyhow::anyhow!("no such event")),
    }
}

fn own_values(words: &[&str]) -> anyhow::Result<(u32, Mac)> {
    match words {
        [] => Ok((1500, NO_MAC)),
        [mtu] => Ok((mtu.parse()?, NO_MAC)),
        [mtu, mac] => Ok((mtu.parse()?, mac_of(mac)?)),
        _ => Err(anyhow::anyhow!("no such words of a device")),
    }
}
