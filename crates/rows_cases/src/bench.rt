//! The files of a network, and the steps on them.
use crate::answers::{put_answer, put_ports};
use crate::devices::{put_devices, put_names};
use crate::interfaces::{put_interfaces, put_routes};
use crate::lines::put_lines;
use crate::radios::put_radios;
use crate::requests::put_request;
use crate::vlans::put_vlans;
use case_files::Stage;
use net_conf::read_conf;
use net_devices::{DeviceConf, read_devices};
use net_interfaces::{interface_rows, radio_rows, route_rows};
use net_modern::modern;
use net_rows::{Conf, ConfError};
use std::alloc::Global;
use uci_tree::{Package, print_package, read_package};

/// The most bytes of a file.
const MOST: usize = 1 << 20;

/// The package of this name that a text is.
fn package_of(alloc: Global, name: &str, text: &[u8]) -> anyhow::Result<Package> {
    if text.len() > MOST {
        anyhow::bail!("a file of more than {MOST} bytes");
    }
    Ok(read_package(alloc, name.as_bytes(), text)?)
}

/// The files of a network.
#[derive(Drop)]
pub(crate) struct Bench {
    alloc: Global,
    network: Package,
    wireless: Package,
}

impl Stage for Bench {
    fn new(alloc: Global) -> anyhow::Result<Bench> {
        Ok(Bench {
            alloc,
            network: package_of(alloc, "network", b"")?,
            wireless: package_of(alloc, "wireless", b"")?,
        })
    }

    fn step(&mut self, words: &str, input: &[u8], out: &mut Vec<u8>) -> anyhow::Result<()> {
        match words {
            "network" => self.network = package_of(self.alloc, words, input)?,
            "wireless" => self.wireless = package_of(self.alloc, words, input)?,
            _ if !input.is_empty() => anyhow::bail!("a step that takes no input"),
            "modern" => self.rewrite(out)?,
            _ => self.look(words, out)?,
        }
        Ok(())
    }
}

impl Bench {
    /// Rewrites the network, and shows it.
    fn rewrite(&mut self, out: &mut Vec<u8>) -> anyhow::Result<()> {
        self.network = modern(self.alloc, &self.network)?;
        let made = self.network.made;
        let shown = print_package(self.alloc, &self.network, false, true)?;
        out.extend_from_slice(&shown)?;
        out.extend_from_slice(format!(in self.alloc; "made {made}\n")?.as_bytes())?;
        Ok(())
    }

    /// Shows what a text, or what the files say.
    fn look(&self, words: &str, out: &mut Vec<u8>) -> anyhow::Result<()> {
        if let Some(text) = words.strip_prefix("line ") {
            return put_lines(self.alloc, out, text);
        }
        if let Some(json) = words.strip_prefix("answer ") {
            return put_answer(self.alloc, out, json);
        }
        if let Some(json) = words.strip_prefix("ports ") {
            return put_ports(self.alloc, out, json);
        }
        if let Some(words) = words.strip_prefix("ask ") {
            let words = case_files::words(self.alloc, words)?;
            let (network, wireless) = (&self.network, &self.wireless);
            return put_request(self.alloc, out, network, wireless, &words);
        }
        self.rows(words, out)
    }

    /// Shows rows.
    fn rows(&self, words: &str, out: &mut Vec<u8>) -> anyhow::Result<()> {
        match words {
            "devices" | "names" | "vlans" | "rows" => self.device_rows(words, out),
            "interfaces" => self.interfaces(out),
            "routes" => self.routes(out),
            "radios" => self.radios(out),
            "counts" => self.counts(out),
            _ => anyhow::bail!("no such step"),
        }
    }

    fn device_rows(&self, words: &str, out: &mut Vec<u8>) -> anyhow::Result<()> {
        match read_devices(self.alloc, &self.network) {
            Ok(conf) => put_some(self.alloc, out, words, &conf),
            Err(error) => put_error(self.alloc, out, error),
        }
    }

    fn interfaces(&self, out: &mut Vec<u8>) -> anyhow::Result<()> {
        let rows = interface_rows(self.alloc, self.network.sections.as_slice())?;
        put_interfaces(self.alloc, out, rows.as_slice())
    }

    fn routes(&self, out: &mut Vec<u8>) -> anyhow::Result<()> {
        let sections = self.network.sections.as_slice();
        let interfaces = interface_rows(self.alloc, sections)?;
        let rows = route_rows(self.alloc, interfaces.as_slice(), sections)?;
        put_routes(self.alloc, out, rows.as_slice())
    }

    fn radios(&self, out: &mut Vec<u8>) -> anyhow::Result<()> {
        let rows = radio_rows(self.alloc, self.wireless.sections.as_slice())?;
        put_radios(out, rows.as_slice())
    }

    fn counts(&self, out: &mut Vec<u8>) -> anyhow::Result<()> {
        match read_conf(self.alloc, &self.network, &self.wireless) {
            Ok(conf) => put_counts(self.alloc, out, &conf),
            Err(error) => put_error(self.alloc, out, error),
        }
    }
}

fn put_some(
    alloc: Global,
    out: &mut Vec<u8>,
    words: &str,
    conf: &DeviceConf,
) -> anyhow::Result<()> {
    let all = words == "rows";
    if all || words == "devices" {
        put_devices(alloc, out, conf.devices.as_slice())?;
    }
    if all || words == "names" {
        put_names(alloc, out, conf.names.as_slice())?;
    }
    if all || words == "vlans" {
        put_vlans(alloc, out, conf.vlans.as_slice())?;
    }
    Ok(())
}

fn put_counts(alloc: Global, out: &mut Vec<u8>, conf: &Conf) -> anyhow::Result<()> {
    let interfaces = conf.interfaces.as_slice().len();
    let (devices, routes) = (conf.devices.as_slice().len(), conf.routes.as_slice().len());
    let (radios, names) = (conf.radios.as_slice().len(), conf.names.as_slice().len());
    let vlans = conf.vlans.as_slice().len();
    let first = format!(in alloc; "interfaces {interfaces} devices {devices} routes {routes}")?;
    let second = format!(in alloc; " radios {radios} names {names} vlans {vlans}\n")?;
    out.extend_from_slice(first.as_bytes())?;
    out.extend_from_slice(second.as_bytes())?;
    Ok(())
}

fn put_error(alloc: Global, out: &mut Vec<u8>, error: ConfError) -> anyhow::Result<()> {
    if let ConfError::Memory = error {
        return Err(error.into());
    }
    let number = error.number();
    out.extend_from_slice(format!(in alloc; "error {number} {error}\n")?.as_bytes())?;
    Ok(())
}
