use crate::access::{fits, may};
use bus_clients::ScriptBus;
use case_files::{Stage, words};
use std::alloc::Global;
use ubus_acl::{Acl, AclError};
use ubus_table::LocalCall;

/// A bus with its clients, and the calls that it handed out.
#[derive(Drop)]
pub(crate) struct Bench {
    pub(crate) alloc: Global,
    pub(crate) bus: ScriptBus,
    pub(crate) handed: Vec<LocalCall>,
    /// The text of the access list.
    list: Vec<u8>,
    /// Whether little is told of a frame.
    pub(crate) is_short: bool,
}

impl Stage for Bench {
    fn new(alloc: Global) -> anyhow::Result<Bench> {
        Ok(Bench {
            alloc,
            bus: ScriptBus::new(alloc, Acl::read(alloc, b"[]")?)?,
            handed: Vec::new(alloc),
            list: Vec::from_slice(alloc, b"[]")?,
            is_short: false,
        })
    }

    fn step(&mut self, line: &str, input: &[u8], out: &mut Vec<u8>) -> anyhow::Result<()> {
        match line {
            "lines" => self.lines(false, input, out),
            "short" => self.lines(true, input, out),
            _ => self.line(line, input, out),
        }
    }
}

impl Bench {
    /// Plays each line of the input.
    fn lines(&mut self, is_short: bool, input: &[u8], out: &mut Vec<u8>) -> anyhow::Result<()> {
        self.is_short = is_short;
        for line in str::from_utf8(input)?.lines() {
            self.line(line, b"", out)?;
        }
        self.is_short = false;
        Ok(())
    }

    /// Plays a step that has no lines within it.
    fn line(&mut self, line: &str, input: &[u8], out: &mut Vec<u8>) -> anyhow::Result<()> {
        let words = words(self.alloc, line)?;
        match words.as_slice() {
            ["list"] => self.list(input, out),
            ["list", json] => self.list(json.as_bytes(), out),
            ["fits", pattern, text] => fits(pattern, text, out),
            ["may", words @ ..] => may(&Acl::read(self.alloc, &self.list)?, words, out),
            ["client", key, words @ ..] => self.client(key.parse()?, words, out),
            ["connect", user, group] => self.connect(user, group, out),
            ["disconnect", number] => self.disconnect(number.parse()?, out),
            ["reply", words @ ..] => self.reply(words, input, out),
            [client, kind, seq, fields @ ..] => {
                self.message(client.parse()?, kind, seq, fields, input, out)
            }
            _ => Err(anyhow::anyhow!("no such step")),
        }
    }

    /// A new bus with this access list.
    fn list(&mut self, text: &[u8], out: &mut Vec<u8>) -> anyhow::Result<()> {
        match Acl::read(self.alloc, text) {
            Ok(acl) => {
                self.bus = ScriptBus::new(self.alloc, acl)?;
                self.handed = Vec::new(self.alloc);
                self.list = Vec::from_slice(self.alloc, text)?;
                out.extend_from_slice(b"ok\n")?;
            }
            Err(AclError::Memory) => return Err(AclError::Memory.into()),
            Err(error) => {
                let told = format!(in self.alloc; "error {} {error}\n", error.number())?;
                out.extend_from_slice(told.as_bytes())?;
            }
        }
        Ok(())
    }
}
