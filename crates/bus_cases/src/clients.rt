use crate::bench::Bench;
use crate::told::put_sent;
use bus_clients::ClientError;
use ubus_broker::BrokerError;

impl Bench {
    /// A client with a key comes, sends bytes or leaves.
    pub(crate) fn client(
        &mut self,
        key: u32,
        words: &[&str],
        out: &mut Vec<u8>,
    ) -> anyhow::Result<()> {
        let done = match words {
            ["open", user, group] => self.bus.open(key, user.as_bytes(), group.as_bytes(), out),
            ["bytes", digits] => return self.bytes(key, digits, out),
            ["close"] => self.bus.close(key, out),
            _ => return Err(anyhow::anyhow!("no such step of a client")),
        };
        put_done(done, out)
    }

    /// A client with a key sends bytes, and each frame that is whole is served.
    fn bytes(&mut self, key: u32, digits: &str, out: &mut Vec<u8>) -> anyhow::Result<()> {
        let bytes = hex::decode(self.alloc, digits)?;
        let fed = match self.bus.feed(key, &bytes) {
            Ok(fed) => fed,
            Err(error) => return put_done(Err(error), out),
        };
        for frame in fed.frames.as_slice() {
            if let Some(call) = self.bus.serve(fed.number, frame, out)? {
                self.handed.push(call)?;
            }
        }
        match fed.fault {
            Some(fault) => {
                let told = format!(in self.alloc; "error {} {fault}\n", fault.number())?;
                out.extend_from_slice(told.as_bytes())?;
                Ok(())
            }
            None => put_done(Ok(()), out),
        }
    }

    /// A client without a key comes.
    pub(crate) fn connect(
        &mut self,
        user: &str,
        group: &str,
        out: &mut Vec<u8>,
    ) -> anyhow::Result<()> {
        match self.bus.broker.connect(user.as_bytes(), group.as_bytes()) {
            Ok(joined) => {
                let told = format!(in self.alloc; "client {}\n", joined.client)?;
                out.extend_from_slice(told.as_bytes())?;
                put_sent(self.alloc, self.is_short, joined.out.as_slice(), out)
            }
            Err(error) => self.refuse(error, out),
        }
    }

    /// The client of a number leaves.
    pub(crate) fn disconnect(&mut self, number: u32, out: &mut Vec<u8>) -> anyhow::Result<()> {
        let served = self.bus.broker.disconnect(number);
        self.tell(served, out)
    }

    /// Puts why the bus refuses something, unless memory lacks.
    pub(crate) fn refuse(&self, error: BrokerError, out: &mut Vec<u8>) -> anyhow::Result<()> {
        if let BrokerError::Memory = error {
            return Err(error.into());
        }
        let told = format!(in self.alloc; "error {} {error}\n", error.number())?;
        out.extend_from_slice(told.as_bytes())?;
        Ok(())
    }
}

/// Puts `ok`, or why a client with a key is refused.
fn put_done(done: Result<(), ClientError>, out: &mut Vec<u8>) -> anyhow::Result<()> {
    match done {
        Ok(()) => out.extend_from_slice(b"ok\n")?,
        Err(ClientError::Memory) => return Err(ClientError::Memory.into()),
        Err(error) => {
            let told = format!(in *out.allocator(); "error {error}\n")?;
            out.extend_from_slice(told.as_bytes())?;
        }
    }
    Ok(())
}
