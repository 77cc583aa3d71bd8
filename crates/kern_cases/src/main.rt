//! `kern_cases FILE..`: plays cases of addresses, of device names, of the kernel in memory and of
//! the counted graph.
//!
//! Texts. A TEXT that is left out is the input.
//! - `address TEXT`, `prefix TEXT`: an address or a prefix in its one form.
//! - `network TEXT`: a prefix without its host bits.
//! - `bits TEXT`: how many bits an address of the family of this one has.
//! - `join ADDRESS LENGTH`: the prefix of both, or `too long`.
//! - `mask ADDRESS`: how long a prefix an IPv4 mask stands for.
//! - `mac TEXT`: a hardware address in its one form, or `refused`.
//! - `name TEXT`, `plain-name TEXT`: the name of a device, the second none that stands for a VLAN,
//!   or `refused`.
//! - `order NAME NAME`: `before`, `same` or `after`.
//!
//! A text that is no address, prefix or mask gives `error NUMBER TEXT`.
//!
//! The kernel. A step that it is not to be asked gives `refused`, and one that it fails at
//! `failed`.
//! - `fail call NUMBER`, `fail device NUMBER`: that call, or that event of a device, is to fail.
//!   These steps come first.
//! - `device add NAME on|off [MTU [MAC]]`, `device carrier NAME on|off`, `device remove NAME`:
//!   `ok`.
//! - `put OBJECT`, `take OBJECT`: the line of the call. The own values of the device come back with
//!   what is taken.
//! - `take-to MTU MAC OBJECT`: as `take`, but with these values.
//! - `line put OBJECT`, `line take MTU MAC OBJECT`: the line of a call that the kernel is not asked
//!   for.
//! - `objects`: the lines that put what it holds, in the order of their bytes.
//! - `calls`: the lines of the calls that it did.
//!
//! An OBJECT is
//! - `bridge NAME [filtering] [mac MAC]`, `vlan NAME over LOWER id ID [mac MAC]`,
//! - `mtu NAME MTU`, `mac NAME MAC`, `master PORT BRIDGE`,
//! - `bridge-vlan BRIDGE PORT ID [pvid] [untagged]`,
//! - `up NAME`, `address NAME PREFIX`, `route PREFIX NAME [via ADDRESS] [metric NUMBER] [table
//!   NUMBER]`.
//!
//! The counted graph.
//! - `graph`: a new graph. A line of input is a row, `KIND LEVEL` with the kind `broken`, `plain`,
//!   `unsound`, `vlan`, `bridge` or `empty-bridge` (which needs no port), or an edge, `edge LOWER
//!   UPPER`. It gives `cannot load` where that is none.
//! - `node KIND LEVEL`: one node more, and its number. It is of a kind that is never made.
//! - `ports`: the edges of the input in place of earlier ones. It gives each node that changed, or
//!   `cannot join`.
//! - `comes ID on|off`, `leaves ID`, `carrier ID on|off`, `claims ID COUNT`: what a node is told.
//!   It gives each node that changed, and the marked ones behind them, which are those whose use
//!   changed.
//! - `nodes`: all nodes.
#![tactic(auto)]

mod bench;
mod counted;
mod graph;
mod held;
mod objects;
mod texts;

use bench::Bench;
use std::process::ExitCode;

fn main(rt: HostRuntime) -> anyhow::Result<ExitCode> {
    case_files::play_files::<Bench>(&rt)
}
