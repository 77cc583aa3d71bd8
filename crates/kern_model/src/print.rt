ghost use Rattle.std.specs.Prelude.{◌≡◌, ◌≤◌, ◌<◌, ◌+◌, ◌*◌, ◌++◌, take, length, codes, decimal};
ghost use Rattle.std.specs.Prelude.{bytes_eq};
ghost use Rattle.net_addr.specs.Printed.{cidr_text};
ghost use Rattle.kern_model.specs.Line.{line_of, put_line, take_line, route_line, vlan_line, flag};
ghost use Rattle.kern_model.specs.Line.{hex_pair, pairs_text, own_address, gateway, unusual};

use crate::name::DevName;
use crate::object::{Call, LinkKind, Mac, Object, RouteObject};
use itoa::Buffer;
use net_addr::{Addr, Cidr, hex_digit, print_addr, print_cidr};
use plane_io::append_text;

/// The table of the routes that name none.
const MAIN_TABLE: u32 = 254;

/// Prints the line of a call, as `ip -batch` takes it, without its newline, and returns how many
/// bytes that is. Bytes of a name that `ip -batch` reads in a way of its own (`#`, `\` and quotes)
/// are printed as they are.
pub fn print_call(call: &Call, into: &mut [u8; 256]) -> usize
    ensures written { take result into.new ≡ line_of call.now }
    ensures fits { result ≤ 255 }
{
    match call {
        Call::Put(object) => print_put(object, into),
        Call::Take { object, mtu, mac } => print_take(object, *mtu, *mac, into),
    }
}

fn print_put(object: &Object, into: &mut [u8; 256]) -> usize
    ensures written { take result into.new ≡ put_line object.now }
    ensures fits { result ≤ 255 }
{
    match object {
        Object::Link { name, kind } => print_link(*name, kind, into),
        Object::Mtu { name, mtu } => print_mtu(*name, *mtu, into),
        Object::Mac { name, mac } => print_mac(*name, *mac, into),
        Object::Master { port, bridge } => print_master(*port, *bridge, into),
        Object::Vlan {
            bridge,
            port,
            id,
            pvid,
            untagged,
        } => print_port_vlan(*bridge, *port, *id, *pvid, *untagged, into),
        Object::Up { name } => print_set(*name, b" up", into),
        Object::Address { dev, cidr } => print_address(b"addr add ", *dev, *cidr, into),
        Object::Route(route) => print_route(b"route add ", route, into),
    }
}

fn print_take(object: &Object, mtu: u32, mac: Mac, into: &mut [u8; 256]) -> usize
    ensures written { take result into.new ≡ take_line object.now mtu mac }
    ensures fits { result ≤ 255 }
{
    match object {
        Object::Link { name, .. } => print_deleted(*name, into),
        Object::Mtu { name, .. } => print_mtu(*name, mtu, into),
        Object::Mac { name, .. } => print_mac(*name, mac, into),
        Object::Master { port, .. } => print_set(*port, b" nomaster", into),
        Object::Vlan {
            bridge,
            port,
            id,
            ..
        } => print_taken_vlan(*bridge, *port, *id, into),
        Object::Up { name } => print_set(*name, b" down", into),
        Object::Address { dev, cidr } => print_address(b"addr del ", *dev, *cidr, into),
        Object::Route(route) => print_route(b"route del ", route, into),
    }
}

fn print_link(name: DevName, kind: &LinkKind, into: &mut [u8; 256]) -> usize
    ensures written { take result into.new ≡ put_line (Object.Link name kind.now) }
    ensures fits { result ≤ 255 }
{
    match kind {
        LinkKind::Bridge { mac, filtering } => print_bridge(name, *mac, *filtering, into),
        LinkKind::Vlan { lower, id, mac } => print_vlan(name, *lower, *id, *mac, into),
    }
}

fn print_bridge(name: DevName, mac: Option<Mac>, filtering: bool, into: &mut [u8; 256]) -> usize
    ensures written { take result into.new
        ≡ put_line (Object.Link name (LinkKind.Bridge mac filtering)) }
    ensures fits { result ≤ 255 }
{
    let end = append_text(into, 0, b"link add name ");
    let end = append_text(into, end, name.text());
    let end = append_own_address(into, end, mac);
    let end = append_text(into, end, b" type bridge");
    append_flag(
        into,
        end,
        b" vlan_filtering 1 vlan_default_pvid 0",
        filtering,
    )
}

fn print_port_vlan(
    bridge: DevName,
    port: DevName,
    id: u16,
    pvid: bool,
    untagged: bool,
    into: &mut [u8; 256],
) -> usize
    ensures written { take result into.new ≡ put_line (Object.Vlan bridge port id pvid untagged) }
    ensures fits { result ≤ 255 }
{
    let end = print_vlan_of(b"bridge vlan add dev ", port, id, into);
    let end = append_flag(into, end, b" pvid", pvid);
    let end = append_flag(into, end, b" untagged", untagged);
    append_flag(into, end, b" self", port.text() == bridge.text())
}

fn print_taken_vlan(bridge: DevName, port: DevName, id: u16, into: &mut [u8; 256]) -> usize
    ensures written { take result into.new ≡ vlan_line (codes "bridge vlan del dev ") port id
        ++ flag (codes " self") (bytes_eq port bridge) }
    ensures fits { result ≤ 255 }
{
    let end = print_vlan_of(b"bridge vlan del dev ", port, id, into);
    append_flag(into, end, b" self", port.text() == bridge.text())
}

fn print_vlan_of(words: &[u8], port: DevName, id: u16, into: &mut [u8; 256]) -> usize
    requires { length words.now ≤ 24 }
    ensures written { take result into.new ≡ vlan_line words.now port id }
    ensures fits { result ≤ 54 }
{
    let end = append_text(into, 0, words);
    let end = append_text(into, end, port.text());
    let end = append_text(into, end, b" vid ");
    append_number(into, end, u32::from(id))
}

// The word where it holds.
fn append_flag(into: &mut [u8; 256], at: usize, word: &[u8], holds: bool) -> usize
    requires { at + length word.now ≤ 255 }
    ensures written { take result into.new ≡ take at into.old ++ flag word.now holds }
    ensures fits { result ≤ at + length word.now }
{
    if holds {
        append_text(into, at, word)
    } else {
        at
    }
}

fn print_vlan(
    name: DevName,
    lower: DevName,
    id: u16,
    mac: Option<Mac>,
    into: &mut [u8; 256],
) -> usize
    ensures written { take result into.new
        ≡ put_line (Object.Link name (LinkKind.Vlan lower id mac)) }
    ensures fits { result ≤ 255 }
{
    let end = append_text(into, 0, b"link add link ");
    let end = append_text(into, end, lower.text());
    let end = append_text(into, end, b" name ");
    let end = append_text(into, end, name.text());
    let end = append_own_address(into, end, mac);
    let end = append_text(into, end, b" type vlan id ");
    append_number(into, end, u32::from(id))
}

fn print_deleted(name: DevName, into: &mut [u8; 256]) -> usize
    ensures written { take result into.new ≡ codes "link del dev " ++ name }
    ensures fits { result ≤ 255 }
{
    let end = append_text(into, 0, b"link del dev ");
    append_text(into, end, name.text())
}

fn print_set(name: DevName, setting: &[u8], into: &mut [u8; 256]) -> usize
    requires { length setting.now ≤ 16 }
    ensures written { take result into.new ≡ codes "link set dev " ++ name ++ setting.now }
    ensures fits { result ≤ 44 }
{
    let end = append_text(into, 0, b"link set dev ");
    let end = append_text(into, end, name.text());
    append_text(into, end, setting)
}

fn print_mtu(name: DevName, mtu: u32, into: &mut [u8; 256]) -> usize
    ensures written { take result into.new ≡ put_line (Object.Mtu name mtu) }
    ensures fits { result ≤ 255 }
{
    let end = print_set(name, b" mtu ", into);
    append_number(into, end, mtu)
}

fn print_mac(name: DevName, mac: Mac, into: &mut [u8; 256]) -> usize
    ensures written { take result into.new ≡ put_line (Object.Mac name mac) }
    ensures fits { result ≤ 255 }
{
    let end = print_set(name, b" address ", into);
    append_pairs(into, end, &mac.0)
}

fn print_master(port: DevName, bridge: DevName, into: &mut [u8; 256]) -> usize
    ensures written { take result into.new ≡ put_line (Object.Master port bridge) }
    ensures fits { result ≤ 255 }
{
    let end = print_set(port, b" master ", into);
    append_text(into, end, bridge.text())
}

fn print_address(words: &[u8], dev: DevName, cidr: Cidr, into: &mut [u8; 256]) -> usize
    requires { length words.now ≤ 16 }
    ensures written { take result into.new ≡ words.now ++ cidr_text cidr ++ codes " dev " ++ dev }
    ensures fits { result ≤ 255 }
{
    let end = append_text(into, 0, words);
    let end = append_cidr(into, end, cidr);
    let end = append_text(into, end, b" dev ");
    append_text(into, end, dev.text())
}

fn print_route(words: &[u8], route: &RouteObject, into: &mut [u8; 256]) -> usize
    requires { length words.now ≤ 16 }
    ensures written { take result into.new ≡ route_line words.now route.now }
    ensures fits { result ≤ 255 }
{
    let end = append_text(into, 0, words);
    let end = append_cidr(into, end, route.target);
    let end = append_gateway(into, end, route.via);
    let end = append_text(into, end, b" dev ");
    let end = append_text(into, end, route.dev.text());
    let end = append_unusual(into, end, b" metric ", 0, route.metric);
    append_unusual(into, end, b" table ", MAIN_TABLE, route.table)
}

fn append_own_address(into: &mut [u8; 256], at: usize, mac: Option<Mac>) -> usize
    requires { at ≤ 229 }
    ensures written { take result into.new ≡ take at into.old ++ own_address mac }
    ensures fits { result ≤ at + 27 }
{
    match mac {
        None => at,
        Some(mac) => {
            let end = append_text(into, at, b" address ");
            append_pairs(into, end, &mac.0)
        }
    }
}

fn append_gateway(into: &mut [u8; 256], at: usize, via: Option<Addr>) -> usize
    requires { at ≤ 200 }
    ensures written { take result into.new ≡ take at into.old ++ gateway via }
    ensures fits { result ≤ at + 44 }
{
    match via {
        None => at,
        Some(via) => {
            let mut address = [0u8; 64];
            let size = print_addr(via, &mut address);
            let end = append_text(into, at, b" via ");
            append_text(into, end, &address[..size])
        }
    }
}

// The number after its word, or nothing where it is the usual one.
fn append_unusual(into: &mut [u8; 256], at: usize, word: &[u8], usual: u32, number: u32) -> usize
    requires room { at ≤ 230 }
    requires short { length word.now ≤ 8 }
    ensures written { take result into.new ≡ take at into.old ++ unusual word.now usual number }
    ensures fits { result ≤ at + 18 }
{
    if number == usual {
        return at;
    }
    let end = append_text(into, at, word);
    append_number(into, end, number)
}

fn append_cidr(into: &mut [u8; 256], at: usize, cidr: Cidr) -> usize
    requires { at ≤ 200 }
    ensures written { take result into.new ≡ take at into.old ++ cidr_text cidr }
    ensures fits { result ≤ at + 43 }
{
    let mut prefix = [0u8; 64];
    let size = print_cidr(cidr, &mut prefix);
    append_text(into, at, &prefix[..size])
}

fn append_number(into: &mut [u8; 256], at: usize, number: u32) -> usize
    requires { at ≤ 246 }
    ensures written { take result into.new ≡ take at into.old ++ decimal number }
    ensures fits { result ≤ at + 10 }
{
    let mut digits = Buffer::new();
    append_text(into, at, digits.format(number).as_bytes())
}

fn append_pairs(into: &mut [u8; 256], at: usize, bytes: &[u8]) -> usize
    requires { at + 3 * length bytes.now ≤ 256 }
    ensures written { take result into.new ≡ take at into.old ++ pairs_text bytes.now }
    ensures fits { result ≤ at + 3 * length bytes.now }
{
    let [first, rest @ ..] = bytes else {
        return at;
    };
    let mut end = append_text(into, at, &hex_pair(*first));
    for byte in rest {
        end = append_text(into, end, b":");
        end = append_text(into, end, &hex_pair(*byte));
    }
    end
}

fn hex_pair(byte: u8) -> [u8; 2]
    ensures { result ≡ hex_pair byte }
{
    [hex_digit(byte / 16), hex_digit(byte % 16)]
}
