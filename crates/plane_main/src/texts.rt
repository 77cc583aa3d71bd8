// Every text of the program itself. The definitions cite these constants.

/// The page of `--help`.
pub const HELP: &[u8] = b"plane: the configuration plane of an OpenWrt router as verified software

plane start DEV..   reads a network configuration from the standard input, and prints the kernel \
calls that bring
                    it up on the devices DEV, as lines for `ip -batch`
plane run -c DIR    carries a script of the standard input out over the configuration of a folder: \
commits, reloads,
                    devices that come and go, commands of an operator and answers of handlers, \
each line with the
                    kernel calls that it brings
plane uci WORDS     carries OpenWrt's `uci` out over a folder of configuration: show, get, set, \
add, add_list, del_list,
                    delete, rename, reorder, changes, revert, commit, export, import and batch
plane gen N         plays a network of N bridges through, and prints how many kernel calls each \
step of that makes
plane --help        prints this page
plane --version     prints the version

start takes 1 to 4096 device names, each once, and none that ends in a VLAN as eth0.2 does. The \
input is the file
/etc/config/network of a router, of at most 1048576 bytes. For what a handler has to say, as the \
address of a line that
asks for one, a line is printed behind the calls. An example: from

config device
    option name 'br-lan'
    option type 'bridge'
    list ports 'eth0'

config interface 'lan'
    option device 'br-lan'
    option proto 'static'
    option ipaddr '192.168.1.1/24'

config interface 'wan'
    option device 'eth1'
    option proto 'dhcp'

plane start eth0 eth1 prints

link add name br-lan type bridge
link set dev eth0 master br-lan
link set dev br-lan up
link set dev eth0 up
link set dev eth1 up
addr add 192.168.1.1/24 dev br-lan
ask 1 interface wan dhcp eth1 {}

run takes -t DIR, the folder of staged changes, /tmp/.uci where it is not given, -a JSON, the \
access list of its message
bus, [] where it is not, and -w N, the moment in seconds, else 0. The lines of its script are

at N                                the moment becomes N; an apply whose time is over is undone
dev add NAME [CARRIER [MTU MAC]]    a device comes; dev del NAME, it leaves; carrier NAME 0|1
up NAME, down NAME, reload          an operator's commands
answer NAME N JSON                  a handler answers the ask N of an interface; radio NAME N \
JSON, of a radio
uci WORDS                           a command of uci
status [interface|device|radio NAME]    what is to be seen, as JSON
call SID OBJECT METHOD JSON         a method of a local object of the message bus is called, for a \
session or, with -, for none
client K open USER GROUP            a client of that bus comes; client K bytes HEX, it sends \
these; client K close, it leaves

Each line is answered by what is sent to clients, its calls, its asks, what it shows or replies, \
and ok or error N TEXT.

gen takes a number from 1 to 1000. Its network has the bridges b1 to bN, with the VLANs eth0.1 to \
eth0.N as their ports and
a static interface on each. The device eth0 comes, goes and comes again, and then the interfaces \
whose number is a multiple
of 3 are left out: a line each, add, del, add and reload, with the number of calls, and one with \
the number of objects.

uci takes the options of OpenWrt's: -c DIR, the folder of packages, is /etc/config where it is not \
given, and -t DIR, that
of staged changes, /tmp/.uci; -q is quiet, -n and -N tell whether export names anonymous sections, \
-X shows them by
name, -m merges on import, -d STR stands between items, and -f FILE is the input. What it tells is \
its own.

Status: 0 done, 1 a command of uci or a line was refused, 2 usage, 3 the input failed, 4 a line \
was not written, 5 a disk failed,
6 a call of the kernel failed and objects are due, 8 out of memory, 9 the input is no UCI file, 10 \
the input, a list of
its rows or a file is too long, 12 what an apply left in the folder has no reading, 13 a place \
cannot be opened.
The manual is docs/plane.1.
";

/// The page of `--version`.
pub const VERSION: &[u8] = b"plane 0.1.0\n";

/// The words are none of the commands.
pub const USAGE: &[u8] = b"plane: usage\n";

/// The input failed.
pub const READ_FAILED: &[u8] = b"plane: read failed\n";

/// A line or a page was not wholly written.
pub const WRITE_FAILED: &[u8] = b"plane: write failed\n";

/// Memory was lacking.
pub const OUT_OF_MEMORY: &[u8] = b"plane: out of memory\n";

/// Before the number of objects that are due.
pub const KERNEL: &[u8] = b"plane: kernel: ";

/// After it.
pub const DUE: &[u8] = b" due\n";

/// Before the limit that the input, or a list of its rows, passes.
pub const LIMIT: &[u8] = b"plane: limit ";

/// Before the number of the line of a fault.
pub const NETWORK_LINE: &[u8] = b"plane: network: line ";

/// The same where the package is `wireless`.
pub const WIRELESS_LINE: &[u8] = b"plane: wireless: line ";

/// Before the place at which what an apply left has no reading.
pub const SNAPSHOT: &[u8] = b"plane: snapshot byte ";

/// A disk failed.
pub const DISK_FAILED: &[u8] = b"plane: disk failed\n";

/// Between that number and the reason.
pub const COLON: &[u8] = b": ";

/// The end of a text.
pub const NEWLINE: &[u8] = b"\n";
