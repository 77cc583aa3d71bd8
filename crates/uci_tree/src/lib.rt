//! UCI packages, the trees that OpenWrt's configuration files stand for: sections that go on,
//! options and lists, names of anonymous sections, paths into a package, and packages as text.
#![tactic(auto)]

mod anonymous;
mod copy;
mod draft_section;
mod fault;
mod laws;
mod lookup;
mod options;
mod package;
mod path;
mod path_text;
mod print;
mod reading;
mod sections;
mod split;
mod tree_error;

pub use anonymous::anonymous_name;
pub use copy::copy_package;
pub use fault::{Fault, Reason};
pub use laws::{
    no_package_with_fault, no_tree_fault_is_memory, one_package, one_path, one_tree_fault,
    package_or_fault, printed_again, printed_reads_back,
};
pub use lookup::{Place, find, named_place, option_place};
pub use package::{Opt, Package, Section, Value};
pub use path::{Path, SectionRef};
pub use path_text::read_path;
pub use print::print_package;
pub use reading::read_package;
pub use split::cut_first;
pub use tree_error::TreeError;
