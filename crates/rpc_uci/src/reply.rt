ghost use Rattle.std.specs.Prelude.{◌≡◌, []};
ghost use Rattle.rpc_uci.specs.Done as spec;

use blob_codec::Attr;
use sqlite_items::Items;
use std::alloc::Global;

/// What a call answers.
#[derive(Drop)]
pub struct Reply {
    /// What it tells.
    pub payload: Items<Attr>,
    /// Whether the packages are to be read anew, since files were applied or rolled back.
    pub reload: bool,
}

impl Reply {
    /// Tells this, and nothing is to be read anew.
    pub(crate) fn quiet(payload: Items<Attr>) -> Reply
        ensures { result ≡ spec.quiet payload }
    {
        Reply {
            payload,
            reload: false,
        }
    }

    /// Tells nothing.
    pub(crate) fn nothing(alloc: Global) -> Reply
        ensures { result ≡ spec.quiet [] }
    {
        Reply::quiet(Items::new(alloc))
    }

    /// Tells nothing, and packages are to be read anew.
    pub(crate) fn reloading(alloc: Global) -> Reply
        ensures { result ≡ spec.reloading }
    {
        Reply {
            payload: Items::new(alloc),
            reload: true,
        }
    }
}
