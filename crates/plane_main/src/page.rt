ghost use Rattle.std.specs.Prelude.{◌≡◌, map, string_bytes, IfSome, IfNone};
ghost use Rattle.plane_main.specs.declared.command.Command.TheVariants as command;
ghost use Rattle.plane_main.specs.Command.{AskFor, IsPageCommand};
ghost use Rattle.plane_main.specs.Page.{page_text, PrintEnds};

use crate::ending::Ending;
use crate::texts::{HELP, VERSION};
use plane_io::Sink;

/// A page that the program prints about itself.
#[derive(Clone, Copy)]
pub enum Page {
    Help,
    Version,
}

impl Page {
    /// The page that the words ask for, or `None` where they ask for none.
    pub fn read(words: &[String]) -> Option<Page>
        ensures found { IfSome result (λ page.
            AskFor (map string_bytes words.now) (command.Show page)) }
        ensures none { IfNone result (IsPageCommand (map string_bytes words.now) → ⊥) }
    {
        let [word] = words else {
            return None;
        };
        if word.as_bytes() == b"--help".as_slice() {
            return Some(Page::Help);
        }
        if word.as_bytes() == b"--version".as_slice() {
            return Some(Page::Version);
        }
        None
    }

    fn text(self) -> &'static [u8]
        ensures { result.now ≡ page_text self }
    {
        match self {
            Page::Help => HELP,
            Page::Version => VERSION,
        }
    }
}

/// Prints a page.
pub fn show<O: Sink>(page: Page, out: &mut O) -> Ending
    ensures ends { PrintEnds (page_text page) (O.held out.old) (O.held out.new)
        (O.faults out.old) (O.faults out.new) result }
{
    match out.write(page.text()) {
        Ok(()) => Ending::Done,
        Err(_) => Ending::WriteFailed,
    }
}
