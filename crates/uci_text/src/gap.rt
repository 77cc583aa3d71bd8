ghost use Rattle.uci_text.specs.Found.{TakesGap};

use crate::byte_class::ByteClass;

/// What is behind the gap in front.
pub fn behind_gap(bytes: &[u8]) -> &[u8]
    ensures { TakesGap bytes.now result.now }
{
    let mut rest = bytes;
    loop {
        let (_, behind) = ByteClass::Blank.split(rest);
        let Some((mark, comment)) = behind.split_first() else {
            return behind;
        };
        if *mark != b'#' {
            return behind;
        }
        let (_, next) = ByteClass::InLine.split(comment);
        rest = next;
    }
}
