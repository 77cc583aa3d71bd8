ghost use Rattle.std.specs.Prelude.{◌≡◌, ◌≢◌, ◌<◌, ◌≤◌, ◌+◌, ◌-◌, ◌^◌, ◌++◌, ℕ, List, length, IfOk};
ghost use Rattle.std.specs.Prelude.{Err};
ghost use Rattle.uci_text.specs.declared.byte_class.ByteClass.TheVariants.{NotZero};
ghost use Rattle.uci_text.specs.declared.text_error.TextError.{TextError};
ghost use Rattle.uci_text.specs.ByteClass as class;
ghost use Rattle.uci_text.specs.ByteClass.{AllIn};
ghost use Rattle.uci_text.specs.FirstFault.{HasFault};
ghost use Rattle.uci_text.specs.Found.{BeginsOutside, HasNoEnd, ReadsExtent, RefusesExtent};
ghost use Rattle.uci_text.specs.Found.{ReadsGap, RefusesGap};

use crate::byte_class::ByteClass;
use crate::command::read_command;
use crate::gap::behind_gap;
use crate::stop::Stop;
use crate::{Line, TextError};
use std::alloc::Global;

/// What stands before the end of the bytes.
fn before<'a>(bytes: &'a [u8], end: &[u8]) -> &'a [u8]
    requires { length end.now ≤ length bytes.now }
    ensures { (front : List ℕ) → bytes.now ≡ front ++ end.now → result.now ≡ front }
{
    let (front, _) = bytes.split_at(bytes.len() - end.len());
    front
}

fn newlines(bytes: &[u8]) -> u32
    requires { length bytes.now < 2 ^ 32 }
    ensures { result ≡ class.newlines bytes.now }
{
    let mut count = 0;
    for byte in bytes {
        count += u32::from(*byte == b'\n');
    }
    count
}

/// The number of the line behind the extent, which begins on the line of this number.
fn line_behind(number: u32, extent: &[u8]) -> Result<u32, TextError>
    requires { number + length extent.now < 2 ^ 32 }
    ensures clean { IfOk result (λ next. AllIn NotZero extent.now) }
    ensures line { IfOk result (λ next. next ≡ number + class.newlines extent.now) }
    ensures refused { (error : TextError) → result ≡ Err error → HasFault number extent.now error }
{
    let (clean, rest) = ByteClass::NotZero.split(extent);
    let line = number + newlines(clean);
    if rest.is_empty() {
        Ok(line)
    } else {
        Err(TextError::BadWord { line })
    }
}

/// The number of the line on which the last bytes of the extent begin, of which there are so many.
fn line_of_end(number: u32, extent: &[u8], left: usize) -> Result<u32, TextError>
    requires room { number + length extent.now < 2 ^ 32 }
    requires within { left ≤ length extent.now }
    ensures clean { IfOk result (λ line. AllIn NotZero extent.now) }
    ensures line { IfOk result (λ line. (front end : List ℕ) →
        extent.now ≡ front ++ end → length end ≡ left → line ≡ number + class.newlines front) }
    ensures refused { (error : TextError) → result ≡ Err error → HasFault number extent.now error }
{
    line_behind(number, extent)?;
    let (front, _) = extent.split_at(extent.len() - left);
    Ok(number + newlines(front))
}

/// The fault of a command that does not end: a zero byte goes first.
fn fault_of(number: u32, bytes: &[u8], stop: Stop) -> TextError
    requires room { number + length bytes.now < 2 ^ 32 }
    requires stopped { stop ≢ Stop.Memory → HasNoEnd bytes.now stop }
    ensures fault { result ≢ TextError.Memory → HasFault number bytes.now result }
    ensures memory { stop ≡ Stop.Memory → result ≡ TextError.Memory }
{
    match stop {
        Stop::Memory => TextError::Memory,
        Stop::Quote { left } => match line_of_end(number, bytes, left) {
            Ok(line) => TextError::OpenQuote { line },
            Err(error) => error,
        },
        Stop::Backslash => match line_of_end(number, bytes, 1) {
            Ok(line) => TextError::BadWord { line },
            Err(error) => error,
        },
    }
}

/// The line of the command in front, what is behind its extent, and the number of the line that is
/// there.
pub fn read_extent(
    alloc: Global,
    number: u32,
    bytes: &[u8],
) -> Result<(Line, &[u8], u32), TextError>
    requires room { number + length bytes.now < 2 ^ 32 }
    requires begins { BeginsOutside class.ends_word bytes.now }
    ensures found { IfOk result (λ read. ReadsExtent number bytes.now read.0 read.1.now read.2) }
    ensures refused { (error : TextError) → result ≡ Err error → error ≢ TextError.Memory →
        RefusesExtent number bytes.now error }
{
    let (words, after) = match read_command(alloc, bytes) {
        Ok(found) => found,
        Err(stop) => return Err(fault_of(number, bytes, stop)),
    };
    let behind = behind_gap(after);
    let next = line_behind(number, before(bytes, behind))?;
    Ok((
        Line {
            line: number,
            words,
        },
        behind,
        next,
    ))
}

/// What is behind the gap in front of the text, and the number of the line that is there.
pub fn read_gap(text: &[u8]) -> Result<(&[u8], u32), TextError>
    requires { length text.now < 2 ^ 32 - 1 }
    ensures found { IfOk result (λ read. ReadsGap text.now read.0.now read.1) }
    ensures refused { (error : TextError) → result ≡ Err error → RefusesGap text.now error }
{
    let behind = behind_gap(text);
    let number = line_behind(1, before(text, behind))?;
    Ok((behind, number))
}
