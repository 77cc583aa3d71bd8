ghost use Rattle.std.specs.Prelude.{◌≡◌, ◌≤◌, ◌++◌, OnOk, OnErr, decimal, length};
ghost use Rattle.plane_words.specs.Causes.{HasCause};
ghost use Rattle.plane_words.specs.Growth.{Grows, GrowsByFront};
ghost use Rattle.plane_main.specs.Outside.{errors_of};
ghost use Rattle.plane_run.specs.RunEnd.{status_of as run_status};
ghost use Rattle.plane_main.specs.Ending as spec;
ghost use Rattle.plane_main.specs.Ending.{status_of, text_of, text_of_run, IsTold};

use crate::ending::Ending;
use crate::texts::{
    COLON, DISK_FAILED, DUE, KERNEL, LIMIT, NETWORK_LINE, NEWLINE, OUT_OF_MEMORY, READ_FAILED,
    SNAPSHOT, USAGE, WIRELESS_LINE, WRITE_FAILED,
};
use itoa::Buffer;
use plane_io::{Failed, Sink, append_text};
use plane_run::{RowPackage, RunEnd};
use uci_tree::Fault;

/// Tells how a run ended, and answers that. Where telling fails, nothing is done about it.
pub fn report<E: Sink>(ending: Ending, err: &mut E) -> Ending
    ensures same { result ≡ ending }
    ensures told { IsTold (text_of ending) (errors_of E.Sink err.old err.new) }
    ensures silent { status_of ending ≡ 0 → err.new ≡ err.old }
{
    let _ = write_text(&ending, err);
    ending
}

// Writes the text of an ending, in one piece.
fn write_text<E: Sink>(ending: &Ending, err: &mut E) -> Result<(), Failed>
    ensures ok { OnOk result (Grows (E.held err.old) (E.held err.new) (text_of ending.now)) }
    ensures err { OnErr result
        (GrowsByFront (E.held err.old) (E.held err.new) (text_of ending.now)) }
    ensures cause { HasCause (E.faults err.old) (E.faults err.new) result }
    ensures silent { status_of ending.now ≡ 0 → err.new ≡ err.old }
{
    match ending {
        Ending::Done | Ending::OfUci { .. } => Ok(()),
        Ending::Usage => err.write(USAGE),
        Ending::ReadFailed => err.write(READ_FAILED),
        Ending::WriteFailed => err.write(WRITE_FAILED),
        Ending::KernelFailed { left } => write_number(KERNEL, *left as u64, DUE, err),
        Ending::OutOfMemory => err.write(OUT_OF_MEMORY),
        Ending::Unreadable { fault } => write_fault(NETWORK_LINE, fault, err),
        Ending::TooLong { limit } => write_number(LIMIT, *limit, NEWLINE, err),
        Ending::OfRun { end } => write_run_text(end, err),
    }
}

// That of a run of a script.
fn write_run_text<E: Sink>(end: &RunEnd, err: &mut E) -> Result<(), Failed>
    ensures ok { OnOk result (Grows (E.held err.old) (E.held err.new) (text_of_run end.now)) }
    ensures err { OnErr result
        (GrowsByFront (E.held err.old) (E.held err.new) (text_of_run end.now)) }
    ensures cause { HasCause (E.faults err.old) (E.faults err.new) result }
    ensures silent { run_status end.now ≡ 0 → err.new ≡ err.old }
{
    match end {
        RunEnd::Done | RunEnd::Refused => Ok(()),
        RunEnd::ReadFailed => err.write(READ_FAILED),
        RunEnd::WriteFailed => err.write(WRITE_FAILED),
        RunEnd::DiskFailed => err.write(DISK_FAILED),
        RunEnd::KernelFailed { left } => write_number(KERNEL, *left as u64, DUE, err),
        RunEnd::OutOfMemory => err.write(OUT_OF_MEMORY),
        RunEnd::Unreadable { package, fault } => write_fault(line_of(*package), fault, err),
        RunEnd::TooLong { limit } => write_number(LIMIT, *limit, NEWLINE, err),
        RunEnd::BadSnapshot { byte } => write_number(SNAPSHOT, *byte, NEWLINE, err),
    }
}

fn line_of(package: RowPackage) -> &'static [u8]
    ensures is { result.now ≡ spec.line_of «package» }
    ensures short { length result.now ≤ 32 }
{
    match package {
        RowPackage::Network => NETWORK_LINE,
        RowPackage::Wireless => WIRELESS_LINE,
    }
}

fn write_number<E: Sink>(
    before: &[u8],
    number: u64,
    after: &[u8],
    err: &mut E,
) -> Result<(), Failed>
    requires short { length before.now ≤ 32 }
    requires end { length after.now ≤ 16 }
    ensures ok { OnOk result
        (Grows (E.held err.old) (E.held err.new) (before.now ++ decimal number ++ after.now)) }
    ensures err { OnErr result
        (GrowsByFront (E.held err.old) (E.held err.new)
        (before.now ++ decimal number ++ after.now)) }
    ensures cause { HasCause (E.faults err.old) (E.faults err.new) result }
{
    let mut digits = Buffer::new();
    let mut text = [0u8; 80];
    let end = append_text(&mut text, 0, before);
    let end = append_text(&mut text, end, digits.format(number).as_bytes());
    let end = append_text(&mut text, end, after);
    err.write(&text[..end])
}

fn write_fault<E: Sink>(front: &[u8], fault: &Fault, err: &mut E) -> Result<(), Failed>
    requires short { length front.now ≤ 32 }
    ensures ok { OnOk result (Grows (E.held err.old) (E.held err.new)
        (spec.fault_text front.now fault.now)) }
    ensures err { OnErr result (GrowsByFront (E.held err.old) (E.held err.new)
        (spec.fault_text front.now fault.now)) }
    ensures cause { HasCause (E.faults err.old) (E.faults err.new) result }
{
    let mut digits = Buffer::new();
    let mut text = [0u8; 80];
    let end = append_text(&mut text, 0, front);
    let end = append_text(&mut text, end, digits.format(fault.line).as_bytes());
    let end = append_text(&mut text, end, COLON);
    let end = append_text(&mut text, end, fault.reason.text());
    let end = append_text(&mut text, end, NEWLINE);
    err.write(&text[..end])
}
