ghost use Rattle.std.specs.Prelude.{◌≡◌, [], IfOk, Some, None};
ghost use Rattle.uci_cli.specs.Refusal.{text_of};
ghost use Rattle.uci_tool.specs.Line as line;

use crate::texts::Printed;
use plane_io::{Memory, Text};
use std::alloc::Global;
use uci_cli::Refusal;

/// What a command prints, what it tells on the error output, and why it was refused, or the first
/// of its lines that was.
#[derive(Drop)]
pub struct Report {
    pub output: Text,
    pub told: Text,
    pub refusal: Option<Refusal>,
}

impl Report {
    /// A command that prints this text.
    pub fn done(alloc: Global, output: Text) -> Report
        ensures { result ≡ record { output = output; told = []; refusal = None } }
    {
        Report {
            output,
            told: Text::from_vec(Vec::new(alloc)),
            refusal: None,
        }
    }

    /// A command that is refused.
    pub fn refused(alloc: Global, refusal: Refusal) -> Result<Report, Memory>
        ensures { IfOk result (λ report. report
            ≡ record { output = []; told = text_of refusal; refusal = Some refusal }) }
    {
        let mut told = Vec::new(alloc);
        refusal.tell(&mut told)?;
        Ok(Report {
            output: Text::from_vec(Vec::new(alloc)),
            told: Text::from_vec(told),
            refusal: Some(refusal),
        })
    }

    /// One that printed, perhaps up to a refusal.
    pub fn of_printed(alloc: Global, printed: Printed) -> Result<Report, Memory>
        ensures { IfOk result (λ report. report ≡ record {
          output = printed.output;
          told = line.told_of printed.refusal;
          refusal = printed.refusal;
        }) }
    {
        let Printed { output, refusal } = printed;
        let mut told = Vec::new(alloc);
        if let Some(refusal) = refusal {
            refusal.tell(&mut told)?;
        }
        Ok(Report {
            output,
            told: Text::from_vec(told),
            refusal,
        })
    }

    /// One that changed packages, perhaps up to a refusal.
    pub fn of_changed(alloc: Global, refusal: Option<Refusal>) -> Result<Report, Memory>
        ensures { IfOk result (λ report. report ≡ record {
          output = [];
          told = line.told_of refusal;
          refusal = refusal;
        }) }
    {
        let output = Text::from_vec(Vec::new(alloc));
        Report::of_printed(alloc, Printed { output, refusal })
    }
}
