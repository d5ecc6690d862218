//! Why a run of the program fails.
ghost use Rattle.std.specs.Prelude.{◌≡◌};
ghost use Rattle.lc_cli.specs.Fault.{IsCutShort, code_of};
ghost use Rattle.lc_chart.specs.declared.fault.ChartFault.TheVariants.{Shared};
ghost use Rattle.lc_chart.specs.Fault.{chart_status};

use lc_cli::{Fault, Status};
use std::alloc::{AllocError, AllocFailed};
use std::io;
use std::io::Write;
use thiserror::Error;

/// Why no picture is drawn, or one that ends early. What is displayed is the line on standard error,
/// without the program's name.
#[derive(Clone, Copy, Debug, PartialEq, Eq, Error)]
pub enum ChartFault {
    #[error("usage: lcmux_chart CAPACITY [2], lcmux_chart frames")]
    Usage,
    #[error("more than 2000 events")]
    TooManyEvents,
    /// A fault that `lcmux` has too.
    #[error("{0}")]
    Shared(Fault),
}

impl ChartFault {
    /// How a run with this fault ends.
    pub fn status(self) -> Status
        ensures { result ≡ chart_status self }
    {
        match self {
            ChartFault::Usage | ChartFault::TooManyEvents => Status::Bad,
            ChartFault::Shared(fault) => fault.status(),
        }
    }

    /// Writes the fault's line, which a broken pipe does not have, and answers the number of its status.
    /// A line that cannot be written changes no status.
    pub fn report<E: Write>(self, err: &mut E) -> u8
        ensures { result ≡ code_of (chart_status self) }
    {
        if self != ChartFault::Shared(Fault::BrokenPipe) {
            let _ = writeln!(err, "lcmux_chart: {self}");
        }
        self.status().code()
    }

    // Why a picture was not written to its end.
    pub(crate) fn of_write(error: io::Error) -> ChartFault
        ensures { IsCutShort (chart_status result) }
    {
        ChartFault::Shared(Fault::of_write(error))
    }
}

impl From<Fault> for ChartFault {
    ghost from_gives = { λ fault chart. chart ≡ Shared fault };

    fn from(fault: Fault) -> ChartFault {
        ChartFault::Shared(fault)
    }
}

impl From<AllocError> for ChartFault {
    fn from(_error: AllocError) -> ChartFault {
        ChartFault::Shared(Fault::OutOfMemory)
    }
}

impl<T: Drop> From<AllocFailed<T>> for ChartFault {
    fn from(_error: AllocFailed<T>) -> ChartFault {
        ChartFault::Shared(Fault::OutOfMemory)
    }
}
