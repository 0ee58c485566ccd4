//! The transfer in progress (ANSI X3.9-1978, 12.8).

ghost use Rattle.std.specs.Prelude.{◌≡◌};
ghost use Rattle.unit_library.specs.Transfers.{behind_items, behind_start, type_of};

use crate::formatted_in_progress::{
    FormattedInProgress, InputInProgress, InternalInProgress, InternalInputInProgress,
};
use crate::functions::TransferType;
use internal_input::InternalInput;
use internal_output::InternalOutput;
use listed_input::ListedInput;
use listed_output::{ListedOutput, Passage, Start};
use unit_answers::CallEnd;

/// A transfer that is in progress.
#[derive(Clone, Copy)]
pub(crate) enum TransferInProgress {
    /// List-directed output on a unit.
    ListedOutput(ListedOutput),
    /// List-directed input on a unit.
    ListedInput(ListedInput),
    /// List-directed output on an internal file.
    InternalOutput(InternalOutput),
    /// List-directed input on an internal file.
    InternalInput(InternalInput),
    /// Formatted output on a unit.
    FormattedOutput(FormattedInProgress),
    /// Formatted input on a unit.
    FormattedInput(InputInProgress),
    /// Formatted output on an internal file.
    InternalFormatted(InternalInProgress),
    /// Formatted input on an internal file.
    InternalFormattedInput(InternalInputInProgress),
}

/// What a transfer in progress is.
pub(crate) fn type_of(going: TransferInProgress) -> TransferType
    ensures { result ≡ type_of going }
{
    match going {
        TransferInProgress::ListedOutput(_) => TransferType::ListedOutput,
        TransferInProgress::ListedInput(_) => TransferType::ListedInput,
        TransferInProgress::InternalOutput(_) => TransferType::InternalListedOutput,
        TransferInProgress::InternalInput(_) => TransferType::InternalListedInput,
        TransferInProgress::FormattedOutput(_) => TransferType::FormattedOutput,
        TransferInProgress::FormattedInput(_) => TransferType::FormattedInput,
        TransferInProgress::InternalFormatted(_) => TransferType::InternalFormattedOutput,
        TransferInProgress::InternalFormattedInput(_) => TransferType::InternalFormattedInput,
    }
}

/// The transfer in progress behind a start.
pub(crate) fn behind_start(start: Result<Start, CallEnd>) -> Option<TransferInProgress>
    ensures { result ≡ behind_start start }
{
    match start {
        Ok(Start::Begins(output)) => Some(TransferInProgress::ListedOutput(output)),
        _ => None,
    }
}

/// The transfer in progress behind items. It stays as it was where these have a fault.
pub(crate) fn behind_items(
    passage: Result<Passage, CallEnd>,
    before: TransferInProgress,
    after: TransferInProgress,
) -> Option<TransferInProgress>
    ensures { result ≡ behind_items passage before after }
{
    match passage {
        Ok(Passage::GoesOn) => Some(after),
        Err(CallEnd::Fault(_)) => Some(before),
        _ => None,
    }
}
