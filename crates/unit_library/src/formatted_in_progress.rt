//! A formatted transfer in progress, with its format (ANSI X3.9-1978, 12.8 and 13).

ghost use Rattle.edit_rules.specs.Walks.{StandsIn};

use formatted_input::FormattedInput;
use formatted_output::FormattedOutput;
use internal_formatted::InternalFormatted;
use internal_formatted_input::InternalFormattedInput;

/// The bytes that a format may have.
pub(crate) const FORMAT_BYTES: usize = 2048;

/// A formatted output on a unit that is in progress, with the bytes at whose front its format stands, and in which the output stands.
#[derive(Clone, Copy)]
pub(crate) struct FormattedInProgress {
    pub(crate) output: FormattedOutput,
    pub(crate) format: [u8; FORMAT_BYTES],
    ghost stands: { ∥ StandsIn output.walk format ∥₁ },
}

impl FormattedInProgress {
    /// The output stands in its format: a law. The field says only that this has a proof, which the proof by hand opens.
    pub(crate) fn stands(self)
        ensures { StandsIn self.output.walk self.format }
    {}
}

/// A formatted output on an internal file that is in progress, with the bytes at whose front its format stands, and in which the output
/// stands.
#[derive(Clone, Copy)]
pub(crate) struct InternalInProgress {
    pub(crate) output: InternalFormatted,
    pub(crate) format: [u8; FORMAT_BYTES],
    ghost stands: { ∥ StandsIn output.walk format ∥₁ },
}

impl InternalInProgress {
    /// The output stands in its format: a law. The field says only that this has a proof, which the proof by hand opens.
    pub(crate) fn stands(self)
        ensures { StandsIn self.output.walk self.format }
    {}
}

/// A formatted input on a unit that is in progress, with the bytes at whose front its format stands, and in which the input stands.
#[derive(Clone, Copy)]
pub(crate) struct InputInProgress {
    pub(crate) input: FormattedInput,
    pub(crate) format: [u8; FORMAT_BYTES],
    ghost stands: { ∥ StandsIn input.walk format ∥₁ },
}

impl InputInProgress {
    /// The input stands in its format: a law. The field says only that this has a proof, which the proof by hand opens.
    pub(crate) fn stands(self)
        ensures { StandsIn self.input.walk self.format }
    {}
}

/// A formatted input on an internal file that is in progress, with the bytes at whose front its format stands, and in which the input
/// stands.
#[derive(Clone, Copy)]
pub(crate) struct InternalInputInProgress {
    pub(crate) input: InternalFormattedInput,
    pub(crate) format: [u8; FORMAT_BYTES],
    ghost stands: { ∥ StandsIn input.walk format ∥₁ },
}

impl InternalInputInProgress {
    /// The input stands in its format: a law. The field says only that this has a proof, which the proof by hand opens.
    pub(crate) fn stands(self)
        ensures { StandsIn self.input.walk self.format }
    {}
}
