//! A machine over values.
ghost use Rattle.std.specs.Prelude.{◌≡◌, ℕ, Bool, List, [], Option, OnErr, OnOk};
ghost use Rattle.cue_machine.specs.Hearing.{Heard, heard_as};
ghost use Rattle.cue_machine.specs.Posting.{Given};
ghost use Rattle.cue_machine.specs.declared.post.Output.{Output};

use crate::ears::Input;
use crate::outputs::Outputs;
use crate::post::Output;
use std::alloc::AllocError;

/// A state that hears one thing after the other, and gives outputs for each. Moments are milliseconds, by the clock of
/// its ears.
pub trait Machine {
    /// Its law: of this state and what was heard it gives these outputs, and goes on to that state.
    ghost steps: { Self → Heard → List Given → Self → Type 0 };

    /// The state once it was told that an output as this one was lost.
    ghost after_loss: { Self → Output → Self };

    /// When it is to be woken at the latest, though nothing comes.
    ghost wakes: { Self → Option ℕ };

    /// It is over, and hears nothing more.
    ghost is_over: { Self → Bool };

    /// Hears this. If memory runs out it has not heard it.
    fn step(
        &mut self,
        now: u64,
        input: Input,
        bytes: &[u8],
        out: &mut Outputs,
    ) -> Result<(), AllocError>
        requires { out.old ≡ [] }
        ensures stepped { OnOk result (steps self.old (heard_as now input bytes.now) out.new self.new) }
        ensures err { OnErr result (self.new ≡ self.old) };

    /// An output as this one was lost.
    fn lose(&mut self, output: Output)
        ensures { self.new ≡ after_loss self.old output };

    /// When it is to be woken at the latest; none if only something that comes can matter.
    fn wakes(&self) -> Option<u64>
        ensures { result ≡ wakes self.now };

    /// Whether it is over.
    fn is_over(&self) -> bool
        ensures { result ≡ is_over self.now };
}
