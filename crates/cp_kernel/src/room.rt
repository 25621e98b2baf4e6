//! Room for what kernel turns add: askers of gates, and bytes of transcripts. The content stays as
//! it is.

ghost use Rattle.std.specs.Prelude.{◌≡◌, ◌≢◌, ◌-◌, ℕ, IfOk};
ghost use Rattle.cp_kernel.specs.KernelOf.{HasRoomForAskers, HasRoomForBytes, kernel_of, transcripts_of};

use crate::kernel::Kernel;
use std::alloc::AllocError;

impl Kernel {
    /// Reserves room for `count` more askers of each gate.
    ///
    /// # Errors
    ///
    /// `AllocError` if memory runs out.
    pub fn reserve_askers(&mut self, count: usize) -> Result<(), AllocError>
        ensures same { kernel_of self.new ≡ kernel_of self.old }
        ensures transcripts { self.new.transcripts ≡ self.old.transcripts }
        ensures room { IfOk result (λ _. HasRoomForAskers self.new count) }
    {
        for gate in self.gates.iter_mut() {
            gate.askers.reserve(count)?;
        }
        Ok(())
    }

    /// Reserves room for `count` more bytes in the transcript of process p.
    ///
    /// # Errors
    ///
    /// `AllocError` if memory runs out.
    pub fn reserve_bytes(&mut self, p: usize, count: usize) -> Result<(), AllocError>
        ensures same { kernel_of self.new ≡ kernel_of self.old }
        ensures gates { self.new.gates ≡ self.old.gates }
        ensures transcripts { transcripts_of self.new ≡ transcripts_of self.old }
        ensures room { IfOk result (λ _. HasRoomForBytes self.new p count) }
        ensures others { (q n : ℕ) → q - 1 ≢ p - 1 → HasRoomForBytes self.old q n
            → HasRoomForBytes self.new q n }
    {
        let Some(transcript) = self.transcripts.get_mut(p.saturating_sub(1)) else {
            return Ok(());
        };
        transcript.reserve(count)?;
        Ok(())
    }
}
