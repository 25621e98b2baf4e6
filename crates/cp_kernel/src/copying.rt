//! Kernels with the same content, and an empty kernel.

ghost use Rattle.std.specs.Prelude.{◌≡◌, IfOk, length, map};
ghost use Rattle.cp_private.specs.States as states;
ghost use Rattle.cp_kernel.specs.KernelOf.{Bytes, kernel_of, transcripts_of};

use crate::kernel::Kernel;
use crate::starting::empty_transcripts;
use cp_private::kernel_view::Gate;
use std::alloc::{AllocError, Global};

fn copy_gates(alloc: Global, gates: &[Gate]) -> Result<Vec<Gate>, AllocError>
    ensures { IfOk result (λ all. map states.gate all.items ≡ map states.gate gates.now) }
{
    let mut all = Vec::with_capacity(alloc, gates.len())?;
    for gate in gates {
        let askers = Vec::from_slice(alloc, &gate.askers)?;
        all.push(Gate {
            holder: gate.holder,
            askers,
        })?;
    }
    Ok(all)
}

fn copy_transcripts(alloc: Global, transcripts: &[Vec<u8>]) -> Result<Vec<Vec<u8>>, AllocError>
    ensures { IfOk result (λ all. map (λ (v : Bytes). v.items) all.items
        ≡ map (λ (v : Bytes). v.items) transcripts.now) }
{
    let mut all = Vec::with_capacity(alloc, transcripts.len())?;
    for transcript in transcripts {
        let bytes = Vec::from_slice(alloc, transcript)?;
        all.push(bytes)?;
    }
    Ok(all)
}

impl Kernel {
    /// A kernel with the same content, but without transcripts.
    ///
    /// # Errors
    ///
    /// `AllocError` if memory runs out.
    pub fn copy_without_transcripts(&self, alloc: Global) -> Result<Kernel, AllocError>
        ensures { IfOk result (λ k. kernel_of k ≡ kernel_of self.now) }
    {
        Ok(Kernel {
            shared: Vec::from_slice(alloc, &self.shared)?,
            gates: copy_gates(alloc, &self.gates)?,
            stages: Vec::from_slice(alloc, &self.stages)?,
            transcripts: empty_transcripts(alloc, self.stages.len())?,
            may_have_fresh: true,
        })
    }

    /// A kernel with the same content.
    ///
    /// # Errors
    ///
    /// `AllocError` if memory runs out.
    pub fn copy(&self, alloc: Global) -> Result<Kernel, AllocError>
        ensures same { IfOk result (λ k. kernel_of k ≡ kernel_of self.now) }
        ensures transcripts { IfOk result (λ k. transcripts_of k ≡ transcripts_of self.now) }
    {
        Ok(Kernel {
            shared: Vec::from_slice(alloc, &self.shared)?,
            gates: copy_gates(alloc, &self.gates)?,
            stages: Vec::from_slice(alloc, &self.stages)?,
            transcripts: copy_transcripts(alloc, &self.transcripts)?,
            may_have_fresh: true,
        })
    }

    /// The kernel of no program. It takes no memory.
    pub fn empty(alloc: Global) -> Kernel
        ensures stages { length result.stages.items ≡ 0 }
    {
        Kernel {
            shared: Vec::new(alloc),
            gates: Vec::new(alloc),
            stages: Vec::new(alloc),
            transcripts: Vec::new(alloc),
            may_have_fresh: true,
        }
    }
}
