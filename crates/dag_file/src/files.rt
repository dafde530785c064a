//! A file of many versions that is kept, with its bytes.
ghost use Rattle.std.specs.Prelude.{◌≡◌, ◌-◌, IfOk, IfErr};
ghost use Rattle.dag_file.specs.Rules.{IsDagFile};
ghost use Rattle.dag_file.specs.Reads.{IsOpened, SaysFault};

use crate::faults::DagFault;
use crate::reading::Parts;
use crate::views::DagView;
use std::alloc::Global;
use std::marker::Model;

/// A DAG file that keeps all rules, with its bytes. It was read once, and is viewed without being
/// read again.
#[derive(Drop)]
pub struct DagFile {
    bytes: Vec<u8>,
    parts: Parts,
}

impl Model for DagFile {
    ghost use Rattle.dag_file.specs.Reads.{IsOpened};
    ghost use Rattle.dag_file.specs.Trees.{Opened};

    ghost Value = { Opened };

    ghost view = { λ f. record { bytes = f.bytes.items; side = f.parts.side } };

    ghost invariant = { λ f. IsOpened f.bytes.items f.parts.side f.parts.versions f.parts.starts };
}

impl DagFile {
    /// The file of these bytes, or its first fault.
    pub fn read(alloc: Global, bytes: Vec<u8>) -> Result<DagFile, DagFault>
        ensures file { IfOk result (λ f. IsDagFile f.bytes (f.side - 1)) }
        ensures bytes { IfOk result (λ f. f.bytes ≡ bytes.items) }
        ensures fault { IfErr result (SaysFault bytes.items) }
    {
        let parts = match parts_of(alloc, bytes.as_slice()) {
            Ok(parts) => parts,
            Err(fault) => return Err(fault),
        };
        Ok(DagFile { bytes, parts })
    }

    /// The file as it lies.
    pub fn view(&self) -> DagView<'_>
        ensures { result ≡ self.now }
    {
        DagView {
            bytes: self.bytes.as_slice(),
            parts: self.parts,
        }
    }
}

// Where the parts of a file stand that keeps all rules, or its first fault.
fn parts_of(alloc: Global, bytes: &[u8]) -> Result<Parts, DagFault>
    ensures opened { IfOk result
        (λ p. IsOpened bytes.now p.side p.versions p.starts) }
    ensures fault { IfErr result (SaysFault bytes.now) }
{
    match DagView::read(alloc, bytes) {
        Ok(view) => {
            let DagView { bytes: _, parts } = view;
            Ok(parts)
        }
        Err(fault) => Err(fault),
    }
}
