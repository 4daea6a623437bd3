use doc_text::Document;
use mesh_gen::{Mesh, NoMemory};
use std::alloc::Global;
use std::marker::Model;

/// What a machine keeps beside its fabric and its stations: the document, and room for the report. Contracts see the
/// document.
#[derive(Drop)]
pub struct Rest {
    pub(crate) document: Document,
    // Its room is reserved, for one number a tile.
    pub(crate) steps: Vec<u64>,
}

impl Model for Rest {
    ghost use Rattle.std.specs.Prelude.{◌≤◌, ◌*◌};
    ghost use Rattle.std.specs.Vec.{vec_capacity};
    ghost use Rattle.doc_text.specs.Doc.{Doc, doc_of};

    ghost Value = { Doc };

    ghost view = { λ rest. doc_of rest.document };

    ghost invariant = { λ rest. rest.document.mesh.cols * rest.document.mesh.rows
        ≤ vec_capacity rest.steps };
}

impl Rest {
    ghost use Rattle.std.specs.Prelude.{◌≡◌, ◌*◌, ◌≤◌, IfOk, vec_capacity};
    ghost use Rattle.doc_text.specs.Doc.{doc_of};
    ghost use Rattle.chip_model.specs.Chip.{chip_of, chip_of_mesh};

    pub(crate) fn open(alloc: Global, document: Document) -> Result<Rest, NoMemory>
        ensures { IfOk result (λ rest. rest ≡ doc_of document) }
    {
        let steps = Vec::with_capacity(alloc, usize::from(document.mesh.tiles()))?;
        Ok(Rest { document, steps })
    }

    /// The sizes of the chip.
    pub fn mesh(&self) -> &Mesh
        ensures { chip_of_mesh result.now ≡ chip_of self.now }
    {
        &self.document.mesh
    }

    pub(crate) fn into_parts(self) -> (Document, Vec<u64>)
        ensures document { doc_of result.0 ≡ self }
        ensures room { result.0.mesh.cols * result.0.mesh.rows ≤ vec_capacity result.1 }
    {
        let Rest { document, steps } = self;
        (document, steps)
    }
}
