ghost use Rattle.std.specs.Prelude.{◌≡◌, ◌*◌, ◌≤◌, length};
ghost use Rattle.std.specs.List.{AllByRecursion};
ghost use Rattle.mesh_gen.specs.Limits.{AreTiles};
ghost use Rattle.doc_text.specs.Limits.{ArePosts};

use core_isa::Program;
use mesh_gen::{Image, Items, Mesh, Tiles};

/// Programs, one for each tile.
pub type Programs = Items<Program>;

/// What is posted: for each window, the tiles that post in it.
pub type Posts = Items<Tiles>;

/// A document that keeps to every limit.
#[derive(Debug, Drop)]
pub struct Document {
    pub mesh: Mesh,
    /// The words of memory before the first step.
    pub memory: Image,
    /// The program of each tile; a tile of which nothing is said has the empty one.
    pub programs: Programs,
    pub posts: Posts,
    ghost memory_limit: { length memory ≡ 4 * mesh.lines },
    ghost programs_limit: { length programs ≡ mesh.cols * mesh.rows },
    ghost posts_limit: { ∥ ArePosts (mesh.cols * mesh.rows) posts ∥₁ },
}

impl Document {
    /// What is posted, window by window.
    pub fn windows(&self) -> &[Tiles]
        ensures windows { result.now ≡ self.now.posts }
        ensures few { length self.now.posts ≤ 4096 }
        ensures each { AllByRecursion
            (AreTiles (self.now.mesh.cols * self.now.mesh.rows)) self.now.posts }
    {
        self.posts.as_slice()
    }
}
