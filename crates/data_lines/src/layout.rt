//! The layout for other programs.

ghost use Rattle.data_lines.specs.{Layout.IsDataOf};

use crate::rendering::render;
use d_types::TypedScript;
use replay_core::{Layout, Whole};
use std::alloc::{AllocError, Global};
use std::thread::Threads;

/// The layout for other programs: JSON Lines.
#[derive(Clone, Copy)]
pub struct DataLines;

impl Layout for DataLines {
    ghost shows = { IsDataOf };

    fn render<R: Threads + Sync>(
        &self,
        _rt: &R,
        alloc: Global,
        script: &TypedScript,
        whole: &Whole,
    ) -> Result<Vec<u8>, AllocError> {
        render(alloc, script, whole)
    }
}
