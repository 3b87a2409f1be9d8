//! The layout for people.

ghost use Rattle.report.specs.{Report.IsReport};

use crate::rendering::render;
use d_types::TypedScript;
use replay_core::{Layout, Whole};
use std::alloc::{AllocError, Global};
use std::thread::Threads;

/// The layout for people: texts, and then aggregations in columns.
#[derive(Clone, Copy)]
pub struct Report;

impl Layout for Report {
    ghost shows = { IsReport };

    fn render<R: Threads + Sync>(
        &self,
        rt: &R,
        alloc: Global,
        script: &TypedScript,
        whole: &Whole,
    ) -> Result<Vec<u8>, AllocError> {
        render(rt, alloc, script, whole)
    }
}
