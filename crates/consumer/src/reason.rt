//! Why there is no answer, and where.

ghost use Rattle.std.specs.Prelude.{◌≤◌, length};
ghost use Rattle.consumer.specs.declared.reason.TheConstants.{MAX_REASON};

/// Where a fault is.
#[derive(Clone, Copy)]
pub enum Place {
    /// No place is reported.
    Nowhere,
    /// On this line of the script.
    Line(usize),
    /// In this row of the trace.
    Row(u32),
    /// In a field of the trace.
    Field { row: u32, column: u32 },
    /// At a thread of the plan's lists.
    Thread(i32),
}

/// The most bytes of a reason's text.
pub const MAX_REASON: usize = 40;

/// Why there is no answer, and where.
#[derive(Clone, Copy)]
pub struct Reason {
    pub text: &'static str,
    pub place: Place,
    ghost short: { length text.now ≤ MAX_REASON },
}
