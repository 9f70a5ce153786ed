//! Lines with room for so many, kept in their order.

ghost use Rattle.std.specs.Prelude.{◌≡◌, [], IfOk};
ghost use Rattle.arc_served.specs.Kept.{with_line};

use arc_model::Memory;
use arc_script::Line;
use std::alloc::Global;
use std::marker::Model;

/// Lines with room for so many, reserved at the start.
#[derive(Debug, Drop)]
pub struct Lines {
    kept: Vec<Line>,
    room: usize,
}

impl Model for Lines {
    ghost use Rattle.std.specs.Prelude.{◌≤◌, vec_capacity};
    ghost use Rattle.arc_served.specs.Kept.{Kept};

    ghost Value = { Kept };

    ghost view = { λ l. record { lines = l.kept.items; room = l.room } };

    ghost invariant = { λ l. l.room ≤ vec_capacity l.kept };
}

impl Lines {
    /// No lines yet, with room for so many.
    pub fn make(alloc: Global, room: usize) -> Result<Lines, Memory>
        ensures { IfOk result (λ l. l ≡ record { lines = []; room = room }) }
    {
        let kept = Vec::with_capacity(alloc, room)?;
        Ok(Lines { kept, room })
    }

    /// Keeps the line where there is room. Takes no memory.
    pub fn put(&mut self, line: Line)
        ensures { self.new ≡ with_line line self.old }
    {
        if self.kept.len() < self.room {
            let _ = self.kept.push(line);
        }
    }

    /// The lines, in their order.
    pub fn as_slice(&self) -> &[Line]
        ensures { result.now ≡ self.now.lines }
    {
        self.kept.as_slice()
    }
}
