//! The display of values.
ghost use Rattle.std.specs.Prelude.{◌≡◌, ◌++◌, OnErr, OnOk};
ghost use Rattle.std.specs.String.{string_bytes};
ghost use Rattle.cu_values.specs.Cells.{read, IsOneSpelled};
ghost use Rattle.cu_values.specs.Display.{display};
ghost use Rattle.cu_values.specs.Inside.LabelsOf.{labels_meaning};
ghost use Rattle.cu_values.specs.Inside.Layouts.{IsShaped};
ghost use Rattle.cu_values.specs.ProgramLabels.{labels_of};

use crate::Value;
use crate::labels::ProgramNames;
use crate::layout::Layout;
use crate::shape::{Shape, find_shapes};
use crate::task::{Pen, Task};
use cu_kernel::Program;
use cu_names::Names;
use std::alloc::{AllocError, Global};

/// The length in bytes of the lines for which [`Workspace::with_room`] takes
/// room.
const LINE: usize = 4096;

/// The cells for which room is taken. A value that a line displays has at most
/// two for each byte of the line, as a string has, where it is ground data or
/// has variables, and names aren't empty.
const CELLS: usize = 2 * LINE;

/// The tasks for which room is taken. Each cell leaves at most three.
const TASKS: usize = 3 * CELLS + 1;

/// The memory that displaying a value takes, kept from one value to the next.
#[derive(Drop)]
pub struct Workspace {
    pen: Pen,
    shapes: Vec<Shape>,
    after: Vec<Shape>,
}

/// Appends the display of a value to a text in UTF-8, by the names that a
/// program gives its constructors and functions. A name that the table lacks is
/// shown as nothing, and so is Bottom. The one error is an allocation failure,
/// and the text is then as it was.
pub fn show(
    alloc: Global,
    value: &Value,
    program: &Program,
    names: &Names,
    out: &mut Vec<u8>,
) -> Result<(), AllocError>
    ensures ok { OnOk result (out.new.items
        ≡ out.old.items ++ display (labels_of names.now program.now) value.now) }
    ensures err { OnErr result (out.new.items ≡ out.old.items) }
{
    Workspace::new(alloc).show(value, program, names, out)
}

/// Displays the value of a layout.
fn write(layout: &Layout, pen: &mut Pen) -> Result<(), AllocError>
    requires one { IsOneSpelled layout.now.cells.now }
    requires shapes { IsShaped layout.now }
    ensures { OnOk result (string_bytes pen.new.text
        ≡ display (labels_meaning layout.now.names.now) (read layout.now.cells.now)) }
{
    pen.text.clear();
    pen.tasks.clear();
    pen.tasks.push(Task::Alone)?;
    let mut at = 0;
    while let Some(task) = pen.tasks.pop() {
        at = layout.step(at, task, pen)?;
    }
    Ok(())
}

impl Workspace {
    ghost use Rattle.std.specs.Prelude.{◌≡◌, ◌++◌, OnErr, OnOk};
    ghost use Rattle.std.specs.String.{string_bytes};
    ghost use Rattle.cu_values.specs.Display.{display};
    ghost use Rattle.cu_values.specs.Inside.LabelsOf.{labels_meaning};
    ghost use Rattle.cu_values.specs.ProgramLabels.{labels_of};

    /// A workspace that has taken no memory yet.
    pub fn new(alloc: Global) -> Workspace {
        Workspace {
            pen: Pen {
                tasks: Vec::new(alloc),
                text: String::new(alloc),
            },
            shapes: Vec::new(alloc),
            after: Vec::new(alloc),
        }
    }

    /// A workspace with room for lines of 4,096 bytes: displaying a value in at
    /// most so many takes no memory, if there is room in the text that it is
    /// appended to. A partial application in the value counts with the cells of
    /// its arguments, which aren't shown. The one error is an allocation
    /// failure.
    pub fn with_room(alloc: Global) -> Result<Workspace, AllocError> {
        let mut workspace = Workspace::new(alloc);
        workspace.pen.text.reserve(LINE)?;
        workspace.pen.tasks.reserve(TASKS)?;
        workspace.shapes.reserve(CELLS)?;
        workspace.after.reserve(CELLS)?;
        Ok(workspace)
    }

    /// Appends the display of a value to a text, as [`show`] does, and takes no
    /// memory where the value and its display are no longer than those before,
    /// and the text has the room. The one error is an allocation failure, and
    /// the text is then as it was.
    pub fn show(
        &mut self,
        value: &Value,
        program: &Program,
        names: &Names,
        out: &mut Vec<u8>,
    ) -> Result<(), AllocError>
        ensures ok { OnOk result (out.new.items
            ≡ out.old.items ++ display (labels_of names.now program.now) value.now) }
        ensures err { OnErr result (out.new.items ≡ out.old.items) }
    {
        let names = ProgramNames { names, program };
        self.display(value, &names)?;
        out.extend_from_slice(self.pen.text.as_bytes())
    }

    /// Makes the text the display of a value.
    fn display(&mut self, value: &Value, names: &ProgramNames) -> Result<(), AllocError>
        ensures { OnOk result (string_bytes self.new.pen.text
            ≡ display (labels_meaning names.now) value.now) }
    {
        let cells = value.cells();
        find_shapes(names, cells, &mut self.shapes, &mut self.after)?;
        let layout = Layout {
            names,
            cells,
            shapes: self.shapes.as_slice(),
        };
        write(&layout, &mut self.pen)
    }
}
