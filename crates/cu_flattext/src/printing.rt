//! The printing of a module.
ghost use Rattle.std.specs.Prelude.{◌≡◌, ◌++◌, IfOk, OnErr, OnOk, map, slice_get};
ghost use Rattle.cu_kernel.specs.KernelOf.{module_meaning, type_meaning};
ghost use Rattle.cu_flattext.specs.Inside.LineTasks.{all_left, lines_left, module_lines};
ghost use Rattle.cu_flattext.specs.Inside.Stands.{lowered_of};
ghost use Rattle.cu_flattext.specs.Text.{declared_types, imports_of, lowered, module_text, operators_of, place_of, text_of_module};
ghost use Rattle.cu_flattext.specs.Written.{Adds, AddsPrefix, HasCause};

use crate::expressions::Expressions;
use crate::fault::PrintFault;
use crate::inferred::InferredType;
use crate::line::Line;
use crate::module_text::ModuleText;
use crate::page::Page;
use crate::types::Types;
use crate::wording::Wording;
use crate::writer::{Writer, write_all};
use cu_flat::FlatProgram;
use cu_io::Sink;
use cu_kernel::{DataType, ModuleInfo, Operator, Program};
use cu_names::{NameId, Names};
use cu_types::Interface;
use std::alloc::{AllocError, Global};

/// How many types are built in. These have no lines.
const BUILT_IN: usize = 18;

/// Writes the FlatCurry text of a module. The kernel program is the one that
/// was lowered to the flat program: it has the modules, types, operators and
/// the names and marks of the functions, the flat program has their rules, and
/// the interface has their types. A function for which the interface lacks a
/// type has a type variable for it. The text goes out in pieces of some 4,096
/// bytes.
pub fn print<S: Sink>(
    alloc: Global,
    name: NameId,
    kernel: &Program,
    program: &FlatProgram,
    interface: &Interface,
    names: &Names,
    sink: &mut S,
) -> Result<(), PrintFault>
    ensures whole { OnOk result (Adds (S.written sink.old) (S.written sink.new)
        (text_of_module (lowered names.now kernel.now interface.now program.now) name)) }
    ensures prefix { OnErr result (AddsPrefix (S.written sink.old) (S.written sink.new)
        (text_of_module (lowered names.now kernel.now interface.now program.now) name)) }
    ensures cause { HasCause result (S.fault_count sink.old) (S.fault_count sink.new) }
{
    let wording = Wording {
        names,
        kernel,
        interface,
        flat: program,
    };
    match begin(alloc, wording, name) {
        Ok(begun) => finish(begun, sink),
        Err(AllocError) => Err(PrintFault::NoMemory),
    }
}

/// A text of which a part is written.
#[derive(Drop)]
struct Begun<'p> {
    page: Page,
    writer: Writer<'p>,
}

/// Writes what is left of a text.
fn finish<S: Sink>(begun: Begun<'_>, sink: &mut S) -> Result<(), PrintFault>
    ensures whole { OnOk result (Adds (S.written sink.old) (S.written sink.new)
        (begun.entry.page.text.items ++ all_left begun.entry.writer)) }
    ensures prefix { OnErr result (AddsPrefix (S.written sink.old) (S.written sink.new)
        (begun.entry.page.text.items ++ all_left begun.entry.writer)) }
    ensures cause { HasCause result (S.fault_count sink.old) (S.fault_count sink.new) }
{
    let Begun {
        mut page,
        mut writer,
    } = begun;
    write_all(&mut writer, &mut page, sink)
}

/// Begins the text of the module of a name.
fn begin(alloc: Global, wording: Wording<'_>, name: NameId) -> Result<Begun<'_>, AllocError>
    ensures { IfOk result (λ begun. begun.page.text.items ++ all_left begun.writer
        ≡ text_of_module (lowered_of wording.entry) name) }
{
    let place = place_of(wording.kernel.modules(), name);
    let Ok(module) = u32::try_from(place) else {
        return Err(AllocError);
    };
    begin_at(alloc, wording, module)
}

/// Begins the text of the module with an index.
fn begin_at(alloc: Global, wording: Wording<'_>, place: u32) -> Result<Begun<'_>, AllocError>
    ensures { IfOk result (λ begun. begun.page.text.items ++ all_left begun.writer
        ≡ module_text (lowered_of wording.entry) place) }
{
    let mut page = Page::with_room(alloc)?;
    page.push_str("Prog ")?;
    page.push_quoted(wording.module_name(place))?;
    page.push_str(" [")?;
    let lines = lines_of(alloc, wording, place)?;
    let writer = Writer {
        expressions: Expressions::none(alloc, wording),
        types: Types::none(alloc, wording),
        inferred: InferredType::none(alloc, wording),
        lines,
    };
    Ok(Begun { page, writer })
}

/// The parts of the text of the module with an index: its imports, types,
/// functions and operators.
fn lines_of(alloc: Global, wording: Wording<'_>, place: u32) -> Result<ModuleText<'_>, AllocError>
    ensures { IfOk result (λ made. lines_left made
        ≡ module_lines (lowered_of wording.entry) place) }
{
    let mut lines = Vec::new(alloc);
    lines.push(Line::Text("]\n"))?;
    lines.push(Line::Operators(operators(wording.kernel, place), false))?;
    lines.push(Line::Text("] ["))?;
    lines.push(Line::Functions(0, false))?;
    lines.push(Line::Text("] ["))?;
    lines.push(Line::DataTypes(declared_types(wording.kernel), false))?;
    lines.push(Line::Text("] ["))?;
    lines.push(Line::Imports(imports(wording.kernel, place), false))?;
    Ok(ModuleText {
        alloc,
        wording,
        module: place,
        lines,
    })
}

/// The names of the modules that the module with an index imports.
fn imports(kernel: &Program, place: u32) -> &[NameId]
    ensures { result.now ≡ imports_of (slice_get kernel.now.modules place) }
{
    match kernel.modules().get(place as usize) {
        Some(info) => info.imports.as_slice(),
        None => &[],
    }
}

/// The operators of the module with an index.
fn operators(kernel: &Program, place: u32) -> &[Operator]
    ensures { result.now ≡ operators_of (slice_get kernel.now.modules place) }
{
    match kernel.modules().get(place as usize) {
        Some(info) => info.operators.as_slice(),
        None => &[],
    }
}

/// The data types but for those that are built in.
fn declared_types(kernel: &Program) -> &[DataType]
    ensures { map type_meaning result.now ≡ declared_types kernel.now }
{
    let types = kernel.types();
    if types.len() < BUILT_IN {
        return &[];
    }
    &types[BUILT_IN..]
}

/// The index of the first module of a name, or how many modules there are.
fn place_of(modules: &[ModuleInfo], name: NameId) -> usize
    ensures { result ≡ place_of name (map module_meaning modules.now) }
{
    for (place, module) in modules.iter().enumerate() {
        if module.name == name {
            return place;
        }
    }
    modules.len()
}
