//! The layouts of a program are made before it runs.
ghost use Rattle.std.specs.Prelude.{◌≡◌, ◌+◌, ◌==◌, ℕ, map, position, Some, false};
ghost use Rattle.pas_typed.specs.Shapes.{IsLawfulTable};
ghost use Rattle.pas_typed.specs.TypeViews.{counted};
ghost use Rattle.pas_typed.specs.TypedViews.{variable_view, program_view};
ghost use Rattle.pas_meaning.specs.Standing.{kind_of};
ghost use Rattle.pas_run.specs.inner.FlatStore.{cells_for};
ghost use Rattle.pas_run.specs.inner.Scenes.{IsLayout, AreLayouts};
ghost use Rattle.pas_run.specs.inner.Laying.{AreLaid, AreNumbers};
ghost use Rattle.pas_run.specs.inner.Doings.{is_port_failed};
ghost use Rattle.pas_run.specs.inner.Copying.{IsFound};

use crate::ends::Stop;
use crate::layouts::{Layout, Layouts};
use pas_typed::typed::{Mode, TypedProgram, Variable};
use sqlite_items::Items;
use std::alloc::Global;

// The layouts of a program, unless it has more cells than a machine.
pub(crate) fn layouts_of(alloc: Global, program: &TypedProgram) -> Result<Layouts, Stop>
    ensures found { IsLawfulTable (program_view program.now).types
        → IsFound (AreLayouts (program_view program.now)) result }
    ensures quiet { is_port_failed result ≡ false }
{
    let globals = layout_of(alloc, program, &program.globals)?;
    let bodies = body_layouts(alloc, program)?;
    let routines = body_numbers(alloc, program)?;
    Ok(Layouts {
        globals,
        bodies,
        routines,
    })
}

// The layouts of the bodies.
fn body_layouts(alloc: Global, program: &TypedProgram) -> Result<Items<Layout>, Stop>
    ensures found { IsLawfulTable (program_view program.now).types
        → IsFound (AreLaid (program_view program.now)) result }
    ensures quiet { is_port_failed result ≡ false }
{
    let mut layouts = Items::new(alloc);
    for body in program.bodies.as_slice() {
        let layout = layout_of(alloc, program, &body.variables)?;
        layouts.push(layout)?;
    }
    Ok(layouts)
}

// The number of the body of each routine.
fn body_numbers(alloc: Global, program: &TypedProgram) -> Result<Items<u32>, Stop>
    ensures found { IsFound (AreNumbers program.now) result }
    ensures quiet { is_port_failed result ≡ false }
{
    let mut numbers = Items::new(alloc);
    for routine in 0..program.headings.len() {
        let number = body_number(program, routine)?;
        numbers.push(number)?;
    }
    Ok(numbers)
}

// The number of the body of a routine.
fn body_number(program: &TypedProgram, routine: usize) -> Result<u32, Stop>
    ensures found { IsFound (λ number. position (λ body. body.routine == routine) program.now.bodies ≡ Some number)
        result }
    ensures quiet { is_port_failed result ≡ false }
{
    match position_of(program, routine) {
        Some(number) => count_of(number),
        None => Err(Stop::OutOfMemory),
    }
}

// The place of the body of a routine.
fn position_of(program: &TypedProgram, routine: usize) -> Option<usize>
    ensures { result ≡ position (λ body. body.routine == routine) program.now.bodies }
{
    program
        .bodies
        .as_slice()
        .iter()
        .position(|body| body.routine as usize == routine)
}

// A number that a machine has.
fn count_of(number: usize) -> Result<u32, Stop>
    ensures found { IsFound (λ count. count ≡ number) result }
    ensures quiet { is_port_failed result ≡ false }
{
    match u32::try_from(number) {
        Ok(count) => Ok(count),
        Err(_) => Err(Stop::OutOfMemory),
    }
}

// The layout of these variables.
fn layout_of(
    alloc: Global,
    program: &TypedProgram,
    variables: &Items<Variable>,
) -> Result<Layout, Stop>
    ensures found { IsLawfulTable (program_view program.now).types
        → IsFound (IsLayout (program_view program.now).types
        (map (variable_view program.now.spellings) variables.now)) result }
    ensures quiet { is_port_failed result ≡ false }
{
    let mut offsets = Items::new(alloc);
    let mut cells = 0u32;
    for variable in variables.as_slice() {
        offsets.push(cells)?;
        cells = with_more(cells, cells_of(program, variable))?;
    }
    Ok(Layout { offsets, cells })
}

// How many cells a variable has, or the greatest number of 64 bits where it has more.
fn cells_of(program: &TypedProgram, variable: &Variable) -> u64
    ensures { IsLawfulTable (program_view program.now).types
        → counted (cells_for (kind_of (program_view program.now).types
        (variable_view program.now.spellings variable.now))) ≡ result }
{
    match variable.mode {
        Mode::ByName => 1,
        Mode::Declared | Mode::ByValue => program.types.cells_of(variable.pas_type),
    }
}

// So many cells and more, unless that is more than a machine has.
pub(crate) fn with_more(cells: u32, more: u64) -> Result<u32, Stop>
    ensures found { (whole : ℕ) → counted whole ≡ more → IsFound (λ all. all ≡ cells + whole) result }
    ensures quiet { is_port_failed result ≡ false }
{
    match u32::try_from(u64::from(cells).saturating_add(more)) {
        Ok(all) => Ok(all),
        Err(_) => Err(Stop::OutOfMemory),
    }
}
