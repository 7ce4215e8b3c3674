//! A run at its start: the cells of the globals.
ghost use Rattle.std.specs.Prelude.{◌≡◌, ◌==◌, ◌++◌, ◌∷◌, [], List, position, pos, replicate, false};
ghost use Rattle.pas_typed.specs.Shapes.{IsLawfulTable};
ghost use Rattle.pas_typed.specs.TypedViews.{variable_view, program_view};
ghost use Rattle.pas_meaning.specs.Trial.{global_cell, cells_from};
ghost use Rattle.pas_meaning.specs.Standing.{Kinds};
ghost use Rattle.pas_run.specs.declared.cells.Cell.TheVariants as cell;
ghost use Rattle.pas_run.specs.inner.FlatStore.{flat_cell, flat_row};
ghost use Rattle.pas_run.specs.inner.Doings.{is_port_failed};
ghost use Rattle.pas_run.specs.inner.Copying.{IsFound};

use crate::calls::with_blanks;
use crate::cells::Cell;
use crate::ends::Stop;
use crate::laying::with_more;
use pas_typed::typed::{TypedProgram, Variable};
use std::alloc::Global;

// The cells of the globals at the start: a file variable holds the number of its file.
pub(crate) fn global_cells(alloc: Global, program: &TypedProgram) -> Result<Vec<Cell>, Stop>
    ensures found { IsLawfulTable (program_view program.now).types → (kinds : Kinds)
        → IsFound (λ found. found.items ≡ flat_row kinds
        (cells_from (program_view program.now) 0 (program_view program.now).globals)) result }
    ensures quiet { is_port_failed result ≡ false }
{
    let mut cells = Vec::new(alloc);
    for number in 0..program.globals.len() {
        let Some(variable) = program.globals.get(number) else {
            return Err(Stop::OutOfMemory);
        };
        cells = with_global(program, number, variable, cells)?;
    }
    Ok(cells)
}

// Cells, and behind them those of the global of this number.
fn with_global(
    program: &TypedProgram,
    number: usize,
    variable: &Variable,
    cells: Vec<Cell>,
) -> Result<Vec<Cell>, Stop>
    ensures found { IsLawfulTable (program_view program.now).types → (kinds : Kinds)
        → IsFound (λ found. found.items ≡ cells.items ++ flat_cell kinds (global_cell (program_view program.now) number
        (variable_view program.now.spellings variable.now))) result }
    ensures quiet { is_port_failed result ≡ false }
{
    match file_of(program, number) {
        Some(file) => with_number(cells, file),
        None => {
            let more = with_more(0, program.types.cells_of(variable.pas_type))?;
            with_more_blanks(cells, more)
        }
    }
}

// The number of the file that a global is.
fn file_of(program: &TypedProgram, global: usize) -> Option<usize>
    ensures { result ≡ position (λ other. other == global) program.now.files }
{
    program
        .files
        .as_slice()
        .iter()
        .position(|other| *other as usize == global)
}

// Cells, and behind them one that holds a number.
fn with_number(cells: Vec<Cell>, number: usize) -> Result<Vec<Cell>, Stop>
    ensures found { IsFound (λ found. found.items ≡ cells.items ++ cell.Holds (pos number) ∷ []) result }
    ensures quiet { is_port_failed result ≡ false }
{
    let mut cells = cells;
    match i32::try_from(number) {
        Ok(held) => cells.push(Cell::Holds(held))?,
        Err(_) => return Err(Stop::OutOfMemory),
    }
    Ok(cells)
}

// Cells, and behind them so many that hold nothing.
fn with_more_blanks(cells: Vec<Cell>, more: u32) -> Result<Vec<Cell>, Stop>
    ensures found { IsFound (λ found. found.items ≡ cells.items ++ replicate more cell.Undefined) result }
    ensures quiet { is_port_failed result ≡ false }
{
    match cells.len().checked_add(more as usize) {
        Some(count) => with_blanks(cells, count),
        None => Err(Stop::OutOfMemory),
    }
}
