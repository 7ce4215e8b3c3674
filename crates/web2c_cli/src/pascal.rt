//! Pascal programs, as they are read from their texts.
ghost use Rattle.std.specs.Prelude.{IfOk, Ok, Err};
ghost use Rattle.wb_base.specs.WorkResult.{IfFault};
ghost use Rattle.web2c_cli.specs.Readings.{IsPascal};
ghost use Rattle.web2c_cli.specs.inner.Running.{pascal_by};

use pas_rules::Typed;
use pas_syntax::parse;
use pas_types::check;
use std::alloc::Global;
use wb_base::WorkErr;

/// A program that breaks no rule.
#[derive(Drop)]
pub struct Pascal {
    /// The program.
    pub program: Typed,
    /// The line of its word `program`.
    pub line: u32,
}

/// The program that a text means.
pub fn read_pascal(alloc: Global, text: &[u8]) -> Result<Pascal, WorkErr>
    ensures ok { IfOk result (λ pascal. IsPascal text.now (Ok (pascal_by pascal))) }
    ensures fault { IfFault result (λ fault. IsPascal text.now (Err fault)) }
{
    let read = parse(alloc, text)?;
    let program = check(alloc, &read)?;
    Ok(Pascal {
        program,
        line: read.tree().head.line,
    })
}
