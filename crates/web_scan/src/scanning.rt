//! The scan of a web.
ghost use Rattle.std.specs.Prelude.{◌≡◌, Ok, Err, IfOk};
ghost use Rattle.wb_base.specs.WorkResult.{IfFault};
ghost use Rattle.web_scan.specs.Scan.{scan_of};

use crate::scanner::Scanner;
use crate::web::Web;
use change_merge::Lines;
use std::alloc::Global;
use wb_base::{Options, WorkErr};

/// Scans a web. Its lines are those of the merged web.
///
/// The fault is that of the earliest token that shows one. At one token the faults of reading come first, then the
/// token's other faults, then a limit. Faults of reading (8 to 14, 18, 35 and 43) are those of [`web_lex::Reader`];
/// beside them: 15 a string in double quotes that is too long; 16 and 17 a definition and a numeric definition out of
/// form; 18 a number or a sum that is too big; 19 a numeric name that appeared before; 20 a name that is a macro
/// already; 21 a word that looks like an earlier one; 22 parentheses of a text that do not balance; 23 a section name
/// without its equals sign; 24 a definition in Pascal text; 25 and 26 a prefix of no name and of several; 27 a section
/// name that another one begins with; 28 a limit: of names (2), section names (3), stored tokens (4), string numbers
/// (5) or sections (6).
pub fn scan(alloc: Global, lines: &Lines, options: Options) -> Result<Web, WorkErr>
    ensures ok { IfOk result (λ web. scan_of options lines.now ≡ Ok web) }
    ensures fault { IfFault result (λ fault. scan_of options lines.now ≡ Err fault) }
{
    let mut scanner = Scanner::new(alloc, options, lines);
    let first = scanner.skip_ahead();
    scanner.sections(first)?;
    Ok(scanner.into_web())
}
