//! What the rows of webs share.
use change_merge::{Lines, lines, merge, parse_changes};
use std::alloc::Global;
use wb_base::{Case, FileTag, Options, WorkErr};
use web_scan::{Web, scan};

pub(crate) const BY_DEFAULT: Options = Options {
    length: 32,
    underline: false,
    case: Case::Mixed,
    strict: false,
};

// Macros whose arguments stand behind them one after another.
pub(crate) const HELPERS: &[u8] =
    b"@ @d hlp1(#)==p(#);end\n@d hlp2(#)==p(#);hlp1\n@d help2==begin hlp2\n@p help2(a)(b)";

// Numeric macros.
pub(crate) const NUMERIC: &[u8] = b"@ @d mm=-3\n@d nn=mm+@'17+@\"F+\"a\"\n@p x*mm;x-mm;x:=nn";

// The lines of the web with the change file.
pub(crate) fn merged(alloc: Global, web: &[u8], change: &[u8]) -> Result<Lines, WorkErr> {
    let changes = parse_changes(alloc, change)?;
    merge(alloc, web, &changes)
}

// The scan of a web with this text.
pub(crate) fn scan_text(alloc: Global, text: &[u8], options: Options) -> Result<Web, WorkErr> {
    let list = lines(alloc, FileTag::Web, text)?;
    scan(alloc, &list, options)
}
