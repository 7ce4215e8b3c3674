//! How names and strings are refused.
ghost use Rattle.std.specs.Prelude.{◌≡◌, ◌≢◌};
ghost use Rattle.wb_base.specs.FaultAt.{fault_at, limit_passed};
ghost use Rattle.web_scan.specs.Refusals.{name_fault};
ghost use Rattle.web_scan.specs.inner.Refused.{work_error_of_name, work_error_of_string};

use wb_base::faults::{
    INCOMPATIBLE_NAMES, LIMIT_STRINGS, NAME_APPEARED, NAME_CONFLICT, NAME_DEFINED, NO_NAME_MATCHES,
    POOL_STRING_TOO_LONG, SEVERAL_NAMES_MATCH,
};
use wb_base::{Fault, Place, WorkErr};
use web_names::NameErr;
use web_pool::PoolErr;

// What a refused name makes of the scan, where this place shows it; `which` is the limit of names of its kind.
pub(crate) fn refused_name(which: u8, place: Place, refusal: NameErr) -> WorkErr
    ensures { result ≡ work_error_of_name which place refusal }
{
    let code = match refusal {
        NameErr::Appeared => NAME_APPEARED,
        NameErr::Before => NAME_DEFINED,
        NameErr::Conflict => NAME_CONFLICT,
        NameErr::NoMatch => NO_NAME_MATCHES,
        NameErr::Ambiguous => SEVERAL_NAMES_MATCH,
        NameErr::Incompatible => INCOMPATIBLE_NAMES,
        NameErr::Full => return WorkErr::Fault(Fault::limit(which, place)),
        NameErr::OutOfMemory => return WorkErr::OutOfMemory,
    };
    WorkErr::Fault(Fault::at(code, place))
}

// What a refused string makes of the scan, where this place shows it.
pub(crate) fn refused_string(place: Place, refusal: PoolErr) -> WorkErr
    ensures { result ≡ work_error_of_string place refusal }
{
    match refusal {
        PoolErr::TooLong => WorkErr::Fault(Fault::at(POOL_STRING_TOO_LONG, place)),
        PoolErr::Full => WorkErr::Fault(Fault::limit(LIMIT_STRINGS, place)),
        PoolErr::OutOfMemory => WorkErr::OutOfMemory,
    }
}
