//! Writing the text of a pool.
ghost use Rattle.std.specs.Prelude.{◌≡◌, ◌≢◌, [], OnOk, OnErr, is_err};
ghost use Rattle.wb_ports.specs.Counts.{CountsFailure};
ghost use Rattle.wb_ports.specs.Held.{Gains, GainsPrefix};
ghost use Rattle.web_pool.specs.PoolText.{pool_text};

use crate::Pool;
use crate::entries::pool_line;
use crate::gathering::Gatherer;
use wb_ports::{Failed, Sink};

/// Writes the text of the pool to the sink, which is not called for a pool without strings. It takes no memory. After
/// `Failed` the sink got a prefix of the text.
pub fn write_pool<K: Sink>(pool: &Pool, sink: &mut K) -> Result<(), Failed>
    ensures ok { OnOk result (Gains (pool_text pool.now) (K.held sink.old) (K.held sink.new)) }
    ensures failed { OnErr result (GainsPrefix (pool_text pool.now) (K.held sink.old) (K.held sink.new)) }
    ensures called { OnErr result (pool.now ≢ []) }
    ensures cause { CountsFailure (is_err result) (K.faults sink.old) (K.faults sink.new) }
    ensures frame { K.frame sink.new ≡ K.frame sink.old }
{
    let mut out = Gatherer::new();
    if pool.count() == 0 {
        return Ok(());
    }
    for string in pool.strings() {
        out.write(&pool_line(string), sink)?;
    }
    out.write(b"*000000000\n", sink)?;
    out.hand_on(sink)
}
